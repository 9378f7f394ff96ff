// Many ticks at once (document 02, 1/12): as many as may be taken without entering a phase or ending anything, in one step. The law says
// that they are that many ticks, one after the other; how many are tried is a guess, and nothing but speed rests on it.
//
//   hops       ticks that only move the program on
//   pace       the time store of a visit, its rate and its threshold
//   strides    the steps and the time store of many working ticks
//   visits     many working ticks of a visit
//   pauses     many ticks of a timed pause
//   reach      how many ticks of a visit to try
#![tactic(auto)]

mod hops;
mod pace;
mod pauses;
mod reach;
mod strides;
mod visits;

ghost use Rattle.std.specs.Prelude.{◌≡◌, ◌≤◌};
ghost use Rattle.leap.specs.Leaps.{Leap, most_ticks};
ghost use Rattle.leap.specs.Reports.{silent_for, worked_for};
ghost use Rattle.tick.specs.Ticks.{Ready};

use drive::Direction;
pub use hops::{Hopped, hop};
use pauses::{before_last, leap_pause};
use program::{Core, Work};
use reach::reach;
use visits::{Strode, leap_visit};
use words::Phase;

// The most ticks of one call.
pub const MOST_TICKS: u32 = 1_000_000;

// So many ticks: the core after them, and the steps that they gave. None of them beeps.
#[derive(Clone, Copy)]
pub struct Leapt {
    pub core: Core,
    pub ticks: u32,
    pub infused: u32,
    pub withdrawn: u32,
}

// As many of n ticks as may be taken at once, with the current phase in hand; often none.
pub fn leap(core: Core, here: Phase, n: u32) -> Leapt
    requires { Ready core here × (n ≤ most_ticks) }
    ensures { Leap core here n result }
{
    if !core.run.is_operating() {
        return silent_for(core, n);
    }
    match core.run.place.work {
        Work::Entering => silent_for(core, 0),
        Work::Visiting(visit) => {
            let ticks = reach(core, here.direction, visit, n);
            if ticks == 0 {
                return silent_for(core, 0);
            }
            let strode = leap_visit(core, here.direction, visit, ticks);
            worked_for(core, here.direction, strode)
        }
        Work::Pausing(left) => {
            let ticks = before_last(left, n);
            silent_for(core.with_run(leap_pause(core.run, left, ticks)), ticks)
        }
        Work::Waiting => silent_for(core, n),
    }
}

// Ticks that give no step.
fn silent_for(core: Core, ticks: u32) -> Leapt
    ensures { result ≡ silent_for core ticks }
{
    Leapt {
        core,
        ticks,
        infused: 0,
        withdrawn: 0,
    }
}

// The steps of a visit's ticks are reported in the phase's direction.
fn worked_for(mut core: Core, direction: Direction, strode: Strode) -> Leapt
    ensures { result ≡ worked_for core direction strode }
{
    core.run = strode.run;
    core.ledger = strode.ledger;
    match direction {
        Direction::Infuse => Leapt {
            core,
            ticks: strode.ticks,
            infused: strode.steps,
            withdrawn: 0,
        },
        Direction::Withdraw => Leapt {
            core,
            ticks: strode.ticks,
            infused: 0,
            withdrawn: strode.steps,
        },
    }
}
