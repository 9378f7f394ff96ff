// One tick (document 01, Ticks and phases): it enters the current phase or works the entered one, and nothing moves unless the program
// runs. A rule takes what it reads and returns what it may change: entering changes the program under way alone, working a visit also the
// ledger. No table of phases is known here: the current phase is handed in, and past the last one the caller hands in one that stops.
//
//   entering    entering a phase, function by function
//   working     working an entered phase: visit, timed pause
#![tactic(auto)]

mod entering;
mod working;

ghost use Rattle.std.specs.Prelude.{◌≡◌};
ghost use Rattle.tick.specs.Entering.{Enterable};
ghost use Rattle.tick.specs.Ticks.{Ready, output_after, entered, worked, silent, tick};

use drive::Direction;
use entering::enter;
use program::{Core, Work};
use words::{Function, Phase};
pub use working::Given;
use working::{work_pause, work_visit};

// What a tick does: the next core, the steps in each direction, and whether it beeps.
#[derive(Clone, Copy)]
pub struct Moved {
    pub core: Core,
    pub infused: u8,
    pub withdrawn: u8,
    pub beep: bool,
}

// A tick, with the current phase in hand.
pub fn tick(core: Core, here: Phase) -> Moved
    requires { Ready core here }
    ensures { result ≡ tick core here }
{
    if !core.run.is_operating() {
        return silent(core);
    }
    match core.run.place.work {
        Work::Entering => entered(core, here),
        Work::Visiting(visit) => worked(
            core,
            here.direction,
            work_visit(core, here.direction, visit),
        ),
        Work::Pausing(left) => silent(core.with_run(work_pause(core.run, left))),
        Work::Waiting => silent(core),
    }
}

// Entering gives no step; only BEP beeps, and only OUT sets the output.
fn entered(mut core: Core, here: Phase) -> Moved
    requires { Enterable core.run }
    ensures { result ≡ entered core here }
{
    let after = enter(core.run, core.pins, core.syringe, here);
    let output = output_after(here.function, core.output);
    core.run = after;
    core.output = output;
    Moved {
        core,
        infused: 0,
        withdrawn: 0,
        beep: here.function.is_beep(),
    }
}

// A working tick's steps are reported in the phase's direction.
fn worked(mut core: Core, direction: Direction, given: Given) -> Moved
    ensures { result ≡ worked core direction given }
{
    let run = given.run;
    let ledger = given.ledger;
    core.run = run;
    core.ledger = ledger;
    match direction {
        Direction::Infuse => Moved {
            core,
            infused: given.steps,
            withdrawn: 0,
            beep: false,
        },
        Direction::Withdraw => Moved {
            core,
            infused: 0,
            withdrawn: given.steps,
            beep: false,
        },
    }
}

// A tick that gives no step and does not beep.
pub fn silent(core: Core) -> Moved
    ensures { result ≡ silent core }
{
    Moved {
        core,
        infused: 0,
        withdrawn: 0,
        beep: false,
    }
}

// OUT sets the level, and nothing else does.
fn output_after(function: Function, output: bool) -> bool
    ensures { result ≡ output_after function output }
{
    if function.is_out() {
        return 0 < function.datum();
    }
    output
}
