// Many working ticks of a visit at once, as long as they stay short of its target and of the total's limit. Both are tested at the end of
// the leap: fewer ticks give fewer steps.
ghost use Rattle.std.specs.Prelude.{◌≡◌, ◌≤◌, true};
ghost use Rattle.leap.specs.Leaps.{most_ticks};
ghost use Rattle.leap.specs.Visits.{is_short, visit_after, none, leap_at, leap_visit};
ghost use Rattle.tick.specs.Working.{Giving, AtRate};

use crate::pace::Pace;
use crate::strides::Stride;
use dispense::{Ledger, Visit};
use drive::Direction;
use program::{Core, Run, Work};

// What some working ticks of a visit make of the program and the ledger, the steps that they give, and how many ticks they are.
#[derive(Clone, Copy)]
pub struct Strode {
    pub run: Run,
    pub ledger: Ledger,
    pub steps: u32,
    pub ticks: u32,
}

// So many working ticks of a visit, at the current rate, or none; a sound visit has a rate.
pub fn leap_visit(core: Core, direction: Direction, visit: Visit, ticks: u32) -> Strode
    requires { AtRate core.run core.ledger core.syringe direction visit × (ticks ≤ most_ticks) }
    ensures { result ≡ leap_visit core.run core.ledger core.syringe direction visit ticks }
{
    let Some(rate) = core.run.rate else {
        return none(core);
    };
    let hourly = drive::hourly_rate(rate.thousandths, rate.unit);
    leap_at(core, direction, visit, hourly, ticks)
}

fn leap_at(core: Core, direction: Direction, visit: Visit, hourly: u64, ticks: u32) -> Strode
    requires { Giving core.run core.ledger core.syringe direction visit hourly × (ticks ≤ most_ticks) }
    ensures { result ≡ leap_at core.run core.ledger core.syringe direction visit hourly ticks }
{
    let left = visit.target - visit.given;
    let pace = Pace {
        store: visit.store,
        hourly,
        threshold: core.syringe.step_threshold(),
    };
    let stride = pace.stride(ticks, left);
    let dose = stride.steps * core.syringe.step_volume();
    let short = is_short(visit, stride.steps);
    if short & (core.ledger.total_of(direction) + dose <= dispense::MOST_TOTAL) {
        return Strode {
            run: core.run.doing(Work::Visiting(visit_after(visit, stride))),
            ledger: core.ledger.book(direction, dose),
            steps: stride.steps as u32,
            ticks,
        };
    }
    none(core)
}

fn none(core: Core) -> Strode
    ensures { result ≡ none core.run core.ledger }
{
    Strode {
        run: core.run,
        ledger: core.ledger,
        steps: 0,
        ticks: 0,
    }
}

// Whether so many steps more stay short of the target. What is left of it is compared, so that no sum overflows.
fn is_short(visit: Visit, steps: u64) -> bool
    requires { visit.given ≤ visit.target }
    ensures { result ≡ is_short visit steps }
{
    (visit.target == 0) | (steps < visit.target - visit.given)
}

// The visit after a stride; a continuous one counts no steps.
fn visit_after(visit: Visit, stride: Stride) -> Visit
    requires { is_short visit stride.steps ≡ true }
    ensures { result ≡ visit_after visit stride }
{
    let given = visit.given;
    let target = visit.target;
    if target == 0 {
        return Visit {
            given,
            target,
            store: stride.store,
        };
    }
    Visit {
        given: given + stride.steps,
        target,
        store: stride.store,
    }
}
