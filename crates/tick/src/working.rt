// Working an entered phase: a tick of a visit, a tick of a timed pause.
ghost use Rattle.std.specs.Prelude.{◌≡◌, ◌≤◌};
ghost use Rattle.tick.specs.Working.{Giving, AtRate, after_visit, give_steps, work_visit, work_pause};

use dispense::{Ledger, Visit};
use drive::Direction;
use program::{Core, Run, Work};
use words::Alarm;

// What a working tick of a visit makes of the program and the ledger, and the steps that it gives.
#[derive(Clone, Copy)]
pub struct Given {
    pub run: Run,
    pub ledger: Ledger,
    pub steps: u8,
}

// A working tick of a visit, at the current rate; a sound visit has one.
pub fn work_visit(core: Core, direction: Direction, visit: Visit) -> Given
    requires { AtRate core.run core.ledger core.syringe direction visit }
    ensures { result ≡ work_visit core.run core.ledger core.syringe direction visit }
{
    let Some(rate) = core.run.rate else {
        return Given {
            run: core.run,
            ledger: core.ledger,
            steps: 0,
        };
    };
    let hourly = drive::hourly_rate(rate.thousandths, rate.unit);
    give_steps(core, direction, visit, hourly)
}

// The steps are worked out once. Where their volume would bring the total past its limit none of them is given: alarm E.
fn give_steps(core: Core, direction: Direction, visit: Visit, hourly: u64) -> Given
    requires { Giving core.run core.ledger core.syringe direction visit hourly }
    ensures { result ≡ give_steps core.run core.ledger core.syringe direction visit hourly }
{
    let worked = visit.work(hourly, core.syringe.step_threshold());
    let dose = worked.steps * core.syringe.step_volume();
    if core.ledger.total_of(direction) + dose <= dispense::MOST_TOTAL {
        return Given {
            run: after_visit(core.run, worked.visit),
            ledger: core.ledger.book(direction, dose),
            steps: worked.steps as u8,
        };
    }
    Given {
        run: core.run.raise(Alarm::Program),
        ledger: core.ledger,
        steps: 0,
    }
}

// Where the program stands after a working tick: on to the next phase if the target is reached.
fn after_visit(run: Run, visit: Visit) -> Run
    requires { run.place.current ≤ 100 }
    ensures { result ≡ after_visit run visit }
{
    if visit.is_done() {
        return run.go_on();
    }
    run.doing(Work::Visiting(visit))
}

// A working tick of a timed pause, which ends on its last.
pub fn work_pause(run: Run, left: u32) -> Run
    requires { run.place.current ≤ 100 }
    ensures { result ≡ work_pause run left }
{
    if left <= 1 {
        return run.go_on();
    }
    run.doing(Work::Pausing(left - 1))
}
