// Entering a phase, function by function. Entering does no work: a visit's first step comes with a later tick. It changes the program
// under way alone; the beep of BEP and the level of OUT are the tick's.
ghost use Rattle.std.specs.Prelude.{◌≡◌, ◌≤◌};
ghost use Rattle.tick.specs.Entering.{begin_visit, enter_rate, enter_pause, start_loop, pass_loop, end_loop, jump_if, arm_trap, clear_trap};
ghost use Rattle.tick.specs.Entering.{Enterable, enter};
ghost use Rattle.loops.specs.Loops.{Turning};

use dispense::{Rate, Visit};
use drive::Syringe;
use program::{Pins, Run, Work};
use words::{Alarm, Function, Phase};

// RAT, INC and DEC meet in one call, so that the compiler takes it in here and keeps the run in registers.
pub fn enter(run: Run, pins: Pins, syringe: Syringe, here: Phase) -> Run
    requires { Enterable run }
    ensures { result ≡ enter run pins syringe here }
{
    let rate = match here.function {
        Function::Rat => Some(Rate {
            unit: here.unit,
            thousandths: here.rate,
        }),
        Function::Inc => Rate::increase(run.rate, here.rate),
        Function::Dec => Rate::decrease(run.rate, here.rate),
        Function::Stp => return run.stop(),
        Function::Jmp(n) => return run.go_to(n),
        Function::Lop(n) => return pass_loop(run, n),
        Function::Lps => return start_loop(run),
        Function::Lpe => return end_loop(run),
        Function::Pas(_) => return enter_pause(run, here.function.pause_ticks()),
        Function::Tenths(_) => return enter_pause(run, here.function.pause_ticks()),
        Function::If(n) => return jump_if(run, pins.six, n),
        Function::Evn(n) => return arm_trap(run, pins.four, n),
        Function::Evr => return clear_trap(run),
        Function::Bep => return run.go_on(),
        Function::Out(_) => return run.go_on(),
    };
    enter_rate(run, syringe, here, rate)
}

// RAT, INC and DEC, with the rate that is to be the current one.
fn enter_rate(run: Run, syringe: Syringe, here: Phase, rate: Option<Rate>) -> Run
    requires { run.place.current ≤ 100 }
    ensures { result ≡ enter_rate run syringe here rate }
{
    if Rate::is_usable(rate, syringe) {
        return begin_visit(run.with_rate(rate), syringe, here);
    }
    run.raise(Alarm::Program)
}

// A visit under way from here, or one that ends at entry: a volume too small for a step.
fn begin_visit(run: Run, syringe: Syringe, here: Phase) -> Run
    requires { run.place.current ≤ 100 }
    ensures { result ≡ begin_visit run syringe here }
{
    let target = syringe.step_target(here.volume);
    if (0 < here.volume) & (target == 0) {
        return run.go_on();
    }
    let visit = Visit {
        given: 0,
        target,
        store: 0,
    };
    run.doing(Work::Visiting(visit))
}

// PAS: timed, or the trigger wait. Both drop the current rate.
fn enter_pause(run: Run, ticks: u32) -> Run
    ensures { result ≡ enter_pause run ticks }
{
    let unrated = run.with_rate(None);
    if ticks == 0 {
        return unrated.doing(Work::Waiting);
    }
    unrated.doing(Work::Pausing(ticks))
}

// LPS
fn start_loop(run: Run) -> Run
    requires { run.place.current ≤ 100 }
    ensures { result ≡ start_loop run }
{
    let Some(loops) = run.loops.lps(run.place.current) else {
        return run.raise(Alarm::Program);
    };
    run.with_loops(loops).go_on()
}

// LOP n
fn pass_loop(run: Run, n: u8) -> Run
    requires { Turning run.loops run.place.current }
    ensures { result ≡ pass_loop run n }
{
    let turn = run.loops.lop(n, run.place.current);
    run.with_loops(turn.loops).go_to(turn.next)
}

// LPE
fn end_loop(run: Run) -> Run
    requires { Turning run.loops run.place.current }
    ensures { result ≡ end_loop run }
{
    let turn = run.loops.lpe();
    run.with_loops(turn.loops).go_to(turn.next)
}

// IF n: pin 6 low jumps.
fn jump_if(run: Run, six: bool, n: u8) -> Run
    requires { run.place.current ≤ 100 }
    ensures { result ≡ jump_if run six n }
{
    if six {
        return run.go_on();
    }
    run.go_to(n)
}

// EVN n: with pin 4 low the trap fires now, else it is set.
fn arm_trap(run: Run, four: bool, n: u8) -> Run
    requires { run.place.current ≤ 100 }
    ensures { result ≡ arm_trap run four n }
{
    if four {
        return run.with_trap(Some(n)).go_on();
    }
    run.fire(n)
}

// EVR
fn clear_trap(run: Run) -> Run
    requires { run.place.current ≤ 100 }
    ensures { result ≡ clear_trap run }
{
    run.with_trap(None).go_on()
}
