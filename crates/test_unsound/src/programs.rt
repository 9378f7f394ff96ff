// The clauses on the program under way.
use crate::show::{clause, show};
use crate::states::{
    THRESHOLD, begun, loops_of, mh, phase, run_of, running, stopped, visiting, with_run,
};
use dispense::Rate;
use loops::{Loop, Loops};
use program::{Mode, Run, Work};
use std::io;
use std::io::Write;
use words::{Alarm, Function};

pub fn loops(output: &mut impl Write) -> io::Result<()> {
    clause(
        b"open loops are at most three and begun by different phases, with at most 98 passes",
        output,
    )?;
    looping(
        b"three loops",
        loops_of(3, begun(0, 98), begun(41, 0), begun(2, 1)),
        output,
    )?;
    looping(
        b"four loops",
        loops_of(4, begun(0, 98), begun(41, 0), begun(2, 1)),
        output,
    )?;
    looping(
        b"two begun by one phase",
        loops_of(3, begun(7, 0), begun(1, 0), begun(7, 1)),
        output,
    )?;
    looping(
        b"a closed place begun by the same phase",
        loops_of(1, begun(7, 0), begun(7, 0), begun(7, 200)),
        output,
    )?;
    loops_out_of_range(output)
}

fn loops_out_of_range(output: &mut impl Write) -> io::Result<()> {
    looping(b"begun by phase 42", one_loop(begun(42, 0)), output)?;
    looping(
        b"99 passes",
        loops_of(2, begun(1, 0), begun(2, 99), begun(0, 0)),
        output,
    )
}

pub fn visits(output: &mut impl Write) -> io::Result<()> {
    stores(output)?;
    targets(output)?;
    steps_given(output)?;
    rates(output)
}

fn stores(output: &mut impl Write) -> io::Result<()> {
    clause(b"the time store is below the step threshold", output)?;
    visit(
        b"store one below the threshold",
        1,
        10,
        50,
        THRESHOLD - 1,
        output,
    )?;
    visit(
        b"store equal to the threshold",
        1,
        10,
        50,
        THRESHOLD,
        output,
    )
}

fn targets(output: &mut impl Write) -> io::Result<()> {
    clause(
        b"the visit's step target is the one its phase, volume and diameter give",
        output,
    )?;
    visit(b"target 49 for 50", 1, 10, 49, 5, output)?;
    visit(b"target 1 in a continuous visit", 2, 0, 1, 5, output)?;
    too_small(b"target 0, volume too small for a step", output)
}

fn steps_given(output: &mut impl Write) -> io::Result<()> {
    clause(
        b"steps given are below it (a continuous visit has no target and counts none)",
        output,
    )?;
    visit(b"49 of 50 given", 1, 49, 50, 5, output)?;
    visit(b"50 of 50 given", 1, 50, 50, 5, output)?;
    visit(b"a continuous visit that counts none", 2, 0, 0, 5, output)?;
    visit(b"a continuous visit that counts one", 2, 1, 0, 5, output)
}

fn rates(output: &mut impl Write) -> io::Result<()> {
    clause(
        b"a visit under way has a usable rate, and stands only in a RAT, INC or DEC phase",
        output,
    )?;
    at_rate(b"282.7 MH", mh(282_700), output)?;
    at_rate(b"282.8 MH", mh(282_800), output)?;
    at_rate(b"rate 0", mh(0), output)?;
    at_rate(b"no rate", None, output)?;
    visit(b"a visit in PAS", 3, 0, 0, 5, output)?;
    visit(b"a visit past the last phase", 42, 0, 0, 5, output)
}

pub fn pauses(output: &mut impl Write) -> io::Result<()> {
    clause(
        b"a timed pause stands in a PAS phase above 0 with 1 to its full number of ticks left, a trigger wait in PAS 0",
        output,
    )?;
    doing(
        b"2,000 ticks left of PAS 2",
        Work::Pausing(2_000),
        3,
        output,
    )?;
    doing(b"2,001 ticks left", Work::Pausing(2_001), 3, output)?;
    doing(b"0 ticks left", Work::Pausing(0), 3, output)?;
    doing(b"a timed pause in PAS 0", Work::Pausing(1), 4, output)?;
    doing(b"a trigger wait in PAS 0", Work::Waiting, 4, output)?;
    doing(b"a trigger wait in PAS 2", Work::Waiting, 3, output)
}

pub fn stops(output: &mut impl Write) -> io::Result<()> {
    clause(
        b"a stopped pump has none of these three and no trap, loop or current rate",
        output,
    )?;
    let run = Run::fresh_at(4, Mode::Stopped(Some(Alarm::Program)));
    standing(b"stopped by an alarm", run, output)?;
    standing(b"stopped in a wait", run.doing(Work::Waiting), output)?;
    standing(b"stopped with a trap", run.with_trap(Some(1)), output)?;
    standing(
        b"stopped with a loop",
        run.with_loops(one_loop(begun(1, 0))),
        output,
    )?;
    standing(b"stopped with a rate", run.with_rate(mh(1)), output)?;
    standing(b"paused in a wait, with all of them", paused(), output)
}

fn standing(name: &[u8], run: Run, output: &mut impl Write) -> io::Result<()> {
    show(name, with_run(stopped(), run), output)
}

fn looping(name: &[u8], loops: Loops, output: &mut impl Write) -> io::Result<()> {
    standing(name, run_of(Work::Entering, 1).with_loops(loops), output)
}

fn one_loop(first: Loop) -> Loops {
    loops_of(1, first, begun(0, 0), begun(0, 0))
}

fn visit(
    name: &[u8],
    n: u8,
    given: u64,
    target: u64,
    store: u64,
    output: &mut impl Write,
) -> io::Result<()> {
    show(name, visiting(n, given, target, store), output)
}

fn doing(name: &[u8], work: Work, n: u8, output: &mut impl Write) -> io::Result<()> {
    show(name, running(work, n), output)
}

fn at_rate(name: &[u8], rate: Option<Rate>, output: &mut impl Write) -> io::Result<()> {
    let pump = visiting(1, 10, 50, 5);
    show(
        name,
        with_run(pump, pump.device.core.run.with_rate(rate)),
        output,
    )
}

// 0.019 microlitres are less than a step: such a visit has ended at its entry, and is not continuous.
fn too_small(name: &[u8], output: &mut impl Write) -> io::Result<()> {
    let pump = visiting(1, 0, 0, 5).with_phase(1, phase(Function::Rat, 200_000, 19));
    show(name, pump, output)
}

fn paused() -> Run {
    run_of(Work::Waiting, 4)
        .with_loops(one_loop(begun(1, 0)))
        .pause()
}
