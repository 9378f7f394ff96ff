// Every field is in the range given, and stored numbers are writable.
use crate::show::{clause, show};
use crate::states::{mh, phase, run_of, stopped, with_core, with_last, with_run};
use dispense::{Ledger, Pair};
use line::Line;
use program::{Core, Run, Work};
use pump::Pump;
use std::io;
use std::io::Write;
use words::Function;

pub fn fields(output: &mut impl Write) -> io::Result<()> {
    clause(b"every field is in the range given here", output)?;
    diameters(output)?;
    places(output)?;
    figures(output)?;
    traps(output)
}

fn diameters(output: &mut impl Write) -> io::Result<()> {
    diameter(b"diameter 100", 100, output)?;
    diameter(b"diameter 99", 99, output)?;
    diameter(b"diameter 50,000", 50_000, output)?;
    diameter(b"diameter 50,010", 50_010, output)
}

fn places(output: &mut impl Write) -> io::Result<()> {
    chosen(b"chosen phase 41", 41, output)?;
    chosen(b"chosen phase 0", 0, output)?;
    chosen(b"chosen phase 42", 42, output)?;
    at(b"current phase 42", 42, output)?;
    at(b"current phase 0", 0, output)?;
    at(b"current phase 43", 43, output)
}

fn figures(output: &mut impl Write) -> io::Result<()> {
    totals(b"totals 10^18", Pump::MOST_TOTAL, Pump::MOST_TOTAL, output)?;
    totals(b"infused 10^18 + 1", Pump::MOST_TOTAL + 1, 0, output)?;
    totals(b"withdrawn 10^18 + 1", 0, Pump::MOST_TOTAL + 1, output)?;
    rate(b"current rate 9,999.000", 9_999_000, output)?;
    rate(b"current rate 9,999.001", 9_999_001, output)
}

fn traps(output: &mut impl Write) -> io::Result<()> {
    trap(b"trap to phase 41", 41, output)?;
    trap(b"trap to phase 0", 0, output)?;
    trap(b"trap to phase 42", 42, output)
}

pub fn data(output: &mut impl Write) -> io::Result<()> {
    let cases: [(&[u8], Function); 17] = [
        (b"JMP 41", Function::Jmp(41)),
        (b"JMP 0", Function::Jmp(0)),
        (b"JMP 42", Function::Jmp(42)),
        (b"LOP 99", Function::Lop(99)),
        (b"LOP 0", Function::Lop(0)),
        (b"LOP 100", Function::Lop(100)),
        (b"PAS 0", Function::Pas(0)),
        (b"PAS 100", Function::Pas(100)),
        (b"PAS 9.9", Function::Tenths(99)),
        (b"PAS 0.0", Function::Tenths(0)),
        (b"PAS 10.0", Function::Tenths(100)),
        (b"IF 0", Function::If(0)),
        (b"IF 42", Function::If(42)),
        (b"EVN 0", Function::Evn(0)),
        (b"EVN 42", Function::Evn(42)),
        (b"OUT 1", Function::Out(1)),
        (b"OUT 2", Function::Out(2)),
    ];
    for (name, function) in cases {
        show(name, with_last(phase(function, 0, 0)), output)?;
    }
    Ok(())
}

pub fn lines(output: &mut impl Write) -> io::Result<()> {
    line(b"a line of 40, over-long", 40, b'A', true, output)?;
    line(b"a line of 41", 41, b'A', false, output)?;
    line(b"a line of 39, over-long", 39, b'A', true, output)?;
    line(b"a lower case letter in the line", 1, b'a', false, output)?;
    line(b"a blank in the line", 1, b' ', false, output)?;
    line(b"a delete in the line", 1, 127, false, output)?;
    line(b"byte 255 in the line", 1, 255, false, output)
}

pub fn numbers(output: &mut impl Write) -> io::Result<()> {
    clause(b"stored numbers are writable", output)?;
    diameter(b"diameter 10,001", 10_001, output)?;
    stored(b"rate 99,990 in STP", 99_990, 0, output)?;
    stored(b"rate 99,991 in STP", 99_991, 0, output)?;
    stored(b"volume 9,999,000 in STP", 0, 9_999_000, output)?;
    stored(b"volume 10,000,000 in STP", 0, 10_000_000, output)
}

// Numbers stored where nothing uses them.
fn stored(name: &[u8], rate: u32, volume: u32, output: &mut impl Write) -> io::Result<()> {
    show(name, with_last(phase(Function::Stp, rate, volume)), output)
}

fn core() -> Core {
    let device = stopped().device;
    device.core
}

fn diameter(name: &[u8], micrometres: u16, output: &mut impl Write) -> io::Result<()> {
    let mut core = core();
    core.syringe.diameter = micrometres;
    show(name, with_core(stopped(), core), output)
}

fn chosen(name: &[u8], n: u8, output: &mut impl Write) -> io::Result<()> {
    let mut core = core();
    core.chosen = n;
    show(name, with_core(stopped(), core), output)
}

fn totals(name: &[u8], infused: u64, withdrawn: u64, output: &mut impl Write) -> io::Result<()> {
    let mut core = core();
    let ledger = Ledger {
        totals: Pair { infused, withdrawn },
    };
    core.ledger = ledger;
    show(name, with_core(stopped(), core), output)
}

fn at(name: &[u8], n: u8, output: &mut impl Write) -> io::Result<()> {
    show(name, with_run(stopped(), Run::start(n)), output)
}

fn rate(name: &[u8], x: u32, output: &mut impl Write) -> io::Result<()> {
    let run = run_of(Work::Entering, 1).with_rate(mh(x));
    show(name, with_run(stopped(), run), output)
}

fn trap(name: &[u8], n: u8, output: &mut impl Write) -> io::Result<()> {
    let run = run_of(Work::Entering, 1).with_trap(Some(n));
    show(name, with_run(stopped(), run), output)
}

// A line of so many characters, all the same.
fn line(name: &[u8], len: u8, c: u8, overlong: bool, output: &mut impl Write) -> io::Result<()> {
    let line = Line {
        bytes: [c; 40],
        len,
        overlong,
    };
    show(name, with_line(line), output)
}

fn with_line(line: Line) -> Pump {
    let pump = stopped();
    pump.with_device(pump.device.with_line(line))
}
