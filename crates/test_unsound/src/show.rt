// A case's line: its name, and the refusals of its ten calls.
use pump::{Pump, Report};
use std::io;
use std::io::Write;

// A clause, in the document's words.
pub fn clause(text: &[u8], output: &mut impl Write) -> io::Result<()> {
    output.write_all(b"# ")?;
    output.write_all(text)?;
    output.write_all(b"\n")
}

pub fn show(name: &[u8], pump: Pump, output: &mut impl Write) -> io::Result<()> {
    let mut room = [0u8; 24];
    let mut short = [0u8; 23];
    output.write_all(name)?;
    output.write_all(b":")?;
    shown(pump.tick(&mut room), output)?;
    edge(pump, 2, 0, output)?;
    heard(pump, &mut room, output)?;
    edge(pump, 9, 7, output)?;
    edge(pump, 2, 7, output)?;
    heard(pump, &mut short, output)?;
    shown(pump.ticks(1_000, &mut room), output)?;
    shown(pump.ticks(1_000_001, &mut room), output)?;
    shown(pump.tick(&mut short), output)?;
    shown(pump.ticks(1_000_001, &mut short), output)?;
    output.write_all(b"\n")
}

fn edge(pump: Pump, pin: u8, level: u8, output: &mut impl Write) -> io::Result<()> {
    shown(pump.pin(pin, level), output)
}

// A return, with a buffer for its answer.
fn heard(pump: Pump, out: &mut [u8], output: &mut impl Write) -> io::Result<()> {
    shown(pump.byte(13, out), output)
}

fn shown(report: Report, output: &mut impl Write) -> io::Result<()> {
    let number = report.refusal_number();
    write!(output, " {number}")
}
