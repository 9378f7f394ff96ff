// What a line asks for, said as the answer that the query of the same name would get.
use answer::Frame;
use drive::VolumeUnit;
use line::Line;
use std::io;
use std::io::Write;
use words::{Command, Reply, Said, Status};

// > text: the bytes are sent one by one, and a return. Another address shows nothing.
pub fn line(s: &[u8], out: &mut impl Write) -> io::Result<()> {
    let mut line = Line::empty();
    for &b in s {
        line = line.after_byte(b).line;
    }
    if line.address_in() == 0 {
        reply(echo(line.command_in()), out)?;
    }
    Ok(())
}

// The answer's text, without STX and ETX.
fn reply(r: Reply, out: &mut impl Write) -> io::Result<()> {
    let mut framed = [0u8; 24];
    let n = answer::write(
        Frame::Line,
        0,
        Said::Answer(Status::Stopped, r),
        &mut framed,
    );
    if 2 <= n && n <= 24 {
        out.write_all(&framed[1..n - 1])?;
    }
    Ok(())
}

// A setting as its query would give it back at 10 mm, DIA and FUN where their data are in range; RUN n and CLD as their data, DIS
// as two totals of 0; every other query or action as the status alone.
fn echo(c: Command) -> Reply {
    match c {
        Command::Malformed => Reply::Malformed,
        Command::SetDiameter(x) if drive::is_diameter(x) => Reply::Number(x),
        Command::SetDiameter(_) => Reply::OutOfRange,
        Command::SetRate(x, None) => Reply::Number(x),
        Command::SetRate(x, Some(unit)) => Reply::Rate(x, unit),
        Command::SetVolume(x) => Reply::Volume(x, VolumeUnit::Microlitre),
        Command::SetDirection(d) | Command::Clear(d) => Reply::Direction(d),
        Command::SetPhase(n) | Command::RunFrom(n) => Reply::Phase(n),
        Command::SetFunction(f) if f.fits(41) => Reply::Function(f),
        Command::SetFunction(_) => Reply::OutOfRange,
        Command::AskDispensed => Reply::Totals(0, 0, VolumeUnit::Microlitre),
        _ => Reply::Status,
    }
}

pub fn volume_unit(unit: VolumeUnit, out: &mut impl Write) -> io::Result<()> {
    match unit {
        VolumeUnit::Microlitre => out.write_all(b" UL"),
        VolumeUnit::Millilitre => out.write_all(b" ML"),
    }
}
