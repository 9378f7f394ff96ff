// The clauses on Safe mode (document 02, 2/12). That in Basic mode there is neither a timer nor a part packet holds by type.
use crate::show::{clause, show};
use crate::states::stopped;
use line::Line;
use link::{Link, Safety};
use packet::{Part, Stage};
use std::io;
use std::io::Write;

pub fn limits(output: &mut impl Write) -> io::Result<()> {
    clause(
        b"in Safe mode the time limit is 1 to 255, and its timer waits or has 1 to 1,000 ticks left for each second",
        output,
    )?;
    let cases: [(&[u8], u8, Option<u32>); 8] = [
        (b"limit 1, the timer waits", 1, None),
        (b"limit 0, the timer waits", 0, None),
        (b"1 tick left", 1, Some(1)),
        (b"0 ticks left", 1, Some(0)),
        (b"1,000 ticks left of 1 second", 1, Some(1_000)),
        (b"1,001 ticks left of 1 second", 1, Some(1_001)),
        (b"255,000 ticks left of 255 seconds", 255, Some(255_000)),
        (b"255,001 ticks left of 255 seconds", 255, Some(255_001)),
    ];
    for (name, limit, timer) in cases {
        lined(name, 0, safe(limit, timer, None), output)?;
    }
    Ok(())
}

pub fn lines(output: &mut impl Write) -> io::Result<()> {
    clause(b"in Safe mode the line is empty", output)?;
    lined(b"a line of 1 in Basic mode", 1, Link::basic(), output)?;
    lined(b"a line of 0 in Safe mode", 0, Link::limited(1), output)?;
    lined(b"a line of 1 in Safe mode", 1, Link::limited(1), output)
}

pub fn packets(output: &mut impl Write) -> io::Result<()> {
    clause(b"a part packet has 0 to 499 quiet ticks", output)?;
    let cases: [(&[u8], Stage, u16); 4] = [
        (b"STX alone, 499 quiet ticks", Stage::Length, 499),
        (b"STX alone, 500 quiet ticks", Stage::Length, 500),
        (b"a whole check, 499 quiet ticks", Stage::End(40), 499),
        (b"a whole check, 500 quiet ticks", Stage::End(40), 500),
    ];
    for (name, stage, quiet) in cases {
        parted(name, stage, quiet, output)?;
    }
    stages(output)
}

// How many data have come and how many follow the next; the check bytes; ETX.
fn stages(output: &mut impl Write) -> io::Result<()> {
    clause(
        b"a part packet has a length of 4 to 44, so at most 40 data, and fewer bytes than that",
        output,
    )?;
    let cases: [(&[u8], Stage); 12] = [
        (b"the first of 40 data is next", Stage::Data(0, 39)),
        (b"the first of 41 data is next", Stage::Data(0, 40)),
        (b"the last of 40 data is next", Stage::Data(39, 0)),
        (b"the last of 41 data is next", Stage::Data(40, 0)),
        (b"the 21st of 41 data is next", Stage::Data(20, 20)),
        (
            b"255 data, and 255 more behind the next",
            Stage::Data(255, 255),
        ),
        (b"40 data, the high check byte is next", Stage::High(40)),
        (b"41 data, the high check byte is next", Stage::High(41)),
        (b"40 data, the low check byte is next", Stage::Low(40, 0)),
        (b"41 data, the low check byte is next", Stage::Low(41, 0)),
        (b"40 data, ETX is next", Stage::End(40)),
        (b"41 data, ETX is next", Stage::End(41)),
    ];
    for (name, stage) in cases {
        parted(name, stage, 0, output)?;
    }
    Ok(())
}

fn parted(name: &[u8], stage: Stage, quiet: u16, output: &mut impl Write) -> io::Result<()> {
    let part = Part { stage, quiet };
    lined(name, 0, safe(1, None, Some(part)), output)
}

fn safe(limit: u8, timer: Option<u32>, part: Option<Part>) -> Link {
    let safety = Safety { limit, timer, part };
    Link {
        bytes: [0; 40],
        safety: Some(safety),
    }
}

// A link, beside a line of so many characters.
fn lined(name: &[u8], len: u8, link: Link, output: &mut impl Write) -> io::Result<()> {
    let line = Line {
        bytes: [b'A'; 40],
        len,
        overlong: false,
    };
    let pump = stopped();
    let device = pump.device.with_line(line);
    show(name, pump.with_device(device.with_link(link)), output)
}
