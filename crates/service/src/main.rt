// The service program (docs/DECISIONS.md, 37 to 39): items from standard input, one a line, for the service bench, which sees more than
// the bench program shows: `>` and a text, `E pin level` as there; `B` and bytes in hexadecimal; `P` and a text, as a packet; `T n` with
// beeps, output level and the packets that ticks sent. Later requests give it more items. It is a filter: what an item has to say is
// written before more is read. A read or a write that fails ends it with that error.
//
//   places    where in a line the input stands, and what a byte asks for there
//   desk      what is asked for is done to the pump, and printed
//   printing  lines: what ticks gave, the answer to a byte, a packet that a tick sent
#![tactic(auto)]

mod desk;
mod places;
mod printing;

use desk::Desk;
use std::io;
use std::io::{Read, Write};

fn main(rt: HostRuntime) -> io::Result<()> {
    let mut input = rt.stdin();
    let mut output = rt.stdout();
    let mut desk = Desk::new();
    let mut space = [0u8; 65_536];
    let held: &mut [u8] = &mut space;
    // Nothing says that an input ends: a count of its reads does, and no input takes that many.
    for _ in 0..u64::MAX {
        let served = serve(desk, held, &mut input, &mut output)?;
        desk = served.desk;
        if served.ended {
            break;
        }
    }
    desk.close(held, &mut output)?;
    output.flush()
}

// The desk is there either way, so that the two stay a pair.
#[derive(Clone, Copy)]
struct Served {
    desk: Desk,
    ended: bool,
}

// One read, however little it brings. `held` keeps the bytes of a `B` or `P` line until the line is whole.
fn serve(
    desk: Desk,
    held: &mut [u8],
    input: &mut impl Read,
    output: &mut impl Write,
) -> io::Result<Served> {
    let mut space = [0u8; 65_536];
    let n = input.read(&mut space)?;
    let desk = play(desk, &space[..n], held, output)?;
    output.flush()?;
    Ok(Served {
        desk,
        ended: n == 0,
    })
}

fn play(desk: Desk, s: &[u8], held: &mut [u8], output: &mut impl Write) -> io::Result<Desk> {
    let mut now = desk;
    for b in s {
        now = now.take(*b, held, output)?;
    }
    Ok(now)
}
