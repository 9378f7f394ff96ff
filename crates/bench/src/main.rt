// The bench program (document 01, Marked figures, last part): reads items from standard input, one a line, plays them to a pump
// that was just switched on, and prints what comes of them. It is a filter: what a part of the input has to say is written before
// more is read, and of the input no more is kept than where in a line it stands. A read or a write that fails ends it with that error.
//
// What the items do and print is the crate `player`; here it is read and written. No function here fails but by a read or a write; the
// bench that it was handed is then gone, and nothing is known of what the writer holds more, since std says nothing of it.
#![tactic(auto)]

ghost use Rattle.std.specs.Prelude.{◌≡◌, ◌-◌, ◌^◌, ◌<◌, length, IfOk, OnOk, IfSome};
ghost use Rattle.std.specs.Io.KnownBytes.{Appends};
ghost use Rattle.player.specs.Scripts.{play, says, closed, script};
ghost use Rattle.bench.specs.Serving.{Serves};

use player::{Bench, Fed};
use std::io;
use std::io::{Read, Write};

fn main(rt: HostRuntime) -> io::Result<()> {
    run(&mut rt.stdin(), &mut rt.stdout())
}

// All of the input. Nothing says that an input ends: a count of its reads does, and no input takes that many.
fn run<R: Read, W: Write>(input: &mut R, output: &mut W) -> io::Result<()>
    ensures { OnOk result (IfSome (R.remaining input.old)
        (λ s. length s < 2 ^ 64 - 1 → Appends (W.contents output.old) (W.contents output.new) (script s))) }
{
    let mut bench = Bench::new();
    for _ in 0..u64::MAX {
        let served = serve(bench, input, output)?;
        bench = served.bench;
        if served.ended {
            break;
        }
    }
    close(bench, output)
}

// The bench after a read, and whether the input has ended. The bench is there either way, so that the two stay a pair.
#[derive(Clone, Copy)]
struct Served {
    bench: Bench,
    ended: bool,
}

// One read, however little it brings, and all that it has to say.
fn serve<R: Read, W: Write>(bench: Bench, input: &mut R, output: &mut W) -> io::Result<Served>
    ensures { IfOk result (Serves bench (R.remaining input.old) (R.remaining input.new)
        (W.contents output.old) (W.contents output.new)) }
{
    let mut space = [0u8; 65_536];
    let n = input.read(&mut space)?;
    let bench = play(bench, &space[..n], output)?;
    output.flush()?;
    Ok(Served {
        bench,
        ended: n == 0,
    })
}

// What `s` has to say, in writes as large as the buffer allows.
fn play<W: Write>(bench: Bench, s: &[u8], output: &mut W) -> io::Result<Bench>
    ensures bench { IfOk result (λ b. b ≡ play bench s.now) }
    ensures output { OnOk result (Appends (W.contents output.old) (W.contents output.new) (says bench s.now)) }
{
    let mut fed = Fed {
        bench,
        taken: 0,
        end: 0,
    };
    let mut from = 0;
    let mut out = [0u8; 65_536];
    // no index loop: it goes on by what was taken
    while from < s.len() {
        fed = fed.bench.feed(&s[from..], &mut out);
        output.write_all(&out[..fed.end])?;
        from += fed.taken;
    }
    Ok(fed.bench)
}

// The end of the input.
fn close<W: Write>(bench: Bench, output: &mut W) -> io::Result<()>
    ensures { OnOk result (Appends (W.contents output.old) (W.contents output.new) (closed bench)) }
{
    let mut out = [0u8; 65_536];
    let end = bench.closed(&mut out);
    output.write_all(&out[..end])?;
    output.flush()
}
