// Shows what the crates below the rules (decimal, drive, words, line, answer) make of texts and figures: reads items from standard input,
// one a line, and prints a line for each. A read or a write that fails ends it with that error. Its output is held to the stored one; it is
// proved safe and promises no more.
//
//   # ..                 a heading: shown as it is
//   > text               a line that was sent: what it asks for, said as an answer; nothing where it has another address
//   N text               the thousandths that a number reads as, and how they are printed
//   P thousandths        how they are printed, and whether some text gives them
//   D micrometres        the step volume, the threshold and the unit of volumes
//   V micrometres x      the step target of a volume
//   R micrometres x      a rate in MH: its fl an hour, and whether it is usable
//   anything else        !
#![tactic(auto)]

ghost use Rattle.std.specs.Prelude.{◌≤◌, length, IfOk};

mod items;
mod numbers;
mod show;

use std::io;
use std::io::Read;

fn main(rt: HostRuntime) -> io::Result<()> {
    let mut space = [0u8; 65_536];
    let n = read_full(&mut rt.stdin(), &mut space)?;
    items::all(&space[..n], &mut rt.stdout())
}

// Reads until `space` is full or the input ends, and tells how many bytes came.
fn read_full(input: &mut impl Read, space: &mut [u8]) -> io::Result<usize>
    ensures { IfOk result (λ n. n ≤ length space.new) }
{
    let mut done = 0;
    // no index loop: a read brings as much as it may
    while done < space.len() {
        let n = input.read(&mut space[done..])?;
        if n == 0 {
            break;
        }
        done += n;
    }
    Ok(done)
}
