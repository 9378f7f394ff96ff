// A packet of some data.
ghost use Rattle.std.specs.Prelude.{◌+◌, ◌≤◌, length};
ghost use Rattle.base.specs.Wrote.{Wrote};
ghost use Rattle.packet.specs.Packets.{check_bytes, packet_of};

use crate::{ETX, STX};
use base::{copy, put};

// Writes the packet of `text` from `at` on and answers the next place. The other bytes stay.
pub fn send(text: &[u8], out: &mut [u8], at: usize) -> usize
    requires { (length text.now ≤ 40) × (at + (length text.now + 5) ≤ length out.old) }
    ensures { Wrote out.old out.new at result (packet_of text.now) }
{
    let count = (text.len() + 4) as u8;
    let a = put(out, at, STX);
    let b = put(out, a, count);
    let c = copy(out, b, text);
    let d = put_check(out, c, text);
    put(out, d, ETX)
}

// The two check bytes of `text`, the high one first.
fn put_check(out: &mut [u8], at: usize, text: &[u8]) -> usize
    requires { at + 2 ≤ length out.old }
    ensures { Wrote out.old out.new at result (check_bytes text.now) }
{
    let [high, low] = crc::check(text).to_be_bytes();
    copy(out, at, &[high, low])
}
