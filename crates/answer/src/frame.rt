// The whole answer: as a line, or in Safe mode as a packet.
ghost use Rattle.std.specs.Prelude.{[], ◌∷◌, ◌++◌, ◌≡◌, ◌≤◌, length};
ghost use Rattle.base.specs.Wrote.{Wrote};
ghost use Rattle.packet.specs.Packets.{packet_of};
ghost use Rattle.answer.specs.Answers.{text_of, framed_as, room, length_in, buffer_after};

use crate::writing::{Text, body, joined};
use base::{copy, put};
use packet::{ETX, STX};
use words::Said;

// What a buffer must have room for, whatever the answer.
pub const ROOM: usize = 24;

// What stands around an answer's text: STX and ETX alone, or a packet.
#[derive(Clone, Copy)]
pub enum Frame {
    Line,
    Packet,
}

// Writes the answer at the start of `out` and tells its length. The bytes past it stay. A buffer with too little room for every
// answer is left as it is, and the length is 0.
pub fn write(frame: Frame, address: u8, said: Said, out: &mut [u8]) -> usize
    ensures { (result ≡ length_in frame address said out.old)
        × (out.new ≡ buffer_after frame address said out.old) }
{
    if out.len() < ROOM {
        return 0;
    }
    if let Said::Nothing = said {
        return 0;
    }
    match frame {
        Frame::Line => write_line(address, said, out),
        Frame::Packet => write_packet(address, said, out),
    }
}

fn write_line(address: u8, said: Said, out: &mut [u8]) -> usize
    requires { room ≤ length out.old }
    ensures { Wrote out.old out.new 0 result ((2 ∷ []) ++ text_of address said ++ (3 ∷ [])) }
{
    let a = put(out, 0, STX);
    let b = copy(out, a, text(address, said).as_slice());
    put(out, b, ETX)
}

fn write_packet(address: u8, said: Said, out: &mut [u8]) -> usize
    requires { room ≤ length out.old }
    ensures { Wrote out.old out.new 0 result (packet_of (text_of address said)) }
{
    packet::send(text(address, said).as_slice(), out, 0)
}

// The address as two digits, and what follows it.
fn text(address: u8, said: Said) -> Text
    ensures { result.items ≡ text_of address said }
{
    joined(&decimal::print_two(address), body(said).as_slice())
}
