// What the service program prints, a line at a time. Lines are values.
ghost use Rattle.std.specs.Prelude.{◌≡◌, ◌+◌, ◌*◌, ◌≤◌, ◌<◌, length};
ghost use Rattle.service.specs.Printing.{ticks_line, effects_line, byte_line, hex_line, hex_digit};

use arrayvec::ArrayVec;
use player::{Elapsed, complaint, labelled};

// A line: its bytes lie in the value itself. The longest has five counts of at most 20 digits, each with its letter, a blank and the byte
// behind it.
pub type Line = ArrayVec<u8, 115>;

// Ticks: what they gave, unless they were refused.
pub fn ticks_line(n: u32, elapsed: Elapsed) -> Line
    ensures { result.items ≡ ticks_line n elapsed }
{
    if elapsed.refused {
        return line_of(complaint().as_slice());
    }
    effects_line(
        n as u64,
        elapsed.infused,
        elapsed.withdrawn,
        elapsed.beeps,
        elapsed.output as u64,
    )
}

// T, ticks, I, steps infused, W, steps withdrawn, B, beeps, O, the level of the output.
fn effects_line(n: u64, infused: u64, withdrawn: u64, beeps: u64, level: u64) -> Line
    ensures { result.items ≡ effects_line n infused withdrawn beeps level }
{
    let mut line = Line::new();
    line.try_extend_from_slice(labelled(b'T', n, b' ').as_slice())
        .unwrap();
    line.try_extend_from_slice(labelled(b'I', infused, b' ').as_slice())
        .unwrap();
    line.try_extend_from_slice(labelled(b'W', withdrawn, b' ').as_slice())
        .unwrap();
    line.try_extend_from_slice(labelled(b'B', beeps, b' ').as_slice())
        .unwrap();
    line.try_extend_from_slice(labelled(b'O', level, b'\n').as_slice())
        .unwrap();
    line
}

// What a byte call has to say: that it was refused, or its answer if there is one. The caller says how many bytes the line has room for.
pub fn byte_line<const N: usize>(refused: bool, answer: &[u8]) -> ArrayVec<u8, N>
    requires { (1 + 2 * length answer.now ≤ N) × (2 ≤ N) }
    ensures { result.items ≡ byte_line refused answer.now }
{
    if refused {
        return line_of(complaint().as_slice());
    }
    if answer.is_empty() {
        return ArrayVec::new();
    }
    hex_line(answer)
}

// The bytes of an answer in hexadecimal: two digits each, the higher first.
fn hex_line<const N: usize>(answer: &[u8]) -> ArrayVec<u8, N>
    requires { 1 + 2 * length answer.now ≤ N }
    ensures { result.items ≡ hex_line answer.now }
{
    let mut line = ArrayVec::new();
    for b in answer {
        line.push(hex_digit(*b / 16));
        line.push(hex_digit(*b % 16));
    }
    line.push(b'\n');
    line
}

fn line_of<const N: usize>(bytes: &[u8]) -> ArrayVec<u8, N>
    requires { length bytes.now ≤ N }
    ensures { result.items ≡ bytes.now }
{
    let mut line = ArrayVec::new();
    line.try_extend_from_slice(bytes).unwrap();
    line
}

// Of lower case; half a byte is less than 16.
fn hex_digit(d: u8) -> u8
    requires { d < 16 }
    ensures { result ≡ hex_digit d }
{
    if d < 10 {
        return b'0' + d;
    }
    b'a' + (d - 10)
}
