// What an act prints, as a value: runs of bytes, one behind the other.
ghost use Rattle.std.specs.Prelude.{◌≡◌, [], ◌++◌, ◌+◌, ◌≤◌, eqb, length};

use base::copy;

// The most that one act prints, the counts of ticks. The line of an answer has at most 23 bytes, and no act prints more than two
// of these and an empty one.
pub const ROOM: usize = 69;

// The bytes lie in the value itself: the text is those up to its end, and nothing is said of the others. An array and a count, since
// an ArrayVec is not Copy, as what an act gives is.
#[derive(Clone, Copy)]
pub struct Lines {
    bytes: [u8; ROOM],
    end: usize,
    ghost fits: { end ≤ 69 },
}

impl Lines {
    // It names the type, which takes what is imported at the head of the file: so it is imported here.
    ghost use Rattle.player.specs.Printing.{lines_text};

    // No byte.
    pub fn new() -> Lines
        ensures { lines_text result ≡ [] }
    {
        Lines {
            bytes: [0; ROOM],
            end: 0,
        }
    }

    // Two runs of bytes, one behind the other.
    pub(crate) fn joined(first: &[u8], second: &[u8]) -> Lines
        requires { length first.now + length second.now ≤ 69 }
        ensures { lines_text result ≡ first.now ++ second.now }
    {
        let mut bytes = [0; ROOM];
        let middle = copy(&mut bytes, 0, first);
        let end = copy(&mut bytes, middle, second);
        Lines { bytes, end }
    }

    pub fn as_slice(&self) -> &[u8]
        ensures value { result.now ≡ lines_text self.now }
        ensures fits { length result.now ≤ 69 }
    {
        &self.bytes[..self.end]
    }

    pub fn is_empty(&self) -> bool
        ensures { result ≡ eqb (length (lines_text self.now)) 0 }
    {
        self.end == 0
    }
}
