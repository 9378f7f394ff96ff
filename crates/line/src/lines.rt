// The line under way: its first 40 characters, how many they are, and whether there were more.
ghost use Rattle.std.specs.Prelude.{◌≡◌};
ghost use Rattle.line.specs.Lines.{empty_line, with_character, after_byte, line_text, all_stand, is_sound_line, address_in, command_in};
ghost use Rattle.line.specs.Requests.{asked_in};

use crate::addresses::{address_of, unaddressed};
use crate::arriving::{Arrival, arrival_of, can_stand};
use crate::commands::command_of;
use crate::requests::asked_of;
use words::{Asked, Command, Request};

// A line holds its array and its length, as document 01 names it.
#[derive(Clone, Copy)]
pub struct Line {
    pub bytes: [u8; 40],
    pub len: u8,
    pub overlong: bool,
}

// A line after one byte, and whether that byte ended it. The line is there either way, so that the two stay a pair.
#[derive(Clone, Copy)]
pub struct Arrived {
    pub line: Line,
    pub ended: bool,
}

impl Line {
    // Nothing kept. The places hold zeros, so that equal histories give equal lines.
    pub fn empty() -> Line
        ensures { result ≡ empty_line }
    {
        Line {
            bytes: [0; 40],
            len: 0,
            overlong: false,
        }
    }

    // One byte more. A byte that ends the line leaves it as it is, for its command to be read.
    pub fn after_byte(self, b: u8) -> Arrived
        ensures { result ≡ after_byte self b }
    {
        match arrival_of(b) {
            Arrival::End => Arrived {
                line: self,
                ended: true,
            },
            Arrival::Dropped => Arrived {
                line: self,
                ended: false,
            },
            Arrival::Kept(c) => Arrived {
                line: self.with_character(c),
                ended: false,
            },
        }
    }

    // One character more: kept up to 40, then the line is over-long.
    pub fn with_character(mut self, c: u8) -> Line
        ensures { result ≡ with_character self c }
    {
        if self.len < 40 {
            self.bytes[self.len as usize] = c;
            self.len += 1;
        } else {
            self.overlong = true;
        }
        self
    }

    // Whether calls from power-up can have made this line, as far as its characters go.
    pub fn is_sound(self) -> bool
        ensures { result ≡ is_sound_line self }
    {
        self.len <= 40 && (!self.overlong || 40 <= self.len) && all_stand(self.text())
    }

    // The address that the line bears, 0 if none.
    pub fn address_in(self) -> u8
        ensures { result ≡ address_in self }
    {
        address_of(self.text())
    }

    // The command that the line asks for, whatever its address.
    pub fn command_in(self) -> Command
        ensures { result ≡ command_in self }
    {
        if self.overlong {
            Command::Malformed
        } else {
            command_of(unaddressed(self.text()))
        }
    }

    // The address that the line bears, and what it asks for.
    pub fn asked_in(self) -> Asked
        ensures { result ≡ asked_in self }
    {
        if self.overlong {
            Asked {
                address: self.address_in(),
                request: Request::Pump(Command::Malformed),
            }
        } else {
            asked_of(self.text())
        }
    }

    // The characters that are kept.
    fn text(&self) -> &[u8]
        ensures { result.now ≡ line_text self.now }
    {
        &self.bytes[..usize::from(self.len).min(40)]
    }
}

// Whether a line can hold every character of `s`.
fn all_stand(s: &[u8]) -> bool
    ensures { result ≡ all_stand s.now }
{
    s.iter().all(|c| can_stand(*c))
}
