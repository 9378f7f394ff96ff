// What a text asks for: SAF is asked of the link that it came by, and everything else of the pump.
ghost use Rattle.std.specs.Prelude.{◌≡◌};
ghost use Rattle.line.specs.Requests.{limit_asked, request_of, asked_of};

use crate::addresses::{address_of, unaddressed};
use crate::commands::command_of;
use words::{Asked, Command, Request};

// The address that a text bears, and what it asks for.
pub fn asked_of(s: &[u8]) -> Asked
    ensures { result ≡ asked_of s.now }
{
    Asked {
        address: address_of(s),
        request: request_of(unaddressed(s)),
    }
}

// What a text asks for, its address taken off.
fn request_of(s: &[u8]) -> Request
    ensures { result ≡ request_of s.now }
{
    match s.strip_prefix(b"SAF") {
        Some(rest) => limit_asked(rest),
        None => Request::Pump(command_of(s)),
    }
}

// SAF
fn limit_asked(s: &[u8]) -> Request
    ensures { result ≡ limit_asked s.now }
{
    if s.is_empty() {
        return Request::AskLimit;
    }
    match decimal::read_three(s) {
        Some(n) => Request::SetLimit(n),
        None => Request::Pump(Command::Malformed),
    }
}
