// What a byte that is neither a newline nor a return does at each place of a line.
ghost use Rattle.std.specs.Prelude.{◌≡◌};
ghost use Rattle.script.specs.Places.{kind, behind_tick, in_ticks, behind_edge, in_pin, pin_ended, in_level};

use crate::numbers::grown;
use crate::places::Spot;

// The first byte of a line says what the item is.
pub fn kind(b: u8) -> Spot
    ensures { result ≡ kind b }
{
    match b {
        b'>' => Spot::Text(false),
        b'T' => Spot::Tick,
        b'E' => Spot::Edge,
        _ => Spot::Bad,
    }
}

pub fn behind_tick(b: u8) -> Spot
    ensures { result ≡ behind_tick b }
{
    if b == b' ' {
        return Spot::Ticks(0);
    }
    Spot::Bad
}

pub fn in_ticks(n: u32, b: u8) -> Spot
    ensures { result ≡ in_ticks n b }
{
    match b {
        b'0'..=b'9' => Spot::Ticks(grown(n, b - b'0')),
        _ => Spot::Bad,
    }
}

pub fn behind_edge(b: u8) -> Spot
    ensures { result ≡ behind_edge b }
{
    if b == b' ' {
        return Spot::Pin(None);
    }
    Spot::Bad
}

pub fn in_pin(n: Option<u32>, b: u8) -> Spot
    ensures { result ≡ in_pin n b }
{
    match b {
        b'0'..=b'9' => Spot::Pin(Some(grown(n.unwrap_or(0), b - b'0'))),
        b' ' => pin_ended(n),
        _ => Spot::Bad,
    }
}

// A blank ends a pin that has a digit.
fn pin_ended(n: Option<u32>) -> Spot
    ensures { result ≡ pin_ended n }
{
    match n {
        Some(pin) => Spot::Level(pin, None),
        None => Spot::Bad,
    }
}

pub fn in_level(pin: u32, n: Option<u32>, b: u8) -> Spot
    ensures { result ≡ in_level pin n b }
{
    match b {
        b'0'..=b'9' => Spot::Level(pin, Some(grown(n.unwrap_or(0), b - b'0'))),
        _ => Spot::Bad,
    }
}
