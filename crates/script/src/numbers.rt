// The numbers of an item, as their digits come, and what they ask for.
ghost use Rattle.std.specs.Prelude.{◌≡◌};
ghost use Rattle.script.specs.Numbers.{grown, ticks_asked, level_asked};

use crate::places::Act;

// The most ticks that one item may ask for.
const MOST_TICKS: u32 = 10_000_000;

// A pin and a level are handed to the call as a byte each.
const MOST_BYTE: u32 = 255;

// One digit more. A number that is too large for every item stays too large.
pub fn grown(n: u32, d: u8) -> u32
    ensures { result ≡ grown n d }
{
    if MOST_TICKS < n {
        return n;
    }
    n * 10 + d as u32
}

// T n.
pub fn ticks_asked(n: u32) -> Act
    ensures { result ≡ ticks_asked n }
{
    match n {
        1..=MOST_TICKS => Act::Run(n),
        _ => Act::Complain,
    }
}

// E pin level: whatever the call can be handed; the call itself refuses what is no pin and no level.
pub fn level_asked(pin: u32, level: Option<u32>) -> Act
    ensures { result ≡ level_asked pin level }
{
    match level {
        Some(level) if pin <= MOST_BYTE && level <= MOST_BYTE => {
            Act::Set(pin as u8, level as u8)
        }
        _ => Act::Complain,
    }
}
