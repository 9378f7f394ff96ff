// The phase in hand with one thing set.
ghost use Rattle.std.specs.Prelude.{◌≡◌};
ghost use Rattle.command.specs.Phases.{with_stored, with_volume, with_direction, with_function};

use drive::{Direction, RateUnit};
use words::{Function, Phase};

// RAT
pub fn with_stored(hand: Phase, x: u32, unit: RateUnit) -> Phase
    ensures { result ≡ with_stored hand x unit }
{
    Phase {
        rate: x,
        unit,
        ..hand
    }
}

// VOL
pub fn with_volume(hand: Phase, x: u32) -> Phase
    ensures { result ≡ with_volume hand x }
{
    Phase { volume: x, ..hand }
}

// DIR
pub fn with_direction(hand: Phase, direction: Direction) -> Phase
    ensures { result ≡ with_direction hand direction }
{
    Phase { direction, ..hand }
}

// FUN alters the function and its data only.
pub fn with_function(hand: Phase, function: Function) -> Phase
    ensures { result ≡ with_function hand function }
{
    Phase { function, ..hand }
}
