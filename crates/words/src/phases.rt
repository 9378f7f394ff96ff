// The phase record: large fields first, so that it has no padding.
ghost use Rattle.std.specs.Prelude.{◌≡◌, true, ℕ};
ghost use Rattle.words.specs.Phases.{idle, power_up, is_sound_phase};

use crate::functions::Function;
use drive::{Direction, RateUnit};

// Rate and volume in thousandths, the rate of its own unit, the volume of the unit that the diameter gives.
#[derive(Clone, Copy, PartialEq, Eq, Debug)]
pub struct Phase {
    pub rate: u32,
    pub volume: u32,
    pub function: Function,
    pub unit: RateUnit,
    pub direction: Direction,
}

impl Phase {
    // The phase of that number in a pump just switched on.
    pub fn power_up(number: u8) -> Phase
        ensures { result ≡ power_up number }
    {
        if number == 1 {
            return Phase::idle(Function::Rat);
        }
        Phase::idle(Function::Stp)
    }

    // A function with nothing set beside it.
    fn idle(function: Function) -> Phase
        ensures { result ≡ idle function }
    {
        Phase {
            rate: 0,
            volume: 0,
            function,
            unit: RateUnit::Mh,
            direction: Direction::Infuse,
        }
    }

    // Whether a sound pump of `phases` phases may hold it.
    pub fn is_sound(self, phases: u8) -> bool
        ensures { result ≡ is_sound_phase phases self }
    {
        if self.is_plain() {
            return true;
        }
        if decimal::is_writable(self.rate) {
            if decimal::is_writable(self.volume) {
                return self.function.fits(phases);
            }
        }
        false
    }

    // Whether one look tells that it is sound, in a pump of any size: both numbers are small, and the function is one of the first four, RAT,
    // INC, DEC or STP, which take no datum. Every call on a pump asks this of all its phases, and most leave here; nothing but speed rests
    // on what it leaves out.
    fn is_plain(self) -> bool
        ensures { result ≡ true → (phases : ℕ) → is_sound_phase phases self ≡ true }
    {
        let beyond = (self.rate | self.volume) / 8192;
        let other = self.function.number() as u32 & 252;
        beyond | other == 0
    }
}
