// What the pump answers, as values: a status, a reply, and the two together. Numbers are in thousandths.
ghost use Rattle.std.specs.Prelude.{◌≡◌};
ghost use Rattle.words.specs.Answers.{declined};

use crate::functions::Function;
use drive::{Direction, RateUnit, VolumeUnit};

// What the pump is doing.
#[derive(Clone, Copy, PartialEq, Eq, Debug)]
pub enum Status {
    Stopped,
    Paused,
    TimedPause,
    TriggerWait,
    Infusing,
    Withdrawing,
}

// R: the pump was switched on. E: the program met something that it cannot do. T: the time limit of Safe mode passed.
#[derive(Clone, Copy, PartialEq, Eq, Debug)]
pub enum Alarm {
    PowerUp,
    Program,
    TimeOut,
}

// What an answer says beside the status.
#[derive(Clone, Copy, PartialEq, Eq, Debug)]
pub enum Reply {
    // the status and nothing else
    Status,
    // `?`
    Malformed,
    // `?NA`
    NotApplicable,
    // `?OOR`
    OutOfRange,
    // `?COM`: a packet that is not good
    Garbled,
    Number(u32),
    Rate(u32, RateUnit),
    Volume(u32, VolumeUnit),
    Direction(Direction),
    Phase(u8),
    // Safe mode's time limit in seconds; 0 is Basic mode
    Limit(u8),
    Function(Function),
    // infused, withdrawn
    Totals(u32, u32, VolumeUnit),
}

// Why a command is declined: it does not apply, or what it brings is out of range.
#[derive(Clone, Copy, PartialEq, Eq, Debug)]
pub enum Declined {
    NotApplicable,
    OutOfRange,
}

// What a declined command is answered.
impl From<Declined> for Reply {
    ghost from_gives = { λ d r. r ≡ declined d };

    fn from(why: Declined) -> Reply {
        match why {
            Declined::NotApplicable => Reply::NotApplicable,
            Declined::OutOfRange => Reply::OutOfRange,
        }
    }
}

// An answer as a value; it becomes bytes only where it is framed. An alarm stands in the status's place. An Option would add a
// `Some` wherever one is made, and take no test away.
#[derive(Clone, Copy, PartialEq, Eq, Debug)]
pub enum Said {
    Nothing,
    Alarm(Alarm),
    Answer(Status, Reply),
}
