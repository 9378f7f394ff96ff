// The letters that stand for a status, for an alarm, for a unit and for a direction. They are no `From`: neither type is this crate's own, and
// how they are spelled is of no concern to the crates whose types they are.
ghost use Rattle.std.specs.Prelude.{◌≡◌};
ghost use Rattle.words.specs.Spelling.{rate_letters, volume_letters, direction_letters};
ghost use Rattle.answer.specs.Letters.{status_letter, alarm_letter};

use drive::{Direction, RateUnit, VolumeUnit};
use words::{Alarm, Status};

pub fn status_letter(status: Status) -> u8
    ensures { result ≡ status_letter status }
{
    match status {
        Status::Stopped => b'S',
        Status::Paused => b'P',
        Status::TimedPause => b'T',
        Status::TriggerWait => b'U',
        Status::Infusing => b'I',
        Status::Withdrawing => b'W',
    }
}

pub fn alarm_letter(alarm: Alarm) -> u8
    ensures { result ≡ alarm_letter alarm }
{
    match alarm {
        Alarm::PowerUp => b'R',
        Alarm::Program => b'E',
        Alarm::TimeOut => b'T',
    }
}

pub fn rate_letters(unit: RateUnit) -> [u8; 2]
    ensures { result ≡ rate_letters unit }
{
    match unit {
        RateUnit::Um => *b"UM",
        RateUnit::Mm => *b"MM",
        RateUnit::Uh => *b"UH",
        RateUnit::Mh => *b"MH",
    }
}

pub fn volume_letters(unit: VolumeUnit) -> [u8; 2]
    ensures { result ≡ volume_letters unit }
{
    match unit {
        VolumeUnit::Microlitre => *b"UL",
        VolumeUnit::Millilitre => *b"ML",
    }
}

pub fn direction_letters(d: Direction) -> [u8; 3]
    ensures { result ≡ direction_letters d }
{
    match d {
        Direction::Infuse => *b"INF",
        Direction::Withdraw => *b"WDR",
    }
}
