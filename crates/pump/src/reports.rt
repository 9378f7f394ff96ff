// What every call hands back, and the refusals.
ghost use Rattle.std.specs.Prelude.{◌≡◌, true, Some, ◌-◌, ◌≤◌, ◌<◌};
ghost use Rattle.pump.specs.Reports.{refusal_number, of_pin, of_byte, of_ticks};
ghost use Rattle.pump.specs.Reports.{unstepped, gone, gone_buffer};
ghost use Rattle.pump.specs.Going.{moves_in};
ghost use Rattle.link.specs.Link.{is_sound_link};

use crate::holder::Pump;
use crate::many::Going;
use answer::Frame;

#[derive(Clone, Copy, PartialEq, Eq, Debug)]
pub enum Refusal {
    ShortBuffer = 1,
    NoPin = 2,
    NoLevel = 3,
    Unsound = 4,
    TooManyTicks = 5,
}

impl Refusal {
    // That of a pin's level: the state, then the pin, then the level.
    pub fn of_pin(sound: bool, pin: u8, level: u8) -> Option<Refusal>
        ensures { result ≡ of_pin sound pin level }
    {
        if sound {
            match pin {
                2 | 4 | 6 => {
                    if 1 < level {
                        return Some(Refusal::NoLevel);
                    }
                    return None;
                }
                _ => return Some(Refusal::NoPin),
            }
        }
        Some(Refusal::Unsound)
    }

    // That of a byte and of a tick: the state, then the room for an answer.
    pub fn of_byte(sound: bool, size: usize) -> Option<Refusal>
        ensures { result ≡ of_byte sound size }
    {
        if sound {
            if size < answer::ROOM {
                return Some(Refusal::ShortBuffer);
            }
            return None;
        }
        Some(Refusal::Unsound)
    }

    // That of many ticks: the state, then the room for an alarm, then their number.
    pub fn of_ticks(sound: bool, size: usize, n: u32) -> Option<Refusal>
        ensures { result ≡ of_ticks sound size n }
    {
        if sound {
            if answer::ROOM <= size {
                if leap::MOST_TICKS < n {
                    return Some(Refusal::TooManyTicks);
                }
                return None;
            }
            return Some(Refusal::ShortBuffer);
        }
        Some(Refusal::Unsound)
    }

    // The number in the documents' table.
    pub fn number(self) -> u8
        ensures { result ≡ refusal_number (Some self) }
    {
        self as u8
    }
}

// The pump as it is then, the length of the answer, the steps in each direction, the beeps, the ticks done, the refusal, and the output's
// level.
#[derive(Clone, Copy)]
pub struct Report {
    pub pump: Pump,
    pub length: usize,
    pub infused: u32,
    pub withdrawn: u32,
    pub beeps: u32,
    pub ticks: u32,
    pub refusal: Option<Refusal>,
    pub output: bool,
}

impl Report {
    // The refusal's number in the documents' table; 0 where nothing was refused.
    pub fn refusal_number(&self) -> u8
        ensures { result ≡ refusal_number self.now.refusal }
    {
        self.refusal.map_or(0, Refusal::number)
    }
}

impl Pump {
    // A call that gives no step, with the length of the answer that it wrote. What is refused writes none.
    pub fn unstepped(self, length: usize, refusal: Option<Refusal>) -> Report
        ensures { result ≡ unstepped self length refusal }
    {
        let output = self.device.core.output;
        Report {
            pump: self,
            length,
            infused: 0,
            withdrawn: 0,
            beeps: 0,
            ticks: 0,
            refusal,
            output,
        }
    }

    // The ticks that were done, of `span` that were to be; none where they were refused. Only the last of them can have raised an alarm,
    // which is sent.
    pub fn gone(
        mut self,
        going: Going,
        span: u32,
        refusal: Option<Refusal>,
        out: &mut [u8],
    ) -> Report
        requires { (going.left ≤ span) × (0 < span → is_sound_link self.device.link ≡ true) }
        ensures { (result ≡ gone self (moves_in going) (span - going.left) refusal out.old)
            × (out.new ≡ gone_buffer self (moves_in going) (span - going.left) out.old) }
    {
        let ticks = span - going.left;
        let said = self.device.sent_in(ticks, going.core);
        let length = answer::write(Frame::Packet, 0, said, out);
        let output = going.core.output;
        self.device = self.device.after_ticks(ticks, going.core);
        Report {
            pump: self,
            length,
            infused: going.infused,
            withdrawn: going.withdrawn,
            beeps: going.beeps,
            ticks,
            refusal,
            output,
        }
    }
}
