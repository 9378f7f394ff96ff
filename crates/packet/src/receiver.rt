// What has come of a packet. The places of the array past what came hold zeros while a packet is under way; so do all of them behind a
// wrong packet and a dropped one, so that equal histories give equal receivers. Behind a good one the data stay, for the caller to read.
ghost use Rattle.std.specs.Prelude.{◌≡◌, true, ◌≤◌, ◌<◌, ◌+◌};
ghost use Rattle.packet.specs.Receiver.{outside_receiver, waiting, going_on, wrong_now, length_taken, data_taken, low_taken, end_taken};
ghost use Rattle.packet.specs.Receiver.{begun_by, taken_by, after_byte, sound_stage, sound_receiver, tick, ticks};

use crate::{ETX, STX};

// What the next byte of a packet is.
#[derive(Clone, Copy)]
pub enum Stage {
    // the length: STX alone has come
    Length,
    // one of the data: so many have come, so many follow that one
    Data(u8, u8),
    // the high check byte: so many data have come
    High(u8),
    // the low check byte: so many data have come, and this high check byte
    Low(u8, u8),
    // ETX: so many data have come, and their check
    End(u8),
}

// A part packet, and for how many ticks no byte has come.
#[derive(Clone, Copy)]
pub struct Part {
    pub stage: Stage,
    pub quiet: u16,
}

// Where there is no part, the receiver is outside a packet. That it is sound is a clause: a pump takes any state that is handed in, and
// refuses one that is not.
#[derive(Clone, Copy)]
pub struct Receiver {
    pub bytes: [u8; 40],
    pub part: Option<Part>,
}

// Three outcomes of a byte: an Option would add a `Some` wherever one is made, and take no test away.
#[derive(Clone, Copy)]
pub enum Outcome {
    // no answer is due for this byte
    Nothing,
    // `?COM` is due
    Wrong,
    // the packet is good: so many data, in the receiver's first places
    Good(u8),
}

#[derive(Clone, Copy)]
pub struct Arrived {
    pub receiver: Receiver,
    pub outcome: Outcome,
}

// "A part packet with no byte for 500 ticks is dropped in silence."   (02, 2/12)
const PATIENCE: u64 = 500;

impl Receiver {
    pub fn outside() -> Receiver
        ensures { result ≡ outside_receiver }
    {
        Receiver {
            bytes: [0; 40],
            part: None,
        }
    }

    // One byte more.
    pub fn after(self, b: u8) -> Arrived
        requires { sound_receiver self ≡ true }
        ensures { result ≡ after_byte self b }
    {
        match self.part {
            None => self.begun_by(b),
            Some(part) => self.taken(part.stage, b),
        }
    }

    // One tick with no byte.
    pub fn tick(self) -> Receiver
        requires { sound_receiver self ≡ true }
        ensures { result ≡ tick self }
    {
        self.quiet(1)
    }

    // So many ticks with no byte, one after the other, done at once. The sum is made in u64, since n may be any number.
    pub fn quiet(self, n: u32) -> Receiver
        requires { sound_receiver self ≡ true }
        ensures { result ≡ ticks n self }
    {
        match self.part {
            None => self,
            Some(part) => {
                let passed = part.quiet as u64 + n as u64;
                if passed < PATIENCE {
                    return waiting(self.bytes, part.stage, passed as u16);
                }
                Receiver::outside()
            }
        }
    }

    // Whether calls from outside a packet can have brought the receiver here, as far as a packet's parts go.
    pub fn sound(self) -> bool
        ensures { result ≡ sound_receiver self }
    {
        match self.part {
            None => true,
            Some(part) => (part.quiet < 500) & sound_stage(part.stage),
        }
    }

    // "bytes outside a packet are ignored until the next STX"   (02, 2/12)
    fn begun_by(self, b: u8) -> Arrived
        ensures { result ≡ begun_by self b }
    {
        if b == STX {
            return going_on([0; 40], Stage::Length);
        }
        Arrived {
            receiver: self,
            outcome: Outcome::Nothing,
        }
    }

    // A byte in a packet, by what it should be.
    fn taken(self, stage: Stage, b: u8) -> Arrived
        requires { sound_stage stage ≡ true }
        ensures { result ≡ taken_by self.bytes stage b }
    {
        match stage {
            Stage::Length => length_taken(b),
            Stage::Data(have, more) => self.data_taken(have, more, b),
            Stage::High(n) => going_on(self.bytes, Stage::Low(n, b)),
            Stage::Low(n, high) => self.low_taken(n, high, b),
            Stage::End(n) => self.end_taken(n, b),
        }
    }

    // A byte of the data, kept in its place.
    fn data_taken(mut self, have: u8, more: u8, b: u8) -> Arrived
        requires { have + more < 40 }
        ensures { result ≡ data_taken self.bytes have more b }
    {
        self.bytes[have as usize] = b;
        if more == 0 {
            return going_on(self.bytes, Stage::High(have + 1));
        }
        going_on(self.bytes, Stage::Data(have + 1, more - 1))
    }

    // The second check byte: the check is judged here, before ETX is known, so that a wrong one is answered at once.
    fn low_taken(self, n: u8, high: u8, b: u8) -> Arrived
        requires { n ≤ 40 }
        ensures { result ≡ low_taken self.bytes n high b }
    {
        let check = crc::check(&self.bytes[..n as usize]);
        if [high, b] == check.to_be_bytes() {
            return going_on(self.bytes, Stage::End(n));
        }
        wrong()
    }

    // ETX, or the packet is wrong; the wrong byte is spent, and begins no packet even where it is STX.
    fn end_taken(self, n: u8, b: u8) -> Arrived
        ensures { result ≡ end_taken self.bytes n b }
    {
        if b == ETX {
            let bytes = self.bytes;
            let receiver = Receiver { bytes, part: None };
            return Arrived {
                receiver,
                outcome: Outcome::Good(n),
            };
        }
        wrong()
    }
}

// A packet that goes on: the byte just came.
fn going_on(bytes: [u8; 40], stage: Stage) -> Arrived
    ensures { result ≡ going_on bytes stage }
{
    Arrived {
        receiver: waiting(bytes, stage, 0),
        outcome: Outcome::Nothing,
    }
}

// In a packet, with so many ticks since the last byte.
fn waiting(bytes: [u8; 40], stage: Stage, quiet: u16) -> Receiver
    ensures { result ≡ waiting bytes stage quiet }
{
    let part = Some(Part { stage, quiet });
    Receiver { bytes, part }
}

// A packet that is wrong: what follows is outside.
fn wrong() -> Arrived
    ensures { result ≡ wrong_now }
{
    Arrived {
        receiver: Receiver::outside(),
        outcome: Outcome::Wrong,
    }
}

// The length: the data and four more bytes, so 4 to 44. One out of range is wrong at once; it is spent, so that STX STX is a wrong length.
fn length_taken(b: u8) -> Arrived
    ensures { result ≡ length_taken b }
{
    match b {
        4 => going_on([0; 40], Stage::High(0)),
        5..=44 => going_on([0; 40], Stage::Data(0, b - 5)),
        _ => wrong(),
    }
}

fn sound_stage(stage: Stage) -> bool
    ensures { result ≡ sound_stage stage }
{
    match stage {
        Stage::Length => true,
        Stage::Data(have, more) => (have as u16) + (more as u16) < 40,
        Stage::High(n) => n <= 40,
        Stage::Low(n, _) => n <= 40,
        Stage::End(n) => n <= 40,
    }
}
