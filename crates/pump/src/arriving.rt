// What a byte makes of the device, before what it brought is heard: in Basic mode it goes to the line, in Safe mode (document 02, 2/12) to
// the packet under way.
ghost use Rattle.std.specs.Prelude.{◌≡◌, true, ◌≤◌};
ghost use Rattle.link.specs.Link.{is_sound_link};
ghost use Rattle.pump.specs.Arriving.{arrival, packet_arrival, data_in, is_whole};

use crate::device::Device;
use line::Line;
use link::Link;
use packet::Outcome;
use words::Asked;

// What a byte brought to its end: nothing yet, a packet that is wrong, or a whole text. An Option would add a `Some` wherever one is
// made, and take no test away.
#[derive(Clone, Copy)]
pub enum Brought {
    Nothing,
    Wrong,
    Text(Asked),
}

#[derive(Clone, Copy)]
pub struct Arrival {
    pub device: Device,
    pub brought: Brought,
}

impl Device {
    // What a whole line or packet asks is read, and its bytes are put away.
    pub fn arrived(mut self, b: u8) -> Arrival
        requires { is_sound_link self.link ≡ true }
        ensures { result ≡ arrival self b }
    {
        if self.link.is_safe() {
            let taken = self.link.after(b);
            return self.packet_arrived(taken.link, taken.outcome);
        }
        let arrived = self.line.after_byte(b);
        let mut line = arrived.line;
        let mut brought = Brought::Nothing;
        if arrived.ended {
            brought = Brought::Text(line.asked_in());
            line = Line::empty();
        }
        self.line = line;
        Arrival {
            device: self,
            brought,
        }
    }

    // A good packet's data lie at the start of the link's bytes.
    fn packet_arrived(mut self, link: Link, outcome: Outcome) -> Arrival
        requires { data_in outcome ≤ 40 }
        ensures { result ≡ packet_arrival self link outcome }
    {
        self.link = link;
        let brought = match outcome {
            Outcome::Nothing => Brought::Nothing,
            Outcome::Wrong => Brought::Wrong,
            Outcome::Good(n) => {
                let bytes = link.bytes;
                self.link = link.cleared();
                Brought::Text(line::asked_of(&bytes[..n as usize]))
            }
        };
        Arrival {
            device: self,
            brought,
        }
    }
}

impl Brought {
    // Whether there is something to be heard.
    pub fn is_whole(self) -> bool
        ensures { result ≡ is_whole self }
    {
        !matches!(self, Brought::Nothing)
    }
}
