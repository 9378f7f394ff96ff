// The calls: a byte, a pin level, a tick. Each tests the whole state first; no call has a precondition.
ghost use Rattle.std.specs.Prelude.{◌≡◌};
ghost use Rattle.pump.specs.Calls.{Handy, tick_call, tick_buffer, pin_call, byte_report, byte_buffer, told_of, after_text, frame_in};

use crate::arriving::Brought;
use crate::checks::is_fit;
use crate::device::Told;
use crate::holder::Pump;
use crate::reports::{Refusal, Report};
use answer::Frame;
use command::InHand;
use link::Link;
use words::{Asked, Reply, Said};

// The pump after a whole text, and what it says: a value, whatever frames it.
#[derive(Clone, Copy)]
pub struct Listened {
    pub pump: Pump,
    pub said: Said,
}

impl Pump {
    // One millisecond. In Safe mode an alarm that it raises is written at the start of `out`, as a packet.
    pub fn tick(self, out: &mut [u8]) -> Report
        ensures { (result ≡ tick_call self out.old) × (out.new ≡ tick_buffer self out.old) }
    {
        self.ticks(1, out)
    }

    // A level of pin 2, 4 or 6: 0 is low, 1 is high.
    pub fn pin(mut self, pin: u8, level: u8) -> Report
        ensures { result ≡ pin_call self pin level }
    {
        let refusal = Refusal::of_pin(self.is_sound(), pin, level);
        if refusal.is_none() {
            self.device = self.device.edge(pin, level == 1);
        }
        self.unstepped(0, refusal)
    }

    // One byte of a line, or in Safe mode of a packet. The answer to a whole one is written at the start of `out`, in the mode of the link
    // that it came by: SAF and *RESET change the mode behind it.
    pub fn byte(mut self, b: u8, out: &mut [u8]) -> Report
        ensures { (result ≡ byte_report self b out.old) × (out.new ≡ byte_buffer self b out.old) }
    {
        let phases = self.phases;
        let refusal = Refusal::of_byte(is_fit(&phases, self.device), out.len());
        let mut length: usize = 0;
        if refusal.is_none() {
            let source = self.device.link;
            let arrival = self.device.arrived(b);
            self.device = arrival.device;
            if arrival.brought.is_whole() {
                let listened = self.told(arrival.brought);
                self = listened.pump;
                length = answer::write(frame_in(source), 0, listened.said, out);
            }
        }
        self.unstepped(length, refusal)
    }

    // What a byte brought to its end is heard. A wrong packet is answered `?COM` and asks for nothing.
    fn told(self, brought: Brought) -> Listened
        requires { Handy self }
        ensures { result ≡ told_of self brought }
    {
        match brought {
            Brought::Nothing => Listened {
                pump: self,
                said: Said::Nothing,
            },
            Brought::Wrong => {
                let current = self.phase_at(self.device.core.run.place.current);
                let said = self
                    .device
                    .said(Told::Reply(Reply::Garbled), current.direction);
                Listened { pump: self, said }
            }
            Brought::Text(asked) => self.after_text(asked),
        }
    }

    // The text is heard: the phases that it may concern are looked up, and the edit is stored. The status is that after the command.
    fn after_text(mut self, asked: Asked) -> Listened
        requires { Handy self }
        ensures { result ≡ after_text self asked }
    {
        let n = self.device.core.in_hand();
        let in_hand = InHand {
            phase: self.phase_at(n),
            next: self.phase_at(n + 1).function,
            phases: Pump::PHASES,
        };
        let heard = self.device.hear_text(asked, in_hand);
        self = self.with_device(heard.device);
        self = self.edited(n, heard.edit);
        let current = self.phase_at(self.device.core.run.place.current);
        let said = self.device.said(heard.told, current.direction);
        Listened { pump: self, said }
    }
}

// A line in Basic mode, a packet in Safe mode.
fn frame_in(link: Link) -> Frame
    ensures { result ≡ frame_in link }
{
    if link.is_safe() {
        return Frame::Packet;
    }
    Frame::Line
}
