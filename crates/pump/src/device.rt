// All of the state but the phases: the core, the line and the link. What a call does to them is a function of them and of the phases
// looked up for them, whatever holds those.
ghost use Rattle.std.specs.Prelude.{◌≡◌, ◌≤◌};
ghost use Rattle.pump.specs.Device.{power_up_device, with_core, with_line, with_link, is_sound_device, edge, hear_text, ours, met, set_limit};
ghost use Rattle.pump.specs.Device.{replied, obeyed, said, link_behind};

use command::{Edit, InHand};
use drive::Direction;
use line::Line;
use link::Link;
use program::Core;
use words::{Alarm, Asked, Command, Phase, Reply, Request, Said};

#[derive(Clone, Copy)]
pub struct Device {
    pub core: Core,
    pub line: Line,
    pub link: Link,
}

// What a text is answered with, before the status is known: that is the status after the edit. Its cases go with those of `Said`.
#[derive(Clone, Copy)]
pub enum Told {
    Nothing,
    Alarm(Alarm),
    Reply(Reply),
}

// What a whole text does: the device after it, what is to be done to the phases, and what is told.
#[derive(Clone, Copy)]
pub struct Heard {
    pub device: Device,
    pub edit: Edit,
    pub told: Told,
}

impl Device {
    // A pump just switched on.
    pub fn power_up() -> Device
        ensures { result ≡ power_up_device }
    {
        Device {
            core: Core::power_up(),
            line: Line::empty(),
            link: Link::basic(),
        }
    }

    // `current` is the current phase.
    pub fn is_sound(self, current: Phase, phases: u8) -> bool
        requires { phases ≤ 99 }
        ensures { result ≡ is_sound_device phases self current }
    {
        let apart = !self.link.is_safe() | (self.line.len == 0);
        self.core.is_sound(current, phases) & self.line.is_sound() & self.link.is_sound() & apart
    }

    // A level of pin 2, 4 or 6.
    pub fn edge(self, pin: u8, high: bool) -> Device
        requires { self.core.run.place.current ≤ 100 }
        ensures { result ≡ edge self pin high }
    {
        let core = match pin {
            2 => self.core.pin_two(high),
            4 => self.core.pin_four(high),
            _ => self.core.pin_six(high),
        };
        self.with_core(core)
    }

    // A whole text, whatever framed it. Another address is passed over.
    pub fn hear_text(self, asked: Asked, in_hand: InHand) -> Heard
        requires { self.core.run.place.current ≤ 100 }
        ensures { result ≡ hear_text self asked in_hand.phase in_hand.next in_hand.phases }
    {
        if asked.address == 0 {
            let request = asked.request;
            return self.ours(request, in_hand);
        }
        Heard {
            device: self,
            edit: Edit::Keep,
            told: Told::Nothing,
        }
    }

    // A pending alarm is answered, then cleared, and the command is not run.
    fn ours(mut self, request: Request, in_hand: InHand) -> Heard
        requires { self.core.run.place.current ≤ 100 }
        ensures { result ≡ ours self request in_hand.phase in_hand.next in_hand.phases }
    {
        if let Some(alarm) = self.core.run.pending() {
            self.core = self.core.with_run(self.core.run.clear_alarm());
            return Heard {
                device: self,
                edit: Edit::Keep,
                told: Told::Alarm(alarm),
            };
        }
        self.met(request, in_hand)
    }

    // SAF is asked of the link, in every state of the pump; every other command of the pump.
    fn met(self, request: Request, in_hand: InHand) -> Heard
        requires { self.core.run.place.current ≤ 100 }
        ensures { result ≡ met self request in_hand.phase in_hand.next in_hand.phases }
    {
        match request {
            Request::AskLimit => self.replied(Reply::Limit(self.link.limit())),
            Request::SetLimit(n) => self.set_limit(n),
            Request::Pump(command) => self.obeyed(command, in_hand),
        }
    }

    // The time limit in seconds; 0 returns to Basic mode.
    fn set_limit(self, n: u16) -> Heard
        ensures { result ≡ set_limit self n }
    {
        if n <= 255 {
            return self
                .with_link(Link::limited(n as u8))
                .replied(Reply::Status);
        }
        self.replied(Reply::OutOfRange)
    }

    fn replied(self, reply: Reply) -> Heard
        ensures { result ≡ replied self reply }
    {
        Heard {
            device: self,
            edit: Edit::Keep,
            told: Told::Reply(reply),
        }
    }

    // A command of the pump is run. *RESET returns to Basic mode too.
    fn obeyed(mut self, command: Command, in_hand: InHand) -> Heard
        requires { self.core.run.place.current ≤ 100 }
        ensures { result ≡ obeyed self command in_hand.phase in_hand.next in_hand.phases }
    {
        let obeyed = command::obey(self.core, in_hand, command);
        self.link = link_behind(obeyed.edit, self.link);
        self = self.with_core(obeyed.core);
        Heard {
            device: self,
            edit: obeyed.edit,
            told: Told::Reply(obeyed.reply),
        }
    }

    // The answer has the status after the command; `direction` is that of the phase that is then the current one.
    pub fn said(self, told: Told, direction: Direction) -> Said
        ensures { result ≡ said self told direction }
    {
        match told {
            Told::Nothing => Said::Nothing,
            Told::Alarm(a) => Said::Alarm(a),
            Told::Reply(reply) => Said::Answer(self.core.run.status(direction), reply),
        }
    }

    pub fn with_core(mut self, core: Core) -> Device
        ensures { result ≡ with_core self core }
    {
        self.core = core;
        self
    }

    pub fn with_line(mut self, line: Line) -> Device
        ensures { result ≡ with_line self line }
    {
        self.line = line;
        self
    }

    pub fn with_link(mut self, link: Link) -> Device
        ensures { result ≡ with_link self link }
    {
        self.link = link;
        self
    }
}

// *RESET leaves Safe mode; it alone asks for all phases as at power-up.
fn link_behind(edit: Edit, link: Link) -> Link
    ensures { result ≡ link_behind edit link }
{
    match edit {
        Edit::Keep => link,
        Edit::Write(_) => link,
        Edit::Renew => Link::basic(),
    }
}
