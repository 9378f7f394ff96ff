// One byte more of a line: the place after it, and what it asks for.
ghost use Rattle.std.specs.Prelude.{◌≡◌};
ghost use Rattle.script.specs.Places.{after_spot, line_end, input_end, returned, returned_act, next, act_on};

use crate::bytes::{behind_edge, behind_tick, in_level, in_pin, in_ticks, kind};
use crate::numbers::{level_asked, ticks_asked};
use crate::places::{Act, Spot, Step};

impl Spot {
    // One byte more.
    pub fn after(self, b: u8) -> Step
        ensures { result ≡ after_spot self b }
    {
        match b {
            b'\n' => Step {
                place: Spot::Start,
                act: self.line_end(),
            },
            b'\r' => Step {
                place: self.returned(),
                act: self.returned_act(),
            },
            _ => Step {
                place: self.next(b),
                act: self.act_on(b),
            },
        }
    }

    // The newline: what the line asks for.
    fn line_end(self) -> Act
        ensures { result ≡ line_end self }
    {
        match self {
            Spot::Text(_) => Act::Finish(false),
            Spot::Ticks(n) => ticks_asked(n),
            Spot::Level(pin, level) => level_asked(pin, level),
            Spot::Returned(act) => act,
            Spot::Start | Spot::Tick | Spot::Edge | Spot::Pin(_) | Spot::Bad => Act::Complain,
        }
    }

    // The end of the input: a last line counts without its newline, and a return is part of it then.
    pub fn input_end(self) -> Act
        ensures { result ≡ input_end self }
    {
        match self {
            Spot::Start => Act::Wait,
            Spot::Text(held) => Act::Finish(held),
            Spot::Ticks(n) => ticks_asked(n),
            Spot::Level(pin, level) => level_asked(pin, level),
            Spot::Tick | Spot::Edge | Spot::Pin(_) | Spot::Returned(_) | Spot::Bad => Act::Complain,
        }
    }

    // A return: held back in a text; behind a whole item it may belong to the line's end; no other item has one in it.
    fn returned(self) -> Spot
        ensures { result ≡ returned self }
    {
        match self {
            Spot::Text(_) => Spot::Text(true),
            Spot::Ticks(n) => Spot::Returned(ticks_asked(n)),
            Spot::Level(pin, level) => Spot::Returned(level_asked(pin, level)),
            _ => Spot::Bad,
        }
    }

    // A return behind another in a text: the first one was no line's end.
    fn returned_act(self) -> Act
        ensures { result ≡ returned_act self }
    {
        match self {
            Spot::Text(true) => Act::Send(false, b'\r'),
            _ => Act::Wait,
        }
    }

    // Any other byte: where the input then stands.
    fn next(self, b: u8) -> Spot
        ensures { result ≡ next self b }
    {
        match self {
            Spot::Start => kind(b),
            Spot::Text(_) => Spot::Text(false),
            Spot::Tick => behind_tick(b),
            Spot::Ticks(n) => in_ticks(n, b),
            Spot::Edge => behind_edge(b),
            Spot::Pin(n) => in_pin(n, b),
            Spot::Level(pin, n) => in_level(pin, n, b),
            Spot::Returned(_) | Spot::Bad => Spot::Bad,
        }
    }

    // Any other byte: a text's bytes are sent as they come.
    fn act_on(self, b: u8) -> Act
        ensures { result ≡ act_on self b }
    {
        match self {
            Spot::Text(held) => Act::Send(held, b),
            _ => Act::Wait,
        }
    }
}
