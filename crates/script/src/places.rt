// Where in a line the input stands, and what a byte asks for there.
ghost use Rattle.std.specs.Prelude.{◌≡◌};
ghost use Rattle.script.specs.Places.{is_deed};

// What is to be done: nothing, send a byte (behind a return that was held back), end a text (likewise), set a pin, run ticks, say
// that there is no such item. A return is held back or not beside the byte, and tells nothing of whether there is one.
#[derive(Clone, Copy, PartialEq, Eq, Debug)]
pub enum Act {
    Wait,
    Send(bool, u8),
    Finish(bool),
    Set(u8, u8),
    Run(u32),
    Complain,
}

impl Act {
    // Whether anything is to be done.
    pub fn is_deed(self) -> bool
        ensures { result ≡ is_deed self }
    {
        !matches!(self, Act::Wait)
    }
}

// Before a line; in a text, and whether a return is held back, since it may belong to the line's end; behind a `T`, in its number;
// behind an `E`, in its pin and in its level, none of which is there before its first digit; behind a return that may belong to the
// line's end, with what the line then asks for; in a line that is no item.
#[derive(Clone, Copy, PartialEq, Eq, Debug)]
pub enum Spot {
    Start,
    Text(bool),
    Tick,
    Ticks(u32),
    Edge,
    Pin(Option<u32>),
    Level(u32, Option<u32>),
    Returned(Act),
    Bad,
}

#[derive(Clone, Copy, PartialEq, Eq, Debug)]
pub struct Step {
    pub place: Spot,
    pub act: Act,
}
