// Where in a line the input stands, and what a byte asks for there. Texts, edges and lines that are no item are read as the bench program
// reads them (`script`); `T`, `B` and `P` lines are read here, since they take what that program's do not.
ghost use Rattle.std.specs.Prelude.{◌≡◌, ◌≤◌};
ghost use Rattle.service.specs.Reading.{digit_value, whole_place, whole_held, kept_place, kept_held, text_end};

use script::{Act, Spot};

// The most ticks that one item may ask for.
const MOST_TICKS: u32 = 10_000_000;

// The most data of a packet: its length, which counts four bytes more, is at most 44 (document 02, 2/12).
pub const MOST_DATA: usize = 40;

// What is to be done: what the bench program would do; let so many ticks pass; send so many of the bytes that are held, as they are or as
// the data of a packet.
#[derive(Clone, Copy, PartialEq, Eq, Debug)]
pub enum Ask {
    Bench(Act),
    Elapse(u32),
    Bytes(usize),
    Packet(usize),
}

// In a line that the bench program has too; behind a `T`, and in its number, which is none before its first digit; behind a `B`, between
// two bytes, with how many are held, and behind the first digit of a byte; in the text of a `P` line, with how many bytes are held, and how
// many of them are the text if the line ends here: a return that stands last then belongs to its end; behind a return that may belong to
// the end of another line, with what the line then asks for.
#[derive(Clone, Copy, PartialEq, Eq, Debug)]
pub enum Place {
    Line(Spot),
    Tick,
    Ticks(Option<u32>),
    Byte,
    Bytes(usize),
    Half(usize, u8),
    Text(usize, usize),
    Returned(Ask),
}

#[derive(Clone, Copy, PartialEq, Eq, Debug)]
pub struct Turn {
    pub place: Place,
    pub ask: Ask,
}

impl Place {
    // One byte more; a byte of a `B` line is held when it is whole, one of a text as it comes.
    pub fn after(self, b: u8, held: &mut [u8]) -> Turn {
        if let Place::Line(spot) = self {
            return in_line(spot, b);
        }
        if let Place::Text(n, text) = self {
            return in_text(n, text, b, held);
        }
        match b {
            b'\n' => Turn {
                place: Place::Line(Spot::Start),
                ask: self.line_end(),
            },
            b'\r' => waiting(self.returned()),
            _ => waiting(self.next(b, held)),
        }
    }

    // The newline: what the line asks for.
    fn line_end(self) -> Ask {
        if let Place::Returned(ask) = self {
            return ask;
        }
        self.asked()
    }

    // The end of the input: a last line counts without its newline, and a return is part of it then.
    pub fn input_end(self) -> Ask {
        match self {
            Place::Line(spot) => Ask::Bench(spot.input_end()),
            Place::Returned(_) => Ask::Bench(Act::Complain),
            Place::Text(n, _) => Ask::Packet(n),
            _ => self.asked(),
        }
    }

    // What the line asks for if it is whole.
    fn asked(self) -> Ask {
        match self {
            Place::Ticks(Some(n)) if n <= MOST_TICKS => Ask::Elapse(n),
            Place::Byte => Ask::Bytes(0),
            Place::Bytes(n) => Ask::Bytes(n),
            _ => Ask::Bench(Act::Complain),
        }
    }

    // A return: the first one may belong to the line's end, and no item has one in it.
    fn returned(self) -> Place {
        if let Place::Returned(_) = self {
            return Place::Line(Spot::Bad);
        }
        let ask = self.asked();
        Place::Returned(ask)
    }

    // Any other byte: exactly one blank behind the letter, then digits; between the bytes of a `B` line any number of blanks.
    fn next(self, b: u8, held: &mut [u8]) -> Place {
        match self {
            Place::Tick => {
                if b == b' ' {
                    return Place::Ticks(None);
                }
                Place::Line(Spot::Bad)
            }
            Place::Ticks(n) => match b {
                b'0'..=b'9' => Place::Ticks(Some(script::grown(n.unwrap_or(0), b - b'0'))),
                _ => Place::Line(Spot::Bad),
            },
            Place::Byte => {
                if b == b' ' {
                    return Place::Bytes(0);
                }
                Place::Line(Spot::Bad)
            }
            Place::Bytes(n) => between(n, b),
            Place::Half(n, high) => whole(n, high, b, held),
            _ => Place::Line(Spot::Bad),
        }
    }
}

// A line begins with its letter.
fn in_line(spot: Spot, b: u8) -> Turn {
    if let Spot::Start = spot {
        match b {
            b'T' => return waiting(Place::Tick),
            b'B' => return waiting(Place::Byte),
            b'P' => return waiting(Place::Text(0, 0)),
            _ => {}
        }
    }
    let step = spot.after(b);
    Turn {
        place: Place::Line(step.place),
        ask: Ask::Bench(step.act),
    }
}

// In a text every byte is one of it, up to the newline.
fn in_text(n: usize, text: usize, b: u8, held: &mut [u8]) -> Turn {
    if b == b'\n' {
        return Turn {
            place: Place::Line(Spot::Start),
            ask: Ask::Packet(text),
        };
    }
    waiting(kept(n, b, held))
}

fn waiting(place: Place) -> Turn {
    Turn {
        place,
        ask: Ask::Bench(Act::Wait),
    }
}

// Between two bytes: a blank, or the first digit of the next one.
fn between(n: usize, b: u8) -> Place {
    if b == b' ' {
        return Place::Bytes(n);
    }
    match digit(b) {
        Some(high) => Place::Half(n, high),
        None => Place::Line(Spot::Bad),
    }
}

// The second digit of a byte, which is held; more bytes than there is room for are no item.
fn whole(n: usize, high: u8, b: u8, held: &mut [u8]) -> Place
    ensures { (result ≡ whole_place n high b held.old) × (held.new ≡ whole_held n high b held.old) }
{
    match digit(b) {
        Some(low) if high < 16 && n < held.len() => {
            held[n] = high * 16 + low;
            Place::Bytes(n + 1)
        }
        _ => Place::Line(Spot::Bad),
    }
}

// A byte of a text, which is held: the data of a packet, and a return behind them. A text with more is no item.
fn kept(n: usize, b: u8, held: &mut [u8]) -> Place
    ensures { (result ≡ kept_place n b held.old) × (held.new ≡ kept_held n b held.old) }
{
    if n <= MOST_DATA && n < held.len() {
        held[n] = b;
        return Place::Text(n + 1, text_end(n, b));
    }
    Place::Line(Spot::Bad)
}

// Where the text ends, if the line ends behind this byte of it.
fn text_end(n: usize, b: u8) -> usize
    requires { n ≤ 40 }
    ensures { result ≡ text_end n b }
{
    if b == b'\r' {
        return n;
    }
    n + 1
}

// The value of a hexadecimal digit in either case.
fn digit(b: u8) -> Option<u8>
    ensures { result ≡ digit_value b }
{
    match b {
        b'0'..=b'9' => Some(b - b'0'),
        b'a'..=b'f' => Some(b - b'a' + 10),
        b'A'..=b'F' => Some(b - b'A' + 10),
        _ => None,
    }
}
