// The bytes of an answer behind its address, as texts: each part is a value, and what is written stands in one buffer at the end.
ghost use Rattle.std.specs.Prelude.{[], ◌≡◌, ◌++◌, ◌+◌, ◌≤◌, length};
ghost use Rattle.words.specs.Spelling.{datum_text};
ghost use Rattle.answer.specs.Answers.{body_of, room};
ghost use Rattle.answer.specs.Replies.{data_of, function_text, totals_text};

use crate::frame::ROOM;
use crate::letters::{
    alarm_letter, direction_letters, rate_letters, status_letter, volume_letters,
};
use arrayvec::ArrayVec;
use drive::VolumeUnit;
use words::{Function, Reply, Said};

// A text: its bytes lie in the value itself, which has room for the longest answer.
pub type Text = ArrayVec<u8, ROOM>;

// The status letter and what the reply says, or the alarm in their place.
pub fn body(said: Said) -> Text
    ensures { result.items ≡ body_of said }
{
    match said {
        Said::Nothing => Text::new(),
        Said::Alarm(alarm) => joined(b"A?", &[alarm_letter(alarm)]),
        Said::Answer(status, reply) => joined(&[status_letter(status)], data(reply).as_slice()),
    }
}

// What stands behind the status letter.
fn data(reply: Reply) -> Text
    ensures { result.items ≡ data_of reply }
{
    match reply {
        Reply::Status => Text::new(),
        Reply::Malformed => text(b"?"),
        Reply::NotApplicable => text(b"?NA"),
        Reply::OutOfRange => text(b"?OOR"),
        Reply::Garbled => text(b"?COM"),
        Reply::Number(x) => text(&decimal::print(x)),
        Reply::Rate(x, unit) => joined(&decimal::print(x), &rate_letters(unit)),
        Reply::Volume(x, unit) => joined(&decimal::print(x), &volume_letters(unit)),
        Reply::Direction(d) => text(&direction_letters(d)),
        Reply::Phase(n) => text(&decimal::print_two(n)),
        Reply::Limit(n) => text(&decimal::print_three(n)),
        Reply::Function(f) => function(f),
        Reply::Totals(infused, withdrawn, unit) => totals(infused, withdrawn, unit),
    }
}

// DIS: `I` and the infused total, `W` and the withdrawn one, the unit.
fn totals(infused: u32, withdrawn: u32, unit: VolumeUnit) -> Text
    ensures { result.items ≡ totals_text infused withdrawn unit }
{
    let first = joined(b"I", &decimal::print(infused));
    let second = joined(b"W", &decimal::print(withdrawn));
    let numbers = joined(first.as_slice(), second.as_slice());
    joined(numbers.as_slice(), &volume_letters(unit))
}

// A function's name and its datum.
fn function(f: Function) -> Text
    ensures { result.items ≡ function_text f }
{
    joined(f.name(), function_datum(f).as_slice())
}

// The datum as tenths, as two digits, or, for the output's level, as one digit.
fn function_datum(f: Function) -> Text
    ensures { result.items ≡ datum_text f }
{
    let n = f.number();
    let datum = f.datum();
    if n == 9 {
        text(&decimal::print_tenths(datum))
    } else if f.takes_phase() | f.takes_count() | (n == 8) {
        text(&decimal::print_two(datum))
    } else if f.is_out() {
        text(&[b'0' + datum % 10])
    } else {
        Text::new()
    }
}

// A text of these bytes.
fn text(bytes: &[u8]) -> Text
    requires { length bytes.now ≤ room }
    ensures { result.items ≡ bytes.now }
{
    joined(bytes, b"")
}

// Two runs of bytes, one behind the other.
pub fn joined(first: &[u8], second: &[u8]) -> Text
    requires { length first.now + length second.now ≤ room }
    ensures { result.items ≡ first.now ++ second.now }
{
    let mut text = Text::new();
    text.try_extend_from_slice(first).unwrap();
    text.try_extend_from_slice(second).unwrap();
    text
}
