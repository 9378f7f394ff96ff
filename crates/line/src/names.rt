// The name that leads a text, and its argument: the rest of that text.
ghost use Rattle.std.specs.Prelude.{◌≡◌};
ghost use Rattle.line.specs.Names.{name_of, named_by, letters_of, argument_of};

use crate::spelling::letter;

// The commands by their names.
#[derive(Clone, Copy, PartialEq, Eq, Debug)]
pub enum Name {
    Dia,
    Rat,
    Vol,
    Dir,
    Phn,
    Fun,
    Run,
    Stp,
    Dis,
    Cld,
    Reset,
}

impl Name {
    // Its letters, as they are sent.
    fn letters(self) -> &'static [u8]
        ensures { result.now ≡ letters_of self }
    {
        match self {
            Name::Dia => b"DIA",
            Name::Rat => b"RAT",
            Name::Vol => b"VOL",
            Name::Dir => b"DIR",
            Name::Phn => b"PHN",
            Name::Fun => b"FUN",
            Name::Run => b"RUN",
            Name::Stp => b"STP",
            Name::Dis => b"DIS",
            Name::Cld => b"CLD",
            Name::Reset => b"*RESET",
        }
    }
}

// The name that leads `s`.
pub fn name_of(s: &[u8]) -> Option<Name>
    ensures { result ≡ name_of s.now }
{
    let name = only_name(s)?;
    if s.starts_with(name.letters()) {
        Some(name)
    } else {
        None
    }
}

// The only name that can lead `s`: up to three letters tell which.
fn only_name(s: &[u8]) -> Option<Name>
    ensures { name_of s.now ≡ named_by result s.now }
{
    let second = letter(s, 1);
    let third = letter(s, 2);
    let name = match letter(s, 0) {
        b'D' => match third {
            b'A' => Name::Dia,
            b'R' => Name::Dir,
            _ => Name::Dis,
        },
        b'R' => match second {
            b'A' => Name::Rat,
            _ => Name::Run,
        },
        b'V' => Name::Vol,
        b'P' => Name::Phn,
        b'F' => Name::Fun,
        b'S' => Name::Stp,
        b'C' => Name::Cld,
        b'*' => Name::Reset,
        _ => return None,
    };
    Some(name)
}

// What stands behind the name that leads `s`.
pub fn argument_of(s: &[u8]) -> &[u8]
    ensures { result.now ≡ argument_of s.now }
{
    match name_of(s) {
        Some(name) => &s[name.letters().len()..],
        None => s,
    }
}
