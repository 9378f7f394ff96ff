// The command that a text asks for, malformed among them; data may be out of range here.
ghost use Rattle.std.specs.Prelude.{◌≡◌};
ghost use Rattle.line.specs.Commands.{asked_by, command_of};

use crate::arguments::{
    clear_asked, diameter_asked, direction_asked, phase_asked, rate_asked, run_asked, unless_more,
    volume_asked,
};
use crate::functions::function_asked;
use crate::names::{Name, argument_of, name_of};
use words::Command;

// The command that a text asks for, its address taken off.
pub fn command_of(s: &[u8]) -> Command
    ensures { result ≡ command_of s.now }
{
    if s.is_empty() {
        return Command::Status;
    }
    match name_of(s) {
        Some(name) => asked_by(name, argument_of(s)),
        None => Command::Malformed,
    }
}

// What each name's argument asks for. The names are known and closed: a match, and no table of functions.
fn asked_by(name: Name, rest: &[u8]) -> Command
    ensures { result ≡ asked_by name rest.now }
{
    match name {
        Name::Dia => diameter_asked(rest),
        Name::Rat => rate_asked(rest),
        Name::Vol => volume_asked(rest),
        Name::Dir => direction_asked(rest),
        Name::Phn => phase_asked(rest),
        Name::Fun => function_asked(rest),
        Name::Run => run_asked(rest),
        Name::Stp => unless_more(rest, Command::Stop),
        Name::Dis => unless_more(rest, Command::AskDispensed),
        Name::Cld => clear_asked(rest),
        Name::Reset => unless_more(rest, Command::Reset),
    }
}
