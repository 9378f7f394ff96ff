// What stands behind FUN: the name of a function, and its datum.
ghost use Rattle.std.specs.Prelude.{◌≡◌};
ghost use Rattle.words.specs.Spelling.{function_name};
ghost use Rattle.line.specs.Functions.{called_in, called_by, holding, if_held, pause_asked, with_datum, function_asked};

use crate::arguments::unless_more;
use crate::spelling::letter;
use words::{Command, Function};

// FUN
pub fn function_asked(s: &[u8]) -> Command
    ensures { result ≡ function_asked s.now }
{
    if s.is_empty() {
        return Command::AskFunction;
    }
    match called_in(s) {
        Some(f) => with_datum(f, &s[f.name().len()..]),
        None => Command::Malformed,
    }
}

// The function whose name leads `s`; its datum is still 0.
fn called_in(s: &[u8]) -> Option<Function>
    ensures { result ≡ called_in s.now }
{
    let f = only_function(s);
    if s.starts_with(f.name()) {
        Some(f)
    } else {
        None
    }
}

// The only function whose name can lead `s`: up to three letters tell which, and letters that begin no name leave RAT.
fn only_function(s: &[u8]) -> Function
    ensures { called_in s.now ≡ called_by result (function_name result) s.now }
{
    let second = letter(s, 1);
    let third = letter(s, 2);
    match letter(s, 0) {
        b'I' => match second {
            b'N' => Function::Inc,
            _ => Function::If(0),
        },
        b'D' => Function::Dec,
        b'S' => Function::Stp,
        b'J' => Function::Jmp(0),
        b'L' => match third {
            b'P' => Function::Lop(0),
            b'S' => Function::Lps,
            _ => Function::Lpe,
        },
        b'P' => Function::Pas(0),
        b'E' => match third {
            b'N' => Function::Evn(0),
            _ => Function::Evr,
        },
        b'B' => Function::Bep,
        b'O' => Function::Out(0),
        _ => Function::Rat,
    }
}

// A function with what stands behind its name, if that is of the kind that the function takes.
fn with_datum(f: Function, s: &[u8]) -> Command
    ensures { result ≡ with_datum f s.now }
{
    match f {
        Function::Jmp(_) | Function::Lop(_) | Function::If(_) | Function::Evn(_) => {
            if_held(f, decimal::read_two(s))
        }
        Function::Pas(_) | Function::Tenths(_) => pause_asked(s),
        Function::Out(_) => if_held(f, decimal::read_one(s)),
        _ => unless_more(s, Command::SetFunction(f)),
    }
}

// PAS: whole seconds, or tenths.
fn pause_asked(s: &[u8]) -> Command
    ensures { result ≡ pause_asked s.now }
{
    match decimal::read_two(s) {
        Some(n) => Command::SetFunction(Function::Pas(n)),
        None => if_held(Function::Tenths(0), decimal::read_tenths(s)),
    }
}

// `f` with the digits that were read, if there were any.
fn if_held(f: Function, digits: Option<u8>) -> Command
    ensures { result ≡ if_held f digits }
{
    match digits {
        Some(n) => Command::SetFunction(holding(f, n)),
        None => Command::Malformed,
    }
}

// `f` with the datum `n`, if it takes one.
fn holding(f: Function, n: u8) -> Function
    ensures { result ≡ holding f n }
{
    match f {
        Function::Jmp(_) => Function::Jmp(n),
        Function::Lop(_) => Function::Lop(n),
        Function::Pas(_) => Function::Pas(n),
        Function::Tenths(_) => Function::Tenths(n),
        Function::If(_) => Function::If(n),
        Function::Evn(_) => Function::Evn(n),
        Function::Out(_) => Function::Out(n),
        _ => f,
    }
}
