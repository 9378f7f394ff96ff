// What is printed, a line at a time. Lines are values, and stand in a buffer only where the input is fed.
ghost use Rattle.std.specs.Prelude.{◌≡◌, ◌⊎◌, [], ◌∷◌, ◌++◌, ◌≤◌, eqb, length, if◌then◌else◌};
ghost use Rattle.player.specs.Printing.{complaint_line, counts_line, decimal, lines_text, unframed};

use crate::joining::Lines;
use arrayvec::ArrayVec;

// A letter, a blank, a count of at most 20 digits, and the byte that stands behind it.
pub type Label = ArrayVec<u8, 23>;

// What a byte call has to say: that it was refused, or what lies between STX and ETX of its answer, if there is one.
pub fn answer_line(refused: bool, answer: &[u8]) -> Lines
    requires { (length answer.now ≡ 0) ⊎ ((2 ≤ length answer.now) × (length answer.now ≤ 24)) }
    ensures { lines_text result ≡ (if refused
        then complaint_line
        else if eqb (length answer.now) 0 then [] else unframed (length answer.now) answer.now ++ 10 ∷ []) }
{
    if refused {
        return complaint();
    }
    match answer {
        [_, text @ .., _] => Lines::joined(text, b"\n"),
        _ => Lines::new(),
    }
}

// The counts of ticks, unless they were refused.
pub fn ticks_line(refused: bool, n: u64, infused: u64, withdrawn: u64) -> Lines
    ensures { lines_text result ≡ (if refused then complaint_line else counts_line n infused withdrawn) }
{
    if refused {
        return complaint();
    }
    counts(n, infused, withdrawn)
}

// A call that prints nothing unless it was refused.
pub fn refusal_line(refused: bool) -> Lines
    ensures { lines_text result ≡ (if refused then complaint_line else []) }
{
    if refused { complaint() } else { Lines::new() }
}

// An empty line behind a text that had no answer at all.
pub fn silence_line(replied: bool) -> Lines
    ensures { lines_text result ≡ (if replied then [] else 10 ∷ []) }
{
    if replied {
        Lines::new()
    } else {
        Lines::joined(b"\n", b"")
    }
}

// No such item, or a refused call.
pub fn complaint() -> Lines
    ensures { lines_text result ≡ complaint_line }
{
    Lines::joined(b"!\n", b"")
}

// T, ticks, I, steps infused, W, steps withdrawn.
fn counts(n: u64, infused: u64, withdrawn: u64) -> Lines
    ensures { lines_text result ≡ counts_line n infused withdrawn }
{
    let ticks = labelled(b'T', n, b' ');
    let steps = labelled(b'I', infused, b' ');
    let back = labelled(b'W', withdrawn, b'\n');
    let first = Lines::joined(ticks.as_slice(), steps.as_slice());
    Lines::joined(first.as_slice(), back.as_slice())
}

// A letter, a count in decimal digits without zeros in front, and the byte that stands behind it.
pub fn labelled(letter: u8, n: u64, behind: u8) -> Label
    ensures { result.items ≡ letter ∷ 32 ∷ (decimal n ++ behind ∷ []) }
{
    let mut digits = [0u8; 20];
    let k = io::decimal(n, &mut digits);
    let mut label = Label::new();
    label.push(letter);
    label.push(b' ');
    label.try_extend_from_slice(&digits[..k]).unwrap();
    label.push(behind);
    label
}
