// The face of the number crate for tests written in C, and nothing else: each function calls one function of `decimal` and
// hands its result back as a number, or as bytes in a buffer that the caller lends. No crate of the pump uses it; `test_numbers_c`
// exports it.
#![tactic(auto)]

ghost use Rattle.std.specs.Prelude.{◌≡◌};
ghost use Rattle.decimal.specs.Print.{print, print_tenths, print_two};
ghost use Rattle.decimal.specs.Read.{read};
ghost use Rattle.decimal.specs.Short.{read_one, read_tenths, read_two};
ghost use Rattle.decimal.specs.Writable.{is_writable};
ghost use Rattle.test_numbers.specs.Face.{reading_as, short_as, test_as, count_of, buffer_of};

// What stands for no number: one more than the largest u32.
const NO_NUMBER: u64 = 4_294_967_296;

// What stands for no digits: one more than the largest u8.
const NO_DIGITS: u32 = 256;

// `s` as a number of thousandths.
pub fn test_read(s: &[u8]) -> u64
    ensures { result ≡ reading_as (read s.now) }
{
    decimal::read(s).map_or(NO_NUMBER, u64::from)
}

// `s` as one digit.
pub fn test_read_one(s: &[u8]) -> u32
    ensures { result ≡ short_as (read_one s.now) }
{
    short_as(decimal::read_one(s))
}

// `s` as one or two digits.
pub fn test_read_two(s: &[u8]) -> u32
    ensures { result ≡ short_as (read_two s.now) }
{
    short_as(decimal::read_two(s))
}

// `s` as tenths.
pub fn test_read_tenths(s: &[u8]) -> u32
    ensures { result ≡ short_as (read_tenths s.now) }
{
    short_as(decimal::read_tenths(s))
}

// 1 if some input gives `x` thousandths, else 0.
pub fn test_is_writable(x: u32) -> u32
    ensures { result ≡ test_as (is_writable x) }
{
    if decimal::is_writable(x) { 1 } else { 0 }
}

// `x` thousandths, printed into `out`.
pub fn test_print(x: u32, out: &mut [u8]) -> usize
    ensures count { result ≡ count_of (print x) out.old }
    ensures buffer { out.new ≡ buffer_of (print x) out.old }
{
    hand(&decimal::print(x), out)
}

// `n` as two digits, printed into `out`.
pub fn test_print_two(n: u8, out: &mut [u8]) -> usize
    ensures count { result ≡ count_of (print_two n) out.old }
    ensures buffer { out.new ≡ buffer_of (print_two n) out.old }
{
    hand(&decimal::print_two(n), out)
}

// `n` tenths, printed into `out`.
pub fn test_print_tenths(n: u8, out: &mut [u8]) -> usize
    ensures count { result ≡ count_of (print_tenths n) out.old }
    ensures buffer { out.new ≡ buffer_of (print_tenths n) out.old }
{
    hand(&decimal::print_tenths(n), out)
}

// A short datum as one number.
fn short_as(d: Option<u8>) -> u32
    ensures { result ≡ short_as d }
{
    d.map_or(NO_DIGITS, u32::from)
}

// `text` at the start of `out`. Answers how many bytes were written: none where `out` is too short, since C can lend any buffer.
fn hand(text: &[u8], out: &mut [u8]) -> usize
    ensures count { result ≡ count_of text.now out.old }
    ensures buffer { out.new ≡ buffer_of text.now out.old }
{
    if text.len() <= out.len() {
        base::copy(out, 0, text)
    } else {
        0
    }
}
