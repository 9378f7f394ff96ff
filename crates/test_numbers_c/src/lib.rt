// What `test_numbers` offers, as functions for C: each calls the one of its name there and promises what that promises.
//
// Nothing checks the declarations on the side of C, so only numbers and slices of bytes pass. A slice is two arguments
// there, a pointer and a length.
#![tactic(auto)]

ghost use Rattle.std.specs.Prelude.{◌≡◌};
ghost use Rattle.decimal.specs.Print.{print, print_tenths, print_two};
ghost use Rattle.decimal.specs.Read.{read};
ghost use Rattle.decimal.specs.Short.{read_one, read_tenths, read_two};
ghost use Rattle.decimal.specs.Writable.{is_writable};
ghost use Rattle.test_numbers.specs.Face.{reading_as, short_as, test_as, count_of, buffer_of};

// `s` as a number of thousandths.
#[unsafe(no_mangle)]
pub extern "C" fn test_read(s: &[u8]) -> u64
    ensures { result ≡ reading_as (read s.now) }
{
    test_numbers::test_read(s)
}

// `s` as one digit.
#[unsafe(no_mangle)]
pub extern "C" fn test_read_one(s: &[u8]) -> u32
    ensures { result ≡ short_as (read_one s.now) }
{
    test_numbers::test_read_one(s)
}

// `s` as one or two digits.
#[unsafe(no_mangle)]
pub extern "C" fn test_read_two(s: &[u8]) -> u32
    ensures { result ≡ short_as (read_two s.now) }
{
    test_numbers::test_read_two(s)
}

// `s` as tenths.
#[unsafe(no_mangle)]
pub extern "C" fn test_read_tenths(s: &[u8]) -> u32
    ensures { result ≡ short_as (read_tenths s.now) }
{
    test_numbers::test_read_tenths(s)
}

// 1 if some input gives `x` thousandths, else 0.
#[unsafe(no_mangle)]
pub extern "C" fn test_is_writable(x: u32) -> u32
    ensures { result ≡ test_as (is_writable x) }
{
    test_numbers::test_is_writable(x)
}

// `x` thousandths, printed into `out`.
#[unsafe(no_mangle)]
pub extern "C" fn test_print(x: u32, out: &mut [u8]) -> usize
    ensures count { result ≡ count_of (print x) out.old }
    ensures buffer { out.new ≡ buffer_of (print x) out.old }
{
    test_numbers::test_print(x, out)
}

// `n` as two digits, printed into `out`.
#[unsafe(no_mangle)]
pub extern "C" fn test_print_two(n: u8, out: &mut [u8]) -> usize
    ensures count { result ≡ count_of (print_two n) out.old }
    ensures buffer { out.new ≡ buffer_of (print_two n) out.old }
{
    test_numbers::test_print_two(n, out)
}

// `n` tenths, printed into `out`.
#[unsafe(no_mangle)]
pub extern "C" fn test_print_tenths(n: u8, out: &mut [u8]) -> usize
    ensures count { result ≡ count_of (print_tenths n) out.old }
    ensures buffer { out.new ≡ buffer_of (print_tenths n) out.old }
{
    test_numbers::test_print_tenths(n, out)
}
