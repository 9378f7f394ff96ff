// The address in front of a line: up to two digits.
ghost use Rattle.std.specs.Prelude.{◌≡◌};
ghost use Rattle.line.specs.Addresses.{address_width, address_of, unaddressed};

// How many digits of `s` are its address.
fn address_width(s: &[u8]) -> usize
    ensures { result ≡ address_width s.now }
{
    match s {
        [b'0'..=b'9', b'0'..=b'9', ..] => 2,
        [b'0'..=b'9', ..] => 1,
        _ => 0,
    }
}

// The number that the address digits of `s` make; 0, ours, where there are none.
pub fn address_of(s: &[u8]) -> u8
    ensures { result ≡ address_of s.now }
{
    decimal::read_two(&s[..address_width(s)]).unwrap_or(0)
}

// What follows the address.
pub fn unaddressed(s: &[u8]) -> &[u8]
    ensures { result.now ≡ unaddressed s.now }
{
    &s[address_width(s)..]
}
