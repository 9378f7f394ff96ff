// Whole numbers in an item, and its words.
ghost use Rattle.std.specs.Prelude.{◌≤◌};

// The digits of `s` as a number. It stops growing past a thousand million, and what is no digit counts as 0.
pub fn whole(s: &[u8]) -> u32 {
    let mut x: u32 = 0;
    for &b in s {
        if x < 100_000_000 {
            x = x * 10 + digit(b);
        }
    }
    x
}

// No digit is 0 in these items, and not the lack of a number.
fn digit(b: u8) -> u32
    ensures { result ≤ 9 }
{
    match b {
        b'0'..=b'9' => u32::from(b - b'0'),
        _ => 0,
    }
}

// What stands before the first blank of `s`, and what behind it.
pub fn two_words(s: &[u8]) -> (&[u8], &[u8]) {
    match s.iter().position(|b| *b == b' ') {
        Some(end) => (&s[..end], &s[end + 1..]),
        None => (s, b""),
    }
}
