// The letters of a text.
ghost use Rattle.std.specs.Prelude.{◌≡◌, get_or};

// The letter at place `i`; past the end 0, which no line holds.
pub fn letter(s: &[u8], i: usize) -> u8
    ensures { result ≡ get_or s.now i 0 }
{
    s.get(i).copied().unwrap_or(0)
}
