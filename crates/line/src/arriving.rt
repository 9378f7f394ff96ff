// What one byte does to a line.
ghost use Rattle.std.specs.Prelude.{◌≡◌};
ghost use Rattle.line.specs.Characters.{arrival_of, can_stand};

#[derive(Clone, Copy)]
pub enum Arrival {
    End,
    Dropped,
    Kept(u8),
}

// Bytes from 128 up are characters like others.
pub fn arrival_of(b: u8) -> Arrival
    ensures { result ≡ arrival_of b }
{
    match b {
        13 => Arrival::End,
        0..=32 => Arrival::Dropped,
        127 => Arrival::Dropped,
        b'a'..=b'z' => Arrival::Kept(b - 32),
        _ => Arrival::Kept(b),
    }
}

// Whether a line can hold the character `c`: one that arrives as it is. A match on byte ranges, as document 01 names it.
pub fn can_stand(c: u8) -> bool
    ensures { result ≡ can_stand c }
{
    match c {
        0..=32 => false,
        127 => false,
        b'a'..=b'z' => false,
        _ => true,
    }
}
