// The direction of pumping.
ghost use Rattle.std.specs.Prelude.{◌≡◌};
ghost use Rattle.drive.specs.Directions.{reverse};

#[derive(Clone, Copy, PartialEq, Eq, Debug)]
pub enum Direction {
    Infuse,
    Withdraw,
}

impl Direction {
    // The other direction.
    pub fn reverse(self) -> Direction
        ensures { result ≡ reverse self }
    {
        match self {
            Direction::Infuse => Direction::Withdraw,
            Direction::Withdraw => Direction::Infuse,
        }
    }
}
