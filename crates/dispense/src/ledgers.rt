// What was given in each direction, and its booking.
ghost use Rattle.std.specs.Prelude.{◌≡◌, ◌≤◌};
ghost use Rattle.dispense.specs.Ledgers.{most_total, figure_of, with_figure, total_of, book, clear, fresh, is_sound_ledger};

use drive::Direction;

// A total never passes this: 10^18 fl.
pub const MOST_TOTAL: u64 = 1_000_000_000_000_000_000;

// A figure for each direction.
#[derive(Clone, Copy)]
pub struct Pair {
    pub infused: u64,
    pub withdrawn: u64,
}

// What was given in each direction since it was last cleared, in fl.
#[derive(Clone, Copy)]
pub struct Ledger {
    pub totals: Pair,
}

impl Pair {
    pub fn figure_of(self, direction: Direction) -> u64
        ensures { result ≡ figure_of self direction }
    {
        match direction {
            Direction::Infuse => self.infused,
            Direction::Withdraw => self.withdrawn,
        }
    }

    pub fn with_figure(mut self, direction: Direction, x: u64) -> Pair
        ensures { result ≡ with_figure self direction x }
    {
        match direction {
            Direction::Infuse => {
                self.infused = x;
                self
            }
            Direction::Withdraw => {
                self.withdrawn = x;
                self
            }
        }
    }
}

impl Ledger {
    // Nothing given in either direction.
    pub fn fresh() -> Ledger
        ensures { result ≡ fresh }
    {
        Ledger {
            totals: Pair {
                infused: 0,
                withdrawn: 0,
            },
        }
    }

    pub fn total_of(self, direction: Direction) -> u64
        ensures { result ≡ total_of self direction }
    {
        self.totals.figure_of(direction)
    }

    // So much more was given.
    pub fn book(self, direction: Direction, fl: u64) -> Ledger
        requires { (total_of self direction ≤ most_total) × (fl ≤ most_total) }
        ensures { result ≡ book self direction fl }
    {
        Ledger {
            totals: self
                .totals
                .with_figure(direction, self.totals.figure_of(direction) + fl),
        }
    }

    // CLD
    pub fn clear(self, direction: Direction) -> Ledger
        ensures { result ≡ clear self direction }
    {
        Ledger {
            totals: self.totals.with_figure(direction, 0),
        }
    }

    pub fn is_sound(self) -> bool
        ensures { result ≡ is_sound_ledger self }
    {
        (self.totals.infused <= MOST_TOTAL) & (self.totals.withdrawn <= MOST_TOTAL)
    }
}
