// What the current phase is doing, asked.
ghost use Rattle.std.specs.Prelude.{◌≡◌};
ghost use Rattle.program.specs.Runs.{is_entering, is_visiting, is_waiting};

use crate::state::Work;

impl Work {
    pub fn is_entering(self) -> bool
        ensures { result ≡ is_entering self }
    {
        matches!(self, Work::Entering)
    }

    pub fn is_visiting(self) -> bool
        ensures { result ≡ is_visiting self }
    {
        matches!(self, Work::Visiting(_))
    }

    pub fn is_waiting(self) -> bool
        ensures { result ≡ is_waiting self }
    {
        matches!(self, Work::Waiting)
    }
}
