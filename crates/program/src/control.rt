// RUN and STP: what they make of the program under way, and whether they apply.
ghost use Rattle.std.specs.Prelude.{◌≡◌, ◌≤◌};
ghost use Rattle.program.specs.Control.{run_on, run_from, stop_now};

use crate::state::{Mode, Run};
use words::Declined;

impl Run {
    // RUN: starts at 1, resumes, or leaves a trigger wait; the trap and the loops stay then.
    pub fn run_on(self) -> Result<Run, Declined>
        requires { self.place.current ≤ 100 }
        ensures { result ≡ run_on self }
    {
        match self.mode {
            Mode::Stopped(_) => Ok(Run::start(1)),
            Mode::Paused => Ok(self.resume()),
            Mode::Running if self.is_moving() => Err(Declined::NotApplicable),
            Mode::Running => Ok(self.go_on()),
        }
    }

    // RUN n
    pub fn run_from(self, n: u8, phases: u8) -> Result<Run, Declined>
        ensures { result ≡ run_from self n phases }
    {
        if self.is_operating() {
            return Err(Declined::NotApplicable);
        }
        if (1 <= n) & (n <= phases) {
            return Ok(Run::start(n));
        }
        Err(Declined::OutOfRange)
    }

    // STP: pauses I, W and T, stops U and a pause.
    pub fn stop_now(self) -> Result<Run, Declined>
        ensures { result ≡ stop_now self }
    {
        match self.mode {
            Mode::Stopped(_) => Err(Declined::NotApplicable),
            Mode::Paused => Ok(self.stop()),
            Mode::Running if self.is_moving() => Ok(self.pause()),
            Mode::Running => Ok(self.stop()),
        }
    }
}
