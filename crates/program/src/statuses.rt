// The status, and the phase that a command concerns.
ghost use Rattle.std.specs.Prelude.{◌≡◌};
ghost use Rattle.program.specs.Statuses.{pumping, status_run, in_hand};

use crate::state::{Core, Mode, Run, Work};
use drive::Direction;
use words::Status;

impl Run {
    // An entered pause shows itself, any other phase the direction of the current one.
    pub fn status(self, direction: Direction) -> Status
        ensures { result ≡ status_run self direction }
    {
        match self.mode {
            Mode::Stopped(_) => Status::Stopped,
            Mode::Paused => Status::Paused,
            Mode::Running => match self.place.work {
                Work::Entering => pumping(direction),
                Work::Visiting(_) => pumping(direction),
                Work::Pausing(_) => Status::TimedPause,
                Work::Waiting => Status::TriggerWait,
            },
        }
    }
}

impl Core {
    // The number of the phase that a command concerns: the running one while operating, else the chosen one.
    pub fn in_hand(self) -> u8
        ensures { result ≡ in_hand self }
    {
        if self.run.is_operating() {
            return self.run.place.current;
        }
        self.chosen
    }
}

fn pumping(direction: Direction) -> Status
    ensures { result ≡ pumping direction }
{
    match direction {
        Direction::Infuse => Status::Infusing,
        Direction::Withdraw => Status::Withdrawing,
    }
}
