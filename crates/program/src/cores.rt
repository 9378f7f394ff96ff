// The core with another program under way; what power-up and *RESET make of it.
ghost use Rattle.std.specs.Prelude.{◌≡◌};
ghost use Rattle.program.specs.Cores.{power_up_core, reset_core, with_run};

use crate::state::{Core, Mode, Pins, Run};
use dispense::Ledger;
use drive::Syringe;
use words::Alarm;

impl Core {
    // A pump just switched on.
    pub fn power_up() -> Core
        ensures { result ≡ power_up_core }
    {
        Core {
            ledger: Ledger::fresh(),
            run: Run::fresh_at(1, Mode::Stopped(Some(Alarm::PowerUp))),
            syringe: Syringe { diameter: 10_000 },
            pins: Pins {
                two: true,
                four: true,
                six: true,
            },
            output: false,
            chosen: 1,
        }
    }

    // *RESET: as at power-up, but with no alarm, and the pins as they are.
    pub fn reset(self) -> Core
        ensures { result ≡ reset_core self }
    {
        Core {
            run: Run::fresh_at(1, Mode::Stopped(None)),
            pins: self.pins,
            ..Core::power_up()
        }
    }

    pub fn with_run(mut self, run: Run) -> Core
        ensures { result ≡ with_run self run }
    {
        self.run = run;
        self
    }
}
