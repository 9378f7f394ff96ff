// Many ticks at a time (document 02, 1/12): the same as that many calls of `Pump::tick`, one after the other, up to one that sends an alarm
// (2/12). The state is tested once: a tick keeps a sound state sound. A single tick goes this way too.
ghost use Rattle.std.specs.Prelude.{◌≡◌};
ghost use Rattle.pump.specs.Calls.{ticks_call, ticks_buffer};
ghost use Rattle.pump.specs.Going.{Ongoing, Turned};

use crate::checks::is_fit;
use crate::elapsing::is_alarmed;
use crate::holder::{Pump, phase_of};
use crate::reports::{Refusal, Report};
use program::Core;
use words::Phase;

// Ticks under way: the core after those that are done, how many are left, and the sums of steps and beeps.
#[derive(Clone, Copy)]
pub struct Going {
    pub core: Core,
    pub left: u32,
    pub infused: u32,
    pub withdrawn: u32,
    pub beeps: u32,
}

impl Pump {
    // So many milliseconds, up to 1,000,000. One copy of the phases is lent to the test and to the run: a call that is handed the pump
    // would make another. What is refused runs no tick. In Safe mode the ticks end with the one that raises an alarm: they run no further
    // than the time limit, and are watched for an alarm of the program where none was pending.
    pub fn ticks(self, n: u32, out: &mut [u8]) -> Report
        ensures { (result ≡ ticks_call self n out.old) × (out.new ≡ ticks_buffer self n out.old) }
    {
        let phases = self.phases;
        let refusal = Refusal::of_ticks(is_fit(&phases, self.device), out.len(), n);
        let span = if refusal.is_some() {
            0
        } else {
            self.device.reach(n)
        };
        let watched = self.device.is_watched();
        let mut going = Going::from(self.device.core, span);
        // no index loop: a turn takes as many ticks as it may
        while (0 < going.left) & !(watched & is_alarmed(going.core)) {
            let here = phase_of(&phases, going.core.run.place.current);
            going = turn(going, here);
        }
        self.gone(going, span, refusal, out)
    }
}

impl Going {
    fn from(core: Core, n: u32) -> Going
        ensures { result ≡ record { core = core; left = n; infused = 0; withdrawn = 0; beeps = 0 } }
    {
        Going {
            core,
            left: n,
            infused: 0,
            withdrawn: 0,
            beeps: 0,
        }
    }
}

// Some of the ticks that are left, with the current phase in hand: those that only move the program on, or as many at once as nothing
// begins or ends in, and the one behind them.
fn turn(going: Going, here: Phase) -> Going
    requires { Ongoing going here }
    ensures { Turned going here result }
{
    let mut core = going.core;
    let left = going.left;
    let hopped = leap::hop(core.run, here.function, left);
    if 0 < hopped.ticks {
        let run = hopped.run;
        core.run = run;
        return Going {
            core,
            left: left - hopped.ticks,
            infused: going.infused,
            withdrawn: going.withdrawn,
            beeps: going.beeps,
        };
    }
    let leapt = leap::leap(core, here, left - 1);
    let moved = tick::tick(leapt.core, here);
    let after = moved.core;
    Going {
        core: after,
        left: left - leapt.ticks - 1,
        infused: going.infused + leapt.infused + moved.infused as u32,
        withdrawn: going.withdrawn + leapt.withdrawn + moved.withdrawn as u32,
        beeps: going.beeps + moved.beep as u32,
    }
}
