// Whether a core is sound, with its current phase in hand. Bool results are joined by `&` and `|`, so that each clause is a value.
ghost use Rattle.std.specs.Prelude.{◌≡◌, ◌≤◌};
ghost use Rattle.program.specs.Sound.{is_sound_trap, is_sound_visit, is_sound_work, is_sound_mode, is_sound_run, is_sound_core};

use crate::state::{Core, Mode, Run, Work};
use dispense::{Rate, Visit};
use drive::Syringe;
use words::Phase;

impl Core {
    // `here` is the current phase.
    pub fn is_sound(self, here: Phase, phases: u8) -> bool
        requires { phases ≤ 99 }
        ensures { result ≡ is_sound_core phases self here }
    {
        let d = self.syringe.diameter as u32;
        drive::is_diameter(d)
            & decimal::is_writable(d)
            & (1 <= self.chosen)
            & (self.chosen <= phases)
            & self.ledger.is_sound()
            & self.run.is_sound(phases)
            & self
                .run
                .place
                .work
                .is_sound(self.syringe, here, self.run.rate)
    }
}

impl Run {
    fn is_sound(self, phases: u8) -> bool
        requires { phases ≤ 99 }
        ensures { result ≡ is_sound_run phases self }
    {
        let n = self.place.current;
        (1 <= n)
            & (n <= phases + 1)
            & (self.rate.map_or(0, |rate| rate.thousandths) <= decimal::MOST)
            & is_sound_trap(self.trap, phases)
            & self.loops.is_sound(phases)
            & self.is_sound_mode()
    }

    // A stopped pump has nothing under way.
    fn is_sound_mode(self) -> bool
        ensures { result ≡ is_sound_mode self self.mode }
    {
        let Mode::Stopped(_) = self.mode else {
            return true;
        };
        self.place.work.is_entering()
            & self.trap.is_none()
            & (self.loops.count == 0)
            & self.rate.is_none()
    }
}

impl Work {
    fn is_sound(self, syringe: Syringe, here: Phase, rate: Option<Rate>) -> bool
        ensures { result ≡ is_sound_work syringe here rate self }
    {
        match self {
            Work::Entering => true,
            Work::Visiting(visit) => is_sound_visit(visit, syringe, here, rate),
            Work::Pausing(left) => (1 <= left) & (left <= here.function.pause_ticks()),
            Work::Waiting => here.function.is_wait(),
        }
    }
}

// A trap jumps to a phase.
fn is_sound_trap(trap: Option<u8>, phases: u8) -> bool
    ensures { result ≡ is_sound_trap phases trap }
{
    trap.is_none_or(|n| (1 <= n) & (n <= phases))
}

// Whether a visit to this phase, at this rate, may be under way.
fn is_sound_visit(visit: Visit, syringe: Syringe, here: Phase, rate: Option<Rate>) -> bool
    ensures { result ≡ is_sound_visit syringe here rate visit }
{
    let threshold = syringe.step_threshold();
    let target = syringe.step_target(here.volume);
    (visit.store < threshold)
        & (visit.target == target)
        & ((visit.given < visit.target) | (here.volume == 0) & (visit.given == 0))
        & Rate::is_usable(rate, syringe)
        & here.function.is_rate_phase()
}
