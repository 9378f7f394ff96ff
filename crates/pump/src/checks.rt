// Whether a state is sound.
ghost use Rattle.std.specs.Prelude.{◌≡◌};
ghost use Rattle.pump.specs.Holder.{is_sound_phases, is_sound_pump, model_phases};

use crate::device::Device;
use crate::holder::{Pump, phase_of};
use words::Phase;

impl Pump {
    // Document 01's sentence on a sound state, whole.
    pub fn is_sound(self) -> bool
        ensures { result ≡ is_sound_pump self }
    {
        let phases = self.phases;
        is_fit(&phases, self.device)
    }
}

// The same of a pump in its parts. The phases are lent, and lie in a copy of their own: a pump that is lent or handed on is copied whole.
#[inline(always)]
pub fn is_fit(phases: &[Phase; 41], device: Device) -> bool
    ensures { result ≡ is_sound_pump (record { phases = phases.now; device = device }) }
{
    let here = phase_of(phases, device.core.run.place.current);
    device.is_sound(here, Pump::PHASES) & all_sound(phases)
}

// From the last phase down: what is left is then held against 0, which costs nothing.
#[inline(always)]
fn all_sound(phases: &[Phase; 41]) -> bool
    ensures { result ≡ is_sound_phases model_phases phases.now }
{
    phases.iter().rev().all(|p| p.is_sound(Pump::PHASES))
}
