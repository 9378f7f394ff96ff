// The phases: the pump's state, its constants, the phase of a number, and the edit that a command asks for.
ghost use Rattle.std.specs.Prelude.{◌≡◌};
ghost use Rattle.pump.specs.Holder.{model_phases, phase_count, fresh_pump, fresh_phases, phase_at};
ghost use Rattle.pump.specs.Holder.{with_phase, with_phases, with_device, edited};

use crate::device::Device;
use command::Edit;
use words::Phase;

#[derive(Clone, Copy)]
pub struct Pump {
    pub phases: [Phase; 41],
    pub device: Device,
}

impl Pump {
    pub const PHASES: u8 = 41;

    pub const LEAST_DIAMETER: u16 = drive::LEAST_DIAMETER;

    pub const MOST_DIAMETER: u16 = drive::MOST_DIAMETER;

    pub const MOST_TOTAL: u64 = dispense::MOST_TOTAL;

    // A pump just switched on.
    pub fn new() -> Pump
        ensures { result ≡ fresh_pump model_phases }
    {
        let mut phases = [Phase::power_up(2); 41];
        let first = Phase::power_up(1);
        phases[0] = first;
        Pump {
            phases,
            device: Device::power_up(),
        }
    }

    pub fn phase_at(self, n: u8) -> Phase
        ensures { result ≡ phase_at self.phases n }
    {
        phase_of(&self.phases, n)
    }

    // Another phase of that number; past the last there is none to alter.
    pub fn with_phase(mut self, n: u8, phase: Phase) -> Pump
        ensures { result ≡ with_phase self n phase }
    {
        if 1 <= n && n <= Pump::PHASES {
            self.phases[n as usize - 1] = phase;
        }
        self
    }

    // The phases as a command asks for them; `n` is the number of the phase that it concerned.
    pub fn edited(self, n: u8, edit: Edit) -> Pump
        ensures { result ≡ edited self n edit }
    {
        match edit {
            Edit::Keep => self,
            Edit::Write(phase) => self.with_phase(n, phase),
            Edit::Renew => self.renew(),
        }
    }

    // All phases as at power-up, one after the other: a table that the compiler knew whole it would move field by field.
    fn renew(mut self) -> Pump
        ensures { result ≡ with_phases self (fresh_phases (phase_count self)) }
    {
        for n in 0..Pump::PHASES {
            self.phases[n as usize] = Phase::power_up(n + 1);
        }
        self
    }

    pub fn with_device(mut self, device: Device) -> Pump
        ensures { result ≡ with_device self device }
    {
        self.device = device;
        self
    }
}

// The phase of a number; at 0 and past the last, one that stops.
#[inline(always)]
pub fn phase_of(phases: &[Phase; 41], n: u8) -> Phase
    ensures { result ≡ phase_at phases.now n }
{
    if 1 <= n && n <= Pump::PHASES {
        phases[n as usize - 1]
    } else {
        Phase::power_up(0)
    }
}
