// What ticks do to the device beside the work of the phases (document 02, 2/12): the link's timer and quiet ticks, alarm T, and the alarm
// that Safe mode sends.
ghost use Rattle.std.specs.Prelude.{◌≡◌, true, ◌<◌};
ghost use Rattle.link.specs.Link.{is_sound_link};
ghost use Rattle.pump.specs.Elapsing.{reach, is_alarmed, is_watched, is_due, time_out, after_ticks, alarm_said, sent_in};

use crate::device::Device;
use program::Core;
use words::{Alarm, Said};

impl Device {
    // How many of n ticks there are up to the one of the time limit, that one included: all where none is due in them.
    pub fn reach(self, n: u32) -> u32
        ensures { result ≡ reach n self.link }
    {
        let left = self.link.left();
        if (0 < left) & (left < n) {
            return left;
        }
        n
    }

    // Whether an alarm that the program raises would be sent: in Safe mode, where none is pending.
    pub fn is_watched(self) -> bool
        ensures { result ≡ is_watched self }
    {
        self.link.is_safe() & !is_alarmed(self.core)
    }

    // The device after so many ticks, with the core as the phases' rules leave it. The link is written in Safe mode alone, in its place: else
    // its bytes would be copied at every tick.
    pub fn after_ticks(mut self, n: u32, core: Core) -> Device
        requires { 0 < n → is_sound_link self.link ≡ true }
        ensures { result ≡ after_ticks n self core }
    {
        self.core = core;
        if (0 < n) & self.link.is_safe() {
            if self.is_due(n) {
                self.core = time_out(core);
            }
            self.link = self.link.ticked(n);
        }
        self
    }

    // What these ticks send.
    pub fn sent_in(self, n: u32, core: Core) -> Said
        ensures { result ≡ sent_in n self core }
    {
        if !self.link.is_safe() {
            return Said::Nothing;
        }
        if self.is_due(n) {
            return Said::Alarm(Alarm::TimeOut);
        }
        if is_alarmed(self.core) {
            return Said::Nothing;
        }
        alarm_said(core.run.pending())
    }

    // Whether the last of n ticks is that of the time limit.
    fn is_due(self, n: u32) -> bool
        ensures { result ≡ is_due n self.link }
    {
        (0 < n) & (n == self.link.left())
    }
}

// Alarm T stops the pump and takes the place of one that is pending.
fn time_out(core: Core) -> Core
    ensures { result ≡ time_out core }
{
    core.with_run(core.run.raise(Alarm::TimeOut))
}

// Whether an alarm is pending.
pub fn is_alarmed(core: Core) -> bool
    ensures { result ≡ is_alarmed core }
{
    core.run.pending().is_some()
}

fn alarm_said(pending: Option<Alarm>) -> Said
    ensures { result ≡ alarm_said pending }
{
    pending.map_or(Said::Nothing, Said::Alarm)
}
