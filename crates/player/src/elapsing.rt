// Time that passes: so many ticks, by calls of at most a million.
ghost use Rattle.std.specs.Prelude.{◌≡◌, ◌-◌, ◌≤◌, if◌then◌else◌};
ghost use Rattle.player.specs.Elapsing.{Roomy, Further, portion, call_for, begun, elapsed};

use pump::{Pump, Report};

// The most ticks of one call.
const MILLION: u32 = 1_000_000;

// The pump after some calls of many ticks, the ticks that are left, the sums of what the calls gave, the level of the output, whether one
// of them was refused, and whether one sent a packet.
#[derive(Clone, Copy)]
pub struct Elapsed {
    pub pump: Pump,
    pub left: u32,
    pub infused: u64,
    pub withdrawn: u64,
    pub beeps: u64,
    pub output: bool,
    pub refused: bool,
    pub sent: bool,
}

// A call, and as many more as leave none of the ticks: in Safe mode one may end before it has done what it was asked for. Where there are
// no ticks it has none, and tells the level.
pub fn elapse(pump: Pump, n: u32) -> Elapsed
    ensures { result ≡ elapsed n pump }
{
    let mut elapsed = Elapsed::new(pump, n).onward();
    // no index loop: a step is what a call leaves of the ticks
    while 0 < elapsed.left {
        elapsed = elapsed.onward();
    }
    elapsed
}

// How many ticks the next call is asked for.
pub fn portion(left: u32) -> u32
    ensures { result ≡ portion left }
{
    left.min(MILLION)
}

// What a call leaves of the ticks. A refused one is the last: the next would be refused too.
fn left_after(left: u32, refused: bool, ticks: u32) -> u32
    requires { ticks ≤ left }
    ensures { result ≡ (if refused then 0 else left - ticks) }
{
    if refused {
        return 0;
    }
    left - ticks
}

impl Elapsed {
    fn new(pump: Pump, n: u32) -> Elapsed
        ensures { result ≡ begun n pump }
    {
        let output = pump.device.core.output;
        Elapsed {
            pump,
            left: n,
            infused: 0,
            withdrawn: 0,
            beeps: 0,
            output,
            refused: false,
            sent: false,
        }
    }

    // One call more. What it sends is not kept.
    fn onward(self) -> Elapsed
        requires { Roomy self }
        ensures { Further self (call_for self.pump self.left) result }
    {
        let mut buffer = [0u8; 24];
        let report = self.pump.ticks(portion(self.left), &mut buffer);
        self.further(report)
    }

    // With what a call reports.
    fn further(self, report: Report) -> Elapsed
        requires { Roomy self × (report.ticks ≤ self.left) }
        ensures { Further self report result }
    {
        let refused = report.refusal.is_some();
        let left = left_after(self.left, refused, report.ticks);
        Elapsed {
            pump: report.pump,
            left,
            infused: self.infused + report.infused as u64,
            withdrawn: self.withdrawn + report.withdrawn as u64,
            beeps: self.beeps + report.beeps as u64,
            output: report.output,
            refused: self.refused | refused,
            sent: self.sent | (0 < report.length),
        }
    }
}
