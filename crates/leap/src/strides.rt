// Many working ticks at one rate, reckoned at once: the steps that fall due in them, and the time store after them.
ghost use Rattle.std.specs.Prelude.{◌≡◌, ◌/◌, ◌%◌, ◌≤◌, ◌<◌};
ghost use Rattle.drive.specs.Syringe.{most_threshold};
ghost use Rattle.leap.specs.Leaps.{most_ticks};
ghost use Rattle.leap.specs.Strides.{stride_over};

use crate::pace::Pace;

// The steps due in some ticks, and the time store after them.
#[derive(Clone, Copy)]
pub struct Stride {
    pub steps: u64,
    pub store: u64,
}

impl Pace {
    // So many ticks at once; `end` is a guess of the steps that they stay short of. At one go where the sum fits in 64 bits: 2,000 ticks
    // add at most 8,000 thresholds, and a million of 18 ml an hour 1.8 * 10^19 fl.
    pub fn stride(self, ticks: u32, end: u64) -> Stride
        requires { ticks ≤ most_ticks }
        ensures { result ≡ stride_over self.store self.hourly self.threshold ticks }
    {
        if (ticks <= 2000) | (self.hourly <= 18_000_000_000_000) {
            return stride_in(self.store + ticks as u64 * self.hourly, self.threshold, end);
        }
        self.long_stride(ticks)
    }

    // The same by thousands: the rate is taken apart by the threshold, and so is the rest of a thousand ticks. No sum is above 1,001
    // thresholds.
    fn long_stride(self, ticks: u32) -> Stride
        requires { ticks ≤ most_ticks }
        ensures { result ≡ stride_over self.store self.hourly self.threshold ticks }
    {
        let threshold = self.threshold;
        let n = ticks as u64;
        let thousands = n / 1000;
        let ones = n % 1000;
        let each = self.hourly / threshold;
        let rest = self.hourly % threshold;
        let many = 1000 * rest;
        let each_thousand = many / threshold;
        let rest_thousand = many % threshold;
        let first = self.store + thousands * rest_thousand;
        let second = first % threshold + ones * rest;
        Stride {
            steps: n * each + thousands * each_thousand + first / threshold + second / threshold,
            store: second % threshold,
        }
    }
}

// A sum taken apart by the threshold. A leap up to the end of a visit stays short of it by at most four thresholds, those of its last
// tick: up to there they are sure, and the rest is counted, which was measured to be faster than a division. 10,000 thresholds fit in
// 64 bits.
fn stride_in(sum: u64, threshold: u64, end: u64) -> Stride
    requires { (0 < threshold) × (threshold ≤ most_threshold) }
    ensures { result ≡ record { steps = sum / threshold; store = sum % threshold } }
{
    let sure = if (4 < end) & (end <= 10_000) {
        end - 4
    } else {
        0
    };
    let taken = sure * threshold;
    if taken <= sum {
        let rest = sum - taken;
        if rest < 5 * threshold {
            let due = dispense::due_in(rest, threshold);
            return Stride {
                steps: sure + due,
                store: rest - due * threshold,
            };
        }
    }
    Stride {
        steps: sum / threshold,
        store: sum % threshold,
    }
}
