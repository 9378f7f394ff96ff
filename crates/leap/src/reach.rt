// How many ticks of a visit to try at once: all up to the one that ends it. The number is a guess that is then tested, so that nothing but
// speed rests on it.
ghost use Rattle.std.specs.Prelude.{◌≤◌, ◌<◌};
ghost use Rattle.leap.specs.Leaps.{most_ticks};
ghost use Rattle.tick.specs.Working.{AtRate};

use crate::pace::Pace;
use dispense::Visit;
use drive::Direction;
use program::Core;

// A total up to here is passed by no leap: its steps are at most 4,000,000 of the largest volume, less than 2 * 10^15 fl.
const FAR_TOTAL: u64 = 998_000_000_000_000_000;

// More steps than a leap gives.
const NO_END: u64 = 5_000_000;

pub fn reach(core: Core, direction: Direction, visit: Visit, n: u32) -> u32
    requires { AtRate core.run core.ledger core.syringe direction visit × (n ≤ most_ticks) }
    ensures { result ≤ n }
{
    let Some(rate) = core.run.rate else {
        return 0;
    };
    let pace = Pace {
        store: visit.store,
        hourly: drive::hourly_rate(rate.thousandths, rate.unit),
        threshold: core.syringe.step_threshold(),
    };
    pace.ticks_short_of(steps_ahead(core, direction, visit), n)
}

// How many steps more end the visit, by its target or by the total's limit.
fn steps_ahead(core: Core, direction: Direction, visit: Visit) -> u64 {
    let left = steps_left(visit);
    let total = core.ledger.total_of(direction);
    if total <= FAR_TOTAL {
        return left;
    }
    let volume = core.syringe.step_volume();
    if volume == 0 {
        return left;
    }
    if dispense::MOST_TOTAL < total {
        return 0;
    }
    let room = (dispense::MOST_TOTAL - total) / volume;
    left.min(room + 1)
}

fn steps_left(visit: Visit) -> u64 {
    if visit.target <= visit.given {
        return NO_END;
    }
    visit.target - visit.given
}

impl Pace {
    // How many of n ticks give fewer than `end` steps. All do where four steps a tick are fewer; else those that leave less than `end`
    // thresholds in the store: one division, where so many thresholds fit in 64 bits.
    fn ticks_short_of(self, end: u64, n: u32) -> u32
        requires { n ≤ most_ticks }
        ensures { result ≤ n }
    {
        if end > 4 * n as u64 {
            return n;
        }
        if end == 0 {
            return 0;
        }
        if self.hourly == 0 {
            return n;
        }
        if end <= 10_000 {
            return least(n, (end * self.threshold - 1 - self.store) / self.hourly);
        }
        least(n, self.far_ticks(end - 1))
    }

    // The ticks that leave less than `steps` + 1 thresholds, (steps * threshold + threshold - 1 - store) / hourly, where that product does
    // not fit: a threshold is taken apart by the rate, and so is the rest of 4,000 thresholds. No sum is above 8,001 thresholds. Where a
    // step takes over 1,000 ticks, 10,000 steps take more than a leap has.
    fn far_ticks(self, steps: u64) -> u64
        requires { (0 < self.hourly) × (steps ≤ 4_000_000) }
    {
        let hourly = self.hourly;
        let each = self.threshold / hourly;
        if 1000 < each {
            return 1_000_000;
        }
        let rest = self.threshold % hourly;
        let many = 4000 * rest;
        let lots = steps / 4000;
        let ones = steps % 4000;
        let sum = lots * (many % hourly) + ones * rest + (self.threshold - 1 - self.store);
        steps * each + lots * (many / hourly) + sum / hourly
    }
}

// `min` was measured to be slower here.
fn least(n: u32, k: u64) -> u32
    ensures { result ≤ n }
{
    if k < n as u64 {
        return k as u32;
    }
    n
}
