// A rate visit under way and its working tick.
ghost use Rattle.std.specs.Prelude.{◌≡◌, ◌*◌, ◌/◌, ◌≤◌, ◌<◌};
ghost use Rattle.drive.specs.Syringe.{most_threshold};
ghost use Rattle.dispense.specs.Visits.{Working, work, is_done};

// Steps given, step target (0: a continuous visit, which has none and counts none), and the time store.
#[derive(Clone, Copy)]
pub struct Visit {
    pub given: u64,
    pub target: u64,
    pub store: u64,
}

// A visit after a working tick, and the steps that the tick gives.
#[derive(Clone, Copy)]
pub struct Worked {
    pub visit: Visit,
    pub steps: u64,
}

impl Visit {
    // A working tick: the hourly rate is added to the store, every threshold in it is a due step, and of these as many are given as
    // the target leaves.
    pub fn work(self, hourly: u64, threshold: u64) -> Worked
        requires { Working self hourly threshold }
        ensures { result ≡ work self hourly threshold }
    {
        let sum = self.store + hourly;
        let due = due_in(sum, threshold);
        let store = sum - due * threshold;
        let given = self.given;
        let target = self.target;
        if target == 0 {
            return Worked {
                visit: Visit {
                    given,
                    target,
                    store,
                },
                steps: due,
            };
        }
        let left = target - given;
        let steps = if due < left { due } else { left };
        Worked {
            visit: Visit {
                given: given + steps,
                target,
                store,
            },
            steps,
        }
    }

    // Whether the target is reached.
    pub fn is_done(self) -> bool
        ensures { result ≡ is_done self }
    {
        (0 < self.target) & (self.target <= self.given)
    }
}

// How many thresholds there are in a sum of less than five. They are counted, which was measured to be faster than a division.
pub fn due_in(sum: u64, threshold: u64) -> u64
    requires { (sum < 5 * threshold) × (threshold ≤ most_threshold) }
    ensures { result ≡ sum / threshold }
{
    let one = threshold <= sum;
    let two = 2 * threshold <= sum;
    let three = 3 * threshold <= sum;
    let four = 4 * threshold <= sum;
    one as u64 + two as u64 + three as u64 + four as u64
}
