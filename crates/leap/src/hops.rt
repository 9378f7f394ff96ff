// Ticks that only move the program on: a jump, or a timed pause as a whole, from its entry to its end.
ghost use Rattle.std.specs.Prelude.{◌≡◌, ◌≤◌};
ghost use Rattle.leap.specs.Leaps.{Hop};

use program::Run;
use words::Function;

// So many ticks, none of which gives a step or beeps, and the program after them.
#[derive(Clone, Copy)]
pub struct Hopped {
    pub run: Run,
    pub ticks: u32,
}

// As many of n ticks as only move the program on from a phase of that function; often none. A pause is taken whole or not at all: the tick
// that enters it and all of its own. PAS 0 waits for a trigger, and has no end to go to. PAS in tenths is left to ticks and leaps:
// of the shapes that were measured this one is fast.
pub fn hop(run: Run, function: Function, n: u32) -> Hopped
    requires { (run.place.current ≤ 100) × (1 ≤ n) }
    ensures { Hop run function n result }
{
    if run.place.work.is_entering() & run.is_operating() {
        if let Function::Jmp(k) = function {
            return Hopped {
                run: run.go_to(k),
                ticks: 1,
            };
        }
        if let Function::Pas(_) = function {
            let ticks = function.pause_ticks();
            if (0 < ticks) & (ticks < n) {
                return Hopped {
                    run: run.with_rate(None).go_on(),
                    ticks: ticks + 1,
                };
            }
        }
    }
    Hopped { run, ticks: 0 }
}
