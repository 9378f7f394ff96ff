// Many ticks of a timed pause at once: all but its last, which goes on to the next phase.
ghost use Rattle.std.specs.Prelude.{◌≡◌, ◌≤◌, ◌-◌, min};
ghost use Rattle.leap.specs.Pauses.{leap_pause};

use program::{Run, Work};

// How many of n ticks come before the last of a pause.
pub fn before_last(left: u32, n: u32) -> u32
    ensures { result ≡ min n (left - 1) }
{
    left.saturating_sub(1).min(n)
}

// So many ticks of a pause.
pub fn leap_pause(run: Run, left: u32, ticks: u32) -> Run
    requires { ticks ≤ left }
    ensures { result ≡ leap_pause run left ticks }
{
    run.doing(Work::Pausing(left - ticks))
}
