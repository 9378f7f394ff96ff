// How a visit goes on: what is in its time store, what a tick adds to it, and what a step takes out.
ghost use Rattle.leap.specs.Strides.{Steady};

// In the store no step is due, the rate is usable, and the threshold is one of the drive's syringes.
#[derive(Clone, Copy, PartialEq, Eq, Debug)]
pub struct Pace {
    pub store: u64,
    pub hourly: u64,
    pub threshold: u64,
    ghost steady: { Steady store hourly threshold },
}
