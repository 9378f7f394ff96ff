// The core of the state: small structs, nested, so that a rule takes and returns the part that it may change.
use dispense::{Ledger, Rate, Visit};
use drive::Syringe;
use loops::Loops;
use words::Alarm;

// What the current phase is doing: it is entered where a visit, a timed pause (with its ticks left) or a trigger wait is under way.
#[derive(Clone, Copy)]
pub enum Work {
    Entering,
    Visiting(Visit),
    Pausing(u32),
    Waiting,
}

// Where the program stands. That the current phase is a small number is a clause (`place.current ≤ 100`): a pump takes any state that is
// handed in, and refuses one whose phase is not (01, Calls), so that the type has to hold it.
#[derive(Clone, Copy)]
pub struct Place {
    pub work: Work,
    pub current: u8,
}

// An alarm is pending only in a stopped pump.
#[derive(Clone, Copy)]
pub enum Mode {
    Stopped(Option<Alarm>),
    Paused,
    Running,
}

// The program under way: starting, stopping and alarms replace it whole. The fields stand in an order in which the compiler takes a run apart
// well: in others, a run of ticks was measured to take up to five times as long (docs/DECISIONS.md). `trap` holds the phase that a set trap
// jumps to.
#[derive(Clone, Copy)]
pub struct Run {
    pub mode: Mode,
    pub rate: Option<Rate>,
    pub trap: Option<u8>,
    pub place: Place,
    pub loops: Loops,
}

// The levels: true is high.
#[derive(Clone, Copy)]
pub struct Pins {
    pub two: bool,
    pub four: bool,
    pub six: bool,
}

// All that is neither a phase nor the line. `output` is the level that OUT sets, `chosen` the phase that PHN chose.
#[derive(Clone, Copy)]
pub struct Core {
    pub ledger: Ledger,
    pub run: Run,
    pub syringe: Syringe,
    pub pins: Pins,
    pub output: bool,
    pub chosen: u8,
}
