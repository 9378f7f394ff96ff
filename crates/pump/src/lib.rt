// The pump (document 01, Calls; Line and answer): the device, which is all of the state but its phases; the holder of 41 phases; and the
// calls: a fresh state, a byte, a pin level, a tick, and many ticks at a time (document 02, 1/12); lines or, in Safe mode (2/12), packets.
// No call asks anything of its caller: whatever is handed in has its outcome, and what a call refuses comes back as it was. The holder
// looks phases up, calls the device with them, and stores what comes back.
//
//   device    the core, the line and the link; what a whole text and an edge do to them
//   arriving  what a byte makes of the line, or of the packet under way
//   elapsing  what ticks do beside the work of the phases: the time limit, and the alarm that is sent
//   holder    the phases: the state, its constants, the phase of a number, and the edit that a command asks for
//   checks    when the whole is sound
//   reports   what every call hands back, and the refusals
//   calls     the byte, the pin and the tick
//   many      many ticks at a time
#![tactic(auto)]

mod arriving;
mod calls;
mod checks;
mod device;
mod elapsing;
mod holder;
mod many;
mod reports;

pub use arriving::{Arrival, Brought};
pub use device::{Device, Heard, Told};
pub use holder::Pump;
pub use many::Going;
pub use reports::{Refusal, Report};
