// The vocabulary of the command set (document 01, Line and answer; Commands; Ticks and phases): what can be asked, done and answered.
// Words only: nothing here reads them off a line, prints them or obeys them.
//
//   functions   the fifteen functions, each with its number and its datum, and every question about one
//   phases      the phase record: sound, at power-up
//   commands    the commands with their data, and what a text asks for: of the pump, or of the link that it came by
//   answers     the statuses, the alarms, the replies, why a command is declined, and what is said
#![tactic(auto)]

mod answers;
mod commands;
mod functions;
mod phases;

pub use answers::{Alarm, Declined, Reply, Said, Status};
pub use commands::{Asked, Command, Request};
pub use functions::Function;
pub use phases::Phase;
