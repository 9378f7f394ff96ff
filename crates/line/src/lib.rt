// A line from the host (document 01, Line and answer, first half; Commands): how its characters are collected, whose address it
// bears, and which command it asks for, malformed among them. Whether that command applies now and whether its data are in
// range is judged above, where the pump's state is known.
//
//   arriving    what one byte does: ends the line, is dropped, or is kept, raised to upper case
//   lines       the line struct: 40 characters, how many are kept, and the over-long mark
//   addresses   up to two leading digits
//   spelling    the letters of a text
//   names       the name that leads a text, and the argument behind it
//   arguments   what stands behind RAT, DIR, CLD and the like
//   functions   what stands behind FUN: a function's name and its datum
//   commands    the command that a text asks for
//   requests    what a text asks for with its address: SAF of the link that it came by (document 02, 2/12), all else of the pump
#![tactic(auto)]

mod addresses;
mod arguments;
mod arriving;
mod commands;
mod functions;
mod lines;
mod names;
mod requests;
mod spelling;

pub use addresses::{address_of, unaddressed};
pub use arriving::{Arrival, arrival_of};
pub use commands::command_of;
pub use lines::{Arrived, Line};
pub use names::{Name, argument_of, name_of};
pub use requests::asked_of;
