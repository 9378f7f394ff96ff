// The pump's answers as bytes (document 01, Line and answer, second half; the queries of Commands), in a buffer that the caller
// lends. It does not know who asked, nor in which state.
//
//   letters   the letters of the statuses, the alarms, the units and the directions
//   writing   the bytes behind the address: numbers, units, names, and what each answer is made of
//   frame     the whole answer: the address and the bytes behind it, between STX and ETX, or in a packet (document 02, 2/12)
#![tactic(auto)]

mod frame;
mod letters;
mod writing;

pub use frame::{Frame, ROOM, write};
