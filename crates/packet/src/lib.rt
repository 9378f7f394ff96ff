// Packets with a check, for long, noisy cables (document 02, 2/12): STX, length, data, two check bytes with the high one first, ETX; the
// length is the data count plus four, so 4 to 44. What is sent is written into a buffer that the caller lends; what comes is taken byte
// by byte. The crate knows neither what the data say nor to whom: whether packets are listened to at all, and what is answered, is judged
// above.
//
//   receiver   what has come of a packet, one byte more, and ticks with no byte
//   sender     a packet of some data
#![tactic(auto)]

mod receiver;
mod sender;

pub use receiver::{Arrived, Outcome, Part, Receiver, Stage};
pub use sender::send;

// What begins a packet, and an answer that is a line.
pub const STX: u8 = 2;

// What ends them.
pub const ETX: u8 = 3;
