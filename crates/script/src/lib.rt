// The script that the bench program reads (document 01, Marked figures, last part): what each byte of a line means, and what a line
// asks for. It knows no pump: what is asked for is a value, an `Act`, and whoever has a pump does it. Of the input no more is kept
// than where in a line it stands.
//
//   places     where in a line the input stands, and what can be asked for there
//   numbers    the numbers of an item, as their digits come
//   bytes      a byte at each place
//   reading    one byte more of a line
#![tactic(auto)]

mod bytes;
mod numbers;
mod places;
mod reading;

pub use numbers::grown;
pub use places::{Act, Spot, Step};
