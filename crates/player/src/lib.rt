// Plays the bytes of a script to a pump and writes down what is printed (document 01, Marked figures, last part). What a byte of the
// script asks for is told by the crate `script`; here it is done. It knows the pump by its calls alone, and nothing of the rules behind
// them; nor does it read or write anything: it is handed a part of the input and a buffer, and of the input it keeps no more than where
// in a line it stands. The program `bench` is this between standard input and standard output.
//
//   elapsing   time that passes, by calls of many ticks
//   rigs       the pump under test: what each act does to it and prints
//   joining    what an act prints, as a value
//   printing   lines, counts, the complaint
//   feeding    the bytes of the input, one after the other, and its end
#![tactic(auto)]

mod elapsing;
mod feeding;
mod joining;
mod printing;
mod rigs;

pub use elapsing::{Elapsed, elapse, portion};
pub use feeding::{Bench, Fed};
pub use joining::Lines;
pub use printing::{Label, complaint, labelled};
pub use rigs::{Acted, Rig};
