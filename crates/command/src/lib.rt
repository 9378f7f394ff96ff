// The commands (document 01, Commands): what each one answers, changes and asks for. A query returns a reply; of a setting it is judged
// whether it applies and whether its data are in range, and only one that is accepted changes anything. The crate knows the phase in hand
// and no other, and no byte: what concerns the table of phases is handed back as an edit, for the holder of the phases to write.
//
//   queries    what a query answers
//   judging    whether a setting is accepted: DIA, RAT, VOL, DIR, PHN, FUN, CLD
//   phases     the phase in hand with one thing set
//   obeying    one command
#![tactic(auto)]

mod judging;
mod obeying;
mod phases;
mod queries;

pub use obeying::{Edit, InHand, Obeyed, obey};
