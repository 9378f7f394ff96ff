// What a rate phase dispenses (document 01, Ticks and phases, RAT, INC and DEC; Volumes): the current rate, a visit with its time store
// and step target, and the ledger of what was given. The crate knows neither the program under way nor the pins.
//
//   rates     the current rate: INC and DEC
//   visits    a visit: due steps, target, time store
//   ledgers   a figure for each direction; the totals and their booking
#![tactic(auto)]

mod ledgers;
mod rates;
mod visits;

pub use ledgers::{Ledger, MOST_TOTAL, Pair};
pub use rates::Rate;
pub use visits::{Visit, Worked, due_in};
