// No code: the marked figures, a to l, as one list of rows, and that each holds.
#![tactic(auto)]
