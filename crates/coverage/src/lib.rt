// No code: what the bench program does with an input is a history of calls, and what it prints is read off the events of that history, so
// that the theorems on every history speak of the one program that people run.
#![tactic(auto)]
