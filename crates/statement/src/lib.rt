// No code: when a state is sound, what each call hands back, and that from power-up on every state is sound, said as facts on every history
// of calls and proved of the definitions that the calls' contracts name. Facts and Outcomes (specs/) can be read without the code.
#![tactic(auto)]
