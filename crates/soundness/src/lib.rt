// No code: the theorem that a tick, an edge and a command keep a sound core sound, for any number of phases.
#![tactic(auto)]
