// When did it become ready: what `ready_ticks` answers is the number of ticks since the task last entered its level.
// No code stands here: the statements are in specs/, the proofs in proofs/, over the definitions of model, the ways of a call, and what soundness and turns show.

#![tactic(auto)]
