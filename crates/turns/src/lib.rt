// Turns come round: a waiter is served by its turn in the queue, a runnable task is first by its turn in the level; and every resource is accounted for.
// No code stands here: the statements are in specs/, the proofs in proofs/, over the definitions of model, the laws of laws, what a call does by ways, and what soundness and tested show.

#![tactic(auto)]
