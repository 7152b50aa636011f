// Theorems on data queues: what comes out of a queue is what was accepted, in that order, each element once.
// No function stands here: specs/ has the statements, proofs/ the proofs over the definitions of model.

#![tactic(auto)]
