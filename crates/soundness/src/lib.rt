// Sound states stay sound, refused calls change nothing, and the first of the best level runs: the statements stand in specs/.
// No code stands here: the proofs in proofs/ rest on the definitions of model, the laws of laws and what a call does by ways.

#![tactic(auto)]
