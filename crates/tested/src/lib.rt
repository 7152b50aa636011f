// That the test of soundness and the statement of soundness, both of model, say the same; the theorems stand in proofs/.
// No code stands here: they rest on the definitions of model and on the laws of laws.

#![tactic(auto)]
