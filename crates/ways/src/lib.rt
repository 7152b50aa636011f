// What an accepted call does, and what a refused one answers: one law, proved in one pass over the services, which the theorems take apart.
// No code stands here: what a call is to the theorems is in specs/, the law in proofs/, over the definitions of model and the laws of laws.

#![tactic(auto)]
