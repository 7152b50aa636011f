// How many calls a file can hold and how long its answer can be: the statements stand in specs/.
// No code stands here: the proofs in proofs/ rest on the definitions of runner, and on the laws of lines, text, soundness and tested.

#![tactic(auto)]
