// A list with the word `forever` and the same list with the digits: the same calls and the same answer. The statements stand in specs/.
// No code stands here: the proofs in proofs/ rest on the definitions of lines, walk and runner, and on the laws of text and walk.

#![tactic(auto)]
