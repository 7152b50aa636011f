// That each promise leaves one result and one content of every buffer; what that means stands in specs/, the table of all public functions in proofs/.
// No code stands here: the theorems rest on the contracts of the crates named there, as their generated modules state them.

#![tactic(auto)]
