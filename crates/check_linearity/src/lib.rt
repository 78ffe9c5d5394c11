#![tactic(auto)]

// Cause 10 in one pass over a term: definitions stand in specs/, theorems in proofs/.
