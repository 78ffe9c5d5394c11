#![tactic(auto)]

// What document 02 says of starting nums. There is no code; the statement stands in specs/, its proof in proofs/.
