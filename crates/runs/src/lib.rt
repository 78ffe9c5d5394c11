#![tactic(auto)]

// Runs: what holds of every recipe that is accepted, its load, and any list of steps. The claim stands in specs/, its proof in proofs/.
