#![tactic(auto)]

// What document 02 says of separate bays. The sentences stand in specs/, their proof in proofs/.
