#![tactic(auto)]

// What document 02 says of owners. The statements stand in specs/, their proofs in proofs/.
