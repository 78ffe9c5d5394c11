#![tactic(auto)]

// Images: configurations and the owners of their names in bytes. The definitions stand in specs/, the theorems in proofs/.
