#![tactic(auto)]

// Bays apart: what the second profile promises each bay, on configurations. The definitions stand in specs/, what is proved of them in proofs/.
