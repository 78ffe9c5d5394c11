#![tactic(auto)]

// Drawn cases: rows that the model answered. They stand in specs/.
