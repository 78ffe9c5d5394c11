#![tactic(auto)]

// What the outcomes of rules 1, 8 and 9 weigh. The definitions stand in specs/.
