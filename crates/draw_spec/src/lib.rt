#![tactic(auto)]

// What a test load draws and prints. The definitions stand in specs/.
