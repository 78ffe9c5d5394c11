#![tactic(auto)]

// Document 01's bay cases. The proved ones are rows of one table in specs/.
