#![tactic(auto)]

// The three demands on check, load and step. The statements stand in specs/Demands.antt, their proofs under proofs/Theory.
