// Demand 3: rules and netlist agree (specs/Demand.antt, specs/Rounds.antt, specs/Words.antt; proofs/Theorem.antt). No code.
#![tactic(auto)]
