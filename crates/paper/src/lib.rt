// The paper's sheets to try, P1 to P12, as one table with one theorem (specs/Cases.antt, proofs/Cases.antt). No code.
#![tactic(auto)]
