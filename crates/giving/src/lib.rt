// No code: what a cover gives, and that an accepted one gives what its netlist gives. See specs/ and proofs/.
#![tactic(auto)]
