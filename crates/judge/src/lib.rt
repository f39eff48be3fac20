// Demand 3 is in specs/ and proofs/: the judge has no code of its own.
#![tactic(auto)]
