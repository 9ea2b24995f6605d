// Demands 1 to 3 over any family of records. There is no code here: see specs/Family.antt and proofs/Demands.antt.
#![tactic(auto)]
