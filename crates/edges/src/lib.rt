// The values at the edges that document 01 marks to be proved. There is no code here: see specs/Edges.antt and proofs/Claim.antt.
#![tactic(auto)]
