// The members of a set one after the other, from the lowest on: what a loop over them knows. Laws in proofs/.
#![tactic(auto)]
