// The examples of 02, 8/13: definitions in specs/, computed in proofs/.
#![tactic(auto)]
