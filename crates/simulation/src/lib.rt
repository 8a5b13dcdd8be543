// The simulation of paper 02, request 4, as values that compute, and what is proved of every one: definitions in specs/, theorems in proofs/.
#![tactic(auto)]
