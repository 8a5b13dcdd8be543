// A path of listed steps from the start of a system: definitions in specs/, theorems in proofs/.
#![tactic(auto)]
