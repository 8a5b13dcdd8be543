// Systems that may be settled after a path or in a simulation: what either test refuses, in order; definitions in specs/, theorems in proofs/.
#![tactic(auto)]
