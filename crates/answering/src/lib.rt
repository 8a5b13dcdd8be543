// What each call answers on a model, as a relation; what is printed; the examples of the papers: definitions in specs/, theorems in proofs/.
#![tactic(auto)]
