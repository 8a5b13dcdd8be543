// A model, its text and the reading of texts (paper 01, "The model text"): definitions in specs/, theorems in proofs/.
#![tactic(auto)]
