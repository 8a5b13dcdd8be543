// Two neighbours merged into one component (paper 01, "Composition"): definitions in specs/, theorems in proofs/.
#![tactic(auto)]
