// The timed step as a value that computes (paper 01, "The timed step"): definitions in specs/, theorems in proofs/.
#![tactic(auto)]
