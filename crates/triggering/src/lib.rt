// Systems of components that are not confluent alone (document 000, Definitions 4.9 to 4.13 and Theorem 4.5): definitions in specs/, theorems in proofs/.
#![tactic(auto)]
