// The second form of a model's text, with names for actions (paper 02, request 7): definitions in specs/, theorems in proofs/.
#![tactic(auto)]
