// The second form of a model's text: which texts are read, and that the two conversions undo each other. Definitions in specs/, theorems in proofs/.
#![tactic(auto)]
