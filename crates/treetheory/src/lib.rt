// What is true of the model of every tree (02, 9/13; 000, chapter 5): definitions in specs/, theorems in proofs/.
#![tactic(auto)]
