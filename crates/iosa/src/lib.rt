// The automata of document 000, chapter 4, and the engine's answers as values that compute: definitions in specs/, theorems in proofs/.
#![tactic(auto)]
