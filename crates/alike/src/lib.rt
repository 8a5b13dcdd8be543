// Merging must not matter (02, 11/13): definitions in specs/, theorems in proofs/, of models; of the calls in the crate calls_alike.
#![tactic(auto)]
