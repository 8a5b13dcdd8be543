// Merging must not matter (02, 11/13), of the calls merge, confluent, settle and settle_list: definitions in specs/, theorems in proofs/.
#![tactic(auto)]
