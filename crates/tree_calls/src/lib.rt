// What the calls answer on a table that `read_tree` filled (02, 9/13): definitions in specs/, theorems in proofs/.
#![tactic(auto)]
