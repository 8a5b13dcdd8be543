// Definitions and laws that every crate shares are in specs/ and proofs/.
#![tactic(auto)]
