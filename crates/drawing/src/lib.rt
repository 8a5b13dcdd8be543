// No code: definitions of a simulation over draws, and what is proved of it.
#![tactic(auto)]
