// Definitions and laws: an old line by default names is the line itself with one byte put in.
#![tactic(auto)]
