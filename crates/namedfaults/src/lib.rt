// A text of the second form by its faults (paper 02, request 7): definitions and theorems, no code.
#![tactic(auto)]
