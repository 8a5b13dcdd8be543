// Why a system is not confluent (02, 5/13): definitions and theorems, no code.
#![tactic(auto)]
