// Definitions and laws: names as the code keeps them, and how a line of the second form is judged by it.
#![tactic(auto)]
