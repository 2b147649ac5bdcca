// Demand 3 of each sheet and of each file that a checker accepts: definitions and theorems. There is nothing to run here.
#![tactic(auto)]
