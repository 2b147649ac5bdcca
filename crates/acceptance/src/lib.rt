// What an accepted file is: theorems only.
#![tactic(auto)]
