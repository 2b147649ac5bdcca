// What makes a file pass the last tests of a check: theorems only.
#![tactic(auto)]
