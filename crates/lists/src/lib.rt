// Definitions on lists that the contracts share, and their laws. There is nothing to run here.
#![tactic(auto)]
