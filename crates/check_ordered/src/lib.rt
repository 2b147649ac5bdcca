// A file's numbers in the sheet's own order: what a comparison promises, and that a file found the same passes tests 17 to 19, stand in
// specs and proofs.
#![tactic(auto)]
