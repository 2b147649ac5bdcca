// Sheet files: what a writer and a reader of them ask and promise, and that files lose nothing, stand in specs and proofs.
#![tactic(auto)]
