// What is promised, on one page: proofs/Promises.antt. There is nothing to run here.
#![tactic(auto)]
