// Mathematics that the proofs of several crates cite. No code of its own.
#![tactic(auto)]
