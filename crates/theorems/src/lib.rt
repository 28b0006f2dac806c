// What is claimed of the crates below, proved. No code of its own.
#![tactic(auto)]
