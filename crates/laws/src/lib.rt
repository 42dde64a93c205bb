// No code: laws of plain numbers, tests and lists that the proofs of several crates cite.
#![tactic(auto)]
