// No code: the bench table, and its proof.
#![tactic(auto)]
