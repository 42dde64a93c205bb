// No code: what demand 3 says, and its proof of the machine.
#![tactic(auto)]
