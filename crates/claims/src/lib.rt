// No code: demand 3 and what follows from it, of images.
#![tactic(auto)]
