// No code: the plan file as a whole. `planread` reads it, `planwrite` writes it, and the theorems here hold of both.
#![tactic(auto)]
