// No code: P5 to P8 of document 01 as far as they make setups, on the teaching plan.
#![tactic(auto)]
