// No code: the plan file as bytes, in specs/, and the laws of its numbers, in proofs/.
#![tactic(auto)]
