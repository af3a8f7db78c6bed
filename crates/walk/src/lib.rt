// No code: what crates above share to say that a contract allows one result only. `proofs/Exact.antt` has the lemma by which two results that a contract allows are equal.
#![tactic(auto)]
