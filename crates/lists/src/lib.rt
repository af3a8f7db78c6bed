// No code: what lists of numbers share. `specs/Lists.antt` has which numbers stand in a list, those that pass a test, and lists that ascend; the laws are in `proofs/`.
#![tactic(auto)]
