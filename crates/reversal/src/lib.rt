// No code: a reversed setup meets each reversible box once, in the reverse order (02, ask 13).
#![tactic(auto)]
