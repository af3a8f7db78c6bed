// P1 to P13 of document 01 as one table: definitions and a theorem, no code.
#![tactic(auto)]
