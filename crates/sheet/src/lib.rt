// The sheet of small tables: its examples are in specs/Sheet.antt, and their one proof in proofs/Sheet.antt.
#![tactic(auto)]
