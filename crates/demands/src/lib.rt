// What all calls together keep: the statements are in specs/, and their proofs in proofs/.
#![tactic(auto)]
