// What holds of every subdivision call: the statements are in specs/, the proofs in proofs/.

#![tactic(auto)]
