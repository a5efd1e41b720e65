// Meshes on which the laws are tried are in specs/, the laws on them in proofs/.

#![tactic(auto)]
