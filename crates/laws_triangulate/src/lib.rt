// What triangulate leaves is in proofs/.

#![tactic(auto)]
