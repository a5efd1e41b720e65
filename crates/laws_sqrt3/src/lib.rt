// What a pass of sqrt3 leaves is in proofs/.

#![tactic(auto)]
