// What a Loop pass leaves is in proofs/.

#![tactic(auto)]
