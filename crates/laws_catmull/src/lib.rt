// What a Catmull-Clark pass leaves is in proofs/.

#![tactic(auto)]
