// What the consistency check's definition means. No code: the statements are in specs/ and proofs/.

#![tactic(auto)]
