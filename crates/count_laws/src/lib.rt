// That the counter's number of rim loops is their number. No code: the statements are in specs/ and proofs/.

#![tactic(auto)]
