// What the edits of document 01 leave, proved of their definitions: specs/ and proofs/.

#![tactic(auto)]
