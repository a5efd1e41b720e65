// The theory of consistent halfedge meshes is in specs/ and proofs/.

#![tactic(auto)]
