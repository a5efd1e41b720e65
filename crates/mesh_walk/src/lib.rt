// Walks around faces and vertices, each bounded by the number of halfedges.

#![tactic(auto)]

pub mod lengths;
pub mod meets;
pub mod rims;
pub mod round;
