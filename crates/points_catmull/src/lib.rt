// The points of one pass of Catmull-Clark, and the sums that all schemes take around faces and vertices (document 01, section 3).

#![tactic(auto)]

pub mod cage;
pub mod catmull;
pub mod sums;
