// The points of one pass of Loop and of sqrt3, the schemes of triangles (document 01, section 3). The work slice takes the new points in the order that
// the new vertices have, three numbers each.

#![tactic(auto)]

pub mod edges;
pub mod faces;
pub mod inner;
pub mod passes;
pub mod scheme;
pub mod vertices;
