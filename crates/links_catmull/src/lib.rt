// The links of one Catmull-Clark pass, in place on the slices that hold a mesh: every edge split, then every face divided around a new vertex.

#![tactic(auto)]

pub mod faces;
pub mod pass;
