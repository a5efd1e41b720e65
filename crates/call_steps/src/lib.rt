// Subdivision calls: what a call refuses, and what it leaves in every slice that was lent (document 01, section 4).

#![tactic(auto)]

pub mod lent;
pub mod look;
pub mod passes;
pub mod space;
pub mod store;
