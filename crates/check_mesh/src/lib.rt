// The consistency check: the lowest broken rule and, under it, the first place.

#![tactic(auto)]

pub mod entry;
pub mod judge;
