// Copying and clearing slices, and the first mark that is set.

#![tactic(auto)]

pub mod copies;
pub mod marks;
