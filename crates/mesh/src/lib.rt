// The words of a mesh in its slices: partners, single links, records loaded and stored.

#![tactic(auto)]

pub mod given;
pub mod half;
pub mod rim;
pub mod rows;
