// The writer of the mesh file (document 01, section 5). The format is in file_read's specs/Format.antt.

#![tactic(auto)]

pub mod puts;
pub mod write;
