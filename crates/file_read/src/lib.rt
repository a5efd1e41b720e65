// The mesh file (document 01, section 5): its reader and its writer. The format is in specs/Format.antt.

#![tactic(auto)]

pub mod bytes;
pub mod contents;
pub mod lent;
pub mod load;
pub mod read;
