// What the counter says of a file (document 01, section 5): its line, as bytes in a slice.

#![tactic(auto)]

pub mod line;
pub mod tell;
pub mod whole;
