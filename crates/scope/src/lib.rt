// The records and answers that document 01 names. Its definitions are in specs/.

#![tactic(auto)]

pub mod answers;
pub mod records;
