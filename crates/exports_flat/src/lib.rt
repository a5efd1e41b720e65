// Answers as records of plain numbers, for the calls of `exports`.

#![tactic(auto)]

pub mod answers;
