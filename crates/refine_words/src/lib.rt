// What is said of a run of subdivision: the words that ask for it, and the line that goes on the job card.

#![tactic(auto)]

pub mod lines;
pub mod words;
