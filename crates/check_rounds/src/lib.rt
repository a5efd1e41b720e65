// The rules that need loops and turns: C4, C7, C8 and C9, each with the lowest place that breaks it.

#![tactic(auto)]

pub mod around;
pub mod fast;
pub mod low;
pub mod parts;
pub mod steps;
