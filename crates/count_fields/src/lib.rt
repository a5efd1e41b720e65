// What the counter counts (document 01, section 5).

#![tactic(auto)]

pub mod count;
pub mod loops;
pub mod numbers;
