// How large the result of a subdivision gets: the amounts of document 01's table (section 3), before and after passes.

#![tactic(auto)]

pub mod forecast;
pub mod kind;
pub mod tally;
