// The rules C1 to C9 where one place's links decide them, and the first place that breaks such a rule.

#![tactic(auto)]

pub mod local;
pub mod scan;
pub mod states;
pub mod there;
