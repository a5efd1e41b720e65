// The calls for C and Rust programs: each slice is a pointer and a length, each answer a record of numbers. exports_c gives them their C names.

#![tactic(auto)]

pub mod calls;
