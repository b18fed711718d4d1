// The door again, for C and for Rust: answers are structs of numbers. `number` is document 01's refusal number, 0 where there is none.
#![tactic(auto)]

pub mod lines;
pub mod lists;
pub mod placing;
