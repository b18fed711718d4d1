// The placement walk over a checked request.
#![tactic(auto)]

pub mod checked;
pub mod definite;
pub mod run;
