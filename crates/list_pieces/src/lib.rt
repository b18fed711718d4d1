// What a paint reaches on one track, and the pieces that it leaves there.
#![tactic(auto)]

pub mod pieces;
pub mod reach;
