// The bytes of a file: its numbers, its header, its items.
#![tactic(auto)]

pub mod bytes;
pub mod header;
pub mod items;
