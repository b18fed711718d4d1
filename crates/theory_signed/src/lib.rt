// The words are in specs/Parts.antt, the laws in proofs/Laws.antt. The one function is here since a crate has at least one.
#![tactic(auto)]

pub fn nothing() {}
