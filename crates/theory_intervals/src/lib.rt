// The words are in specs/, the laws in proofs/. The one function is here since a crate has at least one.
#![tactic(auto)]

pub fn nothing() {}
