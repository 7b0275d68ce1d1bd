//! How long messages are.
#![tactic(auto)]

/// Nothing.
pub fn nothing() {}
