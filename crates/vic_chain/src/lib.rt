//! The hashes along a path, and the window of a path that a client keeps.
//!
//! A hash is `chain` of the wire's `specs/Hashes.antt`: `genesis` and `chain_step` carry it. `ShowsPath` of `specs/Held.antt`
//! says which path a window shows, and the clauses of `Window` keep it.
#![tactic(auto)]

pub mod text;
pub mod window;

pub use text::{chain_step, feed_entry, genesis};
pub use window::{ChainedEntry, Window};

#[cfg(test)]
mod tests;
