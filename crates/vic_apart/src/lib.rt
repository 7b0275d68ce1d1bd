//! Whether two different texts of a run have one SHA-256 value.
//!
//! What is claimed of a group's views stands unless a tag was forged or two different listed texts have one hash. The texts are
//! `listed_texts`, and the test `are_apart`, of `vic_laws` (`specs/Meanings.antt`). `listed_texts` works out the one and `are_texts_apart` does
//! the other; `are_apart` does both for a transcript, and its contract says that it finds exactly the collisions that the claim excepts.
#![tactic(auto)]

pub mod by_hash;
mod chains;
mod contents;
pub mod listing;
mod nodes;
mod sealed;
mod stand;

pub use by_hash::{ByHash, are_texts_apart};
pub use listing::{are_apart, listed_texts};

#[cfg(test)]
mod tests;
