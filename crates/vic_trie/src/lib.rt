//! A dictionary kept as a tree over the bits of its keys, with the root of each subtree.
#![tactic(auto)]

mod node;
mod ready;
mod top;
mod trie;

pub use node::Node;
pub use ready::{Ready, Undo};
pub use trie::Trie;
