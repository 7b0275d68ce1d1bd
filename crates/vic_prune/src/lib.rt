//! Parts of a dictionary's tree: the tree with subtrees cut away, each of which leaves a stub with its root.
//!
//! What an operation meets on its walk over a part is `specs/Walks.antt` of `vic_wire`, and which part it needs `specs/Cuts.antt` there.
//! On each cut of a dictionary's tree that shows the walk, [`Pruned::try_op`] answers as the dictionary does, and [`Pruned::after`] gives the
//! root of the dictionary after the operation.
#![tactic(auto)]

mod cut;
mod pruned;

pub use cut::{cut_for, cut_none};
pub use pruned::{PruneFault, Pruned};
