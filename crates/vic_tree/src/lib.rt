//! Trees over the bits of keys, and parts of them: laws of the definitions of `vic_wire` (`specs/Trees.antt`, `specs/Walks.antt`,
//! `specs/Cuts.antt` and `specs/Parts.antt` there).
//!
//! This crate holds only laws and their proofs, no code. The statements are `specs/Laws.antt`, and the contracts here carry them; the crates
//! that keep trees and parts use the lemmas in `proofs/`.
#![tactic(auto)]

ghost use Rattle.vic_tree.specs.Laws.{TreesHold, PartsAreBound, WalksShow, CutsAnswer, CutsFollow, PartsAreCuts, PartsAreLeast};

/// A dictionary's tree has its pairs at its leaves, in order.
pub fn trees_hold()
    ensures { TreesHold }
{}

/// A part with the root of a dictionary is a cut of its tree, or two different node texts have one hash.
pub fn parts_are_bound()
    ensures { PartsAreBound }
{}

/// Where an operation looks, the walk of a cut has what the dictionary has.
pub fn walks_show()
    ensures { WalksShow }
{}

/// A cut answers an operation as the dictionary does.
pub fn cuts_answer()
    ensures { CutsAnswer }
{}

/// A cut has the root that the dictionary has after the operation.
pub fn cuts_follow()
    ensures { CutsFollow }
{}

/// The parts that a server sends are cuts in the grammar, and the one for an operation shows its walk.
pub fn parts_are_cuts()
    ensures { PartsAreCuts }
{}

/// The part for an operation shows no more than its walk needs: it is a cut of each cut that shows the walk.
pub fn parts_are_least()
    ensures { PartsAreLeast }
{}
