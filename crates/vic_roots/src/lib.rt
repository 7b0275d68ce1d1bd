//! What the root of a dictionary tells: statements with their proofs, and no code that runs.
//!
//! Each law is the contract of a function without parameters and with an empty body; its words stand in `specs/Roots.antt`.
#![tactic(auto)]

ghost use Rattle.vic_roots.specs.Roots.{KeepsProper, OneRootOneDictionary, TreeShape};

/// Operations and reading keep each key within 1 to 255 bytes and each value within 64.
pub fn keeps_proper()
    ensures { KeepsProper }
{}

/// Two dictionaries of one root are the same, unless two texts of their nodes have one hash.
pub fn one_root()
    ensures { OneRootOneDictionary }
{}

/// The tree of a dictionary branches at the first bit at which two of its keys differ.
pub fn tree_shape()
    ensures { TreeShape }
{}
