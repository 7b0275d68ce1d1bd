//! The bytes of parts: a form byte 1 and the nodes of a pruned tree, each before its two sides.
//!
//! A part is spelled as `part_text`, and read as `part_at`, of `specs/Parts.antt` of `vic_wire`; the contracts of `part_bytes` and
//! `part_of` carry them.
#![tactic(auto)]

pub mod cutting;
pub mod reading;
pub mod writing;

pub use cutting::{bare_bytes, cut_bytes};
pub use reading::{ProofFault, part_of};
pub use writing::part_bytes;
