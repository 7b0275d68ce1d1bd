//! Servers that misbehave by themselves: the server of `vic_server`, which from some request on goes wrong in one of seven ways.
//!
//! [`Hostile`] is one of them. What it answers is `by_kind` of `vic_attacks`, in `specs/Hostile.antt` there, and its `Serve` carries it.
//! Where memory runs out nothing has changed: the change of the server within comes last, and is made whole or not at all.
#![tactic(auto)]

mod changed;
pub mod hostile;
mod places;

pub use hostile::Hostile;
pub use vic_attacks::HostileKind;
