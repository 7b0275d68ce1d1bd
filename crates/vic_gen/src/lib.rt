//! The acts of a drill's clients, drawn from a number.
//!
//! `specs/Drawing.antt` says what is drawn. [`Gen`] draws it.
#![tactic(auto)]

pub mod drawing;

pub use drawing::Gen;
use vic_dict::Op;

/// What a client is to do.
#[derive(Debug, Drop)]
pub enum Act {
    /// It asks whether it may seal.
    Poll,
    /// It calls an operation.
    Call(Op),
}

#[cfg(test)]
mod tests;
