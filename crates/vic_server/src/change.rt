//! What a request changes, planned before anything is changed.

use crate::rows::Row;
use vic_dict::Bytes;
use vic_wire::{Digest32, Seal, ToClient};

/// A change of the server.
#[derive(Debug, Drop)]
pub enum Change {
    Nothing,
    /// A client comes in.
    Enters(u8),
    /// A client's call goes onto the log.
    Orders(u8, Row),
    /// A client's call at a position was done, or else aborted.
    Commits(u8, u32, bool, Digest32),
    /// The next position is sealed, whose entry was done, or else aborted.
    Seals(Seal, bool),
    /// A content is kept under its hash.
    Keeps(Digest32, Bytes),
    /// A client leaves.
    Leaves(u8),
}

/// An answer, and the change that goes with it.
#[derive(Debug, Drop)]
pub struct Plan {
    /// What is to be answered.
    pub answer: ToClient,
    /// What is to become of the server, once the answer stands.
    pub change: Change,
}
