//! What a client keeps of its own calls, and what it awaits.

use vic_dict::Op;
use vic_wire::Digest32;

/// A call that its client has decided, and whose position it hasn't sealed.
#[derive(Debug, Drop)]
pub struct Own {
    /// Where its entry stands on the path, counted from 1.
    pub position: u32,
    /// What was called.
    pub op: Op,
    /// Done, or else aborted.
    pub done: bool,
}

/// What a client awaits.
#[derive(Debug, Drop)]
pub enum Awaiting {
    Nothing,
    /// The Reply to the call with this number and operation; and whether it is made for a load.
    Reply(u32, Op, bool),
    /// The turn, after a Commit, a Poll or a Seal.
    Turn,
    /// The entries, after a Sync.
    Entries,
    /// That a content is kept.
    Kept,
    /// The content with this hash and length.
    Content(Digest32, u32),
}
