//! The rule of the server, what becomes of a call that it ordered, and the runs of clients with an honest server.
//!
//! This crate holds the types that contracts see, and the definitions in `specs/`.
#![tactic(auto)]

/// Where a client stands with the server.
#[derive(Clone, Copy, Debug, PartialEq, Eq)]
pub enum Stage {
    /// It hasn't come in.
    Away,
    /// It may send a request.
    Ready,
    /// Its call was ordered at this position, and isn't committed.
    Open(u32),
    /// It has left.
    Left,
}
