//! The steps of clients, and the calls that a view shows.

use crate::object::{ObjectCall, ObjectOutcome};
use vic_dict::{Bytes, Entry, Op, Outcome};

/// What a client is given at a step.
#[derive(Debug, Drop)]
pub enum Input {
    /// A call of the dictionary.
    Call(Op),
    /// A call on objects.
    Object(ObjectCall),
    Poll,
    Sync,
    /// A payload that is said to come from the server.
    Payload(Bytes),
}

/// A step of a client: what it was given, what it sent, and what it returned.
#[derive(Debug, Drop)]
pub struct TraceStep {
    /// The number of the client, from 1 on.
    pub client: u8,
    /// What it was given.
    pub input: Input,
    /// The payload that it sent, if it sent one.
    pub sent: Option<Bytes>,
    /// The outcome of its call, if the step ended one; halted, where it took a payload and is halted.
    pub returned: Option<Outcome>,
    /// The outcome of its call on objects, if the step ended one.
    pub object: Option<ObjectOutcome>,
}

/// A call in a view, with the outcome that its client returned.
#[derive(Debug, Drop)]
pub struct Shown {
    /// The call: its client, its number and its operation.
    pub entry: Entry,
    /// Done or aborted, as its client returned it.
    pub outcome: Outcome,
}
