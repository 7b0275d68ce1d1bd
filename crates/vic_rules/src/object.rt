//! The calls of a client on objects, what they return, and how far one has come.

use vic_dict::{Bytes, Names, Op};
use vic_wire::Digest32;

/// A call on objects. A name is a key of the dictionary; its value is the reference of the content that is stored under it.
#[derive(Debug, Drop)]
pub enum ObjectCall {
    /// A content is stored under a name.
    Store(Bytes, Bytes),
    /// The content of a name, please.
    Load(Bytes),
    /// A name is taken away.
    Erase(Bytes),
    /// The names with a prefix, please.
    Names(Bytes),
}

/// What a call on objects returned.
#[derive(Debug, Drop)]
pub enum ObjectOutcome {
    Stored,
    Content(Bytes),
    /// No such name, of a load.
    Missing,
    Removed,
    /// No such name, of an erase.
    Absent,
    Names(Names),
    /// By the call at this position.
    Aborted(u32),
    /// For this reason.
    Refused(u8),
}

/// How far a client's call on objects has come.
#[derive(Debug, Drop)]
pub enum Phase {
    /// None is open.
    Closed,
    /// A content with this hash and length was sent; its name is next.
    Keeping(Bytes, Digest32, u32),
    /// Its operation was called.
    Calling,
    /// The content with this hash and length is to be fetched, or was asked for.
    Fetching(Digest32, u32),
}

/// What a call on objects does next.
#[derive(Debug, Drop)]
pub enum Next {
    /// It sends a content to be kept.
    Keep(Bytes),
    /// It calls an operation of the dictionary.
    Call(Op),
    /// It asks for the content with this hash and length.
    Fetch(Digest32, u32),
    /// It is over.
    Return(ObjectOutcome),
    /// What came isn't what the reference says.
    Bad,
}
