//! The lines of a script.

use vic_dict::{Bytes, Op};
use vic_rules::ObjectCall;

/// One line of a script. A number of a client, of a server that is copied or moved to, or of a byte that is over 4,294,967,295
/// stands as that number.
#[derive(Debug, Drop)]
pub enum Line {
    /// The first line of the header, of a group of so many clients with a dictionary.
    Clients(u8),
    /// The first line of the header, of a group of so many clients with objects.
    Objects(u8),
    /// The digits of the group's key, as they are written: 2 to 128 of them, in an even number, capital or small.
    Key(Bytes),
    /// The last line of the header: how server 1 misbehaves, by the name of the kind, and after how many requests, at most 1,000,000.
    Hostile(Bytes, u32),
    /// A client calls an operation.
    Call(u32, Op),
    /// A client makes a call on objects.
    Object(u32, ObjectCall),
    /// A client asks whether it may seal.
    Poll(u32),
    /// A client asks for the entries that it doesn't know.
    Sync(u32),
    /// The server of a client serves its oldest request.
    Serve(u32),
    /// A client takes its oldest answer.
    Take(u32),
    /// Serve and take in turn, while requests wait.
    Run(u32),
    /// A client takes a payload that the script gives.
    Give(u32, Bytes),
    /// A client takes once more the payload that it took last.
    Again(u32),
    /// A client takes its oldest answer with the lowest bit of one byte changed; bytes are counted from 0.
    Flip(u32, u32),
    /// The payload that a client sent last joins its requests again.
    Resend(u32),
    /// A server is copied; the copy is the server of the second number, from 1 to 4, from now on.
    Copy(u32, u8),
    /// A client is served by a server from now on.
    Move(u32, u32),
    /// An empty line or a comment, which does nothing.
    Skip,
}
