//! How a session ends.

use vic_wire::Digest32;

/// How a session ended.
#[derive(Debug, Drop)]
pub enum SessionEnd {
    /// Every line was done, and the client has left.
    Ok,
    /// The line with this number is bad, by this kind.
    BadLine(u32, u8),
    /// A read or a write of the link failed, or it ended while an answer was owed.
    LinkFault,
    /// The check with this number failed, on the payload with this hash.
    Halted(u8, Digest32),
    /// A frame's length is 0, or over the limit.
    BadFrame,
    /// The server refused the greeting, for this reason.
    GreetingRefused(u8),
    NoMemory,
}
