//! Changes whose memory was taken before, and what takes a change back.

use crate::node::Node;
use vic_dict::Bytes;

/// A key and a value, with all the memory that putting them takes.
#[derive(Drop)]
pub struct Ready {
    /// The key, 1 to 255 bytes.
    pub key: Bytes,
    /// The value, at most 64 bytes.
    pub value: Bytes,
    /// The new leaf, for where the key has none.
    pub(crate) fresh: Box<Node>,
    /// Room for the node that then stands beside that leaf.
    pub(crate) spare: Box<Node>,
}

/// What takes a change back: nothing, the key is to go, or the old pair is to come back.
#[derive(Drop)]
pub enum Undo {
    Nothing,
    Gone(Bytes),
    Back(Ready),
}
