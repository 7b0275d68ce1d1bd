//! The messages between a client and the server, and their parts.

ghost use Rattle.std.specs.Prelude.{◌≡◌, ◌<◌, [], ◌∷◌, ◌++◌, ◌↔◌, IsTrue, length, OnOk, OnErr, slice_get};

use std::alloc::Global;
use std::marker::Model;
use vic_dict::{Bytes, Entry, Mode, NoMemory, Op};

/// A SHA-256 value or a tag: 32 bytes.
#[derive(Clone, Copy, Debug, PartialEq, Eq)]
pub struct Digest32 {
    /// In the order in which they are written.
    pub bytes: [u8; 32],
}

/// The seal of a position: the root of the dictionary there, and the tag of the client that sealed it. At position 0 the
/// root is that of the empty dictionary and the tag is 32 zeros.
#[derive(Clone, Copy, Debug)]
pub struct Seal {
    /// Counted from 1; 0 where nothing is sealed.
    pub position: u32,
    /// The root of the dictionary that the done calls up to there leave.
    pub root: Digest32,
    /// The tag of the seal text, by the client that sealed it.
    pub tag: Digest32,
}

/// An entry with the tag of its invoke text.
#[derive(Debug, Drop)]
pub struct Tagged {
    /// The call that was ordered.
    pub entry: Entry,
    /// The tag of its invoke text, by its client.
    pub tag: Digest32,
}

/// A list of tagged entries, the oldest first.
#[derive(Debug, Drop)]
pub struct TaggedList {
    items: Vec<Tagged>,
}

impl Model for TaggedList {
    ghost use Rattle.std.specs.Prelude.{List};
    ghost use Rattle.vic_wire.specs.declared.message.Tagged.{Tagged};

    ghost Value = { List Tagged };

    ghost view = { λ a. a.items.items };
}

impl TaggedList {
    /// The empty list; it takes no memory.
    pub fn new(alloc: Global) -> TaggedList
        ensures { result ≡ [] }
    {
        TaggedList {
            items: Vec::new(alloc),
        }
    }

    /// How many tagged entries there are.
    pub fn len(&self) -> usize
        ensures { result ≡ length self.now }
    {
        self.items.len()
    }

    /// Whether there is none.
    pub fn is_empty(&self) -> bool
        ensures { IsTrue result ↔ (self.now ≡ []) }
    {
        self.items.is_empty()
    }

    /// Lends the tagged entries, in their order.
    pub fn as_slice(&self) -> &[Tagged]
        ensures { result.now ≡ self.now }
    {
        self.items.as_slice()
    }

    /// The item at a place, counted from 0.
    pub fn at(&self, place: usize) -> &Tagged
        requires { place < length self.now }
        ensures { slice_get self.now place ≡ Some result.now }
    {
        &self.items[place]
    }

    /// Puts an item last.
    pub fn push(&mut self, item: Tagged) -> Result<(), NoMemory>
        ensures ok { OnOk result (self.new ≡ self.old ++ item ∷ []) }
        ensures err { OnErr result (self.new ≡ self.old) }
    {
        self.items.push(item)?;
        Ok(())
    }
}

/// What a client sends.
#[derive(Debug, Drop)]
pub enum ToServer {
    /// A client comes in, with the kind of its group.
    Hello(Mode, u8),
    /// A call is to be ordered: the length of the client's path, the call's number, the operation, and the invoke tag.
    Invoke {
        known: u32,
        seq: u32,
        op: Op,
        tag: Digest32,
    },
    /// The call at a position was done, or else aborted; with the commit tag.
    Commit {
        position: u32,
        done: bool,
        tag: Digest32,
    },
    /// Is it my turn to seal?
    Poll,
    /// A position is sealed: the root of the dictionary there, and the seal tag.
    Seal {
        position: u32,
        root: Digest32,
        tag: Digest32,
    },
    /// The entries above a length, please.
    Sync(u32),
    /// A content to be kept.
    Keep(Bytes),
    /// The content of a hash, please.
    Fetch(Digest32),
    /// The client leaves.
    Bye,
}

/// What the server answers.
#[derive(Debug, Drop)]
pub enum ToClient {
    /// Welcome.
    Hi,
    /// The call is ordered: the highest seal, the entries that the client doesn't know, the last one being its own, and the
    /// part of the sealed dictionary.
    Reply {
        seal: Seal,
        entries: TaggedList,
        part: Bytes,
    },
    /// It isn't the client's turn.
    Wait,
    /// It is the client's turn to seal the position above this seal.
    Update {
        seal: Seal,
        part: Bytes,
    },
    /// The entries that were asked for, with a seal among or below them.
    Entries {
        seal: Seal,
        entries: TaggedList,
    },
    /// The request is refused, for this reason.
    Refused(u8),
    /// The content is kept.
    Kept,
    /// The content that was asked for.
    Content(Bytes),
    /// Farewell.
    Gone,
    /// No content has the hash that was asked for.
    Absent,
}
