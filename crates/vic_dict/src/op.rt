//! Operations on the dictionary, their answers, and the entries in which clients order them.

ghost use Rattle.std.specs.Prelude.{◌≡◌, ◌↔◌, IsTrue, IfOk};
ghost use Rattle.vic_dict.specs.Dictionary.{IsKey, Fits, AreBytesIn};

use crate::bytes::{Bytes, Names, NoMemory};
use crate::limits::{LONGEST_KEY, LONGEST_VALUE};
use std::alloc::Global;

/// What a client asks of the dictionary. A key has 1 to 255 bytes, a value 0 to 64, a prefix 0 to 255.
#[derive(Debug, Drop, PartialEq, Eq)]
pub enum Op {
    /// The key now has the value.
    Put(Bytes, Bytes),
    /// The value of the key.
    Get(Bytes),
    /// The key goes.
    Del(Bytes),
    /// All keys with the prefix, in order of bytes.
    List(Bytes),
}

/// What the dictionary answers.
#[derive(Debug, Drop, PartialEq, Eq)]
pub enum Answer {
    Stored,
    Found(Bytes),
    NotFound,
    Removed,
    Absent,
    Names(Names),
}

/// How a call ended. It is completed where it is done or aborted.
#[derive(Debug, Drop, PartialEq, Eq)]
pub enum Outcome {
    Done(Answer),
    /// The position of the conflicting entry that stood in the way.
    Aborted(u32),
    /// The number of the server's reason.
    Refused(u8),
    /// The number of the check that failed.
    Halted(u8),
}

/// One call in the common order: the client, its number among this client's calls (from 1 on), and the operation.
#[derive(Debug, Drop, PartialEq, Eq)]
pub struct Entry {
    /// The number of the client, 1 to 64.
    pub client: u8,
    /// The number among this client's calls, from 1 on.
    pub seq: u32,
    /// What is called.
    pub op: Op,
}

/// What a group keeps: dictionary values alone, or objects under hashes that the dictionary holds.
#[derive(Clone, Copy, Debug, PartialEq, Eq)]
pub enum Mode {
    Plain,
    Objects,
}

fn is_key(text: &Bytes) -> bool
    ensures { IsTrue result ↔ IsKey text.now }
{
    0 < text.len() && text.len() <= LONGEST_KEY
}

impl Op {
    /// Whether the lengths of the texts are within the limits.
    pub fn fits(&self) -> bool
        ensures { IsTrue result ↔ Fits self.now }
    {
        match self {
            Op::Put(key, value) => is_key(key) && value.len() <= LONGEST_VALUE,
            Op::Get(key) => is_key(key),
            Op::Del(key) => is_key(key),
            Op::List(prefix) => prefix.len() <= LONGEST_KEY,
        }
    }

    /// What the type says of the numbers of its texts, for a proof: see `Bytes::are_bytes`. It does nothing when it runs.
    pub fn are_bytes(&self)
        ensures { AreBytesIn self.now }
    {
        match self {
            Op::Put(key, value) => {
                key.are_bytes();
                value.are_bytes();
            }
            Op::Get(text) | Op::Del(text) | Op::List(text) => text.are_bytes(),
        }
    }

    /// The same operation, in memory of its own. It costs as much as its key and value.
    pub fn copy(&self, alloc: Global) -> Result<Op, NoMemory>
        ensures { IfOk result (λ made. made ≡ self.now) }
    {
        Ok(match self {
            Op::Put(key, value) => Op::Put(key.copy(alloc)?, value.copy(alloc)?),
            Op::Get(key) => Op::Get(key.copy(alloc)?),
            Op::Del(key) => Op::Del(key.copy(alloc)?),
            Op::List(prefix) => Op::List(prefix.copy(alloc)?),
        })
    }
}

impl Answer {
    /// The same answer, in memory of its own. It costs as much as the bytes that it holds.
    pub fn copy(&self, alloc: Global) -> Result<Answer, NoMemory>
        ensures { IfOk result (λ made. made ≡ self.now) }
    {
        Ok(match self {
            Answer::Stored => Answer::Stored,
            Answer::Found(value) => Answer::Found(value.copy(alloc)?),
            Answer::NotFound => Answer::NotFound,
            Answer::Removed => Answer::Removed,
            Answer::Absent => Answer::Absent,
            Answer::Names(names) => Answer::Names(names.copy(alloc)?),
        })
    }
}

impl Outcome {
    /// The same outcome, in memory of its own. It costs as much as the answer that it holds.
    pub fn copy(&self, alloc: Global) -> Result<Outcome, NoMemory>
        ensures { IfOk result (λ made. made ≡ self.now) }
    {
        Ok(match self {
            Outcome::Done(answer) => Outcome::Done(answer.copy(alloc)?),
            Outcome::Aborted(position) => Outcome::Aborted(*position),
            Outcome::Refused(reason) => Outcome::Refused(*reason),
            Outcome::Halted(check) => Outcome::Halted(*check),
        })
    }
}

impl Entry {
    /// The same entry, in memory of its own. It costs as much as its operation.
    pub fn copy(&self, alloc: Global) -> Result<Entry, NoMemory>
        ensures { IfOk result (λ made. made ≡ self.now) }
    {
        Ok(Entry {
            client: self.client,
            seq: self.seq,
            op: self.op.copy(alloc)?,
        })
    }
}
