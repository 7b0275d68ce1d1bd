//! The items of the server's lists, each seen as the rule sees it.

ghost use Rattle.std.specs.Prelude.{◌≡◌, ◌<◌, IfOk, OnOk, OnErr};
ghost use Rattle.vic_dict.specs.Dictionary.{Fits};
ghost use Rattle.vic_wire.specs.Messages.{IsTagged, IsSeal};
ghost use Rattle.vic_order.specs.Order.{tagged_entry};

use std::alloc::Global;
use std::marker::Model;
use vic_dict::{NoMemory, Op};
use vic_order::Stage;
use vic_wire::{Digest32, Seal, Tagged};

/// An entry that was ordered, with its tag, and how many entries were sealed then.
#[derive(Debug, Drop)]
pub struct Row {
    /// The entry, and the tag that its Invoke carried.
    item: Tagged,
    /// The position of the last seal when it was ordered.
    sealed_then: u32,
}

impl Model for Row {
    ghost use Rattle.vic_order.specs.Order.{Ordered};
    ghost use Rattle.vic_wire.specs.Messages.{IsTagged};

    ghost Value = { Ordered };

    ghost view = { λ a. record { entry = a.item.entry; tag = a.item.tag; sealed_then = a.sealed_then } };

    ghost invariant = { λ a. IsTagged a.item };
}

impl Row {
    /// The entry as it stands on the log, where so many entries are sealed.
    pub fn new(item: Tagged, sealed_then: u32) -> Row
        requires { IsTagged item }
        ensures { result ≡ record { entry = item.entry; tag = item.tag; sealed_then = sealed_then } }
    {
        Row { item, sealed_then }
    }

    /// Whose entry it is.
    pub fn client(&self) -> u8
        ensures { result ≡ self.now.entry.client }
    {
        self.item.entry.client
    }

    /// Its number among this client's calls.
    pub fn seq(&self) -> u32
        ensures { result ≡ self.now.entry.seq }
    {
        self.item.entry.seq
    }

    /// The operation that the entry calls; its texts are within the limits.
    pub fn op(&self) -> &Op
        ensures is { result.now ≡ self.now.entry.op }
        ensures fits { Fits result.now }
    {
        &self.item.entry.op
    }

    /// A copy of the entry with its tag. It takes memory for the operation's texts, and costs them.
    pub fn tagged(&self, alloc: Global) -> Result<Tagged, NoMemory>
        ensures is { IfOk result (λ t. t ≡ tagged_entry self.now) }
        ensures spelled { IfOk result (λ t. IsTagged t) }
    {
        let entry = self.item.entry.copy(alloc)?;
        Ok(Tagged {
            entry,
            tag: self.item.tag,
        })
    }

    /// A copy of the whole row; it costs the operation's texts.
    pub fn copy(&self, alloc: Global) -> Result<Row, NoMemory>
        ensures { IfOk result (λ made. made ≡ self.now) }
    {
        let item = self.tagged(alloc)?;
        Ok(Row {
            item,
            sealed_then: self.sealed_then,
        })
    }
}

/// The seal of a position above 0.
#[derive(Debug, Drop)]
pub struct SealRow {
    /// With the tag as it came: the server tests none.
    seal: Seal,
}

impl Model for SealRow {
    ghost use Rattle.vic_wire.specs.declared.message.Seal.{Seal};
    ghost use Rattle.vic_wire.specs.Messages.{IsSeal};

    ghost Value = { Seal };

    ghost view = { λ a. a.seal };

    ghost invariant = { λ a. IsSeal a.seal };
}

impl SealRow {
    /// The seal, as it is kept.
    pub fn new(seal: Seal) -> SealRow
        requires { IsSeal seal }
        ensures { result ≡ seal }
    {
        SealRow { seal }
    }

    /// A copy of the seal; it takes no memory.
    pub fn seal(&self) -> Seal
        ensures is { result ≡ self.now }
        ensures spelled { IsSeal result }
    {
        self.seal
    }
}

/// How the entry of a position was committed, with the tag.
#[derive(Debug, Drop)]
pub struct Commit {
    /// The position that was committed.
    pub position: u32,
    /// Done, or else aborted.
    pub done: bool,
    /// The tag of the commit text, as it came.
    pub tag: Digest32,
}

impl Model for Commit {
    ghost use Rattle.vic_order.specs.Order.{Committed};

    ghost Value = { Committed };

    ghost view = { λ a. record { position = a.position; done = a.done; tag = a.tag } };
}

impl Commit {
    /// The commit of a position, counted from 1: done, or else aborted.
    pub fn new(position: u32, done: bool, tag: Digest32) -> Commit
        ensures { result ≡ record { position = position; done = done; tag = tag } }
    {
        Commit {
            position,
            done,
            tag,
        }
    }

    /// A copy; it takes no memory.
    pub fn copy(&self) -> Commit
        ensures { result ≡ self.now }
    {
        Commit {
            position: self.position,
            done: self.done,
            tag: self.tag,
        }
    }
}

/// The number of a client's last call, and where it stands.
#[derive(Debug, Drop)]
pub struct Seat {
    /// 0 before the first call.
    last: u32,
    /// Away, ready, open at a position, or left.
    stage: Stage,
}

impl Model for Seat {
    ghost use Rattle.vic_order.specs.Order.{Member};

    ghost Value = { Member };

    ghost view = { λ a. record { last = a.last; stage = a.stage } };
}

impl Seat {
    /// The seat of a client whose last call has this number, 0 before the first.
    pub fn new(last: u32, stage: Stage) -> Seat
        ensures { result ≡ record { last = last; stage = stage } }
    {
        Seat { last, stage }
    }

    /// The number of its last call; 0 before the first.
    pub fn last(&self) -> u32
        ensures { result ≡ self.now.last }
    {
        self.last
    }

    /// Whether it has come in or left, and the position of its open call, if it has one.
    pub fn stage(&self) -> Stage
        ensures { result ≡ self.now.stage }
    {
        self.stage
    }
}
