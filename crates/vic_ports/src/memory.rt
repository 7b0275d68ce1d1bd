//! A source and a sink in memory, which tell their bytes, and fail at the calls that they are told to.

ghost use Rattle.std.specs.Prelude.{◌≡◌, ◌≢◌, ◌+◌, ◌-◌, ◌^◌, ◌≤◌, ◌<◌, ◌↔◌, false, [], ◌∷◌, ◌++◌, length, take, drop, min, Some, IsTrue, OnOk, OnErr, slice_get};
ghost use Rattle.vic_ports.specs.Causes.{ReadGives, WriteGives};
ghost use Rattle.vic_ports.specs.Failing.{is_to_fail};

use crate::ports::{Got, Put, Sink, Source};
use std::alloc::Global;
use std::marker::Model;
use vic_dict::{Bytes, NoMemory};

/// The numbers, from 1 on, of the calls that are to fail.
#[derive(Debug, Drop)]
pub struct Calls {
    items: Vec<u64>,
}

impl Model for Calls {
    ghost use Rattle.std.specs.Prelude.{ℕ, List};

    ghost Value = { List ℕ };

    ghost view = { λ a. a.items.items };
}

impl Calls {
    /// No call; it takes no memory.
    pub fn new(alloc: Global) -> Calls
        ensures { result ≡ [] }
    {
        Calls {
            items: Vec::new(alloc),
        }
    }

    pub fn len(&self) -> usize
        ensures { result ≡ length self.now }
    {
        self.items.len()
    }

    pub fn is_empty(&self) -> bool
        ensures { IsTrue result ↔ (self.now ≡ []) }
    {
        self.items.is_empty()
    }

    /// The number at a place, counted from 0.
    pub fn at(&self, place: usize) -> &u64
        requires { place < length self.now }
        ensures { slice_get self.now place ≡ Some result.now }
    {
        &self.items[place]
    }

    /// Puts a number last.
    pub fn push(&mut self, call: u64) -> Result<(), NoMemory>
        ensures ok { OnOk result (self.new ≡ self.old ++ call ∷ []) }
        ensures err { OnErr result (self.new ≡ self.old) }
    {
        self.items.push(call)?;
        Ok(())
    }

    /// Whether the call with this number is to fail.
    pub fn has(&self, call: u64) -> bool
        ensures value { result ≡ is_to_fail self.now call }
        ensures none { self.now ≡ [] → result ≡ false }
    {
        self.items.contains(&call)
    }
}

/// A source over bytes in memory.
#[derive(Debug, Drop)]
pub struct MemorySource {
    /// All that it has to give.
    bytes: Bytes,
    /// How many of them were read.
    taken: usize,
    /// The reads that are to fail.
    fails: Calls,
    /// How many reads there were.
    calls: u64,
    /// How many of them failed.
    faults: u64,
    /// Whether a read has answered that nothing is left.
    ended: bool,
    ghost within: { taken ≤ length bytes },
}

impl MemorySource {
    /// A source that gives these bytes, and whose reads with these numbers fail.
    pub fn new(bytes: Bytes, fails: Calls) -> MemorySource
        ensures left { drop result.taken result.bytes ≡ bytes }
        ensures fails { result.fails ≡ fails }
        ensures calls { result.calls ≡ 0 }
        ensures faults { result.faults ≡ 0 }
        ensures ended { result.ended ≡ false }
    {
        MemorySource {
            bytes,
            taken: 0,
            fails,
            calls: 0,
            faults: 0,
            ended: false,
        }
    }

    fn take_front(&mut self, into: &mut [u8]) -> Got
        requires { 0 < length into.old }
        ensures given { ReadGives into.new (Some (drop self.old.taken self.old.bytes)) (Some (drop self.new.taken self.new.bytes)) self.old.faults self.new.faults self.old.ended self.new.ended result }
        ensures works { result ≢ Got.Failed }
        ensures fails { self.new.fails ≡ self.old.fails }
        ensures calls { self.new.calls ≡ self.old.calls }
        ensures faults { self.new.faults ≡ self.old.faults }
    {
        let left = &self.bytes.as_slice()[self.taken..];
        if left.is_empty() {
            self.ended = true;
            return Got::End;
        }
        let n = copy_front(left, into);
        self.taken += n;
        Got::Bytes(n)
    }
}

/// Copies as much of the front as fits.
pub(crate) fn copy_front(from: &[u8], into: &mut [u8]) -> usize
    requires some { 0 < length from.now }
    requires room { 0 < length into.old }
    ensures some { 0 < result }
    ensures within { result ≤ length from.now }
    ensures fits { result ≤ length into.new }
    ensures same { take result into.new ≡ take result from.now }
{
    let n = from.len().min(into.len());
    into[..n].copy_from_slice(&from[..n]);
    n
}

impl Source for MemorySource {
    ghost left = { λ s. Some (drop s.taken s.bytes) };

    ghost faults = { λ s. s.faults };

    ghost ended = { λ s. s.ended };

    fn read(&mut self, into: &mut [u8]) -> Got
        requires { 0 < length into.old }
        ensures given { ReadGives into.new (Some (drop self.old.taken self.old.bytes)) (Some (drop self.new.taken self.new.bytes)) self.old.faults self.new.faults self.old.ended self.new.ended result }
        ensures later { self.old.faults ≤ self.new.faults }
        ensures works { self.old.fails ≡ [] → result ≢ Got.Failed }
        ensures fails { self.new.fails ≡ self.old.fails }
        ensures calls { self.new.calls ≡ min (self.old.calls + 1) (2 ^ 64 - 1) }
        ensures planned { (result ≡ Got.Failed) ↔ IsTrue (is_to_fail self.old.fails self.new.calls) }
    {
        self.calls = self.calls.saturating_add(1);
        if self.fails.has(self.calls) {
            self.faults = self.faults.saturating_add(1);
            return Got::Failed;
        }
        self.take_front(into)
    }
}

/// A sink that holds what was written.
#[derive(Debug, Drop)]
pub struct MemorySink {
    /// What was written.
    bytes: Bytes,
    /// The writes that are to fail.
    fails: Calls,
    /// How many writes there were.
    calls: u64,
    /// How many of them failed.
    faults: u64,
}

impl MemorySink {
    /// A sink that holds nothing yet, and whose writes with these numbers fail.
    pub fn new(alloc: Global, fails: Calls) -> MemorySink
        ensures held { result.bytes ≡ [] }
        ensures fails { result.fails ≡ fails }
        ensures calls { result.calls ≡ 0 }
        ensures faults { result.faults ≡ 0 }
    {
        MemorySink {
            bytes: Bytes::new(alloc),
            fails,
            calls: 0,
            faults: 0,
        }
    }

    /// What was written.
    pub fn held(&self) -> &Bytes
        ensures { result.now ≡ self.now.bytes }
    {
        &self.bytes
    }
}

impl Sink for MemorySink {
    ghost held = { λ s. Some s.bytes };

    ghost faults = { λ s. s.faults };

    fn write(&mut self, piece: &[u8]) -> Put
        requires { 0 < length piece.now }
        ensures given { WriteGives piece.now (Some self.old.bytes) (Some self.new.bytes) self.old.faults self.new.faults result }
        ensures later { self.old.faults ≤ self.new.faults }
        ensures works { self.old.fails ≡ [] → result ≢ Put.Failed }
        ensures fails { self.new.fails ≡ self.old.fails }
        ensures calls { self.new.calls ≡ min (self.old.calls + 1) (2 ^ 64 - 1) }
        ensures planned { (result ≡ Put.Failed) ↔ IsTrue (is_to_fail self.old.fails self.new.calls) }
    {
        self.calls = self.calls.saturating_add(1);
        if self.fails.has(self.calls) {
            self.faults = self.faults.saturating_add(1);
            return Put::Failed;
        }
        match self.bytes.append(piece) {
            Ok(()) => Put::Took(piece.len()),
            Err(_) => Put::NoMemory,
        }
    }
}
