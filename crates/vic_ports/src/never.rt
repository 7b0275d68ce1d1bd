//! Forms in memory that never fail: their count of faults is the constant 0.

ghost use Rattle.std.specs.Prelude.{◌≡◌, [], List, ℕ, drop, Some};
ghost use Rattle.vic_ports.specs.Memory.{told_of};

use crate::link::Link;
use crate::memory::{MemorySink, MemorySource};
use crate::memory_link::MemoryLink;
use crate::ports::{Got, Put, Sink, Source};

/// A form in memory, which is told the calls that are to fail.
pub trait Planned {
    /// The numbers of the calls that are to fail.
    ghost fails: { Self → List ℕ };
}

impl Planned for MemorySource {
    ghost fails = { λ s. s.fails };
}

impl Planned for MemorySink {
    ghost fails = { λ s. s.fails };
}

impl Planned for MemoryLink {
    ghost fails = { λ l. l.fails };
}

/// A form in memory that is told to fail at no call.
#[derive(Debug, Drop)]
pub struct NeverFails<T: Planned> {
    inner: T,
    ghost quiet: { T.fails inner ≡ [] },
}

impl<T: Planned> NeverFails<T> {
    pub fn new(inner: T) -> NeverFails<T>
        requires { T.fails inner ≡ [] }
        ensures { result.inner ≡ inner }
    {
        NeverFails { inner }
    }

    /// What it wraps.
    pub fn inner(&self) -> &T
        ensures { result.now ≡ self.now.inner }
    {
        &self.inner
    }
}

impl Source for NeverFails<MemorySource> {
    ghost left = { λ s. Some (drop s.inner.taken s.inner.bytes) };

    ghost faults = { λ _. 0 };

    ghost ended = { λ s. s.inner.ended };

    fn read(&mut self, into: &mut [u8]) -> Got {
        self.inner.read(into)
    }
}

impl Sink for NeverFails<MemorySink> {
    ghost held = { λ s. Some s.inner.bytes };

    ghost faults = { λ _. 0 };

    fn write(&mut self, piece: &[u8]) -> Put {
        self.inner.write(piece)
    }
}

impl Link for NeverFails<MemoryLink> {
    ghost told = { λ l. record (told_of l.inner) { faults = 0 } };

    fn read(&mut self, into: &mut [u8]) -> Got {
        self.inner.read(into)
    }

    fn write(&mut self, piece: &[u8]) -> Put {
        self.inner.write(piece)
    }
}
