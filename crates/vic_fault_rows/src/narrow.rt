//! Sources, sinks and links that go one byte at a time, so that a call which fails stands in the middle of a text.

use vic_ports::{Got, Link, Put, Sink, Source};

/// Gives one byte at a read, and takes one at a write.
#[derive(Drop)]
pub struct Narrow<T> {
    pub inner: T,
}

impl<S: Source> Source for Narrow<S> {
    ghost left = { λ s. S.left s.inner };

    ghost faults = { λ s. S.faults s.inner };

    ghost ended = { λ s. S.ended s.inner };

    fn read(&mut self, into: &mut [u8]) -> Got {
        self.inner.read(&mut into[..1])
    }
}

impl<K: Sink> Sink for Narrow<K> {
    ghost held = { λ s. K.held s.inner };

    ghost faults = { λ s. K.faults s.inner };

    fn write(&mut self, piece: &[u8]) -> Put {
        self.inner.write(&piece[..1])
    }
}

/// A sink that takes one byte at a write, so many times, and then finds no memory.
#[derive(Drop)]
pub struct Tight<K> {
    pub inner: K,
    pub room: usize,
}

impl<K: Sink> Sink for Tight<K> {
    ghost held = { λ s. K.held s.inner };

    ghost faults = { λ s. K.faults s.inner };

    fn write(&mut self, piece: &[u8]) -> Put {
        if self.room == 0 {
            return Put::NoMemory;
        }
        self.room -= 1;
        self.inner.write(&piece[..1])
    }
}

/// A link whose reads give one byte; it writes as the link that it stands on.
#[derive(Drop)]
pub struct Trickle<L> {
    pub inner: L,
}

impl<L: Link> Link for Trickle<L> {
    ghost told = { λ l. L.told l.inner };

    fn read(&mut self, into: &mut [u8]) -> Got {
        self.inner.read(&mut into[..1])
    }

    fn write(&mut self, piece: &[u8]) -> Put {
        self.inner.write(piece)
    }
}
