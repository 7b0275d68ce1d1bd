//! The traits: a source of bytes and a sink for them.

ghost use Rattle.std.specs.Prelude.{◌≡◌, ℕ, ◌≤◌, ◌<◌, List, length, Bool, Option};
ghost use Rattle.vic_ports.specs.Causes.{ReadGives, WriteGives};

/// What a read answered.
#[derive(Clone, Copy, Debug, PartialEq, Eq)]
pub enum Got {
    /// So many bytes now stand at the front of the buffer.
    Bytes(usize),
    /// Nothing is left.
    End,
    /// The read failed, and took nothing.
    Failed,
}

/// What a write answered.
#[derive(Clone, Copy, Debug, PartialEq, Eq)]
pub enum Put {
    /// So many bytes of the piece's front were taken.
    Took(usize),
    /// The write failed, and nothing was taken.
    Failed,
    /// A form in memory found no room; nothing was taken, and this is no fault.
    NoMemory,
}

/// Where bytes come from.
pub trait Source {
    /// What is left, where the source tells it.
    ghost left: { Self → Option (List ℕ) };

    /// How many reads have failed; it moves in no other call, never falls, and stands still at the greatest u64.
    ghost faults: { Self → ℕ };

    /// Whether a read has answered that nothing is left.
    ghost ended: { Self → Bool };

    /// Reads at least one byte into the front of the buffer, if there is one.
    fn read(&mut self, into: &mut [u8]) -> Got
        requires { 0 < length into.old }
        ensures given { ReadGives into.new (left self.old) (left self.new) (faults self.old) (faults self.new) (ended self.old) (ended self.new) result }
        ensures later { faults self.old ≤ faults self.new };
}

/// Where bytes go.
pub trait Sink {
    /// What was written, where the sink tells it.
    ghost held: { Self → Option (List ℕ) };

    /// How many writes have failed; it moves in no other call, never falls, and stands still at the greatest u64.
    ghost faults: { Self → ℕ };

    /// Writes at least one byte of the piece's front.
    fn write(&mut self, piece: &[u8]) -> Put
        requires { 0 < length piece.now }
        ensures given { WriteGives piece.now (held self.old) (held self.new) (faults self.old) (faults self.new) result }
        ensures later { faults self.old ≤ faults self.new };
}
