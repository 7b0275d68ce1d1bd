//! Writing a whole text to a sink.

ghost use Rattle.std.specs.Prelude.{◌≡◌, ◌≤◌, length, drop};
ghost use Rattle.vic_ports.specs.Written.{WritesText};

use crate::ports::{Put, Sink};

/// How writing a text ended.
#[derive(Clone, Copy, Debug, PartialEq, Eq)]
pub enum Written {
    /// The sink took all of it.
    All,
    /// A write failed; the sink took a front of it.
    Fault,
    /// The sink found no memory; it took a front of it.
    NoMemory,
}

/// Writes a text, in as many writes as the sink wants. Each takes at least one byte, so it ends.
pub fn write_output<K: Sink>(sink: &mut K, text: &[u8]) -> Written
    ensures given { WritesText text.now (K.held sink.old) (K.held sink.new) (K.faults sink.old) (K.faults sink.new) result }
    ensures later { K.faults sink.old ≤ K.faults sink.new }
{
    let mut rest = text;
    while !rest.is_empty() {
        match sink.write(rest) {
            Put::Took(n) => rest = beyond(rest, n),
            Put::Failed => return Written::Fault,
            Put::NoMemory => return Written::NoMemory,
        }
    }
    Written::All
}

/// What stands behind the first n bytes.
pub(crate) fn beyond(piece: &[u8], n: usize) -> &[u8]
    requires { n ≤ length piece.now }
    ensures { result.now ≡ drop n piece.now }
{
    &piece[n..]
}
