//! What a command is about to write, and writing it.

ghost use Rattle.std.specs.Prelude.{◌≡◌};
ghost use Rattle.vic_text.specs.Statuses.{fixed_line};
ghost use Rattle.vic_cli.specs.Output.{text_bytes, Finishes, given_by};

use vic_dict::Bytes;
use vic_ports::{Sink, Written, write_output};
use vic_text::Status;

/// A text that is printed: a line that takes no memory, or one that was composed.
#[derive(Drop)]
pub enum Text {
    Fixed(&'static [u8]),
    Made(Bytes),
}

impl Text {
    /// Its bytes.
    pub fn as_slice(&self) -> &[u8]
        ensures { result.now ≡ text_bytes self.now }
    {
        match self {
            Text::Fixed(line) => line,
            Text::Made(bytes) => bytes.as_slice(),
        }
    }
}

/// A status, and the text to write before the command ends so.
#[derive(Drop)]
pub struct Composed {
    /// How the command ends, if the write succeeds.
    pub status: Status,
    /// What is to be written.
    pub text: Text,
}

impl Composed {
    /// A status with its own line, which takes no memory.
    pub fn of(status: Status) -> Composed
        ensures status { result.status ≡ status }
        ensures text { text_bytes result.text ≡ fixed_line status }
    {
        Composed {
            status,
            text: Text::Fixed(status.line()),
        }
    }
}

/// Writes a text and answers the command's status; where the write fails, that replaces it.
pub fn finish<K: Sink>(sink: &mut K, status: Status, text: &[u8]) -> Status
    ensures { Finishes status text.now (given_by K.held K.faults sink.old sink.new) result }
{
    match write_output(sink, text) {
        Written::All => status,
        Written::Fault => Status::WriteFault,
        Written::NoMemory => Status::NoMemory,
    }
}
