//! Reading a whole source, up to a limit.

ghost use Rattle.std.specs.Prelude.{◌≡◌, ◌≤◌, ◌<◌, ◌+◌, ◌++◌, length, OnOk, OnErr};
ghost use Rattle.vic_ports.specs.InputGives.{InputGives, TakesAtMost, most_taken};

use crate::ports::{Got, Source};
use std::alloc::Global;
use vic_dict::Bytes;
use vic_dict::limits::LONGEST_SCRIPT;

/// The most bytes that one read takes.
const ONE_READ: usize = 4096;

/// What reading a source gave.
#[derive(Debug, Drop)]
pub enum InputRead {
    /// All of it; the source has ended.
    Whole(Bytes),
    /// The front of an input that goes on past the limit.
    TooLong(Bytes),
    /// A read failed; what was taken before it is gone.
    Fault,
    /// Memory ran out; what was taken is gone.
    NoMemory,
}

/// Reads a source to its end, or past the limit, in reads of at most 4,096 bytes; so it takes at most so many past the limit. Each read
/// takes at least one byte, so it ends.
pub fn read_input<S: Source>(alloc: Global, source: &mut S) -> InputRead
    ensures given { InputGives (S.left source.old) (S.left source.new) (S.faults source.old) (S.faults source.new) (S.ended source.new) result }
    ensures taken { TakesAtMost most_taken (S.left source.old) (S.left source.new) }
    ensures later { S.faults source.old ≤ S.faults source.new }
{
    let mut all = Bytes::new(alloc);
    let mut buffer = [0u8; ONE_READ];
    while all.len() <= LONGEST_SCRIPT {
        match source.read(&mut buffer) {
            Got::Bytes(n) => {
                if all.append(&buffer[..n]).is_err() {
                    return InputRead::NoMemory;
                }
            }
            Got::End => return InputRead::Whole(all),
            Got::Failed => return InputRead::Fault,
        }
    }
    InputRead::TooLong(all)
}
