//! What the system's answers to reads and writes are told as, over any reader and writer.
//!
//! A call that a signal cut short has done nothing, and is done again, at most [`TRIES`] times; that is no fault before the last.

ghost use Rattle.std.specs.Prelude.{◌≡◌, ◌≤◌, ◌<◌, length, false};
ghost use Rattle.vic_ports.specs.Answers.{IsAnswer, got_by, put_by, TellsRead, TellsWrite, with_fault, after_read, after_write};

use crate::ports::{Got, Put};
use std::io;
use std::io::{ErrorKind, Read, Write};

/// How often a read or a write is done at most, where signals cut it short again and again.
pub const TRIES: u32 = 1_000;

/// What the system answered to a read or a write.
#[derive(Clone, Copy, Debug, PartialEq, Eq)]
pub(crate) enum SystemAnswer {
    /// So many bytes were read or taken.
    Count(usize),
    /// A signal cut the call short, before it did anything.
    Cut,
    /// It failed, and did nothing.
    Failed,
}

pub(crate) fn answer_of(called: io::Result<usize>) -> SystemAnswer
    ensures { IsAnswer called result }
{
    match called {
        Ok(n) => SystemAnswer::Count(n),
        Err(fault) => {
            if fault.kind() == ErrorKind::Interrupted {
                SystemAnswer::Cut
            } else {
                SystemAnswer::Failed
            }
        }
    }
}

/// What a read is told as where so many tries are left; None where it is to be done again.
pub(crate) fn got_of(answer: SystemAnswer, left: u32) -> Option<Got>
    ensures { result ≡ got_by answer left }
{
    match answer {
        SystemAnswer::Count(0) => Some(Got::End),
        SystemAnswer::Count(n) => Some(Got::Bytes(n)),
        SystemAnswer::Cut if left > 0 => None,
        SystemAnswer::Cut | SystemAnswer::Failed => Some(Got::Failed),
    }
}

/// What a write is told as where so many tries are left; None where it is to be done again. One that takes nothing has failed.
pub(crate) fn put_of(answer: SystemAnswer, left: u32) -> Option<Put>
    ensures { result ≡ put_by answer left }
{
    match answer {
        SystemAnswer::Count(0) => Some(Put::Failed),
        SystemAnswer::Count(n) => Some(Put::Took(n)),
        SystemAnswer::Cut if 0 < left => None,
        SystemAnswer::Cut | SystemAnswer::Failed => Some(Put::Failed),
    }
}

/// Reads at least one byte into the front of the buffer, if there is one.
pub(crate) fn read_from<R: Read>(input: &mut R, into: &mut [u8]) -> Got
    requires { 0 < length into.old }
    ensures { TellsRead (R.remaining input.old) (R.remaining input.new) into.new result }
{
    for left in (0..TRIES).rev() {
        if let Some(got) = got_of(answer_of(input.read(into)), left) {
            return got;
        }
    }
    Got::Failed
}

/// Writes at least one byte of the piece's front. It takes no memory.
pub(crate) fn write_to<W: Write>(output: &mut W, piece: &[u8]) -> Put
    requires { 0 < length piece.now }
    ensures { TellsWrite (W.contents output.old) (W.contents output.new) piece.now result }
{
    for left in (0..TRIES).rev() {
        if let Some(put) = put_of(answer_of(output.write(piece)), left) {
            return put;
        }
    }
    Put::Failed
}

/// What a form over the system tells of itself: how many of its reads and writes have failed, which stands still at the greatest
/// u64; and whether a read has answered that nothing is left.
#[derive(Clone, Copy, Debug, PartialEq, Eq)]
pub(crate) struct Tally {
    /// Reads and writes that failed.
    pub(crate) faults: u64,
    /// Whether nothing is left to read.
    pub(crate) ended: bool,
}

impl Tally {
    pub(crate) fn new() -> Tally
        ensures faults { result.faults ≡ 0 }
        ensures ended { result.ended ≡ false }
    {
        Tally {
            faults: 0,
            ended: false,
        }
    }

    fn count_fault(&mut self)
        ensures value { self.new ≡ with_fault self.old }
        ensures later { self.old.faults ≤ self.new.faults }
    {
        self.faults = self.faults.saturating_add(1);
    }

    pub(crate) fn note_read(&mut self, got: Got)
        ensures value { self.new ≡ after_read self.old got }
        ensures later { self.old.faults ≤ self.new.faults }
    {
        match got {
            Got::Bytes(_) => {}
            Got::End => self.ended = true,
            Got::Failed => self.count_fault(),
        }
    }

    pub(crate) fn note_write(&mut self, put: Put)
        ensures value { self.new ≡ after_write self.old put }
        ensures later { self.old.faults ≤ self.new.faults }
    {
        match put {
            Put::Took(_) | Put::NoMemory => {}
            Put::Failed => self.count_fault(),
        }
    }
}
