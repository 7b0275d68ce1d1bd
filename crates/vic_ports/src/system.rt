//! The source and the sink over a reader and a writer of std, as standard input and output. They tell no content by their traits;
//! their own clauses say that no byte is lost, where the reader's or the writer's bytes are known.

ghost use Rattle.std.specs.Prelude.{◌≡◌, ◌≤◌, ◌<◌, length, false, None};
ghost use Rattle.vic_ports.specs.Causes.{ReadGives, WriteGives};
ghost use Rattle.vic_ports.specs.Answers.{TellsRead, TellsWrite, after_read, after_write};

use crate::answers::{Tally, read_from, write_to};
use crate::ports::{Got, Put, Sink, Source};
use std::io::{Read, Stdin, Stdout, Write};

/// A source over a reader.
#[derive(Drop)]
pub struct ReadSource<R> {
    /// What is read from.
    input: R,
    /// Its faults, and its end.
    pub(crate) tally: Tally,
}

/// Standard input.
pub type StdSource = ReadSource<Stdin>;

impl<R: Read> ReadSource<R> {
    /// A source that hasn't ended, and at which no read has failed.
    pub fn new(input: R) -> ReadSource<R>
        ensures input { result.input ≡ input }
        ensures faults { result.tally.faults ≡ 0 }
        ensures ended { result.tally.ended ≡ false }
    {
        ReadSource {
            input,
            tally: Tally::new(),
        }
    }
}

impl<R: Read> Source for ReadSource<R> {
    ghost left = { λ _. None };

    ghost faults = { λ s. s.tally.faults };

    ghost ended = { λ s. s.tally.ended };

    fn read(&mut self, into: &mut [u8]) -> Got
        requires { 0 < length into.old }
        ensures given { ReadGives into.new None None self.old.tally.faults self.new.tally.faults self.old.tally.ended self.new.tally.ended result }
        ensures later { self.old.tally.faults ≤ self.new.tally.faults }
        ensures bytes { TellsRead (R.remaining self.old.input) (R.remaining self.new.input) into.new result }
        ensures noted { self.new.tally ≡ after_read self.old.tally result }
    {
        let got = read_from(&mut self.input, into);
        self.tally.note_read(got);
        got
    }
}

/// A sink over a writer.
#[derive(Drop)]
pub struct WriteSink<W> {
    /// What is written to.
    output: W,
    /// Its faults.
    pub(crate) tally: Tally,
}

/// Standard output.
pub type StdSink = WriteSink<Stdout>;

impl<W: Write> WriteSink<W> {
    /// A sink at which no write has failed.
    pub fn new(output: W) -> WriteSink<W>
        ensures output { result.output ≡ output }
        ensures faults { result.tally.faults ≡ 0 }
    {
        WriteSink {
            output,
            tally: Tally::new(),
        }
    }
}

impl<W: Write> Sink for WriteSink<W> {
    ghost held = { λ _. None };

    ghost faults = { λ s. s.tally.faults };

    // It takes no memory, so it never answers that there is none.
    fn write(&mut self, piece: &[u8]) -> Put
        requires { 0 < length piece.now }
        ensures given { WriteGives piece.now None None self.old.tally.faults self.new.tally.faults result }
        ensures later { self.old.tally.faults ≤ self.new.tally.faults }
        ensures bytes { TellsWrite (W.contents self.old.output) (W.contents self.new.output) piece.now result }
        ensures noted { self.new.tally ≡ after_write self.old.tally result }
    {
        let put = write_to(&mut self.output, piece);
        self.tally.note_write(put);
        put
    }
}
