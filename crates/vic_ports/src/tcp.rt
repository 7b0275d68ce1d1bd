//! A link and doors over TCP. They tell no content; their counts of faults are their own.

ghost use Rattle.std.specs.Prelude.{◌≡◌, ◌≢◌, ◌≤◌, ◌<◌, length, None, false};
ghost use Rattle.vic_ports.specs.Answers.{after_read, after_write};
ghost use Rattle.vic_ports.specs.Links.{LinkReads, LinkWrites};
ghost use Rattle.vic_ports.specs.Lines.{told_of_tally};

use crate::answers::{TRIES, Tally, read_from, write_to};
use crate::doors::{Came, Doors};
use crate::link::Link;
use crate::ports::{Got, Put};
use std::alloc::Global;
use std::io::ErrorKind;
use std::net::{Net, TcpListener, TcpStream};

/// One end of a TCP connection; none where it couldn't be opened, and then every call fails.
#[derive(Drop)]
pub struct TcpLine {
    /// None where it couldn't be opened.
    stream: Option<TcpStream>,
    /// Its faults, and its end.
    tally: Tally,
}

impl TcpLine {
    /// Connects to an address, `HOST:PORT`. A failed opening shows at the first call.
    pub fn open<R: Net<Listener = TcpListener, Stream = TcpStream>>(
        rt: &R,
        address: &str,
    ) -> TcpLine
        ensures faults { result.tally.faults ≡ 0 }
        ensures ended { result.tally.ended ≡ false }
    {
        TcpLine::over(TcpStream::connect(rt, address).ok())
    }

    fn over(stream: Option<TcpStream>) -> TcpLine
        ensures faults { result.tally.faults ≡ 0 }
        ensures ended { result.tally.ended ≡ false }
    {
        if let Some(open) = &stream {
            // Answers are small and awaited; where the system doesn't know the option, they are only later.
            let _ = open.set_nodelay(true);
        }
        TcpLine {
            stream,
            tally: Tally::new(),
        }
    }
}

impl Link for TcpLine {
    ghost told = { λ l. told_of_tally l.tally };

    fn read(&mut self, into: &mut [u8]) -> Got
        requires { 0 < length into.old }
        ensures given { LinkReads into.new (told_of_tally self.old.tally) (told_of_tally self.new.tally) result }
        ensures later { self.old.tally.faults ≤ self.new.tally.faults }
        ensures noted { self.new.tally ≡ after_read self.old.tally result }
        ensures unopened { self.old.stream ≡ None → result ≡ Got.Failed }
    {
        let got = match &mut self.stream {
            Some(stream) => read_from(stream, into),
            None => Got::Failed,
        };
        self.tally.note_read(got);
        got
    }

    fn write(&mut self, piece: &[u8]) -> Put
        requires { 0 < length piece.now }
        ensures given { LinkWrites piece.now (told_of_tally self.old.tally) (told_of_tally self.new.tally) result }
        ensures later { self.old.tally.faults ≤ self.new.tally.faults }
        ensures noted { self.new.tally ≡ after_write self.old.tally result }
        ensures unopened { self.old.stream ≡ None → result ≡ Put.Failed }
        ensures works { result ≢ Put.NoMemory }
    {
        let put = match &mut self.stream {
            Some(stream) => write_to(stream, piece),
            None => Put::Failed,
        };
        self.tally.note_write(put);
        put
    }
}

/// A TCP port that takes connections; none where it couldn't be opened, and then every accept fails. A connection that is closed
/// before it is taken is no line, and the next one is waited for, at most [`TRIES`] times. Connections that are never taken stay open
/// at their other end.
#[derive(Drop)]
pub struct TcpDoors {
    /// None where the port couldn't be opened.
    listener: Option<TcpListener>,
    /// How many accepts failed.
    faults: u64,
}

impl TcpDoors {
    /// Takes connections at an address, `HOST:PORT`. A failed opening shows at the first accept.
    pub fn open<R: Net<Listener = TcpListener, Stream = TcpStream>>(
        rt: &R,
        address: &str,
    ) -> TcpDoors
        ensures { result.faults ≡ 0 }
    {
        TcpDoors {
            listener: TcpListener::bind(rt, address).ok(),
            faults: 0,
        }
    }
}

/// The next connection, but for those that were closed before they were taken.
fn next_stream(listener: &TcpListener) -> Option<TcpStream> {
    for _ in 0..TRIES {
        match listener.accept() {
            Ok((stream, _)) => return Some(stream),
            Err(fault) => {
                if fault.kind() != ErrorKind::ConnectionAborted {
                    return None;
                }
            }
        }
    }
    None
}

#[cfg(test)]
impl TcpDoors {
    /// The address, as text.
    pub(crate) fn address(&self, alloc: Global) -> Option<String> {
        match &self.listener {
            Some(listener) => match listener.local_addr() {
                Ok(address) => address.to_string(alloc).ok(),
                Err(_) => None,
            },
            None => None,
        }
    }
}

impl Doors for TcpDoors {
    type Line = TcpLine;

    ghost lines = { λ _. None };

    ghost faults = { λ d. d.faults };

    fn accept(&mut self) -> Came<TcpLine> {
        let taken = match &self.listener {
            Some(listener) => next_stream(listener),
            None => None,
        };
        match taken {
            Some(stream) => Came::Line(TcpLine::over(Some(stream))),
            None => {
                self.faults = self.faults.saturating_add(1);
                Came::Failed
            }
        }
    }

    // The connection is closed where the line is let go.
    fn back(&mut self, line: TcpLine) {
        let _closed = line;
    }
}
