//! The forms over the system: a source and a sink over a stream that answers as it is told, and links and doors over the loopback
//! address.

ghost use Rattle.std.specs.Prelude.{◌≤◌, IfOk};

use crate::answers::TRIES;
use crate::doors::{Came, Doors};
use crate::link::Link;
use crate::ports::{Got, Put, Sink, Source};
use crate::system::{ReadSource, WriteSink};
use crate::tcp::{TcpDoors, TcpLine};
use std::io;
use std::io::{ErrorKind, Read, Write};
use std::test::*;

/// What a stream answers once no signal cuts its calls short any more.
#[derive(Clone, Copy)]
enum Then {
    /// Two bytes, or as many as there is room for.
    Two,
    Nothing,
    Fails,
}

/// A stream whose first calls, so many, are cut short by signals.
#[derive(Drop)]
struct Stream {
    cut: u32,
    then: Then,
}

impl Stream {
    fn answer(&mut self, most: usize) -> io::Result<usize>
        ensures { IfOk result (λ n. n ≤ most) }
    {
        if self.cut > 0 {
            self.cut -= 1;
            return Err(ErrorKind::Interrupted.into());
        }
        match self.then {
            Then::Two => Ok(most.min(2)),
            Then::Nothing => Ok(0),
            Then::Fails => Err(ErrorKind::BrokenPipe.into()),
        }
    }
}

impl Read for Stream {
    fn read(&mut self, buf: &mut [u8]) -> io::Result<usize> {
        self.answer(buf.len())
    }
}

impl Write for Stream {
    fn write(&mut self, buf: &[u8]) -> io::Result<usize> {
        self.answer(buf.len())
    }

    fn flush(&mut self) -> io::Result<()> {
        Ok(())
    }
}

/// How often a call is cut short, what comes then, and what the call is told as.
type Row<T> = (u32, Then, T);

const READS: [Row<Got>; 6] = [
    (0, Then::Two, Got::Bytes(2)),
    (0, Then::Nothing, Got::End),
    (0, Then::Fails, Got::Failed),
    (TRIES - 1, Then::Two, Got::Bytes(2)),
    (TRIES - 1, Then::Nothing, Got::End),
    (TRIES, Then::Two, Got::Failed),
];

const WRITES: [Row<Put>; 6] = [
    (0, Then::Two, Put::Took(2)),
    (0, Then::Nothing, Put::Failed),
    (0, Then::Fails, Put::Failed),
    (TRIES - 1, Then::Two, Put::Took(2)),
    (TRIES - 1, Then::Fails, Put::Failed),
    (TRIES, Then::Two, Put::Failed),
];

#[test]
fn reads_as_answered(rt: HostRuntime) -> Result<(), Fail> {
    let mut into = [0u8; 8];
    for (cut, then, want) in READS {
        let mut source = ReadSource::new(Stream { cut, then });
        assert_eq!(rt; source.read(&mut into), want, "{cut}");
        assert_eq!(rt;
            source.tally.faults,
            u64::from(want == Got::Failed),
            "{cut}"
        );
        assert_eq!(rt; source.tally.ended, want == Got::End, "{cut}");
    }
    Ok(())
}

#[test]
fn writes_as_answered(rt: HostRuntime) -> Result<(), Fail> {
    for (cut, then, want) in WRITES {
        let mut sink = WriteSink::new(Stream { cut, then });
        assert_eq!(rt; sink.write(b"abc"), want, "{cut}");
        assert_eq!(rt; sink.tally.faults, u64::from(want == Put::Failed), "{cut}");
    }
    Ok(())
}

/// Whether one of the next thousand writes fails. A write to an end that is gone is told as a fault, and no signal ends the program.
fn fails_in_the_end(line: &mut TcpLine) -> bool {
    for _ in 0..1000 {
        if line.write(b"abc") == Put::Failed {
            return true;
        }
    }
    false
}

#[test]
fn loops_back(rt: HostRuntime) -> Result<(), Fail> {
    let mut doors = TcpDoors::open(&rt, "127.0.0.1:0");
    let address = doors.address(rt.alloc()).ok_or("address")?;
    let mut there = TcpLine::open(&rt, address.as_str());
    let Came::Line(mut here) = doors.accept() else {
        panic!(rt; "no line");
    };
    assert_eq!(rt; there.write(b"abc"), Put::Took(3));
    let mut into = [0u8; 8];
    assert_eq!(rt; here.read(&mut into), Got::Bytes(3));
    assert_eq!(rt; &into[..3], b"abc".as_slice());
    doors.back(here);
    assert_eq!(rt; there.read(&mut into), Got::End);
    assert!(rt; fails_in_the_end(&mut there));
    Ok(())
}

#[test]
fn fails_where_nothing_listens(rt: HostRuntime) -> Result<(), Fail> {
    let mut line = TcpLine::open(&rt, "");
    let mut into = [0u8; 8];
    assert_eq!(rt; line.read(&mut into), Got::Failed);
    assert_eq!(rt; line.write(b"abc"), Put::Failed);
    let mut doors = TcpDoors::open(&rt, "");
    assert!(rt; matches!(doors.accept(), Came::Failed));
    Ok(())
}
