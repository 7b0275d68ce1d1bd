//! The commands on a script and of a drill: one read or one write of theirs fails.

use crate::narrow::{Narrow, Tight};
use std::alloc::Global;
use std::test::*;
use vic_cli::{run_drill, run_group};
use vic_dict::{Bytes, NoMemory};
use vic_ports::{Calls, MemorySink, MemorySource};
use vic_text::Status;

/// A status, and what was written.
pub type Ends = (Status, Bytes);

/// The words of a command line, as a text with a space between them.
pub fn words_of(alloc: Global, text: &str) -> Result<Vec<String>, NoMemory> {
    let mut words = Vec::new(alloc);
    for word in text.split(' ') {
        words.push(word.to_string(alloc)?)?;
    }
    Ok(words)
}

/// The call with this number is to fail, or none for 0.
pub fn failing(alloc: Global, call: u64) -> Result<Calls, NoMemory> {
    let mut calls = Calls::new(alloc);
    if call > 0 {
        calls.push(call)?;
    }
    Ok(calls)
}

/// A source that gives one byte at a read, of which this one fails.
pub fn source_of(
    alloc: Global,
    script: &[u8],
    call: u64,
) -> Result<Narrow<MemorySource>, NoMemory> {
    let script = Bytes::of(alloc, script)?;
    let inner = MemorySource::new(script, failing(alloc, call)?);
    Ok(Narrow { inner })
}

/// A sink that takes one byte at a write, of which this one fails.
pub fn sink_of(alloc: Global, call: u64) -> Result<Narrow<MemorySink>, NoMemory> {
    let inner = MemorySink::new(alloc, failing(alloc, call)?);
    Ok(Narrow { inner })
}

/// Whether it ended with this status, and this was written.
pub fn is(ends: &Ends, status: Status, text: &[u8]) -> bool {
    ends.0 == status && ends.1.as_slice() == text
}

/// Whether it ended as writing a text does, one byte at a time, whose write `call` fails: with status 4 behind the bytes before, where
/// there are so many writes.
pub fn is_written(ends: &Ends, status: Status, text: &[u8], call: usize) -> bool {
    if 1 <= call && call <= text.len() {
        is(ends, Status::WriteFault, &text[..call - 1])
    } else {
        is(ends, status, text)
    }
}

const SCRIPT: &[u8] = b"clients 1\n";

const VIEWS: &[u8] = b"view 1\ntags made\n";

fn group(alloc: Global, script: &[u8], read: u64, write: u64) -> Result<Ends, NoMemory> {
    let words = words_of(alloc, "group")?;
    let mut source = source_of(alloc, script, read)?;
    let mut sink = sink_of(alloc, write)?;
    let status = run_group(alloc, words.as_slice(), &mut source, &mut sink);
    Ok((status, sink.inner.held().copy(alloc)?))
}

// The script has ten bytes, and the read behind them finds its end.
#[test]
fn reads_of_a_script(rt: HostRuntime) -> Result<(), Fail> {
    for call in 1..21 {
        let ends = group(rt.alloc(), SCRIPT, call, 0)?;
        let right = if call <= 11 {
            is(&ends, Status::ReadFault, b"read fault\n")
        } else {
            is(&ends, Status::Ok, VIEWS)
        };
        assert!(rt; right, "read {call}");
    }
    Ok(())
}

// Scripts that are done, that have a bad line, and that can't be read.
#[test]
fn writes_of_a_script(rt: HostRuntime) -> Result<(), Fail> {
    let rows = [
        (SCRIPT, 0, Status::Ok, VIEWS),
        (
            b"poll 1".as_slice(),
            0,
            Status::BadLine,
            b"line 1: not a line of this script\n".as_slice(),
        ),
        (SCRIPT, 3, Status::ReadFault, b"read fault\n".as_slice()),
    ];
    for (script, read, status, text) in rows {
        for call in 1..21 {
            let ends = group(rt.alloc(), script, read, call as u64)?;
            assert!(rt; is_written(&ends, status, text, call), "write {call}");
        }
    }
    Ok(())
}

fn group_into(alloc: Global, room: usize) -> Result<Ends, NoMemory> {
    let words = words_of(alloc, "group")?;
    let mut source = source_of(alloc, SCRIPT, 0)?;
    let inner = MemorySink::new(alloc, Calls::new(alloc));
    let mut sink = Tight { inner, room };
    let status = run_group(alloc, words.as_slice(), &mut source, &mut sink);
    Ok((status, sink.inner.held().copy(alloc)?))
}

// A sink that finds no memory holds what it took before.
#[test]
fn a_full_sink(rt: HostRuntime) -> Result<(), Fail> {
    for room in 0..VIEWS.len() {
        let ends = group_into(rt.alloc(), room)?;
        assert!(rt; is(&ends, Status::NoMemory, &VIEWS[..room]), "{room} bytes");
    }
    let ends = group_into(rt.alloc(), VIEWS.len())?;
    assert!(rt; is(&ends, Status::Ok, VIEWS));
    Ok(())
}

const SUMMARY: &[u8] =
    b"clients 1\ncalls 1\ndone 1\naborted 0\nrefused 0\nsealed 1\npairs 1\nweight 22\n";

fn drill(alloc: Global, write: u64) -> Result<Ends, NoMemory> {
    let words = words_of(alloc, "drill 7 1 1")?;
    let mut sink = sink_of(alloc, write)?;
    let status = run_drill(alloc, words.as_slice(), &mut sink);
    Ok((status, sink.inner.held().copy(alloc)?))
}

// The last two are the last write, and one behind it.
#[test]
fn writes_of_a_drill(rt: HostRuntime) -> Result<(), Fail> {
    for call in (1..21).chain(SUMMARY.len()..SUMMARY.len() + 2) {
        let ends = drill(rt.alloc(), call as u64)?;
        assert!(rt;
            is_written(&ends, Status::Ok, SUMMARY, call),
            "write {call}"
        );
    }
    Ok(())
}
