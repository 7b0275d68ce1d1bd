//! Each command with right words and with wrong ones, whose output can't be written whole.

use crate::narrow::{Narrow, Tight};
use crate::tests::{Ends, failing, is, is_written, sink_of, source_of, words_of};
use std::alloc::Global;
use std::sync::Wait;
use std::test::*;
use std::thread::Threads;
use vic_cli::{run_client, run_drill, run_group, run_serve};
use vic_dict::{Bytes, NoMemory};
use vic_gate::OpenGate;
use vic_ports::{Calls, Lines, MemoryDoors, MemoryLink, MemorySink, Sink};
use vic_text::Status;

/// Which command is run.
#[derive(Clone, Copy, PartialEq, Eq)]
enum Runs {
    Group,
    Drill,
    Client,
    Serve,
}

/// A command, its words, the status that it ends with where its output can be written, and what is written then.
type Row = (Runs, &'static str, Status, &'static [u8]);

const USAGE: &[u8] =
    b"usage: vicos group | drill NUMBER CLIENTS CALLS | client ADDRESS ID COUNT KEY MODE | serve ADDRESS COUNT MODE CONNECTIONS\n";

const SUMMARY: &[u8] =
    b"clients 1\ncalls 1\ndone 1\naborted 0\nrefused 0\nsealed 1\npairs 1\nweight 22\n";

const SERVED: &[u8] =
    b"connections 1\nordered 0\nsealed 0\nchanges 2\nlink faults 0\nbad frames 0\nno memory 0\n";

const ROWS: [Row; 8] = [
    (Runs::Group, "group", Status::Ok, b"view 1\ntags made\n"),
    (Runs::Drill, "drill 7 1 1", Status::Ok, SUMMARY),
    (
        Runs::Client,
        "client h:1 1 1 0b plain",
        Status::Ok,
        b"bye\n",
    ),
    (Runs::Serve, "serve h:1 1 plain 1", Status::Ok, SERVED),
    (Runs::Group, "group clients", Status::Usage, USAGE),
    (Runs::Drill, "drill 7 1", Status::Usage, USAGE),
    (
        Runs::Client,
        "client h:1 2 1 0b plain",
        Status::Usage,
        USAGE,
    ),
    (Runs::Serve, "serve h:1 1 plain 0", Status::Usage, USAGE),
];

/// A client without a line, over a link that gives Hi and Gone.
fn client<K: Sink>(alloc: Global, words: &[String], sink: &mut K) -> Result<Status, NoMemory> {
    let mut source = source_of(alloc, b"", 0)?;
    let given = Bytes::of(alloc, b"\0\0\0\x01\x41\0\0\0\x01\x49")?;
    let mut link = MemoryLink::new(alloc, given, Calls::new(alloc));
    Ok(run_client(alloc, words, &mut source, &mut link, sink))
}

/// A server with one connection, on which client 1 comes in and leaves.
fn serve<K: Sink, R: Threads + Wait + Sync>(
    rt: &R,
    alloc: Global,
    words: &[String],
    sink: &mut K,
) -> Result<Status, NoMemory> {
    let given = Bytes::of(alloc, b"\0\0\0\x04\x21\x01\0\x01\0\0\0\x01\x29")?;
    let mut lines = Lines::new(alloc);
    lines.push(MemoryLink::new(alloc, given, Calls::new(alloc)))?;
    let mut doors = MemoryDoors::new(alloc, lines, Calls::new(alloc))?;
    let mut kept = None;
    Ok(run_serve(rt, alloc, words, &mut doors, &OpenGate, sink, &mut kept))
}

/// Runs the command of a row.
fn run<K: Sink, R: Threads + Wait + Sync>(
    rt: &R,
    alloc: Global,
    row: &Row,
    sink: &mut K,
) -> Result<Status, NoMemory> {
    let words = words_of(alloc, row.1)?;
    match row.0 {
        Runs::Group => {
            let mut source = source_of(alloc, b"clients 1\n", 0)?;
            Ok(run_group(alloc, words.as_slice(), &mut source, sink))
        }
        Runs::Drill => Ok(run_drill(alloc, words.as_slice(), sink)),
        Runs::Client => client(alloc, words.as_slice(), sink),
        Runs::Serve => serve(rt, alloc, words.as_slice(), sink),
    }
}

/// How it ends where write `call` of its output fails; each takes one byte.
fn failing_at<R: Threads + Wait + Sync>(
    rt: &R,
    alloc: Global,
    row: &Row,
    call: u64,
) -> Result<Ends, NoMemory> {
    let mut sink = sink_of(alloc, call)?;
    let status = run(rt, alloc, row, &mut sink)?;
    Ok((status, sink.inner.held().copy(alloc)?))
}

/// How it ends where its output finds memory for so many bytes.
fn held_in<R: Threads + Wait + Sync>(
    rt: &R,
    alloc: Global,
    row: &Row,
    room: usize,
) -> Result<Ends, NoMemory> {
    let inner = MemorySink::new(alloc, Calls::new(alloc));
    let mut sink = Tight { inner, room };
    let status = run(rt, alloc, row, &mut sink)?;
    Ok((status, sink.inner.held().copy(alloc)?))
}

/// Whether it ended as writing a text does whose output finds memory for so many bytes: with status 6 behind them, where there are
/// more.
fn is_held(ends: &Ends, status: Status, text: &[u8], room: usize) -> bool {
    if room < text.len() {
        is(ends, Status::NoMemory, &text[..room])
    } else {
        is(ends, status, text)
    }
}

// A write that fails, which is the first, the second, the last, or one behind that.
#[test]
fn writes_fail(rt: HostRuntime) -> Result<(), Fail> {
    for row in &ROWS {
        let (_, words, status, text) = *row;
        for call in [1, 2, text.len(), text.len() + 1] {
            let ends = failing_at(&rt, rt.alloc(), row, call as u64)?;
            assert!(rt;
                is_written(&ends, status, text, call),
                "{words}, write {call}"
            );
        }
    }
    Ok(())
}

// Memory for no byte, for one, for all but one, and for all.
#[test]
fn no_memory_is_found(rt: HostRuntime) -> Result<(), Fail> {
    for row in &ROWS {
        let (_, words, status, text) = *row;
        for room in [0, 1, text.len() - 1, text.len()] {
            let ends = held_in(&rt, rt.alloc(), row, room)?;
            assert!(rt; is_held(&ends, status, text, room), "{words}, {room} bytes");
        }
    }
    Ok(())
}
