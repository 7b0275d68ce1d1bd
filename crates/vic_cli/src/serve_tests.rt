//! The command of a server over lines in memory: its status, what it prints and sends, and whether it keeps the server.

use crate::serve::run_serve;
use std::alloc::Global;
use std::sync::Wait;
use std::sync::atomic::{AtomicU64, Ordering};
use std::test::*;
use std::thread;
use std::thread::Threads;
use vic_dict::{Bytes, NoMemory};
use vic_gate::{Gate, OpenGate};
use vic_ports::{Calls, Lines, MemoryDoors, MemoryLink, MemorySink};
use vic_text::Status;

/// A client comes in and leaves.
const COMES_AND_LEAVES: &[u8] = b"\0\0\0\x04\x21\x01\0\x01\0\0\0\x01\x29";

/// What it is sent: Hi, and Gone.
const HI_AND_GONE: &[u8] = b"\0\0\0\x01\x41\0\0\0\x01\x49";

/// A client of a group with objects comes in, has a content kept and asks for it, and leaves.
const KEEPS_AND_FETCHES: &[u8] =
    b"\0\0\0\x04\x21\x01\x01\x01\0\0\0\x06\x27hello\0\0\0\x21\x28\x31\x4a\xb0\x41\xde\xca\x3c\xb4\x2b\xe7\x4b\xc9\x91\x13\x25\xb3\x90\x43\x64\x59\x0e\xb4\x60\x0b\x87\x5d\x64\x08\x9f\x69\xe0\x77\0\0\0\x01\x29";

/// What it is sent: Hi, Kept, the content, and Gone.
const KEPT_AND_CONTENT: &[u8] = b"\0\0\0\x01\x41\0\0\0\x01\x47\0\0\0\x06\x48hello\0\0\0\x01\x49";

/// Somebody who hasn't come in asks for a turn.
const ASKS: &[u8] = b"\0\0\0\x01\x24";

/// What is sent to whoever hasn't come in: Refused 6.
const REFUSED: &[u8] = b"\0\0\0\x02\x46\x06";

/// The words, what each line gives, the write of the sink that fails (0: none), the status, what is printed, and what is sent on
/// each line that goes back.
type Row = (
    &'static str,
    &'static [&'static [u8]],
    u64,
    Status,
    &'static [u8],
    &'static [&'static [u8]],
);

const ROWS: [Row; 17] = [
    // The server of a group with objects keeps a content, which is a change.
    (
        "serve h:1 1 objects 1",
        &[KEEPS_AND_FETCHES],
        0,
        Status::Ok,
        b"connections 1\nordered 0\nsealed 0\nchanges 3\nlink faults 0\nbad frames 0\nno memory 0\n",
        &[KEPT_AND_CONTENT],
    ),
    // A client of a group of the other kind doesn't come in.
    (
        "serve h:1 1 objects 1",
        &[COMES_AND_LEAVES],
        0,
        Status::Ok,
        b"connections 1\nordered 0\nsealed 0\nchanges 0\nlink faults 0\nbad frames 0\nno memory 0\n",
        &[b"\0\0\0\x02\x46\x06\0\0\0\x02\x46\x06"],
    ),
    (
        "serve h:1 1 plain 1",
        &[COMES_AND_LEAVES],
        0,
        Status::Ok,
        b"connections 1\nordered 0\nsealed 0\nchanges 2\nlink faults 0\nbad frames 0\nno memory 0\n",
        &[HI_AND_GONE],
    ),
    (
        "serve h:1 1 plain 1",
        &[ASKS],
        0,
        Status::Ok,
        b"connections 1\nordered 0\nsealed 0\nchanges 0\nlink faults 0\nbad frames 0\nno memory 0\n",
        &[REFUSED],
    ),
    // Nothing comes before the end.
    (
        "serve h:1 1 plain 1",
        &[b""],
        0,
        Status::Ok,
        b"connections 1\nordered 0\nsealed 0\nchanges 0\nlink faults 0\nbad frames 0\nno memory 0\n",
        &[b""],
    ),
    // Half of a length, and half of a payload.
    (
        "serve h:1 1 plain 1",
        &[b"\0\0\0"],
        0,
        Status::Ok,
        b"connections 1\nordered 0\nsealed 0\nchanges 0\nlink faults 1\nbad frames 0\nno memory 0\n",
        &[b""],
    ),
    (
        "serve h:1 1 plain 1",
        &[b"\0\0\0\x04\x21"],
        0,
        Status::Ok,
        b"connections 1\nordered 0\nsealed 0\nchanges 0\nlink faults 1\nbad frames 0\nno memory 0\n",
        &[b""],
    ),
    // A frame of no bytes, and one of 16,777,217.
    (
        "serve h:1 1 plain 1",
        &[b"\0\0\0\0"],
        0,
        Status::Ok,
        b"connections 1\nordered 0\nsealed 0\nchanges 0\nlink faults 0\nbad frames 1\nno memory 0\n",
        &[b""],
    ),
    (
        "serve h:1 1 plain 1",
        &[b"\x01\0\0\x01"],
        0,
        Status::Ok,
        b"connections 1\nordered 0\nsealed 0\nchanges 0\nlink faults 0\nbad frames 1\nno memory 0\n",
        &[b""],
    ),
    // A bad frame ends its own line alone.
    (
        "serve h:1 1 plain 2",
        &[b"\0\0\0\0", COMES_AND_LEAVES],
        0,
        Status::Ok,
        b"connections 2\nordered 0\nsealed 0\nchanges 2\nlink faults 0\nbad frames 1\nno memory 0\n",
        &[b"", HI_AND_GONE],
    ),
    // There is one line, and two are wanted.
    (
        "serve h:1 1 plain 2",
        &[ASKS],
        0,
        Status::LinkFault,
        b"link fault\n",
        &[b""],
    ),
    (
        "serve h:1 1 plain 1",
        &[ASKS],
        1,
        Status::WriteFault,
        b"",
        &[REFUSED],
    ),
    (
        "serve h:1 65 plain 1",
        &[ASKS],
        0,
        Status::Usage,
        USAGE,
        &[],
    ),
    ("serve h:1 1 plain 0", &[ASKS], 0, Status::Usage, USAGE, &[]),
    (
        "serve h:1 1 plain 01",
        &[ASKS],
        0,
        Status::Usage,
        USAGE,
        &[],
    ),
    ("serve h:1 1 plane 1", &[ASKS], 0, Status::Usage, USAGE, &[]),
    ("serve h:1 1 plain", &[ASKS], 0, Status::Usage, USAGE, &[]),
];

const USAGE: &[u8] =
    b"usage: vicos group | drill NUMBER CLIENTS CALLS | client ADDRESS ID COUNT KEY MODE | serve ADDRESS COUNT MODE CONNECTIONS\n";

pub(crate) fn words_of(alloc: Global, text: &str) -> Result<Vec<String>, NoMemory> {
    let mut words = Vec::new(alloc);
    for word in text.split(' ') {
        words.push(word.to_string(alloc)?)?;
    }
    Ok(words)
}

fn calls_of(alloc: Global, fails: u64) -> Result<Calls, NoMemory> {
    let mut calls = Calls::new(alloc);
    if fails > 0 {
        calls.push(fails)?;
    }
    Ok(calls)
}

fn doors_of(alloc: Global, lines: &[&[u8]]) -> Result<MemoryDoors, NoMemory> {
    let mut links = Lines::new(alloc);
    for bytes in lines {
        let given = Bytes::of(alloc, bytes)?;
        links.push(MemoryLink::new(alloc, given, Calls::new(alloc)))?;
    }
    MemoryDoors::new(alloc, links, Calls::new(alloc))
}

/// Whether a line went back at this place, with this text written on it.
fn is_sent(back: &Lines, place: usize, text: &[u8]) -> bool {
    place < back.len() && back.at(place).written().as_slice() == text
}

/// Whether the lines that went back are as many as these texts, each with its text written on it.
fn sent_so(doors: &MemoryDoors, texts: &[&[u8]]) -> bool {
    let back = doors.returned();
    for (place, text) in texts.iter().enumerate() {
        if !is_sent(back, place, text) {
            return false;
        }
    }
    back.len() == texts.len()
}

/// Whether the command goes so.
fn goes_so<R: Threads + Wait + Sync>(rt: &R, alloc: Global, row: &Row) -> Result<bool, NoMemory> {
    let words = words_of(alloc, row.0)?;
    let mut doors = doors_of(alloc, row.1)?;
    let mut sink = MemorySink::new(alloc, calls_of(alloc, row.2)?);
    let mut kept = None;
    let status = run_serve(
        rt,
        alloc,
        words.as_slice(),
        &mut doors,
        &OpenGate,
        &mut sink,
        &mut kept,
    );
    Ok(
        status == row.3
            && sink.held().as_slice() == row.4
            && sent_so(&doors, row.5)
            && kept.is_some() == (status == Status::Ok),
    )
}

#[test]
fn commands_go_so(rt: HostRuntime) -> Result<(), Fail> {
    for (place, row) in ROWS.iter().enumerate() {
        assert!(rt;
            goes_so(&rt, rt.alloc(), row).ok().ok_or("memory")?,
            "row {place}"
        );
    }
    Ok(())
}

/// Holds the first request of each of two connections until the other one has come to its own, or for so many looks.
#[derive(Drop)]
struct Meeting {
    entered: [AtomicU64; 2],
    left: AtomicU64,
    used_up: AtomicU64,
}

const LOOKS: u32 = 50_000_000;

impl Gate for Meeting {
    fn enter(&self, connection: u32) {
        let [one, two] = &self.entered;
        let (mine, other) = if connection == 1 {
            (one, two)
        } else {
            (two, one)
        };
        if mine.fetch_add(1, Ordering::SeqCst) > 0 {
            return;
        }
        for _ in 0..LOOKS {
            if other.load(Ordering::SeqCst) > 0 {
                return;
            }
            thread::yield_now();
        }
        self.used_up.fetch_add(1, Ordering::SeqCst);
    }

    fn leave(&self, _connection: u32) {
        self.left.fetch_add(1, Ordering::SeqCst);
    }
}

fn meets<R: Threads + Wait + Sync>(rt: &R, alloc: Global) -> Result<bool, NoMemory> {
    let meeting = Meeting {
        entered: [AtomicU64::new(0), AtomicU64::new(0)],
        left: AtomicU64::new(0),
        used_up: AtomicU64::new(0),
    };
    let words = words_of(alloc, "serve h:1 1 plain 2")?;
    let mut doors = doors_of(alloc, &[ASKS, ASKS])?;
    let mut sink = MemorySink::new(alloc, Calls::new(alloc));
    let mut kept = None;
    let status = run_serve(
        rt,
        alloc,
        words.as_slice(),
        &mut doors,
        &meeting,
        &mut sink,
        &mut kept,
    );
    let used_up = meeting.used_up.load(Ordering::SeqCst);
    Ok(status == Status::Ok && used_up == 0 && meeting.left.load(Ordering::SeqCst) == 2)
}

#[test]
fn connections_are_served_at_once(rt: HostRuntime) -> Result<(), Fail> {
    assert!(rt; meets(&rt, rt.alloc()).ok().ok_or("memory")?);
    Ok(())
}
