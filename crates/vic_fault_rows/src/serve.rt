//! The command of a server: one accept, one call of a connection, or one write of the output fails.

use crate::tests::{Ends, failing, is, is_written, sink_of, words_of};
use std::alloc::Global;
use std::sync::Wait;
use std::test::*;
use std::thread::Threads;
use vic_cli::run_serve;
use vic_dict::{Bytes, NoMemory};
use vic_gate::OpenGate;
use vic_ports::{Lines, MemoryDoors, MemoryLink};
use vic_text::Status;

/// What a client that comes in and leaves is sent.
const HI_AND_GONE: &[u8] = b"\0\0\0\x01\x41\0\0\0\x01\x49";

/// Lines that give these bytes; the call of the first one with this number fails.
fn lines_of(alloc: Global, lines: &[&[u8]], call: u64) -> Result<Lines, NoMemory> {
    let mut links = Lines::new(alloc);
    let mut call = call;
    for bytes in lines {
        let given = Bytes::of(alloc, bytes)?;
        links.push(MemoryLink::new(alloc, given, failing(alloc, call)?))?;
        call = 0;
    }
    Ok(links)
}

/// How a command ends whose doors have these lines, of which an accept fails, or a call of the first one, or a write of the output; and
/// the doors.
fn serve<R: Threads + Wait + Sync>(
    rt: &R,
    alloc: Global,
    words: &str,
    lines: &[&[u8]],
    fails: [u64; 3],
) -> Result<(Ends, MemoryDoors), NoMemory> {
    let words = words_of(alloc, words)?;
    let lines = lines_of(alloc, lines, fails[1])?;
    let mut doors = MemoryDoors::new(alloc, lines, failing(alloc, fails[0])?)?;
    let mut sink = sink_of(alloc, fails[2])?;
    let mut kept = None;
    let status = run_serve(
        rt,
        alloc,
        words.as_slice(),
        &mut doors,
        &OpenGate,
        &mut sink,
        &mut kept,
    );
    Ok(((status, sink.inner.held().copy(alloc)?), doors))
}

/// Whether so many lines went back, with this written on each.
fn have_all(doors: &MemoryDoors, count: usize, text: &[u8]) -> bool {
    let back = doors.returned();
    for place in 0..back.len() {
        if back.at(place).written().as_slice() != text {
            return false;
        }
    }
    back.len() == count
}

/// Somebody who hasn't come in asks for a turn.
const ASKS: &[u8] = b"\0\0\0\x01\x24";

/// What is sent to whoever hasn't come in: Refused 6.
const REFUSED: &[u8] = b"\0\0\0\x02\x46\x06";

const FOUR: &[u8] =
    b"connections 4\nordered 0\nsealed 0\nchanges 0\nlink faults 0\nbad frames 0\nno memory 0\n";

// Four lines are wanted. Those that came before the accept that fails go back unread.
#[test]
fn accepts(rt: HostRuntime) -> Result<(), Fail> {
    for accept in 1..21 {
        let fails = [accept, 0, 0];
        let (ends, doors) = serve(&rt, rt.alloc(), "serve h:1 1 plain 4", &[ASKS; 4], fails)?;
        let right = if accept <= 4 {
            is(&ends, Status::LinkFault, b"link fault\n")
                && have_all(&doors, accept as usize - 1, b"")
        } else {
            is(&ends, Status::Ok, FOUR) && have_all(&doors, 4, REFUSED)
        };
        assert!(rt; right, "accept {accept}");
    }
    Ok(())
}

// The last two are the last write, and one behind it.
#[test]
fn writes(rt: HostRuntime) -> Result<(), Fail> {
    for write in (1..21).chain(FOUR.len()..FOUR.len() + 2) {
        let fails = [0, 0, write as u64];
        let (ends, doors) = serve(&rt, rt.alloc(), "serve h:1 1 plain 4", &[ASKS; 4], fails)?;
        assert!(rt;
            is_written(&ends, Status::Ok, FOUR, write) && have_all(&doors, 4, REFUSED),
            "write {write}"
        );
    }
    Ok(())
}

/// A client comes in, polls fourteen times and leaves.
fn long_talk(alloc: Global) -> Result<Bytes, NoMemory> {
    let mut bytes = Bytes::of(alloc, b"\0\0\0\x04\x21\x01\0\x01")?;
    for _ in 0..14 {
        bytes.append(b"\0\0\0\x01\x24")?;
    }
    bytes.append(b"\0\0\0\x01\x29")?;
    Ok(bytes)
}

// What is printed where call `call` of the only connection fails, and how much is written on it before. All requests are read at once,
// and each is answered by one write of five bytes. The client has come in before Hi is written, and has left before Gone is.
fn told_at(call: usize) -> (&'static [u8], usize) {
    match call {
        1 => (
            b"connections 1\nordered 0\nsealed 0\nchanges 0\nlink faults 1\nbad frames 0\nno memory 0\n",
            0,
        ),
        2..=16 => (
            b"connections 1\nordered 0\nsealed 0\nchanges 1\nlink faults 1\nbad frames 0\nno memory 0\n",
            5 * (call - 2),
        ),
        17..=18 => (
            b"connections 1\nordered 0\nsealed 0\nchanges 2\nlink faults 1\nbad frames 0\nno memory 0\n",
            5 * (call - 2),
        ),
        _ => (
            b"connections 1\nordered 0\nsealed 0\nchanges 2\nlink faults 0\nbad frames 0\nno memory 0\n",
            80,
        ),
    }
}

// A fault of a connection is counted, and the command ends well.
#[test]
fn calls_of_a_connection(rt: HostRuntime) -> Result<(), Fail> {
    let talk = long_talk(rt.alloc())?;
    for call in 1..21 {
        let fails = [0, call as u64, 0];
        let (ends, doors) = serve(
            &rt,
            rt.alloc(),
            "serve h:1 1 plain 1",
            &[talk.as_slice()],
            fails,
        )?;
        let (text, size) = told_at(call);
        assert!(rt; is(&ends, Status::Ok, text), "call {call}");
        assert!(rt; doors.returned().len() == 1, "call {call}");
        assert_eq!(rt; doors.returned().at(0).written().len(), size, "call {call}");
    }
    Ok(())
}

// A connection that is cut off inside a frame, and one of client 2, which comes in and leaves.
#[test]
fn one_of_two_is_cut_off(rt: HostRuntime) -> Result<(), Fail> {
    let other = b"\0\0\0\x04\x21\x01\0\x02\0\0\0\x01\x29".as_slice();
    let lines = [b"\0\0\0".as_slice(), other];
    let (ends, doors) = serve(&rt, rt.alloc(), "serve h:1 2 plain 2", &lines, [0; 3])?;
    let text =
        b"connections 2\nordered 0\nsealed 0\nchanges 2\nlink faults 1\nbad frames 0\nno memory 0\n";
    assert!(rt; is(&ends, Status::Ok, text));
    let back = doors.returned();
    assert!(rt; back.len() == 2);
    assert!(rt; back.at(0).written().is_empty());
    assert_eq!(rt; back.at(1).written().as_slice(), HI_AND_GONE);
    Ok(())
}
