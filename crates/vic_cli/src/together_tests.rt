//! The two commands together: clients, each in a thread of its own, and the server that they share, over the loopback address.

use crate::serve_tests::words_of;
use crate::{run_client, run_serve};
use std::alloc::Global;
use std::net::{Net, TcpListener, TcpStream};
use std::sync::Wait;
use std::test::*;
use std::thread;
use std::thread::Threads;
use vic_dict::Bytes;
use vic_gate::OpenGate;
use vic_ports::{Calls, MemorySink, MemorySource, TcpDoors, TcpLine};
use vic_text::Status;

/// A client: its number, the words and the script of its command, what that prints, and how it ends, once it has.
#[derive(Drop)]
struct Caller {
    number: usize,
    words: Vec<String>,
    source: MemorySource,
    sink: MemorySink,
    status: Option<Status>,
}

/// An address whose port nobody had a moment ago.
fn free_address<R: Net<Listener = TcpListener, Stream = TcpStream>>(
    rt: &R,
    alloc: Global,
) -> Result<String, Fail> {
    let listener = TcpListener::bind(rt, "127.0.0.1:0").ok().ok_or("listener")?;
    let address = listener.local_addr().ok().ok_or("address")?;
    Ok(address.to_string(alloc)?)
}

/// Client `number` of eight, which puts a key of its own, gets it and settles.
fn caller_of(alloc: Global, address: &str, number: usize) -> Result<Caller, Fail> {
    let words = format!(in alloc; "client {address} {number} 8 0b plain")?;
    let script = format!(in alloc; "put k{number} v{number}\nget k{number}\nsettle 1000")?;
    let script = Bytes::of(alloc, script.as_bytes())?;
    Ok(Caller {
        number,
        words: words_of(alloc, words.as_str())?,
        source: MemorySource::new(script, Calls::new(alloc)),
        sink: MemorySink::new(alloc, Calls::new(alloc)),
        status: None,
    })
}

/// Client `number` of eight of a group with objects, which stores a content of its own, loads it and settles.
fn storer_of(alloc: Global, address: &str, number: usize) -> Result<Caller, Fail> {
    let words = format!(in alloc; "client {address} {number} 8 0b objects")?;
    let script = format!(in alloc;
        "store k{number} content-{number}\nload k{number}\nsettle 1000"
    )?;
    let script = Bytes::of(alloc, script.as_bytes())?;
    Ok(Caller {
        number,
        words: words_of(alloc, words.as_str())?,
        source: MemorySource::new(script, Calls::new(alloc)),
        sink: MemorySink::new(alloc, Calls::new(alloc)),
        status: None,
    })
}

/// The command of one client.
fn calls<R: Net<Listener = TcpListener, Stream = TcpStream>>(
    rt: &R,
    alloc: Global,
    address: &str,
    caller: &mut Caller,
) {
    let mut link = TcpLine::open(rt, address);
    let status = run_client(
        alloc,
        caller.words.as_slice(),
        &mut caller.source,
        &mut link,
        &mut caller.sink,
    );
    caller.status = Some(status);
}

/// The commands of all clients at once.
fn all_call<R: Threads + Sync + Net<Listener = TcpListener, Stream = TcpStream>>(
    rt: &R,
    alloc: Global,
    address: &str,
    callers: &mut [Caller],
) {
    thread::for_each_mut(
        rt,
        callers,
        8,
        &|_, caller: &mut Caller| { calls(rt, alloc, address, caller) },
    );
}

/// The command of the server.
fn serves<R: Threads + Wait + Sync>(
    rt: &R,
    alloc: Global,
    words: &[String],
    doors: &mut TcpDoors,
    sink: &mut MemorySink,
) -> Status {
    let mut kept = None;
    run_serve(rt, alloc, words, doors, &OpenGate, sink, &mut kept)
}

/// Whether a client's command ended well, with its own two calls done.
fn has_called(alloc: Global, caller: &Caller) -> Result<bool, Fail> {
    let number = caller.number;
    let front = format!(in alloc; "done stored\ndone value v{number}\nstate sealed ")?;
    let printed = caller.sink.held().as_slice();
    Ok(
        caller.status == Some(Status::Ok)
            && printed.starts_with(front.as_bytes())
            && printed.ends_with(b"\nbye\n"),
    )
}

/// Whether a client's command ended well, with its content stored and loaded.
fn has_stored(alloc: Global, caller: &Caller) -> Result<bool, Fail> {
    let number = caller.number;
    let printed = caller.sink.held().as_slice();
    let loaded = format!(in alloc; "\nobject content 9 content-{number}\nstate sealed ")?;
    // The reference that the get found: a word of 73 characters.
    let behind = b"done stored\nobject stored\ndone value ".len() + 73;
    Ok(
        caller.status == Some(Status::Ok)
            && printed.starts_with(b"done stored\nobject stored\ndone value %")
            && behind <= printed.len()
            && printed[behind..].starts_with(loaded.as_bytes())
            && printed.ends_with(b"\nbye\n"),
    )
}

#[test]
fn eight_clients_share_a_server(rt: HostRuntime) -> Result<(), Fail> {
    let alloc = rt.alloc();
    let address = free_address(&rt, alloc)?;
    let words = format!(in alloc; "serve {address} 8 plain 8")?;
    let words = words_of(alloc, words.as_str())?;
    let mut callers = Vec::new(alloc);
    for number in 1..9 {
        callers.push(caller_of(alloc, address.as_str(), number)?)?;
    }
    // It listens from here on, so whoever connects before the server accepts waits in line.
    let mut doors = TcpDoors::open(&rt, address.as_str());
    let mut sink = MemorySink::new(alloc, Calls::new(alloc));
    let ((), status) = thread::join(
        &rt,
        || all_call(&rt, alloc, address.as_str(), callers.as_mut_slice()),
        || serves(&rt, alloc, words.as_slice(), &mut doors, &mut sink),
    );
    assert_eq!(rt; status, Status::Ok);
    let printed = sink.held().as_slice();
    assert!(rt; printed.starts_with(b"connections 8\nordered 16\n"));
    assert!(rt; printed.ends_with(b"\nlink faults 0\nbad frames 0\nno memory 0\n"));
    for caller in callers.iter() {
        assert!(rt; has_called(alloc, caller)?, "client {}", caller.number);
    }
    Ok(())
}

#[test]
fn eight_clients_store_in_one_server(rt: HostRuntime) -> Result<(), Fail> {
    let alloc = rt.alloc();
    let address = free_address(&rt, alloc)?;
    let words = format!(in alloc; "serve {address} 8 objects 8")?;
    let words = words_of(alloc, words.as_str())?;
    let mut callers = Vec::new(alloc);
    for number in 1..9 {
        callers.push(storer_of(alloc, address.as_str(), number)?)?;
    }
    let mut doors = TcpDoors::open(&rt, address.as_str());
    let mut sink = MemorySink::new(alloc, Calls::new(alloc));
    let ((), status) = thread::join(
        &rt,
        || all_call(&rt, alloc, address.as_str(), callers.as_mut_slice()),
        || serves(&rt, alloc, words.as_slice(), &mut doors, &mut sink),
    );
    assert_eq!(rt; status, Status::Ok);
    let printed = sink.held().as_slice();
    assert!(rt; printed.starts_with(b"connections 8\nordered 16\n"));
    assert!(rt; printed.ends_with(b"\nlink faults 0\nbad frames 0\nno memory 0\n"));
    for caller in callers.iter() {
        assert!(rt; has_stored(alloc, caller)?, "client {}", caller.number);
    }
    Ok(())
}
