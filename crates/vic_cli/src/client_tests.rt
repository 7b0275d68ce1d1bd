//! The command of a client, over links in memory and over the loopback address.

use crate::run_client;
use std::alloc::Global;
use std::io::{Read, Write};
use std::net::TcpListener;
use std::test::*;
use std::thread;
use vic_dict::{Bytes, NoMemory};
use vic_ports::{Calls, MemoryLink, MemorySink, MemorySource, TcpLine};
use vic_text::Status;

// Hi, a refusal of a call, and Gone.
const REFUSED: &[u8] = b"\0\0\0\x01\x41\0\0\0\x02\x46\x02\0\0\0\x01\x49";

// Client 1 of 1, with a key of one byte.
const RIGHT: [&str; 6] = ["client", "h:1", "1", "1", "0b", "plain"];

fn words_of(alloc: Global, words: &[&str]) -> Result<Vec<String>, Fail> {
    let mut made = Vec::new(alloc);
    for word in words {
        made.push(String::from_str(alloc, word)?)?;
    }
    Ok(made)
}

fn bytes_of(alloc: Global, bytes: &[u8]) -> Result<Bytes, Fail> {
    let made = Bytes::of(alloc, bytes).ok().ok_or("bytes")?;
    Ok(made)
}

// The calls with this number alone, or none where it is 0.
fn failing(alloc: Global, call: u64) -> Result<Calls, Fail> {
    let mut fails = Calls::new(alloc);
    if call != 0 {
        fails.push(call).ok().ok_or("calls")?;
    }
    Ok(fails)
}

// The status, what is printed and what is sent, of these words, of a script, and of what comes over the link.
fn run(
    alloc: Global,
    words: &[&str],
    script: &[u8],
    bytes: &[u8],
) -> Result<(Status, Bytes, Bytes), Fail> {
    let words = words_of(alloc, words)?;
    let mut source = MemorySource::new(bytes_of(alloc, script)?, Calls::new(alloc));
    let mut link = MemoryLink::new(alloc, bytes_of(alloc, bytes)?, Calls::new(alloc));
    let mut sink = MemorySink::new(alloc, Calls::new(alloc));
    let status = run_client(alloc, words.as_slice(), &mut source, &mut link, &mut sink);
    Ok((
        status,
        bytes_of(alloc, sink.held().as_slice())?,
        bytes_of(alloc, link.written().as_slice())?,
    ))
}

#[test]
fn does_a_script(rt: HostRuntime) -> Result<(), Fail> {
    let (status, printed, sent) = run(rt.alloc(), &RIGHT, b"put a x", REFUSED)?;
    assert_eq!(rt; status, Status::Ok);
    assert_eq!(rt; printed.as_slice(), b"refused 2\nbye\n".as_slice());
    assert!(rt; sent.as_slice().starts_with(b"\0\0\0\x04\x21\x01\0\x01"));
    assert!(rt; sent.as_slice().ends_with(b"\0\0\0\x01\x29"));
    Ok(())
}

// Comments and empty lines send and print nothing, and are counted.
#[test]
fn skips_lines(rt: HostRuntime) -> Result<(), Fail> {
    let (_, _, sent) = run(rt.alloc(), &RIGHT, b"put a x", REFUSED)?;
    let script = b"# a call\n\nput a x\n\n# the end";
    let (status, printed, sent_too) = run(rt.alloc(), &RIGHT, script, REFUSED)?;
    assert_eq!(rt; status, Status::Ok);
    assert_eq!(rt; printed.as_slice(), b"refused 2\nbye\n".as_slice());
    assert_eq!(rt; sent_too.as_slice(), sent.as_slice());
    let (status, printed, _) = run(rt.alloc(), &RIGHT, b"# a\n\n # b\nput a x", REFUSED)?;
    assert_eq!(rt; status, Status::BadLine);
    assert_eq!(rt;
        printed.as_slice(),
        b"line 3: not a line of this script\n".as_slice()
    );
    Ok(())
}

#[test]
fn ends_by_each_fault_of_the_link(rt: HostRuntime) -> Result<(), Fail> {
    let (status, printed, _) = run(rt.alloc(), &RIGHT, b"put a x", b"\0\0\0\x02\x46\x06")?;
    assert_eq!(rt; status, Status::GreetingRefused);
    assert_eq!(rt; printed.as_slice(), b"greeting refused 6\n".as_slice());
    for bytes in [b"\0\0\0\0", b"\x01\0\0\x01"] {
        let (status, printed, _) = run(rt.alloc(), &RIGHT, b"put a x", bytes)?;
        assert_eq!(rt; status, Status::BadFrame);
        assert_eq!(rt; printed.as_slice(), b"bad frame\n".as_slice());
    }
    let (status, printed, _) = run(rt.alloc(), &RIGHT, b"put a x", b"\0\0\0")?;
    assert_eq!(rt; status, Status::LinkFault);
    assert_eq!(rt; printed.as_slice(), b"link fault\n".as_slice());
    let (status, printed, _) = run(
        rt.alloc(),
        &RIGHT,
        b"put a x",
        b"\0\0\0\x01\x41\0\0\0\x01\x43",
    )?;
    assert_eq!(rt; status, Status::Halted);
    assert_eq!(rt;
        printed.as_slice(),
        b"halted 1 d1d467d4355f92a5426df34b89c67166b6e81db7acc7605f55c8e16b8ab66133\n".as_slice()
    );
    Ok(())
}

#[test]
fn tells_a_bad_line(rt: HostRuntime) -> Result<(), Fail> {
    let (status, printed, _) = run(rt.alloc(), &RIGHT, b"put a x\n \npoll", REFUSED)?;
    assert_eq!(rt; status, Status::BadLine);
    assert_eq!(rt;
        printed.as_slice(),
        b"refused 2\nline 2: not a line of this script\n".as_slice()
    );
    Ok(())
}

// Client 1 of 1, of a group with objects.
const WITH_OBJECTS: [&str; 6] = ["client", "h:1", "1", "1", "0b", "objects"];

// It says so in its greeting, and its lines are calls on objects.
#[test]
fn does_a_script_of_objects(rt: HostRuntime) -> Result<(), Fail> {
    let (status, printed, sent) = run(
        rt.alloc(),
        &WITH_OBJECTS,
        b"store a x\nload a",
        b"\0\0\0\x01\x41\0\0\0\x02\x46\x07\0\0\0\x02\x46\x02\0\0\0\x01\x49",
    )?;
    assert_eq!(rt; status, Status::Ok);
    assert_eq!(rt;
        printed.as_slice(),
        b"object refused 7\nrefused 2\nobject refused 2\nbye\n".as_slice()
    );
    assert!(rt;
        sent.as_slice()
            .starts_with(b"\0\0\0\x04\x21\x01\x01\x01\0\0\0\x02\x27x")
    );
    let (status, printed, _) = run(rt.alloc(), &WITH_OBJECTS, b"put a x", REFUSED)?;
    assert_eq!(rt; status, Status::BadLine);
    assert_eq!(rt;
        printed.as_slice(),
        b"line 1: not a line of this script\n".as_slice()
    );
    Ok(())
}

// A count, a number, a key, a mode, an address and a name that are none.
const WRONG: [&str; 10] = [
    "client h:1 1 1 0b object",
    "client h:1 1 65 0b plain",
    "client h:1 2 1 0b plain",
    "client h:1 0 1 0b plain",
    "client h:1 1 01 0b plain",
    "client h:1 1 1 0 plain",
    "client h:1 1 1 0g plain",
    // The address is empty.
    "client  1 1 0b plain",
    "clients h:1 1 1 0b plain",
    "client h:1 1 1 0b",
];

fn split_words(alloc: Global, text: &str) -> Result<Vec<String>, NoMemory> {
    let mut words = Vec::new(alloc);
    for word in text.split(' ') {
        words.push(word.to_string(alloc)?)?;
    }
    Ok(words)
}

// Whether such words are refused: nothing is sent.
fn is_refused(alloc: Global, text: &str) -> Result<bool, NoMemory> {
    let words = split_words(alloc, text)?;
    let script = Bytes::of(alloc, b"put a x")?;
    let mut source = MemorySource::new(script, Calls::new(alloc));
    let given = Bytes::of(alloc, REFUSED)?;
    let mut link = MemoryLink::new(alloc, given, Calls::new(alloc));
    let mut sink = MemorySink::new(alloc, Calls::new(alloc));
    let status = run_client(alloc, words.as_slice(), &mut source, &mut link, &mut sink);
    Ok(
        status == Status::Usage
            && sink.held().as_slice() == Status::Usage.line()
            && link.written().as_slice().is_empty(),
    )
}

#[test]
fn refuses_wrong_words(rt: HostRuntime) -> Result<(), Fail> {
    for (place, text) in WRONG.iter().enumerate() {
        assert!(rt;
            is_refused(rt.alloc(), text).ok().ok_or("memory")?,
            "row {place}"
        );
    }
    Ok(())
}

// The script is read before Hello is said, and what was composed is written at the end.
#[test]
fn tells_a_failed_read_and_a_failed_write(rt: HostRuntime) -> Result<(), Fail> {
    let alloc = rt.alloc();
    let words = words_of(alloc, &RIGHT)?;
    let mut source = MemorySource::new(bytes_of(alloc, b"put a x")?, failing(alloc, 2)?);
    let mut link = MemoryLink::new(alloc, bytes_of(alloc, REFUSED)?, Calls::new(alloc));
    let mut sink = MemorySink::new(alloc, Calls::new(alloc));
    let status = run_client(alloc, words.as_slice(), &mut source, &mut link, &mut sink);
    assert_eq!(rt; status, Status::ReadFault);
    assert_eq!(rt; sink.held().as_slice(), b"read fault\n".as_slice());
    assert!(rt; link.written().as_slice().is_empty());
    let mut source = MemorySource::new(bytes_of(alloc, b"put a x")?, Calls::new(alloc));
    let mut sink = MemorySink::new(alloc, failing(alloc, 1)?);
    let status = run_client(alloc, words.as_slice(), &mut source, &mut link, &mut sink);
    assert_eq!(rt; status, Status::WriteFault);
    assert!(rt; sink.held().as_slice().is_empty());
    Ok(())
}

// The other end of one connection: it gives the bytes, and answers all that came until this end was closed.
fn answer(alloc: Global, listener: &TcpListener) -> Option<Vec<u8>> {
    let (mut stream, _) = listener.accept().ok()?;
    stream.write_all(REFUSED).ok()?;
    let mut came = Vec::new(alloc);
    stream.read_to_end(&mut came).ok()?;
    Some(came)
}

#[test]
fn runs_over_a_connection(rt: HostRuntime) -> Result<(), Fail> {
    let alloc = rt.alloc();
    let listener = TcpListener::bind(&rt, "127.0.0.1:0")
        .ok()
        .ok_or("listener")?;
    let address = listener.local_addr().ok().ok_or("address")?;
    let address = address.to_string(alloc)?;
    let Ok(other) = thread::spawn(&rt, move || answer(alloc, &listener)) else {
        panic!(rt; "no thread");
    };
    let words = words_of(
        alloc,
        &["client", address.as_str(), "1", "1", "0b", "plain"],
    )?;
    let mut source = MemorySource::new(bytes_of(alloc, b"put a x")?, Calls::new(alloc));
    let mut sink = MemorySink::new(alloc, Calls::new(alloc));
    let status = {
        let mut link = TcpLine::open(&rt, address.as_str());
        run_client(alloc, words.as_slice(), &mut source, &mut link, &mut sink)
    };
    assert_eq!(rt; status, Status::Ok);
    assert_eq!(rt; sink.held().as_slice(), b"refused 2\nbye\n".as_slice());
    let came = other.join(&rt).ok_or("came")?;
    assert!(rt; came.starts_with(b"\0\0\0\x04\x21\x01\0\x01"));
    assert!(rt; came.ends_with(b"\0\0\0\x01\x29"));
    Ok(())
}
