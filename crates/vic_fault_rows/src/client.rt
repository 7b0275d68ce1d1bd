//! The command of a client: one call of its source, link or sink fails, or its link is cut off.

use crate::narrow::Trickle;
use crate::tests::{Ends, failing, is, is_written, sink_of, source_of, words_of};
use std::alloc::Global;
use std::test::*;
use vic_cli::run_client;
use vic_dict::{Bytes, NoMemory};
use vic_ports::MemoryLink;
use vic_text::Status;

/// Hi, a refusal of a call, and Gone.
const REFUSED: &[u8] = b"\0\0\0\x01\x41\0\0\0\x02\x46\x02\0\0\0\x01\x49";

const LEFT: &[u8] = b"refused 2\nbye\n";

/// The calls with these numbers fail, if they are made: a read of the script, a call of the link, and a write of the output.
#[derive(Clone, Copy)]
struct Fails {
    read: u64,
    link: u64,
    write: u64,
}

const NONE: Fails = Fails {
    read: 0,
    link: 0,
    write: 0,
};

/// How a call of client 1 of 1 ends over a link that gives these bytes, one at a read, and how many bytes were sent.
fn client(alloc: Global, bytes: &[u8], fails: Fails) -> Result<(Ends, usize), NoMemory> {
    let words = words_of(alloc, "client h:1 1 1 0b plain")?;
    let mut source = source_of(alloc, b"put a x", fails.read)?;
    let given = Bytes::of(alloc, bytes)?;
    let inner = MemoryLink::new(alloc, given, failing(alloc, fails.link)?);
    let mut link = Trickle { inner };
    let mut sink = sink_of(alloc, fails.write)?;
    let status = run_client(alloc, words.as_slice(), &mut source, &mut link, &mut sink);
    let ends = (status, sink.inner.held().copy(alloc)?);
    Ok((ends, link.inner.written().len()))
}

// The script has seven bytes, and the read behind them finds its end. A failed read sends nothing.
#[test]
fn reads(rt: HostRuntime) -> Result<(), Fail> {
    for read in 1..21 {
        let (ends, sent) = client(rt.alloc(), REFUSED, Fails { read, ..NONE })?;
        let right = if read <= 8 {
            is(&ends, Status::ReadFault, b"read fault\n") && sent == 0
        } else {
            is(&ends, Status::Ok, LEFT) && sent == 63
        };
        assert!(rt; right, "read {read}");
    }
    Ok(())
}

// What a run writes whose call `link` of its link fails, and how many bytes it sends. Hello is written, and Hi read in five reads; so
// are the call and its refusal of six bytes, and Bye and Gone.
fn cut_at(link: u64) -> (Status, &'static [u8], usize) {
    match link {
        1 => (Status::LinkFault, b"link fault\n", 0),
        2..=7 => (Status::LinkFault, b"link fault\n", 8),
        8..=13 => (Status::LinkFault, b"link fault\n", 58),
        14 => (Status::LinkFault, b"refused 2\nlink fault\n", 58),
        15..=19 => (Status::LinkFault, b"refused 2\nlink fault\n", 63),
        _ => (Status::Ok, LEFT, 63),
    }
}

#[test]
fn calls_of_the_link(rt: HostRuntime) -> Result<(), Fail> {
    for link in 1..21 {
        let (ends, sent) = client(rt.alloc(), REFUSED, Fails { link, ..NONE })?;
        let (status, text, size) = cut_at(link);
        assert!(rt; is(&ends, status, text) && sent == size, "call {link}");
    }
    Ok(())
}

#[test]
fn writes(rt: HostRuntime) -> Result<(), Fail> {
    for write in 1..21 {
        let fails = Fails {
            write: write as u64,
            ..NONE
        };
        let (ends, sent) = client(rt.alloc(), REFUSED, fails)?;
        assert!(rt;
            is_written(&ends, Status::Ok, LEFT, write) && sent == 63,
            "write {write}"
        );
    }
    Ok(())
}

// The link ends after so many bytes, with no call that fails.
#[test]
fn cut_links(rt: HostRuntime) -> Result<(), Fail> {
    for n in 0..REFUSED.len() {
        let (ends, _) = client(rt.alloc(), &REFUSED[..n], NONE)?;
        let text: &[u8] = if n <= 10 {
            b"link fault\n"
        } else {
            b"refused 2\nlink fault\n"
        };
        assert!(rt; is(&ends, Status::LinkFault, text), "{n} bytes");
    }
    let (ends, _) = client(rt.alloc(), REFUSED, NONE)?;
    assert!(rt; is(&ends, Status::Ok, LEFT));
    Ok(())
}
