//! Sessions over links in memory.

use crate::{SessionEnd, run_lines};
use std::alloc::Global;
use std::test::*;
use vic_client::Client;
use vic_dict::{Bytes, Mode};
use vic_ports::{Calls, MemoryLink};
use vic_tag::GroupKey;

// Hi, a refusal of a call, and Gone.
const REFUSED: &[u8] = b"\0\0\0\x01\x41\0\0\0\x02\x46\x02\0\0\0\x01\x49";

// What a session prints and sends, of a script and of the bytes that come over the link, and how it ends.
fn run(alloc: Global, script: &[u8], bytes: &[u8]) -> Result<(SessionEnd, Bytes, Bytes), Fail> {
    run_over(alloc, Mode::Plain, script, bytes, Calls::new(alloc))
}

// The same, of a client of a group with objects.
fn run_objects(
    alloc: Global,
    script: &[u8],
    bytes: &[u8],
) -> Result<(SessionEnd, Bytes, Bytes), Fail> {
    run_over(alloc, Mode::Objects, script, bytes, Calls::new(alloc))
}

// The same, of a group of this mode, and over a link whose calls with these numbers fail.
fn run_over(
    alloc: Global,
    mode: Mode,
    script: &[u8],
    bytes: &[u8],
    fails: Calls,
) -> Result<(SessionEnd, Bytes, Bytes), Fail> {
    let key = GroupKey::from_hex(alloc, "00").ok().ok_or("key")?;
    let mut client = Client::new(alloc, 1, 1, mode, key);
    let bytes = Bytes::of(alloc, bytes).ok().ok_or("bytes")?;
    let mut link = MemoryLink::new(alloc, bytes, fails);
    let mut out = Bytes::new(alloc);
    let end = run_lines(alloc, &mut client, script, &mut link, &mut out);
    let sent = link.written().copy(alloc).ok().ok_or("sent")?;
    Ok((end, out, sent))
}

#[test]
fn does_its_lines_and_leaves(rt: HostRuntime) -> Result<(), Fail> {
    let (end, out, sent) = run(
        rt.alloc(),
        b"settle 1\npoll\n",
        b"\0\0\0\x01\x41\0\0\0\x01\x43\0\0\0\x01\x49",
    )?;
    assert!(rt; matches!(end, SessionEnd::Ok));
    assert_eq!(rt;
        out.as_slice(),
        b"state sealed 0 length 0 unsettled 0\nstate sealed 0 length 0 unsettled 0\nbye\n".as_slice()
    );
    assert_eq!(rt;
        sent.as_slice(),
        b"\0\0\0\x04\x21\x01\0\x01\0\0\0\x01\x24\0\0\0\x01\x29".as_slice()
    );
    Ok(())
}

#[test]
fn ends_in_the_greeting(rt: HostRuntime) -> Result<(), Fail> {
    let (end, out, sent) = run(rt.alloc(), b"settle 1\n", b"\0\0\0\x02\x46\x06")?;
    assert!(rt; matches!(end, SessionEnd::GreetingRefused(6)));
    assert_eq!(rt; out.as_slice(), b"".as_slice());
    assert_eq!(rt; sent.as_slice(), b"\0\0\0\x04\x21\x01\0\x01".as_slice());
    Ok(())
}

#[test]
fn halts_at_a_strange_answer(rt: HostRuntime) -> Result<(), Fail> {
    let (end, out, _) = run(
        rt.alloc(),
        b"settle 1\nput a x\npoll\n",
        b"\0\0\0\x01\x41\0\0\0\x01\x43",
    )?;
    assert!(rt; matches!(end, SessionEnd::Halted(1, _)));
    assert_eq!(rt;
        out.as_slice(),
        b"state sealed 0 length 0 unsettled 0\n".as_slice()
    );
    Ok(())
}

#[test]
fn tells_a_bad_line(rt: HostRuntime) -> Result<(), Fail> {
    let (end, out, _) = run(rt.alloc(), b"settle 1\nfly\n", b"\0\0\0\x01\x41")?;
    assert!(rt; matches!(end, SessionEnd::BadLine(2, 1)));
    assert_eq!(rt;
        out.as_slice(),
        b"state sealed 0 length 0 unsettled 0\n".as_slice()
    );
    Ok(())
}

#[test]
fn is_cut_off(rt: HostRuntime) -> Result<(), Fail> {
    let (end, _, _) = run(rt.alloc(), b"poll\n", b"\0\0\0\x01\x41\0\0\0")?;
    assert!(rt; matches!(end, SessionEnd::LinkFault));
    let (end, _, _) = run(rt.alloc(), b"poll\n", b"\0\0\0\x01\x41\0\0\0\0")?;
    assert!(rt; matches!(end, SessionEnd::BadFrame));
    Ok(())
}

#[test]
fn does_every_line(rt: HostRuntime) -> Result<(), Fail> {
    let (end, out, sent) = run(
        rt.alloc(),
        b"put a x\nget %61\ndel a\nlist %\npoll\nsync\nsettle 3",
        b"\0\0\0\x01\x41\0\0\0\x02\x46\x02\0\0\0\x02\x46\x03\0\0\0\x02\x46\x04\0\0\0\x02\x46\x01\0\0\0\x01\x43\0\0\0\x07\x45\0\0\0\0\0\0\0\0\0\x01\x49",
    )?;
    assert!(rt; matches!(end, SessionEnd::Ok));
    assert_eq!(rt;
        out.as_slice(),
        b"refused 2\nrefused 3\nrefused 4\nrefused 1\nstate sealed 0 length 0 unsettled 0\nstate sealed 0 length 0 unsettled 0\nstate sealed 0 length 0 unsettled 0\nbye\n".as_slice()
    );
    assert!(rt;
        sent.as_slice()
            .ends_with(b"\0\0\0\x01\x24\0\0\0\x05\x26\0\0\0\0\0\0\0\x01\x29")
    );
    Ok(())
}

// A content is refused; one is kept, and the put of its name is refused; and so are the calls of a load, an erase and a list of names.
#[test]
fn makes_calls_on_objects(rt: HostRuntime) -> Result<(), Fail> {
    let (end, out, sent) = run_objects(
        rt.alloc(),
        b"store a x\nstore a %\nload a\nerase a\nnames %\nsettle 1",
        b"\0\0\0\x01\x41\0\0\0\x02\x46\x07\0\0\0\x01\x47\0\0\0\x02\x46\x02\0\0\0\x02\x46\x03\0\0\0\x02\x46\x04\0\0\0\x02\x46\x01\0\0\0\x01\x49",
    )?;
    assert!(rt; matches!(end, SessionEnd::Ok));
    assert_eq!(rt;
        out.as_slice(),
        b"object refused 7\nrefused 2\nobject refused 2\nrefused 3\nobject refused 3\nrefused 4\nobject refused 4\nrefused 1\nobject refused 1\nstate sealed 0 length 0 unsettled 0\nbye\n".as_slice()
    );
    assert!(rt;
        sent.as_slice().starts_with(
            b"\0\0\0\x04\x21\x01\x01\x01\0\0\0\x02\x27x\0\0\0\x01\x27\0\0\0"
        )
    );
    Ok(())
}

// A group of one kind has no calls of the other, and a client that awaits Kept takes no Content.
#[test]
fn calls_are_of_its_kind(rt: HostRuntime) -> Result<(), Fail> {
    let (end, _, _) = run_objects(rt.alloc(), b"put a x", b"\0\0\0\x01\x41")?;
    assert!(rt; matches!(end, SessionEnd::BadLine(1, 1)));
    let (end, _, _) = run(rt.alloc(), b"store a x", b"\0\0\0\x01\x41")?;
    assert!(rt; matches!(end, SessionEnd::BadLine(1, 1)));
    let (end, out, _) = run_objects(rt.alloc(), b"store a x", b"\0\0\0\x01\x41\0\0\0\x02\x48x")?;
    assert!(rt; matches!(end, SessionEnd::Halted(1, _)));
    assert_eq!(rt; out.as_slice(), b"".as_slice());
    Ok(())
}

#[test]
fn is_cut_at_every_place(rt: HostRuntime) -> Result<(), Fail> {
    for n in 0..REFUSED.len() {
        let (end, out, _) = run(rt.alloc(), b"put a x", &REFUSED[..n])?;
        assert!(rt; matches!(end, SessionEnd::LinkFault));
        // The refusal is the second answer, and ends at the eleventh byte.
        let printed: &[u8] = if n < 11 { b"" } else { b"refused 2\n" };
        assert_eq!(rt; out.as_slice(), printed);
    }
    let (end, out, _) = run(rt.alloc(), b"put a x", REFUSED)?;
    assert!(rt; matches!(end, SessionEnd::Ok));
    assert_eq!(rt; out.as_slice(), b"refused 2\nbye\n".as_slice());
    Ok(())
}

// It writes Hello, reads all three answers at once, and writes the call and Bye.
#[test]
fn fails_at_each_call(rt: HostRuntime) -> Result<(), Fail> {
    for call in 1..6 {
        let mut fails = Calls::new(rt.alloc());
        fails.push(call).ok().ok_or("calls")?;
        let (end, _, _) = run_over(rt.alloc(), Mode::Plain, b"put a x", REFUSED, fails)?;
        assert_eq!(rt; matches!(end, SessionEnd::LinkFault), call < 5);
        assert_eq!(rt; matches!(end, SessionEnd::Ok), call == 5);
    }
    Ok(())
}

// The lines before it were done, and no Bye is said.
#[test]
fn ends_without_a_bye_at_a_bad_line(rt: HostRuntime) -> Result<(), Fail> {
    let (end, out, sent) = run(rt.alloc(), b"put a x\nput a", REFUSED)?;
    assert!(rt; matches!(end, SessionEnd::BadLine(2, 1)));
    assert_eq!(rt; out.as_slice(), b"refused 2\n".as_slice());
    assert!(rt; !sent.as_slice().ends_with(b"\0\0\0\x01\x29"));
    Ok(())
}
