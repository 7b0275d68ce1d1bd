ghost use Rattle.std.specs.Prelude.{◌≤◌, ◌+◌, ◌<◌, ◌^◌, length};

use std::alloc::Global;
use std::test::*;
use vic_dict::{Bytes, Mode, NoMemory};
use vic_server::{Serve, Served};
use vic_wire::ToClient;

/// A client, its request and the answer, in the spelling of messages, where the byte 255 stands for a digest, 254 for `ROOT`, 253 for
/// `HELLO` and 252 for `EMPTY`.
type Row = (u8, &'static [u8], &'static [u8]);

/// The root of the dictionary in which `a` has `x`: the hash of the bytes 03 01 61 78.
const ROOT: [u8; 32] = [
    0xea, 0x09, 0xc1, 0xe7, 0xf7, 0xdd, 0xd3, 0x75, 0xc0, 0x98, 0xac, 0xc3, 0x81, 0x73, 0xa2, 0x8e,
    0x6f, 0x70, 0x55, 0xc6, 0x96, 0xe8, 0x6d, 0x66, 0x98, 0xee, 0x0e, 0xa1, 0x34, 0x38, 0xa2, 0xbb,
];

/// The hash of the content `hello`: that of the bytes 06 68 65 6c 6c 6f.
const HELLO: [u8; 32] = [
    0x31, 0x4a, 0xb0, 0x41, 0xde, 0xca, 0x3c, 0xb4, 0x2b, 0xe7, 0x4b, 0xc9, 0x91, 0x13, 0x25, 0xb3,
    0x90, 0x43, 0x64, 0x59, 0x0e, 0xb4, 0x60, 0x0b, 0x87, 0x5d, 0x64, 0x08, 0x9f, 0x69, 0xe0, 0x77,
];

/// The hash of the empty content: that of the byte 06.
const EMPTY: [u8; 32] = [
    0x67, 0x58, 0x6e, 0x98, 0xfa, 0xd2, 0x7d, 0xa0, 0xb9, 0x96, 0x8b, 0xc0, 0x39, 0xa1, 0xef, 0x34,
    0xc9, 0x39, 0xb9, 0xb8, 0xe5, 0x23, 0xa8, 0xbe, 0xf8, 0x9d, 0x47, 0x86, 0x08, 0xc5, 0xec, 0xf6,
];

/// A server of two clients, of which the first comes in, makes two calls, seals both and leaves.
const ROWS: [Row; 13] = [
    (0, b"\x24", b"\x46\x06"),
    (0, b"\x21\x01\0\x01", b"\x41"),
    // Put `a` = `x`: the Reply has this entry and the empty dictionary.
    (
        1,
        b"\x22\0\0\0\0\0\0\0\x01\x01\x01a\x01x\xff",
        b"\x42\0\0\0\0\0\x01\x01\0\0\0\x01\x01\x01a\x01x\xff\x01\0",
    ),
    (1, b"\x23\0\0\0\x01\0\xff", b"\x44\0\0\0\0\x01\0"),
    (1, b"\x24", b"\x44\0\0\0\0\x01\0"),
    (1, b"\x25\0\0\0\x01\xff\xff", b"\x43"),
    (1, b"\x24", b"\x43"),
    (
        1,
        b"\x26\0\0\0\0",
        b"\x45\0\0\0\x01\xff\xff\0\x01\x01\0\0\0\x01\x01\x01a\x01x\xff",
    ),
    // Get `a`: the Reply has this entry alone, and the leaf; the Update has the root alone.
    (
        1,
        b"\x22\0\0\0\x01\0\0\0\x02\x02\x01a\xff",
        b"\x42\0\0\0\x01\xff\xff\0\x01\x01\0\0\0\x02\x02\x01a\xff\x01\x01\x01a\x01x",
    ),
    (
        1,
        b"\x23\0\0\0\x02\0\xff",
        b"\x44\0\0\0\x01\xff\xff\x01\x03\xfe",
    ),
    (1, b"\x25\0\0\0\x02\xff\xff", b"\x43"),
    (1, b"\x29", b"\x49"),
    (1, b"\x24", b"\x46\x06"),
];

/// Puts and their turns: a client makes two puts before it seals the first. The Update behind the first Seal has the tree after it.
const TURNS: [Row; 8] = [
    (
        1,
        b"\x22\0\0\0\0\0\0\0\x01\x01\x01a\x01x\xff",
        b"\x42\0\0\0\0\0\x01\x01\0\0\0\x01\x01\x01a\x01x\xff\x01\0",
    ),
    (1, b"\x23\0\0\0\x01\0\xff", b"\x44\0\0\0\0\x01\0"),
    (
        1,
        b"\x22\0\0\0\x01\0\0\0\x02\x01\x01b\x01y\xff",
        b"\x42\0\0\0\0\0\x01\x01\0\0\0\x02\x01\x01b\x01y\xff\x01\0",
    ),
    (1, b"\x23\0\0\0\x02\0\xff", b"\x44\0\0\0\0\x01\0"),
    (
        1,
        b"\x25\0\0\0\x01\xff\xff",
        b"\x44\0\0\0\x01\xff\xff\x01\x01\x01a\x01x",
    ),
    (1, b"\x24", b"\x44\0\0\0\x01\xff\xff\x01\x01\x01a\x01x"),
    (1, b"\x25\0\0\0\x02\xff\xff", b"\x43"),
    // List everything: the whole tree, whose two leaves part at bit 7.
    (
        1,
        b"\x22\0\0\0\x02\0\0\0\x03\x04\0\xff",
        b"\x42\0\0\0\x02\xff\xff\0\x01\x01\0\0\0\x03\x04\0\xff\x01\x02\0\x07\x01\x01a\x01x\x01\x01b\x01y",
    ),
];

/// Contents in a group with objects: each is kept once, and found under its hash.
const CONTENTS: [Row; 13] = [
    (1, b"\x27hello", b"\x46\x06"),
    (0, b"\x21\x01\0\x01", b"\x46\x06"),
    (0, b"\x21\x01\x01\x01", b"\x41"),
    (1, b"\x28\xfd", b"\x4a"),
    (1, b"\x27hello", b"\x47"),
    (1, b"\x27hello", b"\x47"),
    (1, b"\x28\xfd", b"\x48hello"),
    (1, b"\x28\xfc", b"\x4a"),
    (1, b"\x27", b"\x47"),
    (1, b"\x28\xfc", b"\x48"),
    // A client with an open call keeps and fetches nothing.
    (
        1,
        b"\x22\0\0\0\0\0\0\0\x01\x02\x01a\xff",
        b"\x42\0\0\0\0\0\x01\x01\0\0\0\x01\x02\x01a\xff\x01\0",
    ),
    (1, b"\x27hello", b"\x46\x05"),
    (1, b"\x28\xfd", b"\x46\x05"),
];

/// A group in mode plain has no contents.
const NO_CONTENTS: [Row; 3] = [
    (1, b"\x27hello", b"\x46\x05"),
    (1, b"\x27", b"\x46\x05"),
    (1, b"\x28\xfd", b"\x46\x05"),
];

/// The bytes for which a byte of a row stands, if it stands for any.
fn digest_of(byte: u8) -> Option<[u8; 32]> {
    match byte {
        255 => Some([7; 32]),
        254 => Some(ROOT),
        253 => Some(HELLO),
        252 => Some(EMPTY),
        _ => None,
    }
}

fn payload_of(alloc: Global, text: &[u8]) -> Result<Bytes, NoMemory> {
    let mut payload = Bytes::new(alloc);
    for byte in text {
        match digest_of(*byte) {
            Some(digest) => payload.append(digest.as_slice())?,
            None => payload.push(*byte)?,
        }
    }
    Ok(payload)
}

/// Whether the server answers so.
fn answers<S: Serve>(alloc: Global, server: &mut S, row: &Row) -> Result<bool, NoMemory> {
    let request = payload_of(alloc, row.1)?;
    let answer = payload_of(alloc, row.2)?;
    let said = server.serve(alloc, 0, row.0, request.as_slice())?;
    Ok(said.as_slice() == answer.as_slice())
}

/// Whether it answers so all along.
fn answers_all<S: Serve>(alloc: Global, server: &mut S, rows: &[Row]) -> Result<bool, NoMemory> {
    for row in rows {
        if !answers(alloc, server, row)? {
            return Ok(false);
        }
    }
    Ok(true)
}

fn answers_rows<S: Serve>(alloc: Global, server: &mut S) -> Result<bool, NoMemory> {
    answers_all(alloc, server, &ROWS)
}

fn answers_turns<S: Serve>(alloc: Global, server: &mut S) -> Result<bool, NoMemory> {
    answers_all(alloc, server, &TURNS)
}

fn answers_contents<S: Serve>(alloc: Global, server: &mut S) -> Result<bool, NoMemory> {
    answers_all(alloc, server, &CONTENTS)
}

fn answers_no_contents<S: Serve>(alloc: Global, server: &mut S) -> Result<bool, NoMemory> {
    answers_all(alloc, server, &NO_CONTENTS)
}

#[test]
fn one_client(rt: HostRuntime) -> Result<(), Fail> {
    let alloc = rt.alloc();
    let mut server = Served::new(alloc, Mode::Plain, 2).ok().ok_or("memory")?;
    let mut other = Serve::copy(&server, alloc).ok().ok_or("memory")?;
    assert!(rt; answers_rows(alloc, &mut server).ok().ok_or("memory")?);
    assert!(rt; answers_rows(alloc, &mut other).ok().ok_or("memory")?);
    assert_eq!(rt; server.length(), 2);
    assert_eq!(rt; server.sealed(), 2);
    assert_eq!(rt; server.pairs(), 1);
    assert_eq!(rt; server.weight(), 18);
    assert_eq!(rt; server.owner_of_next(), None);
    let copied = Serve::copy(&server, alloc).ok().ok_or("memory")?;
    assert!(rt; copied.length() == 2 && copied.sealed() == 2 && copied.weight() == 18);
    Ok(())
}

#[test]
fn turns(rt: HostRuntime) -> Result<(), Fail> {
    let alloc = rt.alloc();
    let mut server = Served::gathered(alloc, Mode::Plain, 1)?;
    assert!(rt; answers_turns(alloc, &mut server)?);
    assert!(rt; server.weight() == 36 && server.pairs() == 2);
    Ok(())
}

/// A put weighs from its Invoke on, one of a key that has a value too.
#[test]
fn weights(rt: HostRuntime) -> Result<(), Fail> {
    let alloc = rt.alloc();
    let mut server = Served::gathered(alloc, Mode::Plain, 1)?;
    put_from(alloc, &mut server, 0, b"a", b"x")?;
    assert_eq!(rt; server.weight(), 18);
    commit(alloc, &mut server, 1, 1)?;
    seal(alloc, &mut server, 1, 1)?;
    put_from(alloc, &mut server, 1, b"a", b"y")?;
    assert_eq!(rt; server.weight(), 36);
    Ok(())
}

#[test]
fn all_in(rt: HostRuntime) -> Result<(), Fail> {
    let alloc = rt.alloc();
    let mut server = Served::gathered(alloc, Mode::Plain, 64)
        .ok()
        .ok_or("memory")?;
    let answer = server.step(alloc, 0, 64, b"\x24").ok().ok_or("memory")?;
    assert!(rt; matches!(answer, ToClient::Wait));
    Ok(())
}

// What a server takes is built here byte by byte; it tests no tag.
const TAG: [u8; 32] = [7; 32];

/// Get `a`, from a client whose path has `known` entries.
fn call_from(
    alloc: Global,
    server: &mut Served,
    who: u8,
    known: u32,
    seq: u32,
) -> Result<ToClient, NoMemory> {
    let mut payload = Bytes::of(alloc, b"\x22")?;
    payload.append(known.to_be_bytes().as_slice())?;
    payload.append(seq.to_be_bytes().as_slice())?;
    payload.append(b"\x02\x01a")?;
    payload.append(TAG.as_slice())?;
    server.step(alloc, 0, who, payload.as_slice())
}

/// A put, from client 1, whose path has all entries and whose calls are the entries.
fn put_from(
    alloc: Global,
    server: &mut Served,
    known: u32,
    key: &[u8],
    value: &[u8],
) -> Result<ToClient, NoMemory>
    requires known { known < 2 ^ 31 }
    requires key { length key.now ≤ 255 }
    requires value { length value.now ≤ 255 }
{
    let mut payload = Bytes::of(alloc, b"\x22")?;
    payload.append(known.to_be_bytes().as_slice())?;
    payload.append((known + 1).to_be_bytes().as_slice())?;
    payload.push(1)?;
    payload.push(key.len() as u8)?;
    payload.append(key)?;
    payload.push(value.len() as u8)?;
    payload.append(value)?;
    payload.append(TAG.as_slice())?;
    server.step(alloc, 0, 1, payload.as_slice())
}

/// The Commit of a position, as done.
fn commit(
    alloc: Global,
    server: &mut Served,
    who: u8,
    position: u32,
) -> Result<ToClient, NoMemory> {
    let mut payload = Bytes::of(alloc, b"\x23")?;
    payload.append(position.to_be_bytes().as_slice())?;
    payload.push(0)?;
    payload.append(TAG.as_slice())?;
    server.step(alloc, 0, who, payload.as_slice())
}

/// The Seal of a position.
fn seal(alloc: Global, server: &mut Served, who: u8, position: u32) -> Result<ToClient, NoMemory> {
    let mut payload = Bytes::of(alloc, b"\x25")?;
    payload.append(position.to_be_bytes().as_slice())?;
    payload.append(TAG.as_slice())?;
    payload.append(TAG.as_slice())?;
    server.step(alloc, 0, who, payload.as_slice())
}

/// How many entries a Reply tells, and 0 where the answer is none.
fn told(answer: &ToClient) -> usize {
    match answer {
        ToClient::Reply { entries, .. } => entries.len(),
        _ => 0,
    }
}

/// Calls of client 1 at the positions above `first`, each of them committed, and sealed where `seals` says so. Whether each was
/// ordered.
fn call_often(
    alloc: Global,
    server: &mut Served,
    first: u32,
    count: u32,
    seals: bool,
) -> Result<bool, NoMemory>
    requires { first + count < 2 ^ 32 }
{
    let mut ordered = true;
    for n in 0..count {
        let answer = call_from(alloc, server, 1, first + n, n + 1)?;
        ordered &= told(&answer) == 1;
        commit(alloc, server, 1, first + n + 1)?;
        if seals {
            seal(alloc, server, 1, first + n + 1)?;
        }
    }
    Ok(ordered)
}

/// A client at length 0 is told at most 8,192 entries, its own call among them.
#[test]
fn behind(rt: HostRuntime) -> Result<(), Fail> {
    let alloc = rt.alloc();
    let mut server = Served::gathered(alloc, Mode::Plain, 3)?;
    assert!(rt; call_often(alloc, &mut server, 0, 8191, true)?);
    assert_eq!(rt; server.sealed(), 8191);
    let near = call_from(alloc, &mut server, 2, 0, 1)?;
    assert_eq!(rt; told(&near), 8192);
    let far = call_from(alloc, &mut server, 3, 0, 1)?;
    assert!(rt; matches!(far, ToClient::Refused(1)));
    let synced = server.step(alloc, 0, 3, b"\x26\0\0\0\0")?;
    match &synced {
        ToClient::Entries { seal, entries } => {
            assert!(rt; seal.position == 8191 && entries.len() == 8192)
        }
        _ => assert!(rt; false),
    }
    let again = call_from(alloc, &mut server, 3, 8192, 1)?;
    assert_eq!(rt; told(&again), 1);
    Ok(())
}

/// 1,024 entries wait to be sealed behind a call that isn't committed.
#[test]
fn pending(rt: HostRuntime) -> Result<(), Fail> {
    let alloc = rt.alloc();
    let mut server = Served::gathered(alloc, Mode::Plain, 2)?;
    let open = call_from(alloc, &mut server, 2, 0, 1)?;
    assert_eq!(rt; told(&open), 1);
    assert!(rt; call_often(alloc, &mut server, 1, 1023, false)?);
    assert!(rt; server.length() == 1024 && server.sealed() == 0);
    let last = call_from(alloc, &mut server, 1, 1024, 1024)?;
    assert!(rt; matches!(last, ToClient::Refused(2)));
    Ok(())
}

/// Puts of client 1, committed and sealed, each with a key of 255 bytes of its own and a value of 64. Whether each was ordered.
fn put_often(alloc: Global, server: &mut Served, count: u32) -> Result<bool, NoMemory>
    requires { count < 2 ^ 31 }
{
    let value = [0x78u8; 64];
    let mut key = [0x61u8; 255];
    let mut ordered = true;
    for n in 0..count {
        let number = n.to_be_bytes();
        key[0] = number[0];
        key[1] = number[1];
        key[2] = number[2];
        key[3] = number[3];
        let answer = put_from(alloc, server, n, &key, &value)?;
        ordered &= told(&answer) == 1;
        commit(alloc, server, 1, n + 1)?;
        seal(alloc, server, 1, n + 1)?;
    }
    Ok(ordered)
}

/// 25,040 pairs of the greatest weight leave room for 208.
#[test]
fn full_dictionary(rt: HostRuntime) -> Result<(), Fail> {
    let alloc = rt.alloc();
    let mut server = Served::gathered(alloc, Mode::Plain, 1)?;
    assert!(rt; put_often(alloc, &mut server, 25_040)?);
    assert!(rt; server.weight() == 8_388_400 && server.pairs() == 25_040);
    let key = [0x62u8; 255];
    let value = [0x79u8; 64];
    let longest = put_from(alloc, &mut server, 25_040, &key, &value)?;
    assert!(rt; matches!(longest, ToClient::Refused(3)));
    let heavy = put_from(alloc, &mut server, 25_040, &key[..129], &value)?;
    assert!(rt; matches!(heavy, ToClient::Refused(3)));
    let light = put_from(alloc, &mut server, 25_040, &key[..128], &value)?;
    assert_eq!(rt; told(&light), 1);
    assert_eq!(rt; server.weight(), 8_388_608);
    Ok(())
}

/// The first Keep of a content makes a change, and the second none.
#[test]
fn contents(rt: HostRuntime) -> Result<(), Fail> {
    let alloc = rt.alloc();
    let mut server = Served::new(alloc, Mode::Objects, 2)?;
    assert!(rt; answers_contents(alloc, &mut server)?);
    assert_eq!(rt; server.changes(), 4);
    assert!(rt; server.length() == 1 && server.weight() == 0);
    let mut plain = Served::gathered(alloc, Mode::Plain, 1)?;
    assert!(rt; answers_no_contents(alloc, &mut plain)?);
    assert_eq!(rt; plain.changes(), 0);
    Ok(())
}

/// A copy has the contents, and keeps its own from then on.
#[test]
fn copied_contents(rt: HostRuntime) -> Result<(), Fail> {
    let alloc = rt.alloc();
    let mut server = Served::gathered(alloc, Mode::Objects, 1)?;
    assert!(rt; matches!(keep(alloc, &mut server, b"hello")?, ToClient::Kept));
    let mut other = Serve::copy(&server, alloc)?;
    assert!(rt; matches!(keep(alloc, &mut other, b"")?, ToClient::Kept));
    assert!(rt; answers(alloc, &mut other, &(1, b"\x28\xfd", b"\x48hello"))?);
    assert!(rt; answers(alloc, &mut other, &(1, b"\x28\xfc", b"\x48"))?);
    assert!(rt; answers(alloc, &mut server, &(1, b"\x28\xfc", b"\x4a"))?);
    Ok(())
}

/// The Keep of a content.
fn keep(alloc: Global, server: &mut Served, content: &[u8]) -> Result<ToClient, NoMemory> {
    let mut payload = Bytes::of(alloc, b"\x27")?;
    payload.append(content)?;
    server.step(alloc, 0, 1, payload.as_slice())
}

/// Contents of four bytes. Whether each was kept.
fn keep_often(alloc: Global, server: &mut Served, count: u32) -> Result<bool, NoMemory> {
    let mut all = true;
    for n in 0..count {
        let answer = keep(alloc, server, n.to_be_bytes().as_slice())?;
        all &= matches!(answer, ToClient::Kept);
    }
    Ok(all)
}

/// There is room for 1,048,576 contents. One that is kept is kept again, though there is room for no other.
#[test]
fn full_contents(rt: HostRuntime) -> Result<(), Fail> {
    let alloc = rt.alloc();
    let mut server = Served::gathered(alloc, Mode::Objects, 1)?;
    assert!(rt; keep_often(alloc, &mut server, 1_048_576)?);
    let full = keep(alloc, &mut server, b"")?;
    assert!(rt; matches!(full, ToClient::Refused(7)));
    let again = keep(alloc, &mut server, &[0, 0, 0, 9])?;
    assert!(rt; matches!(again, ToClient::Kept));
    assert_eq!(rt; server.changes(), 1_048_576);
    Ok(())
}
