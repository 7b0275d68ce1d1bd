use super::*;
use std::alloc::Global;
use std::test::*;
use vic_dict::{Bytes, Mode, NoMemory};

/// A payload: bytes, so many digests of 32 times the byte 7, and bytes again.
type Row = (&'static [u8], usize, &'static [u8]);

/// Each kind of request, written out by hand from the table of messages.
const REQUESTS: [Row; 13] = [
    (b"\x21\x01\x00\x01", 0, b""),
    (b"\x21\x01\x01\xff", 0, b""),
    // Put `a` = `x`, get `a`, del `a`, list of the empty prefix.
    (b"\x22\0\0\0\x02\0\0\x01\x02\x01\x01a\x01x", 1, b""),
    (b"\x22\0\0\0\0\0\0\0\x01\x02\x01a", 1, b""),
    (b"\x22\0\0\0\0\0\0\0\x01\x03\x01a", 1, b""),
    (b"\x22\0\0\0\0\0\0\0\x01\x04\0", 1, b""),
    (b"\x23\0\0\0\x03\x01", 1, b""),
    (b"\x24", 0, b""),
    (b"\x25\0\0\0\x04", 2, b""),
    (b"\x26\0\0\0\x05", 0, b""),
    (b"\x27hi", 0, b""),
    (b"\x28", 1, b""),
    (b"\x29", 0, b""),
];

const BAD_REQUESTS: [Row; 10] = [
    (b"", 0, b""),
    (b"\x2a", 0, b""),
    (b"\x41", 0, b""),
    (b"\x21\x02\x00\x01", 0, b""),
    (b"\x21\x01\x02\x01", 0, b""),
    (b"\x24", 0, b"\0"),
    (b"\x26\0\0\0\x05", 0, b"\0"),
    (b"\x23\0\0\0\0\0", 1, b""),
    (b"\x28", 1, b"\x07"),
    (b"\x29", 0, b"\0"),
];

/// Each kind of answer, likewise.
const ANSWERS: [Row; 11] = [
    (b"\x41", 0, b""),
    // Base 0, one entry and the part `hi`.
    (
        b"\x42\0\0\0\0\0\x01\x03\0\0\x01\x02\x01\x01a\x01x",
        1,
        b"hi",
    ),
    (b"\x43", 0, b""),
    (b"\x44\0\0\0\x01", 2, b"hi"),
    (b"\x44\0\0\0\0", 0, b""),
    (b"\x45\0\0\0\x01", 2, b"\0\0"),
    (b"\x46\x02", 0, b""),
    (b"\x47", 0, b""),
    (b"\x48", 0, b"hi"),
    (b"\x49", 0, b""),
    (b"\x4a", 0, b""),
];

const BAD_ANSWERS: [Row; 8] = [
    (b"\x4b", 0, b""),
    (b"\x21\x01\x00\x01", 0, b""),
    (b"\x46\0", 0, b""),
    (b"\x46\x08", 0, b""),
    (b"\x46\x02", 0, b"\x02"),
    // A Reply has at least one entry.
    (b"\x42\0\0\0\0\0\0", 0, b""),
    (b"\x45\0\0\0\x01", 2, b"\0\0\0"),
    (b"\x45\0\0\0\x01", 2, b"\x20\x01"),
];

fn payload_of(alloc: Global, row: &Row) -> Result<Bytes, NoMemory> {
    let mut payload = Bytes::of(alloc, row.0)?;
    for _ in 0..row.1 {
        payload.append(&[7; 32])?;
    }
    payload.append(row.2)?;
    Ok(payload)
}

/// What is written of the request that is read of a payload.
fn request_again(alloc: Global, payload: &[u8]) -> Result<Option<Bytes>, NoMemory> {
    match decode_request(alloc, payload)? {
        Some(m) => Ok(Some(encode_request(alloc, &m)?)),
        None => Ok(None),
    }
}

fn answer_again(alloc: Global, payload: &[u8]) -> Result<Option<Bytes>, NoMemory> {
    match decode_answer(alloc, payload)? {
        Some(m) => Ok(Some(encode_answer(alloc, &m)?)),
        None => Ok(None),
    }
}

#[test]
fn requests_both_ways(rt: HostRuntime) -> Result<(), Fail> {
    for row in &REQUESTS {
        let payload = payload_of(rt.alloc(), row).ok().ok_or("memory")?;
        let again = request_again(rt.alloc(), payload.as_slice())
            .ok()
            .ok_or("memory")?;
        let written = again.ok_or("each of these is a request")?;
        assert_eq!(rt; written.as_slice(), payload.as_slice());
    }
    for row in &BAD_REQUESTS {
        let payload = payload_of(rt.alloc(), row).ok().ok_or("memory")?;
        let again = request_again(rt.alloc(), payload.as_slice())
            .ok()
            .ok_or("memory")?;
        assert!(rt; again.is_none());
    }
    Ok(())
}

#[test]
fn answers_both_ways(rt: HostRuntime) -> Result<(), Fail> {
    for row in &ANSWERS {
        let payload = payload_of(rt.alloc(), row).ok().ok_or("memory")?;
        let again = answer_again(rt.alloc(), payload.as_slice())
            .ok()
            .ok_or("memory")?;
        let written = again.ok_or("each of these is an answer")?;
        assert_eq!(rt; written.as_slice(), payload.as_slice());
    }
    for row in &BAD_ANSWERS {
        let payload = payload_of(rt.alloc(), row).ok().ok_or("memory")?;
        let again = answer_again(rt.alloc(), payload.as_slice())
            .ok()
            .ok_or("memory")?;
        assert!(rt; again.is_none());
    }
    Ok(())
}

#[test]
fn what_is_meant(rt: HostRuntime) -> Result<(), Fail> {
    let hello = encode_request(rt.alloc(), &ToServer::Hello(Mode::Plain, 1))
        .ok()
        .ok_or("memory")?;
    assert_eq!(rt; hello.as_slice(), b"\x21\x01\x00\x01".as_slice());
    let sync = encode_request(rt.alloc(), &ToServer::Sync(5))
        .ok()
        .ok_or("memory")?;
    assert_eq!(rt; sync.as_slice(), b"\x26\0\0\0\x05".as_slice());
    let refused = encode_answer(rt.alloc(), &ToClient::Refused(2))
        .ok()
        .ok_or("memory")?;
    assert_eq!(rt; refused.as_slice(), b"\x46\x02".as_slice());
    assert!(rt;
        matches!(
            decode_request(rt.alloc(), b"\x26\0\0\0\x05"),
            Ok(Some(ToServer::Sync(5)))
        )
    );
    assert!(rt;
        matches!(
            decode_answer(rt.alloc(), b"\x46\x02"),
            Ok(Some(ToClient::Refused(2)))
        )
    );
    Ok(())
}

/// Blocks of 4,096 bytes, so many.
fn blocks(alloc: Global, count: usize) -> Result<Bytes, NoMemory> {
    let mut content = Bytes::new(alloc);
    for _ in 0..count {
        content.append(&[7; 4096])?;
    }
    Ok(content)
}

/// What is written where the content is kept; none where it is too long.
fn kept(alloc: Global, content: Bytes) -> Result<Option<Bytes>, NoMemory> {
    if content.len() <= 8_388_608 {
        return Ok(Some(encode_request(alloc, &ToServer::Keep(content))?));
    }
    Ok(None)
}

fn is_keep_of(read: &Option<ToServer>, content: &[u8]) -> bool {
    match read {
        Some(ToServer::Keep(kept)) => kept.as_slice() == content,
        _ => false,
    }
}

#[test]
fn longest_content(rt: HostRuntime) -> Result<(), Fail> {
    let alloc = rt.alloc();
    let content = blocks(alloc, 2048).ok().ok_or("memory")?;
    assert_eq!(rt; content.len(), 8_388_608);
    let copied = content.copy(alloc).ok().ok_or("memory")?;
    let mut payload = kept(alloc, copied)
        .ok()
        .ok_or("memory")?
        .ok_or("it is not too long")?;
    assert_eq!(rt; payload.len(), 8_388_609);
    let read = decode_request(alloc, payload.as_slice())
        .ok()
        .ok_or("memory")?;
    assert!(rt; is_keep_of(&read, content.as_slice()), "the content");
    payload.push(7).ok().ok_or("memory")?;
    let read = decode_request(alloc, payload.as_slice())
        .ok()
        .ok_or("memory")?;
    assert!(rt; read.is_none(), "a byte more");
    Ok(())
}
