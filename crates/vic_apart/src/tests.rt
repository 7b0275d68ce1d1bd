use crate::contents::put_contents_at;
use crate::nodes::{put_part_texts, put_tree_texts};
use crate::{ByHash, are_apart, are_texts_apart, listed_texts};
use std::alloc::Global;
use std::test::Fail;
use vic_dict::{Bytes, Mode, Names, NoMemory, Outcome};
use vic_rules::{Input, TraceStep};
use vic_tag::GroupKey;
use vic_trie::Trie;
use vic_view::Transcript;
use vic_wire::Digest32;

/// A made-up hash.
fn digest(byte: u8) -> Digest32 {
    Digest32 { bytes: [byte; 32] }
}

// Two different texts under one hash clash, whichever comes first, and no others do. The hashes are made up, since nobody has two texts of
// one SHA-256 value.
#[test]
fn clash_under_one_hash(rt: HostRuntime) -> Result<(), Fail> {
    let alloc = rt.alloc();
    let mut seen = ByHash::new(alloc);
    assert!(rt; !seen.insert(alloc, &digest(1), b"one")?);
    assert!(rt; !seen.insert(alloc, &digest(2), b"other")?);
    assert!(rt; !seen.insert(alloc, &digest(1), b"one")?);
    assert!(rt; seen.insert(alloc, &digest(1), b"other")?);
    assert!(rt; seen.insert(alloc, &digest(2), b"one")?);
    assert!(rt; seen.insert(alloc, &digest(2), b"")?);
    assert!(rt; !seen.insert(alloc, &digest(2), b"other")?);
    assert!(rt; !seen.insert(alloc, &digest(3), b"one")?);
    Ok(())
}

fn names(alloc: Global, texts: &[&[u8]]) -> Result<Names, NoMemory> {
    let mut all = Names::new(alloc);
    for text in texts {
        all.push(Bytes::of(alloc, *text)?)?;
    }
    Ok(all)
}

// Texts of which some stand twice.
#[test]
fn texts_with_their_hashes(rt: HostRuntime) -> Result<(), Fail> {
    let alloc = rt.alloc();
    let texts = names(alloc, &[b"a", b"b", b"a", b"", b"ab", b""])?;
    assert!(rt; are_texts_apart(alloc, texts.as_slice())?);
    assert!(rt; are_texts_apart(alloc, &[])?);
    Ok(())
}

/// Whether these are the texts.
fn are_these(texts: &Names, expected: &[&[u8]]) -> bool {
    if texts.len() != expected.len() {
        return false;
    }
    for (i, text) in texts.as_slice().iter().enumerate() {
        if text.as_slice() != expected[i] {
            return false;
        }
    }
    true
}

// A group of three in which nothing was done: the text of the group, and for each client that of the empty dictionary.
#[test]
fn nothing_done(rt: HostRuntime) -> Result<(), Fail> {
    let alloc = rt.alloc();
    let key = GroupKey::from_hex(alloc, "00")?;
    let _size = key.len();
    let t = Transcript::new(alloc, Mode::Plain, 3, key);
    let texts = listed_texts(alloc, &t)?;
    assert!(rt; are_these(&texts, &[&[5, 1, 0, 3], &[2], &[2], &[2]]));
    assert!(rt; are_apart(alloc, &t)?);
    Ok(())
}

/// A step at which a client takes a payload and sends one.
fn step(alloc: Global, taken: &[u8], sent: &[u8]) -> Result<TraceStep, NoMemory> {
    Ok(TraceStep {
        client: 1,
        input: Input::Payload(Bytes::of(alloc, taken)?),
        sent: Some(Bytes::of(alloc, sent)?),
        returned: None,
        object: None,
    })
}

// A content that is sent to be kept, and then one that was taken; neither of a call or of an answer that the client halted on.
#[test]
fn texts_of_two_contents(rt: HostRuntime) -> Result<(), Fail> {
    let alloc = rt.alloc();
    let mut texts = Names::new(alloc);
    put_contents_at(alloc, &step(alloc, b"\x48yy", b"\x27x")?, &mut texts)?;
    put_contents_at(alloc, &step(alloc, b"\x43", b"\x24")?, &mut texts)?;
    let mut halted = step(alloc, b"\x48z", b"\x26\0\0\0\0")?;
    halted.returned = Some(Outcome::Halted(9));
    put_contents_at(alloc, &halted, &mut texts)?;
    assert!(rt; are_these(&texts, &[&[6, b'x'], &[6, b'y', b'y']]));
    Ok(())
}

// The part 01, an inner node 02 of bit 7 with the leaf of a and x on its left side and a stub on the right. The digest is what
// `sha256sum` prints for the leaf's text, 03 01 61 78.
#[test]
fn nodes_of_a_part(rt: HostRuntime) -> Result<(), Fail> {
    let alloc = rt.alloc();
    let mut bytes = Bytes::of(alloc, &[1, 2, 0, 7, 1, 1, b'a', 1, b'x', 3])?;
    bytes.append(&[9; 32])?;
    let mut inner = Bytes::of(alloc, &[4, 0, 7])?;
    inner.append(&[
        0xea, 0x09, 0xc1, 0xe7, 0xf7, 0xdd, 0xd3, 0x75, 0xc0, 0x98, 0xac, 0xc3, 0x81, 0x73, 0xa2,
        0x8e, 0x6f, 0x70, 0x55, 0xc6, 0x96, 0xe8, 0x6d, 0x66, 0x98, 0xee, 0x0e, 0xa1, 0x34, 0x38,
        0xa2, 0xbb,
    ])?;
    inner.append(&[9; 32])?;
    let mut texts = Names::new(alloc);
    put_part_texts(alloc, bytes.as_slice(), &mut texts)?;
    assert!(rt; are_these(&texts, &[inner.as_slice(), &[3, 1, b'a', b'x']]));
    // Bytes that spell no part.
    put_part_texts(alloc, &[1, 9], &mut texts)?;
    assert_eq!(rt; texts.len(), 2);
    Ok(())
}

// The trees of the empty dictionary and of one pair.
#[test]
fn nodes_of_a_dictionary(rt: HostRuntime) -> Result<(), Fail> {
    let alloc = rt.alloc();
    let mut dict = Trie::new(alloc);
    let mut texts = Names::new(alloc);
    put_tree_texts(alloc, &dict, &mut texts)?;
    if dict.weight() == 0 {
        dict.put(b"a", b"x")?;
    }
    put_tree_texts(alloc, &dict, &mut texts)?;
    assert!(rt; are_these(&texts, &[&[2], &[3, 1, b'a', b'x']]));
    Ok(())
}
