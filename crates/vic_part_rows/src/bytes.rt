ghost use Rattle.std.specs.Prelude.{◌≡◌, ◌<◌, ◌≤◌, length, IfOk};
ghost use Rattle.vic_dict.specs.Dictionary.{Fits, IsKey};
ghost use Rattle.vic_prune.specs.Parts.{part as part_in};
ghost use Rattle.vic_wire.specs.Parts.{IsPart};

use std::alloc::Global;
use std::test::*;
use std::thread;
use std::thread::Threads;
use vic_dict::{Answer, Bytes, NoMemory, Op};
use vic_proof::{ProofFault, bare_bytes, cut_bytes, part_bytes, part_of};
use vic_prune::{PruneFault, Pruned, cut_for, cut_none};
use vic_trie::Trie;

// `a` = `x` and `b` = `y`: the bits of the keys part at 7.
const BOTH: [u8; 14] = [1, 2, 0, 7, 1, 1, 0x61, 1, 0x78, 1, 1, 0x62, 1, 0x79];

/// The part of that tree for `a`: its leaf, and the hash of the bytes 03 01 62 79.
const ONE: [u8; 42] = [
    1, 2, 0, 7, 1, 1, 0x61, 1, 0x78, 3, 0x99, 0xdb, 0xee, 0x3b, 0x08, 0x25, 0x04, 0x33, 0x14, 0x74,
    0xa0, 0x24, 0x97, 0x4e, 0x58, 0x5b, 0x6c, 0xc2, 0xb8, 0x41, 0xe5, 0xe2, 0xac, 0x13, 0x00, 0xf4,
    0x01, 0xc7, 0xd2, 0x8d, 0x8f, 0x6a,
];

/// Roots of the part that `walks_down` makes once its key has the value `y`, and without the key. Python's hashlib gave them, from the
/// texts of leaves and inner nodes, from the bottom up.
const LOWEST_PUT: [u8; 32] = [
    0xfd, 0x15, 0x0f, 0x76, 0x42, 0xc8, 0x04, 0x5d, 0x2a, 0x81, 0xa2, 0x5e, 0x17, 0xc6, 0x23, 0xe7,
    0xef, 0x53, 0x0c, 0x9b, 0xa3, 0xea, 0x15, 0x65, 0x0a, 0x22, 0xa0, 0x4a, 0x76, 0x33, 0xa3, 0xb2,
];

const LOWEST_GONE: [u8; 32] = [
    0x09, 0x4b, 0x07, 0xa7, 0x99, 0x84, 0xd6, 0xb1, 0x8b, 0xcf, 0x42, 0x74, 0x00, 0x18, 0x97, 0xd5,
    0xec, 0x65, 0x7e, 0x2f, 0xc8, 0xb6, 0x32, 0x8d, 0x3a, 0x4e, 0xe7, 0xb8, 0x9d, 0xdb, 0xef, 0x5a,
];

/// Bytes that are no part, and the first fault of each.
const FAULTS: [(&'static [u8], ProofFault); 20] = [
    (&[], ProofFault::Short(0)),
    (&[0, 0, 0, 0, 0], ProofFault::BadTag(0)),
    (&[2], ProofFault::BadTag(0)),
    (&[1], ProofFault::Short(1)),
    (&[1, 5], ProofFault::BadTag(1)),
    (&[1, 0, 0], ProofFault::Trailing(2)),
    (&[1, 1], ProofFault::Short(2)),
    (&[1, 1, 0], ProofFault::BadLength(2)),
    (&[1, 1, 2, 0x61], ProofFault::Short(3)),
    (&[1, 1, 1, 0x61], ProofFault::Short(4)),
    (&[1, 1, 1, 0x61, 65], ProofFault::BadLength(4)),
    (&[1, 1, 1, 0x61, 2, 0x78], ProofFault::Short(5)),
    (&[1, 1, 1, 0x61, 0, 1, 1], ProofFault::Trailing(5)),
    (&[1, 2, 9], ProofFault::Short(2)),
    // The last bit of a key is 2,295.
    (&[1, 2, 9, 0], ProofFault::IndexNotRising(2)),
    (&[1, 2, 8, 0xf8], ProofFault::IndexNotRising(2)),
    (&[1, 2, 8, 0xf7], ProofFault::Short(4)),
    (&[1, 2, 0, 7, 0], ProofFault::BadTag(4)),
    // An index that doesn't rise comes before a length that isn't allowed.
    (&[1, 2, 0, 7, 2, 0, 7, 1, 0], ProofFault::IndexNotRising(5)),
    (&[1, 3, 7, 7], ProofFault::Short(2)),
];

fn put(trie: &mut Trie, key: &[u8], value: &[u8]) -> Result<(), NoMemory>
    requires key { IsKey key.now }
    requires value { length value.now ≤ 64 }
{
    if trie.weight() > 1000 {
        return Err(NoMemory);
    }
    trie.put(key, value)
}

fn pair(alloc: Global) -> Result<Trie, NoMemory> {
    let mut trie = Trie::new(alloc);
    put(&mut trie, b"a", b"x")?;
    put(&mut trie, b"b", b"y")?;
    Ok(trie)
}

// Whether the part for an operation has these bytes, by either way of writing them.
fn is_cut(alloc: Global, trie: &Trie, op: &Op, bytes: &[u8]) -> Result<bool, NoMemory>
    requires { Fits op.now }
{
    let part = cut_for(alloc, trie, op)?;
    let one = part_bytes(alloc, &part)?;
    let other = cut_bytes(alloc, trie, op)?;
    Ok(one.as_slice() == bytes && other.as_slice() == bytes)
}

// Whether bytes are read as a part, and written again as they were.
fn comes_back(alloc: Global, bytes: &[u8]) -> Result<bool, NoMemory> {
    match part_of(alloc, bytes) {
        Ok(part) => Ok(part_bytes(alloc, &part)?.as_slice() == bytes),
        Err(_) => Ok(false),
    }
}

/// Parts of the tree of two pairs and of the empty one, both ways.
#[test]
fn both_ways(rt: HostRuntime) -> Result<(), Fail> {
    let alloc = rt.alloc();
    let trie = pair(alloc)?;
    let all = Op::List(Bytes::new(alloc));
    let one = Op::Get(Bytes::of(alloc, b"a")?);
    assert!(rt; all.fits() && one.fits());
    assert!(rt; is_cut(alloc, &trie, &all, &BOTH)? && is_cut(alloc, &trie, &one, &ONE)?);
    let nothing = Trie::new(alloc);
    assert!(rt; is_cut(alloc, &nothing, &one, &[1, 0])? && is_cut(alloc, &nothing, &all, &[1, 0])?);
    assert!(rt; bare_bytes(alloc, &nothing)?.as_slice() == [1, 0].as_slice());
    let bare = part_bytes(alloc, &cut_none(&trie))?;
    assert!(rt; bare.as_slice() == bare_bytes(alloc, &trie)?.as_slice() && bare.len() == 34);
    assert!(rt;
        comes_back(alloc, &BOTH)? && comes_back(alloc, &ONE)? && comes_back(alloc, &[1, 0])?
    );
    Ok(())
}

#[test]
fn first_faults(rt: HostRuntime) -> Result<(), Fail> {
    for (bytes, fault) in FAULTS.iter() {
        match part_of(rt.alloc(), bytes) {
            Ok(_) => assert!(rt; false),
            Err(cause) => assert_eq!(rt; cause, *fault),
        }
    }
    Ok(())
}

// A part of so many inner nodes, each on the right of the one above and with a stub on its left; then these bytes, and a stub.
fn deep(alloc: Global, levels: u16, last: &[u8]) -> Result<Bytes, NoMemory> {
    let mut out = Bytes::new(alloc);
    out.push(1)?;
    for index in 0..levels {
        out.push(2)?;
        out.append(&index.to_be_bytes())?;
        out.push(3)?;
        out.append(&[0u8; 32])?;
    }
    out.append(last)?;
    out.push(3)?;
    out.append(&[0u8; 32])?;
    Ok(out)
}

// Whether the deepest part, of 2,296 inner nodes, is read and written again, hashed and walked over.
fn goes_deep(alloc: Global) -> Result<bool, NoMemory> {
    let bytes = deep(alloc, 2296, &[])?;
    let op = Op::Get(Bytes::of(alloc, b"a")?);
    match part_of(alloc, bytes.as_slice()) {
        Ok(part) => {
            let again = part_bytes(alloc, &part)?;
            let root = part.root();
            let hashed = root.bytes[0] != 0 || root.bytes[1] != 0 || root.bytes[2] != 0;
            let walked = op.fits() && !part.reaches(&op);
            Ok(again.as_slice() == bytes.as_slice() && hashed && walked)
        }
        Err(_) => Ok(false),
    }
}

// A part whose key, of 255 bytes 0xff, stands at its bottom. The key's bits are 1 but for the last one, 2,295: there its leaf stands on
// the left, and a stub on the right.
fn lowest(alloc: Global, key: &[u8]) -> Result<Bytes, NoMemory> {
    let mut last = Bytes::of(alloc, &[2, 0x08, 0xf7, 1, 255])?;
    last.append(key)?;
    last.append(&[1, 0x78])?;
    deep(alloc, 2295, last.as_slice())
}

// Whether the part reaches a get of the key, which finds its value at the bottom.
fn finds(alloc: Global, part: &Pruned, key: &[u8]) -> Result<bool, NoMemory>
    requires key { length key.now ≤ 255 }
    requires part { IsPart (part_in part.now) }
{
    let get = Op::Get(Bytes::of(alloc, key)?);
    if !get.fits() {
        return Ok(false);
    }
    if !part.reaches(&get) {
        return Ok(false);
    }
    let answer = part.try_op(alloc, &get);
    match &answer {
        Ok(Answer::Found(value)) => Ok(value.as_slice() == b"x".as_slice()),
        _ => Ok(false),
    }
}

// Whether a list of the key's names meets the stub on the right.
fn list_stops(alloc: Global, part: &Pruned, key: &[u8]) -> Result<bool, NoMemory>
    requires key { length key.now ≤ 255 }
    requires part { IsPart (part_in part.now) }
{
    let list = Op::List(Bytes::of(alloc, key)?);
    if !list.fits() {
        return Ok(false);
    }
    let names = part.try_op(alloc, &list);
    Ok(matches!(&names, Err(PruneFault::Stub)))
}

// Whether the part has this root behind an operation that fits.
fn leaves(part: &Pruned, op: &Op, root: &[u8; 32]) -> bool
    requires { IsPart (part_in part.now) }
{
    if !op.fits() {
        return false;
    }
    match part.after(op) {
        Ok(found) => found.bytes == *root,
        Err(_) => false,
    }
}

// Whether a put of another value and a del rehash the whole way up.
fn changes(alloc: Global, part: &Pruned, key: &[u8]) -> Result<bool, NoMemory>
    requires key { length key.now ≤ 255 }
    requires part { IsPart (part_in part.now) }
{
    let put = Op::Put(Bytes::of(alloc, key)?, Bytes::of(alloc, b"y")?);
    let del = Op::Del(Bytes::of(alloc, key)?);
    Ok(leaves(part, &put, &LOWEST_PUT) && leaves(part, &del, &LOWEST_GONE))
}

// Whether operations walk such a part down to its bottom.
fn walks_down(alloc: Global) -> Result<bool, NoMemory> {
    let key = [0xffu8; 255];
    let bytes = lowest(alloc, &key)?;
    match part_of(alloc, bytes.as_slice()) {
        Ok(part) => Ok(
            finds(alloc, &part, &key)?
                && changes(alloc, &part, &key)?
                && list_stops(alloc, &part, &key)?,
        ),
        Err(_) => Ok(false),
    }
}

fn go_deep(alloc: Global, found: &mut bool) {
    *found = goes_deep(alloc) == Ok(true) && walks_down(alloc) == Ok(true);
}

// In threads, as those of connections are.
fn in_threads<R: Threads + Sync>(rt: &R, alloc: Global, found: &mut [bool]) {
    thread::for_each_mut(rt, found, 2, &|_, one: &mut bool| go_deep(alloc, one));
}

#[test]
fn deepest_part(rt: HostRuntime) -> Result<(), Fail> {
    let alloc = rt.alloc();
    assert!(rt; goes_deep(alloc)? && walks_down(alloc)?);
    let mut found = [false; 2];
    in_threads(&rt, alloc, &mut found);
    assert!(rt; found[0] && found[1]);
    Ok(())
}
