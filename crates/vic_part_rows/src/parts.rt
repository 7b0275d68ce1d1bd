ghost use Rattle.std.specs.Prelude.{◌≤◌, ◌≡◌, ◌<◌, length, IfOk};
ghost use Rattle.vic_dict.specs.Dictionary.{Fits, IsKey};

use std::alloc::Global;
use std::process::Abort;
use std::test::Fail;
use vic_dict::{Answer, Bytes, NoMemory, Op};
use vic_hash::Digest32;
use vic_prune::{PruneFault, Pruned, cut_for, cut_none};
use vic_trie::{Node, Trie};

/// The hashes of the bytes 03 01 61 78 and 03 01 62 79, the leaves of `a` = `x` and `b` = `y`, and of 04 00 07 with these two.
const LEAF_A: [u8; 32] = [
    0xea, 0x09, 0xc1, 0xe7, 0xf7, 0xdd, 0xd3, 0x75, 0xc0, 0x98, 0xac, 0xc3, 0x81, 0x73, 0xa2, 0x8e,
    0x6f, 0x70, 0x55, 0xc6, 0x96, 0xe8, 0x6d, 0x66, 0x98, 0xee, 0x0e, 0xa1, 0x34, 0x38, 0xa2, 0xbb,
];

const LEAF_B: [u8; 32] = [
    0x99, 0xdb, 0xee, 0x3b, 0x08, 0x25, 0x04, 0x33, 0x14, 0x74, 0xa0, 0x24, 0x97, 0x4e, 0x58, 0x5b,
    0x6c, 0xc2, 0xb8, 0x41, 0xe5, 0xe2, 0xac, 0x13, 0x00, 0xf4, 0x01, 0xc7, 0xd2, 0x8d, 0x8f, 0x6a,
];

const BOTH: [u8; 32] = [
    0xad, 0x29, 0xb3, 0x56, 0x1c, 0xdb, 0xfc, 0x6b, 0xe8, 0x08, 0x13, 0x90, 0xc7, 0xc9, 0x1e, 0x91,
    0x80, 0xc6, 0x73, 0xba, 0xce, 0x7c, 0xae, 0x6e, 0xa8, 0x68, 0x0c, 0x61, 0x84, 0x4a, 0x07, 0x40,
];
/// The root of the empty tree, the hash of the byte 02.
const NOTHING: [u8; 32] = [
    0xdb, 0xc1, 0xb4, 0xc9, 0x00, 0xff, 0xe4, 0x8d, 0x57, 0x5b, 0x5d, 0xa5, 0xc6, 0x38, 0x04, 0x01,
    0x25, 0xf6, 0x5d, 0xb0, 0xfe, 0x3e, 0x24, 0x49, 0x4b, 0x76, 0xea, 0x98, 0x64, 0x57, 0xd9, 0x86,
];

fn put<R: Abort>(rt: &R, trie: &mut Trie, key: &[u8], value: &[u8]) -> Result<(), NoMemory>
    requires key { IsKey key.now }
    requires value { length value.now ≤ 64 }
{
    assert!(rt; trie.weight() < 1000);
    trie.put(key, value)
}

// `a` = `x` and `b` = `y`: the bits of the keys part at 7.
fn pair<R: Abort>(rt: &R, alloc: Global) -> Result<Trie, NoMemory> {
    let mut trie = Trie::new(alloc);
    put(rt, &mut trie, b"a", b"x")?;
    put(rt, &mut trie, b"b", b"y")?;
    Ok(trie)
}

fn key_of(alloc: Global, key: &[u8]) -> Result<Bytes, NoMemory>
    requires { length key.now ≤ 255 }
    ensures { IfOk result (λ b. b ≡ key.now) }
{
    Bytes::of(alloc, key)
}

fn get(alloc: Global, key: &[u8]) -> Result<Op, NoMemory>
    requires { IsKey key.now }
    ensures { IfOk result (λ op. Fits op) }
{
    Ok(Op::Get(key_of(alloc, key)?))
}

fn del(alloc: Global, key: &[u8]) -> Result<Op, NoMemory>
    requires { IsKey key.now }
    ensures { IfOk result (λ op. Fits op) }
{
    Ok(Op::Del(key_of(alloc, key)?))
}

/// Calls of the dictionary of two pairs.
#[test]
fn two_pairs(rt: HostRuntime) -> Result<(), Fail> {
    let mut trie = pair(&rt, rt.alloc())?;
    assert!(rt; trie.root().bytes == BOTH && trie.len() == 2 && trie.weight() == 36);
    let names = trie.list(b"")?;
    assert!(rt; names.len() == 2 && names.at(0).as_slice() == b"a".as_slice());
    assert!(rt; names.at(1).as_slice() == b"b".as_slice());
    assert!(rt; trie.copy()?.root().bytes == BOTH);
    assert!(rt; trie.del(b"b") && !trie.del(b"b"));
    assert!(rt; trie.root().bytes == LEAF_A && trie.len() == 1 && trie.weight() == 18);
    assert!(rt; trie.del(b"a") && trie.root().bytes == NOTHING && trie.top().is_none());
    assert!(rt; matches!(cut_none(&trie), Pruned::Empty));
    Ok(())
}

/// Parts of its tree.
#[test]
fn parts_of_two(rt: HostRuntime) -> Result<(), Fail> {
    let alloc = rt.alloc();
    let trie = pair(&rt, alloc)?;
    let found = get(alloc, b"a")?;
    let part = cut_for(alloc, &trie, &found)?;
    assert!(rt; part.root().bytes == BOTH && part.reaches(&found));
    let answer = part.try_op(alloc, &found);
    match &answer {
        Ok(Answer::Found(value)) => assert!(rt; value.as_slice() == b"x".as_slice()),
        _ => assert!(rt; false),
    }
    let other = get(alloc, b"b")?;
    assert!(rt; !part.reaches(&other) && part.after(&other) == Err(PruneFault::Stub));
    let missing = part.try_op(alloc, &other);
    assert!(rt; matches!(&missing, Err(PruneFault::Stub)));
    let gone = del(alloc, b"b")?;
    let shorter = cut_for(alloc, &trie, &gone)?;
    assert!(rt; shorter.after(&gone) == Ok(Digest32 { bytes: LEAF_A }));
    Ok(())
}

/// A change that is taken back leaves the root that there was.
#[test]
fn changed_back(rt: HostRuntime) -> Result<(), Fail> {
    let alloc = rt.alloc();
    let mut trie = pair(&rt, alloc)?;
    assert!(rt; trie.weight() < 1000);
    let gone = del(alloc, b"a")?;
    let undo = trie.change(&gone)?;
    assert!(rt; trie.root().bytes == LEAF_B && trie.weight() < 1000);
    trie.undo(undo);
    assert!(rt; trie.root().bytes == BOTH && trie.len() == 2 && trie.weight() == 36);
    let more = Op::Put(key_of(alloc, b"c")?, key_of(alloc, b"z")?);
    assert!(rt; more.fits());
    let undo = trie.change(&more)?;
    assert!(rt; trie.len() == 3 && trie.weight() == 54 && trie.root().bytes != BOTH);
    trie.undo(undo);
    assert!(rt; trie.root().bytes == BOTH && trie.len() == 2);
    let other = Op::Put(key_of(alloc, b"a")?, key_of(alloc, b"longer")?);
    assert!(rt; other.fits() && trie.weight() < 1000);
    let undo = trie.change(&other)?;
    assert!(rt; trie.len() == 2 && trie.weight() == 41 && trie.root().bytes != BOTH);
    trie.undo(undo);
    assert!(rt; trie.root().bytes == BOTH && trie.weight() == 36);
    Ok(())
}

/// Keys of 254 and 255 bytes part at bit 2286, and each part shows its key. The root is made outside.
#[test]
fn longest_keys(rt: HostRuntime) -> Result<(), Fail> {
    let alloc = rt.alloc();
    let long = [0x61u8; 255];
    let mut trie = Trie::new(alloc);
    put(&rt, &mut trie, &long[..254], b"")?;
    put(&rt, &mut trie, &long, b"")?;
    match trie.top() {
        Some(Node::Inner(index, _, left, right)) => {
            assert_eq!(rt; *index, 2286);
            assert!(rt; matches!(&**left, Node::Leaf(key, _, _) if key.len() == 254));
            assert!(rt; matches!(&**right, Node::Leaf(key, _, _) if key.len() == 255));
        }
        _ => assert!(rt; false),
    }
    let root = trie.root();
    assert!(rt; root.bytes[..4] == [0xb4, 0xf8, 0xd0, 0x4f]);
    for n in 254..256 {
        let op = get(alloc, &long[..n])?;
        let part = cut_for(alloc, &trie, &op)?;
        assert!(rt; part.reaches(&op) && part.root() == root);
    }
    Ok(())
}
