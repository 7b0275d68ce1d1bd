ghost use Rattle.std.specs.Prelude.{◌<◌, ◌≤◌, length, IfOk, ◌^◌};
ghost use Rattle.vic_wire.specs.Messages.{IsEntry};

use crate::{Window, chain_step, genesis};
use sha2::{Digest, Sha256};
use std::alloc::Global;
use std::test::Fail;
use vic_dict::{Bytes, Entry, Mode, NoMemory, Op};
use vic_wire::Digest32;

fn got(alloc: Global, client: u8, seq: u32, key: &[u8]) -> Result<Entry, NoMemory>
    requires low { 0 < client }
    requires high { client ≤ 64 }
    requires number { 0 < seq }
    requires some { 0 < length key.now }
    requires short { length key.now ≤ 255 }
    ensures { IfOk result (λ e. IsEntry e) }
{
    Ok(Entry {
        client,
        seq,
        op: Op::Get(Bytes::of(alloc, key)?),
    })
}

// The texts, byte by byte, and a window that grows, is sealed and is cut back.
#[test]
fn hashes(rt: HostRuntime) -> Result<(), Fail> {
    let mut window = Window::new(rt.alloc(), Mode::Plain, 2);
    let start = genesis(Mode::Plain, 2);
    assert!(rt; start.bytes == Sha256::digest(b"\x05\x01\x00\x02"));
    let entry = got(rt.alloc(), 1, 3, b"a")?;
    let mut text = Sha256::new();
    text.update(b"\x01");
    text.update(start.bytes.as_slice());
    text.update(b"\x01\x00\x00\x00\x03\x02\x01a");
    let first = chain_step(&start, &entry);
    assert!(rt; first.bytes == text.finalize());
    let other = got(rt.alloc(), 2, 1, b"b")?;
    window.extend(&entry)?;
    window.extend(&other)?;
    assert!(rt; window.length() == 2 && window.sealed() == 0);
    assert!(rt; window.hash_at(0) == start && window.hash_at(1) == first);
    assert!(rt; window.entry_at(1).client == 1 && window.entry_at(2).client == 2);
    let root = Digest32 { bytes: [7; 32] };
    window.advance(1, &root);
    assert!(rt; window.length() == 2 && window.sealed() == 1 && window.root() == root);
    assert!(rt; window.hash_at(1) == first && window.hash_at(2) == chain_step(&first, &other));
    window.cut_back(1);
    assert!(rt; window.length() == 1 && window.hash_at(1) == first);
    Ok(())
}
