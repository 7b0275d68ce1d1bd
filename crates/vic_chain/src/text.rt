//! Hashes of a path, and entries fed to a hasher field by field.

ghost use Rattle.std.specs.Prelude.{◌≤◌, ◌≡◌, ◌<◌, List, ℕ, ◌++◌, ◌∷◌, [], length};
ghost use Rattle.sha2.specs.Hashers.{Holds256};
ghost use Rattle.vic_dict.specs.Dictionary.{Fits};
ghost use Rattle.vic_wire.specs.Texts.{short_text, op_text, entry_text, genesis_text, chain_text, mode_byte};
ghost use Rattle.vic_wire.specs.Hashes.{hash};
ghost use Rattle.vic_wire.specs.Messages.{IsEntry};

use sha2::{Digest, Sha256};
use vic_dict::{Bytes, Entry, Mode, Op};
use vic_wire::Digest32;

// A length byte, and the bytes.
fn feed_short(hasher: &mut Sha256, text: &Bytes)
    requires { length text.now ≤ 255 }
    ensures { (m : List ℕ) → Holds256 hasher.old m → Holds256 hasher.new (m ++ short_text text.now) }
{
    let size = text.len() as u8;
    hasher.update([size].as_slice());
    hasher.update(text.as_slice());
}

// The kind byte of an operation, and its first text.
fn feed_kind(hasher: &mut Sha256, kind: u8, text: &Bytes)
    requires { length text.now ≤ 255 }
    ensures { (m : List ℕ) → Holds256 hasher.old m → Holds256 hasher.new (m ++ kind ∷ short_text text.now) }
{
    hasher.update([kind].as_slice());
    feed_short(hasher, text);
}

fn feed_put(hasher: &mut Sha256, key: &Bytes, value: &Bytes)
    requires key { length key.now ≤ 255 }
    requires value { length value.now ≤ 255 }
    ensures { (m : List ℕ) → Holds256 hasher.old m → Holds256 hasher.new (m ++ 1 ∷ short_text key.now ++ short_text value.now) }
{
    feed_kind(hasher, 1, key);
    feed_short(hasher, value);
}

fn feed_op(hasher: &mut Sha256, op: &Op)
    requires { Fits op.now }
    ensures { (m : List ℕ) → Holds256 hasher.old m → Holds256 hasher.new (m ++ op_text op.now) }
{
    match op {
        Op::Put(key, value) => feed_put(hasher, key, value),
        Op::Get(key) => feed_kind(hasher, 2, key),
        Op::Del(key) => feed_kind(hasher, 3, key),
        Op::List(prefix) => feed_kind(hasher, 4, prefix),
    }
}

/// Feeds the bytes of an entry to a hasher.
pub fn feed_entry(hasher: &mut Sha256, entry: &Entry)
    requires { Fits entry.now.op }
    ensures { (m : List ℕ) → Holds256 hasher.old m → Holds256 hasher.new (m ++ entry_text entry.now) }
{
    hasher.update([entry.client].as_slice());
    hasher.update(entry.seq.to_be_bytes().as_slice());
    feed_op(hasher, &entry.op);
}

fn mode_code(mode: Mode) -> u8
    ensures { result ≡ mode_byte mode }
{
    match mode {
        Mode::Plain => 0,
        Mode::Objects => 1,
    }
}

/// The hash of the empty path in a group of this kind and with so many clients: that of the four bytes 05, 01, the mode (00 plain,
/// 01 objects) and the count.
pub fn genesis(mode: Mode, count: u8) -> Digest32
    ensures { result.bytes ≡ hash (genesis_text mode count) }
{
    let text = [5, 1, mode_code(mode), count];
    Digest32 {
        bytes: Sha256::digest(text.as_slice()),
    }
}

/// The hash of a path with one more entry, from the hash before it: that of 01, the hash before in 32 bytes, and the entry (client in
/// one byte, sequence number in four, operation). It takes no memory, and costs as much as the entry is long.
pub fn chain_step(previous: &Digest32, entry: &Entry) -> Digest32
    requires { IsEntry entry.now }
    ensures { result.bytes ≡ hash (chain_text previous.now.bytes entry.now) }
{
    let mut hasher = Sha256::new();
    hasher.update([1u8].as_slice());
    hasher.update(previous.bytes.as_slice());
    feed_entry(&mut hasher, entry);
    Digest32 {
        bytes: hasher.finalize(),
    }
}
