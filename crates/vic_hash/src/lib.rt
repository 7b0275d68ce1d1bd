//! The hashes that a dictionary's tree and the kept contents stand by: SHA-256 (FIPS 180-4) of one text each.
//!
//! The texts are those of `specs/Texts.antt` of `vic_wire`, and each function's contract names its own.
#![tactic(auto)]

ghost use Rattle.std.specs.Prelude.{◌≤◌, ◌≡◌, ◌<◌, length};
ghost use Rattle.vic_dict.specs.declared.limits.TheConstants.{LONGEST_VALUE};
ghost use Rattle.vic_dict.specs.Dictionary.{IsKey};
ghost use Rattle.vic_wire.specs.Hashes.{hash, empty_root};
ghost use Rattle.vic_wire.specs.Texts.{leaf_text, inner_text, content_text};

use sha2::{Digest, Sha256};
pub use vic_wire::Digest32;

#[cfg(test)]
mod tests;

/// The root of the dictionary without a key: the hash of the one byte 02.
pub fn empty() -> Digest32
    ensures { result.bytes ≡ empty_root }
{
    let mut hasher = Sha256::new();
    hasher.update(&[2]);
    Digest32 {
        bytes: hasher.finalize(),
    }
}

/// The root of the tree that has this key and value alone: the hash of 03, the key's length in one byte, the key, and the value.
///
/// It costs one or more blocks of 64 bytes, as the text is long.
pub fn leaf(key: &[u8], value: &[u8]) -> Digest32
    requires key { IsKey key.now }
    requires value { length value.now ≤ LONGEST_VALUE }
    ensures { result.bytes ≡ hash (leaf_text key.now value.now) }
{
    let mut hasher = Sha256::new();
    hasher.update(&[3, key.len() as u8]);
    hasher.update(key);
    hasher.update(value);
    Digest32 {
        bytes: hasher.finalize(),
    }
}

/// The root of a tree that branches at this bit, from the roots of its two sides: the hash of 04, the index in two bytes, the
/// higher first, the left root and the right root, 67 bytes in all.
pub fn inner(index: u16, left: &Digest32, right: &Digest32) -> Digest32
    ensures { result.bytes ≡ hash (inner_text index left.now.bytes right.now.bytes) }
{
    let mut hasher = Sha256::new();
    hasher.update(&[4]);
    hasher.update(&index.to_be_bytes());
    hasher.update(&left.bytes);
    hasher.update(&right.bytes);
    Digest32 {
        bytes: hasher.finalize(),
    }
}

/// The hash under which a content is kept: that of 06 and the content's bytes. Its cost grows with the content.
pub fn content(bytes: &[u8]) -> Digest32
    ensures { result.bytes ≡ hash (content_text bytes.now) }
{
    let mut hasher = Sha256::new();
    hasher.update(&[6]);
    hasher.update(bytes);
    Digest32 {
        bytes: hasher.finalize(),
    }
}
