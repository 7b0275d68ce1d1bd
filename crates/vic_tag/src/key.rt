//! Group keys of 1 to 64 bytes, and the tags that they make.

ghost use Rattle.std.specs.Prelude.{◌≡◌, ◌≢◌, ℕ, ◌+◌, ◌<◌, ◌≤◌, ◌↔◌, not, IsTrue, IfOk, MatchOption, MatchResult, [], ◌∷◌, ◌++◌, length, position, chars, map, replicate, bit_xor, ◌-◌, List};
ghost use Rattle.sha2.specs.Hashers.{Holds256};
ghost use Rattle.hex.specs.Hex.{is_hex_digit, decode_of};
ghost use Rattle.vic_dict.specs.declared.limits.TheConstants.{LONGEST_GROUP_KEY};
ghost use Rattle.vic_wire.specs.Hashes.{tag_of, masked_key};
ghost use Rattle.vic_tag.specs.Keys.{fault_in};

use sha2::{Digest, Sha256};
use std::alloc::Global;
use std::marker::Model;
use thiserror::Error;
use vic_dict::NoMemory;
use vic_wire::Digest32;

/// Why a text is no key.
#[derive(Clone, Copy, Debug, PartialEq, Eq, Error)]
pub enum KeyFault {
    /// It hasn't an even number of 2 to 128 characters.
    #[error("a key has an even number of 2 to 128 hexadecimal digits")]
    Length,
    /// The place, counted from 0, of the first character that is no hexadecimal digit.
    #[error("no hexadecimal digit at place {0}")]
    Digit(usize),
    #[error("no memory")]
    NoMemory,
}

/// The key that all clients of a group share: 1 to 64 bytes. Contracts see the bytes.
#[derive(Debug, Drop)]
pub struct GroupKey {
    /// The bytes of the key.
    items: Vec<u8>,
    /// SHA-256 after the key's block for the inner hash of HMAC.
    inner: Sha256,
    /// SHA-256 after its block for the outer one.
    outer: Sha256,
}

impl Model for GroupKey {
    ghost use Rattle.std.specs.Prelude.{ℕ, List, ◌<◌, ◌≤◌, length};
    ghost use Rattle.sha2.specs.Hashers.{Holds256};
    ghost use Rattle.vic_wire.specs.Hashes.{masked_key};
    ghost use Rattle.vic_dict.specs.declared.limits.TheConstants.{LONGEST_GROUP_KEY};

    ghost Value = { List ℕ };

    ghost view = { λ a. a.items.items };

    ghost invariant = { λ a. (0 < length a.items.items) × ((length a.items.items ≤ LONGEST_GROUP_KEY) × (Holds256 a.inner (masked_key 0x36 a.items.items) × Holds256 a.outer (masked_key 0x5c a.items.items))) };
}

// The number of characters.
fn character_count(text: &str) -> usize
    ensures { result ≡ length (chars text.now) }
{
    text.chars().count()
}

// The place of the first character that is no hexadecimal digit.
fn first_bad(text: &str) -> Option<usize>
    ensures { result ≡ position (λ c. not (is_hex_digit c)) (chars text.now) }
{
    text.chars().position(|c| !c.is_ascii_hexdigit())
}

// The key filled up to a block with zeros, each byte joined with the mask.
fn masked(key: &[u8], mask: u8) -> [u8; 64]
    requires { length key.now ≤ LONGEST_GROUP_KEY }
    ensures { result ≡ masked_key mask key.now }
{
    let mut block = [mask; 64];
    for (i, byte) in key.iter().enumerate() {
        block[i] = mask ^ *byte;
    }
    block
}

fn keyed(key: &[u8], mask: u8) -> Sha256
    requires { length key.now ≤ LONGEST_GROUP_KEY }
    ensures { Holds256 result (masked_key mask key.now) }
{
    let block = masked(key, mask);
    let mut hasher = Sha256::new();
    hasher.update(block.as_slice());
    hasher
}

// The same hasher once more; it takes no memory.
fn again(hasher: &Sha256) -> Sha256
    ensures { result ≡ hasher.now }
{
    match hasher.clone() {
        Ok(copy) => copy,
        Err(_) => unreachable!(),
    }
}

// The key of these bytes, with both hashers begun.
fn from_bytes(items: Vec<u8>) -> GroupKey
    requires some { 0 < length items.items }
    requires block { length items.items ≤ LONGEST_GROUP_KEY }
    ensures { result ≡ items.items }
{
    let inner = keyed(items.as_slice(), 0x36);
    let outer = keyed(items.as_slice(), 0x5c);
    GroupKey {
        items,
        inner,
        outer,
    }
}

impl GroupKey {
    /// The key that a text spells in hexadecimal digits, capital or small.
    pub fn from_hex(alloc: Global, text: &str) -> Result<GroupKey, KeyFault>
        // The text's own fault, where it has one; else its bytes, unless memory ran out.
        ensures { MatchOption (fault_in (chars text.now))
            (MatchResult result (λ key. decode_of text.now ≡ Ok key) (λ e. e ≡ KeyFault.NoMemory))
            (λ e. result ≡ Err e) }
    {
        let count = character_count(text);
        if count < 2 || count > 128 || count % 2 != 0 {
            return Err(KeyFault::Length);
        }
        if let Some(place) = first_bad(text) {
            return Err(KeyFault::Digit(place));
        }
        match hex::decode(alloc, text) {
            Ok(items) => Ok(from_bytes(items)),
            Err(_) => Err(KeyFault::NoMemory),
        }
    }

    /// The number of bytes.
    pub fn len(&self) -> usize
        ensures value { result ≡ length self.now }
        ensures some { 0 < result }
        ensures block { result ≤ LONGEST_GROUP_KEY }
    {
        self.items.len()
    }

    /// Lends its bytes, of which there are 1 to 64.
    pub fn as_slice(&self) -> &[u8]
        ensures value { result.now ≡ self.now }
        ensures some { 0 < length self.now }
        ensures block { length self.now ≤ LONGEST_GROUP_KEY }
    {
        self.items.as_slice()
    }

    /// The same key, in memory of its own.
    pub fn copy(&self, alloc: Global) -> Result<GroupKey, NoMemory>
        ensures { IfOk result (λ made. made ≡ self.now) }
    {
        Ok(GroupKey {
            items: Vec::from_slice(alloc, self.items.as_slice())?,
            inner: again(&self.inner),
            outer: again(&self.outer),
        })
    }

    /// The hasher with which a tag begins. The text is fed to it, in whatever pieces, and `end` makes the tag.
    pub fn begin(&self) -> Sha256
        ensures { Holds256 result (masked_key 0x36 self.now) }
    {
        again(&self.inner)
    }

    /// The tag of the text that the hasher was fed with since `begin`.
    #[tactic(auto, unfolding(vic_wire::specs::Hashes::tag_of))]
    pub fn end(&self, hasher: Sha256) -> Digest32
        ensures { (text : List ℕ) → Holds256 hasher (masked_key 0x36 self.now ++ text) → result.bytes ≡ tag_of self.now text }
    {
        let inside = hasher.finalize();
        let mut outside = again(&self.outer);
        outside.update(inside.as_slice());
        Digest32 {
            bytes: outside.finalize(),
        }
    }

    /// The tag of a text.
    pub fn tag(&self, text: &[u8]) -> Digest32
        ensures { result.bytes ≡ tag_of self.now text.now }
    {
        let mut hasher = self.begin();
        hasher.update(text);
        self.end(hasher)
    }

    /// Whether a tag is that of a text. Each byte is looked at.
    pub fn holds(&self, text: &[u8], tag: &Digest32) -> bool
        ensures { IsTrue result ↔ (tag.now.bytes ≡ tag_of self.now text.now) }
    {
        let right = self.tag(text);
        same_digest(&right, tag)
    }
}

/// Whether two digests are equal. Each byte is looked at.
pub fn same_digest(one: &Digest32, other: &Digest32) -> bool
    ensures { IsTrue result ↔ (other.now.bytes ≡ one.now.bytes) }
{
    let mut same = true;
    for i in 0..32 {
        same &= one.bytes[i] == other.bytes[i];
    }
    same
}
