//! Contents that are kept under their hashes.
#![tactic(auto)]

ghost use Rattle.std.specs.Prelude.{[], is_some, ◌≡◌, ℕ, ◌<◌, ◌≤◌, ◌+◌, ◌∷◌, ◌↔◌, ◌⊎◌, true, false, IsTrue, length, Ok, Err, Some, None, IfOk, OnOk, OnErr, option_copied};
ghost use Rattle.std.specs.List.{sum_by, find};
ghost use Rattle.std.specs.Str.{bytes_eq};
ghost use Rattle.vic_dict.specs.declared.limits.TheConstants.{LONGEST_CONTENT};
ghost use Rattle.vic_wire.specs.Hashes.{hash};
ghost use Rattle.std.specs.Prelude.{List};
ghost use Rattle.vic_wire.specs.Texts.{content_text};
ghost use Rattle.vic_rules.specs.Objects.{content_hash};
ghost use Rattle.vic_order.specs.Order.{is_kept};
ghost use Rattle.vic_blob.specs.Keeping.{IsRoom, kept_under};

use std::alloc::Global;
use std::collections::BTreeMap;
use std::marker::Model;
use vic_dict::limits::{MOST_CONTENT_BYTES, MOST_CONTENTS};
use vic_dict::{Bytes, NoMemory};
use vic_wire::Digest32;

#[cfg(test)]
mod tests;

/// What keeping a content came to.
#[derive(Clone, Copy, Debug, PartialEq, Eq)]
pub enum Kept {
    New,
    /// A content with this hash was kept before.
    Already,
}

/// Why a content isn't kept.
#[derive(Clone, Copy, Debug, PartialEq, Eq)]
pub enum BlobFault {
    /// There are 1,048,576 contents, or they would have more than 1,073,741,824 bytes with it.
    Full,
    NoMemory,
}

fn copied(alloc: Global, contents: &[Bytes]) -> Result<Vec<Bytes>, NoMemory>
    ensures { IfOk result (λ made. made.items ≡ contents.now) }
{
    let mut made = Vec::new(alloc);
    for content in contents {
        made.push(content.copy(alloc)?)?;
    }
    Ok(made)
}

// A copy of an index. It costs the index.
fn copied_places(places: &BTreeMap<[u8; 32], u32>) -> Result<BTreeMap<[u8; 32], u32>, NoMemory>
    ensures { IfOk result (λ made. made.entries ≡ places.now.entries) }
{
    Ok(places.clone()?)
}

/// Contents, the oldest first, and where each stands by its hash.
#[derive(Debug, Drop)]
pub struct Blobs {
    /// The contents themselves.
    contents: Vec<Bytes>,
    /// Under each hash the index of its content, from 0.
    places: BTreeMap<[u8; 32], u32>,
    /// How many bytes the contents have in all.
    bytes: u64,
}

impl Model for Blobs {
    ghost use Rattle.std.specs.Prelude.{ℕ, List, reverse};
    ghost use Rattle.vic_blob.specs.Keeping.{IsSound};

    ghost Value = { List (List ℕ) };

    ghost view = { λ a. reverse a.contents.items };

    ghost invariant = { λ a. IsSound a.contents.items a.places a.bytes };
}

impl Blobs {
    /// No content; it takes no memory.
    pub fn new(alloc: Global) -> Blobs
        ensures { result ≡ [] }
    {
        Blobs {
            contents: Vec::new(alloc),
            places: BTreeMap::new(alloc),
            bytes: 0,
        }
    }

    /// The content that is kept under a hash, if one is. It costs the logarithm of their number.
    pub fn fetch(&self, hash: &Digest32) -> Option<&Bytes>
        ensures is { option_copied result ≡ kept_under self.now hash.now.bytes }
        ensures small { (c : List ℕ) → kept_under self.now hash.now.bytes ≡ Some c → length c ≤ LONGEST_CONTENT }
    {
        match self.places.get(&hash.bytes) {
            Some(place) => self.contents.get(*place as usize),
            None => None,
        }
    }

    /// How many bytes the contents have together.
    pub fn bytes(&self) -> u64
        ensures { result ≡ sum_by length self.now }
    {
        self.bytes
    }

    /// Whether there is room for so many bytes more.
    pub fn has_room(&self, len: usize) -> bool
        requires { len ≤ LONGEST_CONTENT }
        ensures { (content : List ℕ) → length content ≡ len → IsTrue result ↔ IsRoom self.now content }
    {
        self.contents.len() < MOST_CONTENTS && self.bytes + len as u64 <= MOST_CONTENT_BYTES
    }

    /// Keeps a content that isn't kept and for which there is room, under its hash. It hashes and copies nothing; where memory runs out
    /// nothing has changed.
    pub fn add(&mut self, hash: &Digest32, content: Bytes) -> Result<(), NoMemory>
        requires hash { hash.now.bytes ≡ content_hash content }
        requires new { kept_under self.old hash.now.bytes ≡ None }
        requires small { length content ≤ LONGEST_CONTENT }
        requires room { IsRoom self.old content }
        ensures ok { OnOk result (self.new ≡ content ∷ self.old) }
        ensures err { OnErr result (self.new ≡ self.old) }
    {
        let place = self.contents.len() as u32;
        let len = content.len() as u64;
        self.contents.push(content)?;
        match self.places.insert(hash.bytes, place) {
            Ok(_) => {
                self.bytes += len;
                Ok(())
            }
            Err(_) => {
                let _undone = self.contents.pop();
                Err(NoMemory)
            }
        }
    }

    /// Keeps a content under its hash. It costs the content's hash and a copy, and the logarithm of the number of contents.
    pub fn keep(&mut self, alloc: Global, content: &[u8]) -> Result<Kept, BlobFault>
        requires { length content.now ≤ LONGEST_CONTENT }
        ensures new { result ≡ Ok Kept.New → (kept_under self.old (content_hash content.now) ≡ None) × (IsRoom self.old content.now × (self.new ≡ content.now ∷ self.old)) }
        ensures already { (result ≡ Ok Kept.Already) ↔ IsTrue (is_some (kept_under self.old (content_hash content.now))) }
        ensures kept { result ≡ Ok Kept.Already → self.new ≡ self.old }
        ensures full { (result ≡ Err BlobFault.Full) ↔ ((kept_under self.old (content_hash content.now) ≡ None) × (IsRoom self.old content.now → ⊥)) }
        ensures err { OnErr result (self.new ≡ self.old) }
    {
        let hash = vic_hash::content(content);
        if self.fetch(&hash).is_some() {
            return Ok(Kept::Already);
        }
        if !self.has_room(content.len()) {
            return Err(BlobFault::Full);
        }
        let Ok(copied) = Bytes::of(alloc, content) else {
            return Err(BlobFault::NoMemory);
        };
        match self.add(&hash, copied) {
            Ok(()) => Ok(Kept::New),
            Err(_) => Err(BlobFault::NoMemory),
        }
    }

    /// A copy of all contents. It costs them, and hashes none again.
    pub fn copy(&self, alloc: Global) -> Result<Blobs, NoMemory>
        ensures { IfOk result (λ made. made ≡ self.now) }
    {
        let contents = copied(alloc, &self.contents)?;
        let places = copied_places(&self.places)?;
        Ok(Blobs {
            contents,
            places,
            bytes: self.bytes,
        })
    }
}
