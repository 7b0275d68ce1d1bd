//! Texts under their hashes, and whether two different ones have one hash.

ghost use Rattle.std.specs.Prelude.{◌≡◌, [], List, ℕ, IfOk, OnOk, OnErr};
ghost use Rattle.vic_wire.specs.Hashes.{hash};
ghost use Rattle.vic_laws.specs.Meanings.{are_apart as are_apart_in};
ghost use Rattle.vic_apart.specs.ByHash.{text_under, is_other, first_of, if_here};

use sha2::{Digest, Sha256};
use std::alloc::Global;
use std::collections::BTreeMap;
use std::marker::Model;
use vic_dict::{Bytes, NoMemory};
use vic_wire::Digest32;

/// Texts, each under a hash. It takes the hashes as they come, and works none out.
#[derive(Drop)]
pub struct ByHash {
    texts: BTreeMap<[u8; 32], Bytes>,
}

impl Model for ByHash {
    ghost use Rattle.std.specs.Prelude.{ℕ, List};

    ghost Value = { List (List ℕ × List ℕ) };

    ghost view = { λ a. a.texts.entries };
}

impl ByHash {
    /// No text; it takes no memory.
    pub fn new(alloc: Global) -> ByHash
        ensures { result ≡ [] }
    {
        ByHash {
            texts: BTreeMap::new(alloc),
        }
    }

    /// Puts a text under a hash unless one is there, and tells whether another text is there. It costs the text, and the logarithm of
    /// the number of hashes.
    pub fn insert(&mut self, alloc: Global, hash: &Digest32, text: &[u8]) -> Result<bool, NoMemory>
        ensures clash { IfOk result (λ b. b ≡ is_other (text_under self.old hash.now.bytes) text.now) }
        ensures ok { OnOk result ((h : List ℕ) → text_under self.new h ≡ first_of (text_under self.old h) (if_here hash.now.bytes h text.now)) }
        ensures err { OnErr result (self.new ≡ self.old) }
    {
        match self.texts.get(&hash.bytes) {
            Some(there) => Ok(there.as_slice() != text),
            None => {
                let copied = Bytes::of(alloc, text)?;
                self.texts.insert(hash.bytes, copied)?;
                Ok(false)
            }
        }
    }
}

/// Whether no two different texts of these have one SHA-256 value. It hashes and copies each text, and looks each hash up among
/// those before it.
pub fn are_texts_apart(alloc: Global, texts: &[Bytes]) -> Result<bool, NoMemory>
    ensures { IfOk result (λ b. b ≡ are_apart_in texts.now) }
{
    let mut seen = ByHash::new(alloc);
    for text in texts {
        let hash = hash_of(text.as_slice());
        if seen.insert(alloc, &hash, text.as_slice())? {
            return Ok(false);
        }
    }
    Ok(true)
}

/// The SHA-256 value of a text.
pub(crate) fn hash_of(text: &[u8]) -> Digest32
    ensures { result.bytes ≡ hash text.now }
{
    Digest32 {
        bytes: Sha256::digest(text),
    }
}
