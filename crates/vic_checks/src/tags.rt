//! The tags of the texts that clients tag: those of calls, of commits and of seals.

ghost use Rattle.std.specs.Prelude.{◌≡◌};
ghost use Rattle.vic_dict.specs.Dictionary.{Fits};
ghost use Rattle.vic_wire.specs.Texts.{invoke_text, commit_text, seal_text};
ghost use Rattle.vic_wire.specs.Hashes.{tag_of};

use sha2::Digest;
use vic_chain::feed_entry;
use vic_dict::Entry;
use vic_tag::GroupKey;
use vic_wire::Digest32;

/// The tag of an entry's invoke text: 11 (hexadecimal) and the entry's bytes. It costs the entry's bytes.
pub fn invoke_tag(key: &GroupKey, entry: &Entry) -> Digest32
    requires { Fits entry.now.op }
    ensures { result.bytes ≡ tag_of key.now (invoke_text entry.now) }
{
    let mut hasher = key.begin();
    hasher.update([17u8].as_slice());
    feed_entry(&mut hasher, entry);
    key.end(hasher)
}

/// The tag of the commit text of a position: 12 (hexadecimal), the position (4 bytes), the hash of the path there (32 bytes), and
/// 0 where the call is done, 1 where it is aborted.
pub fn commit_tag(key: &GroupKey, position: u32, chained: &Digest32, done: bool) -> Digest32
    ensures { result.bytes ≡ tag_of key.now (commit_text position chained.now.bytes done) }
{
    let status = if done { 0u8 } else { 1u8 };
    let mut hasher = key.begin();
    hasher.update([18u8].as_slice());
    hasher.update(position.to_be_bytes().as_slice());
    hasher.update(chained.bytes.as_slice());
    hasher.update([status].as_slice());
    key.end(hasher)
}

/// The tag of the seal text of a position: 13 (hexadecimal), the position (4 bytes), the hash of the path there and the root of
/// the dictionary (32 bytes each).
pub fn seal_tag(key: &GroupKey, position: u32, chained: &Digest32, root: &Digest32) -> Digest32
    ensures { result.bytes ≡ tag_of key.now (seal_text position chained.now.bytes root.now.bytes) }
{
    let mut hasher = key.begin();
    hasher.update([19u8].as_slice());
    hasher.update(position.to_be_bytes().as_slice());
    hasher.update(chained.bytes.as_slice());
    hasher.update(root.bytes.as_slice());
    key.end(hasher)
}
