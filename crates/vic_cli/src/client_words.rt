//! The words of a client's command.

ghost use Rattle.std.specs.Prelude.{◌≡◌, ◌<◌, ◌≤◌, ◌&&◌, ℕ, List, [], ◌∷◌, length, map, string_bytes, codes, IfOk, IfSome};
ghost use Rattle.std.specs.Str.{bytes_eq};
ghost use Rattle.vic_dict.specs.declared.limits.TheConstants.{LONGEST_GROUP_KEY, MOST_CLIENTS};
ghost use Rattle.vic_cli.specs.Arguments.{is_address as address_test, mode_of as mode_by, number_in as number_by};
ghost use Rattle.vic_cli.specs.ClientWords.{client_words, words_with_count, words_of_parts, key_in, IsClientOf};

use crate::arguments::{is_address, mode_of, number_in, small_number};
use std::alloc::Global;
use vic_client::Client;
use vic_dict::NoMemory;
use vic_tag::{GroupKey, KeyFault};
use vic_text::word::is_name;

// Whether the first two words are the command's and an address.
fn is_right(name: &[u8], address: &[u8]) -> bool
    ensures { result ≡ (bytes_eq name.now (codes "client") && address_test address.now) }
{
    is_name(name, b"client") && is_address(address)
}

// The key that a word spells.
fn key_of(alloc: Global, word: &str) -> Result<Option<GroupKey>, NoMemory>
    ensures key { IfOk result (λ k. k ≡ key_in word.now) }
    ensures fits { IfOk result (λ k. IfSome k (λ key. (0 < length key) × (length key ≤ LONGEST_GROUP_KEY))) }
{
    match GroupKey::from_hex(alloc, word) {
        Ok(key) => {
            // For the proof alone: it tells that a key has 1 to 64 bytes.
            let _size = key.len();
            Ok(Some(key))
        }
        Err(KeyFault::NoMemory) => Err(NoMemory),
        Err(KeyFault::Length) => Ok(None),
        Err(KeyFault::Digit(_)) => Ok(None),
    }
}

// The client of a group of so many.
fn member_of(
    alloc: Global,
    count: u8,
    id: &[u8],
    key: &str,
    mode: &[u8],
) -> Result<Option<Client>, NoMemory>
    requires some { 0 < count }
    requires most { count ≤ MOST_CLIENTS }
    ensures { (address : List ℕ) → IfOk result (λ c. IsClientOf (words_of_parts address count (number_by count id.now) (key_in key.now) (mode_by mode.now)) c) }
{
    let Some(me) = number_in(id, count) else {
        return Ok(None);
    };
    let Some(kind) = mode_of(mode) else {
        return Ok(None);
    };
    match key_of(alloc, key)? {
        Some(shared) => Ok(Some(Client::new(alloc, me, count, kind, shared))),
        None => Ok(None),
    }
}

// The client that six words say.
fn client_in(
    alloc: Global,
    name: &[u8],
    address: &[u8],
    id: &[u8],
    count: &[u8],
    key: &str,
    mode: &[u8],
) -> Result<Option<Client>, NoMemory>
    ensures { IfOk result (λ c. IsClientOf (client_words (name.now ∷ address.now ∷ id.now ∷ count.now ∷ key.now ∷ mode.now ∷ [])) c) }
{
    if !is_right(name, address) {
        return Ok(None);
    }
    match small_number(count) {
        Some(many) => member_of(alloc, many, id, key, mode),
        None => Ok(None),
    }
}

/// The client that the words say, which has done nothing yet; none where they are wrong.
pub fn client_of(alloc: Global, words: &[String]) -> Result<Option<Client>, NoMemory>
    ensures { IfOk result (λ c. IsClientOf (client_words (map string_bytes words.now)) c) }
{
    match words {
        [name, address, id, count, key, mode] => client_in(
            alloc,
            name.as_bytes(),
            address.as_bytes(),
            id.as_bytes(),
            count.as_bytes(),
            key.as_str(),
            mode.as_bytes(),
        ),
        _ => Ok(None),
    }
}
