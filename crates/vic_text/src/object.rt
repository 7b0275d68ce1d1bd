//! Reading the words of calls on objects.

ghost use Rattle.std.specs.Prelude.{◌≡◌, [], ◌∷◌, IfOk, replicate};
ghost use Rattle.vic_script.specs.Words.{word_number};
ghost use Rattle.vic_script.specs.Lines.{words_of, object_of, content_of, zeros_of};

use crate::read::{key_word, prefix_word, within};
use crate::word::{bytes_of, is_name, number_of, split_word};
use std::alloc::Global;
use vic_dict::limits::LONGEST_CONTENT;
use vic_dict::{Bytes, NoMemory};
use vic_rules::ObjectCall;

/// What stands before the number of zero bytes that are a content.
const ZEROS: &[u8] = b"zeros:";

/// The call on objects of this name on the words of a text.
pub(crate) fn object_of_words(
    alloc: Global,
    name: &[u8],
    others: &[u8],
) -> Result<Option<ObjectCall>, NoMemory>
    ensures { IfOk result (λ o. o ≡ object_of (name.now ∷ words_of others.now)) }
{
    match split_word(others) {
        None => object_on_one(alloc, name, others),
        Some((first, second)) => object_on_two(alloc, name, first, second),
    }
}

fn object_on_one(alloc: Global, name: &[u8], word: &[u8]) -> Result<Option<ObjectCall>, NoMemory>
    ensures { IfOk result (λ o. o ≡ object_of (name.now ∷ word.now ∷ [])) }
{
    if is_name(name, b"load") {
        Ok(key_word(alloc, word)?.map(ObjectCall::Load))
    } else if is_name(name, b"erase") {
        Ok(key_word(alloc, word)?.map(ObjectCall::Erase))
    } else if is_name(name, b"names") {
        Ok(prefix_word(alloc, word)?.map(ObjectCall::Names))
    } else {
        Ok(None)
    }
}

#[tactic(auto, using(crate::proofs::LongLines::object_of_four))]
fn object_on_two(
    alloc: Global,
    name: &[u8],
    first: &[u8],
    second: &[u8],
) -> Result<Option<ObjectCall>, NoMemory>
    ensures { IfOk result (λ o. o ≡ object_of (name.now ∷ first.now ∷ words_of second.now)) }
{
    match split_word(second) {
        None => store_of_words(alloc, name, first, second),
        Some(_) => Ok(None),
    }
}

fn store_of_words(
    alloc: Global,
    name: &[u8],
    first: &[u8],
    second: &[u8],
) -> Result<Option<ObjectCall>, NoMemory>
    ensures { IfOk result (λ o. o ≡ object_of (name.now ∷ first.now ∷ second.now ∷ [])) }
{
    if !is_name(name, b"store") {
        return Ok(None);
    }
    match (key_word(alloc, first)?, content_word(alloc, second)?) {
        (Some(key), Some(content)) => Ok(Some(ObjectCall::Store(key, content))),
        _ => Ok(None),
    }
}

/// The content that a word spells: so many zero bytes, or those of a byte word.
fn content_word(alloc: Global, word: &[u8]) -> Result<Option<Bytes>, NoMemory>
    ensures { IfOk result (λ o. o ≡ content_of word.now) }
{
    if word.starts_with(ZEROS) {
        zeros_word(alloc, &word[ZEROS.len()..])
    } else {
        Ok(within(0, LONGEST_CONTENT, bytes_of(alloc, word)?))
    }
}

/// So many zero bytes as the digits say; they are made in one go.
fn zeros_word(alloc: Global, digits: &[u8]) -> Result<Option<Bytes>, NoMemory>
    ensures { IfOk result (λ o. o ≡ zeros_of digits.now) }
{
    match number_of(digits) {
        None => Ok(None),
        Some(count) => {
            if count as usize <= LONGEST_CONTENT {
                Ok(Some(zeros(alloc, count as usize)?))
            } else {
                Ok(None)
            }
        }
    }
}

fn zeros(alloc: Global, count: usize) -> Result<Bytes, NoMemory>
    ensures { IfOk result (λ made. made ≡ replicate count 0) }
{
    Ok(Bytes::from_vec(vec![in alloc; 0u8; count]?))
}
