//! The words of a line: splitting at spaces, byte words and numbers.

ghost use Rattle.std.specs.Prelude.{◌≡◌, ◌<◌, ◌+◌, [], ◌∷◌, length, MatchOption, IfSome, IfOk, IsTrue, min, not, nat_eq, ◌||◌, None, Some, if◌then◌else◌};
ghost use Rattle.std.specs.List.{list_all};
ghost use Rattle.std.specs.Str.{bytes_eq};
ghost use Rattle.vic_script.specs.Words.{is_plain as plain_test, is_lower_hex as hex_test, is_digit as digit_test, is_number as number_test, number_of as number_by, word_bytes, hex_word, word_number, word_capped};
ghost use Rattle.vic_text.specs.Numbers.{at_most};
ghost use Rattle.vic_text.specs.Splits.{IsFirstPlace};
ghost use Rattle.vic_script.specs.Lines.{lines_of, words_of, is_key_digits};
ghost use Rattle.hex.specs.Hex.{is_hex_digit};

use hex::FromHexError;
use std::alloc::Global;
use vic_dict::{Bytes, NoMemory};

/// Whether two words are the same.
pub fn is_name(word: &[u8], name: &[u8]) -> bool
    ensures { result ≡ bytes_eq word.now name.now }
{
    word == name
}

/// The first place of a byte.
fn place_of(text: &[u8], byte: u8) -> Option<usize>
    ensures { IsFirstPlace byte text.now result }
{
    memchr::memchr(byte, text)
}

/// The first word of a line and what stands behind the space after it; None where there is no space.
pub fn split_word(text: &[u8]) -> Option<(&[u8], &[u8])>
    ensures { MatchOption result (words_of text.now ≡ text.now ∷ []) (λ x. words_of text.now ≡ x.0.now ∷ words_of x.1.now) }
{
    let place = place_of(text, b' ')?;
    Some((&text[..place], &text[place + 1..]))
}

/// The first line of a script and what stands behind the byte 0a after it; None where there is none.
pub fn split_line(text: &[u8]) -> Option<(&[u8], &[u8])>
    requires { 0 < length text.now }
    ensures lines { MatchOption result (lines_of text.now ≡ text.now ∷ []) (λ x. lines_of text.now ≡ x.0.now ∷ lines_of x.1.now) }
    ensures length { IfSome result (λ x. length x.0.now + length x.1.now + 1 ≡ length text.now) }
{
    let place = place_of(text, b'\n')?;
    Some((&text[..place], &text[place + 1..]))
}

fn is_plain(c: u8) -> bool
    ensures { result ≡ plain_test c }
{
    c.is_ascii_lowercase()
        || c.is_ascii_uppercase()
        || c.is_ascii_digit()
        || c == b'.'
        || c == b'_'
        || c == b'-'
        || c == b'/'
}

/// Whether plain characters alone can spell these bytes; none are needed for no bytes.
pub fn are_plain(bytes: &[u8]) -> bool
    ensures { result ≡ list_all plain_test bytes.now }
{
    bytes.iter().all(|b| is_plain(*b))
}

fn are_lower_hex(bytes: &[u8]) -> bool
    ensures { result ≡ list_all hex_test bytes.now }
{
    bytes
        .iter()
        .all(|b| b.is_ascii_digit() || (b'a' <= *b && *b <= b'f'))
}

/// The bytes that a byte word spells, if it spells some.
pub fn bytes_of(alloc: Global, word: &[u8]) -> Result<Option<Bytes>, NoMemory>
    ensures { IfOk result (λ o. o ≡ word_bytes word.now) }
{
    match word {
        [] => Ok(None),
        [b'%', digits @ ..] => hex_bytes(alloc, digits),
        _ => plain_bytes(alloc, word),
    }
}

fn hex_bytes(alloc: Global, digits: &[u8]) -> Result<Option<Bytes>, NoMemory>
    ensures { IfOk result (λ o. o ≡ hex_word digits.now) }
{
    if !are_lower_hex(digits) {
        return Ok(None);
    }
    match hex::decode(alloc, digits) {
        Ok(bytes) => Ok(Some(Bytes::from_vec(bytes))),
        Err(FromHexError::OutOfMemory) => Err(NoMemory),
        Err(_) => Ok(None),
    }
}

fn plain_bytes(alloc: Global, word: &[u8]) -> Result<Option<Bytes>, NoMemory>
    ensures { IfOk result (λ o. o ≡ (if list_all plain_test word.now then Some word.now else None)) }
{
    if !are_plain(word) {
        return Ok(None);
    }
    Ok(Some(Bytes::of(alloc, word)?))
}

/// Whether a word is the digits of a group's key: 2 to 128 hexadecimal ones in an even number, capital or small.
pub(crate) fn are_key_digits(word: &[u8]) -> bool
    ensures { result ≡ is_key_digits word.now }
{
    2 <= word.len() && word.len() <= 128 && word.len() % 2 == 0 && are_hex(word)
}

fn are_hex(word: &[u8]) -> bool
    ensures { result ≡ list_all is_hex_digit word.now }
{
    word.iter().all(|b| b.is_ascii_hexdigit())
}

/// Whether a word is a number in decimal, without leading zeros.
fn is_number(word: &[u8]) -> bool
    ensures { result ≡ number_test word.now }
{
    match word {
        [] => false,
        [first, others @ ..] => are_digits(word) && may_begin(*first, others),
    }
}

fn are_digits(word: &[u8]) -> bool
    ensures { result ≡ list_all digit_test word.now }
{
    word.iter().all(|b| b.is_ascii_digit())
}

/// A number begins with 0 only where that is all of it.
fn may_begin(first: u8, others: &[u8]) -> bool
    ensures { result ≡ (not (nat_eq first 48) || nat_eq (length others.now) 0) }
{
    first != b'0' || others.is_empty()
}

/// The number that a word spells, in decimal without leading zeros; one past the type's end stands as the last.
pub fn number_of(word: &[u8]) -> Option<u32>
    ensures { result ≡ word_capped word.now }
{
    if is_number(word) {
        Some(saturated(word))
    } else {
        None
    }
}

/// The number that a word spells, in decimal without leading zeros, where the type has it.
pub fn exact_number_of(word: &[u8]) -> Option<u32>
    ensures { result ≡ at_most 4294967295 (word_number word.now) }
{
    if !is_number(word) {
        return None;
    }
    let n = wide(word);
    if n <= u64::from(u32::MAX) {
        Some(n as u32)
    } else {
        None
    }
}

/// The number of decimal digits, or the last of a type that is wider than a number of ours.
fn wide(digits: &[u8]) -> u64
    requires { IsTrue (list_all digit_test digits.now) }
    ensures { result ≡ min (number_by digits.now) 18446744073709551615 }
{
    let mut n = 0u64;
    for b in digits {
        n = n.saturating_mul(10).saturating_add(u64::from(*b - b'0'));
    }
    n
}

/// The number of decimal digits, or the type's last.
fn saturated(digits: &[u8]) -> u32
    requires { IsTrue (list_all digit_test digits.now) }
    ensures { result ≡ min (number_by digits.now) 4294967295 }
{
    let mut n = 0u32;
    for b in digits {
        n = n.saturating_mul(10).saturating_add(u32::from(*b - b'0'));
    }
    n
}
