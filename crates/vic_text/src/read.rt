//! Reading a line of a script.

ghost use Rattle.std.specs.Prelude.{◌≡◌, [], ◌∷◌, IfOk, Some, None};
ghost use Rattle.vic_script.specs.Words.{word_bytes, word_number, word_capped};
ghost use Rattle.vic_script.specs.Lines.{words_of, word_within, key_of, value_of, prefix_of, op_of, call_of, object_of, object_call_of, named_line, give_of, pair_of, copy_of, paired_line, called_line, group_line, header_of, key_line as key_by, kind_named as kind_by, hostile_line as hostile_by, next_header_of, or_line, is_skipped as skip_test, line_in, line_of as line_by};

use crate::object::object_of_words;
use crate::word::{are_key_digits, bytes_of, is_name, number_of, split_word};
use std::alloc::Global;
use thiserror::Error;
use vic_attacks::HostileKind;
use vic_dict::limits::{LONGEST_KEY, LONGEST_SCRIPT, LONGEST_VALUE, MOST_CLIENTS};
use vic_dict::{Bytes, Mode, NoMemory, Op};
use vic_script::Line;

/// The most requests after which a script may have its server misbehave.
pub const HOSTILE_LIMIT: u32 = 1_000_000;

/// Why a text is no line.
#[derive(Clone, Copy, Debug, PartialEq, Eq, Error)]
pub enum LineFault {
    /// It isn't in the grammar of the mode.
    #[error("not a line of this script")]
    Grammar,
    #[error("no memory")]
    NoMemory,
}

/// The line that a text without its 0a spells, in a group of this mode. Before the mode is known, only the first line of a header
/// does, or one that is skipped.
pub fn read_line(alloc: Global, text: &[u8], mode: Option<Mode>) -> Result<Line, LineFault>
    ensures ok { IfOk result (λ l. line_by mode text.now ≡ Some l) }
    ensures grammar { result ≡ Err LineFault.Grammar → line_by mode text.now ≡ None }
{
    match line_of(alloc, text, mode) {
        Ok(Some(line)) => Ok(line),
        Ok(None) => Err(LineFault::Grammar),
        Err(_) => Err(LineFault::NoMemory),
    }
}

#[tactic(auto, unfolding(vic_script::specs::Lines::line_of))]
fn line_of(alloc: Global, text: &[u8], mode: Option<Mode>) -> Result<Option<Line>, NoMemory>
    ensures { IfOk result (λ o. o ≡ line_by mode text.now) }
{
    if is_skipped(text) {
        return Ok(Some(Line::Skip));
    }
    match split_word(text) {
        None => Ok(None),
        Some((name, others)) => line_of_words(alloc, name, others, mode),
    }
}

/// Whether a line is empty or a comment.
pub(crate) fn is_skipped(text: &[u8]) -> bool
    ensures { result ≡ skip_test text.now }
{
    match text {
        [] => true,
        [first, ..] => *first == b'#',
    }
}

fn line_of_words(
    alloc: Global,
    name: &[u8],
    others: &[u8],
    mode: Option<Mode>,
) -> Result<Option<Line>, NoMemory>
    ensures { IfOk result (λ o. o ≡ line_in mode (name.now ∷ words_of others.now)) }
{
    match split_word(others) {
        None => two_words(alloc, name, others, mode),
        Some((number, words)) => more_words(alloc, name, number, words, mode),
    }
}

/// A line of two words.
fn two_words(
    alloc: Global,
    name: &[u8],
    word: &[u8],
    mode: Option<Mode>,
) -> Result<Option<Line>, NoMemory>
    ensures { IfOk result (λ o. o ≡ line_in mode (name.now ∷ word.now ∷ [])) }
{
    match (header_line(name, word), mode) {
        (Some(line), _) => Ok(Some(line)),
        (None, None) => Ok(None),
        (None, Some(_)) => later_line(alloc, name, word),
    }
}

/// A line of two words behind the first one of a header.
fn later_line(alloc: Global, name: &[u8], word: &[u8]) -> Result<Option<Line>, NoMemory>
    ensures { IfOk result (λ o. o ≡ or_line (next_header_of (name.now ∷ word.now ∷ [])) (named_line name.now word.now)) }
{
    match next_header_line(alloc, name, word)? {
        Some(line) => Ok(Some(line)),
        None => Ok(named_line(name, word)),
    }
}

/// A line of a header behind its first one that has two words.
fn next_header_line(alloc: Global, name: &[u8], word: &[u8]) -> Result<Option<Line>, NoMemory>
    ensures { IfOk result (λ o. o ≡ next_header_of (name.now ∷ word.now ∷ [])) }
{
    if is_name(name, b"key") {
        key_line(alloc, word)
    } else {
        Ok(None)
    }
}

/// The digits stay as they are written.
fn key_line(alloc: Global, digits: &[u8]) -> Result<Option<Line>, NoMemory>
    ensures { IfOk result (λ o. o ≡ key_by digits.now) }
{
    if !are_key_digits(digits) {
        return Ok(None);
    }
    Ok(Some(Line::Key(Bytes::of(alloc, digits)?)))
}

/// The last line of a header: how the server misbehaves, and after how many requests. The name stays as it is written.
fn hostile_line(alloc: Global, name: &[u8], number: &[u8]) -> Result<Option<Line>, NoMemory>
    ensures { IfOk result (λ o. o ≡ hostile_by name.now (word_number number.now)) }
{
    match number_of(number) {
        None => Ok(None),
        Some(after) => {
            if kind_named(name).is_some() && after <= HOSTILE_LIMIT {
                Ok(Some(Line::Hostile(Bytes::of(alloc, name)?, after)))
            } else {
                Ok(None)
            }
        }
    }
}

/// The kind of hostile servers that a name tells, if it tells one; no name tells the kind that doesn't misbehave.
pub fn kind_named(name: &[u8]) -> Option<HostileKind>
    ensures { result ≡ kind_by name.now }
{
    if is_name(name, b"rollback") {
        Some(HostileKind::Rollback)
    } else if is_name(name, b"fork") {
        Some(HostileKind::Fork)
    } else if is_name(name, b"replay") {
        Some(HostileKind::Replay)
    } else if is_name(name, b"swap") {
        Some(HostileKind::Swap)
    } else if is_name(name, b"badproof") {
        Some(HostileKind::BadProof)
    } else if is_name(name, b"stale") {
        Some(HostileKind::Stale)
    } else if is_name(name, b"truncate") {
        Some(HostileKind::Truncate)
    } else {
        None
    }
}

/// The first line of a header.
fn header_line(name: &[u8], number: &[u8]) -> Option<Line>
    ensures { result ≡ header_of (name.now ∷ number.now ∷ []) }
{
    if is_name(name, b"clients") {
        clients_line(number)
    } else if is_name(name, b"objects") {
        objects_line(number)
    } else {
        None
    }
}

fn clients_line(number: &[u8]) -> Option<Line>
    ensures { result ≡ group_line Line.Clients (word_number number.now) }
{
    match number_of(number) {
        None => None,
        Some(count) => {
            if 0 < count && count <= MOST_CLIENTS as u32 {
                Some(Line::Clients(count as u8))
            } else {
                None
            }
        }
    }
}

fn objects_line(number: &[u8]) -> Option<Line>
    ensures { result ≡ group_line Line.Objects (word_number number.now) }
{
    match number_of(number) {
        None => None,
        Some(count) => {
            if 0 < count && count <= MOST_CLIENTS as u32 {
                Some(Line::Objects(count as u8))
            } else {
                None
            }
        }
    }
}

fn named_line(name: &[u8], number: &[u8]) -> Option<Line>
    ensures { result ≡ named_line name.now number.now }
{
    if is_name(name, b"poll") {
        number_of(number).map(Line::Poll)
    } else if is_name(name, b"sync") {
        number_of(number).map(Line::Sync)
    } else if is_name(name, b"serve") {
        number_of(number).map(Line::Serve)
    } else if is_name(name, b"take") {
        number_of(number).map(Line::Take)
    } else if is_name(name, b"run") {
        number_of(number).map(Line::Run)
    } else if is_name(name, b"again") {
        number_of(number).map(Line::Again)
    } else if is_name(name, b"resend") {
        number_of(number).map(Line::Resend)
    } else {
        None
    }
}

/// A line of more than two words, of which the third and later ones are given as one text.
#[tactic(auto, using(crate::proofs::LongLines::header_more, crate::proofs::LongLines::next_header_long, crate::proofs::LongLines::event_long))]
fn more_words(
    alloc: Global,
    name: &[u8],
    number: &[u8],
    words: &[u8],
    mode: Option<Mode>,
) -> Result<Option<Line>, NoMemory>
    ensures { IfOk result (λ o. o ≡ line_in mode (name.now ∷ number.now ∷ words_of words.now)) }
{
    let Some(kind) = mode else {
        return Ok(None);
    };
    match split_word(words) {
        None => three_words(alloc, name, number, words),
        Some((third, others)) => called_line(alloc, kind, name, number, third, others),
    }
}

/// A line of three words.
fn three_words(
    alloc: Global,
    name: &[u8],
    first: &[u8],
    second: &[u8],
) -> Result<Option<Line>, NoMemory>
    ensures { IfOk result (λ o. o ≡ or_line (next_header_of (name.now ∷ first.now ∷ second.now ∷ [])) (paired_line name.now first.now second.now)) }
{
    match last_header_line(alloc, name, first, second)? {
        Some(line) => Ok(Some(line)),
        None => paired_line(alloc, name, first, second),
    }
}

/// A line of a header that has three words.
fn last_header_line(
    alloc: Global,
    name: &[u8],
    first: &[u8],
    second: &[u8],
) -> Result<Option<Line>, NoMemory>
    ensures { IfOk result (λ o. o ≡ next_header_of (name.now ∷ first.now ∷ second.now ∷ [])) }
{
    if is_name(name, b"hostile") {
        hostile_line(alloc, first, second)
    } else {
        Ok(None)
    }
}

/// A line of one name and two words.
fn paired_line(
    alloc: Global,
    name: &[u8],
    first: &[u8],
    second: &[u8],
) -> Result<Option<Line>, NoMemory>
    ensures { IfOk result (λ o. o ≡ paired_line name.now first.now second.now) }
{
    if is_name(name, b"give") {
        give_line(alloc, first, second)
    } else if is_name(name, b"flip") {
        Ok(flip_line(first, second))
    } else if is_name(name, b"copy") {
        Ok(copy_line(first, second))
    } else if is_name(name, b"move") {
        Ok(move_line(first, second))
    } else {
        Ok(None)
    }
}

/// A payload may have any length; the cost is the length of its word.
fn give_line(alloc: Global, client: &[u8], payload: &[u8]) -> Result<Option<Line>, NoMemory>
    ensures { IfOk result (λ o. o ≡ give_of (word_capped client.now) (word_bytes payload.now)) }
{
    match (number_of(client), bytes_of(alloc, payload)?) {
        (Some(client), Some(payload)) => Ok(Some(Line::Give(client, payload))),
        _ => Ok(None),
    }
}

fn flip_line(client: &[u8], byte: &[u8]) -> Option<Line>
    ensures { result ≡ pair_of Line.Flip (word_capped client.now) (word_capped byte.now) }
{
    match (number_of(client), number_of(byte)) {
        (Some(client), Some(byte)) => Some(Line::Flip(client, byte)),
        _ => None,
    }
}

fn move_line(client: &[u8], server: &[u8]) -> Option<Line>
    ensures { result ≡ pair_of Line.Move (word_capped client.now) (word_capped server.now) }
{
    match (number_of(client), number_of(server)) {
        (Some(client), Some(server)) => Some(Line::Move(client, server)),
        _ => None,
    }
}

fn copy_line(server: &[u8], copy: &[u8]) -> Option<Line>
    ensures { result ≡ copy_of (word_capped server.now) (word_number copy.now) }
{
    match (number_of(server), number_of(copy)) {
        (Some(server), Some(copy)) => {
            if 0 < copy && copy <= 4 {
                Some(Line::Copy(server, copy as u8))
            } else {
                None
            }
        }
        _ => None,
    }
}

/// A line that calls, whose third word names what it calls; the words behind that are given as one text.
fn called_line(
    alloc: Global,
    kind: Mode,
    name: &[u8],
    client: &[u8],
    call_name: &[u8],
    others: &[u8],
) -> Result<Option<Line>, NoMemory>
    ensures { IfOk result (λ o. o ≡ called_line kind name.now client.now (call_name.now ∷ words_of others.now)) }
{
    if !is_name(name, b"call") {
        return Ok(None);
    }
    match kind {
        Mode::Plain => op_line(alloc, client, call_name, others),
        Mode::Objects => object_line(alloc, client, call_name, others),
    }
}

/// A client calls an operation.
fn op_line(
    alloc: Global,
    client: &[u8],
    name: &[u8],
    others: &[u8],
) -> Result<Option<Line>, NoMemory>
    ensures { IfOk result (λ o. o ≡ call_of (word_capped client.now) (op_of (name.now ∷ words_of others.now))) }
{
    match (number_of(client), op_of_words(alloc, name, others)?) {
        (Some(client), Some(op)) => Ok(Some(Line::Call(client, op))),
        _ => Ok(None),
    }
}

/// A client makes a call on objects.
fn object_line(
    alloc: Global,
    client: &[u8],
    name: &[u8],
    others: &[u8],
) -> Result<Option<Line>, NoMemory>
    ensures { IfOk result (λ o. o ≡ object_call_of (word_capped client.now) (object_of (name.now ∷ words_of others.now))) }
{
    match (number_of(client), object_of_words(alloc, name, others)?) {
        (Some(client), Some(call)) => Ok(Some(Line::Object(client, call))),
        _ => Ok(None),
    }
}

/// The operation of this name on the words of a text.
pub(crate) fn op_of_words(alloc: Global, name: &[u8], others: &[u8]) -> Result<Option<Op>, NoMemory>
    ensures { IfOk result (λ o. o ≡ op_of (name.now ∷ words_of others.now)) }
{
    match split_word(others) {
        None => op_on_one(alloc, name, others),
        Some((first, second)) => op_on_two(alloc, name, first, second),
    }
}

fn op_on_one(alloc: Global, name: &[u8], word: &[u8]) -> Result<Option<Op>, NoMemory>
    ensures { IfOk result (λ o. o ≡ op_of (name.now ∷ word.now ∷ [])) }
{
    if is_name(name, b"get") {
        Ok(key_word(alloc, word)?.map(Op::Get))
    } else if is_name(name, b"del") {
        Ok(key_word(alloc, word)?.map(Op::Del))
    } else if is_name(name, b"list") {
        Ok(prefix_word(alloc, word)?.map(Op::List))
    } else {
        Ok(None)
    }
}

#[tactic(auto, using(crate::proofs::LongLines::op_of_four))]
fn op_on_two(
    alloc: Global,
    name: &[u8],
    first: &[u8],
    second: &[u8],
) -> Result<Option<Op>, NoMemory>
    ensures { IfOk result (λ o. o ≡ op_of (name.now ∷ first.now ∷ words_of second.now)) }
{
    match split_word(second) {
        None => put_of_words(alloc, name, first, second),
        Some(_) => Ok(None),
    }
}

fn put_of_words(
    alloc: Global,
    name: &[u8],
    first: &[u8],
    second: &[u8],
) -> Result<Option<Op>, NoMemory>
    ensures { IfOk result (λ o. o ≡ op_of (name.now ∷ first.now ∷ second.now ∷ [])) }
{
    if !is_name(name, b"put") {
        return Ok(None);
    }
    match (key_word(alloc, first)?, value_word(alloc, second)?) {
        (Some(key), Some(value)) => Ok(Some(Op::Put(key, value))),
        _ => Ok(None),
    }
}

/// Bytes of at least and at most so many.
pub(crate) fn within(least: usize, most: usize, bytes: Option<Bytes>) -> Option<Bytes>
    ensures { result ≡ word_within least most bytes }
{
    match bytes {
        Some(bytes) => {
            if least <= bytes.len() && bytes.len() <= most {
                Some(bytes)
            } else {
                None
            }
        }
        None => None,
    }
}

pub(crate) fn key_word(alloc: Global, word: &[u8]) -> Result<Option<Bytes>, NoMemory>
    ensures { IfOk result (λ o. o ≡ key_of word.now) }
{
    Ok(within(1, LONGEST_KEY, bytes_of(alloc, word)?))
}

fn value_word(alloc: Global, word: &[u8]) -> Result<Option<Bytes>, NoMemory>
    ensures { IfOk result (λ o. o ≡ value_of word.now) }
{
    Ok(within(0, LONGEST_VALUE, bytes_of(alloc, word)?))
}

pub(crate) fn prefix_word(alloc: Global, word: &[u8]) -> Result<Option<Bytes>, NoMemory>
    ensures { IfOk result (λ o. o ≡ prefix_of word.now) }
{
    Ok(within(0, LONGEST_KEY, bytes_of(alloc, word)?))
}
