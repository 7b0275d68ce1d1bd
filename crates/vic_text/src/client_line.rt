//! Reading a line of a client's script.

ghost use Rattle.std.specs.Prelude.{◌≡◌, [], ◌∷◌, IfOk, Some, None};
ghost use Rattle.vic_script.specs.Lines.{words_of};
ghost use Rattle.vic_script.specs.Words.{word_number};
ghost use Rattle.vic_text.specs.ClientLines.{client_line_of, client_line_in, plain_line, call_line, settle_of};

use crate::object::object_of_words;
use crate::read::{LineFault, is_skipped, op_of_words};
use crate::word::{is_name, number_of, split_word};
use std::alloc::Global;
use vic_dict::{Mode, NoMemory, Op};
use vic_rules::ObjectCall;

/// A line of a client's script.
#[derive(Debug, Drop)]
pub enum ClientLine {
    /// The client calls the operation.
    Call(Op),
    /// The client makes the call on objects.
    Object(ObjectCall),
    Poll,
    Sync,
    /// Polls while the client has unsealed calls, at most so often.
    Settle(u16),
    /// An empty line or a comment, which does nothing.
    Skip,
}

/// The line that a text without its 0a spells, for a client of a group of this mode.
pub fn read_client_line(alloc: Global, text: &[u8], mode: Mode) -> Result<ClientLine, LineFault>
    ensures ok { IfOk result (λ l. client_line_of mode text.now ≡ Some l) }
    ensures grammar { result ≡ Err LineFault.Grammar → client_line_of mode text.now ≡ None }
{
    match line_of(alloc, text, mode) {
        Ok(Some(line)) => Ok(line),
        Ok(None) => Err(LineFault::Grammar),
        Err(_) => Err(LineFault::NoMemory),
    }
}

#[tactic(auto, unfolding(crate::specs::ClientLines::client_line_of))]
fn line_of(alloc: Global, text: &[u8], mode: Mode) -> Result<Option<ClientLine>, NoMemory>
    ensures { IfOk result (λ o. o ≡ client_line_of mode text.now) }
{
    if is_skipped(text) {
        return Ok(Some(ClientLine::Skip));
    }
    match split_word(text) {
        None => Ok(line_of_word(text)),
        Some((name, others)) => line_of_words(alloc, name, others, mode),
    }
}

// A line of one word, which is no call.
fn line_of_word(word: &[u8]) -> Option<ClientLine>
    ensures { result ≡ plain_line (word.now ∷ []) }
{
    if is_name(word, b"poll") {
        Some(ClientLine::Poll)
    } else if is_name(word, b"sync") {
        Some(ClientLine::Sync)
    } else {
        None
    }
}

// A line of more words, of which those behind the first are given as one text.
fn line_of_words(
    alloc: Global,
    name: &[u8],
    others: &[u8],
    mode: Mode,
) -> Result<Option<ClientLine>, NoMemory>
    ensures { IfOk result (λ o. o ≡ client_line_in mode (name.now ∷ words_of others.now)) }
{
    match settle_line(name, others) {
        Some(line) => Ok(Some(line)),
        None => called_line(alloc, name, others, mode),
    }
}

// `settle N`.
#[tactic(auto, using(crate::proofs::LongLines::plain_long))]
fn settle_line(name: &[u8], others: &[u8]) -> Option<ClientLine>
    ensures { result ≡ plain_line (name.now ∷ words_of others.now) }
{
    match split_word(others) {
        None => {
            if is_name(name, b"settle") {
                settle_of_word(others)
            } else {
                None
            }
        }
        Some(_) => None,
    }
}

fn settle_of_word(word: &[u8]) -> Option<ClientLine>
    ensures { result ≡ settle_of (word_number word.now) }
{
    match number_of(word) {
        None => None,
        Some(n) => {
            if 1 <= n && n <= 1000 {
                Some(ClientLine::Settle(n as u16))
            } else {
                None
            }
        }
    }
}

// A call: of an operation in a group of mode plain, on objects in one of mode objects.
fn called_line(
    alloc: Global,
    name: &[u8],
    others: &[u8],
    mode: Mode,
) -> Result<Option<ClientLine>, NoMemory>
    ensures { IfOk result (λ o. o ≡ call_line mode (name.now ∷ words_of others.now)) }
{
    match mode {
        Mode::Plain => Ok(op_of_words(alloc, name, others)?.map(ClientLine::Call)),
        Mode::Objects => Ok(object_of_words(alloc, name, others)?.map(ClientLine::Object)),
    }
}
