//! The texts of the hashes along a path.

ghost use Rattle.std.specs.Prelude.{◌≡◌, ◌++◌, IfOk, OnOk};
ghost use Rattle.std.specs.List.{AllByRecursion};
ghost use Rattle.vic_dict.specs.Dictionary.{Fits};
ghost use Rattle.vic_wire.specs.Texts.{genesis_text, chain_text, mode_byte};
ghost use Rattle.vic_laws.specs.Meanings.{chain_texts_up};
ghost use Rattle.vic_view.specs.Transcripts.{transcript_group};
ghost use Rattle.vic_view.specs.Making.{IsPlaceEntry};
ghost use Rattle.vic_view.specs.Plain.{prefix_of};

use crate::by_hash::hash_of;
use std::alloc::Global;
use vic_dict::{Bytes, Entry, Mode, Names, NoMemory};
use vic_fields::{put_digest, put_entry, put_u8};
use vic_view::{Place, Transcript};
use vic_wire::Digest32;

fn mode_code(mode: Mode) -> u8
    ensures { result ≡ mode_byte mode }
{
    match mode {
        Mode::Plain => 0,
        Mode::Objects => 1,
    }
}

/// The text of a group: 05, 01, the mode (00 plain, 01 objects), and how many clients it has.
pub(crate) fn genesis_text_of(alloc: Global, mode: Mode, count: u8) -> Result<Bytes, NoMemory>
    ensures { IfOk result (λ text. text ≡ genesis_text mode count) }
{
    let mut text = Bytes::new(alloc);
    put_u8(&mut text, 5)?;
    put_u8(&mut text, 1)?;
    put_u8(&mut text, mode_code(mode))?;
    put_u8(&mut text, count)?;
    Ok(text)
}

/// The text of a path's hash: 01, the hash of the path before, and the entry.
fn chain_text_of(alloc: Global, before: &Digest32, entry: &Entry) -> Result<Bytes, NoMemory>
    requires { Fits entry.now.op }
    ensures { IfOk result (λ text. text ≡ chain_text before.now.bytes entry.now) }
{
    let mut text = Bytes::new(alloc);
    put_u8(&mut text, 1)?;
    put_digest(&mut text, before)?;
    put_entry(&mut text, entry)?;
    Ok(text)
}

/// Puts the texts of a path's hashes last, that of the oldest entry first. It hashes each of them.
pub(crate) fn put_chain_texts(
    alloc: Global,
    t: &Transcript,
    path: &[Place],
    texts: &mut Names,
) -> Result<(), NoMemory>
    requires { AllByRecursion IsPlaceEntry path.now }
    ensures { OnOk result (texts.new ≡ texts.old ++ chain_texts_up (transcript_group t.now) (prefix_of path.now)) }
{
    let mut last = hash_of(genesis_text_of(alloc, t.mode, t.count)?.as_slice());
    for place in path {
        let text = chain_text_of(alloc, &last, &place.entry)?;
        last = hash_of(text.as_slice());
        texts.push(text)?;
    }
    Ok(())
}
