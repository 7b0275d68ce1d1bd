//! The listed texts of a transcript, and whether two different ones have one hash.

ghost use Rattle.std.specs.Prelude.{◌≡◌, ◌↔◌, ◌++◌, true, false, IfOk, OnOk};
ghost use Rattle.vic_rules.specs.History.{IsLawful};
ghost use Rattle.vic_rules.specs.Trust.{Collides};
ghost use Rattle.vic_laws.specs.Meanings.{are_apart as are_apart_in, texts_of_each, nodes_of, listed_texts, texts_of_paths, texts_of_parts, texts_of_sealed};
ghost use Rattle.vic_wire.specs.Parts.{read_part};
ghost use Rattle.vic_view.specs.Transcripts.{transcript_group, transcript_history};
ghost use Rattle.vic_apart.specs.Stands.{AreStands};

use crate::by_hash::are_texts_apart;
use crate::chains::{genesis_text_of, put_chain_texts};
use crate::contents::put_contents;
use crate::nodes::put_part_texts;
use crate::sealed::put_left_texts;
use crate::stand::{Stand, all_stands};
use std::alloc::Global;
use vic_dict::{Bytes, Names, NoMemory};
use vic_view::Transcript;

/// Puts the texts of all paths last, client by client.
fn put_paths(
    alloc: Global,
    t: &Transcript,
    all: &[Stand],
    texts: &mut Names,
) -> Result<(), NoMemory>
    requires lawful { IsLawful (transcript_group t.now) (transcript_history t.now) }
    requires stands { AreStands t.now.count (transcript_group t.now) (transcript_history t.now) all.now }
    ensures { OnOk result (texts.new ≡ texts.old ++ texts_of_paths (transcript_group t.now) (transcript_history t.now)) }
{
    for stand in all {
        put_chain_texts(alloc, t, stand.path.as_slice(), texts)?;
    }
    Ok(())
}

/// Puts the texts of these parts last.
fn put_parts_of(alloc: Global, parts: &[Bytes], texts: &mut Names) -> Result<(), NoMemory>
    ensures { OnOk result (texts.new ≡ texts.old ++ texts_of_each (λ bytes. nodes_of (read_part bytes)) parts.now) }
{
    for part in parts {
        put_part_texts(alloc, part.as_slice(), texts)?;
    }
    Ok(())
}

/// Puts the texts of all parts that were taken last, client by client.
fn put_parts(
    alloc: Global,
    t: &Transcript,
    all: &[Stand],
    texts: &mut Names,
) -> Result<(), NoMemory>
    requires stands { AreStands t.now.count (transcript_group t.now) (transcript_history t.now) all.now }
    ensures { OnOk result (texts.new ≡ texts.old ++ texts_of_parts (transcript_group t.now) (transcript_history t.now)) }
{
    for stand in all {
        put_parts_of(alloc, stand.parts.as_slice(), texts)?;
    }
    Ok(())
}

/// Puts the texts of all dictionaries last that are sealed on a client's path, client by client.
fn put_sealed(
    alloc: Global,
    t: &Transcript,
    all: &[Stand],
    texts: &mut Names,
) -> Result<(), NoMemory>
    requires lawful { IsLawful (transcript_group t.now) (transcript_history t.now) }
    requires stands { AreStands t.now.count (transcript_group t.now) (transcript_history t.now) all.now }
    ensures { OnOk result (texts.new ≡ texts.old ++ texts_of_sealed (transcript_group t.now) (transcript_history t.now)) }
{
    for stand in all {
        put_left_texts(alloc, stand, all, texts)?;
    }
    Ok(())
}

/// The texts of which the claim on collisions speaks: of the group, of each client's path, of each part that was taken, of each
/// dictionary up to a client's highest seal, and of each content that was sent to be kept or taken. It costs the transcript, for each
/// client a look at each step and a comparison with each path, and all the texts. Each sealed dictionary is there whole, so it is meant for small ones.
pub fn listed_texts(alloc: Global, t: &Transcript) -> Result<Names, NoMemory>
    requires { IsLawful (transcript_group t.now) (transcript_history t.now) }
    ensures { IfOk result (λ texts. texts ≡ listed_texts (transcript_group t.now) (transcript_history t.now)) }
{
    let all = all_stands(alloc, t)?;
    let mut texts = Names::new(alloc);
    texts.push(genesis_text_of(alloc, t.mode, t.count)?)?;
    put_paths(alloc, t, all.as_slice(), &mut texts)?;
    put_parts(alloc, t, all.as_slice(), &mut texts)?;
    put_sealed(alloc, t, all.as_slice(), &mut texts)?;
    put_contents(alloc, t, &mut texts)?;
    Ok(texts)
}

/// Whether no two different listed texts have one SHA-256 value. It costs what `listed_texts` costs, a hash and a copy of each text, and
/// a look for each hash among the others.
///
/// True says that the claim on the group's views stands for this transcript unless a tag was forged, which `forged` of `vic_view`
/// tells.
pub fn are_apart(alloc: Global, t: &Transcript) -> Result<bool, NoMemory>
    requires { IsLawful (transcript_group t.now) (transcript_history t.now) }
    ensures is { IfOk result (λ b. b ≡ are_apart_in (listed_texts (transcript_group t.now) (transcript_history t.now))) }
    ensures apart { IfOk result (λ b. b ≡ true → Collides (transcript_group t.now) (transcript_history t.now) → ⊥) }
    ensures means { IfOk result (λ b. (b ≡ false) ↔ Collides (transcript_group t.now) (transcript_history t.now)) }
{
    let texts = listed_texts(alloc, t)?;
    are_texts_apart(alloc, texts.as_slice())
}
