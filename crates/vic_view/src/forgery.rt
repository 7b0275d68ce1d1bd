//! Whether a history is forged: whether some client took a text whose tag no client had made before.

ghost use Rattle.std.specs.Prelude.{◌≡◌, ◌<◌, ◌≤◌, ◌+◌, ◌-◌, ◌↔◌, true, [], ◌∷◌, ◌++◌, map, length, replicate, IfOk, IfSome, OnOk, OnErr, slice_index_or, Some, None};
ghost use Rattle.std.specs.List.{AllByRecursion};
ghost use Rattle.std.specs.Option.{option_to_list};
ghost use Rattle.vic_dict.specs.Dictionary.{Fits};
ghost use Rattle.vic_wire.specs.Texts.{invoke_text, commit_text, seal_text};
ghost use Rattle.vic_wire.specs.Messages.{IsTagged, HasRequestSpelling};
ghost use Rattle.vic_rules.specs.History.{IsLawful};
ghost use Rattle.vic_rules.specs.Trust.{IsForged};
ghost use Rattle.vic_script.specs.Print.{is_among, is_forged};
ghost use Rattle.vic_view.specs.Transcripts.{transcript_group, transcript_history};
ghost use Rattle.vic_view.specs.Replay.{read_by, AreReplayed};
ghost use Rattle.vic_view.specs.Making.{IsPlaceEntry, HasEntries, hashes_of, hashes_with, hash_at, request_in, made_by, seal_texts_by, taken_with, has_forged, SameTexts};

use crate::replay::{ClientPath, Place, answer_taken};
use crate::transcript::Transcript;
use crate::views::all_paths;
use std::alloc::Global;
use std::collections::BTreeSet;
use std::marker::Model;
use vic_chain::{chain_step, genesis};
use vic_dict::{Bytes, NoMemory, Op};
use vic_fields::{put_digest, put_op, put_u8, put_u32};
use vic_frames::decode_request;
use vic_rules::TraceStep;
use vic_wire::{Digest32, Seal, Tagged, ToClient, ToServer};

/// The hashes along a path: that of the empty path, that with its oldest entry, and so on.
#[derive(Debug, Drop)]
pub(crate) struct Hashes {
    items: Vec<Digest32>,
}

impl Model for Hashes {
    ghost use Rattle.std.specs.Prelude.{List};
    ghost use Rattle.vic_wire.specs.declared.message.Digest32.{Digest32};

    ghost Value = { List Digest32 };

    ghost view = { λ a. a.items.items };
}

impl Hashes {
    fn new(alloc: Global) -> Hashes
        ensures { result ≡ [] }
    {
        Hashes {
            items: Vec::new(alloc),
        }
    }

    pub(crate) fn as_slice(&self) -> &[Digest32]
        ensures { result.now ≡ self.now }
    {
        self.items.as_slice()
    }

    fn push(&mut self, hash: Digest32) -> Result<(), NoMemory>
        ensures ok { OnOk result (self.new ≡ self.old ++ hash ∷ []) }
        ensures err { OnErr result (self.new ≡ self.old) }
    {
        self.items.push(hash)?;
        Ok(())
    }
}

/// The hashes along the paths of clients 1, 2 and so on.
#[derive(Debug, Drop)]
pub(crate) struct AllHashes {
    items: Vec<Hashes>,
}

impl Model for AllHashes {
    ghost use Rattle.std.specs.Prelude.{List};
    ghost use Rattle.vic_wire.specs.declared.message.Digest32.{Digest32};

    ghost Value = { List (List Digest32) };

    ghost view = { λ a. a.items.items };
}

impl AllHashes {
    fn new(alloc: Global) -> AllHashes
        ensures { result ≡ [] }
    {
        AllHashes {
            items: Vec::new(alloc),
        }
    }

    fn as_slice(&self) -> &[Hashes]
        ensures { result.now ≡ self.now }
    {
        self.items.as_slice()
    }

    fn push(&mut self, hashes: Hashes) -> Result<(), NoMemory>
        ensures ok { OnOk result (self.new ≡ self.old ++ hashes ∷ []) }
        ensures err { OnErr result (self.new ≡ self.old) }
    {
        self.items.push(hashes)?;
        Ok(())
    }
}

/// A set of texts, in the order of their bytes.
#[derive(Drop)]
pub(crate) struct Texts {
    set: BTreeSet<Vec<u8>>,
}

impl Model for Texts {
    ghost use Rattle.std.specs.Prelude.{ℕ, List, map};

    ghost Value = { List (List ℕ) };

    ghost view = { λ a. map (λ v. v.items) a.set.keys };
}

impl Texts {
    pub(crate) fn new(alloc: Global) -> Texts
        ensures { result ≡ [] }
    {
        Texts {
            set: BTreeSet::new(alloc),
        }
    }

    fn has(&self, text: &[u8]) -> bool
        ensures { result ≡ is_among self.now text.now }
    {
        self.set.contains(text)
    }

    fn add(&mut self, alloc: Global, text: &[u8]) -> Result<(), NoMemory>
        ensures { OnOk result (SameTexts self.new (self.old ++ text.now ∷ [])) }
    {
        let key = Vec::from_slice(alloc, text)?;
        self.set.insert(key)?;
        Ok(())
    }
}

pub(crate) fn hashes_along(
    alloc: Global,
    t: &Transcript,
    places: &[Place],
) -> Result<Hashes, NoMemory>
    requires { AllByRecursion IsPlaceEntry places.now }
    ensures { IfOk result (λ hashes. hashes ≡ hashes_of (transcript_group t.now) places.now) }
{
    let mut last = genesis(t.mode, t.count);
    let mut hashes = Hashes::new(alloc);
    hashes.push(last)?;
    for place in places {
        last = chain_step(&last, &place.entry);
        hashes.push(last)?;
    }
    Ok(hashes)
}

fn all_hashes(alloc: Global, t: &Transcript, paths: &[ClientPath]) -> Result<AllHashes, NoMemory>
    requires { AllByRecursion HasEntries paths.now }
    ensures { IfOk result (λ all. all ≡ hashes_with (transcript_group t.now) paths.now) }
{
    let mut all = AllHashes::new(alloc);
    for path in paths {
        all.push(hashes_along(alloc, t, path.places.as_slice())?)?;
    }
    Ok(all)
}

/// The hash with this number.
pub(crate) fn hash_with(hashes: &[Digest32], number: u32) -> Digest32
    ensures { result.bytes ≡ hash_at hashes.now number }
{
    if (number as usize) < hashes.len() {
        hashes[number as usize]
    } else {
        Digest32 { bytes: [0; 32] }
    }
}

// ---- texts

/// The invoke text: 11 (hexadecimal), and the entry: the client, its number (4 bytes) and the operation.
pub(crate) fn invoke_text_of(
    alloc: Global,
    client: u8,
    seq: u32,
    op: &Op,
) -> Result<Bytes, NoMemory>
    requires { Fits op.now }
    ensures { IfOk result (λ text. text ≡ invoke_text (record { client = client; seq = seq; op = op.now })) }
{
    let mut text = Bytes::new(alloc);
    put_u8(&mut text, 17)?;
    put_u8(&mut text, client)?;
    put_u32(&mut text, seq)?;
    put_op(&mut text, op)?;
    Ok(text)
}

/// The commit text: 12 (hexadecimal), the position (4 bytes), the hash of the path there, the status (0 done, 1 aborted).
fn commit_text_of(
    alloc: Global,
    position: u32,
    hash: &Digest32,
    done: bool,
) -> Result<Bytes, NoMemory>
    ensures { IfOk result (λ text. text ≡ commit_text position hash.now.bytes done) }
{
    let mut text = Bytes::new(alloc);
    put_u8(&mut text, 18)?;
    put_u32(&mut text, position)?;
    put_digest(&mut text, hash)?;
    put_u8(&mut text, if done { 0 } else { 1 })?;
    Ok(text)
}

/// The seal text: 13 (hexadecimal), the position (4 bytes), the hash of the path there, the root.
pub(crate) fn seal_text_of(
    alloc: Global,
    position: u32,
    hash: &Digest32,
    root: &Digest32,
) -> Result<Bytes, NoMemory>
    ensures { IfOk result (λ text. text ≡ seal_text position hash.now.bytes root.now.bytes) }
{
    let mut text = Bytes::new(alloc);
    put_u8(&mut text, 19)?;
    put_u32(&mut text, position)?;
    put_digest(&mut text, hash)?;
    put_digest(&mut text, root)?;
    Ok(text)
}

// ---- what was made

/// The text whose tag goes with a request of a client.
fn text_of(
    alloc: Global,
    client: u8,
    request: &ToServer,
    hashes: &[Digest32],
) -> Result<Option<Bytes>, NoMemory>
    requires { HasRequestSpelling request.now }
    ensures { IfOk result (λ o. o ≡ made_by (hash_at hashes.now) client (Some request.now)) }
{
    Ok(match request {
        ToServer::Invoke { seq, op, .. } => Some(invoke_text_of(alloc, client, *seq, op)?),
        ToServer::Commit { position, done, .. } => {
            Some(commit_text_of(alloc, *position, &hash_with(hashes, *position), *done)?)
        }
        ToServer::Seal { position, root, .. } => {
            Some(seal_text_of(alloc, *position, &hash_with(hashes, *position), root)?)
        }
        ToServer::Hello(_, _) => None,
        ToServer::Poll => None,
        ToServer::Sync(_) => None,
        ToServer::Keep(_) => None,
        ToServer::Fetch(_) => None,
        ToServer::Bye => None,
    })
}

/// The text that a client made at a step.
pub(crate) fn text_made(
    alloc: Global,
    step: &TraceStep,
    hashes: &[Digest32],
) -> Result<Option<Bytes>, NoMemory>
    ensures { IfOk result (λ o. o ≡ made_by (hash_at hashes.now) step.now.client (request_in step.now.sent)) }
{
    let Some(payload) = &step.sent else {
        return Ok(None);
    };
    match decode_request(alloc, payload.as_slice())? {
        Some(request) => text_of(alloc, step.client, &request, hashes),
        None => Ok(None),
    }
}

/// Puts the text that a client made at a step to those that were made.
pub(crate) fn note_made(
    alloc: Global,
    step: &TraceStep,
    hashes: &[Digest32],
    made: &mut Texts,
) -> Result<(), NoMemory>
    ensures { OnOk result (SameTexts made.new (made.old ++ option_to_list (made_by (hash_at hashes.now) step.now.client (request_in step.now.sent)))) }
{
    if let Some(text) = text_made(alloc, step, hashes)? {
        made.add(alloc, text.as_slice())?;
    }
    Ok(())
}

// ---- what was taken

/// Whether a seal's text is forged. That of position 0 needs no tag.
fn is_seal_forged(
    alloc: Global,
    seal: &Seal,
    hashes: &[Digest32],
    made: &Texts,
) -> Result<bool, NoMemory>
    ensures { IfOk result (λ b. b ≡ has_forged made.now (seal_texts_by (hash_at hashes.now) (Some seal.now))) }
{
    if seal.position == 0 {
        return Ok(false);
    }
    let text = seal_text_of(
        alloc,
        seal.position,
        &hash_with(hashes, seal.position),
        &seal.root,
    )?;
    Ok(!made.has(text.as_slice()))
}

/// Whether the text of some entry is forged.
fn are_entries_forged(alloc: Global, entries: &[Tagged], made: &Texts) -> Result<bool, NoMemory>
    requires { AllByRecursion IsTagged entries.now }
    ensures { IfOk result (λ b. b ≡ has_forged made.now (map (λ t. invoke_text t.entry) entries.now)) }
{
    for item in entries {
        let text = invoke_text_of(alloc, item.entry.client, item.entry.seq, &item.entry.op)?;
        if !made.has(text.as_slice()) {
            return Ok(true);
        }
    }
    Ok(false)
}

/// Whether a seal's text or that of some entry is forged.
fn are_forged(
    alloc: Global,
    seal: &Seal,
    entries: &[Tagged],
    hashes: &[Digest32],
    made: &Texts,
) -> Result<bool, NoMemory>
    requires { AllByRecursion IsTagged entries.now }
    ensures { IfOk result (λ b. b ≡ has_forged made.now (seal_texts_by (hash_at hashes.now) (Some seal.now) ++ map (λ t. invoke_text t.entry) entries.now)) }
{
    if is_seal_forged(alloc, seal, hashes, made)? {
        return Ok(true);
    }
    are_entries_forged(alloc, entries, made)
}

/// Whether some text that a client took at a step is forged: it isn't among those that were made before.
pub(crate) fn takes_forged(
    alloc: Global,
    step: &TraceStep,
    hashes: &[Digest32],
    made: &Texts,
) -> Result<bool, NoMemory>
    ensures { IfOk result (λ b. b ≡ has_forged made.now (taken_with (hash_at hashes.now) (read_by step.now.input step.now.returned))) }
{
    match answer_taken(alloc, step)? {
        Some(ToClient::Reply { seal, entries, .. }) => {
            are_forged(alloc, &seal, entries.as_slice(), hashes, made)
        }
        Some(ToClient::Entries { seal, entries }) => {
            are_forged(alloc, &seal, entries.as_slice(), hashes, made)
        }
        Some(ToClient::Update { seal, .. }) => are_forged(alloc, &seal, &[], hashes, made),
        _ => Ok(false),
    }
}

fn hashes_for(all: &[Hashes], client: u8) -> &[Digest32]
    requires some { 0 < client }
    requires within { client ≤ length all.now }
    ensures { result.now ≡ slice_index_or all.now (client - 1) [] }
{
    all[client as usize - 1].as_slice()
}

/// Whether some client took a text whose tag no client had made before. It costs the transcript, for each client a look at each
/// step and the hashes along its path, and for each text that was tagged or taken the logarithm of the number of those
/// tagged.
pub fn forged(alloc: Global, t: &Transcript) -> Result<bool, NoMemory>
    requires { IsLawful (transcript_group t.now) (transcript_history t.now) }
    ensures is { IfOk result (λ b. b ≡ is_forged (transcript_group t.now) (transcript_history t.now)) }
    ensures means { IfOk result (λ b. (b ≡ true) ↔ IsForged (transcript_group t.now) (transcript_history t.now)) }
{
    let paths = all_paths(alloc, t)?;
    forged_along(alloc, t, paths.as_slice())
}

/// The same, where the paths of all clients are known.
pub(crate) fn forged_along(
    alloc: Global,
    t: &Transcript,
    paths: &[ClientPath],
) -> Result<bool, NoMemory>
    requires lawful { IsLawful (transcript_group t.now) (transcript_history t.now) }
    requires paths { AreReplayed t.now.count (transcript_history t.now) paths.now }
    ensures { IfOk result (λ b. b ≡ is_forged (transcript_group t.now) (transcript_history t.now)) }
{
    let all = all_hashes(alloc, t, paths)?;
    let mut made = Texts::new(alloc);
    for step in t.as_slice() {
        let hashes = hashes_for(all.as_slice(), step.client);
        if takes_forged(alloc, step, hashes, &made)? {
            return Ok(true);
        }
        note_made(alloc, step, hashes, &mut made)?;
    }
    Ok(false)
}
