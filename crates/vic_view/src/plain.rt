//! The definitions of a view and of a forged text, read off directly. Both programs are slow on purpose: a view compares whole
//! paths, entry by entry and anew at each position, with those of all calls that were completed, and the look for a forged text
//! goes through all texts that were made for each text that was taken. They share no search with `view_of` and `forged`,
//! and have the contract of the one and the clause `is` of the other, so that a test can hold the two beside one another.

ghost use Rattle.std.specs.Prelude.{◌≡◌, [], ◌∷◌, ◌++◌, map, reverse, IfOk, OnOk, OnErr, Some, None, option_map};
ghost use Rattle.std.specs.Cmp.Lexicographic.{pointwise};
ghost use Rattle.std.specs.List.{AllByRecursion};
ghost use Rattle.std.specs.Option.{option_to_list};
ghost use Rattle.vic_wire.specs.Texts.{invoke_text};
ghost use Rattle.vic_wire.specs.Messages.{IsTagged};
ghost use Rattle.vic_rules.specs.Client.{same_entry as same_entry_test};
ghost use Rattle.vic_rules.specs.History.{Completion, IsLawful};
ghost use Rattle.vic_rules.specs.Views.{confirmation, confirmed_calls, last_prefix, view_of as view_after};
ghost use Rattle.vic_script.specs.Print.{is_among, is_forged};
ghost use Rattle.vic_view.specs.Transcripts.{transcript_group, transcript_history};
ghost use Rattle.vic_view.specs.Replay.{completed_with, read_by, replayed_path};
ghost use Rattle.vic_view.specs.Making.{hash_at, request_in, made_by, seal_texts_by, taken_with, has_forged};
ghost use Rattle.vic_view.specs.Plain.{prefix_of, completions_of, completed_on, completed_in};

use crate::forgery::{hash_with, hashes_along, invoke_text_of, seal_text_of, text_made};
use crate::replay::{Place, Places, answer_taken, completed, path_in};
use crate::transcript::Transcript;
use crate::view::View;
use crate::views::show;
use std::alloc::Global;
use std::marker::Model;
use vic_dict::{Bytes, Names, NoMemory, Outcome};
use vic_rules::{TraceStep, same_entry};
use vic_wire::{Digest32, Seal, Tagged, ToClient};

/// A call that a client completed: the client, its path with the call's entry last, and the outcome.
#[derive(Drop)]
pub(crate) struct CompletedCall {
    /// Its number, from 1 on.
    client: u8,
    /// The path, the oldest first.
    path: Places,
    /// Done or aborted.
    outcome: Outcome,
}

/// Calls that were completed, the oldest first.
#[derive(Drop)]
pub(crate) struct CompletedCalls {
    items: Vec<CompletedCall>,
}

impl Model for CompletedCalls {
    ghost use Rattle.std.specs.Prelude.{List};
    ghost use Rattle.vic_view.specs.declared.plain.CompletedCall.{CompletedCall};

    ghost Value = { List CompletedCall };

    ghost view = { λ a. a.items.items };
}

impl CompletedCalls {
    fn new(alloc: Global) -> CompletedCalls
        ensures { result ≡ [] }
    {
        CompletedCalls {
            items: Vec::new(alloc),
        }
    }

    pub(crate) fn as_slice(&self) -> &[CompletedCall]
        ensures { result.now ≡ self.now }
    {
        self.items.as_slice()
    }

    fn push(&mut self, call: CompletedCall) -> Result<(), NoMemory>
        ensures ok { OnOk result (self.new ≡ self.old ++ call ∷ []) }
        ensures err { OnErr result (self.new ≡ self.old) }
    {
        self.items.push(call)?;
        Ok(())
    }
}

// ---- views

/// Puts the call that the last of these steps completed, if it did, to those that were completed.
fn note_completed(
    alloc: Global,
    steps: &[TraceStep],
    last: &TraceStep,
    all: &mut CompletedCalls,
) -> Result<(), NoMemory>
    ensures { OnOk result (all.new ≡ all.old ++ completed_on last.now.client (replayed_path last.now.client (reverse steps.now)).places (completed_with last.now.returned)) }
{
    if let Some(outcome) = completed(alloc, &last.returned, true)? {
        let path = path_in(alloc, steps, last.client)?;
        all.push(CompletedCall {
            client: last.client,
            path: path.places,
            outcome,
        })?;
    }
    Ok(())
}

/// All calls that were completed.
pub(crate) fn all_completed(alloc: Global, steps: &[TraceStep]) -> Result<CompletedCalls, NoMemory>
    ensures { IfOk result (λ all. all ≡ completed_in (reverse steps.now)) }
{
    let mut all = CompletedCalls::new(alloc);
    for (i, step) in steps.iter().enumerate() {
        note_completed(alloc, &steps[..i + 1], step, &mut all)?;
    }
    Ok(all)
}

/// The path up to a client's last completed call.
pub(crate) fn last_path(all: &[CompletedCall], client: u8) -> &[Place]
    ensures { prefix_of result.now ≡ last_prefix client (completions_of all.now) }
{
    let mut last: &[Place] = &[];
    for call in all {
        if call.client == client {
            last = call.path.as_slice();
        }
    }
    last
}

/// Whether two whole paths are the same, entry by entry.
fn same_path(a: &[Place], b: &[Place]) -> bool
    ensures { result ≡ pointwise (λ x y. same_entry_test x.entry y.entry) a.now b.now }
{
    if a.len() != b.len() {
        return false;
    }
    for (i, place) in a.iter().enumerate() {
        if !same_entry(&place.entry, &b[i].entry) {
            return false;
        }
    }
    true
}

/// How the call at a path's end was completed on this very path, if it was.
fn outcome_on(
    alloc: Global,
    all: &[CompletedCall],
    path: &[Place],
) -> Result<Option<Outcome>, NoMemory>
    ensures { IfOk result (λ o. o ≡ option_map (λ (c : Completion). c.outcome) (confirmation (completions_of all.now) (prefix_of path.now))) }
{
    for call in all {
        if same_path(call.path.as_slice(), path) {
            return Ok(Some(call.outcome.copy(alloc)?));
        }
    }
    Ok(None)
}

/// The calls of a path that were completed on this very path.
pub(crate) fn confirmed_on(
    alloc: Global,
    all: &[CompletedCall],
    path: &[Place],
) -> Result<View, NoMemory>
    ensures { IfOk result (λ v. reverse v ≡ confirmed_calls (completions_of all.now) (prefix_of path.now)) }
{
    let mut view = View::new(alloc);
    for (i, place) in path.iter().enumerate() {
        let outcome = outcome_on(alloc, all, &path[..i + 1])?;
        show(alloc, &mut view, place, outcome)?;
    }
    Ok(view)
}

/// A client's view, the oldest call first, as `view_of` gives it. It is slow on purpose: for each completed call it goes through
/// the transcript, and for each position of the client's path through the whole paths of all completed calls.
pub fn view_plainly(alloc: Global, t: &Transcript, client: u8) -> Result<View, NoMemory>
    requires { IsLawful (transcript_group t.now) (transcript_history t.now) }
    ensures { IfOk result (λ v. reverse v ≡ view_after (transcript_group t.now) client (transcript_history t.now)) }
{
    let all = all_completed(alloc, t.as_slice())?;
    let path = last_path(all.as_slice(), client);
    confirmed_on(alloc, all.as_slice(), path)
}

// ---- forged texts

/// Puts the text that goes with a seal's tag to others. That of position 0 needs no tag.
fn put_seal_text(
    alloc: Global,
    texts: &mut Names,
    seal: &Seal,
    hashes: &[Digest32],
) -> Result<(), NoMemory>
    ensures { OnOk result (texts.new ≡ texts.old ++ seal_texts_by (hash_at hashes.now) (Some seal.now)) }
{
    if seal.position == 0 {
        return Ok(());
    }
    let hash = hash_with(hashes, seal.position);
    texts.push(seal_text_of(alloc, seal.position, &hash, &seal.root)?)
}

/// Puts the texts that go with the tags of entries to others.
fn put_entry_texts(alloc: Global, texts: &mut Names, entries: &[Tagged]) -> Result<(), NoMemory>
    requires { AllByRecursion IsTagged entries.now }
    ensures { OnOk result (texts.new ≡ texts.old ++ map (λ t. invoke_text t.entry) entries.now) }
{
    for item in entries {
        let text = invoke_text_of(alloc, item.entry.client, item.entry.seq, &item.entry.op)?;
        texts.push(text)?;
    }
    Ok(())
}

/// The texts whose tags came with a seal and entries.
fn texts_with(
    alloc: Global,
    seal: &Seal,
    entries: &[Tagged],
    hashes: &[Digest32],
) -> Result<Names, NoMemory>
    requires { AllByRecursion IsTagged entries.now }
    ensures { IfOk result (λ texts. texts ≡ seal_texts_by (hash_at hashes.now) (Some seal.now) ++ map (λ t. invoke_text t.entry) entries.now) }
{
    let mut texts = Names::new(alloc);
    put_seal_text(alloc, &mut texts, seal, hashes)?;
    put_entry_texts(alloc, &mut texts, entries)?;
    Ok(texts)
}

/// The texts whose tags a client took at a step.
pub(crate) fn texts_taken(
    alloc: Global,
    step: &TraceStep,
    hashes: &[Digest32],
) -> Result<Names, NoMemory>
    ensures { IfOk result (λ texts. texts ≡ taken_with (hash_at hashes.now) (read_by step.now.input step.now.returned)) }
{
    match answer_taken(alloc, step)? {
        Some(ToClient::Reply { seal, entries, .. }) => {
            texts_with(alloc, &seal, entries.as_slice(), hashes)
        }
        Some(ToClient::Entries { seal, entries }) => {
            texts_with(alloc, &seal, entries.as_slice(), hashes)
        }
        Some(ToClient::Update { seal, .. }) => texts_with(alloc, &seal, &[], hashes),
        _ => Ok(Names::new(alloc)),
    }
}

/// Whether a text is one of these.
fn is_one_of(texts: &[Bytes], text: &[u8]) -> bool
    ensures { result ≡ is_among texts.now text.now }
{
    texts.iter().any(|made| text == made.as_slice())
}

/// Whether some text that was taken is none of those that were made.
pub(crate) fn is_some_forged(made: &[Bytes], taken: &[Bytes]) -> bool
    ensures { result ≡ has_forged made.now taken.now }
{
    taken.iter().any(|text| !is_one_of(made, text.as_slice()))
}

/// Puts the text that a client made at a step to those that were made.
pub(crate) fn put_made(
    alloc: Global,
    step: &TraceStep,
    hashes: &[Digest32],
    made: &mut Names,
) -> Result<(), NoMemory>
    ensures { OnOk result (made.new ≡ made.old ++ option_to_list (made_by (hash_at hashes.now) step.now.client (request_in step.now.sent))) }
{
    if let Some(text) = text_made(alloc, step, hashes)? {
        made.push(text)?;
    }
    Ok(())
}

/// Whether the history is forged, as `forged` tells it. It is slow on purpose: at each
/// step it goes through the transcript for the client's path and its hashes, and for each text that was taken through all texts
/// that were made.
pub fn forged_plainly(alloc: Global, t: &Transcript) -> Result<bool, NoMemory>
    requires { IsLawful (transcript_group t.now) (transcript_history t.now) }
    ensures { IfOk result (λ b. b ≡ is_forged (transcript_group t.now) (transcript_history t.now)) }
{
    let steps = t.as_slice();
    let mut made = Names::new(alloc);
    for (i, step) in steps.iter().enumerate() {
        let path = path_in(alloc, &steps[..i + 1], step.client)?;
        let hashes = hashes_along(alloc, t, path.places.as_slice())?;
        let taken = texts_taken(alloc, step, hashes.as_slice())?;
        if is_some_forged(made.as_slice(), taken.as_slice()) {
            return Ok(true);
        }
        put_made(alloc, step, hashes.as_slice(), &mut made)?;
    }
    Ok(false)
}
