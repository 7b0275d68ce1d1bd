//! The paths of a transcript's clients, read from their steps.

ghost use Rattle.std.specs.Prelude.{◌≡◌, ◌<◌, ◌≤◌, [], ◌∷◌, ◌++◌, length, reverse, IfOk, OnOk, OnErr, slice_get, Some, None, is_some, IfSome, if◌then◌else◌};
ghost use Rattle.vic_wire.specs.Messages.{HasSpelling};
ghost use Rattle.vic_wire.specs.Reading.{read_answer};
ghost use Rattle.vic_view.specs.Transcripts.{transcript_history};
ghost use Rattle.vic_view.specs.Replay.{is_halt, read_by, entries_in, entries_at, completed_with, places_with, path_after, replayed_path, AreReplayed};

use crate::transcript::Transcript;
use std::alloc::Global;
use std::marker::Model;
use vic_dict::{Bytes, Entry, NoMemory, Outcome};
use vic_frames::decode_answer;
use vic_rules::{Input, TraceStep};
use vic_wire::{Tagged, TaggedList, ToClient};

/// A position of a client's path: the entry, and how the client completed this call here, if it did.
#[derive(Debug, Drop)]
pub struct Place {
    /// The entry at this position.
    pub entry: Entry,
    /// How the path's client completed its own call here; none for a call of another.
    pub outcome: Option<Outcome>,
}

/// A list of places, the oldest first.
#[derive(Debug, Drop)]
pub struct Places {
    items: Vec<Place>,
}

impl Model for Places {
    ghost use Rattle.std.specs.Prelude.{List};
    ghost use Rattle.vic_view.specs.declared.replay.Place.{Place};

    ghost Value = { List Place };

    ghost view = { λ a. a.items.items };
}

impl Places {
    fn new(alloc: Global) -> Places
        ensures { result ≡ [] }
    {
        Places {
            items: Vec::new(alloc),
        }
    }

    fn len(&self) -> usize
        ensures { result ≡ length self.now }
    {
        self.items.len()
    }

    /// All places, the oldest first.
    pub fn as_slice(&self) -> &[Place]
        ensures { result.now ≡ self.now }
    {
        self.items.as_slice()
    }

    /// The place with this number, counted from 0.
    pub(crate) fn at(&self, number: usize) -> &Place
        requires { number < length self.now }
        ensures { slice_get self.now number ≡ Some result.now }
    {
        &self.items[number]
    }

    fn push(&mut self, place: Place) -> Result<(), NoMemory>
        ensures ok { OnOk result (self.new ≡ self.old ++ place ∷ []) }
        ensures err { OnErr result (self.new ≡ self.old) }
    {
        self.items.push(place)?;
        Ok(())
    }
}

/// A client's path, and how long it was when the client last completed a call.
#[derive(Debug, Drop)]
pub struct ClientPath {
    /// The path, the oldest first.
    pub places: Places,
    /// How many places it had then; 0 where it completed no call.
    pub done: usize,
}

fn has_halted(returned: &Option<Outcome>) -> bool
    ensures { result ≡ is_halt returned.now }
{
    match returned {
        Some(Outcome::Halted(_)) => true,
        _ => false,
    }
}

fn has_completed(returned: &Option<Outcome>) -> bool
    ensures { result ≡ is_some (completed_with returned.now) }
{
    match returned {
        Some(Outcome::Done(_)) => true,
        Some(Outcome::Aborted(_)) => true,
        _ => false,
    }
}

/// The outcome of a call that was completed, where it is asked for.
pub(crate) fn completed(
    alloc: Global,
    returned: &Option<Outcome>,
    asked: bool,
) -> Result<Option<Outcome>, NoMemory>
    ensures { IfOk result (λ o. o ≡ (if asked then completed_with returned.now else None)) }
{
    if !asked {
        return Ok(None);
    }
    match returned {
        Some(Outcome::Done(answer)) => Ok(Some(Outcome::Done(answer.copy(alloc)?))),
        Some(Outcome::Aborted(position)) => Ok(Some(Outcome::Aborted(*position))),
        _ => Ok(None),
    }
}

fn entries_from(alloc: Global, answer: Option<ToClient>) -> TaggedList
    ensures { result ≡ entries_in answer }
{
    match answer {
        Some(ToClient::Reply { entries, .. }) => entries,
        Some(ToClient::Entries { entries, .. }) => entries,
        _ => TaggedList::new(alloc),
    }
}

fn decode_whole(alloc: Global, payload: &[u8]) -> Result<Option<ToClient>, NoMemory>
    ensures value { IfOk result (λ o. o ≡ read_answer payload.now) }
    ensures spelled { IfOk result (λ o. IfSome o HasSpelling) }
{
    match decode_answer(alloc, payload)? {
        Some(answer) => Ok(Some(answer)),
        None => Ok(None),
    }
}

/// The answer that a client took at a step without halting. It costs the answer.
pub fn answer_taken(alloc: Global, step: &TraceStep) -> Result<Option<ToClient>, NoMemory>
    ensures value { IfOk result (λ o. o ≡ read_by step.now.input step.now.returned) }
    ensures spelled { IfOk result (λ o. IfSome o HasSpelling) }
{
    let Input::Payload(payload) = &step.input else {
        return Ok(None);
    };
    if has_halted(&step.returned) {
        return Ok(None);
    }
    decode_whole(alloc, payload.as_slice())
}

/// The entries that a client took at a step.
fn entries_taken(alloc: Global, step: &TraceStep) -> Result<TaggedList, NoMemory>
    ensures { IfOk result (λ ts. ts ≡ entries_at step.now) }
{
    let answer = answer_taken(alloc, step)?;
    Ok(entries_from(alloc, answer))
}

/// Puts entries at a path's end, and how their call was completed beside the last one.
fn put_entries(
    alloc: Global,
    places: &mut Places,
    entries: &[Tagged],
    returned: &Option<Outcome>,
) -> Result<(), NoMemory>
    ensures { OnOk result (places.new ≡ places.old ++ places_with (completed_with returned.now) entries.now) }
{
    for (i, item) in entries.iter().enumerate() {
        let entry = item.entry.copy(alloc)?;
        let outcome = completed(alloc, returned, i + 1 == entries.len())?;
        places.push(Place { entry, outcome })?;
    }
    Ok(())
}

impl ClientPath {
    /// The path takes a step of its client.
    #[tactic(auto, unfolding(crate::specs::Replay::path_after))]
    fn take(&mut self, alloc: Global, step: &TraceStep) -> Result<(), NoMemory>
        ensures { OnOk result (self.new ≡ path_after step.now self.old) }
    {
        let entries = entries_taken(alloc, step)?;
        put_entries(alloc, &mut self.places, entries.as_slice(), &step.returned)?;
        if has_completed(&step.returned) {
            self.done = self.places.len();
        }
        Ok(())
    }
}

/// The path of a client, read from these steps.
pub(crate) fn path_in(
    alloc: Global,
    steps: &[TraceStep],
    client: u8,
) -> Result<ClientPath, NoMemory>
    ensures { IfOk result (λ p. p ≡ replayed_path client (reverse steps.now)) }
{
    let mut path = ClientPath {
        places: Places::new(alloc),
        done: 0,
    };
    for step in steps {
        if step.client == client {
            path.take(alloc, step)?;
        }
    }
    Ok(path)
}

/// The path of a client, read from its steps. It costs these, and a look at each of the others.
pub fn path_of(alloc: Global, t: &Transcript, client: u8) -> Result<ClientPath, NoMemory>
    ensures { IfOk result (λ p. p ≡ replayed_path client (transcript_history t.now)) }
{
    path_in(alloc, t.as_slice(), client)
}
