//! The views of a transcript's clients.

ghost use Rattle.std.specs.Prelude.{◌≡◌, ◌<◌, ◌≤◌, ◌+◌, ◌-◌, [], ◌∷◌, ◌++◌, length, map, reverse, IfOk, OnOk, OnErr, slice_get, slice_index, slice_index_or, Some, None, IfSome, if◌then◌else◌};
ghost use Rattle.vic_rules.specs.History.{IsLawful};
ghost use Rattle.vic_rules.specs.Views.{view_of as view_after};
ghost use Rattle.vic_view.specs.Transcripts.{transcript_group, transcript_history};
ghost use Rattle.vic_view.specs.Replay.{AreReplayed, common_length, outcome_of, length_among, outcome_among, lengths_with, places_among, shown_by, shown_below};

use crate::replay::{ClientPath, Place, path_of};
use crate::together::{Line, Rows, row_afresh, together};
use crate::transcript::Transcript;
use crate::view::View;
use std::alloc::Global;
use std::marker::Model;
use vic_dict::{NoMemory, Outcome};
use vic_rules::{Shown, same_entry};

/// The paths of clients 1, 2 and so on.
#[derive(Debug, Drop)]
pub(crate) struct Paths {
    items: Vec<ClientPath>,
}

impl Model for Paths {
    ghost use Rattle.std.specs.Prelude.{List};
    ghost use Rattle.vic_view.specs.declared.replay.ClientPath.{ClientPath};

    ghost Value = { List ClientPath };

    ghost view = { λ a. a.items.items };
}

impl Paths {
    fn new(alloc: Global) -> Paths
        ensures { result ≡ [] }
    {
        Paths {
            items: Vec::new(alloc),
        }
    }

    pub(crate) fn as_slice(&self) -> &[ClientPath]
        ensures { result.now ≡ self.now }
    {
        self.items.as_slice()
    }

    fn push(&mut self, path: ClientPath) -> Result<(), NoMemory>
        ensures ok { OnOk result (self.new ≡ self.old ++ path ∷ []) }
        ensures err { OnErr result (self.new ≡ self.old) }
    {
        self.items.push(path)?;
        Ok(())
    }
}

/// The paths of all clients. It costs the transcript, and for each client a look at each step.
pub(crate) fn all_paths(alloc: Global, t: &Transcript) -> Result<Paths, NoMemory>
    ensures { IfOk result (λ all. AreReplayed t.now.count (transcript_history t.now) all) }
{
    let mut all = Paths::new(alloc);
    for k in 0..t.count {
        all.push(path_of(alloc, t, k + 1)?)?;
    }
    Ok(all)
}

/// How many entries two paths have in common at their front. It takes no memory, and costs that number.
pub fn common_length(a: &[Place], b: &[Place]) -> usize
    ensures { result ≡ common_length a.now b.now }
{
    let mut length = 0;
    for (i, place) in a.iter().enumerate() {
        if !(i < b.len() && same_entry(&place.entry, &b[i].entry)) {
            return length;
        }
        length += 1;
    }
    length
}

/// The same, where so many are known to be. It costs the others.
fn common_length_beyond(a: &[Place], b: &[Place], known: usize) -> usize
    requires first { known ≤ length a.now }
    requires second { known ≤ length b.now }
    requires common { known ≤ common_length a.now b.now }
    ensures { result ≡ common_length a.now b.now }
{
    known + common_length(&a[known..], &b[known..])
}

impl Line for ClientPath {
    ghost in_common = { λ a b. common_length a.places b.places };

    fn common_beyond(&self, other: &ClientPath, known: usize) -> usize {
        common_length_beyond(self.places.as_slice(), other.places.as_slice(), known)
    }
}

/// How many entries each two paths have in common at their front. It costs the paths, and a number for each two of them.
pub(crate) fn common_lengths(alloc: Global, all: &[ClientPath]) -> Result<Rows, NoMemory>
    ensures { IfOk result (λ rows. rows ≡ map (λ p. lengths_with p.places all.now) all.now) }
{
    together(alloc, all)
}

/// The outcome at a place, if it has one.
fn outcome_at(alloc: Global, places: &[Place], number: usize) -> Result<Option<Outcome>, NoMemory>
    ensures { IfOk result (λ o. o ≡ outcome_of (slice_get places.now number)) }
{
    if number >= places.len() {
        return Ok(None);
    }
    match &places[number].outcome {
        Some(outcome) => Ok(Some(outcome.copy(alloc)?)),
        None => Ok(None),
    }
}

/// How the owner of a place's entry completed the call there, if its own path is the same up to there.
fn owner_outcome(
    alloc: Global,
    lengths: &[usize],
    all: &[ClientPath],
    owner: u8,
    number: usize,
) -> Result<Option<Outcome>, NoMemory>
    ensures { IfOk result (λ o. o ≡ outcome_among lengths.now all.now owner number) }
{
    if owner == 0 {
        return Ok(None);
    }
    let index = owner as usize - 1;
    if !(index < lengths.len() && index < all.len()) {
        return Ok(None);
    }
    if !(number < lengths[index]) {
        return Ok(None);
    }
    outcome_at(alloc, all[index].places.as_slice(), number)
}

/// Shows a place's call, if its owner completed it.
pub(crate) fn show(
    alloc: Global,
    view: &mut View,
    place: &Place,
    outcome: Option<Outcome>,
) -> Result<(), NoMemory>
    ensures { OnOk result (view.new ≡ view.old ++ shown_by place.now.entry outcome) }
{
    if let Some(outcome) = outcome {
        view.push(Shown {
            entry: place.entry.copy(alloc)?,
            outcome,
        })?;
    }
    Ok(())
}

/// What a path shows, up to its client's last completed call, where its lengths in common with all paths are known.
pub(crate) fn view_among(
    alloc: Global,
    mine: &ClientPath,
    lengths: &[usize],
    all: &[ClientPath],
) -> Result<View, NoMemory>
    requires done { mine.now.done ≤ length mine.now.places }
    requires lengths { lengths.now ≡ lengths_with mine.now.places all.now }
    ensures { IfOk result (λ v. reverse v ≡ shown_below (places_among all.now) mine.now.places mine.now.done) }
{
    let mut view = View::new(alloc);
    for number in 0..mine.done {
        let place = mine.places.at(number);
        let outcome = owner_outcome(alloc, lengths, all, place.entry.client, number)?;
        show(alloc, &mut view, place, outcome)?;
    }
    Ok(view)
}

/// A client's view, the oldest call first. It costs the transcript, and for each client a look at each step and a comparison
/// of its path with this client's.
pub fn view_of(alloc: Global, t: &Transcript, client: u8) -> Result<View, NoMemory>
    requires { IsLawful (transcript_group t.now) (transcript_history t.now) }
    ensures { IfOk result (λ v. reverse v ≡ view_after (transcript_group t.now) client (transcript_history t.now)) }
{
    let mine = path_of(alloc, t, client)?;
    let paths = all_paths(alloc, t)?;
    let all = paths.as_slice();
    let lengths = row_afresh(alloc, &mine, all)?;
    view_among(alloc, &mine, lengths.as_slice(), all)
}
