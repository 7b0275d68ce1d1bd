//! The texts of the dictionaries that the fronts of a client's path leave, up to its highest seal.

ghost use Rattle.std.specs.Prelude.{◌≡◌, ◌≤◌, ◌+◌, ◌++◌, length, IfOk, OnOk, slice_get, if◌then◌else◌};
ghost use Rattle.std.specs.List.{AllByRecursion};
ghost use Rattle.vic_dict.specs.declared.limits.TheConstants.{MOST_ENTRIES};
ghost use Rattle.vic_dict.specs.Dictionary.{Fits, after};
ghost use Rattle.vic_laws.specs.Meanings.{texts_of_each, zero_to};
ghost use Rattle.vic_trie.specs.Weights.{weight_of};
ghost use Rattle.vic_view.specs.Making.{IsPlaceEntry};
ghost use Rattle.vic_apart.specs.Places.{is_done_with, is_done_at};
ghost use Rattle.vic_apart.specs.Sealed.{is_done_among, lengths_with, paths_in, left_texts};

use crate::nodes::put_tree_texts;
use crate::stand::Stand;
use std::alloc::Global;
use vic_dict::{Entry, Names, NoMemory, Outcome};
use vic_trie::Trie;
use vic_view::{Place, common_length};

/// How many entries a path has in common with each client's.
fn common_lengths(alloc: Global, mine: &[Place], all: &[Stand]) -> Result<Vec<usize>, NoMemory>
    ensures { IfOk result (λ lengths. lengths.items ≡ lengths_with mine.now all.now) }
{
    let mut lengths = Vec::new(alloc);
    for stand in all {
        lengths.push(common_length(mine, stand.path.as_slice()))?;
    }
    Ok(lengths)
}

/// Whether the call of a place was completed there as done.
fn is_done(place: &Place) -> bool
    ensures { result ≡ is_done_with place.now.outcome }
{
    match &place.outcome {
        Some(Outcome::Done(_)) => true,
        _ => false,
    }
}

/// Whether a path has a place with this number whose call its client completed there as done.
fn is_done_in(path: &[Place], number: usize) -> bool
    ensures { result ≡ is_done_at (slice_get path.now number) }
{
    number < path.len() && is_done(&path[number])
}

/// Whether the owner of a place's entry completed the call there as done, its own path being the same up to there.
fn is_done_by(lengths: &[usize], all: &[Stand], owner: u8, number: usize) -> bool
    ensures { result ≡ is_done_among lengths.now all.now owner number }
{
    if owner == 0 {
        return false;
    }
    let index = owner as usize - 1;
    if !(index < lengths.len() && index < all.len()) {
        return false;
    }
    number < lengths[index] && is_done_in(all[index].path.as_slice(), number)
}

/// A dictionary takes the operation of an entry that was done.
fn leave(dict: &mut Trie, entry: &Entry, done: bool) -> Result<(), NoMemory>
    requires fits { Fits entry.now.op }
    requires room { weight_of dict.old ≤ 4294967295 }
    ensures ok { OnOk result (dict.new ≡ (if done then after dict.old entry.now.op else dict.old)) }
    ensures weighs { OnOk result (weight_of dict.new ≤ weight_of dict.old + 335) }
{
    if done {
        dict.change(&entry.op)?;
    }
    Ok(())
}

/// Puts the texts of the dictionaries last that the fronts of a client's path leave, from the one of no entry to the one that is
/// sealed. It costs a comparison with each client's path, and each of the dictionaries.
pub(crate) fn put_left_texts(
    alloc: Global,
    mine: &Stand,
    all: &[Stand],
    texts: &mut Names,
) -> Result<(), NoMemory>
    requires entries { AllByRecursion IsPlaceEntry mine.now.path }
    requires few { length mine.now.path ≤ MOST_ENTRIES }
    requires within { mine.now.sealed ≤ length mine.now.path }
    ensures { OnOk result (texts.new ≡ texts.old ++ texts_of_each (left_texts (paths_in all.now) mine.now.path) (zero_to mine.now.sealed)) }
{
    let path = mine.path.as_slice();
    let lengths = common_lengths(alloc, path, all)?;
    let mut dict = Trie::new(alloc);
    put_tree_texts(alloc, &dict, texts)?;
    for number in 0..mine.sealed {
        let entry = &path[number].entry;
        let done = is_done_by(lengths.as_slice(), all, entry.client, number);
        leave(&mut dict, entry, done)?;
        put_tree_texts(alloc, &dict, texts)?;
    }
    Ok(())
}
