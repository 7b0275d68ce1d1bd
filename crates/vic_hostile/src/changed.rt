//! Answers that are changed before they are encoded.

ghost use Rattle.std.specs.Prelude.{◌≡◌, ◌≤◌, ◌<◌, length, IfOk, IfSome, option_copied, take, reverse};
ghost use Rattle.std.specs.List.{AllByRecursion};
ghost use Rattle.vic_dict.specs.Dictionary.{Fits};
ghost use Rattle.vic_wire.specs.Messages.{HasSpelling, IsTagged};
ghost use Rattle.vic_attacks.specs.Hostile.{entries_with_swap, with_swap, with_empty_part, part_or_bare, last_op, with_part_of, without_last};

use std::alloc::Global;
use vic_dict::{Bytes, NoMemory, Op};
use vic_proof::{bare_bytes, cut_bytes};
use vic_trie::Trie;
use vic_wire::{Tagged, TaggedList, ToClient};

/// The part of the empty dictionary: its form byte, and a node that is empty.
const EMPTY_PART: [u8; 2] = [1, 0];

fn copied(alloc: Global, item: &Tagged) -> Result<Tagged, NoMemory>
    ensures { IfOk result (λ made. made ≡ item.now) }
{
    let entry = item.entry.copy(alloc)?;
    Ok(Tagged {
        entry,
        tag: item.tag,
    })
}

/// Copies of the first entries, the last of them first.
fn reversed(alloc: Global, entries: &TaggedList, count: usize) -> Result<TaggedList, NoMemory>
    requires within { count ≤ length entries.now }
    requires spelled { AllByRecursion IsTagged entries.now }
    ensures is { IfOk result (λ made. made ≡ reverse (take count entries.now)) }
    ensures spelled { IfOk result (λ made. AllByRecursion IsTagged made) }
{
    let mut made = TaggedList::new(alloc);
    for done in 0..count {
        let item = copied(alloc, entries.at(count - 1 - done))?;
        made.push(item)?;
    }
    Ok(made)
}

/// Copies of the entries, all but the last in reverse order. There is one at least.
fn swapped_list(alloc: Global, entries: &TaggedList) -> Result<TaggedList, NoMemory>
    requires some { 0 < length entries.now }
    requires spelled { AllByRecursion IsTagged entries.now }
    ensures is { IfOk result (λ made. made ≡ entries_with_swap entries.now) }
    ensures spelled { IfOk result (λ made. AllByRecursion IsTagged made) }
    ensures count { IfOk result (λ made. length made ≡ length entries.now) }
{
    let last = entries.len() - 1;
    let mut made = reversed(alloc, entries, last)?;
    let own = copied(alloc, entries.at(last))?;
    made.push(own)?;
    Ok(made)
}

/// A Reply tells its entries in the other order, but for the last.
pub(crate) fn with_swap(alloc: Global, answer: ToClient) -> Result<ToClient, NoMemory>
    requires { HasSpelling answer }
    ensures is { IfOk result (λ a. a ≡ with_swap answer) }
    ensures spelled { IfOk result (λ a. HasSpelling a) }
{
    match answer {
        ToClient::Reply {
            seal,
            entries,
            part,
        } => {
            let entries = swapped_list(alloc, &entries)?;
            Ok(ToClient::Reply {
                seal,
                entries,
                part,
            })
        }
        other => Ok(other),
    }
}

/// A part becomes that of the empty dictionary.
pub(crate) fn with_empty_part(alloc: Global, answer: ToClient) -> Result<ToClient, NoMemory>
    requires { HasSpelling answer }
    ensures is { IfOk result (λ a. a ≡ with_empty_part answer) }
    ensures spelled { IfOk result (λ a. HasSpelling a) }
{
    match answer {
        ToClient::Reply { seal, entries, .. } => Ok(ToClient::Reply {
            seal,
            entries,
            part: Bytes::of(alloc, &EMPTY_PART)?,
        }),
        ToClient::Update { seal, .. } => Ok(ToClient::Update {
            seal,
            part: Bytes::of(alloc, &EMPTY_PART)?,
        }),
        other => Ok(other),
    }
}

/// The part that an operation needs, or the bare one where there is none.
fn part_or_bare(alloc: Global, dictionary: &Trie, op: Option<&Op>) -> Result<Bytes, NoMemory>
    requires { IfSome (option_copied op) (λ o. Fits o) }
    ensures { IfOk result (λ bytes. bytes ≡ part_or_bare dictionary.now (option_copied op.entry)) }
{
    match op {
        Some(op) => cut_bytes(alloc, dictionary, op),
        None => bare_bytes(alloc, dictionary),
    }
}

/// The part that a Reply's own operation needs: it is that of the last entry, of which there is one at least.
fn part_of_last(alloc: Global, dictionary: &Trie, entries: &TaggedList) -> Result<Bytes, NoMemory>
    requires some { 0 < length entries.now }
    requires spelled { AllByRecursion IsTagged entries.now }
    ensures { IfOk result (λ bytes. bytes ≡ part_or_bare dictionary.now (last_op entries.now)) }
{
    let last = entries.at(entries.len() - 1);
    cut_bytes(alloc, dictionary, &last.entry.op)
}

/// A part is cut from a dictionary: that of a Reply for the call that it answers, that of an Update for an operation, if there is one.
pub(crate) fn with_part_of(
    alloc: Global,
    dictionary: &Trie,
    op: Option<&Op>,
    answer: ToClient,
) -> Result<ToClient, NoMemory>
    requires fits { IfSome (option_copied op) (λ o. Fits o) }
    requires spelled { HasSpelling answer }
    ensures is { IfOk result (λ a. a ≡ with_part_of dictionary.now (option_copied op.entry) answer) }
    ensures spelled { IfOk result (λ a. HasSpelling a) }
{
    match answer {
        ToClient::Reply { seal, entries, .. } => {
            let part = part_of_last(alloc, dictionary, &entries)?;
            Ok(ToClient::Reply {
                seal,
                entries,
                part,
            })
        }
        ToClient::Update { seal, .. } => {
            let part = part_or_bare(alloc, dictionary, op)?;
            Ok(ToClient::Update { seal, part })
        }
        other => Ok(other),
    }
}

/// The bytes but the last. It costs as much as they are.
pub(crate) fn without_last(alloc: Global, bytes: &Bytes) -> Result<Bytes, NoMemory>
    ensures { IfOk result (λ made. made ≡ without_last bytes.now) }
{
    let bytes = bytes.as_slice();
    match bytes.split_last() {
        None => Ok(Bytes::new(alloc)),
        Some((_, front)) => Bytes::of(alloc, front),
    }
}
