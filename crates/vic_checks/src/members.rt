//! Whose entries an answer may carry, and their tags.

ghost use Rattle.std.specs.Prelude.{◌≡◌, ◌+◌, ◌∷◌, [], take, get_or, length};
ghost use Rattle.std.specs.List.{list_all, AllByRecursion};
ghost use Rattle.vic_dict.specs.Dictionary.{Fits};
ghost use Rattle.vic_wire.specs.Messages.{HasSpelling, IsTagged};
ghost use Rattle.vic_wire.specs.Hashes.{Group};
ghost use Rattle.vic_rules.specs.Client.{Standing, newest_first, is_open as opens, is_other as other, is_reply_to as replies, has_members as members, is_tagged as tagged, has_tags as tags};

use crate::tags::invoke_tag;
use vic_dict::Entry;
use vic_rules::{Awaiting, same_op};
use vic_tag::GroupKey;
use vic_tag::key::same_digest;
use vic_wire::{Tagged, TaggedList, ToClient};

// Whether an entry is the call that the client awaits a Reply to.
fn is_open(me: u8, awaiting: &Awaiting, entry: &Entry) -> bool
    ensures { result ≡ opens me awaiting.now entry.now }
{
    match awaiting {
        Awaiting::Reply(seq, op, _) => entry.client == me
            && (entry.seq == *seq && same_op(&entry.op, op)),
        _ => false,
    }
}

fn is_other(count: u8, me: u8, entry: &Entry) -> bool
    ensures { result ≡ other count me entry.now }
{
    entry.client <= count && entry.client != me
}

// Whether each entry is another member's.
fn are_others(count: u8, me: u8, items: &[Tagged]) -> bool
    ensures { result ≡ list_all (other count me) (newest_first items.now) }
{
    for tagged in items {
        if !is_other(count, me, &tagged.entry) {
            return false;
        }
    }
    true
}

// Whether the last entry is a member's and the open call, and every entry below it is another member's.
fn is_headed(count: u8, me: u8, awaiting: &Awaiting, last: &Entry, others: &[Tagged]) -> bool
    ensures { result ≡ replies count me awaiting.now (last.now ∷ newest_first others.now) }
{
    last.client <= count && (is_open(me, awaiting, last) && are_others(count, me, others))
}

// The same of all entries of a Reply.
fn is_reply_to(count: u8, me: u8, awaiting: &Awaiting, items: &[Tagged]) -> bool
    ensures { result ≡ replies count me awaiting.now (newest_first items.now) }
{
    if items.is_empty() {
        return false;
    }
    let last = items.len() - 1;
    is_headed(count, me, awaiting, &items[last].entry, &items[..last])
}

/// The check MEMBERS: whether the entries of an answer are those of members, and the last one of a Reply is the open call. It
/// costs what the entries cost.
pub fn has_members(count: u8, me: u8, awaiting: &Awaiting, message: &ToClient) -> bool
    ensures { (g : Group) (s : Standing) → g.count ≡ count → s.awaiting ≡ awaiting.now → result ≡ members g me s message.now }
{
    match message {
        ToClient::Reply { entries, .. } => is_reply_to(count, me, awaiting, entries.as_slice()),
        ToClient::Entries { entries, .. } => are_others(count, me, entries.as_slice()),
        _ => true,
    }
}

// Whether the tag of an entry holds.
fn is_tagged(key: &GroupKey, item: &Tagged) -> bool
    requires { Fits item.now.entry.op }
    ensures { result ≡ tagged key.now item.now }
{
    same_digest(&invoke_tag(key, &item.entry), &item.tag)
}

fn are_tagged(key: &GroupKey, items: &[Tagged]) -> bool
    requires { AllByRecursion IsTagged items.now }
    ensures { result ≡ list_all (tagged key.now) items.now }
{
    for item in items {
        if !is_tagged(key, item) {
            return false;
        }
    }
    true
}

/// The check INVOKE_TAG: whether the tag of each entry holds. It costs what the entries cost.
pub fn has_tags(key: &GroupKey, message: &ToClient) -> bool
    requires { HasSpelling message.now }
    ensures { (g : Group) → g.key ≡ key.now → result ≡ tags g message.now }
{
    match message {
        ToClient::Reply { entries, .. } | ToClient::Entries { entries, .. } => are_tagged(
            key,
            entries.as_slice(),
        ),
        _ => true,
    }
}
