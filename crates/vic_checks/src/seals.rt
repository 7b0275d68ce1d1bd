//! The seal of an answer: that it holds on the client's path, and that the part has its root.

ghost use Rattle.std.specs.Prelude.{◌≡◌, ◌+◌, ◌<◌, ◌≤◌, ◌||◌, ℕ, List, length, nat_eq, ◌&&◌, not, Option, Some, option_copied, IfSome, IsTrue};
ghost use Rattle.std.specs.List.{AllByRecursion};
ghost use Rattle.std.specs.Str.{bytes_eq};
ghost use Rattle.vic_dict.specs.declared.op.Entry.{Entry as AnEntry};
ghost use Rattle.vic_dict.specs.Lists.{front};
ghost use Rattle.vic_wire.specs.Hashes.{Group, chain, tag_of};
ghost use Rattle.vic_wire.specs.Texts.{seal_text};
ghost use Rattle.vic_wire.specs.Messages.{HasSpelling, IsTagged};
ghost use Rattle.vic_chain.specs.Held.{held_length, ShowsPath};
ghost use Rattle.vic_rules.specs.Client.{Standing, onto, seal_of, entries_of, is_sealed as sealed, is_proved as proved, has_root, has_walk, has_open_op, has_own_op, is_write as writes};
ghost use Rattle.vic_dict.specs.Dictionary.{Fits};
ghost use Rattle.vic_checks.specs.Parted.{part_of, part_seen, IsGrammar, IsWithin, IsAbove};
ghost use Rattle.vic_checks.specs.Owns.{IsOwn};
ghost use Rattle.vic_checks.specs.Passing.{AwaitsFit, IsShown};

use crate::state::OwnList;
use crate::tags::seal_tag;
use vic_chain::{Window, chain_step};
use vic_dict::Op;
use vic_prune::Pruned;
use vic_rules::{Awaiting, Own};
use vic_tag::GroupKey;
use vic_tag::key::same_digest;
use vic_wire::{Digest32, Seal, Tagged, ToClient};

// The hash of a path with these entries put onto it, from the hash of the path.
fn hash_onto(from: &Digest32, items: &[Tagged]) -> Digest32
    requires { AllByRecursion IsTagged items.now }
    ensures { (g : Group) (p : List AnEntry) → from.now.bytes ≡ chain g p → result.bytes ≡ chain g (onto items.now p) }
{
    let mut hash = *from;
    for item in items {
        hash = chain_step(&hash, &item.entry);
    }
    hash
}

// The hash at a position from the window's seal on, on the window's path with these entries put onto it. It costs what the
// entries up to the position cost.
fn hash_at(window: &Window, items: &[Tagged], position: u32) -> Digest32
    requires above { window.now.sealed ≤ position }
    requires within { position ≤ held_length window.now + length items.now }
    requires spelled { AllByRecursion IsTagged items.now }
    ensures { (g : Group) (p : List AnEntry) → ShowsPath g p window.now → result.bytes ≡ chain g (front position (onto items.now p)) }
{
    let length = window.length();
    if position <= length {
        return window.hash_at(position);
    }
    let newer = (position - length) as usize;
    hash_onto(&window.hash_at(length), &items[..newer])
}

// Whether the tag of a seal holds for this hash.
fn seal_holds(key: &GroupKey, seal: &Seal, hash: &Digest32) -> bool
    ensures { result ≡ (nat_eq seal.now.position 0 || bytes_eq seal.now.tag.bytes (tag_of key.now (seal_text seal.now.position hash.now.bytes seal.now.root.bytes))) }
{
    if seal.position == 0 {
        return true;
    }
    let right = seal_tag(key, seal.position, hash, &seal.root);
    same_digest(&right, &seal.tag)
}

// Whether the tag of a seal holds on the window's path with these entries put onto it.
fn holds_on(key: &GroupKey, window: &Window, items: &[Tagged], seal: &Seal) -> bool
    requires above { window.now.sealed ≤ seal.now.position }
    requires within { seal.now.position ≤ held_length window.now + length items.now }
    requires spelled { AllByRecursion IsTagged items.now }
    ensures { (g : Group) (p : List AnEntry) → g.key ≡ key.now → ShowsPath g p window.now → result ≡ sealed g (onto items.now p) (Some seal.now) }
{
    let hash = hash_at(window, items, seal.position);
    seal_holds(key, seal, &hash)
}

// The same on the window's path as it is.
fn holds_there(key: &GroupKey, window: &Window, seal: &Seal) -> bool
    requires above { window.now.sealed ≤ seal.now.position }
    requires within { seal.now.position ≤ held_length window.now }
    ensures { (g : Group) (p : List AnEntry) → g.key ≡ key.now → ShowsPath g p window.now → result ≡ sealed g p (Some seal.now) }
{
    let hash = window.hash_at(seal.position);
    seal_holds(key, seal, &hash)
}

/// The check SEAL_TAG: whether the tag of the answer's seal holds on the client's path with the answer's entries. It costs
/// what the entries cost.
pub fn is_sealed(key: &GroupKey, window: &Window, message: &ToClient) -> bool
    requires spelled { HasSpelling message.now }
    requires above { IsAbove window.now.sealed message.now }
    requires within { IsWithin (held_length window.now) message.now }
    ensures { (g : Group) (p : List AnEntry) → g.key ≡ key.now → ShowsPath g p window.now
        → result ≡ sealed g (onto (entries_of message.now) p) (seal_of message.now) }
{
    match message {
        ToClient::Reply { seal, entries, .. } => holds_on(key, window, entries.as_slice(), seal),
        ToClient::Update { seal, .. } => holds_there(key, window, seal),
        ToClient::Entries { seal, entries } => holds_on(key, window, entries.as_slice(), seal),
        _ => true,
    }
}

// Whether the part has this root.
fn has_root(found: Option<&Pruned>, root: &Digest32) -> bool
    requires { IfSome (option_copied found) IsGrammar }
    ensures { result ≡ has_root (part_seen (option_copied found.entry)) root.now.bytes }
{
    match found {
        Some(part) => same_digest(&part.root(), root),
        None => false,
    }
}

// Whether the part shows what the operation walks over.
fn has_walk(found: Option<&Pruned>, op: &Op) -> bool
    requires grammar { IfSome (option_copied found) IsGrammar }
    requires fits { Fits op.now }
    ensures { result ≡ has_walk (part_seen (option_copied found.entry)) op.now }
{
    match found {
        Some(part) => part.reaches(op),
        None => false,
    }
}

// Whether it shows what the open call walks over.
fn has_open_op(found: Option<&Pruned>, awaiting: &Awaiting) -> bool
    requires grammar { IfSome (option_copied found) IsGrammar }
    requires fits { AwaitsFit awaiting.now }
    ensures { result ≡ has_open_op (part_seen (option_copied found.entry)) awaiting.now }
{
    match awaiting {
        Awaiting::Reply(_, op, _) => has_walk(found, op),
        _ => true,
    }
}

/// Whether an operation may change the dictionary.
pub fn is_write(op: &Op) -> bool
    ensures { result ≡ writes op.now }
{
    matches!(op, Op::Put(_, _) | Op::Del(_))
}

// Whether it shows what an own call that is sealed next walks over, where this changes the dictionary.
fn shows_call(found: Option<&Pruned>, call: &Own) -> bool
    requires grammar { IfSome (option_copied found) IsGrammar }
    requires fits { IsOwn call.now }
    ensures { result ≡ (not (call.now.done && writes call.now.op) || has_walk (part_seen (option_copied found.entry)) call.now.op) }
{
    !(call.done && is_write(&call.op)) || has_walk(found, &call.op)
}

// The same of the oldest own call that isn't sealed.
fn has_own_op(found: Option<&Pruned>, own: &OwnList) -> bool
    requires { IfSome (option_copied found) IsGrammar }
    ensures { result ≡ has_own_op (part_seen (option_copied found.entry)) own.now }
{
    match own.first() {
        Some(call) => shows_call(found, call),
        None => true,
    }
}

/// The check PROOF: whether the part, if the answer carries one, has the root of the answer's seal and shows what is walked
/// over: in a Reply by the open call, in an Update by the call that is sealed next. `found` is what the bytes of the answer's
/// part spell. It costs what the part costs.
pub fn is_proved(
    found: Option<&Pruned>,
    awaiting: &Awaiting,
    own: &OwnList,
    message: &ToClient,
) -> bool
    requires part { part_seen (option_copied found) ≡ part_of message.now }
    requires grammar { IfSome (option_copied found) IsGrammar }
    requires fits { AwaitsFit awaiting.now }
    ensures exact { (s : Standing) → s.own ≡ own.now → s.awaiting ≡ awaiting.now → result ≡ proved s message.now }
    ensures shown { IsTrue result → IsShown (part_seen (option_copied found.entry)) awaiting.now own.now message.now }
{
    match message {
        ToClient::Reply { seal, .. } => has_root(found, &seal.root) && has_open_op(found, awaiting),
        ToClient::Update { seal, .. } => has_root(found, &seal.root) && has_own_op(found, own),
        _ => true,
    }
}
