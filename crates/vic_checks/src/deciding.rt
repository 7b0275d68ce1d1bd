//! The decision on a call.

ghost use Rattle.std.specs.Prelude.{◌≡◌, ◌+◌, ◌-◌, ◌<◌, ◌≤◌, ℕ, List, Some, length, drop, nat_lt, if◌then◌else◌, IfOk, OnOk, IsTrue, true, false};
ghost use Rattle.vic_dict.specs.declared.limits.TheConstants.{MOST_ENTRIES};
ghost use Rattle.vic_dict.specs.declared.op.Entry.{Entry as AnEntry};
ghost use Rattle.vic_dict.specs.Dictionary.{Dictionary, Fits, after, reply};
ghost use Rattle.vic_dict.specs.Lists.{front, newest};
ghost use Rattle.vic_wire.specs.Hashes.{Group};
ghost use Rattle.vic_wire.specs.Parts.{IsPart, reaches, walked};
ghost use Rattle.vic_prune.specs.Parts.{part as shown};
ghost use Rattle.vic_chain.specs.Held.{held_length, ShowsPath};
ghost use Rattle.vic_rules.specs.Client.{Standing, onto, in_the_way, is_in_the_way as in_way, own_calls_over, decision, done_op};
ghost use Rattle.vic_checks.specs.Owns.{IsOwn};
ghost use Rattle.vic_checks.specs.State.{state_group, StandsForState, below_last};

use crate::state::{OwnList, State};
use std::alloc::Global;
use vic_chain::Window;
use vic_commute::conflicts;
use vic_dict::{Answer, Entry, NoMemory, Op, Outcome, PlainDict};
use vic_prune::Pruned;
use vic_rules::Own;
use vic_wire::TaggedList;

// Whether an entry is another client's and conflicts with the operation, wherever it stands.
fn is_in_the_way(me: u8, op: &Op, entry: &Entry) -> bool
    ensures { (position : ℕ) → result ≡ in_way me op.now position entry.now }
{
    entry.client != me && conflicts(&entry.op, op)
}

// The entry at a position above the window's seal, on its path with these entries put onto it.
fn entry_at<'a>(window: &'a Window, entries: &'a TaggedList, position: u32) -> &'a Entry
    requires above { window.now.sealed < position }
    requires within { position ≤ held_length window.now + length entries.now }
    ensures { (g : Group) (p : List AnEntry) → ShowsPath g p window.now → newest (front position (onto entries.now p)) ≡ Some result.now }
{
    let length = window.length();
    if position <= length {
        return window.entry_at(position);
    }
    let newer = (position - length - 1) as usize;
    &entries.at(newer).entry
}

// The least position above `base` whose entry is in the way, on the window's path with these entries put onto it; the last
// entry, which is the client's own, is left out.
pub(crate) fn first_in_the_way(
    me: u8,
    op: &Op,
    window: &Window,
    entries: &TaggedList,
    base: u32,
) -> Option<u32>
    requires above { window.now.sealed ≤ base }
    requires below { base < held_length window.now + length entries.now }
    requires room { held_length window.now + length entries.now ≤ MOST_ENTRIES }
    ensures { (g : Group) (p : List AnEntry) → ShowsPath g p window.now → result ≡ in_the_way me op.now base (drop 1 (onto entries.now p)) }
{
    let end = window.length() + entries.len() as u32;
    for position in base + 1..end {
        let entry = entry_at(window, entries, position);
        if is_in_the_way(me, op, entry) {
            return Some(position);
        }
    }
    None
}

// Does an own call again where it stands above a position: a done put or del changes the dictionary, and nothing else does.
fn lay(alloc: Global, dict: &mut PlainDict, call: &Own, base: u32) -> Result<(), NoMemory>
    requires { IsOwn call.now }
    ensures { OnOk result (dict.new ≡ (if nat_lt base call.now.position then done_op dict.old call.now else dict.old)) }
{
    if base < call.position && call.done {
        match &call.op {
            Op::Put(key, value) => dict.put(key.copy(alloc)?, value.copy(alloc)?)?,
            Op::Del(key) => {
                let _ = dict.del(key.as_slice());
            }
            Op::Get(_) | Op::List(_) => (),
        }
    }
    Ok(())
}

// Does the own calls above a position again, in order.
fn lay_all(alloc: Global, dict: &mut PlainDict, own: &OwnList, base: u32) -> Result<(), NoMemory>
    ensures { OnOk result (dict.new ≡ own_calls_over own.now base dict.old) }
{
    for i in 0..own.len() {
        lay(alloc, dict, own.at(i), base)?;
    }
    Ok(())
}

// Whether an own call is done again over what stands at a position.
fn is_laid(call: &Own, base: u32) -> bool
    ensures { result ≡ false → (d : Dictionary) → d ≡ (if nat_lt base call.now.position then done_op d call.now else d) }
{
    base < call.position && call.done
}

// Whether none of the own calls is.
fn are_below(own: &OwnList, base: u32) -> bool
    ensures { IsTrue result → (d : Dictionary) → own_calls_over own.now base d ≡ d }
{
    for i in 0..own.len() {
        if is_laid(own.at(i), base) {
            return false;
        }
    }
    true
}

// The answer at what the operation walks over.
fn answer_at(alloc: Global, part: &Pruned, op: &Op) -> Result<Answer, NoMemory>
    requires grammar { IsPart (shown part.now) }
    requires fits { Fits op.now }
    requires reached { reaches (shown part.now) op.now ≡ true }
    ensures { IfOk result (λ a. a ≡ reply (walked (shown part.now) op.now) op.now) }
{
    match part.try_op(alloc, op) {
        Ok(answer) => Ok(answer),
        Err(_) => Err(NoMemory),
    }
}

// The dictionary of what the operation walks over.
fn walked_over(alloc: Global, part: &Pruned, op: &Op) -> Result<PlainDict, NoMemory>
    requires grammar { IsPart (shown part.now) }
    requires fits { Fits op.now }
    requires reached { reaches (shown part.now) op.now ≡ true }
    ensures { IfOk result (λ d. d ≡ walked (shown part.now) op.now) }
{
    match part.walked(alloc, op) {
        Ok(dict) => Ok(dict),
        Err(_) => Err(NoMemory),
    }
}

/// What a client decides of its operation at the position that is the new length, given the entries of the Reply, the
/// position of its seal and its part. Where no own call that is done stands above `base`, the part itself is asked, which costs its walk and
/// the answer. Else what the operation walks over is copied, and the client's own calls are done again on the copy: each of them costs the
/// logarithm or the number of the walk's rows. The entries above `base` are looked through once.
pub fn decide(
    alloc: Global,
    state: &State,
    entries: &TaggedList,
    base: u32,
    part: &Pruned,
    op: &Op,
) -> Result<Outcome, NoMemory>
    requires fits { Fits op.now }
    requires grammar { IsPart (shown part.now) }
    requires reached { reaches (shown part.now) op.now ≡ true }
    requires above { state.now.window.sealed ≤ base }
    requires below { base < held_length state.now.window + length entries.now }
    requires room { held_length state.now.window + length entries.now ≤ MOST_ENTRIES }
    ensures { (s : Standing) → StandsForState state.now s
        → IfOk result (λ o. o ≡ decision state.now.id s (below_last s entries.now) base (shown part.now) op.now) }
{
    if let Some(position) = first_in_the_way(state.id, op, &state.window, entries, base) {
        return Ok(Outcome::Aborted(position));
    }
    if are_below(&state.own, base) {
        return Ok(Outcome::Done(answer_at(alloc, part, op)?));
    }
    let mut laid_over = walked_over(alloc, part, op)?;
    lay_all(alloc, &mut laid_over, &state.own, base)?;
    Ok(Outcome::Done(laid_over.do_op(alloc, op)?))
}
