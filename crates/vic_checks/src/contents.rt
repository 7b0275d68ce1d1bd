//! The last check: what a load found is a reference, and a content is the one that was to be fetched.

ghost use Rattle.std.specs.Prelude.{◌≡◌, ◌+◌, ◌<◌, ◌≤◌, ℕ, Some, None, length, drop, nat_lt, if◌then◌else◌, is_some, option_copied, IfSome};
ghost use Rattle.std.specs.FinMap as map;
ghost use Rattle.vic_dict.specs.declared.limits.TheConstants.{MOST_ENTRIES};
ghost use Rattle.vic_dict.specs.declared.op.Op.TheVariants as op;
ghost use Rattle.vic_dict.specs.Dictionary.{Dictionary, Fits, IsKey};
ghost use Rattle.vic_wire.specs.Parts.{IsPart, walked};
ghost use Rattle.vic_prune.specs.Parts.{part as shown};
ghost use Rattle.vic_wire.specs.Messages.{HasSpelling};
ghost use Rattle.vic_chain.specs.Held.{held_length};
ghost use Rattle.vic_rules.specs.Client.{Standing, own_calls_over, done_op, decision, finds_reference, is_wanted as wanted, has_content as content_holds};
ghost use Rattle.vic_checks.specs.State.{StandsForState, below_last};
ghost use Rattle.vic_checks.specs.Parted.{part_of, part_seen, IsGrammar, IsAbove};
ghost use Rattle.vic_checks.specs.Passing.{IsFormed, AwaitsFit};
ghost use Rattle.vic_checks.specs.Finding.{left_at};

use crate::deciding::first_in_the_way;
use crate::state::{OwnList, State};
use vic_dict::{Bytes, Op};
use vic_proxy::is_content;
use vic_prune::Pruned;
use vic_rules::{Awaiting, Own};
use vic_wire::{TaggedList, ToClient};

// What stands under a key after an own call above a position is done again.
fn found_after<'a>(
    call: &'a Own,
    base: u32,
    key: &[u8],
    before: Option<&'a Bytes>,
) -> Option<&'a Bytes>
    ensures { option_copied result ≡ left_at base call.now key.now (option_copied before.entry) }
{
    if !(base < call.position && call.done) {
        return before;
    }
    match &call.op {
        Op::Put(name, value) => if key == name.as_slice() {
            Some(value)
        } else {
            before
        },
        Op::Del(name) => if key == name.as_slice() { None } else { before },
        _ => before,
    }
}

/// What stands under a key of a part once the own calls above a position are done again. It takes no memory, and costs what the own calls
/// and the key's walk cost.
pub fn found_above<'a>(
    own: &'a OwnList,
    base: u32,
    part: &'a Pruned,
    key: &[u8],
) -> Option<&'a Bytes>
    requires grammar { IsPart (shown part.now) }
    requires fits { IsKey key.now }
    ensures { option_copied result ≡ map.get (own_calls_over own.now base (walked (shown part.now) (Op.Get key.now))) key.now }
{
    let mut value = part.get(key);
    for i in 0..own.len() {
        value = found_after(own.at(i), base, key, value);
    }
    value
}

// Whether a content is the one that is awaited.
fn is_wanted(awaiting: &Awaiting, content: &[u8]) -> bool
    ensures { result ≡ wanted awaiting.now content.now }
{
    match awaiting {
        Awaiting::Content(hash, len) => is_content(hash, *len, content),
        _ => false,
    }
}

// Whether a call that is decided so finds a reference, if it finds a value.
#[tactic(auto, unfolding(vic_rules::specs::Client::decision))]
fn finds_one(state: &State, entries: &TaggedList, base: u32, part: &Pruned, op: &Op) -> bool
    requires grammar { IsPart (shown part.now) }
    requires fits { Fits op.now }
    requires above { state.now.window.sealed ≤ base }
    requires below { base < held_length state.now.window + length entries.now }
    requires room { held_length state.now.window + length entries.now ≤ MOST_ENTRIES }
    ensures { (s : Standing) → StandsForState state.now s → result ≡ finds_reference (decision state.now.id s (below_last s entries.now) base (shown part.now) op.now) }
{
    let Op::Get(key) = op else {
        return true;
    };
    if first_in_the_way(state.id, op, &state.window, entries, base).is_some() {
        return true;
    }
    match found_above(&state.own, base, part, key.as_slice()) {
        Some(value) => value.len() == 36,
        None => true,
    }
}

/// The check CONTENT: whether what a load found is a reference, and a content the one that was to be fetched. It costs what the
/// entries above the seal and the own calls cost, and of a content its hash.
pub fn has_content(state: &State, message: &ToClient, part: Option<&Pruned>) -> bool
    requires spelled { HasSpelling message.now }
    requires part { part_seen (option_copied part) ≡ part_of message.now }
    requires grammar { IfSome (option_copied part) IsGrammar }
    requires fits { AwaitsFit state.now.awaiting }
    requires formed { IsFormed (held_length state.now.window) state.now.awaiting (is_some part) message.now }
    requires above { IsAbove state.now.window.sealed message.now }
    ensures { (s : Standing) → StandsForState state.now s → result ≡ content_holds state.now.id s message.now }
{
    match message {
        ToClient::Reply { seal, entries, .. } => match &state.awaiting {
            Awaiting::Reply(_, op, load) => {
                if !*load {
                    return true;
                }
                match part {
                    Some(part) => finds_one(state, entries, seal.position, part, op),
                    None => true,
                }
            }
            _ => true,
        },
        ToClient::Content(content) => is_wanted(&state.awaiting, content.as_slice()),
        ToClient::Absent => false,
        _ => true,
    }
}
