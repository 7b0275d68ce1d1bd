//! The checks, in their order.

ghost use Rattle.std.specs.Prelude.{◌≡◌, ◌+◌, IfSome, IsTrue, is_some, option_copied, Some};
ghost use Rattle.vic_wire.specs.Messages.{HasSpelling};
ghost use Rattle.vic_rules.specs.Client.{Standing, verdict_on, is_not_older, keeps_own as own_kept, has_turn as turn, is_next as next, seal_of};
ghost use Rattle.vic_checks.specs.State.{state_group, StandsForState, failed_at};
ghost use Rattle.vic_chain.specs.Held.{held_length};
ghost use Rattle.vic_checks.specs.Parted.{part_of, part_in, part_seen, IsGrammar, IsAbove, IsLow};
ghost use Rattle.vic_checks.specs.Passing.{IsFormed, HasTurn, IsTurn, IsShownTo, AwaitsFit};

use crate::contents::has_content;
use crate::form::has_form;
use crate::members::{has_members, has_tags};
use crate::seals::{is_proved, is_sealed};
use crate::state::{OwnList, State, Verdict};
use vic_prune::Pruned;
use vic_rules::check::{
    BASE_BACK, CONTENT, FORM, INVOKE_TAG, MEMBERS, OWN_UNSETTLED, PROOF, SEAL_TAG, TURN,
};
use vic_wire::ToClient;

// The check BASE_BACK: whether the seal isn't older than the highest one.
fn is_not_older(sealed: u32, message: &ToClient) -> bool
    ensures exact { (s : Standing) → s.sealed ≡ sealed → result ≡ is_not_older s (seal_of message.now) }
    ensures above { IsTrue result → IsAbove sealed message.now }
{
    match message {
        ToClient::Reply { seal, .. }
        | ToClient::Update { seal, .. }
        | ToClient::Entries { seal, .. } => sealed <= seal.position,
        _ => true,
    }
}

// The check OWN_UNSETTLED: whether no own call that isn't sealed stands at or below the seal. It costs what these calls
// cost.
fn keeps_own(own: &OwnList, message: &ToClient) -> bool
    ensures { (s : Standing) → s.own ≡ own.now → result ≡ own_kept s (seal_of message.now) }
{
    match message {
        ToClient::Reply { seal, .. }
        | ToClient::Update { seal, .. }
        | ToClient::Entries { seal, .. } => own.are_above(seal.position),
        _ => true,
    }
}

// Whether the oldest own call that isn't sealed stands at a position.
fn is_next(own: &OwnList, position: u32) -> bool
    ensures { result ≡ next position own.now }
{
    match own.first() {
        Some(call) => call.position == position,
        None => false,
    }
}

// The check TURN: whether it is the client's turn, where the answer says so.
fn has_turn(own: &OwnList, message: &ToClient) -> bool
    requires { IsLow message.now }
    ensures exact { (s : Standing) → s.own ≡ own.now → result ≡ turn s message.now }
    ensures turn { IsTrue result → HasTurn own.now message.now }
{
    match message {
        ToClient::Update { seal, .. } => is_next(own, seal.position + 1),
        _ => true,
    }
}

// The verdict on an answer that could be read: the checks of `vic_rules::check`, in the order of their numbers.
fn judge_message(state: &State, message: &ToClient, part: Option<&Pruned>) -> Verdict
    requires spelled { HasSpelling message.now }
    requires part { part_seen (option_copied part) ≡ part_of message.now }
    requires grammar { IfSome (option_copied part) IsGrammar }
    requires fits { AwaitsFit state.now.awaiting }
    ensures exact { (s : Standing) → StandsForState state.now s → failed_at result ≡ verdict_on (state_group state.now) state.now.id s (Some message.now) }
    ensures formed { result ≡ Verdict.Pass → IsFormed (held_length state.now.window) state.now.awaiting (is_some part.entry) message.now }
    ensures above { result ≡ Verdict.Pass → IsAbove state.now.window.sealed message.now }
    ensures turn { result ≡ Verdict.Pass → IsTurn state.now message.now }
    ensures shown { result ≡ Verdict.Pass → IsShownTo (part_seen (option_copied part.entry)) state.now message.now }
{
    let length = state.window.length();
    let is_part = part.is_some();
    if !has_form(length, &state.awaiting, message, is_part) {
        return Verdict::Halt(FORM);
    }
    if !has_members(state.count, state.id, &state.awaiting, message) {
        return Verdict::Halt(MEMBERS);
    }
    if !has_tags(&state.key, message) {
        return Verdict::Halt(INVOKE_TAG);
    }
    if !is_not_older(state.window.sealed(), message) {
        return Verdict::Halt(BASE_BACK);
    }
    if !is_sealed(&state.key, &state.window, message) {
        return Verdict::Halt(SEAL_TAG);
    }
    if !keeps_own(&state.own, message) {
        return Verdict::Halt(OWN_UNSETTLED);
    }
    if !is_proved(part, &state.awaiting, &state.own, message) {
        return Verdict::Halt(PROOF);
    }
    if !has_turn(&state.own, message) {
        return Verdict::Halt(TURN);
    }
    if !has_content(state, message, part) {
        return Verdict::Halt(CONTENT);
    }
    Verdict::Pass
}

/// The verdict on an answer: `message` is what its bytes spell, if they spell one (else the check FORM fails), and `part` what the
/// bytes of the part that it carries spell, if they do. It takes no memory. It costs what the answer's entries, its part and the own
/// calls that aren't sealed cost, and of a content its hash.
pub fn judge(state: &State, message: Option<&ToClient>, part: Option<&Pruned>) -> Verdict
    requires spelled { IfSome (option_copied message) HasSpelling }
    requires part { part_seen (option_copied part) ≡ part_in (option_copied message) }
    requires grammar { IfSome (option_copied part) IsGrammar }
    requires fits { AwaitsFit state.now.awaiting }
    ensures exact { (s : Standing) → StandsForState state.now s → failed_at result ≡ verdict_on (state_group state.now) state.now.id s (option_copied message.entry) }
    // What is known of an answer that passes, by what is kept alone.
    ensures formed { result ≡ Verdict.Pass → IfSome (option_copied message.entry) (IsFormed (held_length state.now.window) state.now.awaiting (is_some part.entry)) }
    ensures above { result ≡ Verdict.Pass → IfSome (option_copied message.entry) (IsAbove state.now.window.sealed) }
    ensures turn { result ≡ Verdict.Pass → IfSome (option_copied message.entry) (IsTurn state.now) }
    ensures shown { result ≡ Verdict.Pass → IfSome (option_copied message.entry) (IsShownTo (part_seen (option_copied part.entry)) state.now) }
{
    match message {
        Some(message) => judge_message(state, message, part),
        None => Verdict::Halt(FORM),
    }
}
