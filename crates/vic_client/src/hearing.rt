//! What a client makes of a payload: it is read, judged, and taken.

ghost use Rattle.std.specs.Prelude.{◌≡◌, ◌≤◌, ◌+◌, ◌<◌, ◌^◌, ℕ, [], false, true, is_some, option_copied, IfSome, IfOk, OnErr};
ghost use Rattle.vic_dict.specs.Dictionary.{IsKey};
ghost use Rattle.vic_dict.specs.declared.op.Op.TheVariants as op;
ghost use Rattle.vic_rules.specs.declared.object.Phase.{Phase as APhase};
ghost use Rattle.vic_rules.specs.declared.object.Phase.TheVariants as phase;
ghost use Rattle.vic_rules.specs.Objects.{is_calling as calls_now, reference_text};
ghost use Rattle.vic_wire.specs.Messages.{HasSpelling};
ghost use Rattle.vic_wire.specs.Parts.{read_part as part_read};
ghost use Rattle.vic_chain.specs.Held.{held_length};
ghost use Rattle.vic_rules.specs.Client.{Standing, path_with_entries, move_on_reply, move_on_update, has_open_op, has_own_op, move_on_answer, move_on_verdict, move_on_wait, move_on_refusal, move_to_call};
ghost use Rattle.vic_checks.specs.State.{state_group, StandsForState};
ghost use Rattle.vic_checks.specs.Parted.{part_of as part_by, part_in, part_seen, IsGrammar, IsAbove};
ghost use Rattle.vic_checks.specs.Passing.{IsFormed, IsTurn, IsShownTo};
ghost use Rattle.vic_client.specs.Sound.{PhaseFits};
ghost use Rattle.vic_client.specs.Hearing.{IsSoundState, IsPendingIn, StandsIn, Hears, op_in, judged_move, heard_move};
ghost use Rattle.vic_client.specs.Pending.{FitsFrame};

use crate::calling::call_op;
use crate::pending::Pending;
use crate::sending::request_payload;
use crate::taking::{take_entries, take_reply, take_update};
use std::alloc::Global;
use vic_checks::{State, Verdict, judge};
use vic_dict::{Bytes, NoMemory, Op, Outcome};
use vic_frames::decode_answer;
use vic_proof::ProofFault;
use vic_proxy::{ObjectOutcome, Proxy, reference};
use vic_prune::Pruned;
use vic_rules::check::FORM;
use vic_rules::{Awaiting, Phase};
use vic_wire::{Digest32, Seal, TaggedList, ToClient, ToServer};

// The part that the bytes spell, if they spell one.
#[tactic(auto, unfolding(vic_wire::specs::Parts::read_part))]
fn read_part(alloc: Global, bytes: &[u8]) -> Result<Option<Pruned>, NoMemory>
    ensures exact { IfOk result (λ part. part_seen part ≡ part_read bytes.now) }
    ensures grammar { IfOk result (λ part. IfSome part IsGrammar) }
{
    match vic_proof::part_of(alloc, bytes) {
        Ok(part) => Ok(Some(part)),
        Err(ProofFault::NoMemory) => Err(NoMemory),
        Err(ProofFault::BadTag(_)) => Ok(None),
        Err(ProofFault::BadLength(_)) => Ok(None),
        Err(ProofFault::IndexNotRising(_)) => Ok(None),
        Err(ProofFault::Short(_)) => Ok(None),
        Err(ProofFault::Trailing(_)) => Ok(None),
    }
}

// The part that an answer carries, if its bytes are one.
fn part_of(alloc: Global, message: Option<&ToClient>) -> Result<Option<Pruned>, NoMemory>
    ensures exact { IfOk result (λ part. part_seen part ≡ part_in (option_copied message.entry)) }
    ensures grammar { IfOk result (λ part. IfSome part IsGrammar) }
{
    match message {
        Some(ToClient::Reply { part, .. }) => read_part(alloc, part.as_slice()),
        Some(ToClient::Update { part, .. }) => read_part(alloc, part.as_slice()),
        _ => Ok(None),
    }
}

// The operation of the call that a Reply is awaited to.
fn awaited_op(alloc: Global, awaiting: &Awaiting) -> Result<Option<Op>, NoMemory>
    ensures { IfOk result (λ o. o ≡ op_in awaiting.now) }
{
    match awaiting {
        Awaiting::Reply(_, op, _) => Ok(Some(op.copy(alloc)?)),
        _ => Ok(None),
    }
}

// Whether an operation that was called belongs to a call on objects.
fn is_calling(proxy: &Proxy) -> bool
    ensures { result ≡ calls_now proxy.now }
{
    matches!(proxy.phase(), Phase::Calling)
}

fn hear_reply(
    alloc: Global,
    state: &mut State,
    calling: bool,
    seal: &Seal,
    entries: &TaggedList,
    part: Option<Pruned>,
) -> Result<Pending, NoMemory>
    requires sound { IsSoundState state.old }
    requires spelled { HasSpelling (ToClient.Reply seal.now entries.now []) }
    requires formed { IsFormed (held_length state.old.window) state.old.awaiting (is_some part) (ToClient.Reply seal.now entries.now []) }
    requires above { state.old.window.sealed ≤ seal.now.position }
    requires grammar { IfSome part IsGrammar }
    requires shown { has_open_op (part_seen part) state.old.awaiting ≡ true }
    ensures sound { IsSoundState state.new }
    ensures pending { (calls : ℕ) (p : APhase) → PhaseFits calls p → IfOk result (λ r. IsPendingIn state.old calls p r.effect state.new) }
    ensures fits { IfOk result (λ p. IfSome p.step.send FitsFrame) }
    ensures taken { (s : Standing) → StandsForState state.old s → calls_now s.phase ≡ calling → IfOk result (λ p. Hears state.old p state.new s (move_on_reply state.old.id s seal.now (path_with_entries s entries.now) (part_seen part) s.awaiting)) }
    ensures err { OnErr result (state.new ≡ state.old) }
{
    match (awaited_op(alloc, &state.awaiting)?, part) {
        (Some(op), Some(part)) => take_reply(alloc, state, seal, entries, &part, op, calling),
        _ => Ok(Pending::halts(FORM)),
    }
}

fn hear_update(
    alloc: Global,
    state: &State,
    seal: &Seal,
    part: Option<Pruned>,
) -> Result<Pending, NoMemory>
    requires sound { IsSoundState state.now }
    requires above { state.now.window.sealed ≤ seal.now.position }
    requires turn { IsTurn state.now (ToClient.Update seal.now []) }
    requires grammar { IfSome part IsGrammar }
    requires shown { has_own_op (part_seen part) state.now.own ≡ true }
    ensures pending { (calls : ℕ) (p : APhase) → PhaseFits calls p → IfOk result (λ r. IsPendingIn state.now calls p r.effect state.now) }
    ensures fits { IfOk result (λ p. IfSome p.step.send FitsFrame) }
    ensures taken { (s : Standing) → StandsForState state.now s → IfOk result (λ p. Hears state.now p state.now s (move_on_update s seal.now (part_seen part) s.own)) }
{
    match part {
        Some(part) => take_update(alloc, state, seal, &part),
        None => Ok(Pending::halts(FORM)),
    }
}

// Fetches the content with this hash and length.
fn fetch(alloc: Global, state: &State, hash: &Digest32, len: u32) -> Result<Pending, NoMemory>
    requires sound { IsSoundState state.now }
    ensures pending { (calls : ℕ) (p : APhase) → PhaseFits calls p → IfOk result (λ r. IsPendingIn state.now calls p r.effect state.now) }
    ensures fits { IfOk result (λ p. IfSome p.step.send FitsFrame) }
    ensures taken { (s : Standing) → StandsForState state.now s → IfOk result (λ p. Hears state.now p state.now s (move_on_wait s (phase.Fetching hash.now len))) }
{
    let wanted = Digest32 { bytes: hash.bytes };
    let sent = request_payload(alloc, &ToServer::Fetch(wanted))?;
    Ok(Pending::awaits(Some(sent), Awaiting::Content(wanted, len)))
}

// After Wait: a load whose reference was found fetches its content.
fn hear_wait(alloc: Global, state: &State, proxy: &Proxy) -> Result<Pending, NoMemory>
    requires sound { IsSoundState state.now }
    ensures pending { (calls : ℕ) → PhaseFits calls proxy.now → IfOk result (λ r. IsPendingIn state.now calls proxy.now r.effect state.now) }
    ensures fits { IfOk result (λ p. IfSome p.step.send FitsFrame) }
    ensures taken { (s : Standing) → StandsForState state.now s → s.phase ≡ proxy.now → IfOk result (λ p. Hears state.now p state.now s (move_on_wait s s.phase)) }
{
    match proxy.phase() {
        Phase::Fetching(hash, len) => fetch(alloc, state, hash, *len),
        _ => Ok(Pending::awaits(None, Awaiting::Nothing)),
    }
}

// The content of a store is kept: its reference is put under its name.
fn put_reference(
    alloc: Global,
    state: &State,
    calls: u32,
    name: &Bytes,
    hash: &Digest32,
    len: u32,
) -> Result<Pending, NoMemory>
    requires sound { IsSoundState state.now }
    requires key { IsKey name.now }
    requires few { calls + 1 < 2 ^ 32 }
    ensures pending { IfOk result (λ r. IsPendingIn state.now calls (phase.Keeping name.now hash.now len) r.effect state.now) }
    ensures fits { IfOk result (λ p. IfSome p.step.send FitsFrame) }
    ensures taken { (s : Standing) → StandsForState state.now s → s.calls ≡ calls
        → IfOk result (λ p. Hears state.now p state.now s (move_to_call s phase.Calling (op.Put name.now (reference_text hash.now.bytes len)) false)) }
{
    let hash = Digest32 { bytes: hash.bytes };
    let op = Op::Put(name.copy(alloc)?, reference(alloc, &hash, len)?);
    call_op(alloc, state, calls, op, false, Proxy::calling())
}

fn hear_kept(alloc: Global, state: &State, calls: u32, proxy: &Proxy) -> Result<Pending, NoMemory>
    requires sound { IsSoundState state.now }
    requires going { PhaseFits calls proxy.now }
    ensures pending { IfOk result (λ r. IsPendingIn state.now calls proxy.now r.effect state.now) }
    ensures fits { IfOk result (λ p. IfSome p.step.send FitsFrame) }
    ensures taken { (s : Standing) → StandsForState state.now s → s.calls ≡ calls → s.phase ≡ proxy.now
        → IfOk result (λ p. Hears state.now p state.now s (move_on_answer state.now.id s ToClient.Kept)) }
{
    match proxy.phase() {
        Phase::Keeping(name, hash, len) => put_reference(alloc, state, calls, name, hash, *len),
        _ => Ok(Pending::halts(FORM)),
    }
}

// A call, or a content that was to be kept, is refused.
fn hear_refused(state: &State, calling: bool, reason: u8) -> Pending
    requires sound { IsSoundState state.now }
    ensures pending { (calls : ℕ) (p : APhase) → PhaseFits calls p → IsPendingIn state.now calls p result.effect state.now }
    ensures fits { IfSome result.step.send FitsFrame }
    ensures taken { (s : Standing) → StandsForState state.now s → calls_now s.phase ≡ calling → Hears state.now result state.now s (move_on_refusal s reason s.awaiting) }
{
    match &state.awaiting {
        Awaiting::Kept => Pending::ends(None, ObjectOutcome::Refused(reason)),
        _ => if calling {
            Pending::ends(
                Some(Outcome::Refused(reason)),
                ObjectOutcome::Refused(reason),
            )
        } else {
            Pending::rests(Outcome::Refused(reason))
        },
    }
}

// The effect of an answer that passed the checks.
fn hear_message(
    alloc: Global,
    state: &mut State,
    calls: u32,
    proxy: &Proxy,
    message: ToClient,
    part: Option<Pruned>,
) -> Result<Pending, NoMemory>
    requires sound { IsSoundState state.old }
    requires going { PhaseFits calls proxy.now }
    requires spelled { HasSpelling message }
    requires part { part_seen part ≡ part_by message }
    requires grammar { IfSome part IsGrammar }
    requires shown { IsShownTo (part_seen part) state.old message }
    requires formed { IsFormed (held_length state.old.window) state.old.awaiting (is_some part) message }
    requires above { IsAbove state.old.window.sealed message }
    requires turn { IsTurn state.old message }
    ensures sound { IsSoundState state.new }
    ensures pending { IfOk result (λ p. IsPendingIn state.old calls proxy.now p.effect state.new) }
    ensures fits { IfOk result (λ p. IfSome p.step.send FitsFrame) }
    ensures taken { (s : Standing) → StandsIn state.old calls proxy.now s → IfOk result (λ p. Hears state.old p state.new s (move_on_answer state.old.id s message)) }
    ensures err { OnErr result (state.new ≡ state.old) }
{
    match message {
        ToClient::Reply { seal, entries, .. } => hear_reply(
            alloc,
            state,
            is_calling(proxy),
            &seal,
            &entries,
            part,
        ),
        ToClient::Update { seal, .. } => hear_update(alloc, state, &seal, part),
        ToClient::Entries { seal, entries } => take_entries(state, &seal, &entries),
        ToClient::Wait => hear_wait(alloc, state, proxy),
        ToClient::Refused(reason) => Ok(hear_refused(state, is_calling(proxy), reason)),
        ToClient::Kept => hear_kept(alloc, state, calls, proxy),
        ToClient::Content(content) => Ok(Pending::ends(None, ObjectOutcome::Content(content))),
        _ => Ok(Pending::halts(FORM)),
    }
}

// The effect of what a payload spells, once it passed the checks.
fn hear_passed(
    alloc: Global,
    state: &mut State,
    calls: u32,
    proxy: &Proxy,
    message: Option<ToClient>,
    part: Option<Pruned>,
) -> Result<Pending, NoMemory>
    requires sound { IsSoundState state.old }
    requires going { PhaseFits calls proxy.now }
    requires spelled { IfSome message HasSpelling }
    requires part { part_seen part ≡ part_in message }
    requires grammar { IfSome part IsGrammar }
    requires shown { IfSome message (IsShownTo (part_seen part) state.old) }
    requires formed { IfSome message (IsFormed (held_length state.old.window) state.old.awaiting (is_some part)) }
    requires above { IfSome message (IsAbove state.old.window.sealed) }
    requires turn { IfSome message (IsTurn state.old) }
    ensures sound { IsSoundState state.new }
    ensures pending { IfOk result (λ p. IsPendingIn state.old calls proxy.now p.effect state.new) }
    ensures fits { IfOk result (λ p. IfSome p.step.send FitsFrame) }
    ensures taken { (s : Standing) → StandsIn state.old calls proxy.now s
        → IfOk result (λ p. Hears state.old p state.new s (move_on_verdict state.old.id s message None)) }
    ensures err { OnErr result (state.new ≡ state.old) }
{
    match message {
        Some(message) => hear_message(alloc, state, calls, proxy, message, part),
        None => Ok(Pending::halts(FORM)),
    }
}

// What the client makes of what a payload spells.
fn hear_read(
    alloc: Global,
    state: &mut State,
    calls: u32,
    proxy: &Proxy,
    message: Option<ToClient>,
    part: Option<Pruned>,
) -> Result<Pending, NoMemory>
    requires sound { IsSoundState state.old }
    requires going { PhaseFits calls proxy.now }
    requires spelled { IfSome message HasSpelling }
    requires part { part_seen part ≡ part_in message }
    requires grammar { IfSome part IsGrammar }
    ensures sound { IsSoundState state.new }
    ensures pending { IfOk result (λ p. IsPendingIn state.old calls proxy.now p.effect state.new) }
    ensures fits { IfOk result (λ p. IfSome p.step.send FitsFrame) }
    ensures taken { (s : Standing) → StandsIn state.old calls proxy.now s
        → IfOk result (λ p. Hears state.old p state.new s (judged_move (state_group state.old) state.old.id s message)) }
    ensures err { OnErr result (state.new ≡ state.old) }
{
    match judge(state, message.as_ref(), part.as_ref()) {
        Verdict::Halt(check) => Ok(Pending::halts(check)),
        Verdict::Pass => hear_passed(alloc, state, calls, proxy, message, part),
    }
}

/// What the client is to make of a payload: it reads it, judges it, and puts what comes onto the path there. `calls` is how often the
/// client has called, and `proxy` how far its call on objects has come. After want of memory the state is as before. It costs what the
/// payload, its part, and what stands above the seal cost.
pub(crate) fn hear(
    alloc: Global,
    state: &mut State,
    calls: u32,
    proxy: &Proxy,
    payload: &[u8],
) -> Result<Pending, NoMemory>
    requires sound { IsSoundState state.old }
    requires going { PhaseFits calls proxy.now }
    ensures sound { IsSoundState state.new }
    ensures pending { IfOk result (λ p. IsPendingIn state.old calls proxy.now p.effect state.new) }
    ensures fits { IfOk result (λ p. IfSome p.step.send FitsFrame) }
    ensures taken { (s : Standing) → StandsIn state.old calls proxy.now s
        → IfOk result (λ p. Hears state.old p state.new s (heard_move (state_group state.old) state.old.id s payload.now)) }
    ensures err { OnErr result (state.new ≡ state.old) }
{
    let message = decode_answer(alloc, payload)?;
    let part = part_of(alloc, message.as_ref())?;
    hear_read(alloc, state, calls, proxy, message, part)
}
