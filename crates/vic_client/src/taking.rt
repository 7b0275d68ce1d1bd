//! What a client makes of an answer that passed the checks.

ghost use Rattle.std.specs.Prelude.{◌≡◌, ℕ, ◌+◌, ◌≤◌, ◌<◌, ◌∷◌, [], ◌++◌, List, length, not, ◌&&◌, ◌||◌, true, Some, IfOk, IfSome, OnOk, OnErr};
ghost use Rattle.std.specs.List.{AllByRecursion};
ghost use Rattle.vic_dict.specs.declared.limits.TheConstants.{MOST_ENTRIES};
ghost use Rattle.vic_dict.specs.Dictionary.{Fits};
ghost use Rattle.vic_wire.specs.Hashes.{Group};
ghost use Rattle.vic_wire.specs.Parts.{IsPart, reaches};
ghost use Rattle.vic_prune.specs.Parts.{part as shown};
ghost use Rattle.vic_wire.specs.Messages.{IsTagged};
ghost use Rattle.vic_chain.specs.Held.{ShowsPath, held_length, held_cut_to};
ghost use Rattle.vic_wire.specs.Messages.{request_text};
ghost use Rattle.vic_rules.specs.Client.{Standing, onto, path_with_entries, request_of, Commits, move_to_seal, move_on_entries, new_root, has_own_op, is_write as writes, is_done as done_of};
ghost use Rattle.vic_rules.specs.declared.state.Own.{Own as AnOwn};
ghost use Rattle.vic_rules.specs.declared.object.Phase.{Phase as APhase};
ghost use Rattle.vic_rules.specs.Objects.{is_calling, after_decision, outcome_after_decision, final_outcome};
ghost use Rattle.vic_checks.specs.State.{state_group, StandsForState};
ghost use Rattle.vic_client.specs.Sound.{PhaseFits};
ghost use Rattle.vic_client.specs.Pending.{FitsFrame, phase_turned};
ghost use Rattle.vic_client.specs.Hearing.{IsSoundState, IsPendingIn, Hears, reply_move};

use crate::pending::{Effect, Pending};
use crate::sending::{commit_payload, seal_payload};
use crate::step::Step;
use std::alloc::Global;
use vic_chain::Window;
use vic_checks::seals::is_write;
use vic_checks::{State, decide};
use vic_dict::{Bytes, NoMemory, Op, Outcome};
use vic_proxy::{Next, ObjectOutcome, Proxy};
use vic_prune::Pruned;
use vic_rules::Own;
use vic_wire::{Digest32, Seal, Tagged, TaggedList};

/// Puts the entries of an answer onto the path; where memory runs out, takes off again what it put there.
pub(crate) fn extend_all(window: &mut Window, items: &[Tagged]) -> Result<(), NoMemory>
    requires spelled { AllByRecursion IsTagged items.now }
    requires room { held_length window.old + length items.now ≤ MOST_ENTRIES }
    ensures length { OnOk result (held_length window.new ≡ held_length window.old + length items.now) }
    ensures ok { (g : Group) (s : Standing) → ShowsPath g s.path window.old → OnOk result (ShowsPath g (onto items.now s.path) window.new) }
    // What was put onto it can be taken off again.
    ensures back { OnOk result (held_cut_to window.new (held_length window.old) ≡ window.old) }
    ensures sealed { window.new.sealed ≡ window.old.sealed }
    ensures err { OnErr result (window.new ≡ window.old) }
{
    let length = window.length();
    for item in items {
        match window.extend(&item.entry) {
            Ok(()) => (),
            Err(NoMemory) => {
                window.cut_back(length);
                return Err(NoMemory);
            }
        }
    }
    Ok(())
}

// The call that a Reply answers, as an own call at the end of the path; and its Commit, which is sent. Where memory runs out,
// nothing has changed.
fn own_call(alloc: Global, state: &mut State, op: Op, done: bool) -> Result<Bytes, NoMemory>
    requires some { 0 < held_length state.old.window }
    requires fits { Fits op }
    ensures own { OnOk result (state.new ≡ record state.old { own = state.old.own ++ record { position = held_length state.old.window; op = op; done = done } ∷ [] }) }
    ensures err { OnErr result (state.new ≡ state.old) }
    ensures sent { (s : Standing) → ShowsPath (state_group state.old) s.path state.old.window
        → IfOk result (λ b. b ≡ request_text (request_of (state_group state.old) state.old.id s (Commits done))) }
    ensures fits { IfOk result FitsFrame }
{
    let sent = commit_payload(alloc, state, done)?;
    let position = state.window.length();
    state.own.push(Own { position, op, done })?;
    Ok(sent)
}

fn is_done(outcome: &Outcome) -> bool
    ensures { result ≡ done_of outcome.now }
{
    matches!(outcome, Outcome::Done(_))
}

/// How far a call on objects has come once its operation is decided, where it has moved; and what it returns, where it is over.
#[derive(Debug, Drop)]
struct Behind {
    /// Where the call on objects then stands, if it has moved.
    turned: Option<Proxy>,
    /// What it returns, if it is over.
    object: Option<ObjectOutcome>,
}

// What becomes of a call on objects when an operation is decided, which is its own where it is calling.
fn turned_by(alloc: Global, calling: bool, outcome: &Outcome) -> Result<Behind, NoMemory>
    ensures turned { (p : APhase) → is_calling p ≡ calling → IfOk result (λ b. phase_turned p b.turned ≡ after_decision p outcome.now) }
    ensures object { (p : APhase) → is_calling p ≡ calling → IfOk result (λ b. b.object ≡ outcome_after_decision p outcome.now) }
    ensures fits { (calls : ℕ) (p : APhase) → PhaseFits calls p → IfOk result (λ b. PhaseFits calls (phase_turned p b.turned)) }
{
    if !calling {
        return Ok(Behind {
            turned: None,
            object: None,
        });
    }
    let mut proxy = Proxy::calling();
    let next = proxy.outcome(alloc, outcome)?;
    Ok(Behind {
        turned: Some(proxy),
        object: over_with(next),
    })
}

// The outcome with which a call on objects is over, if it is.
fn over_with(next: Next) -> Option<ObjectOutcome>
    ensures { result ≡ final_outcome next }
{
    match next {
        Next::Return(outcome) => Some(outcome),
        _ => None,
    }
}

/// After a Reply that passed the checks: the call is decided, and the Commit is to be sent. The entries and the call stand on
/// the path already; the seal is still to be moved, and the turn to be awaited. The part is taken, since the client's own calls
/// are done on it.
pub(crate) fn take_reply(
    alloc: Global,
    state: &mut State,
    seal: &Seal,
    entries: &TaggedList,
    part: &Pruned,
    op: Op,
    calling: bool,
) -> Result<Pending, NoMemory>
    requires sound { IsSoundState state.old }
    requires fits { Fits op }
    requires grammar { IsPart (shown part.now) }
    requires reached { reaches (shown part.now) op ≡ true }
    requires spelled { AllByRecursion IsTagged entries.now }
    requires some { 0 < length entries.now }
    requires above { state.old.window.sealed ≤ seal.now.position }
    requires below { seal.now.position < held_length state.old.window + length entries.now }
    requires room { held_length state.old.window + length entries.now ≤ MOST_ENTRIES }
    ensures sound { IsSoundState state.new }
    ensures pending { (calls : ℕ) (p : APhase) → PhaseFits calls p → IfOk result (λ r. IsPendingIn state.old calls p r.effect state.new) }
    ensures fits { IfOk result (λ p. IfSome p.step.send FitsFrame) }
    ensures taken { (s : Standing) → StandsForState state.old s → is_calling s.phase ≡ calling → IfOk result (λ p. Hears state.old p state.new s (reply_move state.old.id s seal.now entries.now (shown part.now) op)) }
    ensures err { OnErr result (state.new ≡ state.old) }
{
    let outcome = decide(alloc, state, entries, seal.position, part, &op)?;
    let behind = turned_by(alloc, calling, &outcome)?;
    let length = state.window.length();
    extend_all(&mut state.window, entries.as_slice())?;
    match own_call(alloc, state, op, is_done(&outcome)) {
        Ok(sent) => Ok(Pending {
            step: Step {
                send: Some(sent),
                returned: Some(outcome),
                object: behind.object,
            },
            effect: Effect::Replies {
                length,
                position: seal.position,
                root: seal.root,
                turned: behind.turned,
            },
        }),
        Err(NoMemory) => {
            state.window.cut_back(length);
            Err(NoMemory)
        }
    }
}

// The root after an own call is sealed, from the seal's part and root.
fn root_after(call: &Own, part: &Pruned, root: Digest32) -> Digest32
    requires fits { Fits call.now.op }
    requires grammar { IsPart (shown part.now) }
    requires reached { (not (call.now.done && writes call.now.op) || reaches (shown part.now) call.now.op) ≡ true }
    ensures { result.bytes ≡ new_root call.now (shown part.now) root.bytes }
{
    if call.done && is_write(&call.op) {
        return match part.after(&call.op) {
            Ok(after) => after,
            Err(_) => root,
        };
    }
    root
}

/// After an Update that passed the checks: the first own call is to be sealed at the position above the seal, and the Seal to be
/// sent.
pub(crate) fn take_update(
    alloc: Global,
    state: &State,
    seal: &Seal,
    part: &Pruned,
) -> Result<Pending, NoMemory>
    requires sound { IsSoundState state.now }
    requires some { 0 < length state.now.own }
    requires grammar { IsPart (shown part.now) }
    requires reached { has_own_op (Some (shown part.now)) state.now.own ≡ true }
    requires above { state.now.window.sealed ≤ seal.now.position }
    requires within { seal.now.position + 1 ≤ held_length state.now.window }
    ensures pending { (calls : ℕ) (p : APhase) → PhaseFits calls p → IfOk result (λ r. IsPendingIn state.now calls p r.effect state.now) }
    ensures fits { IfOk result (λ p. IfSome p.step.send FitsFrame) }
    ensures taken { (s : Standing) (o : AnOwn) (others : List AnOwn) → StandsForState state.now s → s.own ≡ o ∷ others
        → IfOk result (λ p. Hears state.now p state.now s (move_to_seal s (seal.now.position + 1) (new_root o (shown part.now) seal.now.root.bytes) others)) }
{
    let length = state.window.length();
    let within = seal.position < length;
    prove!(within);
    let call = state.own.at(0);
    let root = root_after(call, part, seal.root);
    let position = seal.position + 1;
    let sent = seal_payload(alloc, state, position, root)?;
    Ok(Pending {
        step: Step {
            send: Some(sent),
            returned: None,
            object: None,
        },
        effect: Effect::Seals { position, root },
    })
}

/// After Entries that passed the checks: they stand on the path, and the window's seal is to move to theirs.
pub(crate) fn take_entries(
    state: &mut State,
    seal: &Seal,
    entries: &TaggedList,
) -> Result<Pending, NoMemory>
    requires sound { IsSoundState state.old }
    requires spelled { AllByRecursion IsTagged entries.now }
    requires above { state.old.window.sealed ≤ seal.now.position }
    requires within { seal.now.position ≤ held_length state.old.window + length entries.now }
    requires room { held_length state.old.window + length entries.now ≤ MOST_ENTRIES }
    ensures sound { IsSoundState state.new }
    ensures pending { (calls : ℕ) (p : APhase) → PhaseFits calls p → IfOk result (λ r. IsPendingIn state.old calls p r.effect state.new) }
    ensures fits { IfOk result (λ p. IfSome p.step.send FitsFrame) }
    ensures taken { (s : Standing) → StandsForState state.old s
        → IfOk result (λ p. Hears state.old p state.new s (move_on_entries s (path_with_entries s entries.now) seal.now.position seal.now.root.bytes)) }
    ensures err { OnErr result (state.new ≡ state.old) }
{
    let length = state.window.length();
    extend_all(&mut state.window, entries.as_slice())?;
    Ok(Pending {
        step: Step {
            send: None,
            returned: None,
            object: None,
        },
        effect: Effect::Lists {
            length,
            position: seal.position,
            root: seal.root,
        },
    })
}
