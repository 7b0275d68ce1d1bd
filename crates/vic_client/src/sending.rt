//! The payloads that a client sends, with their tags.

ghost use Rattle.std.specs.Prelude.{◌≡◌, ◌≤◌, ◌<◌, IfOk};
ghost use Rattle.vic_dict.specs.Dictionary.{Fits};
ghost use Rattle.vic_wire.specs.Messages.{HasRequestSpelling, request_text};
ghost use Rattle.vic_chain.specs.Held.{ShowsPath, held_length};
ghost use Rattle.vic_rules.specs.Client.{Standing, request_of, Invokes, Commits, Seals, Syncs};
ghost use Rattle.vic_checks.specs.State.{state_group};
ghost use Rattle.vic_client.specs.Pending.{FitsFrame};

use std::alloc::Global;
use vic_checks::State;
use vic_checks::tags::{commit_tag, invoke_tag, seal_tag};
use vic_dict::{Bytes, Entry, NoMemory, Op};
use vic_frames::encode_request;
use vic_wire::{Digest32, ToServer};

/// The payload of a request; it fits a frame.
#[tactic(auto, using(vic_bounds::proofs::Lengths::request_short, vic_bounds::proofs::Lengths::request_some))]
pub fn request_payload(alloc: Global, request: &ToServer) -> Result<Bytes, NoMemory>
    requires { HasRequestSpelling request.now }
    ensures text { IfOk result (λ b. b ≡ request_text request.now) }
    ensures fits { IfOk result FitsFrame }
{
    encode_request(alloc, request)
}

/// The Invoke of a call.
pub(crate) fn invoke_payload(
    alloc: Global,
    state: &State,
    seq: u32,
    op: &Op,
) -> Result<Bytes, NoMemory>
    requires fits { Fits op.now }
    requires number { 0 < seq }
    ensures sent { (s : Standing) → ShowsPath (state_group state.now) s.path state.now.window
        → IfOk result (λ b. b ≡ request_text (request_of (state_group state.now) state.now.id s (Invokes seq op.now))) }
    ensures fits { IfOk result FitsFrame }
{
    // For the proof alone: a spelling has bytes.
    op.are_bytes();
    let entry = Entry {
        client: state.id,
        seq,
        op: op.copy(alloc)?,
    };
    let tag = invoke_tag(&state.key, &entry);
    let request = ToServer::Invoke {
        known: state.window.length(),
        seq,
        op: entry.op,
        tag,
    };
    request_payload(alloc, &request)
}

/// The Commit of the call at the end of the path.
pub(crate) fn commit_payload(alloc: Global, state: &State, done: bool) -> Result<Bytes, NoMemory>
    requires { 0 < held_length state.now.window }
    ensures sent { (s : Standing) → ShowsPath (state_group state.now) s.path state.now.window
        → IfOk result (λ b. b ≡ request_text (request_of (state_group state.now) state.now.id s (Commits done))) }
    ensures fits { IfOk result FitsFrame }
{
    let position = state.window.length();
    let chained = state.window.hash_at(position);
    let tag = commit_tag(&state.key, position, &chained, done);
    request_payload(
        alloc,
        &ToServer::Commit {
            position,
            done,
            tag,
        },
    )
}

/// The Seal of a position.
pub(crate) fn seal_payload(
    alloc: Global,
    state: &State,
    position: u32,
    root: Digest32,
) -> Result<Bytes, NoMemory>
    requires some { 0 < position }
    requires above { state.now.window.sealed ≤ position }
    requires within { position ≤ held_length state.now.window }
    ensures sent { (s : Standing) → ShowsPath (state_group state.now) s.path state.now.window → s.sealed ≡ position → s.root ≡ root.bytes
        → IfOk result (λ b. b ≡ request_text (request_of (state_group state.now) state.now.id s Seals)) }
    ensures fits { IfOk result FitsFrame }
{
    let chained = state.window.hash_at(position);
    let tag = seal_tag(&state.key, position, &chained, &root);
    request_payload(
        alloc,
        &ToServer::Seal {
            position,
            root,
            tag,
        },
    )
}

/// The Sync from the length of the path on.
pub(crate) fn sync_payload(alloc: Global, state: &State) -> Result<Bytes, NoMemory>
    ensures sent { (s : Standing) → ShowsPath (state_group state.now) s.path state.now.window
        → IfOk result (λ b. b ≡ request_text (request_of (state_group state.now) state.now.id s Syncs)) }
    ensures fits { IfOk result FitsFrame }
{
    let known = state.window.length();
    request_payload(alloc, &ToServer::Sync(known))
}
