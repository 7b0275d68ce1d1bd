//! A client of a script, with the payloads that wait for its server and for it.

ghost use Rattle.std.specs.Prelude.{◌≡◌, ◌<◌, ◌+◌, ◌-◌, ◌^◌, ◌∷◌, [], ◌++◌, ◌⊎◌, ℕ, true, false, Ok, IsTrue, IsSome, IfSome, IfOk, OnOk, OnErr, MatchOption, Option, Some, None, List, drop, length, is_none, is_some, nat_lt};
ghost use Rattle.vic_dict.specs.Dictionary.{Fits};
ghost use Rattle.vic_wire.specs.Hashes.{Group};
ghost use Rattle.vic_rules.specs.declared.trace.Input.TheVariants as input;
ghost use Rattle.vic_rules.specs.declared.trace.TraceStep.{TraceStep as AStep};
ghost use Rattle.vic_rules.specs.Client.{awaits_nothing, first_failing};
ghost use Rattle.vic_client.specs.Kept.{is_idle};
ghost use Rattle.vic_client.specs.Pending.{IsPendingOf};
ghost use Rattle.vic_order.specs.Scenes.{queue_with, or_before, payload_in, oldest_payload, payload_with_flip, server_at, set_server};
ghost use Rattle.vic_script.specs.Scenes.{print_of_outcomes};
ghost use Rattle.vic_text.specs.BadKinds.{bad_number};

use crate::queue::Queue;
use crate::said::put_said;
use crate::servers::Servers;
use std::alloc::Global;
use vic_client::{Client, Pending, Step};
use vic_dict::{Bytes, NoMemory};
use vic_server::Serve;
use vic_text::BadKind;
use vic_view::{Input, TraceStep, Transcript};

/// A client, the number of the server that serves it, its queue of requests and its queue of answers, and the payloads that it
/// took and sent last.
#[derive(Debug, Drop)]
pub struct Member {
    /// Its rule, which knows nothing of queues.
    pub client: Client,
    /// The number of the server that serves it, from 1 on.
    pub server: u32,
    /// Its requests that no server has served, the oldest first.
    pub up: Queue,
    /// The answers that it hasn't taken, the oldest first.
    pub down: Queue,
    /// The payload that it took last, for `again`.
    pub taken: Option<Bytes>,
    /// The payload that it sent last, for `resend`.
    pub sent: Option<Bytes>,
}

/// A copy of a payload, if there is one.
fn copied(alloc: Global, payload: &Option<Bytes>) -> Result<Option<Bytes>, NoMemory>
    ensures { IfOk result (λ made. made ≡ payload.now) }
{
    match payload {
        None => Ok(None),
        Some(bytes) => Ok(Some(bytes.copy(alloc)?)),
    }
}

/// A copy of the payload that a client is given, if it is given one.
fn payload_copy(alloc: Global, input: &Input) -> Result<Option<Bytes>, NoMemory>
    ensures { IfOk result (λ made. made ≡ payload_in input.now) }
{
    match input {
        Input::Payload(payload) => Ok(Some(payload.copy(alloc)?)),
        _ => Ok(None),
    }
}

/// A copy of a payload with the lowest bit of the byte at a place changed.
fn flipped_copy(alloc: Global, payload: &[u8], place: usize) -> Result<Bytes, NoMemory>
    requires { place < length payload.now }
    ensures { IfOk result (λ made. made ≡ payload_with_flip place payload.now) }
{
    let mut bytes = Vec::from_slice(alloc, payload)?;
    bytes[place] ^= 1;
    Ok(Bytes::from_vec(bytes))
}

/// What came last: the new one, if there is one.
fn latest(new: Option<Bytes>, before: Option<Bytes>) -> Option<Bytes>
    ensures { result ≡ or_before new before }
{
    match new {
        Some(payload) => Some(payload),
        None => before,
    }
}

impl Member {
    ghost use Rattle.vic_group.specs.World.{Acts, MemberStands, IsReady, CanAsk, AddsStep, AddsNoStep, step_at, states};

    // What was sent joins the requests, if something was.
    fn send(&mut self, sent: Option<Bytes>) -> Result<(), NoMemory>
        ensures ok { OnOk result (self.new ≡ record self.old { up = queue_with self.old.up sent }) }
        ensures err { OnErr result (self.new ≡ self.old) }
    {
        match sent {
            None => Ok(()),
            Some(payload) => self.up.push(payload),
        }
    }

    // The client's step joins the transcript, and what it sent joins its requests. The client itself hasn't changed. Where memory
    // runs out, nothing has.
    fn make(
        &mut self,
        alloc: Global,
        input: Input,
        step: Step,
        transcript: &mut Transcript,
    ) -> Result<(), NoMemory>
        ensures ok { OnOk result (self.new ≡ record self.old { up = queue_with self.old.up step.send; taken = or_before (payload_in input) self.old.taken; sent = or_before step.send self.old.sent }) }
        ensures joins { OnOk result (AddsStep (record { client = self.old.client.id; input = input; sent = step.send; returned = step.returned; object = step.object }) transcript.old transcript.new) }
        ensures err { OnErr result (self.new ≡ self.old) }
        ensures stays { OnErr result (AddsNoStep transcript.old transcript.new) }
    {
        let Step {
            send: sent,
            returned,
            object,
        } = step;
        let taken = payload_copy(alloc, &input)?;
        let last = copied(alloc, &sent)?;
        let told = copied(alloc, &sent)?;
        let sends = sent.is_some();
        self.send(sent)?;
        let client = self.client.id();
        let step = TraceStep {
            client,
            input,
            sent: told,
            returned,
            object,
        };
        match transcript.push(step) {
            Ok(()) => {
                self.taken = latest(taken, self.taken.take());
                self.sent = latest(last, self.sent.take());
                Ok(())
            }
            Err(NoMemory) => {
                if sends {
                    self.up.withdraw();
                }
                Err(NoMemory)
            }
        }
    }

    // A step that is planned for what the client is asked.
    fn plan(&self, alloc: Global, input: &Input) -> Result<Pending, NoMemory>
        requires idle { IsTrue (is_idle self.now.client) }
        requires can { CanAsk self.now input.now }
        ensures { IfOk result (λ p. IsPendingOf self.now.client p self.now.client input.now) }
    {
        match input {
            Input::Call(op) => self.client.plan_call(alloc, op),
            Input::Object(call) => self.client.plan_object(alloc, call),
            Input::Poll => self.client.plan_poll(alloc),
            _ => self.client.plan_sync(alloc),
        }
    }

    /// The client calls, polls or syncs. Where memory runs out, nothing has changed. What it is asked for moves into the transcript, and
    /// what it sends is copied twice: for the transcript, and to be sent again.
    pub fn ask(
        &mut self,
        alloc: Global,
        input: Input,
        transcript: &mut Transcript,
    ) -> Result<(), NoMemory>
        requires idle { IsTrue (is_idle self.old.client) }
        requires can { CanAsk self.old input }
        ensures acts { (g : Group) (h : List AStep) (i : ℕ) → MemberStands g h self.old i → OnOk result (Acts g h i input self.old self.new) }
        ensures joins { (g : Group) (h : List AStep) (i : ℕ) → MemberStands g h self.old i → OnOk result (AddsStep (step_at g h i input) transcript.old transcript.new) }
        ensures err { OnErr result (self.new ≡ self.old) }
        ensures stays { OnErr result (AddsNoStep transcript.old transcript.new) }
    {
        let pending = self.plan(alloc, &input)?;
        let Pending { step, effect } = pending;
        match self.make(alloc, input, step, transcript) {
            Ok(()) => {
                self.client.keep(effect);
                Ok(())
            }
            Err(NoMemory) => {
                self.client.forget(effect);
                Err(NoMemory)
            }
        }
    }

    // What is printed of a client that takes a payload is appended, and its step is made.
    fn tell(
        &mut self,
        alloc: Global,
        payload: Bytes,
        step: Step,
        transcript: &mut Transcript,
        out: &mut Bytes,
    ) -> Result<(), NoMemory>
        ensures ok { OnOk result (self.new ≡ record self.old { up = queue_with self.old.up step.send; taken = Some payload; sent = or_before step.send self.old.sent }) }
        ensures joins { OnOk result (AddsStep (record { client = self.old.client.id; input = input.Payload payload; sent = step.send; returned = step.returned; object = step.object }) transcript.old transcript.new) }
        ensures out { OnOk result (out.new ≡ out.old ++ print_of_outcomes self.old.client.id step.returned step.object) }
        ensures err { OnErr result (self.new ≡ self.old) }
        ensures stays { OnErr result (AddsNoStep transcript.old transcript.new) }
    {
        put_said(out, alloc, self.client.id(), &step.returned, &step.object)?;
        self.make(alloc, Input::Payload(payload), step, transcript)
    }

    /// The client takes a payload, and what is printed of that is appended. Where memory runs out, nothing has changed but the text. The
    /// payload and what the client returned move into the transcript; the payload is copied once, to be taken again.
    pub fn take(
        &mut self,
        alloc: Global,
        payload: Bytes,
        transcript: &mut Transcript,
        out: &mut Bytes,
    ) -> Result<(), NoMemory>
        ensures acts { (g : Group) (h : List AStep) (i : ℕ) → MemberStands g h self.old i → OnOk result (Acts g h i (input.Payload payload) self.old self.new) }
        ensures joins { (g : Group) (h : List AStep) (i : ℕ) → MemberStands g h self.old i → OnOk result (AddsStep (step_at g h i (input.Payload payload)) transcript.old transcript.new) }
        ensures out { (g : Group) (h : List AStep) (i : ℕ) → MemberStands g h self.old i → OnOk result (out.new ≡ out.old ++ print_of_outcomes i (step_at g h i (input.Payload payload)).returned (step_at g h i (input.Payload payload)).object) }
        ensures err { OnErr result (self.new ≡ self.old) }
        ensures stays { OnErr result (AddsNoStep transcript.old transcript.new) }
    {
        payload.are_bytes();
        let pending = self.client.hear(alloc, payload.as_slice())?;
        let Pending { step, effect } = pending;
        match self.tell(alloc, payload, step, transcript, out) {
            Ok(()) => {
                self.client.keep(effect);
                Ok(())
            }
            Err(NoMemory) => {
                self.client.forget(effect);
                Err(NoMemory)
            }
        }
    }

    /// The kind by which it is bad to ask the client for something: it has halted, or it awaits an answer.
    pub fn refusal(&self) -> Option<BadKind>
        ensures { MatchOption result
            (IsTrue (is_idle self.now.client))
            (λ kind. first_failing
            ((3, is_none self.now.client.halted)
            ∷ (4, awaits_nothing self.now.client.awaiting) ∷ []) ≡ Some (bad_number kind)) }
    {
        if self.client.halted().is_some() {
            Some(BadKind::Halted)
        } else if self.client.idle() {
            None
        } else {
            Some(BadKind::Busy)
        }
    }

    /// A copy of the client's oldest answer, if one waits.
    pub fn answer(&self, alloc: Global) -> Result<Option<Bytes>, NoMemory>
        ensures { IfOk result (λ made. MatchOption made (self.now.down ≡ []) (λ payload. self.now.down ≡ payload ∷ drop 1 self.now.down)) }
    {
        match self.down.oldest() {
            None => Ok(None),
            Some(payload) => Ok(Some(payload.copy(alloc)?)),
        }
    }

    /// A copy of the client's oldest answer with the lowest bit of one byte changed, if it has a byte of this number, counted from 0.
    pub fn flipped_answer(&self, alloc: Global, number: u32) -> Result<Option<Bytes>, NoMemory>
        ensures { IfOk result (λ made. (is_some made ≡ nat_lt number (length (oldest_payload self.now.down))) × IfSome made (λ payload. payload ≡ payload_with_flip number (oldest_payload self.now.down))) }
    {
        let Some(payload) = self.down.oldest() else {
            return Ok(None);
        };
        let place = number as usize;
        if place >= payload.len() {
            return Ok(None);
        }
        Ok(Some(flipped_copy(alloc, payload.as_slice(), place)?))
    }

    /// The client takes a payload in place of its oldest answer, which waits no more.
    pub fn take_oldest_as(
        &mut self,
        alloc: Global,
        payload: Bytes,
        transcript: &mut Transcript,
        out: &mut Bytes,
    ) -> Result<(), NoMemory>
        ensures acts { (g : Group) (h : List AStep) (i : ℕ) → MemberStands g h self.old i → OnOk result (Acts g h i (input.Payload payload) (record self.old { down = drop 1 self.old.down }) self.new) }
        ensures joins { (g : Group) (h : List AStep) (i : ℕ) → MemberStands g h self.old i → OnOk result (AddsStep (step_at g h i (input.Payload payload)) transcript.old transcript.new) }
        ensures out { (g : Group) (h : List AStep) (i : ℕ) → MemberStands g h self.old i → OnOk result (out.new ≡ out.old ++ print_of_outcomes i (step_at g h i (input.Payload payload)).returned (step_at g h i (input.Payload payload)).object) }
        ensures err { OnErr result (self.new ≡ self.old) }
        ensures stays { OnErr result (AddsNoStep transcript.old transcript.new) }
    {
        self.take(alloc, payload, transcript, out)?;
        self.down.drop_oldest();
        Ok(())
    }

    /// The client's server serves its oldest request, if one waits and the server exists; whether it did. Where memory runs out,
    /// nothing has changed.
    pub fn serve_oldest<S: Serve + Drop>(
        &mut self,
        alloc: Global,
        servers: &mut Servers<S>,
        who: u8,
    ) -> Result<bool, NoMemory>
        ensures rests { result ≡ Ok false → ((self.old.up ≡ []) ⊎ (is_some (server_at (states S.state servers.old) self.old.server) ≡ false)) × ((self.new ≡ self.old) × (states S.state servers.new ≡ states S.state servers.old)) }
        ensures there { result ≡ Ok true → is_some (server_at (states S.state servers.old) self.old.server) ≡ true }
        ensures served { result ≡ Ok true → IfSome (server_at (states S.state servers.old) self.old.server) (λ v.
            (self.old.up ≡ oldest_payload self.old.up ∷ drop 1 self.old.up)
            × ((self.new ≡ record self.old { up = drop 1 self.old.up; down = self.old.down ++ (S.rule v who who (oldest_payload self.old.up)).0 ∷ [] })
            × (states S.state servers.new ≡ set_server (states S.state servers.old) self.old.server (Some (S.rule v who who (oldest_payload self.old.up)).1)))) }
        ensures err { OnErr result ((self.new ≡ self.old) × (servers.new ≡ servers.old)) }
    {
        let Some(payload) = self.up.oldest() else {
            return Ok(false);
        };
        // The answer's place is taken first, since the server can't take back what it did.
        self.down.push(Bytes::new(alloc))?;
        match servers.serve(alloc, self.server, who, payload.as_slice()) {
            Ok(Some(answer)) => {
                self.down.fill(answer);
                self.up.drop_oldest();
                Ok(true)
            }
            Ok(None) => {
                self.down.withdraw();
                Ok(false)
            }
            Err(NoMemory) => {
                self.down.withdraw();
                Err(NoMemory)
            }
        }
    }

    /// The payload that the client sent last joins its requests again, if it sent one; whether it did.
    pub fn resend(&mut self, alloc: Global) -> Result<bool, NoMemory>
        ensures ok { IfOk result (λ went. (is_some self.old.sent ≡ went) × (self.new ≡ record self.old { up = queue_with self.old.up self.old.sent })) }
        ensures err { OnErr result (self.new ≡ self.old) }
    {
        let again = copied(alloc, &self.sent)?;
        let went = again.is_some();
        self.send(again)?;
        Ok(went)
    }
}
