//! The client.

ghost use Rattle.std.specs.Prelude.{◌≡◌, ◌<◌, ◌≤◌, ◌+◌, ◌^◌, ℕ, IsTrue, IsSome, IfSome, IfOk, OnOk, OnErr, Ok, Some, None, length};
ghost use Rattle.vic_dict.specs.declared.limits.TheConstants.{MOST_CLIENTS};
ghost use Rattle.vic_dict.specs.Dictionary.{Fits};
ghost use Rattle.vic_chain.specs.Held.{held_length, held_sealed_at};
ghost use Rattle.vic_rules.specs.Client.{Standing, at_start, move_to_call};
ghost use Rattle.vic_rules.specs.Objects.{FitsObject};
ghost use Rattle.vic_rules.specs.declared.object.ObjectCall.TheVariants as object;
ghost use Rattle.vic_rules.specs.declared.trace.Input.{Input as AnInput};
ghost use Rattle.vic_rules.specs.declared.trace.Input.TheVariants as input;
ghost use Rattle.vic_client.specs.Sound.{PhaseFits};
ghost use Rattle.vic_client.specs.Kept.{StandsFor, IsSameClient, is_idle, kept_group, kept_move, sent_at};
ghost use Rattle.vic_client.specs.Shows.{Shows};
ghost use Rattle.vic_client.specs.Pending.{CanKeep, CanSeal, FitsFrame, IsPendingOf, HasPending, after_keeping, after_forgetting, phase_turned};

use crate::calling::call_op;
use crate::hearing::hear;
use crate::pending::{Effect, Pending};
use crate::sending::{request_payload, sync_payload};
use crate::step::Step;
use std::alloc::Global;
use std::marker::Model;
use vic_chain::Window;
use vic_checks::{OwnList, State};
use vic_dict::{Bytes, Mode, NoMemory, Op, Outcome};
use vic_proxy::{ObjectCall, Proxy};
use vic_rules::Awaiting;
use vic_tag::GroupKey;
use vic_wire::{Digest32, ToServer};

/// A client of a group. Contracts see what it keeps: who it is, its group, the window of its path, its own calls that aren't
/// sealed, what it awaits, how often it called, how far its call on objects has come, and the check at which it halted.
#[derive(Debug, Drop)]
pub struct Client {
    /// What the checks look at.
    state: State,
    /// How many calls it has made: the number of the last one.
    calls: u32,
    /// How far its call on objects has come; closed where there is none.
    proxy: Proxy,
    /// The number of the check at which it halted, if it did: it stays halted.
    halted: Option<u8>,
}

impl Model for Client {
    ghost use Rattle.vic_client.specs.Kept.{KeptClient};
    ghost use Rattle.vic_client.specs.Sound.{IsSound, PhaseFits};

    ghost Value = { KeptClient };

    ghost view = { λ a. record { id = a.state.id; count = a.state.count; mode = a.state.mode; key = a.state.key; window = a.state.window; own = a.state.own; awaiting = a.state.awaiting; calls = a.calls; phase = a.proxy; halted = a.halted } };

    ghost invariant = { λ a. IsSound a.state.id a.state.count a.state.window a.state.own a.state.awaiting × PhaseFits a.calls a.proxy };
}

impl Client {
    /// A client that has done nothing yet; it takes no memory.
    pub fn new(alloc: Global, id: u8, count: u8, mode: Mode, key: GroupKey) -> Client
        requires some { 0 < id }
        requires member { id ≤ count }
        requires few { count ≤ MOST_CLIENTS }
        ensures id { result.id ≡ id }
        ensures group { kept_group result ≡ record { mode = mode; count = count; key = key } }
        ensures stands { StandsFor result at_start }
    {
        Client {
            state: State {
                id,
                count,
                mode,
                key,
                window: Window::new(alloc, mode, count),
                own: OwnList::new(alloc),
                awaiting: Awaiting::Nothing,
            },
            calls: 0,
            proxy: Proxy::closed(),
            halted: None,
        }
    }

    // Plans to call an operation, where what the client is asked for comes to this call.
    fn plan_op(&self, alloc: Global, op: Op, load: bool, proxy: Proxy) -> Result<Pending, NoMemory>
        requires idle { IsTrue (is_idle self.now) }
        requires fits { Fits op }
        requires few { self.now.calls + 1 < 2 ^ 32 }
        requires going { (calls : ℕ) → PhaseFits calls proxy }
        ensures planned { (given : AnInput) → ((s : Standing) → kept_move self.now s given ≡ move_to_call s proxy op load)
            → IfOk result (λ p. IsPendingOf self.now p self.now given) }
        ensures sends { IfOk result (λ p. IsSome p.step.send) }
        ensures fits { IfOk result (λ p. IfSome p.step.send FitsFrame) }
    {
        call_op(alloc, &self.state, self.calls, op, load, proxy)
    }

    /// Plans to call an operation. The client doesn't change.
    #[tactic(auto, unfolding(vic_rules::specs::Client::step))]
    pub fn plan_call(&self, alloc: Global, op: &Op) -> Result<Pending, NoMemory>
        requires idle { IsTrue (is_idle self.now) }
        requires plain { self.now.mode ≡ Mode.Plain }
        requires fits { Fits op.now }
        requires few { self.now.calls + 1 < 2 ^ 32 }
        ensures planned { IfOk result (λ p. IsPendingOf self.now p self.now (input.Call op.now)) }
        ensures sends { IfOk result (λ p. IsSome p.step.send) }
        ensures fits { IfOk result (λ p. IfSome p.step.send FitsFrame) }
    {
        let op = op.copy(alloc)?;
        self.plan_op(alloc, op, false, Proxy::closed())
    }

    // Plans to send a content that is to be kept.
    #[tactic(auto, unfolding(vic_rules::specs::Client::step))]
    fn plan_store(&self, alloc: Global, name: &Bytes, content: &Bytes) -> Result<Pending, NoMemory>
        requires idle { IsTrue (is_idle self.now) }
        requires fits { FitsObject (object.Store name.now content.now) }
        requires few { self.now.calls + 1 < 2 ^ 32 }
        ensures planned { IfOk result (λ p. IsPendingOf self.now p self.now (input.Object (object.Store name.now content.now))) }
        ensures sends { IfOk result (λ p. IsSome p.step.send) }
        ensures fits { IfOk result (λ p. IfSome p.step.send FitsFrame) }
    {
        let proxy = Proxy::keeping(alloc, name, content.as_slice())?;
        let sent = request_payload(alloc, &ToServer::Keep(content.copy(alloc)?))?;
        Ok(Pending::asks(sent, Awaiting::Kept, self.calls, proxy))
    }

    /// Plans a call on objects: of a store the content is to be sent first, the others call their operation. The client doesn't change.
    /// Of a store it costs the hash of the content, and two copies of it: in the message, and in the bytes that are sent.
    #[tactic(auto, unfolding(vic_rules::specs::Client::step))]
    pub fn plan_object(&self, alloc: Global, call: &ObjectCall) -> Result<Pending, NoMemory>
        requires idle { IsTrue (is_idle self.now) }
        requires objects { self.now.mode ≡ Mode.Objects }
        requires fits { FitsObject call.now }
        requires few { self.now.calls + 1 < 2 ^ 32 }
        ensures planned { IfOk result (λ p. IsPendingOf self.now p self.now (input.Object call.now)) }
        ensures sends { IfOk result (λ p. IsSome p.step.send) }
        ensures fits { IfOk result (λ p. IfSome p.step.send FitsFrame) }
    {
        match call {
            ObjectCall::Store(name, content) => self.plan_store(alloc, name, content),
            ObjectCall::Load(name) => self.plan_op(
                alloc,
                Op::Get(name.copy(alloc)?),
                true,
                Proxy::calling(),
            ),
            ObjectCall::Erase(name) => self.plan_op(
                alloc,
                Op::Del(name.copy(alloc)?),
                false,
                Proxy::calling(),
            ),
            ObjectCall::Names(prefix) => self.plan_op(
                alloc,
                Op::List(prefix.copy(alloc)?),
                false,
                Proxy::calling(),
            ),
        }
    }

    /// Plans to ask whether it is the client's turn to seal. The client doesn't change.
    #[tactic(auto, unfolding(vic_rules::specs::Client::step))]
    pub fn plan_poll(&self, alloc: Global) -> Result<Pending, NoMemory>
        requires { IsTrue (is_idle self.now) }
        ensures planned { IfOk result (λ p. IsPendingOf self.now p self.now input.Poll) }
        ensures sends { IfOk result (λ p. IsSome p.step.send) }
        ensures fits { IfOk result (λ p. IfSome p.step.send FitsFrame) }
    {
        // For the proof alone: the look at the client gives what its type says.
        let _calls = self.calls;
        let sent = request_payload(alloc, &ToServer::Poll)?;
        Ok(Pending::awaits(Some(sent), Awaiting::Turn))
    }

    /// Plans to ask for the entries that the client doesn't know. The client doesn't change.
    #[tactic(auto, unfolding(vic_rules::specs::Client::step))]
    pub fn plan_sync(&self, alloc: Global) -> Result<Pending, NoMemory>
        requires { IsTrue (is_idle self.now) }
        ensures planned { IfOk result (λ p. IsPendingOf self.now p self.now input.Sync) }
        ensures sends { IfOk result (λ p. IsSome p.step.send) }
        ensures fits { IfOk result (λ p. IfSome p.step.send FitsFrame) }
    {
        let sent = sync_payload(alloc, &self.state)?;
        Ok(Pending::awaits(Some(sent), Awaiting::Entries))
    }

    /// Hears a payload that is said to come from the server, whatever it holds: the step is pending until it is kept or
    /// forgotten. A halted client answers the same number again. After want of memory the client is as before, and the payload
    /// may be given again.
    pub fn hear(&mut self, alloc: Global, payload: &[u8]) -> Result<Pending, NoMemory>
        ensures heard { IfOk result (λ p. IsPendingOf self.old p self.new (input.Payload payload.now)) }
        ensures fits { IfOk result (λ p. IfSome p.step.send FitsFrame) }
        ensures halted { (k : ℕ) → self.old.halted ≡ Some k
            → (result ≡ Ok (record { step = record { send = None; returned = Some (Outcome.Halted k); object = None }; effect = Effect.Stays })) × (self.new ≡ self.old) }
        ensures err { OnErr result (self.new ≡ self.old) }
    {
        match self.halted {
            Some(check) => Ok(Pending::stays(check)),
            None => hear(alloc, &mut self.state, self.calls, &self.proxy, payload),
        }
    }

    /// Keeps the step that is pending: it is made. It takes no memory; it costs what the entries cost that it seals.
    pub fn keep(&mut self, effect: Effect)
        requires { HasPending effect self.old }
        ensures { self.new ≡ after_keeping effect self.old }
    {
        self.become_kept(effect);
    }

    // What keeping a step makes of the client.
    fn become_kept(&mut self, effect: Effect)
        requires { CanKeep effect self.old }
        ensures { self.new ≡ after_keeping effect self.old }
    {
        match effect {
            Effect::Stays => (),
            Effect::Halts(check) => self.halted = Some(check),
            Effect::Asks {
                awaiting,
                calls,
                turned,
            } => {
                self.state.awaiting = awaiting;
                self.calls = calls;
                self.proxy = turned;
            }
            Effect::Awaits(awaiting) => self.state.awaiting = awaiting,
            Effect::Ends => {
                self.state.awaiting = Awaiting::Nothing;
                self.proxy = Proxy::closed();
            }
            Effect::Replies {
                length: _,
                position,
                root,
                turned,
            } => {
                seal_to(&mut self.state, position, &root, Awaiting::Turn);
                self.turn(turned);
            }
            Effect::Seals { position, root } => {
                seal_to(&mut self.state, position, &root, Awaiting::Turn);
                self.state.own.drop_first();
            }
            Effect::Lists {
                length: _,
                position,
                root,
            } => {
                seal_to(&mut self.state, position, &root, Awaiting::Nothing);
            }
        }
    }

    // Moves the call on objects, where it moves.
    fn turn(&mut self, turned: Option<Proxy>)
        requires { PhaseFits self.old.calls (phase_turned self.old.phase turned) }
        ensures { self.new ≡ record self.old { phase = phase_turned self.old.phase turned } }
    {
        if let Some(proxy) = turned {
            self.proxy = proxy;
        }
    }

    // Keeps a pending step that sends a payload: the payload.
    fn keep_sent(&mut self, pending: Pending) -> Bytes
        requires last { HasPending pending.effect self.old }
        requires sends { IsSome pending.step.send }
        ensures client { self.new ≡ after_keeping pending.effect self.old }
        ensures sent { Some result ≡ pending.step.send }
    {
        let Pending { step, effect } = pending;
        self.keep(effect);
        step.send.unwrap()
    }

    /// Forgets the step that is pending: the client is as before it was planned or heard. It takes no memory; it costs what the
    /// entries cost that came onto the path.
    pub fn forget(&mut self, effect: Effect)
        requires { HasPending effect self.old }
        ensures { self.new ≡ after_forgetting effect self.old }
    {
        self.become_forgotten(effect);
    }

    // What forgetting a step makes of the client.
    fn become_forgotten(&mut self, effect: Effect)
        requires { CanKeep effect self.old }
        ensures { self.new ≡ after_forgetting effect self.old }
    {
        match effect {
            Effect::Replies {
                length,
                position: _,
                root: _,
                turned: _,
            } => {
                self.state.window.cut_back(length);
                self.state.own.drop_last();
            }
            Effect::Lists {
                length,
                position: _,
                root: _,
            } => self.state.window.cut_back(length),
            Effect::Stays | Effect::Halts(_) | Effect::Ends => (),
            Effect::Asks {
                awaiting: _,
                calls: _,
                turned: _,
            } => (),
            Effect::Awaits(_) => (),
            Effect::Seals {
                position: _,
                root: _,
            } => (),
        }
    }

    /// Calls an operation: the payload to send. After want of memory the client is as before.
    #[tactic(auto, using(crate::proofs::Pendings::stands_kept))]
    pub fn invoke(&mut self, alloc: Global, op: &Op) -> Result<Bytes, NoMemory>
        requires idle { IsTrue (is_idle self.old) }
        requires plain { self.old.mode ≡ Mode.Plain }
        requires fits { Fits op.now }
        requires few { self.old.calls + 1 < 2 ^ 32 }
        ensures same { IsSameClient self.old self.new }
        ensures err { OnErr result (self.new ≡ self.old) }
        ensures sent { (s : Standing) → StandsFor self.old s → IfOk result (λ b. Some b ≡ sent_at self.old (kept_move self.old s (input.Call op.now))) }
        ensures fits { IfOk result FitsFrame }
        ensures stands { (s : Standing) → StandsFor self.old s → OnOk result (StandsFor self.new (kept_move self.old s (input.Call op.now)).next) }
    {
        let pending = self.plan_call(alloc, op)?;
        Ok(self.keep_sent(pending))
    }

    /// Makes a call on objects: the payload to send. After want of memory the client is as before. Of a store it costs the hash of the
    /// content, and two copies of it: in the message, and in the payload.
    #[tactic(auto, using(crate::proofs::Pendings::stands_kept))]
    pub fn invoke_object(&mut self, alloc: Global, call: &ObjectCall) -> Result<Bytes, NoMemory>
        requires idle { IsTrue (is_idle self.old) }
        requires objects { self.old.mode ≡ Mode.Objects }
        requires fits { FitsObject call.now }
        requires few { self.old.calls + 1 < 2 ^ 32 }
        ensures same { IsSameClient self.old self.new }
        ensures err { OnErr result (self.new ≡ self.old) }
        ensures sent { (s : Standing) → StandsFor self.old s → IfOk result (λ b. Some b ≡ sent_at self.old (kept_move self.old s (input.Object call.now))) }
        ensures fits { IfOk result FitsFrame }
        ensures stands { (s : Standing) → StandsFor self.old s → OnOk result (StandsFor self.new (kept_move self.old s (input.Object call.now)).next) }
    {
        let pending = self.plan_object(alloc, call)?;
        Ok(self.keep_sent(pending))
    }

    /// Asks whether it is the client's turn to seal: the payload to send. After want of memory the client is as before.
    #[tactic(auto, using(crate::proofs::Pendings::stands_kept))]
    pub fn poll(&mut self, alloc: Global) -> Result<Bytes, NoMemory>
        requires { IsTrue (is_idle self.old) }
        ensures same { IsSameClient self.old self.new }
        ensures err { OnErr result (self.new ≡ self.old) }
        ensures sent { (s : Standing) → StandsFor self.old s → IfOk result (λ b. Some b ≡ sent_at self.old (kept_move self.old s input.Poll)) }
        ensures fits { IfOk result FitsFrame }
        ensures stands { (s : Standing) → StandsFor self.old s → OnOk result (StandsFor self.new (kept_move self.old s input.Poll).next) }
    {
        let pending = self.plan_poll(alloc)?;
        Ok(self.keep_sent(pending))
    }

    /// Asks for the entries that the client doesn't know: the payload to send. After want of memory the client is as before.
    #[tactic(auto, using(crate::proofs::Pendings::stands_kept))]
    pub fn sync(&mut self, alloc: Global) -> Result<Bytes, NoMemory>
        requires { IsTrue (is_idle self.old) }
        ensures same { IsSameClient self.old self.new }
        ensures err { OnErr result (self.new ≡ self.old) }
        ensures sent { (s : Standing) → StandsFor self.old s → IfOk result (λ b. Some b ≡ sent_at self.old (kept_move self.old s input.Sync)) }
        ensures fits { IfOk result FitsFrame }
        ensures stands { (s : Standing) → StandsFor self.old s → OnOk result (StandsFor self.new (kept_move self.old s input.Sync).next) }
    {
        let pending = self.plan_sync(alloc)?;
        Ok(self.keep_sent(pending))
    }

    /// Takes a payload that is said to come from the server, whatever it holds. A halted client answers the same number again.
    /// After want of memory the client is as before, and the payload may be given again.
    pub fn take(&mut self, alloc: Global, payload: &[u8]) -> Result<Step, NoMemory>
        ensures same { IsSameClient self.old self.new }
        ensures taken { (s : Standing) → StandsFor self.old s → IfOk result (λ r. Shows self.old r self.new (kept_move self.old s (input.Payload payload.now))) }
        ensures fits { IfOk result (λ r. IfSome r.send FitsFrame) }
        ensures halted { (k : ℕ) → self.old.halted ≡ Some k → (result ≡ Ok (record { send = None; returned = Some (Outcome.Halted k); object = None })) × (self.new ≡ self.old) }
        ensures err { OnErr result (self.new ≡ self.old) }
    {
        let pending = self.hear(alloc, payload)?;
        let Pending { step, effect } = pending;
        self.keep(effect);
        Ok(step)
    }

    /// Its number in the group.
    pub fn id(&self) -> u8
        ensures { result ≡ self.now.id }
    {
        self.state.id
    }

    /// How many clients the group has.
    pub fn count(&self) -> u8
        ensures { result ≡ self.now.count }
    {
        self.state.count
    }

    /// The kind of the group.
    pub fn mode(&self) -> Mode
        ensures { result ≡ self.now.mode }
    {
        self.state.mode
    }

    /// Whether it awaits nothing and hasn't halted.
    pub fn idle(&self) -> bool
        ensures { result ≡ is_idle self.now }
    {
        matches!(self.state.awaiting, Awaiting::Nothing) && self.halted.is_none()
    }

    /// The number of the check at which it halted, if it did.
    pub fn halted(&self) -> Option<u8>
        ensures { result ≡ self.now.halted }
    {
        self.halted
    }

    /// The position of its highest seal.
    pub fn sealed(&self) -> u32
        ensures { result ≡ self.now.window.sealed }
    {
        self.state.window.sealed()
    }

    /// The length of its path.
    pub fn length(&self) -> u32
        ensures value { result ≡ held_length self.now.window }
        ensures shows { (s : Standing) → StandsFor self.now s → result ≡ length s.path }
    {
        self.state.window.length()
    }

    /// How many of its own calls it hasn't sealed.
    pub fn unsettled(&self) -> u32
        ensures { result ≡ length self.now.own }
    {
        let length = self.state.window.length() as usize;
        let few = self.state.own.len() <= length;
        prove!(few);
        self.state.own.len() as u32
    }

    /// How often it has called.
    pub fn calls(&self) -> u32
        ensures { result ≡ self.now.calls }
    {
        self.calls
    }
}

// Moves the seal of the window; what is awaited then.
fn seal_to(state: &mut State, position: u32, root: &Digest32, awaiting: Awaiting)
    requires { CanSeal state.old.window position }
    ensures { state.new ≡ record state.old { window = held_sealed_at state.old.window position root.now.bytes; awaiting = awaiting } }
{
    state.window.advance(position, root);
    state.awaiting = awaiting;
}
