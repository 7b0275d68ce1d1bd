//! The server with the history of its changes.

ghost use Rattle.std.specs.Prelude.{◌≡◌, ◌+◌, ◌≢◌, ◌<◌, ◌≤◌, ◌++◌, ◌∷◌, ℕ, [], length, Ok, Some, IfOk, IfSome, IsOk, OnOk, OnErr, false, true, option_copied};
ghost use Rattle.std.specs.FinMap as map;
ghost use Rattle.std.specs.Option.{option_map};
ghost use Rattle.vic_dict.specs.declared.limits.TheConstants.{MOST_CLIENTS, MOST_ENTRIES, MOST_WEIGHT};
ghost use Rattle.vic_wire.specs.declared.message.ToServer.TheVariants as ask;
ghost use Rattle.vic_wire.specs.declared.message.ToClient.TheVariants as say;
ghost use Rattle.vic_wire.specs.Messages.{HasSpelling, answer_text};
ghost use Rattle.vic_wire.specs.Reading.{read_request};
ghost use Rattle.vic_dict.specs.Dictionary.{Fits};
ghost use Rattle.vic_order.specs.Order.{serve, size, sealed_count, weight, ordered_at};
ghost use Rattle.vic_change.specs.Changes.{change};
ghost use Rattle.vic_server.specs.Keeping.{pairs_weight};
ghost use Rattle.vic_order.specs.Next.{next_op, write_at};
ghost use Rattle.vic_server.specs.Changes.{Follows, IsPossible, server_after, makes_change, to_wait};
ghost use Rattle.vic_server.specs.Causes.{Causes};
ghost use Rattle.vic_server.specs.declared.change.Change.TheVariants as effect;
ghost use Rattle.vic_server.specs.Replay.{replay, changes_made, opening_server, kept_with, after_request};

use crate::change::{Change as Effect, Plan};
use crate::machine::Machine;
use std::alloc::Global;
use std::marker::Model;
use vic_change::Change;
use vic_dict::{Bytes, Mode, NoMemory, Op};
use vic_trie::Trie;
use vic_wire::ToClient;

/// A server of a group, and the history of the changes that requests made.
#[derive(Debug, Drop)]
pub struct Served {
    /// What the changes have led to.
    machine: Machine,
    /// As it was made, which no change alters.
    mode: Mode,
    /// How many clients the group has, 1 to 64.
    count: u8,
    /// Whether all clients had come in before the first request.
    gathered: bool,
    /// All requests that changed the server, the oldest first.
    changes: Vec<Change>,
}

impl Model for Served {
    ghost use Rattle.std.specs.Prelude.{◌≡◌};
    ghost use Rattle.std.specs.Coded.{codes};
    ghost use Rattle.vic_server.specs.Keeping.{dictionary_code};
    ghost use Rattle.vic_server.specs.Replay.{KeptServer, kept_with, opening_server, replay};

    ghost Value = { KeptServer };

    ghost coded = { Prim.hlevel (codes, dictionary_code) };

    ghost view = { λ a. kept_with (opening_server a.mode a.count a.gathered) a.changes.items a.machine };

    ghost invariant = { λ a. a.machine ≡ replay (opening_server a.mode a.count a.gathered) a.changes.items };
}

fn copied_changes(alloc: Global, changes: &[Change]) -> Result<Vec<Change>, NoMemory>
    ensures { IfOk result (λ made. made.items ≡ changes.now) }
{
    let mut made = Vec::new(alloc);
    for change in changes {
        made.push(change.copy(alloc)?)?;
    }
    Ok(made)
}

impl Served {
    /// A server of so many clients, of which none has come in.
    #[tactic(auto, unfolding(crate::specs::Replay::replay))]
    pub fn new(alloc: Global, mode: Mode, count: u8) -> Result<Served, NoMemory>
        requires count { (0 < count) × (count ≤ MOST_CLIENTS) }
        ensures { IfOk result (λ s. s ≡ kept_with (opening_server mode count false) [] (opening_server mode count false)) }
    {
        let machine = Machine::new(alloc, mode, count)?;
        Ok(Served {
            machine,
            mode,
            count,
            gathered: false,
            changes: Vec::new(alloc),
        })
    }

    /// A server of so many clients, all of which have come in.
    #[tactic(auto, unfolding(crate::specs::Replay::replay))]
    pub fn gathered(alloc: Global, mode: Mode, count: u8) -> Result<Served, NoMemory>
        requires count { (0 < count) × (count ≤ MOST_CLIENTS) }
        ensures { IfOk result (λ s. s ≡ kept_with (opening_server mode count true) [] (opening_server mode count true)) }
    {
        let machine = Machine::gathered(alloc, mode, count)?;
        Ok(Served {
            machine,
            mode,
            count,
            gathered: true,
            changes: Vec::new(alloc),
        })
    }

    /// What the type says, for a proof: its server is what its history leads to. It does nothing when it runs.
    pub fn keeps_history(&self)
        ensures { self.now.server ≡ replay self.now.opening self.now.changes }
    {
        // What a type keeps true is known of a value once its body reads a field; this read costs nothing.
        let _machine = &self.machine;
    }

    /// How many changes requests made.
    pub fn changes(&self) -> u64
        ensures { result ≡ length self.now.changes }
    {
        self.changes.len() as u64
    }

    /// How many entries were ordered.
    pub fn length(&self) -> u32
        ensures is { result ≡ size self.now.server }
        ensures room { result ≤ MOST_ENTRIES }
    {
        self.machine.length()
    }

    /// How many of them are sealed.
    pub fn sealed(&self) -> u32
        ensures is { result ≡ sealed_count self.now.server }
        ensures within { result ≤ size self.now.server }
        ensures room { result ≤ MOST_ENTRIES }
    {
        self.machine.sealed()
    }

    /// How many keys the sealed dictionary has.
    pub fn pairs(&self) -> u32
        ensures { result ≡ map.len self.now.server.dictionary }
    {
        self.machine.pairs()
    }

    /// The sealed dictionary. Its pairs weigh at most 8,388,608 bytes, so a part of it fits an answer.
    pub fn dict(&self) -> &Trie
        ensures is { result.now ≡ self.now.server.dictionary }
        ensures light { pairs_weight result.now ≤ MOST_WEIGHT }
    {
        self.machine.dict()
    }

    /// The operation of the first entry that isn't sealed, where it is a put or a del that was committed done; None in all other cases.
    pub fn next_op(&self) -> Option<&Op>
        ensures is { option_copied result ≡ next_op self.now.server }
        ensures fits { IfSome (option_copied result) (λ o. Fits o) }
    {
        self.machine.next_op()
    }

    /// What `next_op` says once a planned change was made, where the position is one above the entries that are sealed then
    /// ([`Served::sealed_after`]). At any other position, the operation of the entry there, where it is then a put or a del that was
    /// committed done.
    pub fn op_above<'a>(&'a self, change: &'a Effect, position: u32) -> Option<&'a Op>
        requires { 0 < position }
        ensures is { option_copied result ≡ write_at (server_after self.now.server change.now) position }
        ensures next { position ≡ sealed_count (server_after self.now.server change.now) + 1 → option_copied result ≡ next_op (server_after self.now.server change.now) }
        ensures fits { IfSome (option_copied result) (λ o. Fits o) }
    {
        self.machine.op_above(change, position)
    }

    /// How many entries are sealed once a planned change was made.
    pub fn sealed_after(&self, change: &Effect) -> u32
        ensures is { result ≡ sealed_count (server_after self.now.server change.now) }
        ensures room { result ≤ 1048577 }
    {
        self.machine.sealed_after(change)
    }

    /// Whose the first entry is that isn't sealed, if there is one.
    pub fn owner_of_next(&self) -> Option<u8>
        ensures { result ≡ option_map (λ o. o.entry.client) (ordered_at self.now.server (sealed_count self.now.server + 1)) }
    {
        self.machine.owner_of_next()
    }

    /// The bytes of the sealed pairs and of the puts that aren't sealed, with 16 more for each.
    pub fn weight(&self) -> u64
        ensures is { result ≡ weight self.now.server }
        ensures light { result ≤ MOST_WEIGHT }
    {
        self.machine.weight()
    }

    /// What the rule says of a payload: the answer, and what would change. It is the first phase of serving. The server is the same
    /// afterwards, so the caller can still fail: it encodes the answer and takes its own memory now, before it calls [`Served::keep`].
    pub fn plan(&mut self, alloc: Global, who: u8, payload: &[u8]) -> Result<Plan, NoMemory>
        ensures follows { IfOk result (λ p. Follows (serve self.old.server who payload.now) self.old.server p) }
        ensures waits { read_request payload.now ≡ Some ask.Poll → (serve self.old.server who payload.now).answer ≡ say.Wait → result ≡ Ok to_wait }
        ensures same { self.new ≡ self.old }
    {
        self.machine.plan(alloc, who, payload)
    }

    /// Makes the change that was planned for a request, and keeps it in the history; where there is none, nothing. It is the second
    /// phase of serving, to be called with the change of a [`Served::plan`] for the same client and payload, and with no other request
    /// served between them. Where memory runs out, nothing has changed.
    pub fn keep(
        &mut self,
        alloc: Global,
        seat: u32,
        who: u8,
        payload: &[u8],
        change: Effect,
    ) -> Result<(), NoMemory>
        requires possible { IsPossible self.old.server change }
        requires next { server_after self.old.server change ≡ (serve self.old.server who payload.now).next }
        requires makes { makes_change change ≡ (serve self.old.server who payload.now).change }
        ensures ok { OnOk result (self.new ≡ after_request self.old seat who payload.now) }
        ensures nothing { change ≡ effect.Nothing → IsOk result }
        ensures err { OnErr result (self.new ≡ self.old) }
    {
        if let Effect::Nothing = change {
            return Ok(());
        }
        let payload = Bytes::of(alloc, payload)?;
        self.enact(alloc, change, Change { seat, who, payload })
    }

    // Makes a change, and keeps it in the history.
    fn enact(&mut self, alloc: Global, change: Effect, row: Change) -> Result<(), NoMemory>
        requires possible { IsPossible self.old.server change }
        requires same { server_after self.old.server change ≡ (serve self.old.server row.who row.payload).next }
        ensures ok { OnOk result (self.new ≡ kept_with self.old.opening (self.old.changes ++ row ∷ []) (server_after self.old.server change)) }
        ensures err { OnErr result (self.new ≡ self.old) }
    {
        self.changes.reserve(1)?;
        self.machine.enact(alloc, change)?;
        self.changes.push_reserved(row);
        Ok(())
    }

    /// A copy of all that is kept.
    pub(crate) fn copied(&self, alloc: Global) -> Result<Served, NoMemory>
        ensures { IfOk result (λ made. made ≡ self.now) }
    {
        let machine = self.machine.copied(alloc)?;
        let changes = copied_changes(alloc, &self.changes)?;
        Ok(Served {
            machine,
            mode: self.mode,
            count: self.count,
            gathered: self.gathered,
            changes,
        })
    }

    /// Serves one request: what it changes, and the answer. The answer's memory is taken before anything changes. A change takes its own as
    /// it is made: a seal stands on its list before the dictionary asks for memory, and a content before its index does; where there is
    /// none, they are taken off again. A content is copied twice, since the history keeps its request too.
    #[tactic(auto, using(vic_bounds::proofs::Lengths::answer_short))]
    pub fn step(
        &mut self,
        alloc: Global,
        seat: u32,
        who: u8,
        payload: &[u8],
    ) -> Result<ToClient, NoMemory>
        ensures ok { OnOk result (self.new ≡ after_request self.old seat who payload.now) }
        ensures answer { IfOk result (λ a. a ≡ (serve self.old.server who payload.now).answer) }
        ensures spelled { IfOk result (λ a. HasSpelling a) }
        // Each refusal, and the word to wait, comes exactly where its own cause holds.
        ensures causes { IfOk result (λ a. Causes self.old.server who (read_request payload.now) a) }
        // A refusal changes nothing.
        ensures refused { (r : ℕ) → result ≡ Ok (say.Refused r) → self.new ≡ self.old }
        // Its envelope fits a frame.
        ensures short { IfOk result (λ a. length (answer_text a) ≤ 16777211) }
        // A Poll that is to wait takes no memory.
        ensures waits { read_request payload.now ≡ Some ask.Poll → (serve self.old.server who payload.now).answer ≡ say.Wait → result ≡ Ok say.Wait }
        ensures err { OnErr result (self.new ≡ self.old) }
    {
        let Plan { answer, change } = self.plan(alloc, who, payload)?;
        self.keep(alloc, seat, who, payload, change)?;
        Ok(answer)
    }
}
