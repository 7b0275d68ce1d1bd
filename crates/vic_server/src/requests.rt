//! One function for each kind of request: the tests in the order of the rule, what changes, and the answer.

ghost use Rattle.std.specs.Prelude.{◌≡◌, ℕ, ◌&&◌, ◌||◌, not, nat_lt, nat_le, ◌∷◌, ◌<◌, ◌≤◌, ◌+◌, true, false, None, length, Ok, Some, IfSome, IfOk, IfErr, IsOk, OnOk, OnErr, IsTrue, if◌then◌else◌};
ghost use Rattle.std.specs.Result.{result_err};
ghost use Rattle.vic_dict.specs.declared.limits.TheConstants.{LONGEST_CONTENT, MOST_CLIENTS, MOST_WEIGHT};
ghost use Rattle.vic_dict.specs.Dictionary.{Fits};
ghost use Rattle.vic_wire.specs.declared.refusal.TheConstants.{BEHIND, CONTENT_FULL};
ghost use Rattle.vic_wire.specs.declared.message.ToServer.TheVariants as ask;
ghost use Rattle.vic_wire.specs.Messages.{HasRequestSpelling, HasSpelling, IsSeal, IsTagged};
ghost use Rattle.vic_dict.specs.declared.op.Mode.TheVariants as mode;
ghost use Rattle.vic_wire.specs.declared.message.ToClient.TheVariants as say;
ghost use Rattle.vic_wire.specs.Parts.{part_for};
ghost use Rattle.vic_wire.specs.Reading.{read_request};
ghost use Rattle.vic_rules.specs.Client.{first_failing};
ghost use Rattle.vic_server.specs.declared.change.Change.TheVariants as change;
ghost use Rattle.vic_order.specs.Order.{is_ready, is_away, is_open_at, is_inside, is_put, same_mode, is_member, owns_committed, ordered_at, commit_at, size, sealed_count, op_weight, weight, turn, turn_on, set_stage, with_seal, member, invoke_tests, on_request, on_hello, serve_read, serve, top_seal, entries_above};
ghost use Rattle.vic_bounds.specs.Bounds.{HasShortPart};
ghost use Rattle.vic_server.specs.Keeping.{IsWithin, IsAllowed};
ghost use Rattle.vic_server.specs.Changes.{Follows, IsSeat, IsPossible, server_after, to_wait};
ghost use Rattle.vic_server.specs.Causes.{Causes};

use crate::change::{Change, Plan};
use crate::machine::{Machine, op_weight};
use crate::rows::{Row, Seat};
use std::alloc::Global;
use vic_dict::limits::{MOST_ENTRIES, MOST_TOLD, MOST_UNSEALED, MOST_WEIGHT};
use vic_dict::{Bytes, Entry, Mode, NoMemory, Op};
use vic_frames::decode_request;
use vic_order::Stage;
use vic_wire::refusal::{
    BEHIND, CONTENT_FULL, HISTORY_FULL, NOT_MEMBER, OUT_OF_ORDER, PENDING_FULL, WEIGHT_FULL,
};
use vic_wire::{Digest32, Seal, Tagged, ToClient, ToServer};

fn is_ready(stage: Stage) -> bool
    ensures { result ≡ is_ready stage }
{
    match stage {
        Stage::Ready => true,
        _ => false,
    }
}

fn is_away(stage: Stage) -> bool
    ensures { result ≡ is_away stage }
{
    match stage {
        Stage::Away => true,
        _ => false,
    }
}

fn is_inside(stage: Stage) -> bool
    ensures { result ≡ is_inside stage }
{
    match stage {
        Stage::Ready | Stage::Open(_) => true,
        _ => false,
    }
}

fn is_open_at(position: u32, stage: Stage) -> bool
    ensures { result ≡ is_open_at position stage }
{
    match stage {
        Stage::Open(at) => at == position,
        _ => false,
    }
}

fn same_mode(one: Mode, other: Mode) -> bool
    ensures { result ≡ same_mode one other }
{
    match (one, other) {
        (Mode::Plain, Mode::Plain) => true,
        (Mode::Objects, Mode::Objects) => true,
        _ => false,
    }
}

/// Whether an Invoke comes in its order.
fn is_in_order(stage: Stage, last: u32, seq: u32, known: u32, length: u32) -> bool
    ensures is { result ≡ (is_ready stage && (nat_lt last seq && nat_le known length)) }
    ensures known { IsTrue result → known ≤ length }
{
    is_ready(stage) && (last < seq && known <= length)
}

/// Whether an operation keeps the weight within its limit.
fn is_light(weight: u64, op: &Op) -> bool
    requires fits { Fits op.now }
    requires light { weight ≤ MOST_WEIGHT }
    ensures is { result ≡ (not (is_put op.now) || nat_le (weight + op_weight op.now) MOST_WEIGHT) }
    ensures light { IsTrue result → weight + op_weight op.now ≤ MOST_WEIGHT }
{
    match op {
        Op::Put(_, _) => weight + op_weight(op) <= MOST_WEIGHT,
        _ => true,
    }
}

/// A test: where it isn't passed, the refusal's number.
fn refuse_unless(passed: bool, reason: u8) -> Result<(), u8>
    ensures is { result_err result ≡ (if passed then None else Some reason) }
    ensures passed { OnOk result (IsTrue passed) }
{
    if passed { Ok(()) } else { Err(reason) }
}

fn refused(reason: u8) -> Plan
    ensures { result ≡ record { answer = say.Refused reason; change = change.Nothing } }
{
    Plan {
        answer: ToClient::Refused(reason),
        change: Change::Nothing,
    }
}

/// An answer that changes nothing.
fn only(answer: ToClient) -> Plan
    ensures { result ≡ record { answer = answer; change = change.Nothing } }
{
    Plan {
        answer,
        change: Change::Nothing,
    }
}

impl Machine {
    /// Whether this client has come in and not left.
    fn is_member(&self, who: u8) -> bool
        ensures is { result ≡ is_member self.now who }
        ensures bounds { IsTrue result → IsSeat self.now who × (who ≤ MOST_CLIENTS) }
    {
        0 < who && (who <= self.count() && is_inside(self.stage_of(who)))
    }

    fn set_stage(&mut self, who: u8, stage: Stage)
        requires seat { IsSeat self.old who }
        requires stage { IsWithin (size self.old) stage }
        ensures { self.new ≡ set_stage self.old who stage }
    {
        let last = self.last_of(who);
        self.set_seat(who, Seat::new(last, stage));
    }

    // ---- what is planned

    fn on_hello(&self, who: u8, kind: Mode, client: u8) -> Plan
        ensures { Follows (on_hello self.now who kind client) self.now result }
    {
        if who != 0 {
            return refused(OUT_OF_ORDER);
        }
        if !(0 < client
            && (client <= self.count()
                && (same_mode(kind, self.mode()) && is_away(self.stage_of(client)))))
        {
            return refused(NOT_MEMBER);
        }
        Plan {
            answer: ToClient::Hi,
            change: Change::Enters(client),
        }
    }

    fn on_bye(&self, who: u8) -> Plan
        requires { IsSeat self.now who }
        ensures { Follows (on_request self.now who ask.Bye) self.now result }
    {
        if !is_ready(self.stage_of(who)) {
            return refused(OUT_OF_ORDER);
        }
        Plan {
            answer: ToClient::Gone,
            change: Change::Leaves(who),
        }
    }

    /// The turn, where the first entry that isn't sealed has this commit.
    fn turn_with(&self, alloc: Global, who: u8, status: Option<bool>) -> Result<ToClient, NoMemory>
        ensures is { IfOk result (λ a. a ≡ turn_on self.now who (ordered_at self.now (sealed_count self.now + 1)) status) }
        ensures spelled { IfOk result (λ a. HasSpelling a) }
        ensures short { IfOk result (λ a. HasShortPart a) }
        ensures waits { turn_on self.now who (ordered_at self.now (sealed_count self.now + 1)) status ≡ say.Wait → result ≡ Ok say.Wait }
    {
        let sealed = self.sealed();
        self.tell_turn(alloc, self.seal_at(sealed), who, sealed + 1, status)
    }

    fn on_poll(&self, alloc: Global, who: u8) -> Result<Plan, NoMemory>
        ensures follows { IfOk result (λ p. Follows (on_request self.now who ask.Poll) self.now p) }
        ensures waits { (on_request self.now who ask.Poll).answer ≡ say.Wait → result ≡ Ok to_wait }
    {
        if !is_ready(self.stage_of(who)) {
            return Ok(refused(OUT_OF_ORDER));
        }
        let status = self.status_at(self.sealed() + 1);
        let answer = self.turn_with(alloc, who, status)?;
        Ok(only(answer))
    }

    fn on_sync(&self, alloc: Global, who: u8, known: u32) -> Result<Plan, NoMemory>
        ensures { IfOk result (λ p. Follows (on_request self.now who (ask.Sync known)) self.now p) }
    {
        let length = self.length();
        if !(is_ready(self.stage_of(who)) && known <= length) {
            return Ok(refused(OUT_OF_ORDER));
        }
        let end = length.min(known + MOST_TOLD);
        let entries = self.told(alloc, known, end)?;
        let seal = self.seal_at(self.sealed().min(end));
        Ok(only(ToClient::Entries { seal, entries }))
    }

    fn on_commit(
        &self,
        alloc: Global,
        who: u8,
        position: u32,
        done: bool,
        tag: Digest32,
    ) -> Result<Plan, NoMemory>
        requires seat { IsSeat self.now who }
        requires above { 0 < position }
        ensures { IfOk result (λ p. Follows (on_request self.now who (ask.Commit position done tag)) self.now p) }
    {
        if !is_open_at(position, self.stage_of(who)) {
            return Ok(refused(OUT_OF_ORDER));
        }
        let next = self.sealed() + 1;
        let status = if position == next {
            Some(done)
        } else {
            self.status_at(next)
        };
        let answer = self.turn_with(alloc, who, status)?;
        Ok(Plan {
            answer,
            change: Change::Commits(who, position, done, tag),
        })
    }

    fn on_seal(&mut self, alloc: Global, who: u8, seal: Seal) -> Result<Plan, NoMemory>
        requires { IsSeal seal × (0 < seal.position) }
        ensures follows { IfOk result (λ p. Follows (on_request self.old who (ask.Seal seal.position seal.root seal.tag)) self.old p) }
        ensures same { self.new ≡ self.old }
    {
        if !(is_ready(self.stage_of(who)) && seal.position == self.sealed() + 1) {
            return Ok(refused(OUT_OF_ORDER));
        }
        match self.commit_of(who, seal.position) {
            None => Ok(refused(OUT_OF_ORDER)),
            Some(done) => {
                let answer = self.turn_after(alloc, who, seal, done)?;
                Ok(Plan {
                    answer,
                    change: Change::Seals(seal, done),
                })
            }
        }
    }

    /// What an Invoke has to pass; where it doesn't, the number of the first test that it fails.
    fn pass_tests(&self, who: u8, known: u32, seq: u32, op: &Op) -> Result<(), u8>
        requires { Fits op.now }
        ensures is { result_err result ≡ first_failing (invoke_tests self.now who known seq op.now) }
        ensures number { IfErr result (λ r. (BEHIND ≤ r) × (r ≤ CONTENT_FULL)) }
        ensures allowed { OnOk result (IsAllowed self.now known op.now) }
    {
        let length = self.length();
        let in_order = is_in_order(self.stage_of(who), self.last_of(who), seq, known, length);
        refuse_unless(in_order, OUT_OF_ORDER)?;
        refuse_unless(length != MOST_ENTRIES, HISTORY_FULL)?;
        refuse_unless(length - self.sealed() != MOST_UNSEALED, PENDING_FULL)?;
        refuse_unless(is_light(self.weight(), op), WEIGHT_FULL)?;
        refuse_unless(length + 1 - known <= MOST_TOLD, BEHIND)
    }

    /// The Reply to an entry that is about to go onto the log.
    fn reply_to(&self, alloc: Global, known: u32, row: &Row) -> Result<ToClient, NoMemory>
        requires { IsAllowed self.now known row.now.entry.op }
        ensures is { IfOk result (λ a. a ≡ say.Reply (top_seal self.now) (entries_above known (row.now ∷ self.now.log)) (part_for self.now.dictionary row.now.entry.op)) }
        ensures spelled { IfOk result (λ a. HasSpelling a) }
        ensures short { IfOk result (λ a. HasShortPart a) }
    {
        let seal = self.seal_at(self.sealed());
        let mut entries = self.told(alloc, known, self.length())?;
        let item = row.tagged(alloc)?;
        entries.push(item)?;
        let part = self.part_for(alloc, row.op())?;
        Ok(ToClient::Reply {
            seal,
            entries,
            part,
        })
    }

    fn on_invoke(
        &self,
        alloc: Global,
        who: u8,
        known: u32,
        seq: u32,
        op: Op,
        tag: Digest32,
    ) -> Result<Plan, NoMemory>
        requires seat { IsSeat self.now who × (who ≤ MOST_CLIENTS) }
        requires spelled { HasRequestSpelling (ToServer.Invoke known seq op tag) }
        ensures { IfOk result (λ p. Follows (on_request self.now who (ask.Invoke known seq op tag)) self.now p) }
    {
        match self.pass_tests(who, known, seq, &op) {
            Err(reason) => Ok(refused(reason)),
            Ok(()) => {
                let entry = Entry {
                    client: who,
                    seq,
                    op,
                };
                let row = Row::new(Tagged { entry, tag }, self.sealed());
                let answer = self.reply_to(alloc, known, &row)?;
                Ok(Plan {
                    answer,
                    change: Change::Orders(who, row),
                })
            }
        }
    }

    /// Whether a client may ask for contents.
    fn may_ask(&self, who: u8) -> bool
        ensures { result ≡ (is_ready (member self.now who).stage && same_mode self.now.mode mode.Objects) }
    {
        is_ready(self.stage_of(who)) && same_mode(self.mode(), Mode::Objects)
    }

    /// A content is kept, unless it is already, or there is no room. It costs the content's hash, which is computed here and nowhere
    /// else.
    fn on_keep(&self, who: u8, content: Bytes) -> Plan
        requires { length content ≤ LONGEST_CONTENT }
        ensures { Follows (on_request self.now who (ask.Keep content)) self.now result }
    {
        if !self.may_ask(who) {
            return refused(OUT_OF_ORDER);
        }
        let hash = vic_hash::content(content.as_slice());
        if self.is_kept(&hash) {
            return only(ToClient::Kept);
        }
        if !self.has_room(content.len()) {
            return refused(CONTENT_FULL);
        }
        Plan {
            answer: ToClient::Kept,
            change: Change::Keeps(hash, content),
        }
    }

    /// The content with a hash. It costs a copy of the content.
    fn on_fetch(&self, alloc: Global, who: u8, hash: Digest32) -> Result<Plan, NoMemory>
        ensures { IfOk result (λ p. Follows (on_request self.now who (ask.Fetch hash)) self.now p) }
    {
        if !self.may_ask(who) {
            return Ok(refused(OUT_OF_ORDER));
        }
        let answer = self.content_with(alloc, &hash)?;
        Ok(only(answer))
    }

    fn on_request(&mut self, alloc: Global, who: u8, request: ToServer) -> Result<Plan, NoMemory>
        requires seat { IsSeat self.old who × (who ≤ MOST_CLIENTS) }
        requires spelled { HasRequestSpelling request }
        ensures follows { IfOk result (λ p. Follows (on_request self.old who request) self.old p) }
        ensures waits { request ≡ ask.Poll → (on_request self.old who request).answer ≡ say.Wait → result ≡ Ok to_wait }
        ensures same { self.new ≡ self.old }
    {
        match request {
            ToServer::Hello(_, _) => Ok(refused(OUT_OF_ORDER)),
            ToServer::Invoke {
                known,
                seq,
                op,
                tag,
            } => self.on_invoke(alloc, who, known, seq, op, tag),
            ToServer::Commit {
                position,
                done,
                tag,
            } => self.on_commit(alloc, who, position, done, tag),
            ToServer::Poll => self.on_poll(alloc, who),
            ToServer::Seal {
                position,
                root,
                tag,
            } => self.on_seal(
                alloc,
                who,
                Seal {
                    position,
                    root,
                    tag,
                },
            ),
            ToServer::Sync(known) => self.on_sync(alloc, who, known),
            ToServer::Keep(content) => Ok(self.on_keep(who, content)),
            ToServer::Fetch(hash) => self.on_fetch(alloc, who, hash),
            ToServer::Bye => Ok(self.on_bye(who)),
        }
    }

    fn on_read(
        &mut self,
        alloc: Global,
        who: u8,
        request: Option<ToServer>,
    ) -> Result<Plan, NoMemory>
        requires { IfSome request (λ m. HasRequestSpelling m) }
        ensures follows { IfOk result (λ p. Follows (serve_read self.old who request) self.old p) }
        ensures waits { request ≡ Some ask.Poll → (serve_read self.old who request).answer ≡ say.Wait → result ≡ Ok to_wait }
        ensures same { self.new ≡ self.old }
    {
        match request {
            None => Ok(refused(OUT_OF_ORDER)),
            Some(ToServer::Hello(kind, client)) => Ok(self.on_hello(who, kind, client)),
            Some(request) => {
                if !self.is_member(who) {
                    return Ok(refused(NOT_MEMBER));
                }
                self.on_request(alloc, who, request)
            }
        }
    }

    /// What the rule says of a payload. The server is the same afterwards; for the turn behind a seal its dictionary is changed and changed
    /// back.
    #[tactic(auto, unfolding(vic_order::specs::Order::serve))]
    pub(crate) fn plan(&mut self, alloc: Global, who: u8, payload: &[u8]) -> Result<Plan, NoMemory>
        ensures follows { IfOk result (λ p. Follows (serve self.old who payload.now) self.old p) }
        ensures waits { read_request payload.now ≡ Some ask.Poll → (serve self.old who payload.now).answer ≡ say.Wait → result ≡ Ok to_wait }
        ensures same { self.new ≡ self.old }
    {
        let request = decode_request(alloc, payload)?;
        self.on_read(alloc, who, request)
    }

    // ---- what is changed

    pub(crate) fn enact(&mut self, alloc: Global, change: Change) -> Result<(), NoMemory>
        requires { IsPossible self.old change }
        ensures ok { OnOk result (self.new ≡ server_after self.old change) }
        ensures nothing { change ≡ Change.Nothing → IsOk result }
        ensures err { OnErr result (self.new ≡ self.old) }
    {
        match change {
            Change::Nothing => {}
            Change::Enters(client) => self.set_stage(client, Stage::Ready),
            Change::Orders(who, row) => self.order(who, row)?,
            Change::Commits(who, position, done, tag) => {
                self.add_commit(position, done, tag)?;
                self.set_stage(who, Stage::Ready);
            }
            Change::Seals(seal, done) => self.add_seal(alloc, seal, done)?,
            Change::Keeps(hash, content) => self.add_content(&hash, content)?,
            Change::Leaves(who) => self.set_stage(who, Stage::Left),
        }
        Ok(())
    }

    fn order(&mut self, who: u8, row: Row) -> Result<(), NoMemory>
        requires { IsPossible self.old (Change.Orders who row) }
        ensures ok { OnOk result (self.new ≡ server_after self.old (Change.Orders who row)) }
        ensures err { OnErr result (self.new ≡ self.old) }
    {
        let last = row.seq();
        let position = self.length() + 1;
        self.add_row(row)?;
        self.set_seat(who, Seat::new(last, Stage::Open(position)));
        Ok(())
    }

    /// Serves one request: what it changes, and the answer. It costs what its answer costs, a Seal what the change of the dictionary
    /// costs, and a Keep its content's hash and a copy of it. The seat is that of the connection; the rule doesn't ask for it.
    pub fn step(
        &mut self,
        alloc: Global,
        _seat: u32,
        who: u8,
        payload: &[u8],
    ) -> Result<ToClient, NoMemory>
        ensures ok { IfOk result (λ a. (self.new ≡ (serve self.old who payload.now).next) × (a ≡ (serve self.old who payload.now).answer)) }
        ensures spelled { IfOk result (λ a. HasSpelling a) }
        // Each refusal, and the word to wait, comes exactly where its own cause holds.
        ensures causes { IfOk result (λ a. Causes self.old who (read_request payload.now) a) }
        // A refusal changes nothing.
        ensures refused { (r : ℕ) → result ≡ Ok (say.Refused r) → self.new ≡ self.old }
        // A Poll that is to wait takes no memory.
        ensures waits { read_request payload.now ≡ Some ask.Poll → (serve self.old who payload.now).answer ≡ say.Wait → result ≡ Ok say.Wait }
        ensures err { OnErr result (self.new ≡ self.old) }
    {
        let Plan { answer, change } = self.plan(alloc, who, payload)?;
        self.enact(alloc, change)?;
        Ok(answer)
    }
}
