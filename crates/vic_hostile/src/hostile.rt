//! The servers that misbehave by themselves.

ghost use Rattle.std.specs.Prelude.{◌≡◌, ◌≤◌, IfOk, OnErr};
ghost use Rattle.vic_wire.specs.Messages.{HasSpelling, answer_text};
ghost use Rattle.vic_order.specs.Order.{serve};
ghost use Rattle.vic_order.specs.Next.{next_op};
ghost use Rattle.vic_server.specs.Changes.{IsPossible, server_after, makes_change};
ghost use Rattle.vic_attacks.specs.Hostile.{hostile_from, number, with_count, answer_as_is, with_swap, with_empty_part, with_part_of, by_going, by_going_beside_kept, by_kept, told_to, by_late_request, by_early_request, by_kind};
ghost use Rattle.vic_hostile.specs.Served.{IsServed, server_in};

use crate::changed::{with_empty_part, with_part_of, with_swap, without_last};
use crate::places::Places;
use std::alloc::Global;
use std::marker::Model;
use vic_attacks::HostileKind;
use vic_dict::{Bytes, NoMemory};
use vic_frames::encode_answer;
use vic_server::{Effect, Plan, Serve, Served};
use vic_trie::Trie;
use vic_wire::ToClient;

/// The count of requests stops here. It is above twice the most requests that can be early.
const MOST_COUNTED: u32 = 2_000_001;

/// A server that misbehaves once it has served so many requests. It keeps what its kind needs, from the first request on that needs it: a
/// second server, a dictionary, or an answer for each client.
#[derive(Debug, Drop)]
pub struct Hostile {
    /// How it misbehaves.
    kind: HostileKind,
    /// How many requests it serves by the rule before.
    after: u32,
    /// How many requests have come, up to a bound.
    count: u32,
    /// The server that goes on from the first request.
    going: Served,
    /// A copy as it stood after the first requests, for rollback and fork.
    kept: Option<Served>,
    /// The dictionary that was sealed then, for stale.
    past: Option<Trie>,
    /// What each client was told last, for replay.
    told: Option<Places>,
}

impl Model for Hostile {
    ghost use Rattle.std.specs.Prelude.{◌≤◌};
    ghost use Rattle.std.specs.Coded.{codes};
    ghost use Rattle.vic_server.specs.Keeping.{dictionary_code};
    ghost use Rattle.vic_attacks.specs.Hostile.{Hostile};

    ghost Value = { Hostile };

    ghost coded = { Prim.hlevel (codes, dictionary_code) };

    ghost use Rattle.vic_hostile.specs.Served.{server_in, places_in};

    ghost view = { λ a. record { kind = a.kind; after = a.after; count = a.count; going = a.going.server; kept = server_in a.kept; past = a.past; told = places_in a.told } };

    ghost invariant = { λ a. (a.after ≤ 1000000) × (a.count ≤ 2000001) };
}

impl Hostile {
    /// A server that misbehaves in this way once it has served so many requests. It takes no memory.
    pub fn new(kind: HostileKind, after: u32, served: Served) -> Hostile
        requires { after ≤ 1000000 }
        ensures { result ≡ hostile_from kind after served.server }
    {
        Hostile {
            kind,
            after,
            count: 0,
            going: served,
            kept: None,
            past: None,
            told: None,
        }
    }

    // The number of the request that comes next.
    fn number(&self) -> u32
        ensures is { result ≡ number self.now }
        ensures most { result ≤ 2000001 }
    {
        (self.count + 1).min(MOST_COUNTED)
    }

    // ---- by the server that goes on

    // It serves, and its answer stays.
    fn by_going(
        &mut self,
        alloc: Global,
        seat: u32,
        who: u8,
        payload: &[u8],
    ) -> Result<Bytes, NoMemory>
        ensures ok { IfOk result (λ b. IsServed (by_going answer_as_is self.old who payload.now) b self.new) }
        ensures err { OnErr result (self.new ≡ self.old) }
    {
        let number = self.number();
        let bytes = self.going.serve(alloc, seat, who, payload)?;
        self.count = number;
        Ok(bytes)
    }

    // It makes the change that it planned, and another answer than its own goes out.
    fn answer_with(
        &mut self,
        alloc: Global,
        seat: u32,
        who: u8,
        payload: &[u8],
        answer: ToClient,
        change: Effect,
    ) -> Result<Bytes, NoMemory>
        requires spelled { HasSpelling answer }
        requires possible { IsPossible self.old.going change }
        requires next { server_after self.old.going change ≡ (serve self.old.going who payload.now).next }
        requires makes { makes_change change ≡ (serve self.old.going who payload.now).change }
        ensures answer { IfOk result (λ b. b ≡ answer_text answer) }
        ensures ok { IfOk result (λ _. self.new ≡ record (with_count self.old) { going = (serve self.old.going who payload.now).next }) }
        ensures err { OnErr result (self.new ≡ self.old) }
    {
        let number = self.number();
        let bytes = encode_answer(alloc, &answer)?;
        self.going.keep(alloc, seat, who, payload, change)?;
        self.count = number;
        Ok(bytes)
    }

    fn swapping(
        &mut self,
        alloc: Global,
        seat: u32,
        who: u8,
        payload: &[u8],
    ) -> Result<Bytes, NoMemory>
        ensures ok { IfOk result (λ b. IsServed (by_going with_swap self.old who payload.now) b self.new) }
        ensures err { OnErr result (self.new ≡ self.old) }
    {
        let Plan { answer, change } = self.going.plan(alloc, who, payload)?;
        let answer = with_swap(alloc, answer)?;
        self.answer_with(alloc, seat, who, payload, answer, change)
    }

    fn emptying_parts(
        &mut self,
        alloc: Global,
        seat: u32,
        who: u8,
        payload: &[u8],
    ) -> Result<Bytes, NoMemory>
        ensures ok { IfOk result (λ b. IsServed (by_going with_empty_part self.old who payload.now) b self.new) }
        ensures err { OnErr result (self.new ≡ self.old) }
    {
        let Plan { answer, change } = self.going.plan(alloc, who, payload)?;
        let answer = with_empty_part(alloc, answer)?;
        self.answer_with(alloc, seat, who, payload, answer, change)
    }

    // The answer lacks its last byte.
    fn truncating(
        &mut self,
        alloc: Global,
        seat: u32,
        who: u8,
        payload: &[u8],
    ) -> Result<Bytes, NoMemory>
        ensures ok { IfOk result (λ b. IsServed (by_late_request HostileKind.Truncate self.old who payload.now) b self.new) }
        ensures err { OnErr result (self.new ≡ self.old) }
    {
        let number = self.number();
        let Plan { answer, change } = self.going.plan(alloc, who, payload)?;
        let whole = encode_answer(alloc, &answer)?;
        let bytes = without_last(alloc, &whole)?;
        self.going.keep(alloc, seat, who, payload, change)?;
        self.count = number;
        Ok(bytes)
    }

    // ---- by parts of a past dictionary

    fn ageing(
        &mut self,
        alloc: Global,
        seat: u32,
        who: u8,
        payload: &[u8],
    ) -> Result<Bytes, NoMemory>
        ensures ok { IfOk result (λ b. IsServed (by_late_request HostileKind.Stale self.old who payload.now) b self.new) }
        ensures err { OnErr result (self.new ≡ self.old) }
    {
        let Plan { answer, change } = self.going.plan(alloc, who, payload)?;
        match &self.past {
            Some(past) => {
                let answer = aged(alloc, &self.going, past, answer, &change)?;
                self.answer_with(alloc, seat, who, payload, answer, change)
            }
            None => {
                let past = self.going.dict().copy()?;
                let answer = aged(alloc, &self.going, &past, answer, &change)?;
                let bytes = self.answer_with(alloc, seat, who, payload, answer, change)?;
                self.past = Some(past);
                Ok(bytes)
            }
        }
    }

    // ---- by two servers

    // The one that goes on serves, and the other stays, or begins as it was before.
    fn by_going_beside_kept(
        &mut self,
        alloc: Global,
        seat: u32,
        who: u8,
        payload: &[u8],
    ) -> Result<Bytes, NoMemory>
        ensures ok { IfOk result (λ b. IsServed (by_going_beside_kept self.old who payload.now) b self.new) }
        ensures err { OnErr result (self.new ≡ self.old) }
    {
        match &self.kept {
            Some(_) => self.by_going(alloc, seat, who, payload),
            None => {
                let kept = self.going.copy(alloc)?;
                let bytes = self.by_going(alloc, seat, who, payload)?;
                self.kept = Some(kept);
                Ok(bytes)
            }
        }
    }

    // The other serves.
    fn by_kept(
        &mut self,
        alloc: Global,
        seat: u32,
        who: u8,
        payload: &[u8],
    ) -> Result<Bytes, NoMemory>
        ensures ok { IfOk result (λ b. IsServed (by_kept self.old who payload.now) b self.new) }
        ensures err { OnErr result (self.new ≡ self.old) }
    {
        let number = self.number();
        match &mut self.kept {
            Some(kept) => {
                let bytes = kept.serve(alloc, seat, who, payload)?;
                self.count = number;
                Ok(bytes)
            }
            None => {
                let mut kept = self.going.copy(alloc)?;
                let bytes = kept.serve(alloc, seat, who, payload)?;
                self.kept = Some(kept);
                self.count = number;
                Ok(bytes)
            }
        }
    }

    fn rolling_back(
        &mut self,
        alloc: Global,
        seat: u32,
        who: u8,
        payload: &[u8],
    ) -> Result<Bytes, NoMemory>
        ensures ok { IfOk result (λ b. IsServed (by_late_request HostileKind.Rollback self.old who payload.now) b self.new) }
        ensures err { OnErr result (self.new ≡ self.old) }
    {
        if self.number() <= 2 * self.after {
            self.by_going_beside_kept(alloc, seat, who, payload)
        } else {
            self.by_kept(alloc, seat, who, payload)
        }
    }

    fn forking(
        &mut self,
        alloc: Global,
        seat: u32,
        who: u8,
        payload: &[u8],
    ) -> Result<Bytes, NoMemory>
        ensures ok { IfOk result (λ b. IsServed (by_late_request HostileKind.Fork self.old who payload.now) b self.new) }
        ensures err { OnErr result (self.new ≡ self.old) }
    {
        if who % 2 == 1 {
            self.by_going_beside_kept(alloc, seat, who, payload)
        } else {
            self.by_kept(alloc, seat, who, payload)
        }
    }

    // ---- by answers of before

    // What a client was answered last, in memory of its own.
    fn told_to(&self, alloc: Global, who: u8) -> Result<Option<Bytes>, NoMemory>
        ensures { IfOk result (λ o. o ≡ told_to self.now.told who) }
    {
        let Some(told) = &self.told else {
            return Ok(None);
        };
        match told.answer(who) {
            Some(bytes) => Ok(Some(bytes.copy(alloc)?)),
            None => Ok(None),
        }
    }

    fn replaying(
        &mut self,
        alloc: Global,
        seat: u32,
        who: u8,
        payload: &[u8],
    ) -> Result<Bytes, NoMemory>
        ensures ok { IfOk result (λ b. IsServed (by_late_request HostileKind.Replay self.old who payload.now) b self.new) }
        ensures err { OnErr result (self.new ≡ self.old) }
    {
        match self.told_to(alloc, who)? {
            Some(bytes) => {
                self.count = self.number();
                Ok(bytes)
            }
            None => self.by_going(alloc, seat, who, payload),
        }
    }

    // One of the early requests, of which the answer is to be given again.
    fn telling(
        &mut self,
        alloc: Global,
        seat: u32,
        who: u8,
        payload: &[u8],
    ) -> Result<Bytes, NoMemory>
        requires { self.old.kind ≡ HostileKind.Replay }
        ensures ok { IfOk result (λ b. IsServed (by_early_request self.old who payload.now) b self.new) }
        ensures err { OnErr result (self.new ≡ self.old) }
    {
        let number = self.number();
        let Plan { answer, change } = self.going.plan(alloc, who, payload)?;
        let bytes = encode_answer(alloc, &answer)?;
        let again = bytes.copy(alloc)?;
        match &mut self.told {
            Some(told) => {
                self.going.keep(alloc, seat, who, payload, change)?;
                told.set(who, again);
            }
            None => {
                let mut told = Places::new(alloc)?;
                self.going.keep(alloc, seat, who, payload, change)?;
                told.set(who, again);
                self.told = Some(told);
            }
        }
        self.count = number;
        Ok(bytes)
    }

    // ---- by the kind

    fn late(&mut self, alloc: Global, seat: u32, who: u8, payload: &[u8]) -> Result<Bytes, NoMemory>
        ensures ok { IfOk result (λ b. IsServed (by_late_request self.old.kind self.old who payload.now) b self.new) }
        ensures err { OnErr result (self.new ≡ self.old) }
    {
        match self.kind {
            HostileKind::Honest => self.by_going(alloc, seat, who, payload),
            HostileKind::Rollback => self.rolling_back(alloc, seat, who, payload),
            HostileKind::Fork => self.forking(alloc, seat, who, payload),
            HostileKind::Replay => self.replaying(alloc, seat, who, payload),
            HostileKind::Swap => self.swapping(alloc, seat, who, payload),
            HostileKind::BadProof => self.emptying_parts(alloc, seat, who, payload),
            HostileKind::Stale => self.ageing(alloc, seat, who, payload),
            HostileKind::Truncate => self.truncating(alloc, seat, who, payload),
        }
    }

    fn early(
        &mut self,
        alloc: Global,
        seat: u32,
        who: u8,
        payload: &[u8],
    ) -> Result<Bytes, NoMemory>
        ensures ok { IfOk result (λ b. IsServed (by_early_request self.old who payload.now) b self.new) }
        ensures err { OnErr result (self.new ≡ self.old) }
    {
        match self.kind {
            HostileKind::Replay => self.telling(alloc, seat, who, payload),
            _ => self.by_going(alloc, seat, who, payload),
        }
    }
}

/// The answer with the part of a past dictionary, where the server is about to make a change.
fn aged(
    alloc: Global,
    going: &Served,
    past: &Trie,
    answer: ToClient,
    change: &Effect,
) -> Result<ToClient, NoMemory>
    requires { HasSpelling answer }
    ensures is { IfOk result (λ a. a ≡ with_part_of past.now (next_op (server_after going.now.server change.now)) answer) }
    ensures spelled { IfOk result (λ a. HasSpelling a) }
{
    let next = going.sealed_after(change) + 1;
    with_part_of(alloc, past, going.op_above(change, next), answer)
}

impl Serve for Hostile {
    type State = Hostile;

    ghost state = { λ s. s };

    ghost rule = { by_kind };

    /// One request, counted; by the rule, or as the kind has it.
    fn serve(
        &mut self,
        alloc: Global,
        seat: u32,
        who: u8,
        payload: &[u8],
    ) -> Result<Bytes, NoMemory> {
        if self.after < self.number() {
            self.late(alloc, seat, who, payload)
        } else {
            self.early(alloc, seat, who, payload)
        }
    }

    /// A copy of all that is kept, with its count. It costs the state of each server within.
    fn copy(&self, alloc: Global) -> Result<Hostile, NoMemory> {
        let going = self.going.copy(alloc)?;
        let kept = copied_server(alloc, &self.kept)?;
        let past = copied_dictionary(&self.past)?;
        let told = copied_places(alloc, &self.told)?;
        Ok(Hostile {
            kind: self.kind,
            after: self.after,
            count: self.count,
            going,
            kept,
            past,
            told,
        })
    }
}

fn copied_server(alloc: Global, kept: &Option<Served>) -> Result<Option<Served>, NoMemory>
    ensures { IfOk result (λ made. server_in made ≡ server_in kept.now) }
{
    match kept {
        Some(server) => Ok(Some(server.copy(alloc)?)),
        None => Ok(None),
    }
}

fn copied_dictionary(past: &Option<Trie>) -> Result<Option<Trie>, NoMemory>
    ensures { IfOk result (λ made. made ≡ past.now) }
{
    match past {
        Some(dictionary) => Ok(Some(dictionary.copy()?)),
        None => Ok(None),
    }
}

fn copied_places(alloc: Global, told: &Option<Places>) -> Result<Option<Places>, NoMemory>
    ensures { IfOk result (λ made. made ≡ told.now) }
{
    match told {
        Some(places) => Ok(Some(places.copy(alloc)?)),
        None => Ok(None),
    }
}
