//! The turn lock.
ghost use Rattle.std.specs.Prelude.{◌≡◌, ◌+◌, ◌%◌, ◌^◌, ◌<◌, ◌≤◌, [], ◌∷◌, ◌++◌, length, None, Some, List, ◌≢◌, IfOk, OnErr, All, map, vec_capacity};
ghost use Rattle.std.specs.List.{range_with_len};
ghost use mathlib.Core.List.{IsPrefix};
ghost use Rattle.vic_dict.specs.declared.limits.TheConstants.{MOST_CLIENTS};
ghost use Rattle.vic_change.specs.Changes.{of_seat};
ghost use Rattle.vic_turn.specs.Changes.{Each};
ghost use Rattle.vic_change.specs.declared.Change.{Change};
ghost use Rattle.vic_turn.specs.Told.{IsLonger, maker_at, with_ticket, turn_over, TurnCame};
ghost use Rattle.vic_turn.specs.Passes.{IsFresh, IsPassOf, IsNoteOf, Waits, Applied, Hands, Answers, Refuses};

use crate::pass::{Note, Pass};
use crate::passes::Passes;
use crate::recorded::Recorded;
use crate::rule::{About, Come, Deal, Draw, Gather, HandOn, Look, Meet, TakeNote, Turns};
use crate::view::View;
use atomic_table::{Refused, Seat, Table};
use std::alloc::Global;
use std::marker::Model;
use std::snapshot::Snapshot;
use std::sync::Wait;
use vic_dict::NoMemory;

const TICKET: usize = 0;

const SERVING: usize = 1;

/// A value that keeps its history, for several passes that take turns. Contracts see which lock it is, the value's fixed part and
/// the number of passes.
#[derive(Drop)]
pub struct TurnLock<V: Recorded> {
    /// Two words, tickets drawn and turns ended, and one slot for the value.
    table: Table<V, View<V::Fixed>, About<V>, Turns, Global>,
}

impl<V: Recorded> Model for TurnLock<V> {
    ghost use Rattle.std.specs.Prelude.{◌≡◌};
    ghost use Rattle.vic_turn.specs.Passes.{LockView, lock_code};

    ghost Value = { LockView V.Fixed };

    ghost coded = { lock_code V.Fixed.code };

    ghost view = { λ l. record { id = l.table.shared.table_id; fixed = V.fixed l.table.shared.key.value.value; count = l.table.shared.key.count } };

    ghost invariant = { λ l. (l.table.shared.table_id.words ≡ 2) × (l.table.shared.table_id.slots ≡ 1) };
}

impl<V: Recorded> TurnLock<V> {
    fn draw(&self, seat: &mut Seat<V, View<V::Fixed>>) -> u64
        requires own { seat.old.table_id ≡ self.now.id }
        requires idle { (seat.old.me.0.ticket ≡ None) × (seat.old.me.0.known ≡ None) × (0 < length seat.old.me.0.held) }
        ensures own { (seat.new.table_id ≡ seat.old.table_id) × (seat.new.id ≡ seat.old.id) }
        ensures ticket { (t : _) × (seat.new.me ≡ (with_ticket seat.old.me.0 t, seat.old.me.1)) × (result ≡ t % 2 ^ 64) }
    {
        self.table.shared.fetch_add::<Draw>(seat, TICKET, 1)
    }

    // The word that is served. The turn has come where it is the ticket's.
    fn look(&self, seat: &mut Seat<V, View<V::Fixed>>, ticket: u64) -> u64
        requires own { seat.old.table_id ≡ self.now.id }
        requires waits { (t : _) × Waits t ticket seat.old.me }
        ensures own { (seat.new.table_id ≡ seat.old.table_id) × (seat.new.id ≡ seat.old.id) }
        ensures came { result ≡ ticket → TurnCame V.fixed V.changes seat.old.me seat.new.me }
        ensures not_yet { result ≢ ticket → seat.new.me ≡ seat.old.me }
    {
        self.table.shared.load::<Look>(seat, SERVING)
    }

    fn wait<R: Wait>(&self, rt: &R, seat: &mut Seat<V, View<V::Fixed>>, ticket: u64)
        requires own { seat.old.table_id ≡ self.now.id }
        requires waits { (t : _) × Waits t ticket seat.old.me }
        ensures own { (seat.new.table_id ≡ seat.old.table_id) × (seat.new.id ≡ seat.old.id) }
        ensures turn { TurnCame V.fixed V.changes seat.old.me seat.new.me }
    {
        for _ in rt.forever() {
            let served = self.look(seat, ticket);
            if served == ticket {
                return;
            }
            self.table
                .shared
                .park(rt, SERVING, (served & 0xffff_ffff) as u32);
        }
        unreachable!()
    }

    // The value's step, while the value is out.
    fn apply(
        &self,
        alloc: Global,
        seat: &mut Seat<V, View<V::Fixed>>,
        number: u32,
        who: u8,
        payload: &[u8],
    ) -> Result<V::Reply, NoMemory>
        requires own { seat.old.table_id ≡ self.now.id }
        requires out { (y : V) × (seat.old.me.1 ≡ (0, y) ∷ []) }
        ensures own { (seat.new.table_id ≡ seat.old.table_id) × (seat.new.id ≡ seat.old.id) × (seat.new.me.0 ≡ seat.old.me.0) }
        ensures fits { IfOk result V.fits }
        ensures step { (y : V) × (z : V) × (seat.old.me.1 ≡ (0, y) ∷ []) × (seat.new.me.1 ≡ (0, z) ∷ []) × Applied V.fixed V.changes V.replies V.records number who payload.now y result z }
    {
        let value = seat.slot_mut(&self.table.shared, 0);
        value.apply(alloc, number, who, payload)
    }

    // Hands the value on, with the changes d behind those that were known.
    fn hand_on(&self, seat: &mut Seat<V, View<V::Fixed>>)
        requires own { seat.old.table_id ≡ self.now.id }
        requires out { Hands V.fixed V.changes self.now.fixed seat.old.me }
        ensures own { (seat.new.table_id ≡ seat.old.table_id) × (seat.new.id ≡ seat.old.id) }
        ensures over { (y : V) (k d : List Change) → seat.old.me.1 ≡ (0, y) ∷ [] → seat.old.me.0.known ≡ Some k → V.changes y ≡ k ++ d → seat.new.me ≡ (turn_over seat.old.me.0 (V.changes y) d, []) }
    {
        let served = self.table.shared.fetch_add::<HandOn>(seat, SERVING, 1);
        self.wake(served);
    }

    // Wakes those who wait, if any may, once the word that is served is one more than `served`. The tickets are read only then: who
    // draws one later sees the new word, so it never sleeps on the old one.
    fn wake(&self, served: u64) {
        let drawn = self.table.shared.peek(TICKET);
        if drawn != served.wrapping_add(1) {
            self.table.shared.wake_all(SERVING);
        }
    }

    /// A step of the value, in its turn: it waits until those that came before have handed the value on. The lock itself takes no
    /// memory for that; `alloc` is for the value's own step. After `NoMemory` no change was made.
    pub fn step_as<R: Wait>(
        &self,
        rt: &R,
        alloc: Global,
        pass: &mut Pass<V>,
        who: u8,
        payload: &[u8],
    ) -> Result<V::Reply, NoMemory>
        requires { IsPassOf self.now pass.old }
        ensures own { IsPassOf self.now pass.new × (pass.new.number ≡ pass.old.number) }
        ensures done { IfOk result (Answers V.replies V.records self.now.fixed pass.old who payload.now pass.new) }
        ensures fits { IfOk result V.fits }
        ensures refused { OnErr result (Refuses pass.old pass.new) }
    {
        let number = pass.number;
        let ticket = self.draw(&mut pass.seat);
        self.wait(rt, &mut pass.seat, ticket);
        let reply = self.apply(alloc, &mut pass.seat, number, who, payload);
        self.hand_on(&mut pass.seat);
        reply
    }

    /// A copy of what the pass has seen, to be handed to the holder of another pass. It takes no memory and doesn't wait.
    pub fn note(&self, pass: &mut Pass<V>) -> Note<V>
        requires { IsPassOf self.now pass.old }
        ensures own { IsPassOf self.now pass.new × (pass.new.number ≡ pass.old.number) }
        ensures same { (pass.new.seen ≡ pass.old.seen) × (pass.new.mine ≡ pass.old.mine) }
        ensures note { IsNoteOf self.now result × (result.seen ≡ pass.old.seen) }
    {
        let seat = self.table.shared.split_seat::<TakeNote>(&mut pass.seat);
        Note { seat }
    }

    /// Of what the two had seen one begins the other, and the pass has then seen the longer. It takes no memory and doesn't wait.
    pub fn meet(&self, pass: &mut Pass<V>, note: Note<V>)
        requires pass { IsPassOf self.now pass.old }
        requires note { IsNoteOf self.now note }
        ensures own { IsPassOf self.now pass.new × (pass.new.number ≡ pass.old.number) }
        ensures mine { pass.new.mine ≡ pass.old.mine }
        ensures met { IsLonger pass.old.seen note.seen pass.new.seen }
    {
        let Note { seat } = note;
        self.table.shared.join_seat::<Gather>(&mut pass.seat, seat);
        self.table.shared.load::<Meet>(&mut pass.seat, SERVING);
    }

    // Makes the pass behind those that were made.
    fn deal(&self, maker: &mut Seat<V, View<V::Fixed>>, made: u32) -> Pass<V>
        requires own { maker.old.table_id ≡ self.now.id }
        requires maker { maker.old.me ≡ (maker_at self.now.fixed made, []) }
        requires room { (made < self.now.count) × (self.now.count ≤ MOST_CLIENTS) }
        ensures own { maker.new.table_id ≡ maker.old.table_id }
        ensures maker { maker.new.me ≡ (maker_at self.now.fixed (made + 1), []) }
        ensures number { result.number ≡ made + 1 }
        ensures pass { IsFresh self.now result }
    {
        let seat = self.table.shared.split_seat::<Deal>(maker);
        Pass {
            number: made + 1,
            seat,
        }
    }

    fn deal_all(
        &self,
        mut maker: Seat<V, View<V::Fixed>>,
        mut passes: Vec<Pass<V>>,
        count: u32,
    ) -> Vec<Pass<V>>
        requires own { maker.table_id ≡ self.now.id }
        requires maker { maker.me ≡ (maker_at self.now.fixed 0, []) }
        requires room { (count ≡ self.now.count) × (count ≤ MOST_CLIENTS) × (count ≤ vec_capacity passes) × (passes.items ≡ []) }
        ensures numbers { map (λ p. p.number) result.items ≡ range_with_len 1 count }
        ensures passes { All (IsFresh self.now) result.items }
    {
        for made in 0..count {
            passes.push_reserved(self.deal(&mut maker, made));
        }
        passes
    }

    // One seat that stands for all these passes.
    fn gather(&self, passes: Passes<V>) -> Seat<V, View<V::Fixed>>
        requires { All (λ p. p.lock ≡ self.now.id) passes }
        ensures own { result.table_id ≡ self.now.id }
        ensures idle { result.me.0.ticket ≡ None }
        ensures all { (result.me.0.held ≡ map (λ p. (p.number, p.mine)) passes) × (result.me.0.told ≡ map (λ p. p.seen) passes) }
    {
        let (_, mut all) = self.table.shared.load_new_seat::<Come>(SERVING);
        for pass in passes.into_vec() {
            let Pass { number: _, seat } = pass;
            self.table.shared.join_seat::<Gather>(&mut all, seat);
        }
        all
    }

    /// The value, once all passes have come back: in its one history the changes with a pass's number are those that the pass made,
    /// each once, in order, and what each pass has seen begins it. It takes no memory.
    pub fn close(self, passes: Passes<V>) -> V
        requires count { length passes ≡ self.count }
        requires own { All (λ p. p.lock ≡ self.id) passes }
        ensures fixed { V.fixed result ≡ self.fixed }
        ensures passes { All (λ p. (of_seat p.number (V.changes result) ≡ p.mine) × IsPrefix p.seen (V.changes result)) passes }
        ensures seats { Each (λ c. (0 < c.seat) × (c.seat ≤ self.count)) (V.changes result) }
    {
        let all = self.gather(passes);
        let TurnLock { table } = self;
        let mut closed = table.close_with(all);
        let value = closed.take(0);
        closed.free();
        value
    }
}

impl<V: Recorded + Drop> TurnLock<V> {
    /// A lock over a value whose list of changes is empty, and so many passes, with the numbers from 1 on. It takes memory for the
    /// passes and for a table of two words and one slot; after `NoMemory` the value is gone.
    pub fn new(alloc: Global, value: V, count: u32) -> Result<(TurnLock<V>, Passes<V>), NoMemory>
        requires empty { V.changes value ≡ [] }
        requires count { (0 < count) × (count ≤ MOST_CLIENTS) }
        ensures lock { IfOk result (λ r. (r.0.fixed ≡ V.fixed value) × (r.0.count ≡ count)) }
        ensures numbers { IfOk result (λ r. map (λ p. p.number) r.1 ≡ range_with_len 1 count) }
        ensures passes { IfOk result (λ r. All (IsFresh r.0) r.1) }
    {
        let Ok(passes) = Vec::with_capacity(alloc, count as usize) else {
            return Err(NoMemory);
        };
        let Ok(mut slots) = Vec::with_capacity(alloc, 1) else {
            return Err(NoMemory);
        };
        let about = About {
            value: Snapshot::of(&value),
            count,
        };
        slots.push_reserved(value);
        match Table::new(alloc, &[0, 0], slots, &about) {
            Ok((table, maker)) => {
                let lock = TurnLock { table };
                let passes = lock.deal_all(maker, passes, count);
                Ok((lock, Passes::of(passes)))
            }
            Err(Refused { slots: _ }) => Err(NoMemory),
        }
    }
}
