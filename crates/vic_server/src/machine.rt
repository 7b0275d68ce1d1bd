//! What the server keeps, and how it is read and changed.

ghost use Rattle.std.specs.Prelude.{◌≡◌, ℕ, ◌&&◌, not, nat_le, List, ◌<◌, ◌≤◌, ◌+◌, ◌-◌, ◌^◌, ◌∷◌, false, length, vec_len, Ok, Some, None, is_some, IfSome, IfOk, OnOk, OnErr, IsTrue, option_copied, replicate, if◌then◌else◌};
ghost use Rattle.std.specs.Prelude.{map as map_list};
ghost use Rattle.std.specs.Option.{option_map};
ghost use Rattle.std.specs.List.{AllByRecursion, sum_by};
ghost use Rattle.std.specs.FinMap as map;
ghost use Rattle.vic_dict.specs.declared.limits.TheConstants.{LONGEST_CONTENT, MOST_CLIENTS, MOST_CONTENTS, MOST_CONTENT_BYTES, MOST_ENTRIES, MOST_WEIGHT};
ghost use Rattle.vic_dict.specs.Lists.{front};
ghost use Rattle.vic_dict.specs.Dictionary.{Fits, after};
ghost use Rattle.vic_wire.specs.Messages.{IsSeal, IsTagged, HasSpelling};
ghost use Rattle.vic_wire.specs.declared.message.ToClient.TheVariants as say;
ghost use Rattle.vic_wire.specs.Parts.{part_for};
ghost use Rattle.vic_rules.specs.Client.{is_write as writes};
ghost use Rattle.vic_order.specs.Order.{fresh_server, away_member, ready_member, member, set_member, size, sealed_count, no_seal, seal_at_position, ordered_at, commit_at, tagged_entry, entries_above, op_weight, weight, update_part, with_commit, with_seal, owns_committed, turn, is_kept, content_with};
ghost use Rattle.vic_rules.specs.Objects.{content_hash};
ghost use Rattle.vic_blob.specs.Keeping.{kept_under, IsRoom};
ghost use Rattle.vic_bounds.specs.Bounds.{HasShortPart};
ghost use Rattle.vic_server.specs.Keeping.{IsWithin, status_in, pairs_weight, turn_from};

use crate::rows::{Commit, Row, SealRow, Seat};
use std::alloc::Global;
use std::marker::Model;
use vic_blob::Blobs;
use vic_dict::{Bytes, Mode, NoMemory, Op};
use vic_order::Stage;
use vic_proof::{bare_bytes, cut_bytes};
use vic_trie::Trie;
use vic_wire::{Digest32, Seal, TaggedList, ToClient};

/// The most bytes that the part of an answer can have. The pairs weigh at most 8,388,608, which counts the bytes of their leaves and inner
/// nodes; a stub and an inner node for each of 2,296 levels, 36 bytes, and a form byte come on top.
pub const LONGEST_PART: usize = 8_471_265;

/// A server of a group: its log, commits and seals, the sealed dictionary, the contents that it keeps, and where each client stands.
#[derive(Debug, Drop)]
pub struct Machine {
    /// Whether the group has objects.
    mode: Mode,
    /// The log: the entry of position 1 stands first.
    rows: Vec<Row>,
    /// All commits, the oldest first.
    commits: Vec<Commit>,
    /// By position, how the entry there was committed; at least as long as the log.
    statuses: Vec<Option<bool>>,
    /// The seals of positions 1, 2 and so on.
    seals: Vec<SealRow>,
    /// What the done calls up to the last seal leave.
    dictionary: Trie,
    /// The contents, under their hashes; empty without objects.
    blobs: Blobs,
    /// Where the clients 1, 2 and so on stand.
    members: Vec<Seat>,
    /// Of the sealed pairs and the unsealed puts.
    weight: u64,
}

impl Model for Machine {
    ghost use Rattle.std.specs.Prelude.{reverse};
    ghost use Rattle.vic_order.specs.Order.{Server};
    ghost use Rattle.std.specs.Coded.{codes};
    ghost use Rattle.vic_server.specs.Keeping.{IsSound, dictionary_code};

    ghost Value = { Server };

    ghost coded = { Prim.hlevel (codes, dictionary_code) };

    ghost view = { λ a. record { mode = a.mode; log = reverse a.rows.items; commits = reverse a.commits.items; seals = reverse a.seals.items; dictionary = a.dictionary; contents = a.blobs; members = a.members.items } };

    ghost invariant = { λ a. IsSound a.rows.items a.commits.items a.statuses.items a.seals.items a.dictionary a.members.items a.weight };
}

// ---- parts of what is kept

/// The seal below all positions.
fn first_seal() -> Seal
    ensures is { result ≡ no_seal }
    ensures spelled { IsSeal result }
{
    Seal {
        position: 0,
        root: vic_hash::empty(),
        tag: Digest32 { bytes: [0; 32] },
    }
}

fn copies(alloc: Global, rows: &[Row]) -> Result<TaggedList, NoMemory>
    ensures is { IfOk result (λ ts. ts ≡ map_list tagged_entry rows.now) }
    ensures spelled { IfOk result (λ ts. AllByRecursion IsTagged ts) }
{
    let mut items = TaggedList::new(alloc);
    for row in rows {
        let item = row.tagged(alloc)?;
        items.push(item)?;
    }
    Ok(items)
}

pub(crate) fn is_write(op: &Op) -> bool
    ensures { result ≡ writes op.now }
{
    matches!(op, Op::Put(_, _) | Op::Del(_))
}

/// The part that an Update carries.
fn part_of_update(alloc: Global, dictionary: &Trie, op: &Op, done: bool) -> Result<Bytes, NoMemory>
    requires fits { Fits op.now }
    requires light { pairs_weight dictionary.now ≤ MOST_WEIGHT }
    ensures is { IfOk result (λ b. b ≡ update_part dictionary.now op.now done) }
    ensures short { IfOk result (λ b. length b ≤ LONGEST_PART) }
{
    if done && is_write(op) {
        return cut_bytes(alloc, dictionary, op);
    }
    bare_bytes(alloc, dictionary)
}

/// The turn, from the seal below it, the sealed dictionary, and the first entry that isn't sealed with its commit.
fn turn_of(
    alloc: Global,
    seal: Seal,
    dictionary: &Trie,
    who: u8,
    row: Option<&Row>,
    status: Option<bool>,
) -> Result<ToClient, NoMemory>
    requires light { pairs_weight dictionary.now ≤ MOST_WEIGHT }
    requires seal { IsSeal seal }
    ensures is { IfOk result (λ a. a ≡ turn_from seal dictionary.now who (option_copied row.entry) status) }
    ensures spelled { IfOk result (λ a. HasSpelling a) }
    ensures short { IfOk result (λ a. HasShortPart a) }
    ensures waits { turn_from seal dictionary.now who (option_copied row.entry) status ≡ say.Wait → result ≡ Ok say.Wait }
{
    match (row, status) {
        (Some(row), Some(done)) if row.client() == who => {
            let part = part_of_update(alloc, dictionary, row.op(), done)?;
            Ok(ToClient::Update { seal, part })
        }
        _ => Ok(ToClient::Wait),
    }
}

/// The turn over a seal, once the entry of its position is applied where it was done. The dictionary is changed for that and changed
/// back, which costs the way to the entry's key; changing it back takes no memory.
fn turn_over(
    alloc: Global,
    seal: Seal,
    dictionary: &mut Trie,
    op: &Op,
    done: bool,
    who: u8,
    row: &Row,
    status: bool,
) -> Result<ToClient, NoMemory>
    requires fits { Fits op.now }
    requires light { pairs_weight dictionary.old + op_weight op.now ≤ MOST_WEIGHT }
    requires seal { IsSeal seal }
    ensures is { IfOk result (λ a. a ≡ turn_from seal (if done then after dictionary.old op.now else dictionary.old) who (Some row.now) (Some status)) }
    ensures spelled { IfOk result (λ a. HasSpelling a) }
    ensures short { IfOk result (λ a. HasShortPart a) }
    ensures same { dictionary.new ≡ dictionary.old }
{
    if !done {
        return turn_of(alloc, seal, dictionary, who, Some(row), Some(status));
    }
    let undo = dictionary.change(op)?;
    let turn = turn_of(alloc, seal, dictionary, who, Some(row), Some(status));
    dictionary.undo(undo);
    turn
}

/// Makes room in the index for one entry more than so many.
fn index_more(statuses: &mut Vec<Option<bool>>, count: usize) -> Result<(), NoMemory>
    requires { count ≤ vec_len statuses.old }
    ensures same { (place : ℕ) → status_in statuses.new.items place ≡ status_in statuses.old.items place }
    ensures kept { count ≤ vec_len statuses.new }
    ensures room { OnOk result (count < vec_len statuses.new) }
{
    if statuses.len() == count {
        statuses.push(None)?;
    }
    Ok(())
}

pub(crate) fn op_weight(op: &Op) -> u64
    requires { Fits op.now }
    ensures is { result ≡ op_weight op.now }
    ensures light { result < 400 }
{
    match op {
        Op::Put(key, value) => key.len() as u64 + value.len() as u64 + 16,
        _ => 0,
    }
}

/// Does a put or del.
fn change(dictionary: &mut Trie, op: &Op) -> Result<(), NoMemory>
    requires fits { Fits op.now }
    requires light { pairs_weight dictionary.old ≤ MOST_WEIGHT }
    ensures after { OnOk result (dictionary.new ≡ after dictionary.old op.now) }
    ensures weighs { OnOk result (pairs_weight dictionary.new ≤ pairs_weight dictionary.old + op_weight op.now) }
    ensures err { OnErr result (dictionary.new ≡ dictionary.old) }
{
    match op {
        Op::Put(key, value) => dictionary.put(key.as_slice(), value.as_slice()),
        Op::Del(key) => {
            let _ = dictionary.del(key.as_slice());
            Ok(())
        }
        _ => Ok(()),
    }
}

/// Applies an entry to the sealed dictionary where it was done, and tells what the weight loses by that.
fn apply(dictionary: &mut Trie, op: &Op, done: bool) -> Result<u64, NoMemory>
    requires fits { Fits op.now }
    requires light { pairs_weight dictionary.old ≤ MOST_WEIGHT }
    ensures after { OnOk result (dictionary.new ≡ (if done then after dictionary.old op.now else dictionary.old)) }
    ensures freed { IfOk result (λ n. pairs_weight dictionary.new + n ≡ pairs_weight dictionary.old + op_weight op.now) }
    ensures err { OnErr result (dictionary.new ≡ dictionary.old) }
{
    if !done {
        return Ok(op_weight(op));
    }
    let before = dictionary.weight();
    change(dictionary, op)?;
    Ok(before + op_weight(op) - dictionary.weight())
}

// ---- copies

fn copied_rows(alloc: Global, rows: &[Row]) -> Result<Vec<Row>, NoMemory>
    ensures { IfOk result (λ made. made.items ≡ rows.now) }
{
    let mut made = Vec::new(alloc);
    for row in rows {
        made.push(row.copy(alloc)?)?;
    }
    Ok(made)
}

fn copied_commits(alloc: Global, rows: &[Commit]) -> Result<Vec<Commit>, NoMemory>
    ensures { IfOk result (λ made. made.items ≡ rows.now) }
{
    let mut made = Vec::new(alloc);
    for row in rows {
        made.push(row.copy())?;
    }
    Ok(made)
}

fn copied_statuses(alloc: Global, rows: &[Option<bool>]) -> Result<Vec<Option<bool>>, NoMemory>
    ensures { IfOk result (λ made. made.items ≡ rows.now) }
{
    let mut made = Vec::new(alloc);
    for row in rows {
        made.push(*row)?;
    }
    Ok(made)
}

fn copied_seals(alloc: Global, rows: &[SealRow]) -> Result<Vec<SealRow>, NoMemory>
    ensures { IfOk result (λ made. made.items ≡ rows.now) }
{
    let mut made = Vec::new(alloc);
    for row in rows {
        made.push(SealRow::new(row.seal()))?;
    }
    Ok(made)
}

fn copied_seats(alloc: Global, rows: &[Seat]) -> Result<Vec<Seat>, NoMemory>
    ensures { IfOk result (λ made. made.items ≡ rows.now) }
{
    let mut made = Vec::new(alloc);
    for row in rows {
        made.push(Seat::new(row.last(), row.stage()))?;
    }
    Ok(made)
}

/// So many clients, all in one stage.
fn seats(alloc: Global, count: u8, stage: Stage) -> Result<Vec<Seat>, NoMemory>
    ensures { IfOk result (λ made. made.items ≡ replicate count (record { last = 0; stage = stage })) }
{
    let mut made = Vec::new(alloc);
    for _ in 0..count {
        made.push(Seat::new(0, stage))?;
    }
    Ok(made)
}

impl Machine {
    fn fresh(alloc: Global, mode: Mode, count: u8, stage: Stage) -> Result<Machine, NoMemory>
        requires count { (0 < count) × (count ≤ MOST_CLIENTS) }
        requires stage { IsWithin 0 stage }
        ensures { IfOk result (λ s. s ≡ fresh_server mode count (record { last = 0; stage = stage })) }
    {
        let members = seats(alloc, count, stage)?;
        Ok(Machine {
            mode,
            rows: Vec::new(alloc),
            commits: Vec::new(alloc),
            statuses: Vec::new(alloc),
            seals: Vec::new(alloc),
            dictionary: Trie::new(alloc),
            blobs: Blobs::new(alloc),
            members,
            weight: 0,
        })
    }

    /// A server of so many clients, of which none has come in.
    pub fn new(alloc: Global, mode: Mode, count: u8) -> Result<Machine, NoMemory>
        requires count { (0 < count) × (count ≤ MOST_CLIENTS) }
        ensures { IfOk result (λ s. s ≡ fresh_server mode count away_member) }
    {
        Machine::fresh(alloc, mode, count, Stage::Away)
    }

    /// A server of so many clients, all of which have come in.
    pub fn gathered(alloc: Global, mode: Mode, count: u8) -> Result<Machine, NoMemory>
        requires count { (0 < count) × (count ≤ MOST_CLIENTS) }
        ensures { IfOk result (λ s. s ≡ fresh_server mode count ready_member) }
    {
        Machine::fresh(alloc, mode, count, Stage::Ready)
    }

    /// How many entries were ordered.
    pub fn length(&self) -> u32
        ensures is { result ≡ size self.now }
        ensures room { result ≤ MOST_ENTRIES }
    {
        self.rows.len() as u32
    }

    /// How many of them are sealed.
    pub fn sealed(&self) -> u32
        ensures is { result ≡ sealed_count self.now }
        ensures within { result ≤ size self.now }
        ensures room { result ≤ MOST_ENTRIES }
    {
        self.seals.len() as u32
    }

    /// How many keys the sealed dictionary has.
    pub fn pairs(&self) -> u32
        ensures { result ≡ map.len self.now.dictionary }
    {
        self.dictionary.len()
    }

    pub(crate) fn dict(&self) -> &Trie
        ensures is { result.now ≡ self.now.dictionary }
        ensures light { pairs_weight result.now ≤ MOST_WEIGHT }
    {
        &self.dictionary
    }

    /// Whose the first entry is that isn't sealed, if there is one.
    pub fn owner_of_next(&self) -> Option<u8>
        ensures { result ≡ option_map (λ o. o.entry.client) (ordered_at self.now (sealed_count self.now + 1)) }
    {
        match self.row_at(self.sealed() + 1) {
            Some(row) => Some(row.client()),
            None => None,
        }
    }

    /// The bytes of the sealed pairs and of the puts that aren't sealed, with 16 more for each.
    pub fn weight(&self) -> u64
        ensures is { result ≡ weight self.now }
        ensures light { result ≤ MOST_WEIGHT }
    {
        self.weight
    }

    /// A copy of all that is kept.
    pub(crate) fn copied(&self, alloc: Global) -> Result<Machine, NoMemory>
        ensures { IfOk result (λ made. made ≡ self.now) }
    {
        let rows = copied_rows(alloc, &self.rows)?;
        let commits = copied_commits(alloc, &self.commits)?;
        let statuses = copied_statuses(alloc, &self.statuses)?;
        let seals = copied_seals(alloc, &self.seals)?;
        let dictionary = self.dictionary.copy()?;
        let blobs = self.blobs.copy(alloc)?;
        let members = copied_seats(alloc, &self.members)?;
        Ok(Machine {
            mode: self.mode,
            rows,
            commits,
            statuses,
            seals,
            dictionary,
            blobs,
            members,
            weight: self.weight,
        })
    }

    // ---- what the requests read

    pub(crate) fn row_at(&self, position: u32) -> Option<&Row>
        requires { 0 < position }
        ensures { option_copied result ≡ ordered_at self.now position }
    {
        let place = position as usize - 1;
        if place < self.rows.len() {
            Some(&self.rows[place])
        } else {
            None
        }
    }

    pub(crate) fn status_at(&self, position: u32) -> Option<bool>
        requires { 0 < position }
        ensures { result ≡ commit_at self.now position }
    {
        let place = position as usize - 1;
        if place < self.statuses.len() {
            self.statuses[place]
        } else {
            None
        }
    }

    pub(crate) fn seal_at(&self, position: u32) -> Seal
        requires { position ≤ sealed_count self.now }
        ensures is { result ≡ seal_at_position self.now position }
        ensures spelled { IsSeal result }
    {
        if position == 0 {
            return first_seal();
        }
        let row = &self.seals[position as usize - 1];
        row.seal()
    }

    /// Copies of the entries from one length to another.
    pub(crate) fn told(&self, alloc: Global, known: u32, upto: u32) -> Result<TaggedList, NoMemory>
        requires order { known ≤ upto }
        requires within { upto ≤ size self.now }
        ensures is { IfOk result (λ ts. ts ≡ entries_above known (front upto self.now.log)) }
        ensures count { IfOk result (λ ts. length ts ≡ upto - known) }
        ensures spelled { IfOk result (λ ts. AllByRecursion IsTagged ts) }
    {
        copies(alloc, &self.rows[known as usize..upto as usize])
    }

    pub(crate) fn stage_of(&self, who: u8) -> Stage
        ensures is { result ≡ (member self.now who).stage }
        ensures within { IsWithin (size self.now) result }
    {
        match self.members.get((who as usize).saturating_sub(1)) {
            Some(seat) => seat.stage(),
            None => Stage::Away,
        }
    }

    pub(crate) fn last_of(&self, who: u8) -> u32
        ensures { result ≡ (member self.now who).last }
    {
        match self.members.get((who as usize).saturating_sub(1)) {
            Some(seat) => seat.last(),
            None => 0,
        }
    }

    pub(crate) fn count(&self) -> u8
        ensures is { result ≡ length self.now.members }
        ensures bounds { (0 < result) × (result ≤ MOST_CLIENTS) }
    {
        self.members.len() as u8
    }

    pub(crate) fn mode(&self) -> Mode
        ensures { result ≡ self.now.mode }
    {
        self.mode
    }

    /// How the entry at a position was committed, if it is this client's.
    pub(crate) fn commit_of(&self, who: u8, position: u32) -> Option<bool>
        requires { 0 < position }
        ensures is { is_some result ≡ owns_committed who (ordered_at self.now position) (commit_at self.now position) }
        ensures status { IfSome result (λ done. (commit_at self.now position ≡ Some done) × (position ≤ size self.now)) }
    {
        if position <= self.length() {
            match (self.row_at(position), self.status_at(position)) {
                (Some(row), Some(done)) if row.client() == who => Some(done),
                _ => None,
            }
        } else {
            None
        }
    }

    /// The turn after the next position is sealed. The server is the same afterwards, whatever comes.
    pub(crate) fn turn_after(
        &mut self,
        alloc: Global,
        who: u8,
        seal: Seal,
        done: bool,
    ) -> Result<ToClient, NoMemory>
        requires next { seal.position ≡ sealed_count self.old + 1 }
        requires within { seal.position ≤ size self.old }
        requires committed { commit_at self.old seal.position ≡ Some done }
        requires spelled { IsSeal seal }
        ensures is { IfOk result (λ a. a ≡ turn (with_seal self.old seal) who) }
        ensures spelled { IfOk result (λ a. HasSpelling a) }
        ensures short { IfOk result (λ a. HasShortPart a) }
        ensures same { self.new ≡ self.old }
    {
        let next = self.sealed() + 2;
        match self.commit_of(who, next) {
            None => Ok(ToClient::Wait),
            Some(status) => {
                let row = &self.rows[seal.position as usize - 1];
                let coming = &self.rows[next as usize - 1];
                let dictionary = &mut self.dictionary;
                turn_over(alloc, seal, dictionary, row.op(), done, who, coming, status)
            }
        }
    }

    /// The turn over a seal, where the entry at the next position has this commit.
    pub(crate) fn tell_turn(
        &self,
        alloc: Global,
        seal: Seal,
        who: u8,
        position: u32,
        status: Option<bool>,
    ) -> Result<ToClient, NoMemory>
        requires position { 0 < position }
        requires seal { IsSeal seal }
        ensures is { IfOk result (λ a. a ≡ turn_from seal self.now.dictionary who (ordered_at self.now position) status) }
        ensures spelled { IfOk result (λ a. HasSpelling a) }
        ensures short { IfOk result (λ a. HasShortPart a) }
        ensures waits { turn_from seal self.now.dictionary who (ordered_at self.now position) status ≡ say.Wait → result ≡ Ok say.Wait }
    {
        turn_of(
            alloc,
            seal,
            &self.dictionary,
            who,
            self.row_at(position),
            status,
        )
    }

    /// The part that a Reply carries.
    pub(crate) fn part_for(&self, alloc: Global, op: &Op) -> Result<Bytes, NoMemory>
        requires { Fits op.now }
        ensures is { IfOk result (λ b. b ≡ part_for self.now.dictionary op.now) }
        ensures short { IfOk result (λ b. length b ≤ LONGEST_PART) }
    {
        cut_bytes(alloc, &self.dictionary, op)
    }

    /// Whether a content is kept under a hash.
    #[tactic(auto, using(crate::proofs::Contents::kept_found, crate::proofs::Contents::kept_none))]
    pub(crate) fn is_kept(&self, hash: &Digest32) -> bool
        ensures is { result ≡ is_kept self.now.contents hash.now.bytes }
        ensures none { result ≡ false → kept_under self.now.contents hash.now.bytes ≡ None }
    {
        self.blobs.fetch(hash).is_some()
    }

    /// Whether there is room for a content of so many bytes.
    pub(crate) fn has_room(&self, len: usize) -> bool
        requires { len ≤ LONGEST_CONTENT }
        ensures is { (content : List ℕ) → length content ≡ len
            → result ≡ (not (nat_le MOST_CONTENTS (length self.now.contents)) && nat_le (sum_by length self.now.contents + length content) MOST_CONTENT_BYTES) }
        ensures room { (content : List ℕ) → length content ≡ len → IsTrue result → IsRoom self.now.contents content }
    {
        self.blobs.has_room(len)
    }

    /// The answer to a Fetch. It costs the content.
    pub(crate) fn content_with(&self, alloc: Global, hash: &Digest32) -> Result<ToClient, NoMemory>
        ensures is { IfOk result (λ a. a ≡ content_with self.now.contents hash.now.bytes) }
        ensures spelled { IfOk result (λ a. HasSpelling a) }
        ensures short { IfOk result (λ a. HasShortPart a) }
    {
        match self.blobs.fetch(hash) {
            Some(content) => Ok(ToClient::Content(content.copy(alloc)?)),
            None => Ok(ToClient::Absent),
        }
    }

    // ---- what the requests change

    pub(crate) fn set_seat(&mut self, who: u8, seat: Seat)
        requires member { (0 < who) × (who ≤ length self.old.members) }
        requires stage { IsWithin (size self.old) seat.stage }
        ensures { self.new ≡ set_member self.old who seat }
    {
        self.members[who as usize - 1] = seat;
    }

    /// Puts an entry onto the log.
    pub(crate) fn add_row(&mut self, row: Row) -> Result<(), NoMemory>
        requires room { size self.old < MOST_ENTRIES }
        requires light { weight self.old + op_weight row.entry.op ≤ MOST_WEIGHT }
        ensures ok { OnOk result (self.new ≡ record self.old { log = row ∷ self.old.log }) }
        ensures err { OnErr result (self.new ≡ self.old) }
    {
        let weight = op_weight(row.op());
        index_more(&mut self.statuses, self.rows.len())?;
        self.rows.push(row)?;
        self.weight += weight;
        Ok(())
    }

    /// Keeps a commit.
    pub(crate) fn add_commit(
        &mut self,
        position: u32,
        done: bool,
        tag: Digest32,
    ) -> Result<(), NoMemory>
        requires { (0 < position) × (position ≤ size self.old) }
        ensures ok { OnOk result (self.new ≡ with_commit self.old position done tag) }
        ensures err { OnErr result (self.new ≡ self.old) }
    {
        self.commits.push(Commit::new(position, done, tag))?;
        self.statuses[position as usize - 1] = Some(done);
        Ok(())
    }

    /// Keeps a content under its hash.
    pub(crate) fn add_content(&mut self, hash: &Digest32, content: Bytes) -> Result<(), NoMemory>
        requires hash { hash.now.bytes ≡ content_hash content }
        requires new { kept_under self.old.contents hash.now.bytes ≡ None }
        requires small { length content ≤ LONGEST_CONTENT }
        requires room { IsRoom self.old.contents content }
        ensures ok { OnOk result (self.new ≡ record self.old { contents = content ∷ self.old.contents }) }
        ensures err { OnErr result (self.new ≡ self.old) }
    {
        self.blobs.add(hash, content)
    }

    /// Keeps the seal of the next position, and applies its entry where it was done.
    pub(crate) fn add_seal(&mut self, alloc: Global, seal: Seal, done: bool) -> Result<(), NoMemory>
        requires next { seal.position ≡ sealed_count self.old + 1 }
        requires within { seal.position ≤ size self.old }
        requires committed { commit_at self.old seal.position ≡ Some done }
        requires spelled { IsSeal seal }
        ensures ok { OnOk result (self.new ≡ with_seal self.old seal) }
        ensures err { OnErr result (self.new ≡ self.old) }
    {
        let place = self.seals.len();
        self.seals.push(SealRow::new(seal))?;
        let row = &self.rows[place];
        match apply(&mut self.dictionary, row.op(), done) {
            Ok(freed) => {
                self.weight -= freed;
                Ok(())
            }
            Err(cause) => {
                let _undone = self.seals.pop();
                Err(cause)
            }
        }
    }
}
