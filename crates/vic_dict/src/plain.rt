//! A plain dictionary: rows of keys and values in the order of their keys, searched by halves.

ghost use Rattle.std.specs.Prelude.{◌≡◌, ◌<◌, ◌↔◌, [], ◌∷◌, ◌++◌, IsTrue, OnOk, OnErr, IfOk, option_copied, is_some, filter, nat_eq, slice_get, if◌then◌else◌};
ghost use Rattle.std.specs.Prelude.{map as map_list};
ghost use Rattle.std.specs.List.{starts_with};
ghost use Rattle.std.specs.FinMap as map;
ghost use Rattle.std.specs.FinMap.{is_sorted};
ghost use Rattle.vic_dict.specs.Dictionary.{nothing, Fits, answer_of_get, reply, after};
ghost use Rattle.vic_dict.specs.Rows.{IsTable, AreFit, AreByteRows, bytes_cmp, place_in, spot, is_past};

use crate::bytes::{Bytes, Names, NoMemory};
use crate::op::{Answer, Op};
use std::alloc::Global;
use std::cmp::Ordering;
use std::marker::Model;

/// A dictionary as rows in the order of their keys. A look-up costs the logarithm of the number of rows,
/// a change that number.
#[derive(Debug, Drop)]
pub struct PlainDict {
    /// Keys with their values; the keys rise strictly.
    rows: Vec<(Bytes, Bytes)>,
}

impl Model for PlainDict {
    ghost use Rattle.std.specs.FinMap as map;
    ghost use Rattle.vic_dict.specs.Dictionary.{Dictionary, bytes_code};
    ghost use Rattle.vic_dict.specs.Rows.{IsTable};

    ghost Value = { Dictionary };

    ghost coded = { map.code bytes_code bytes_code };

    ghost view = { λ a. map.from_sorted a.rows.items };

    ghost invariant = { λ a. IsTable a.rows.items };
}

/// How many rows from the front have lower keys, by halves.
fn place_of(rows: &[(Bytes, Bytes)], key: &[u8]) -> usize
    requires { IsTrue (is_sorted bytes_cmp rows.now) }
    ensures { result ≡ place_in key.now rows.now }
{
    let mut low = 0;
    let mut high = rows.len();
    while low < high {
        let middle = low + (high - low) / 2;
        match key.cmp(rows[middle].0.as_slice()) {
            Ordering::Greater => low = middle + 1,
            _ => high = middle,
        }
    }
    low
}

/// Where the key stands, or else where it would.
fn find_row(rows: &[(Bytes, Bytes)], key: &[u8]) -> Result<usize, usize>
    requires { IsTrue (is_sorted bytes_cmp rows.now) }
    ensures { result ≡ spot key.now rows.now }
{
    let place = place_of(rows, key);
    if place < rows.len() && rows[place].0.as_slice() == key {
        return Ok(place);
    }
    Err(place)
}

/// The keys of these rows that begin with the prefix.
fn keys_with(alloc: Global, rows: &[(Bytes, Bytes)], prefix: &[u8]) -> Result<Names, NoMemory>
    ensures { IfOk result (λ names. names ≡ filter (λ k. starts_with nat_eq k prefix.now) (map_list (λ e. e.0) rows.now)) }
{
    let mut names = Names::new(alloc);
    for row in rows {
        if row.0.as_slice().starts_with(prefix) {
            names.push(row.0.copy(alloc)?)?;
        }
    }
    Ok(names)
}

fn copy_rows(alloc: Global, rows: &[(Bytes, Bytes)]) -> Result<Vec<(Bytes, Bytes)>, NoMemory>
    ensures { IfOk result (λ made. made.items ≡ rows.now) }
{
    let mut made = Vec::new(alloc);
    for row in rows {
        made.push((row.0.copy(alloc)?, row.1.copy(alloc)?))?;
    }
    Ok(made)
}

/// Whether the keys rise strictly.
fn is_rising(rows: &[(Bytes, Bytes)]) -> bool
    ensures rising { result ≡ is_sorted bytes_cmp rows.now }
    ensures bytes { IsTrue result → AreByteRows rows.now }
{
    for i in 0..rows.len() {
        // For the clause `bytes` alone.
        rows[i].0.are_bytes();
        rows[i].1.are_bytes();
        if i > 0 && !rows[i - 1].0.as_slice().cmp(rows[i].0.as_slice()).is_lt() {
            return false;
        }
    }
    true
}

/// What a look-up answers.
fn answer_of(alloc: Global, value: Option<&Bytes>) -> Result<Answer, NoMemory>
    ensures { IfOk result (λ answer. answer ≡ answer_of_get (option_copied value.entry)) }
{
    match value {
        Some(value) => Ok(Answer::Found(value.copy(alloc)?)),
        None => Ok(Answer::NotFound),
    }
}

impl PlainDict {
    /// The empty dictionary; it takes no memory.
    pub fn new(alloc: Global) -> PlainDict
        ensures { result ≡ nothing }
    {
        PlainDict {
            rows: Vec::new(alloc),
        }
    }

    /// The dictionary of these rows, if their keys rise strictly.
    pub fn from_rows(rows: Vec<(Bytes, Bytes)>) -> Option<PlainDict>
        requires { AreFit rows.items }
        ensures { result ≡ (if is_sorted bytes_cmp rows.items then Some (map.from_sorted rows.items) else None) }
    {
        if is_rising(rows.as_slice()) {
            return Some(PlainDict { rows });
        }
        None
    }

    /// The key now has the value.
    pub fn put(&mut self, key: Bytes, value: Bytes) -> Result<(), NoMemory>
        requires { Fits (Op.Put key value) }
        ensures ok { OnOk result (self.new ≡ map.insert self.old key value) }
        ensures err { OnErr result (self.new ≡ self.old) }
    {
        // For the proof alone: rows have bytes.
        key.are_bytes();
        value.are_bytes();
        match find_row(self.rows.as_slice(), key.as_slice()) {
            Ok(place) => self.rows[place].1 = value,
            Err(place) => self.rows.insert(place, (key, value))?,
        }
        Ok(())
    }

    /// The value of the key.
    pub fn get(&self, key: &[u8]) -> Option<&Bytes>
        ensures { option_copied result ≡ map.get self.now key.now }
    {
        match find_row(self.rows.as_slice(), key) {
            Ok(place) => Some(&self.rows[place].1),
            Err(_) => None,
        }
    }

    /// The key goes; tells whether it was there.
    pub fn del(&mut self, key: &[u8]) -> bool
        ensures now { self.new ≡ map.remove self.old key.now }
        ensures was { result ≡ is_some (map.get self.old key.now) }
    {
        match find_row(self.rows.as_slice(), key) {
            Ok(place) => {
                let _row = self.rows.remove(place);
                true
            }
            Err(_) => false,
        }
    }

    /// The keys with the prefix, in order. Costs the number of rows.
    pub fn list(&self, alloc: Global, prefix: &[u8]) -> Result<Names, NoMemory>
        ensures { IfOk result (λ names. names ≡ filter (λ k. starts_with nat_eq k prefix.now) (map.keys self.now)) }
    {
        keys_with(alloc, self.rows.as_slice(), prefix)
    }

    /// Does an operation, and tells its answer.
    pub fn do_op(&mut self, alloc: Global, op: &Op) -> Result<Answer, NoMemory>
        requires { Fits op.now }
        ensures ok { IfOk result (λ answer. (answer ≡ reply self.old op.now) × (self.new ≡ after self.old op.now)) }
        ensures err { OnErr result (self.new ≡ self.old) }
    {
        match op {
            Op::Put(key, value) => {
                self.put(key.copy(alloc)?, value.copy(alloc)?)?;
                Ok(Answer::Stored)
            }
            Op::Get(key) => answer_of(alloc, self.get(key.as_slice())),
            Op::Del(key) => Ok(if self.del(key.as_slice()) {
                Answer::Removed
            } else {
                Answer::Absent
            }),
            Op::List(prefix) => Ok(Answer::Names(self.list(alloc, prefix.as_slice())?)),
        }
    }

    /// How many keys there are.
    pub fn len(&self) -> usize
        ensures { result ≡ map.len self.now }
    {
        self.rows.len()
    }

    /// Whether it has no key.
    pub fn is_empty(&self) -> bool
        ensures { IsTrue result ↔ (map.len self.now ≡ 0) }
    {
        self.rows.is_empty()
    }

    /// The keys and values, in the order of the keys.
    pub fn as_slice(&self) -> &[(Bytes, Bytes)]
        ensures rows { result.now ≡ map.entries self.now }
        ensures table { IsTable result.now }
    {
        self.rows.as_slice()
    }

    /// The key at a place in the order of keys, counted from 0.
    pub fn key_at(&self, place: usize) -> &[u8]
        requires { place < map.len self.now }
        ensures { slice_get (map.keys self.now) place ≡ Some result.now }
    {
        self.rows[place].0.as_slice()
    }

    /// The value at a place in the order of keys, counted from 0.
    pub fn value_at(&self, place: usize) -> &[u8]
        requires { place < map.len self.now }
        ensures { slice_get (map.values self.now) place ≡ Some result.now }
    {
        self.rows[place].1.as_slice()
    }

    /// Whether the key is above all others.
    pub fn is_past(&self, key: &[u8]) -> bool
        ensures { result ≡ is_past key.now (map.entries self.now) }
    {
        if self.rows.is_empty() {
            return true;
        }
        let last = self.rows.len() - 1;
        self.rows[last].0.as_slice().cmp(key).is_lt()
    }

    /// Puts a key that is above all others, without a search.
    pub fn push_last(&mut self, key: Bytes, value: Bytes) -> Result<(), NoMemory>
        requires fits { Fits (Op.Put key value) }
        requires past { IsTrue (is_past key (map.entries self.old)) }
        ensures ok { OnOk result (self.new ≡ map.insert self.old key value) }
        ensures rows { OnOk result (map.entries self.new ≡ map.entries self.old ++ (key, value) ∷ []) }
        ensures err { OnErr result (self.new ≡ self.old) }
    {
        // For the proof alone: rows have bytes.
        key.are_bytes();
        value.are_bytes();
        self.rows.push((key, value))?;
        Ok(())
    }

    /// A dictionary with the same pairs. It takes memory for each pair, and costs as much as they are.
    pub fn copy(&self, alloc: Global) -> Result<PlainDict, NoMemory>
        ensures { IfOk result (λ made. made ≡ self.now) }
    {
        Ok(PlainDict {
            rows: copy_rows(alloc, self.rows.as_slice())?,
        })
    }
}
