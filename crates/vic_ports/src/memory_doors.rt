//! Doors in memory, through which the lines of a list come, one after the other.

ghost use Rattle.std.specs.Prelude.{◌≡◌, ◌+◌, ◌-◌, ◌^◌, ◌<◌, ◌≤◌, ◌⊎◌, ◌↔◌, [], ◌∷◌, ◌++◌, length, Some, IfOk, OnOk, OnErr, IsTrue, slice_get, take, map, min};
ghost use Rattle.std.specs.Prelude.{vec_len, vec_capacity, reverse};
ghost use Rattle.vic_ports.specs.Links.{Told, Accepts, GoesBack};
ghost use Rattle.vic_ports.specs.Memory.{told_of};
ghost use Rattle.vic_ports.specs.Failing.{is_to_fail};
ghost use Rattle.vic_ports.specs.Coming.{line_of};

use crate::doors::{Came, Doors};
use crate::memory::Calls;
use crate::memory_link::MemoryLink;
use std::alloc::Global;
use std::snapshot::Snapshot;
use vic_dict::NoMemory;

/// A list of links in memory.
#[derive(Debug, Drop)]
pub struct Lines {
    items: Vec<MemoryLink>,
}

impl Lines {
    /// The empty list; it takes no memory.
    pub fn new(alloc: Global) -> Lines
        ensures { result.items.items ≡ [] }
    {
        Lines {
            items: Vec::new(alloc),
        }
    }

    pub fn len(&self) -> usize
        ensures { result ≡ length self.now.items.items }
    {
        self.items.len()
    }

    /// The link at a place, counted from 0.
    pub fn at(&self, place: usize) -> &MemoryLink
        requires { place < length self.now.items.items }
        ensures { slice_get self.now.items.items place ≡ Some result.now }
    {
        &self.items[place]
    }

    /// Puts a link last.
    pub fn push(&mut self, line: MemoryLink) -> Result<(), NoMemory>
        ensures ok { OnOk result (self.new.items.items ≡ self.old.items.items ++ line ∷ []) }
        ensures err { OnErr result (self.new.items.items ≡ self.old.items.items) }
    {
        self.items.push(line)?;
        Ok(())
    }
}

/// Doors through which the lines of a list come, in order; the accepts with these numbers fail, and those with no line left.
#[derive(Drop)]
pub struct MemoryDoors {
    /// The next one stands last.
    waiting: Vec<MemoryLink>,
    /// Each as it came.
    came: Vec<Snapshot<MemoryLink>>,
    /// Lines that were given back, in their order.
    returned: Lines,
    /// The accepts that are to fail.
    fails: Calls,
    /// How many accepts there were.
    calls: u64,
    /// How many of them failed.
    faults: u64,
    ghost room: { vec_len came + vec_len waiting ≤ vec_capacity came },
    ghost room_back: { vec_len came + vec_len waiting ≤ vec_capacity returned.items },
}

impl MemoryDoors {
    /// Doors with these lines; it makes room for all that can be given back.
    pub fn new(alloc: Global, lines: Lines, fails: Calls) -> Result<MemoryDoors, NoMemory>
        ensures waiting { IfOk result (λ d. d.waiting.items ≡ reverse lines.items.items) }
        ensures none { IfOk result (λ d. (d.came.items ≡ []) × (d.returned.items.items ≡ [])) }
        ensures fails { IfOk result (λ d. (d.fails ≡ fails) × ((d.calls ≡ 0) × (d.faults ≡ 0))) }
    {
        let Lines { items: mut waiting } = lines;
        waiting.reverse();
        let count = waiting.len();
        let came = Vec::with_capacity(alloc, count)?;
        let returned = Vec::with_capacity(alloc, count)?;
        Ok(MemoryDoors {
            waiting,
            came,
            returned: Lines { items: returned },
            fails,
            calls: 0,
            faults: 0,
        })
    }

    /// The lines that were given back, in order.
    pub fn returned(&self) -> &Lines
        ensures { result.now ≡ self.now.returned }
    {
        &self.returned
    }
}

impl Doors for MemoryDoors {
    type Line = MemoryLink;

    ghost lines = { λ d. Some (record { came = map (λ s. told_of s.value) d.came.items; back = map told_of d.returned.items.items }) };

    ghost faults = { λ d. d.faults };

    fn accept(&mut self) -> Came<MemoryLink>
        ensures given { Accepts (Some (record { came = map (λ s. told_of s.value) self.old.came.items; back = map told_of self.old.returned.items.items })) (Some (record { came = map (λ s. told_of s.value) self.new.came.items; back = map told_of self.new.returned.items.items })) self.old.faults self.new.faults (line_of told_of result) }
        ensures later { self.old.faults ≤ self.new.faults }
        ensures fails { self.new.fails ≡ self.old.fails }
        ensures calls { self.new.calls ≡ min (self.old.calls + 1) (2 ^ 64 - 1) }
        ensures planned { (result ≡ Came.Failed) ↔ (IsTrue (is_to_fail self.old.fails self.new.calls) ⊎ (self.old.waiting.items ≡ [])) }
        ensures next { (line : MemoryLink) → result ≡ Came.Line line → self.old.waiting.items ≡ self.new.waiting.items ++ line ∷ [] }
        ensures stays { result ≡ Came.Failed → self.new.waiting.items ≡ self.old.waiting.items }
    {
        self.calls = self.calls.saturating_add(1);
        if self.fails.has(self.calls) {
            self.faults = self.faults.saturating_add(1);
            return Came::Failed;
        }
        match self.waiting.pop() {
            Some(line) => {
                self.came.push_reserved(Snapshot::of(&line));
                Came::Line(line)
            }
            None => {
                self.faults = self.faults.saturating_add(1);
                Came::Failed
            }
        }
    }

    fn back(&mut self, line: MemoryLink)
        ensures given { GoesBack (told_of line) (Some (record { came = map (λ s. told_of s.value) self.old.came.items; back = map told_of self.old.returned.items.items })) (Some (record { came = map (λ s. told_of s.value) self.new.came.items; back = map told_of self.new.returned.items.items })) }
        ensures faults { self.new.faults ≡ self.old.faults }
        ensures waiting { self.new.waiting.items ≡ self.old.waiting.items }
    {
        if self.returned.items.len() < self.came.len() {
            self.returned.items.push_reserved(line);
        }
    }
}
