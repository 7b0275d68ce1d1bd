//! The window of a path: its highest seal, and the entries above it with their hashes.

ghost use Rattle.std.specs.Prelude.{◌≡◌, ◌<◌, ◌≤◌, ◌+◌, ◌-◌, ◌^◌, ℕ, List, [], ◌∷◌, ◌++◌, length, take, drop, OnOk, OnErr, slice_get};
ghost use Rattle.std.specs.Option.{option_map};
ghost use Rattle.vic_dict.specs.declared.limits.TheConstants.{MOST_ENTRIES};
ghost use Rattle.vic_dict.specs.declared.op.Entry.{Entry as AnEntry};
ghost use Rattle.vic_dict.specs.Lists.{front, newest};
ghost use Rattle.vic_wire.specs.Hashes.{Group, chain, empty_root, hash};
ghost use Rattle.vic_wire.specs.Texts.{genesis_text};
ghost use Rattle.vic_wire.specs.Messages.{IsEntry};
ghost use Rattle.vic_chain.specs.Held.{Held, held_length, held_hash, last_hash, held_with_entry, held_cut_to, held_sealed_at, ShowsPath};

use crate::text::{chain_step, genesis};
use std::alloc::Global;
use std::collections::VecDeque;
use std::marker::Model;
use vic_dict::{Entry, Mode, NoMemory};
use vic_wire::Digest32;

/// An entry above the seal, and the hash of the path that ends with it.
#[derive(Debug, Drop)]
pub struct ChainedEntry {
    /// The entry of a position.
    pub entry: Entry,
    /// The hash of the path up to and with it.
    pub hash: Digest32,
}

/// The highest seal of a path (position and root), the hash of the path there, and the entries above it. What it costs is
/// what stands above the seal. A path has at most 1,048,576 entries.
#[derive(Debug, Drop)]
pub struct Window {
    /// The position of the highest seal.
    sealed: u32,
    /// The root of the dictionary there.
    root: Digest32,
    /// The hash of the path there.
    base: Digest32,
    // The newest first.
    links: VecDeque<ChainedEntry>,
}

impl Model for Window {
    ghost use Rattle.std.specs.Prelude.{◌+◌, ◌≤◌, length};
    ghost use Rattle.vic_chain.specs.Held.{Held};
    ghost use Rattle.vic_dict.specs.declared.limits.TheConstants.{MOST_ENTRIES};

    ghost Value = { Held };

    ghost view = { λ a. record { sealed = a.sealed; root = a.root.bytes; base = a.base; links = a.links.items } };

    ghost invariant = { λ a. a.sealed + length a.links.items ≤ MOST_ENTRIES };
}

// Drops the newest links; the cost is their number.
fn drop_newest(links: &mut VecDeque<ChainedEntry>, count: usize)
    requires { count ≤ length links.old.items }
    ensures { links.new.items ≡ drop count links.old.items }
{
    for i in 0..count {
        let _ = links.pop_front();
    }
}

impl Window {
    /// The window of the empty path; it takes no memory.
    pub fn new(alloc: Global, mode: Mode, count: u8) -> Window
        ensures value { result ≡ record { sealed = 0; root = empty_root; base = record { bytes = hash (genesis_text mode count) }; links = [] } }
        ensures shows { (g : Group) → g.mode ≡ mode → g.count ≡ count → ShowsPath g [] result }
    {
        Window {
            sealed: 0,
            root: vic_hash::empty(),
            base: genesis(mode, count),
            links: VecDeque::new(alloc),
        }
    }

    /// The position of the seal.
    pub fn sealed(&self) -> u32
        ensures { result ≡ self.now.sealed }
    {
        self.sealed
    }

    /// The length of the path.
    pub fn length(&self) -> u32
        ensures value { result ≡ held_length self.now }
        ensures limit { result ≤ MOST_ENTRIES }
        ensures shows { (g : Group) (p : List AnEntry) → ShowsPath g p self.now → result ≡ length p }
    {
        self.sealed + self.links.len() as u32
    }

    /// The root of the seal.
    pub fn root(&self) -> Digest32
        ensures { result.bytes ≡ self.now.root }
    {
        self.root
    }

    /// The hash of the path up to a position, from the sealed one on.
    pub fn hash_at(&self, position: u32) -> Digest32
        requires above { self.now.sealed ≤ position }
        requires within { position ≤ held_length self.now }
        ensures value { result ≡ held_hash self.now position }
        ensures shows { (g : Group) (p : List AnEntry) → ShowsPath g p self.now → result.bytes ≡ chain g (front position p) }
    {
        let newer = (self.length() - position) as usize;
        match self.links.get(newer) {
            Some(link) => link.hash,
            None => self.base,
        }
    }

    /// The entry at a position above the seal.
    pub fn entry_at(&self, position: u32) -> &Entry
        requires above { self.now.sealed < position }
        requires within { position ≤ held_length self.now }
        ensures value { option_map (λ x. x.entry) (slice_get self.now.links (held_length self.now - position)) ≡ Some result.now }
        ensures shows { (g : Group) (p : List AnEntry) → ShowsPath g p self.now → newest (front position p) ≡ Some result.now }
    {
        let newer = (self.length() - position) as usize;
        &self.links[newer].entry
    }

    /// Puts an entry onto the path.
    pub fn extend(&mut self, entry: &Entry) -> Result<(), NoMemory>
        requires spelled { IsEntry entry.now }
        requires room { held_length self.old < MOST_ENTRIES }
        ensures ok { OnOk result (self.new ≡ held_with_entry self.old entry.now) }
        ensures err { OnErr result (self.new ≡ self.old) }
        ensures shows { (g : Group) (p : List AnEntry) → ShowsPath g p self.old → OnOk result (ShowsPath g (entry.now ∷ p) self.new) }
    {
        let alloc = *self.links.allocator();
        let hash = chain_step(&self.hash_at(self.length()), entry);
        let entry = entry.copy(alloc)?;
        self.links.push_front(ChainedEntry { entry, hash })?;
        Ok(())
    }

    /// Takes the newest entries off again, down to a length; the cost is their number.
    pub fn cut_back(&mut self, length: u32)
        requires { self.old.sealed ≤ length }
        ensures value { self.new ≡ held_cut_to self.old length }
        ensures shows { (g : Group) (p : List AnEntry) → ShowsPath g p self.old → ShowsPath g (front length p) self.new }
    {
        let count = self.length().saturating_sub(length) as usize;
        drop_newest(&mut self.links, count);
    }

    /// Moves the seal to a position, and forgets the entries up to it; the cost is their number.
    pub fn advance(&mut self, position: u32, root: &Digest32)
        requires above { self.old.sealed ≤ position }
        requires within { position ≤ held_length self.old }
        ensures value { self.new ≡ held_sealed_at self.old position root.now.bytes }
        ensures shows { (g : Group) (p : List AnEntry) → ShowsPath g p self.old → ShowsPath g p self.new }
    {
        let base = self.hash_at(position);
        let kept = (self.length() - position) as usize;
        self.links.truncate(kept);
        self.sealed = position;
        self.root = *root;
        self.base = base;
    }
}
