ghost use Rattle.std.specs.Prelude.{◌≡◌, ◌≤◌, ◌<◌, ◌+◌, length, filter, nat_eq, IsNone, IsTrue, ◌↔◌, IfSome, IfOk, OnOk, OnErr, IsSome, Some, None, IfNone, option_copied, MatchOption};
ghost use Rattle.std.specs.List.{starts_with};
ghost use Rattle.std.specs.FinMap as map;
ghost use Rattle.vic_dict.specs.declared.limits.TheConstants.{LONGEST_VALUE};
ghost use Rattle.vic_dict.specs.Dictionary.{Dictionary, IsKey, Fits, after};
ghost use Rattle.vic_wire.specs.Trees.{Leaf, dictionary_root, pairs_of, tree_of};
ghost use Rattle.vic_tree.specs.Grown.{IsTree};
ghost use Rattle.vic_trie.specs.Nodes.{tree, IsSound};
ghost use Rattle.vic_trie.specs.Weights.{weight_of, added_weight};
ghost use Rattle.vic_trie.specs.Undoing.{IsReady, CanUndo, dictionary_undone};
ghost use Rattle.std.specs.Prelude.{List, ℕ};

use crate::node::Node;
use crate::ready::{Ready, Undo};
use crate::top::{put_into, put_ready_into, take_from};
use std::alloc::Global;
use std::marker::Model;
use vic_dict::limits::LONGEST_KEY;
use vic_dict::{Bytes, Names, NoMemory, Op};
use vic_hash::Digest32;

/// A dictionary with its root. It is a tree over the bits of its keys, changed in place: each node keeps the hash of its subtree, so a
/// change hashes the nodes on the way to its key alone.
#[derive(Debug, Drop)]
pub struct Trie {
    /// Where its nodes come from.
    alloc: Global,
    /// None of the empty dictionary.
    top: Option<Node>,
    /// Of all pairs: 16 and the bytes of key and value for each.
    weight: u64,
    /// How many pairs.
    count: u32,
}

impl Model for Trie {
    ghost use Rattle.std.specs.FinMap as map;
    ghost use Rattle.std.specs.Coded.{coded_list, coded_ℕ};
    ghost use Rattle.vic_dict.specs.Dictionary.{Dictionary};

    ghost Value = { Dictionary };

    ghost coded = { map.code (coded_list coded_ℕ) (coded_list coded_ℕ) };

    ghost use Rattle.vic_tree.specs.Grown.{dictionary_of};
    ghost use Rattle.vic_trie.specs.Tries.{top_tree, IsKept};

    ghost view = { λ a. dictionary_of (top_tree a.top) };

    ghost invariant = { λ a. IsKept a.top a.weight a.count };
}

impl Trie {
    /// The empty dictionary; it takes no memory.
    pub fn new(alloc: Global) -> Trie
        ensures { result ≡ map.empty }
    {
        Trie {
            alloc,
            top: None,
            weight: 0,
            count: 0,
        }
    }

    /// The tree of the dictionary, with the root of each subtree, and None for the empty one. It is lent as it stands.
    pub fn top(&self) -> Option<&Node>
        ensures empty { IsNone result ↔ (self.now ≡ map.empty) }
        ensures tree { IfSome result (λ n. IsSound n.now × (tree n.now ≡ tree_of self.now)) }
        ensures grown { IfSome result (λ n. IsTree (tree n.now)) }
        ensures pairs { IfSome result (λ n. pairs_of (tree n.now) ≡ map.entries self.now) }
    {
        match &self.top {
            None => None,
            Some(node) => Some(node),
        }
    }

    /// The root of the dictionary's tree, which is kept: nothing is hashed but for the empty one.
    pub fn root(&self) -> Digest32
        ensures { result.bytes ≡ dictionary_root self.now }
    {
        match &self.top {
            None => vic_hash::empty(),
            Some(node) => node.root(),
        }
    }

    /// The bytes of all keys and values, and 16 more for each pair. It is kept, and costs nothing.
    pub fn weight(&self) -> u64
        ensures { result ≡ weight_of self.now }
    {
        self.weight
    }

    /// How many pairs it has. It is kept, and costs nothing.
    pub fn len(&self) -> u32
        ensures { result ≡ map.len self.now }
    {
        self.count
    }

    /// What stands under a key, and None exactly where nothing does. It costs the depth of the key's place, and takes no memory.
    pub fn get(&self, key: &[u8]) -> Option<&Bytes>
        ensures value { option_copied result ≡ map.get self.now key.now }
        ensures fits { IfSome (option_copied result) (λ v. length v ≤ LONGEST_VALUE) }
    {
        match &self.top {
            None => None,
            Some(node) => {
                if key.len() > LONGEST_KEY {
                    return None;
                }
                let (end, value) = node.end(key);
                if end.as_slice() == key {
                    Some(value)
                } else {
                    None
                }
            }
        }
    }

    /// Gives the key this value. It costs the depth of the key's place, and hashes the nodes on the way there. After an `Err` nothing
    /// changed.
    pub fn put(&mut self, key: &[u8], value: &[u8]) -> Result<(), NoMemory>
        requires key { IsKey key.now }
        requires value { length value.now ≤ LONGEST_VALUE }
        requires room { weight_of self.old ≤ 4294967295 }
        ensures ok { OnOk result (self.new ≡ map.insert self.old key.now value.now) }
        ensures weighs { OnOk result (weight_of self.new ≤ weight_of self.old + (length key.now + length value.now + 16)) }
        ensures err { OnErr result (self.new ≡ self.old) }
    {
        let before = put_into(&mut self.top, self.alloc, key, value)?;
        match before {
            Some(old) => {
                self.weight = self.weight + value.len() as u64 - old as u64;
            }
            None => {
                self.weight += 16 + key.len() as u64 + value.len() as u64;
                self.count += 1;
            }
        }
        Ok(())
    }

    /// Takes the memory that putting a key and a value takes.
    pub fn ready(&self, key: &[u8], value: &[u8]) -> Result<Ready, NoMemory>
        requires key { IsKey key.now }
        requires value { length value.now ≤ LONGEST_VALUE }
        ensures ready { IfOk result IsReady }
        ensures key { IfOk result (λ r. r.key ≡ key.now) }
        ensures value { IfOk result (λ r. r.value ≡ value.now) }
    {
        let digest = vic_hash::leaf(key, value);
        let spare = Node::Leaf(Bytes::new(self.alloc), Bytes::new(self.alloc), digest);
        let spare = Box::new(self.alloc, spare)?;
        let leaf_key = Bytes::of(self.alloc, key)?;
        let leaf_value = Bytes::of(self.alloc, value)?;
        let fresh = Box::new(self.alloc, Node::Leaf(leaf_key, leaf_value, digest))?;
        let key = Bytes::of(self.alloc, key)?;
        let value = Bytes::of(self.alloc, value)?;
        Ok(Ready {
            key,
            value,
            fresh,
            spare,
        })
    }

    /// Gives a key a value by memory that was taken before.
    pub fn put_ready(&mut self, ready: Ready)
        requires ready { IsReady ready }
        requires room { weight_of self.old ≤ 4294967295 }
        ensures { self.new ≡ map.insert self.old ready.key ready.value }
    {
        let Ready {
            key,
            value,
            fresh,
            spare,
        } = ready;
        // For the proof alone.
        key.are_bytes();
        let long = value.len() as u64;
        match put_ready_into(&mut self.top, key.as_slice(), value, fresh, spare) {
            Some(old) => {
                self.weight = self.weight + long - old as u64;
            }
            None => {
                self.weight += 16 + key.len() as u64 + long;
                self.count += 1;
            }
        }
    }

    // What takes a change at this key back.
    fn undo_at(&self, key: &[u8]) -> Result<Undo, NoMemory>
        requires { IsKey key.now }
        ensures can { IfOk result CanUndo }
        ensures back { IfOk result (λ u. (e : Dictionary) → ((q : List ℕ) → (q ≡ key.now → ⊥) → map.get e q ≡ map.get self.now q) → dictionary_undone u e ≡ self.now) }
    {
        match self.get(key) {
            None => Ok(Undo::Gone(Bytes::of(self.alloc, key)?)),
            Some(value) => Ok(Undo::Back(self.ready(key, value.as_slice())?)),
        }
    }

    /// Does a put or del, and tells what takes it back, which holds all memory that this takes. It costs the depth of the key's place.
    /// After an `Err` nothing changed; get and list change nothing.
    pub fn change(&mut self, op: &Op) -> Result<Undo, NoMemory>
        requires fits { Fits op.now }
        requires room { weight_of self.old ≤ 4294967295 }
        ensures ok { OnOk result (self.new ≡ after self.old op.now) }
        ensures can { IfOk result CanUndo }
        ensures back { IfOk result (λ u. dictionary_undone u self.new ≡ self.old) }
        ensures weighs { OnOk result (weight_of self.new ≤ weight_of self.old + added_weight op.now) }
        ensures err { OnErr result (self.new ≡ self.old) }
    {
        match op {
            Op::Put(key, value) => {
                let undo = self.undo_at(key.as_slice())?;
                self.put(key.as_slice(), value.as_slice())?;
                Ok(undo)
            }
            Op::Del(key) => {
                let undo = self.undo_at(key.as_slice())?;
                let _ = self.del(key.as_slice());
                Ok(undo)
            }
            _ => Ok(Undo::Nothing),
        }
    }

    /// Takes a change back. It takes no memory, and costs what the change cost.
    pub fn undo(&mut self, undo: Undo)
        requires can { CanUndo undo }
        requires room { weight_of self.old ≤ 4294967295 }
        ensures { self.new ≡ dictionary_undone undo self.old }
    {
        match undo {
            Undo::Nothing => (),
            Undo::Gone(key) => {
                let _ = self.del(key.as_slice());
            }
            Undo::Back(ready) => self.put_ready(ready),
        }
    }

    /// Takes the key out, and tells whether it was there. It costs the depth of the key's place, hashes the nodes on the way there, and
    /// takes no memory.
    pub fn del(&mut self, key: &[u8]) -> bool
        ensures found { IsTrue result ↔ IsSome (map.get self.old key.now) }
        ensures after { self.new ≡ map.remove self.old key.now }
        ensures weighs { weight_of self.new ≤ weight_of self.old }
    {
        match take_from(&mut self.top, self.alloc, key) {
            None => false,
            Some(old) => {
                self.weight -= 16 + key.len() as u64 + old as u64;
                self.count -= 1;
                true
            }
        }
    }

    /// The keys with the prefix, ascending. It costs the way to them and their bytes.
    pub fn list(&self, prefix: &[u8]) -> Result<Names, NoMemory>
        ensures { IfOk result (λ names. names ≡ filter (λ k. starts_with nat_eq k prefix.now) (map.keys self.now)) }
    {
        let mut names = Names::new(self.alloc);
        match &self.top {
            None => Ok(names),
            Some(node) => {
                if prefix.len() > LONGEST_KEY {
                    return Ok(names);
                }
                let node = node.below(prefix);
                if !vic_keybits::has_prefix(node.least().as_slice(), prefix) {
                    return Ok(names);
                }
                node.collect(self.alloc, &mut names)?;
                Ok(names)
            }
        }
    }

    /// A copy. It costs the whole dictionary, but hashes nothing.
    pub fn copy(&self) -> Result<Trie, NoMemory>
        ensures { IfOk result (λ t. t ≡ self.now) }
    {
        let top = match &self.top {
            None => None,
            Some(node) => Some(node.copy(self.alloc)?),
        };
        Ok(Trie {
            alloc: self.alloc,
            top,
            weight: self.weight,
            count: self.count,
        })
    }
}
