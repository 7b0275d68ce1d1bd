ghost use Rattle.std.specs.Prelude.{◌≡◌, ◌<◌, ◌≤◌, length, List, ℕ, MatchBool, option_copied, IfOk, OnErr, OnOk, Some, ◌++◌, map, MatchOption};
ghost use Rattle.std.specs.Bool.{OnTrue};
ghost use Rattle.vic_dict.specs.declared.limits.TheConstants.{LONGEST_KEY, LONGEST_VALUE};
ghost use Rattle.vic_dict.specs.Dictionary.{IsKey};
ghost use Rattle.vic_wire.specs.Trees.{Tree, Empty, Leaf, root_of, pairs_of};
ghost use Rattle.vic_wire.specs.Walks.{end_at, below, least, tree_with_value, fork_of, tree_with_fork, put_in, del_in};
ghost use Rattle.vic_tree.specs.Shown.{value_at, side_of};
ghost use Rattle.vic_trie.specs.Nodes.{tree, IsSound};
ghost use Rattle.vic_trie.specs.Tries.{Grows, Keeps};

use std::alloc::Global;
use std::mem;
use vic_dict::{Bytes, Names, NoMemory};
use vic_hash::Digest32;

/// A subtree with its root.
#[derive(Debug, Drop)]
pub enum Node {
    Leaf(Bytes, Bytes, Digest32),
    Inner(u16, Digest32, Box<Node>, Box<Node>),
}

impl Node {
    /// The root of this subtree.
    pub fn root(&self) -> Digest32
        requires { IsSound self.now }
        ensures { result.bytes ≡ root_of (tree self.now) }
    {
        match self {
            Node::Leaf(_, _, digest) => *digest,
            Node::Inner(_, digest, _, _) => *digest,
        }
    }

    /// The leaf at the end of the key's walk.
    pub(crate) fn end(&self, key: &[u8]) -> (&Bytes, &Bytes)
        requires sound { IsSound self.now }
        requires fits { length key.now ≤ LONGEST_KEY }
        ensures leaf { end_at key.now (tree self.now) ≡ Leaf result.0.now result.1.now }
        ensures fits { IsKey result.0.now × (length result.1.now ≤ LONGEST_VALUE) }
    {
        match self {
            Node::Leaf(key, value, _) => (key, value),
            Node::Inner(index, _, left, right) => {
                if vic_keybits::bit(key, u32::from(*index)) {
                    right.end(key)
                } else {
                    left.end(key)
                }
            }
        }
    }

    /// Sets the value of the leaf at the end of the key's walk.
    pub(crate) fn revalue(&mut self, key: &[u8], value: Bytes)
        requires sound { IsSound self.old }
        requires key { IsKey key.now }
        requires value { length value ≤ LONGEST_VALUE }
        requires at_key { (w : List ℕ) × (end_at key.now (tree self.old) ≡ Leaf key.now w) }
        ensures tree { tree self.new ≡ tree_with_value key.now value (tree self.old) }
        ensures sound { IsSound self.new }
    {
        match self {
            Node::Leaf(key, old, digest) => {
                *digest = vic_hash::leaf(key.as_slice(), value.as_slice());
                *old = value;
            }
            Node::Inner(index, digest, left, right) => {
                if vic_keybits::bit(key, u32::from(*index)) {
                    right.revalue(key, value);
                } else {
                    left.revalue(key, value);
                }
                *digest = vic_hash::inner(*index, &left.root(), &right.root());
            }
        }
    }

    /// Puts a new leaf beside the first node of the key's walk that is no Inner of an index below this one. `spare` is
    /// any node, whose box the old node gets.
    pub(crate) fn plant(&mut self, key: &[u8], index: u16, fresh: Box<Node>, spare: Box<Node>)
        requires sound { IsSound self.old }
        requires key { IsKey key.now }
        requires fresh { IsSound fresh.value × ((w : List ℕ) × (tree fresh.value ≡ Leaf key.now w)) }
        ensures tree { (w : List ℕ) → tree fresh.value ≡ Leaf key.now w → tree self.new ≡ tree_with_fork index key.now w (tree self.old) }
        ensures sound { IsSound self.new }
    {
        match self {
            Node::Inner(at, digest, left, right) if *at < index => {
                if vic_keybits::bit(key, u32::from(*at)) {
                    right.plant(key, index, fresh, spare);
                } else {
                    left.plant(key, index, fresh, spare);
                }
                *digest = vic_hash::inner(*at, &left.root(), &right.root());
            }
            _ => self.fork(key, index, fresh, spare),
        }
    }

    fn fork(&mut self, key: &[u8], index: u16, fresh: Box<Node>, spare: Box<Node>)
        requires sound { IsSound self.old }
        requires key { IsKey key.now }
        requires fresh { IsSound fresh.value × ((w : List ℕ) × (tree fresh.value ≡ Leaf key.now w)) }
        ensures tree { (w : List ℕ) → tree fresh.value ≡ Leaf key.now w → tree self.new ≡ fork_of index key.now w (tree self.old) }
        ensures sound { IsSound self.new }
    {
        let mut old = spare;
        mem::swap(self, &mut *old);
        let (left, right) = if vic_keybits::bit(key, u32::from(index)) {
            (old, fresh)
        } else {
            (fresh, old)
        };
        let digest = vic_hash::inner(index, &left.root(), &right.root());
        *self = Node::Inner(index, digest, left, right);
    }

    // The side moves up to where this node stands.
    fn keep_side(&mut self, alloc: Global, right: bool)
        requires sound { IsSound self.old }
        ensures tree { tree self.new ≡ side_of right (tree self.old) }
        ensures sound { IsSound self.new }
    {
        let digest = self.root();
        let spare = Node::Leaf(Bytes::new(alloc), Bytes::new(alloc), digest);
        *self = match mem::replace(self, spare) {
            Node::Leaf(key, value, digest) => Node::Leaf(key, value, digest),
            Node::Inner(_, _, l, r) => {
                if right {
                    Box::into_inner(r)
                } else {
                    Box::into_inner(l)
                }
            }
        };
    }

    /// Takes out the leaf of the key, and tells where this node itself is that leaf, which then stays.
    #[tactic(auto, using(crate::proofs::Nodes::not_gone))]
    pub(crate) fn take_out(&mut self, alloc: Global, key: &[u8]) -> bool
        requires sound { IsSound self.old }
        requires key { IsKey key.now }
        requires at_key { (w : List ℕ) × (end_at key.now (tree self.old) ≡ Leaf key.now w) }
        ensures tree { MatchBool result (del_in key.now (tree self.old) ≡ Empty) (tree self.new ≡ del_in key.now (tree self.old)) }
        ensures stays { OnTrue result (tree self.new ≡ tree self.old) }
        ensures sound { IsSound self.new }
    {
        match self {
            Node::Leaf(_, _, _) => true,
            Node::Inner(index, digest, left, right) => {
                if vic_keybits::bit(key, u32::from(*index)) {
                    if right.take_out(alloc, key) {
                        self.keep_side(alloc, false);
                    } else {
                        *digest = vic_hash::inner(*index, &left.root(), &right.root());
                    }
                } else if left.take_out(alloc, key) {
                    self.keep_side(alloc, true);
                } else {
                    *digest = vic_hash::inner(*index, &left.root(), &right.root());
                }
                false
            }
        }
    }

    /// The first node on the way of the prefix's bits that is no Inner of an index among them.
    pub(crate) fn below(&self, prefix: &[u8]) -> &Node
        requires sound { IsSound self.now }
        requires fits { length prefix.now ≤ LONGEST_KEY }
        ensures tree { tree result.now ≡ below prefix.now (tree self.now) }
        ensures sound { IsSound result.now }
    {
        match self {
            Node::Inner(index, _, left, right) if usize::from(*index) < 9 * prefix.len() => {
                if vic_keybits::bit(prefix, u32::from(*index)) {
                    right.below(prefix)
                } else {
                    left.below(prefix)
                }
            }
            _ => self,
        }
    }

    /// The least key.
    pub fn least(&self) -> &Bytes
        requires sound { IsSound self.now }
        ensures leaf { (w : List ℕ) × (least (tree self.now) ≡ Leaf result.now w) }
        ensures fits { length result.now ≤ LONGEST_KEY }
    {
        match self {
            Node::Leaf(key, _, _) => key,
            Node::Inner(_, _, left, _) => left.least(),
        }
    }

    /// Appends the keys, ascending.
    pub(crate) fn collect(&self, alloc: Global, out: &mut Names) -> Result<(), NoMemory>
        ensures { OnOk result (out.new ≡ out.old ++ map (λ e. e.0) (pairs_of (tree self.now))) }
    {
        match self {
            Node::Leaf(key, _, _) => {
                out.push(key.copy(alloc)?)?;
                Ok(())
            }
            Node::Inner(_, _, left, right) => {
                left.collect(alloc, out)?;
                right.collect(alloc, out)
            }
        }
    }

    /// A copy of the subtree.
    pub(crate) fn copy(&self, alloc: Global) -> Result<Node, NoMemory>
        requires { IsSound self.now }
        ensures tree { IfOk result (λ n. tree n ≡ tree self.now) }
        ensures sound { IfOk result IsSound }
    {
        match self {
            Node::Leaf(key, value, digest) => {
                let key = key.copy(alloc)?;
                let value = value.copy(alloc)?;
                Ok(Node::Leaf(key, value, *digest))
            }
            Node::Inner(index, digest, left, right) => {
                let left = Box::new(alloc, left.copy(alloc)?)?;
                let right = Box::new(alloc, right.copy(alloc)?)?;
                Ok(Node::Inner(*index, *digest, left, right))
            }
        }
    }

    /// Gives the key this value, and tells the length of the value before. After an `Err` nothing changed.
    pub(crate) fn put(
        &mut self,
        alloc: Global,
        key: &[u8],
        value: &[u8],
    ) -> Result<Option<usize>, NoMemory>
        requires sound { IsSound self.old }
        requires key { IsKey key.now }
        requires value { length value.now ≤ LONGEST_VALUE }
        ensures tree { OnOk result (tree self.new ≡ put_in key.now value.now (tree self.old)) }
        ensures sound { IsSound self.new }
        ensures change { IfOk result (λ before. MatchOption before (Grows (tree self.old) (tree self.new) key.now value.now)
            (λ old. Keeps (tree self.old) (tree self.new) value.now old × (old ≤ LONGEST_VALUE))) }
        ensures err { OnErr result (self.new ≡ self.old) }
    {
        let held = Bytes::of(alloc, value)?;
        let (end, old) = self.end(key);
        match vic_keybits::first_difference(key, end.as_slice()) {
            None => {
                let old = old.len();
                self.revalue(key, held);
                Ok(Some(old))
            }
            Some(index) => {
                let digest = vic_hash::leaf(key, value);
                let spare = Node::Leaf(Bytes::new(alloc), Bytes::new(alloc), digest);
                let spare = Box::new(alloc, spare)?;
                let fresh = Node::Leaf(Bytes::of(alloc, key)?, held, digest);
                let fresh = Box::new(alloc, fresh)?;
                self.plant(key, index as u16, fresh, spare);
                Ok(None)
            }
        }
    }

    /// Gives the key this value by memory that was taken before, and tells the length of the value before.
    pub(crate) fn put_ready(
        &mut self,
        key: &[u8],
        value: Bytes,
        fresh: Box<Node>,
        spare: Box<Node>,
    ) -> Option<usize>
        requires sound { IsSound self.old }
        requires key { IsKey key.now }
        requires value { length value ≤ LONGEST_VALUE }
        requires fresh { IsSound fresh.value × (tree fresh.value ≡ Leaf key.now value) }
        ensures tree { tree self.new ≡ put_in key.now value (tree self.old) }
        ensures sound { IsSound self.new }
        ensures change { MatchOption result (Grows (tree self.old) (tree self.new) key.now value)
            (λ old. Keeps (tree self.old) (tree self.new) value old × (old ≤ LONGEST_VALUE)) }
    {
        let (end, old) = self.end(key);
        match vic_keybits::first_difference(key, end.as_slice()) {
            None => {
                let old = old.len();
                self.revalue(key, value);
                Some(old)
            }
            Some(index) => {
                self.plant(key, index as u16, fresh, spare);
                None
            }
        }
    }
}
