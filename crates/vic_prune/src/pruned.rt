ghost use Rattle.std.specs.Prelude.{◌≤◌, ◌≡◌, ◌<◌, ◌↔◌, length, false, true, IfOk, IfErr, MatchOption, OnOk, option_copied, Err, ◌++◌, List, ℕ, ◌⊎◌};
ghost use Rattle.vic_dict.specs.declared.limits.TheConstants.{LONGEST_KEY, LONGEST_VALUE};
ghost use Rattle.vic_dict.specs.Dictionary.{Dictionary, IsKey, Fits, AreBytesIn, HasByteKeys, nothing, reply, after};
ghost use Rattle.vic_dict.specs.Lists.{AreBytes};
ghost use Rattle.vic_tree.specs.Binding.{Collides};
ghost use Rattle.vic_wire.specs.Trees.{Tree, Empty, Leaf, root_of, pairs_of, tree_of, dictionary_root, node_texts};
ghost use Rattle.vic_wire.specs.Cuts.{IsCut};
ghost use Rattle.vic_wire.specs.Walks.{end_at, is_stub, is_gone, is_whole, below, least, leaf_has_prefix, pairs_of_walk, dictionary_with_pairs, tree_with_value, fork_of, tree_with_fork, del_in, tree_of_sides, reaches, walked, put_in, tree_after};
ghost use Rattle.vic_wire.specs.Parts.{IsPart};
ghost use Rattle.std.specs.Prelude.{map as map_list, filter, nat_eq, IfSome, IsTrue};
ghost use Rattle.std.specs.List.{starts_with};
ghost use Rattle.std.specs.FinMap as map;
ghost use Rattle.vic_prune.specs.Parts.{part, found_at, KeysFit};
ghost use Rattle.vic_prune.specs.Listed.{AreListed};

use std::alloc::Global;
use vic_dict::{Answer, Bytes, Names, NoMemory, Op, PlainDict};
use vic_hash::Digest32;

/// A tree of which subtrees may be cut away.
#[derive(Drop)]
pub enum Pruned {
    Empty,
    Leaf(Bytes, Bytes),
    Inner(u16, Box<Pruned>, Box<Pruned>),
    Stub(Digest32),
}

/// Why an operation on a part has no answer.
#[derive(Clone, Copy, Debug, PartialEq, Eq)]
pub enum PruneFault {
    /// The walk meets a stub.
    Stub,
    NoMemory,
}

impl Pruned {
    /// The root of the tree that this is cut from.
    #[tactic(auto, using(vic_tree::proofs::Grammar::part_fits))]
    pub fn root(&self) -> Digest32
        requires { IsPart (part self.now) }
        ensures root { result.bytes ≡ root_of (part self.now) }

        // A part with the root of a dictionary is a cut of its tree, or two different node texts have one hash.
        ensures binds { (d : Dictionary) → HasByteKeys d → result.bytes ≡ dictionary_root d
            → IsCut (part self.now) (tree_of d) ⊎ Collides (node_texts (part self.now) ++ node_texts (tree_of d)) }
    {
        self.node_root()
    }

    fn node_root(&self) -> Digest32
        requires { KeysFit self.now }
        ensures { result.bytes ≡ root_of (part self.now) }
    {
        match self {
            Pruned::Empty => vic_hash::empty(),
            Pruned::Leaf(key, value) => vic_hash::leaf(key.as_slice(), value.as_slice()),
            Pruned::Inner(index, left, right) => vic_hash::inner(
                *index,
                &left.node_root(),
                &right.node_root(),
            ),
            Pruned::Stub(digest) => *digest,
        }
    }

    // The pair at the end of the key's walk: None at a stub, Some(None) at nothing.
    fn end(&self, key: &[u8]) -> Option<Option<(&Bytes, &Bytes)>>
        requires keys { KeysFit self.now }
        requires fits { length key.now ≤ LONGEST_KEY }
        ensures { MatchOption result (is_stub (end_at key.now (part self.now)) ≡ true)
            (λ pair. MatchOption pair (end_at key.now (part self.now) ≡ Empty)
            (λ p. (end_at key.now (part self.now) ≡ Leaf p.0.now p.1.now) × IsKey p.0.now)) }
    {
        match self {
            Pruned::Empty => Some(None),
            Pruned::Leaf(key, value) => Some(Some((key, value))),
            Pruned::Inner(index, left, right) => {
                if vic_keybits::bit(key, u32::from(*index)) {
                    right.end(key)
                } else {
                    left.end(key)
                }
            }
            Pruned::Stub(_) => None,
        }
    }

    fn below(&self, prefix: &[u8]) -> &Pruned
        requires keys { KeysFit self.now }
        requires fits { length prefix.now ≤ LONGEST_KEY }
        ensures tree { part result.now ≡ below prefix.now (part self.now) }
        ensures keys { KeysFit result.now }
    {
        match self {
            Pruned::Inner(index, left, right) if usize::from(*index) < 9 * prefix.len() => {
                if vic_keybits::bit(prefix, u32::from(*index)) {
                    right.below(prefix)
                } else {
                    left.below(prefix)
                }
            }
            _ => self,
        }
    }

    fn is_whole(&self) -> bool
        ensures { result ≡ is_whole (part self.now) }
    {
        match self {
            Pruned::Empty => true,
            Pruned::Leaf(_, _) => true,
            Pruned::Inner(_, left, right) => left.is_whole() && right.is_whole(),
            Pruned::Stub(_) => false,
        }
    }

    // Appends the pairs at the leaves, from the left.
    fn push_rows(&self, alloc: Global, rows: &mut Vec<(Bytes, Bytes)>) -> Result<(), NoMemory>
        ensures { OnOk result (rows.new.items ≡ rows.old.items ++ pairs_of (part self.now)) }
    {
        match self {
            Pruned::Leaf(key, value) => {
                rows.push((key.copy(alloc)?, value.copy(alloc)?))?;
                Ok(())
            }
            Pruned::Inner(_, left, right) => {
                left.push_rows(alloc, rows)?;
                right.push_rows(alloc, rows)
            }
            _ => Ok(()),
        }
    }

    // Puts the pairs at the leaves one after the other, from the left.
    #[tactic(auto, using(crate::proofs::Gathered::gathered_append))]
    fn lay(&self, alloc: Global, dict: &mut PlainDict) -> Result<(), NoMemory>
        requires { KeysFit self.now }
        ensures { OnOk result (dict.new ≡ dictionary_with_pairs dict.old (pairs_of (part self.now))) }
    {
        match self {
            Pruned::Leaf(key, value) => dict.put(key.copy(alloc)?, value.copy(alloc)?),
            Pruned::Inner(_, left, right) => {
                left.lay(alloc, dict)?;
                right.lay(alloc, dict)
            }
            _ => Ok(()),
        }
    }

    // The rows of the leaves, from the left.
    fn rows(&self, alloc: Global) -> Result<Vec<(Bytes, Bytes)>, NoMemory>
        ensures { IfOk result (λ rows. rows.items ≡ pairs_of (part self.now)) }
    {
        let mut rows = Vec::new(alloc);
        self.push_rows(alloc, &mut rows)?;
        Ok(rows)
    }

    // The leaves, put one after the other.
    fn laid(&self, alloc: Global) -> Result<PlainDict, NoMemory>
        requires { KeysFit self.now }
        ensures { IfOk result (λ d. d ≡ dictionary_with_pairs nothing (pairs_of (part self.now))) }
    {
        let mut dict = PlainDict::new(alloc);
        self.lay(alloc, &mut dict)?;
        Ok(dict)
    }

    // The dictionary of the leaves, of two with one key the one on the right. Where the keys rise, as they do in every tree of a
    // dictionary, it costs what the leaves have.
    #[tactic(auto, using(crate::proofs::Gathered::rows_fit, crate::proofs::Gathered::gathered_sorted))]
    fn gather(&self, alloc: Global) -> Result<PlainDict, NoMemory>
        requires { KeysFit self.now }
        ensures { IfOk result (λ d. d ≡ dictionary_with_pairs nothing (pairs_of (part self.now))) }
    {
        let rows = self.rows(alloc)?;
        match PlainDict::from_rows(rows) {
            Some(dict) => Ok(dict),
            None => self.laid(alloc),
        }
    }

    // Appends the keys of the leaves, from the left.
    fn push_names(&self, alloc: Global, names: &mut Names) -> Result<(), NoMemory>
        ensures { OnOk result (names.new ≡ names.old ++ map_list (λ e. e.0) (pairs_of (part self.now))) }
    {
        match self {
            Pruned::Leaf(key, _) => {
                names.push(key.copy(alloc)?)?;
                Ok(())
            }
            Pruned::Inner(_, left, right) => {
                left.push_names(alloc, names)?;
                right.push_names(alloc, names)
            }
            _ => Ok(()),
        }
    }

    // The keys of the leaves, from the left.
    fn keys(&self, alloc: Global) -> Result<Names, NoMemory>
        ensures { IfOk result (λ names. names ≡ map_list (λ e. e.0) (pairs_of (part self.now))) }
    {
        let mut names = Names::new(alloc);
        self.push_names(alloc, &mut names)?;
        Ok(names)
    }

    // What a list answers at these leaves, where their keys rise and have the prefix, as those of every dictionary's tree do.
    #[tactic(auto, using(crate::proofs::Listing::names_listed))]
    fn names(&self, alloc: Global, prefix: &[u8]) -> Result<Option<Names>, NoMemory>
        ensures { IfOk result (λ found. IfSome found (λ names. names ≡ filter (λ k. starts_with nat_eq k prefix.now) (map.keys (dictionary_with_pairs nothing (pairs_of (part self.now)))))) }
    {
        let names = self.keys(alloc)?;
        if are_listed(names.as_slice(), prefix) {
            return Ok(Some(names));
        }
        Ok(None)
    }

    // What a list answers at these leaves, whatever their order.
    fn laid_names(&self, alloc: Global, prefix: &[u8]) -> Result<Names, NoMemory>
        requires { KeysFit self.now }
        ensures { IfOk result (λ names. names ≡ filter (λ k. starts_with nat_eq k prefix.now) (map.keys (dictionary_with_pairs nothing (pairs_of (part self.now))))) }
    {
        let dict = self.laid(alloc)?;
        dict.list(alloc, prefix)
    }

    // The node at the end of the key's walk.
    fn end_node(&self, key: &[u8]) -> &Pruned
        requires keys { KeysFit self.now }
        requires fits { length key.now ≤ LONGEST_KEY }
        ensures tree { part result.now ≡ end_at key.now (part self.now) }
        ensures keys { KeysFit result.now }
    {
        match self {
            Pruned::Inner(index, left, right) => {
                if vic_keybits::bit(key, u32::from(*index)) {
                    right.end_node(key)
                } else {
                    left.end_node(key)
                }
            }
            _ => self,
        }
    }

    // The node to which one goes left down.
    fn least_node(&self) -> &Pruned
        requires { KeysFit self.now }
        ensures tree { part result.now ≡ least (part self.now) }
        ensures keys { KeysFit result.now }
    {
        match self {
            Pruned::Inner(_, left, _) => left.least_node(),
            _ => self,
        }
    }

    // Whether this is a leaf whose key has the prefix.
    fn has_prefix(&self, prefix: &[u8]) -> bool
        ensures { result ≡ leaf_has_prefix prefix.now (part self.now) }
    {
        match self {
            Pruned::Leaf(key, _) => vic_keybits::has_prefix(key.as_slice(), prefix),
            _ => false,
        }
    }

    // The node whose leaves the walk of a list visits.
    #[tactic(auto, using(crate::proofs::Gathered::least_whole))]
    fn listed(&self, prefix: &[u8]) -> &Pruned
        requires keys { KeysFit self.now }
        requires fits { length prefix.now ≤ LONGEST_KEY }
        ensures leaves { pairs_of (part result.now) ≡ pairs_of_walk (part self.now) (Op.List prefix.now) }
        ensures whole { is_whole (part result.now) ≡ reaches (part self.now) (Op.List prefix.now) }
        ensures keys { KeysFit result.now }
    {
        let node = self.below(prefix);
        let first = node.least_node();
        if first.has_prefix(prefix) {
            node
        } else {
            first
        }
    }

    // The node whose leaves the walk visits: all of them are shown exactly where it meets no stub.
    #[tactic(auto, using(crate::proofs::Gathered::end_whole))]
    fn seen(&self, op: &Op) -> &Pruned
        requires keys { KeysFit self.now }
        requires fits { Fits op.now }
        ensures leaves { pairs_of (part result.now) ≡ pairs_of_walk (part self.now) op.now }
        ensures whole { is_whole (part result.now) ≡ reaches (part self.now) op.now }
        ensures keys { KeysFit result.now }
    {
        match op {
            Op::Put(key, _) => self.end_node(key.as_slice()),
            Op::Get(key) => self.end_node(key.as_slice()),
            Op::Del(key) => self.end_node(key.as_slice()),
            Op::List(prefix) => self.listed(prefix.as_slice()),
        }
    }

    /// The dictionary of the pairs that the walk of the operation visits.
    #[tactic(auto, using(vic_tree::proofs::Grammar::part_fits))]
    pub fn walked(&self, alloc: Global, op: &Op) -> Result<PlainDict, PruneFault>
        requires part { IsPart (part self.now) }
        requires fits { Fits op.now }
        ensures walked { IfOk result (λ d. d ≡ walked (part self.now) op.now) }
        ensures reached { IfOk result (λ d. reaches (part self.now) op.now ≡ true) }
        ensures stub { (result ≡ Err PruneFault.Stub) ↔ (reaches (part self.now) op.now ≡ false) }
    {
        let seen = self.seen(op);
        if !seen.is_whole() {
            return Err(PruneFault::Stub);
        }
        match seen.gather(alloc) {
            Ok(dict) => Ok(dict),
            Err(_) => Err(PruneFault::NoMemory),
        }
    }

    /// Whether the walk of the operation meets no stub.
    #[tactic(auto, using(vic_tree::proofs::Grammar::part_fits))]
    pub fn reaches(&self, op: &Op) -> bool
        requires part { IsPart (part self.now) }
        requires fits { Fits op.now }
        ensures { result ≡ reaches (part self.now) op.now }
    {
        self.seen(op).is_whole()
    }

    // The value of a leaf of this key.
    fn value_of(&self, key: &[u8]) -> Option<&Bytes>
        ensures { option_copied result ≡ found_at key.now (part self.now) }
    {
        match self {
            Pruned::Leaf(held, value) => if key == held.as_slice() {
                Some(value)
            } else {
                None
            },
            _ => None,
        }
    }

    /// What stands under a key, by its walk; at a stub nothing does. It takes no memory.
    #[tactic(auto, using(vic_tree::proofs::Grammar::part_fits, crate::proofs::Gathered::found_end))]
    pub fn get(&self, key: &[u8]) -> Option<&Bytes>
        requires part { IsPart (part self.now) }
        requires fits { IsKey key.now }
        ensures { option_copied result ≡ map.get (walked (part self.now) (Op.Get key.now)) key.now }
    {
        self.end_node(key).value_of(key)
    }

    fn revalued_root(&self, key: &[u8], value: &[u8]) -> Digest32
        requires keys { KeysFit self.now }
        requires fits { IsKey key.now }
        requires value { length value.now ≤ LONGEST_VALUE }
        ensures { result.bytes ≡ root_of (tree_with_value key.now value.now (part self.now)) }
    {
        match self {
            Pruned::Empty => vic_hash::empty(),
            Pruned::Leaf(_, _) => vic_hash::leaf(key, value),
            Pruned::Inner(index, left, right) => {
                if vic_keybits::bit(key, u32::from(*index)) {
                    let right = right.revalued_root(key, value);
                    vic_hash::inner(*index, &left.node_root(), &right)
                } else {
                    let left = left.revalued_root(key, value);
                    vic_hash::inner(*index, &left, &right.node_root())
                }
            }
            Pruned::Stub(digest) => *digest,
        }
    }

    fn forked_root(&self, index: u16, key: &[u8], value: &[u8]) -> Digest32
        requires keys { KeysFit self.now }
        requires fits { IsKey key.now }
        requires value { length value.now ≤ LONGEST_VALUE }
        ensures { result.bytes ≡ root_of (fork_of index key.now value.now (part self.now)) }
    {
        let old = self.node_root();
        let fresh = vic_hash::leaf(key, value);
        if vic_keybits::bit(key, u32::from(index)) {
            vic_hash::inner(index, &old, &fresh)
        } else {
            vic_hash::inner(index, &fresh, &old)
        }
    }

    fn planted_root(&self, index: u16, key: &[u8], value: &[u8]) -> Digest32
        requires keys { KeysFit self.now }
        requires fits { IsKey key.now }
        requires value { length value.now ≤ LONGEST_VALUE }
        ensures { result.bytes ≡ root_of (tree_with_fork index key.now value.now (part self.now)) }
    {
        match self {
            Pruned::Inner(at, left, right) if *at < index => {
                if vic_keybits::bit(key, u32::from(*at)) {
                    let right = right.planted_root(index, key, value);
                    vic_hash::inner(*at, &left.node_root(), &right)
                } else {
                    let left = left.planted_root(index, key, value);
                    vic_hash::inner(*at, &left, &right.node_root())
                }
            }
            _ => self.forked_root(index, key, value),
        }
    }

    // The root, and None of nothing.
    fn side_root(&self) -> Option<Digest32>
        requires { KeysFit self.now }
        ensures { MatchOption result (part self.now ≡ Empty) (λ d. (is_gone (part self.now) ≡ false) × (d.bytes ≡ root_of (part self.now))) }
    {
        match self {
            Pruned::Empty => None,
            _ => Some(self.node_root()),
        }
    }

    // The root without the key, and None of nothing.
    fn deleted_root(&self, key: &[u8]) -> Option<Digest32>
        requires keys { KeysFit self.now }
        requires fits { IsKey key.now }
        ensures { MatchOption result (del_in key.now (part self.now) ≡ Empty)
            (λ d. (is_gone (del_in key.now (part self.now)) ≡ false) × (d.bytes ≡ root_of (del_in key.now (part self.now)))) }
    {
        match self {
            Pruned::Empty => None,
            Pruned::Leaf(held, value) => {
                if held.as_slice() == key {
                    None
                } else {
                    Some(vic_hash::leaf(held.as_slice(), value.as_slice()))
                }
            }
            Pruned::Inner(index, left, right) => {
                if vic_keybits::bit(key, u32::from(*index)) {
                    joined_root(*index, left.side_root(), right.deleted_root(key))
                } else {
                    joined_root(*index, left.deleted_root(key), right.side_root())
                }
            }
            Pruned::Stub(digest) => Some(*digest),
        }
    }

    // What a list answers.
    #[tactic(auto, using(vic_tree::proofs::Grammar::part_fits))]
    fn list(&self, alloc: Global, prefix: &Bytes) -> Result<Answer, PruneFault>
        requires part { IsPart (part self.now) }
        requires fits { length prefix.now ≤ LONGEST_KEY }
        ensures answer { IfOk result (λ a. a ≡ reply (walked (part self.now) (Op.List prefix.now)) (Op.List prefix.now)) }
        ensures reached { IfOk result (λ a. reaches (part self.now) (Op.List prefix.now) ≡ true) }
        ensures stub { (result ≡ Err PruneFault.Stub) ↔ (reaches (part self.now) (Op.List prefix.now) ≡ false) }
    {
        let seen = self.listed(prefix.as_slice());
        if !seen.is_whole() {
            return Err(PruneFault::Stub);
        }
        match seen.names(alloc, prefix.as_slice()) {
            Ok(Some(names)) => Ok(Answer::Names(names)),
            Ok(None) => match seen.laid_names(alloc, prefix.as_slice()) {
                Ok(names) => Ok(Answer::Names(names)),
                Err(_) => Err(PruneFault::NoMemory),
            },
            Err(_) => Err(PruneFault::NoMemory),
        }
    }

    /// The answer of the operation at the pairs that its walk visits.
    pub fn try_op(&self, alloc: Global, op: &Op) -> Result<Answer, PruneFault>
        requires part { IsPart (part self.now) }
        requires fits { Fits op.now }
        ensures answer { IfOk result (λ a. a ≡ reply (walked (part self.now) op.now) op.now) }
        ensures stub { (result ≡ Err PruneFault.Stub) ↔ (reaches (part self.now) op.now ≡ false) }

        // On a cut of a dictionary's tree it is the answer of the dictionary.
        ensures cut { IfOk result (λ a. (d : Dictionary) → HasByteKeys d → IsCut (part self.now) (tree_of d) → a ≡ reply d op.now) }
    {
        // For the proof alone.
        are_bytes(op);
        if let Op::List(prefix) = op {
            return self.list(alloc, prefix);
        }
        let mut dict = match self.walked(alloc, op) {
            Ok(dict) => dict,
            Err(PruneFault::Stub) => return Err(PruneFault::Stub),
            Err(PruneFault::NoMemory) => return Err(PruneFault::NoMemory),
        };
        match dict.do_op(alloc, op) {
            Ok(answer) => Ok(answer),
            Err(_) => Err(PruneFault::NoMemory),
        }
    }

    /// The root after the operation.
    #[tactic(auto, using(vic_tree::proofs::Grammar::part_fits))]
    pub fn after(&self, op: &Op) -> Result<Digest32, PruneFault>
        requires part { IsPart (part self.now) }
        requires fits { Fits op.now }
        ensures root { IfOk result (λ d. d.bytes ≡ root_of (tree_after (part self.now) op.now)) }
        ensures stub { (result ≡ Err PruneFault.Stub) ↔ (reaches (part self.now) op.now ≡ false) }
        ensures memory { result ≡ Err PruneFault.NoMemory → ⊥ }

        // On a cut of a dictionary's tree it is the root of the dictionary after the operation.
        ensures cut { IfOk result (λ r. (d : Dictionary) → HasByteKeys d → IsCut (part self.now) (tree_of d) → r.bytes ≡ dictionary_root (after d op.now)) }
    {
        if !self.reaches(op) {
            return Err(PruneFault::Stub);
        }
        match op {
            Op::Put(key, value) => {
                let key = key.as_slice();
                Ok(self.put_root(key, value.as_slice()))
            }
            Op::Get(_) => Ok(self.node_root()),
            Op::Del(key) => {
                let key = key.as_slice();
                Ok(self.del_root(key))
            }
            Op::List(_) => Ok(self.node_root()),
        }
    }

    fn del_root(&self, key: &[u8]) -> Digest32
        requires keys { KeysFit self.now }
        requires fits { IsKey key.now }
        ensures root { result.bytes ≡ root_of (del_in key.now (part self.now)) }
        ensures bytes { AreBytes key.now }
    {
        match self.deleted_root(key) {
            None => vic_hash::empty(),
            Some(root) => root,
        }
    }

    fn put_root(&self, key: &[u8], value: &[u8]) -> Digest32
        requires keys { KeysFit self.now }
        requires fits { IsKey key.now }
        requires value { length value.now ≤ LONGEST_VALUE }
        ensures root { is_stub (end_at key.now (part self.now)) ≡ false → result.bytes ≡ root_of (put_in key.now value.now (part self.now)) }
        ensures bytes { AreBytes key.now }
    {
        match self.end(key) {
            None => vic_hash::empty(),
            Some(None) => vic_hash::leaf(key, value),
            Some(Some((held, _))) => match vic_keybits::first_difference(key, held.as_slice()) {
                None => self.revalued_root(key, value),
                Some(index) => self.planted_root(index as u16, key, value),
            },
        }
    }
}

// Whether the keys rise and all have the prefix.
fn are_listed(names: &[Bytes], prefix: &[u8]) -> bool
    ensures { IsTrue result → AreListed prefix.now names.now (length names.now) }
{
    for i in 0..names.len() {
        if !names[i].as_slice().starts_with(prefix) {
            return false;
        }
        if i > 0 && !names[i - 1].as_slice().cmp(names[i].as_slice()).is_lt() {
            return false;
        }
    }
    true
}

// The texts of an operation are bytes, for a proof: see `Bytes::are_bytes`. It does nothing when it runs.
fn are_bytes(op: &Op)
    ensures { AreBytesIn op.now }
{
    match op {
        Op::Put(key, value) => {
            key.are_bytes();
            value.are_bytes();
        }
        Op::Get(key) => key.are_bytes(),
        Op::Del(key) => key.are_bytes(),
        Op::List(prefix) => prefix.are_bytes(),
    }
}

// The root of two sides of which either may be gone.
fn joined_root(index: u16, left: Option<Digest32>, right: Option<Digest32>) -> Option<Digest32>
    ensures { (l r : Tree)
        → MatchOption left (l ≡ Empty) (λ d. (is_gone l ≡ false) × (d.bytes ≡ root_of l))
        → MatchOption right (r ≡ Empty) (λ d. (is_gone r ≡ false) × (d.bytes ≡ root_of r))
        → MatchOption result (tree_of_sides index l r ≡ Empty) (λ d. (is_gone (tree_of_sides index l r) ≡ false) × (d.bytes ≡ root_of (tree_of_sides index l r))) }
{
    match (left, right) {
        (None, right) => right,
        (left, None) => left,
        (Some(left), Some(right)) => Some(vic_hash::inner(index, &left, &right)),
    }
}
