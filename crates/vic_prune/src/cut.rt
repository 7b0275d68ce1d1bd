ghost use Rattle.std.specs.Prelude.{◌≤◌, ◌≡◌, ◌<◌, length, IfOk, true};
ghost use Rattle.vic_dict.specs.declared.limits.TheConstants.{LONGEST_KEY};
ghost use Rattle.vic_dict.specs.Dictionary.{Fits};
ghost use Rattle.vic_wire.specs.Cuts.{IsCut, cut_at, cut_least, cut_below, cut_for, cut_none};
ghost use Rattle.vic_wire.specs.Trees.{tree_of};
ghost use Rattle.vic_tree.specs.Grown.{IsTree};
ghost use Rattle.vic_wire.specs.Walks.{reaches};
ghost use Rattle.vic_wire.specs.Parts.{IsPart};
ghost use Rattle.vic_trie.specs.Nodes.{tree, IsSound};
ghost use Rattle.vic_prune.specs.Parts.{part, KeysFit};

use crate::pruned::Pruned;
use std::alloc::Global;
use vic_dict::{NoMemory, Op};
use vic_trie::{Node, Trie};

/// The part for an operation.
pub fn cut_for(alloc: Global, trie: &Trie, op: &Op) -> Result<Pruned, NoMemory>
    requires { Fits op.now }
    ensures part { IfOk result (λ p. part p ≡ cut_for (tree_of trie.now) op.now) }
    ensures grammar { IfOk result (λ p. IsPart (part p)) }
    ensures cut { IfOk result (λ p. IsCut (part p) (tree_of trie.now)) }
    ensures reaches { IfOk result (λ p. reaches (part p) op.now ≡ true) }
{
    match trie.top() {
        None => Ok(Pruned::Empty),
        Some(top) => cut_of(alloc, top, op),
    }
}

fn cut_of(alloc: Global, node: &Node, op: &Op) -> Result<Pruned, NoMemory>
    requires sound { IsSound node.now }
    requires tree { IsTree (tree node.now) }
    requires fits { Fits op.now }
    ensures part { IfOk result (λ p. part p ≡ cut_for (tree node.now) op.now) }
    ensures keys { IfOk result KeysFit }
    ensures reaches { IfOk result (λ p. reaches (part p) op.now ≡ true) }
    ensures grammar { IfOk result (λ p. IsPart (part p)) }
{
    let part = cut_by(alloc, node, op)?;
    Ok(part)
}

fn cut_by(alloc: Global, node: &Node, op: &Op) -> Result<Pruned, NoMemory>
    requires sound { IsSound node.now }
    requires fits { Fits op.now }
    ensures part { IfOk result (λ p. part p ≡ cut_for (tree node.now) op.now) }
    ensures keys { IfOk result KeysFit }
{
    match op {
        Op::Put(key, _) => cut_at(alloc, node, key.as_slice()),
        Op::Get(key) => cut_at(alloc, node, key.as_slice()),
        Op::Del(key) => cut_at(alloc, node, key.as_slice()),
        Op::List(prefix) => cut_below(alloc, node, prefix.as_slice()),
    }
}

/// The bare part.
pub fn cut_none(trie: &Trie) -> Pruned
    ensures part { part result ≡ cut_none (tree_of trie.now) }
    ensures cut { IsCut (part result) (tree_of trie.now) }
    ensures grammar { IsPart (part result) }
{
    match trie.top() {
        None => Pruned::Empty,
        Some(node) => Pruned::Stub(node.root()),
    }
}

fn whole(alloc: Global, node: &Node) -> Result<Pruned, NoMemory>
    requires { IsSound node.now }
    ensures part { IfOk result (λ p. part p ≡ tree node.now) }
    ensures keys { IfOk result KeysFit }
{
    match node {
        Node::Leaf(key, value, _) => {
            let key = key.copy(alloc)?;
            let value = value.copy(alloc)?;
            Ok(Pruned::Leaf(key, value))
        }
        Node::Inner(index, _, left, right) => {
            let left = Box::new(alloc, whole(alloc, left)?)?;
            let right = Box::new(alloc, whole(alloc, right)?)?;
            Ok(Pruned::Inner(*index, left, right))
        }
    }
}

fn cut_at(alloc: Global, node: &Node, key: &[u8]) -> Result<Pruned, NoMemory>
    requires sound { IsSound node.now }
    requires fits { length key.now ≤ LONGEST_KEY }
    ensures part { IfOk result (λ p. part p ≡ cut_at key.now (tree node.now)) }
    ensures keys { IfOk result KeysFit }
{
    match node {
        Node::Leaf(key, value, _) => {
            let key = key.copy(alloc)?;
            let value = value.copy(alloc)?;
            Ok(Pruned::Leaf(key, value))
        }
        Node::Inner(index, _, left, right) => {
            if vic_keybits::bit(key, u32::from(*index)) {
                let left = Box::new(alloc, Pruned::Stub(left.root()))?;
                let right = Box::new(alloc, cut_at(alloc, right, key)?)?;
                Ok(Pruned::Inner(*index, left, right))
            } else {
                let left = Box::new(alloc, cut_at(alloc, left, key)?)?;
                let right = Box::new(alloc, Pruned::Stub(right.root()))?;
                Ok(Pruned::Inner(*index, left, right))
            }
        }
    }
}

fn cut_least(alloc: Global, node: &Node) -> Result<Pruned, NoMemory>
    requires { IsSound node.now }
    ensures part { IfOk result (λ p. part p ≡ cut_least (tree node.now)) }
    ensures keys { IfOk result KeysFit }
{
    match node {
        Node::Leaf(key, value, _) => {
            let key = key.copy(alloc)?;
            let value = value.copy(alloc)?;
            Ok(Pruned::Leaf(key, value))
        }
        Node::Inner(index, _, left, right) => {
            let left = Box::new(alloc, cut_least(alloc, left)?)?;
            let right = Box::new(alloc, Pruned::Stub(right.root()))?;
            Ok(Pruned::Inner(*index, left, right))
        }
    }
}

fn cut_below(alloc: Global, node: &Node, prefix: &[u8]) -> Result<Pruned, NoMemory>
    requires sound { IsSound node.now }
    requires fits { length prefix.now ≤ LONGEST_KEY }
    ensures part { IfOk result (λ p. part p ≡ cut_below prefix.now (tree node.now)) }
    ensures keys { IfOk result KeysFit }
{
    match node {
        Node::Inner(index, _, left, right) if usize::from(*index) < 9 * prefix.len() => {
            if vic_keybits::bit(prefix, u32::from(*index)) {
                let left = Box::new(alloc, Pruned::Stub(left.root()))?;
                let right = Box::new(alloc, cut_below(alloc, right, prefix)?)?;
                Ok(Pruned::Inner(*index, left, right))
            } else {
                let left = Box::new(alloc, cut_below(alloc, left, prefix)?)?;
                let right = Box::new(alloc, Pruned::Stub(right.root()))?;
                Ok(Pruned::Inner(*index, left, right))
            }
        }
        _ => {
            if vic_keybits::has_prefix(node.least().as_slice(), prefix) {
                whole(alloc, node)
            } else {
                cut_least(alloc, node)
            }
        }
    }
}
