//! The bytes of the parts of a dictionary, straight from its tree: no pruned tree is made in between.

ghost use Rattle.std.specs.Prelude.{◌≡◌, ◌++◌, ◌<◌, ◌≤◌, ◌+◌, ◌∷◌, [], length, OnOk, IfOk};
ghost use Rattle.vic_dict.specs.declared.limits.TheConstants.{LONGEST_KEY};
ghost use Rattle.vic_dict.specs.Dictionary.{Fits};
ghost use Rattle.vic_wire.specs.Trees.{root_of};
ghost use Rattle.vic_wire.specs.Cuts.{cut_at as at_cut, cut_least as least_cut, cut_below as below_cut, cut_for as for_cut};
ghost use Rattle.vic_wire.specs.Parts.{node_field, part_for, bare_part};
ghost use Rattle.vic_trie.specs.Nodes.{tree, IsSound};
ghost use Rattle.vic_trie.specs.Weights.{weight_of};
ghost use Rattle.vic_proof.specs.Indices.{index_bytes};

use crate::writing::put_leaf;
use std::alloc::Global;
use vic_dict::{Bytes, NoMemory, Op};
use vic_fields::{put_digest, put_u8, put_u16};
use vic_trie::{Node, Trie};

// A stub with the root of this subtree.
fn put_stub(out: &mut Bytes, node: &Node) -> Result<(), NoMemory>
    requires { IsSound node.now }
    ensures { OnOk result (out.new ≡ out.old ++ 3 ∷ root_of (tree node.now)) }
{
    put_u8(out, 3)?;
    put_digest(out, &node.root())
}

// What stands before the sides of an inner node.
fn put_index(out: &mut Bytes, index: u16) -> Result<(), NoMemory>
    ensures { OnOk result (out.new ≡ out.old ++ 2 ∷ index_bytes index) }
{
    put_u8(out, 2)?;
    put_u16(out, index)
}

// The whole subtree.
fn put_whole(out: &mut Bytes, node: &Node) -> Result<(), NoMemory>
    requires { IsSound node.now }
    ensures { OnOk result (out.new ≡ out.old ++ node_field (tree node.now)) }
{
    match node {
        Node::Leaf(key, value, _) => put_leaf(out, key.as_slice(), value.as_slice()),
        Node::Inner(index, _, left, right) => {
            put_index(out, *index)?;
            put_whole(out, left)?;
            put_whole(out, right)
        }
    }
}

// The nodes of a key's walk.
fn put_at(out: &mut Bytes, node: &Node, key: &[u8]) -> Result<(), NoMemory>
    requires sound { IsSound node.now }
    requires fits { length key.now ≤ LONGEST_KEY }
    ensures { OnOk result (out.new ≡ out.old ++ node_field (at_cut key.now (tree node.now))) }
{
    match node {
        Node::Leaf(held, value, _) => put_leaf(out, held.as_slice(), value.as_slice()),
        Node::Inner(index, _, left, right) => {
            put_index(out, *index)?;
            if vic_keybits::bit(key, u32::from(*index)) {
                put_stub(out, left)?;
                put_at(out, right, key)
            } else {
                put_at(out, left, key)?;
                put_stub(out, right)
            }
        }
    }
}

// The nodes on the way to the least leaf.
fn put_least(out: &mut Bytes, node: &Node) -> Result<(), NoMemory>
    requires { IsSound node.now }
    ensures { OnOk result (out.new ≡ out.old ++ node_field (least_cut (tree node.now))) }
{
    match node {
        Node::Leaf(key, value, _) => put_leaf(out, key.as_slice(), value.as_slice()),
        Node::Inner(index, _, left, right) => {
            put_index(out, *index)?;
            put_least(out, left)?;
            put_stub(out, right)
        }
    }
}

// The nodes of a list's walk.
fn put_below(out: &mut Bytes, node: &Node, prefix: &[u8]) -> Result<(), NoMemory>
    requires sound { IsSound node.now }
    requires fits { length prefix.now ≤ LONGEST_KEY }
    ensures { OnOk result (out.new ≡ out.old ++ node_field (below_cut prefix.now (tree node.now))) }
{
    match node {
        Node::Inner(index, _, left, right) if usize::from(*index) < 9 * prefix.len() => {
            put_index(out, *index)?;
            if vic_keybits::bit(prefix, u32::from(*index)) {
                put_stub(out, left)?;
                put_below(out, right, prefix)
            } else {
                put_below(out, left, prefix)?;
                put_stub(out, right)
            }
        }
        _ => {
            if vic_keybits::has_prefix(node.least().as_slice(), prefix) {
                put_whole(out, node)
            } else {
                put_least(out, node)
            }
        }
    }
}

// The nodes of an operation's walk.
fn put_cut(out: &mut Bytes, node: &Node, op: &Op) -> Result<(), NoMemory>
    requires sound { IsSound node.now }
    requires fits { Fits op.now }
    ensures { OnOk result (out.new ≡ out.old ++ node_field (for_cut (tree node.now) op.now)) }
{
    match op {
        Op::Put(key, _) => put_at(out, node, key.as_slice()),
        Op::Get(key) => put_at(out, node, key.as_slice()),
        Op::Del(key) => put_at(out, node, key.as_slice()),
        Op::List(prefix) => put_below(out, node, prefix.as_slice()),
    }
}

/// The bytes of the part for an operation. They cost what they have.
#[tactic(auto, using(crate::proofs::Tops::no_tree, crate::proofs::Tops::cut_of_nothing, crate::proofs::Tops::cut_is_short))]
pub fn cut_bytes(alloc: Global, trie: &Trie, op: &Op) -> Result<Bytes, NoMemory>
    requires { Fits op.now }
    ensures is { IfOk result (λ bytes. bytes ≡ part_for trie.now op.now) }
    ensures short { IfOk result (λ bytes. length bytes ≤ weight_of trie.now + 82657) }
{
    let mut out = Bytes::new(alloc);
    put_u8(&mut out, 1)?;
    match trie.top() {
        None => put_u8(&mut out, 0)?,
        Some(node) => put_cut(&mut out, node, op)?,
    }
    Ok(out)
}

/// The bytes of the bare part.
#[tactic(auto, using(crate::proofs::Tops::no_tree, crate::proofs::Tops::bare_of_nothing, crate::proofs::Tops::bare_of_node, crate::proofs::Tops::stub_is_short))]
pub fn bare_bytes(alloc: Global, trie: &Trie) -> Result<Bytes, NoMemory>
    ensures is { IfOk result (λ bytes. bytes ≡ bare_part trie.now) }
    ensures short { IfOk result (λ bytes. length bytes ≤ 34) }
{
    let mut out = Bytes::new(alloc);
    put_u8(&mut out, 1)?;
    match trie.top() {
        None => put_u8(&mut out, 0)?,
        Some(node) => put_stub(&mut out, node)?,
    }
    Ok(out)
}
