//! The texts of a tree's nodes: of the tree of a dictionary, and of a part that was taken.

ghost use Rattle.std.specs.Prelude.{◌≡◌, ◌<◌, ◌++◌, length, reverse, IfOk, OnOk};
ghost use Rattle.vic_dict.specs.Dictionary.{IsKey};
ghost use Rattle.vic_wire.specs.Texts.{empty_text, leaf_text, inner_text};
ghost use Rattle.vic_wire.specs.Trees.{node_texts, root_of, tree_of};
ghost use Rattle.std.specs.Option.{IfSome, option_map};
ghost use Rattle.vic_wire.specs.Parts.{IsPart, read_part};
ghost use Rattle.vic_laws.specs.Meanings.{nodes_of};
ghost use Rattle.vic_prune.specs.Parts.{part, KeysFit};
ghost use Rattle.vic_trie.specs.Nodes.{tree, IsSound};

use std::alloc::Global;
use vic_dict::{Bytes, Names, NoMemory};
use vic_fields::{put_bytes, put_digest, put_u8, put_u16};
use vic_proof::{ProofFault, part_of};
use vic_prune::Pruned;
use vic_trie::{Node, Trie};
use vic_wire::Digest32;

/// The text of the empty tree: 02.
fn empty_text_of(alloc: Global) -> Result<Bytes, NoMemory>
    ensures { IfOk result (λ text. text ≡ empty_text) }
{
    let mut text = Bytes::new(alloc);
    put_u8(&mut text, 2)?;
    Ok(text)
}

/// The text of a leaf: 03, the key's length in one byte, the key, and the value.
fn leaf_text_of(alloc: Global, key: &[u8], value: &[u8]) -> Result<Bytes, NoMemory>
    requires { IsKey key.now }
    ensures { IfOk result (λ text. text ≡ leaf_text key.now value.now) }
{
    let mut text = Bytes::new(alloc);
    put_u8(&mut text, 3)?;
    put_u8(&mut text, key.len() as u8)?;
    put_bytes(&mut text, key)?;
    put_bytes(&mut text, value)?;
    Ok(text)
}

/// The text of a branch: 04, the index in two bytes, and the roots of the left and of the right side.
fn inner_text_of(
    alloc: Global,
    index: u16,
    left: &Digest32,
    right: &Digest32,
) -> Result<Bytes, NoMemory>
    ensures { IfOk result (λ text. text ≡ inner_text index left.now.bytes right.now.bytes) }
{
    let mut text = Bytes::new(alloc);
    put_u8(&mut text, 4)?;
    put_u16(&mut text, index)?;
    put_digest(&mut text, left)?;
    put_digest(&mut text, right)?;
    Ok(text)
}

// ---- the tree of a dictionary

/// Puts the texts of a subtree's nodes last, each before those below it. The roots are there: nothing is hashed.
#[tactic(auto, unfolding(vic_wire::specs::Trees::node_texts))]
fn put_node_texts(alloc: Global, node: &Node, texts: &mut Names) -> Result<(), NoMemory>
    requires { IsSound node.now }
    ensures { OnOk result (texts.new ≡ texts.old ++ node_texts (tree node.now)) }
{
    match node {
        Node::Leaf(key, value, _) => {
            texts.push(leaf_text_of(alloc, key.as_slice(), value.as_slice())?)
        }
        Node::Inner(index, _, left, right) => {
            texts.push(inner_text_of(alloc, *index, &left.root(), &right.root())?)?;
            put_node_texts(alloc, left, texts)?;
            put_node_texts(alloc, right, texts)
        }
    }
}

/// Puts the texts of the nodes of a dictionary's tree last. It costs the dictionary.
pub(crate) fn put_tree_texts(alloc: Global, dict: &Trie, texts: &mut Names) -> Result<(), NoMemory>
    ensures { OnOk result (texts.new ≡ texts.old ++ node_texts (tree_of dict.now)) }
{
    match dict.top() {
        None => texts.push(empty_text_of(alloc)?),
        Some(node) => put_node_texts(alloc, node, texts),
    }
}

// ---- a part

/// Puts the texts of a part's nodes last, in the opposite order: each behind those below it. It gives the part's root, so that each
/// node is hashed once.
#[tactic(auto, unfolding(vic_wire::specs::Trees::node_texts))]
fn put_backwards(alloc: Global, node: &Pruned, texts: &mut Names) -> Result<Digest32, NoMemory>
    requires { KeysFit node.now }
    ensures texts { OnOk result (reverse texts.new ≡ node_texts (part node.now) ++ reverse texts.old) }
    ensures root { IfOk result (λ root. root.bytes ≡ root_of (part node.now)) }
{
    match node {
        Pruned::Empty => {
            texts.push(empty_text_of(alloc)?)?;
            Ok(vic_hash::empty())
        }
        Pruned::Leaf(key, value) => {
            texts.push(leaf_text_of(alloc, key.as_slice(), value.as_slice())?)?;
            Ok(vic_hash::leaf(key.as_slice(), value.as_slice()))
        }
        Pruned::Inner(index, left, right) => {
            let right = put_backwards(alloc, right, texts)?;
            let left = put_backwards(alloc, left, texts)?;
            texts.push(inner_text_of(alloc, *index, &left, &right)?)?;
            Ok(vic_hash::inner(*index, &left, &right))
        }
        Pruned::Stub(root) => Ok(*root),
    }
}

/// Puts texts last, from the last one to the first.
fn put_turned(alloc: Global, back: &[Bytes], texts: &mut Names) -> Result<(), NoMemory>
    ensures { OnOk result (texts.new ≡ texts.old ++ reverse back.now) }
{
    let mut left = back.len();
    while left > 0 {
        left -= 1;
        texts.push(back[left].copy(alloc)?)?;
    }
    Ok(())
}

/// The part that bytes spell, if they spell one.
#[tactic(auto, unfolding(vic_wire::specs::Parts::read_part))]
fn part_in(alloc: Global, bytes: &[u8]) -> Result<Option<Pruned>, NoMemory>
    ensures part { IfOk result (λ o. option_map part o ≡ read_part bytes.now) }
    ensures grammar { IfOk result (λ o. IfSome o (λ p. IsPart (part p))) }
{
    match part_of(alloc, bytes) {
        Ok(part) => Ok(Some(part)),
        Err(ProofFault::NoMemory) => Err(NoMemory),
        Err(_) => Ok(None),
    }
}

/// Puts the texts of the nodes of the part that bytes spell last, if they spell one. It costs the part: each node is hashed once.
#[tactic(auto, using(vic_tree::proofs::Grammar::part_fits))]
pub(crate) fn put_part_texts(alloc: Global, bytes: &[u8], texts: &mut Names) -> Result<(), NoMemory>
    ensures { OnOk result (texts.new ≡ texts.old ++ nodes_of (read_part bytes.now)) }
{
    let Some(part) = part_in(alloc, bytes)? else {
        return Ok(());
    };
    let mut back = Names::new(alloc);
    put_backwards(alloc, &part, &mut back)?;
    put_turned(alloc, back.as_slice(), texts)
}
