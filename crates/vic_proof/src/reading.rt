//! Parts are read, from the left.

ghost use Rattle.std.specs.Prelude.{◌≡◌, ◌+◌, ◌<◌, ◌≤◌, ◌∷◌, length, IfOk, nat_le, nat_lt};
ghost use Rattle.vic_dict.specs.Dictionary.{IsKey};
ghost use Rattle.vic_wire.specs.Reading.{bytes_at, byte_at};
ghost use Rattle.vic_wire.specs.Parts.{place as place_of, field, length_at, text_at, leaf_at, index_at, stub_at, tree_at, form_at, part_at, IsPart, BadLength, BadTag as BadByte, IndexNotRising as NotRising};
ghost use Rattle.vic_prune.specs.Parts.{part};
ghost use Rattle.vic_proof.specs.Faults.{GivesPart};
ghost use Rattle.vic_proof.specs.Nodes.{node_from, inner_from, after_byte};

use std::alloc::Global;
use thiserror::Error;
use vic_dict::limits::{LONGEST_KEY, LONGEST_VALUE};
use vic_dict::{Bytes, NoMemory as OutOfMemory};
use vic_fields::{Cut, CutFault};
use vic_prune::Pruned;

/// The first fault of bytes that aren't a part. A place counts bytes from 0.
#[derive(Clone, Copy, Debug, PartialEq, Eq, Error)]
pub enum ProofFault {
    /// A form or node byte isn't allowed at its place.
    #[error("byte {0} isn't allowed at its place")]
    BadTag(usize),
    /// The length of a key or a value isn't allowed.
    #[error("the length at byte {0} isn't allowed")]
    BadLength(usize),
    /// An index isn't above the one before, or passes the bits of keys.
    #[error("the index at byte {0} doesn't rise")]
    IndexNotRising(usize),
    /// The bytes end before a field does.
    #[error("the bytes end inside the field at byte {0}")]
    Short(usize),
    /// Bytes follow the tree.
    #[error("bytes follow the tree from byte {0} on")]
    Trailing(usize),
    /// Memory ran out; the bytes may be in order.
    #[error("no memory")]
    NoMemory,
}

impl From<OutOfMemory> for ProofFault {
    ghost use Rattle.std.specs.Prelude.{◌≡◌};
    ghost use Rattle.vic_proof.specs.declared.reading.ProofFault.TheVariants.{NoMemory};

    ghost from_gives = { λ _ e. e ≡ NoMemory };

    fn from(_cause: OutOfMemory) -> ProofFault {
        ProofFault::NoMemory
    }
}

// The place of the first byte that isn't taken, of so many in all.
fn place(all: usize, cut: &Cut) -> usize
    ensures { result ≡ place_of all cut.now }
{
    all.saturating_sub(cut.left())
}

// A length byte within the bounds.
fn take_length(cut: &mut Cut, all: usize, low: u8, high: u8) -> Result<u8, ProofFault>
    ensures gives { GivesPart (λ n. (n, cut.new)) result (field all cut.old BadLength (length_at low high cut.old)) }
    ensures fits { IfOk result (λ n. (low ≤ n) × (n ≤ high)) }
{
    let at = place(all, cut);
    match cut.take_u8() {
        Ok(n) => {
            if low <= n && n <= high {
                Ok(n)
            } else {
                Err(ProofFault::BadLength(at))
            }
        }
        Err(CutFault::Short) => Err(ProofFault::Short(at)),
        Err(CutFault::Value) => Err(ProofFault::BadLength(at)),
        Err(CutFault::NoMemory) => Err(ProofFault::NoMemory),
    }
}

// So many bytes.
fn take_piece<'a>(cut: &mut Cut<'a>, all: usize, n: usize) -> Result<&'a [u8], ProofFault>
    ensures gives { GivesPart (λ b. (b.now, cut.new)) result (field all cut.old BadLength (bytes_at n cut.old)) }
    ensures long { IfOk result (λ b. length b.now ≡ n) }
{
    let at = place(all, cut);
    match cut.take_bytes(n) {
        Ok(bytes) => Ok(bytes),
        Err(CutFault::Short) => Err(ProofFault::Short(at)),
        Err(CutFault::Value) => Err(ProofFault::BadLength(at)),
        Err(CutFault::NoMemory) => Err(ProofFault::NoMemory),
    }
}

// A key or a value.
#[tactic(auto, unfolding(vic_wire::specs::Parts::text_at))]
fn take_text<'a>(cut: &mut Cut<'a>, all: usize, low: u8, high: u8) -> Result<&'a [u8], ProofFault>
    ensures gives { GivesPart (λ b. (b.now, cut.new)) result (text_at all low high cut.old) }
    ensures fits { IfOk result (λ b. (low ≤ length b.now) × (length b.now ≤ high)) }
{
    let n = take_length(cut, all, low, high)?;
    take_piece(cut, all, n as usize)
}

// A leaf, behind its byte.
#[tactic(auto, unfolding(vic_wire::specs::Parts::leaf_at))]
fn take_leaf(alloc: Global, cut: &mut Cut, all: usize) -> Result<Pruned, ProofFault>
    ensures { GivesPart (λ p. (part p, cut.new)) result (leaf_at all cut.old) }
{
    let key = take_text(cut, all, 1, LONGEST_KEY as u8)?;
    let value = take_text(cut, all, 0, LONGEST_VALUE as u8)?;
    let key = Bytes::of(alloc, key)?;
    let value = Bytes::of(alloc, value)?;
    Ok(Pruned::Leaf(key, value))
}

// A stub, behind its byte.
#[tactic(auto, unfolding(vic_wire::specs::Parts::stub_at))]
fn take_stub(cut: &mut Cut, all: usize) -> Result<Pruned, ProofFault>
    ensures { GivesPart (λ p. (part p, cut.new)) result (stub_at all cut.old) }
{
    let at = place(all, cut);
    match cut.take_digest() {
        Ok(root) => Ok(Pruned::Stub(root)),
        Err(CutFault::Short) => Err(ProofFault::Short(at)),
        Err(CutFault::Value) => Err(ProofFault::BadTag(at)),
        Err(CutFault::NoMemory) => Err(ProofFault::NoMemory),
    }
}

// An index from the least that is allowed to the last bit of a key.
fn take_index(cut: &mut Cut, all: usize, low: u16) -> Result<u16, ProofFault>
    ensures gives { GivesPart (λ i. (i, cut.new)) result (field all cut.old NotRising (index_at low cut.old)) }
    ensures rises { IfOk result (λ i. (low ≤ i) × (i < 2296)) }
{
    let at = place(all, cut);
    match cut.take_u16() {
        Ok(index) => {
            if low <= index && index < 2296 {
                Ok(index)
            } else {
                Err(ProofFault::IndexNotRising(at))
            }
        }
        Err(CutFault::Short) => Err(ProofFault::Short(at)),
        Err(CutFault::Value) => Err(ProofFault::IndexNotRising(at)),
        Err(CutFault::NoMemory) => Err(ProofFault::NoMemory),
    }
}

// A node or form byte.
fn take_byte(cut: &mut Cut, all: usize) -> Result<u8, ProofFault>
    ensures { GivesPart (λ n. (n, cut.new)) result (field all cut.old BadByte (byte_at cut.old)) }
{
    let at = place(all, cut);
    match cut.take_u8() {
        Ok(byte) => Ok(byte),
        Err(CutFault::Short) => Err(ProofFault::Short(at)),
        Err(CutFault::Value) => Err(ProofFault::BadTag(at)),
        Err(CutFault::NoMemory) => Err(ProofFault::NoMemory),
    }
}

fn boxed(alloc: Global, node: Pruned) -> Result<Box<Pruned>, OutOfMemory>
    ensures { IfOk result (λ b. b.value ≡ node) }
{
    Ok(Box::new(alloc, node)?)
}

// An inner node, behind its byte.
#[cycle(nodes)]
#[tactic(auto, unfolding(crate::specs::Nodes::inner_from))]
fn take_inner(alloc: Global, cut: &mut Cut, all: usize, low: u16) -> Result<Pruned, ProofFault>
    requires { low ≤ 2296 }
    ensures { GivesPart (λ p. (part p, cut.new)) result (inner_from all low cut.old) }
{
    let index = take_index(cut, all, low)?;
    let left = take_node(alloc, cut, all, index + 1)?;
    let right = take_node(alloc, cut, all, index + 1)?;
    let left = boxed(alloc, left)?;
    let right = boxed(alloc, right)?;
    Ok(Pruned::Inner(index, left, right))
}

// What the byte of a node calls for; it stood at this place.
#[cycle(nodes)]
#[tactic(auto, unfolding(crate::specs::Nodes::after_byte))]
fn take_rest(
    alloc: Global,
    cut: &mut Cut,
    all: usize,
    low: u16,
    at: usize,
    byte: u8,
) -> Result<Pruned, ProofFault>
    requires { low ≤ 2296 }
    ensures { GivesPart (λ p. (part p, cut.new)) result (after_byte all low at byte cut.old) }
{
    match byte {
        1 => take_leaf(alloc, cut, all),
        2 => take_inner(alloc, cut, all, low),
        3 => take_stub(cut, all),
        _ => Err(ProofFault::BadTag(at)),
    }
}

// A node whose indices are at least this, and all below it.
#[cycle(nodes)]
#[tactic(auto, using(crate::proofs::Levels::node_step))]
fn take_node(alloc: Global, cut: &mut Cut, all: usize, low: u16) -> Result<Pruned, ProofFault>
    requires { low ≤ 2296 }
    ensures { GivesPart (λ p. (part p, cut.new)) result (node_from all low cut.old) }
{
    let at = place(all, cut);
    let byte = take_byte(cut, all)?;
    take_rest(alloc, cut, all, low, at, byte)
}

// A whole tree, which alone may be empty.
#[tactic(auto, using(crate::proofs::Levels::tree_step))]
fn take_tree(alloc: Global, cut: &mut Cut, all: usize) -> Result<Pruned, ProofFault>
    ensures { GivesPart (λ p. (part p, cut.new)) result (tree_at all cut.old) }
{
    let at = place(all, cut);
    let byte = take_byte(cut, all)?;
    if byte == 0 {
        return Ok(Pruned::Empty);
    }
    take_rest(alloc, cut, all, 0, at, byte)
}

// The form byte.
fn take_form(cut: &mut Cut, all: usize) -> Result<u8, ProofFault>
    ensures { GivesPart (λ n. (n, cut.new)) result (field all cut.old BadByte (form_at cut.old)) }
{
    let at = place(all, cut);
    let form = take_byte(cut, all)?;
    if form != 1 {
        return Err(ProofFault::BadTag(at));
    }
    Ok(form)
}

#[tactic(auto, unfolding(vic_wire::specs::Parts::part_at))]
fn take_part(alloc: Global, bytes: &[u8]) -> Result<Pruned, ProofFault>
    ensures { GivesPart part result (part_at bytes.now) }
{
    let all = bytes.len();
    let mut cut = Cut::new(bytes);
    take_form(&mut cut, all)?;
    let tree = take_tree(alloc, &mut cut, all)?;
    if cut.left() != 0 {
        return Err(ProofFault::Trailing(place(all, &cut)));
    }
    Ok(tree)
}

/// The part that the bytes spell, or their first fault. It costs what the bytes cost, and goes at most 2,297 nodes deep.
pub fn part_of(alloc: Global, bytes: &[u8]) -> Result<Pruned, ProofFault>
    ensures reads { GivesPart part result (part_at bytes.now) }
    ensures grammar { IfOk result (λ p. IsPart (part p)) }
{
    take_part(alloc, bytes)
}
