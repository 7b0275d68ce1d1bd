//! Parts are written.

ghost use Rattle.std.specs.Prelude.{◌≤◌, ◌≡◌, ◌++◌, ◌<◌, ◌∷◌, [], length, OnOk, IfOk};
ghost use Rattle.vic_dict.specs.declared.limits.TheConstants.{LONGEST_KEY, LONGEST_VALUE};
ghost use Rattle.vic_dict.specs.Dictionary.{IsKey};
ghost use Rattle.vic_wire.specs.Texts.{short_text};
ghost use Rattle.vic_wire.specs.Parts.{IsPart, node_field, part_text};
ghost use Rattle.vic_prune.specs.Parts.{part, KeysFit};

use std::alloc::Global;
use vic_dict::{Bytes, NoMemory};
use vic_fields::{put_bytes, put_digest, put_u8, put_u16};
use vic_prune::Pruned;

// A key or a value behind its length.
fn put_text(out: &mut Bytes, text: &[u8]) -> Result<(), NoMemory>
    requires { length text.now ≤ LONGEST_KEY }
    ensures { OnOk result (out.new ≡ out.old ++ short_text text.now) }
{
    put_u8(out, text.len() as u8)?;
    put_bytes(out, text)
}

// A leaf. Where memory runs out, some of it may have been put.
pub(crate) fn put_leaf(out: &mut Bytes, key: &[u8], value: &[u8]) -> Result<(), NoMemory>
    requires key { IsKey key.now }
    requires value { length value.now ≤ LONGEST_VALUE }
    ensures { OnOk result (out.new ≡ out.old ++ 1 ∷ short_text key.now ++ short_text value.now) }
{
    put_u8(out, 1)?;
    put_text(out, key)?;
    put_text(out, value)
}

// A node and all below it.
fn put_node(out: &mut Bytes, node: &Pruned) -> Result<(), NoMemory>
    requires { KeysFit node.now }
    ensures { OnOk result (out.new ≡ out.old ++ node_field (part node.now)) }
{
    match node {
        Pruned::Empty => put_u8(out, 0),
        Pruned::Leaf(key, value) => put_leaf(out, key.as_slice(), value.as_slice()),
        Pruned::Inner(index, left, right) => {
            put_u8(out, 2)?;
            put_u16(out, *index)?;
            put_node(out, left)?;
            put_node(out, right)
        }
        Pruned::Stub(root) => {
            put_u8(out, 3)?;
            put_digest(out, root)
        }
    }
}

/// The one spelling of a part. It costs what the part has.
#[tactic(auto, using(vic_tree::proofs::Grammar::part_fits))]
pub fn part_bytes(alloc: Global, node: &Pruned) -> Result<Bytes, NoMemory>
    requires { IsPart (part node.now) }
    ensures { IfOk result (λ bytes. bytes ≡ part_text (part node.now)) }
{
    let mut out = Bytes::new(alloc);
    put_u8(&mut out, 1)?;
    put_node(&mut out, node)?;
    Ok(out)
}
