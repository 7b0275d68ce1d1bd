ghost use Rattle.std.specs.Prelude.{◌≡◌, ◌≤◌, ◌<◌, ◌+◌, length, IfSome, IfOk, OnOk, OnErr, IsSome, None, IfNone, MatchOption};
ghost use Rattle.vic_dict.specs.declared.limits.TheConstants.{LONGEST_KEY, LONGEST_VALUE};
ghost use Rattle.vic_dict.specs.Dictionary.{IsKey};
ghost use Rattle.vic_wire.specs.Walks.{end_at, del_in, put_in};
ghost use Rattle.vic_tree.specs.Shown.{value_at};
ghost use Rattle.vic_wire.specs.Trees.{Leaf};
ghost use Rattle.vic_trie.specs.Nodes.{tree, IsSound};
ghost use Rattle.vic_trie.specs.Tries.{top_tree, IsTopSound, Grows, Keeps, Shrinks};

use crate::node::Node;
use std::alloc::Global;
use vic_dict::limits::LONGEST_KEY;
use vic_dict::{Bytes, NoMemory};

// Gives the key this value, and tells the length of the value before.
pub fn put_into(
    top: &mut Option<Node>,
    alloc: Global,
    key: &[u8],
    value: &[u8],
) -> Result<Option<usize>, NoMemory>
    requires sound { IsTopSound top.old }
    requires key { IsKey key.now }
    requires value { length value.now ≤ LONGEST_VALUE }
    ensures tree { OnOk result (top_tree top.new ≡ put_in key.now value.now (top_tree top.old)) }
    ensures sound { OnOk result (IsTopSound top.new) }
    ensures change { IfOk result (λ before. MatchOption before (Grows (top_tree top.old) (top_tree top.new) key.now value.now)
        (λ old. Keeps (top_tree top.old) (top_tree top.new) value.now old × (old ≤ LONGEST_VALUE))) }
    ensures err { OnErr result (top.new ≡ top.old) }
{
    match top {
        Some(node) => node.put(alloc, key, value),
        None => {
            let digest = vic_hash::leaf(key, value);
            let key = Bytes::of(alloc, key)?;
            let value = Bytes::of(alloc, value)?;
            *top = Some(Node::Leaf(key, value, digest));
            Ok(None)
        }
    }
}

// Gives the key this value by memory that was taken before, and tells the length of the value before.
pub fn put_ready_into(
    top: &mut Option<Node>,
    key: &[u8],
    value: Bytes,
    fresh: Box<Node>,
    spare: Box<Node>,
) -> Option<usize>
    requires sound { IsTopSound top.old }
    requires key { IsKey key.now }
    requires value { length value ≤ LONGEST_VALUE }
    requires fresh { IsSound fresh.value × (tree fresh.value ≡ Leaf key.now value) }
    ensures tree { top_tree top.new ≡ put_in key.now value (top_tree top.old) }
    ensures sound { IsTopSound top.new }
    ensures change { MatchOption result (Grows (top_tree top.old) (top_tree top.new) key.now value)
        (λ old. Keeps (top_tree top.old) (top_tree top.new) value old × (old ≤ LONGEST_VALUE)) }
{
    match top {
        Some(node) => node.put_ready(key, value, fresh, spare),
        None => {
            *top = Some(Box::into_inner(fresh));
            None
        }
    }
}

// Takes the key out, and tells the length of its value.
pub fn take_from(top: &mut Option<Node>, alloc: Global, key: &[u8]) -> Option<usize>
    requires { IsTopSound top.old }
    ensures absent { IfNone result ((length key.now ≤ LONGEST_KEY → value_at key.now (end_at key.now (top_tree top.old)) ≡ None) × (top.new ≡ top.old)) }
    ensures change { IfSome result (λ old. Shrinks (top_tree top.old) (top_tree top.new) key.now old) }
    ensures taken { IfSome result (λ old. (length key.now ≤ LONGEST_KEY) × IsSome (value_at key.now (end_at key.now (top_tree top.old)))
        × (top_tree top.new ≡ del_in key.now (top_tree top.old)) × IsTopSound top.new) }
{
    match top {
        None => None,
        Some(node) => {
            if key.len() > LONGEST_KEY {
                return None;
            }
            let (end, value) = node.end(key);
            if end.as_slice() != key {
                return None;
            }
            let old = value.len();
            if node.take_out(alloc, key) {
                *top = None;
            }
            Some(old)
        }
    }
}
