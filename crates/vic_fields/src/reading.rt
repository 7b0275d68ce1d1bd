//! Each field from the front of a slice: its value and the bytes after it, or the first fault.

ghost use Rattle.std.specs.Prelude.{◌≡◌, length, IfOk, IsErrOf};
ghost use Rattle.std.specs.Int.{w16, w32};
ghost use Rattle.vic_wire.specs.Reading.{byte_at, number_at, bytes_at, digest_at, short_at, put_at, get_at, del_at, list_at, op_of_kind, op_at, entry_at};
ghost use Rattle.vic_fields.specs.Giving.{Gives};

use crate::cut::CutFault;
use std::alloc::Global;
use vic_dict::limits::{LONGEST_KEY, LONGEST_VALUE, MOST_CLIENTS};
use vic_dict::{Bytes, Entry, Op};
use vic_wire::Digest32;

pub(crate) fn u8_of(bytes: &[u8]) -> Result<(u8, &[u8]), CutFault>
    ensures gives { Gives (λ x. (x.0, x.1.now)) result (byte_at bytes.now) }
    ensures no_memory { IsErrOf result CutFault.NoMemory → ⊥ }
{
    match bytes {
        [] => Err(CutFault::Short),
        [first, rest @ ..] => Ok((*first, rest)),
    }
}

pub(crate) fn u16_of(bytes: &[u8]) -> Result<(u16, &[u8]), CutFault>
    ensures gives { Gives (λ x. (x.0, x.1.now)) result (number_at w16 bytes.now) }
    ensures no_memory { IsErrOf result CutFault.NoMemory → ⊥ }
{
    if bytes.len() < 2 {
        return Err(CutFault::Short);
    }
    let (front, rest) = bytes.split_at(2);
    Ok((u16::from_be_bytes([front[0], front[1]]), rest))
}

pub(crate) fn u32_of(bytes: &[u8]) -> Result<(u32, &[u8]), CutFault>
    ensures gives { Gives (λ x. (x.0, x.1.now)) result (number_at w32 bytes.now) }
    ensures no_memory { IsErrOf result CutFault.NoMemory → ⊥ }
{
    if bytes.len() < 4 {
        return Err(CutFault::Short);
    }
    let (front, rest) = bytes.split_at(4);
    let value = u32::from_be_bytes([front[0], front[1], front[2], front[3]]);
    Ok((value, rest))
}

pub(crate) fn bytes_of(n: usize, bytes: &[u8]) -> Result<(&[u8], &[u8]), CutFault>
    ensures gives { Gives (λ x. (x.0.now, x.1.now)) result (bytes_at n bytes.now) }
    ensures len { IfOk result (λ x. length x.0.now ≡ n) }
    ensures no_memory { IsErrOf result CutFault.NoMemory → ⊥ }
{
    if bytes.len() < n {
        return Err(CutFault::Short);
    }
    Ok(bytes.split_at(n))
}

#[tactic(auto, unfolding(vic_wire::specs::Reading::digest_at))]
pub(crate) fn digest_of(bytes: &[u8]) -> Result<(Digest32, &[u8]), CutFault>
    ensures gives { Gives (λ x. (x.0, x.1.now)) result (digest_at bytes.now) }
    ensures no_memory { IsErrOf result CutFault.NoMemory → ⊥ }
{
    let (front, rest) = bytes_of(32, bytes)?;
    let mut value = Digest32 { bytes: [0; 32] };
    value.bytes.copy_from_slice(front);
    Ok((value, rest))
}

/// A length byte within the bounds, and that many bytes.
#[tactic(auto, unfolding(vic_wire::specs::Reading::short_at))]
fn short_of(least: u8, most: u8, bytes: &[u8]) -> Result<(&[u8], &[u8]), CutFault>
    ensures { Gives (λ x. (x.0.now, x.1.now)) result (short_at least most bytes.now) }
{
    let (len, rest) = u8_of(bytes)?;
    if !(least <= len && len <= most) {
        return Err(CutFault::Value);
    }
    bytes_of(len as usize, rest)
}

#[tactic(auto, unfolding(vic_wire::specs::Reading::put_at))]
fn put_of(alloc: Global, bytes: &[u8]) -> Result<(Op, &[u8]), CutFault>
    ensures { Gives (λ x. (x.0, x.1.now)) result (put_at bytes.now) }
{
    let (key, rest) = short_of(1, LONGEST_KEY as u8, bytes)?;
    let (value, rest) = short_of(0, LONGEST_VALUE as u8, rest)?;
    let key = Bytes::of(alloc, key)?;
    let value = Bytes::of(alloc, value)?;
    Ok((Op::Put(key, value), rest))
}

#[tactic(auto, unfolding(vic_wire::specs::Reading::get_at))]
fn get_of(alloc: Global, bytes: &[u8]) -> Result<(Op, &[u8]), CutFault>
    ensures { Gives (λ x. (x.0, x.1.now)) result (get_at bytes.now) }
{
    let (key, rest) = short_of(1, LONGEST_KEY as u8, bytes)?;
    Ok((Op::Get(Bytes::of(alloc, key)?), rest))
}

#[tactic(auto, unfolding(vic_wire::specs::Reading::del_at))]
fn del_of(alloc: Global, bytes: &[u8]) -> Result<(Op, &[u8]), CutFault>
    ensures { Gives (λ x. (x.0, x.1.now)) result (del_at bytes.now) }
{
    let (key, rest) = short_of(1, LONGEST_KEY as u8, bytes)?;
    Ok((Op::Del(Bytes::of(alloc, key)?), rest))
}

#[tactic(auto, unfolding(vic_wire::specs::Reading::list_at))]
fn list_of(alloc: Global, bytes: &[u8]) -> Result<(Op, &[u8]), CutFault>
    ensures { Gives (λ x. (x.0, x.1.now)) result (list_at bytes.now) }
{
    let (prefix, rest) = short_of(0, LONGEST_KEY as u8, bytes)?;
    Ok((Op::List(Bytes::of(alloc, prefix)?), rest))
}

#[tactic(auto, unfolding(vic_wire::specs::Reading::op_of_kind))]
fn kind_of(alloc: Global, kind: u8, bytes: &[u8]) -> Result<(Op, &[u8]), CutFault>
    ensures { Gives (λ x. (x.0, x.1.now)) result (op_of_kind kind bytes.now) }
{
    match kind {
        1 => put_of(alloc, bytes),
        2 => get_of(alloc, bytes),
        3 => del_of(alloc, bytes),
        4 => list_of(alloc, bytes),
        _ => Err(CutFault::Value),
    }
}

#[tactic(auto, unfolding(vic_wire::specs::Reading::op_at))]
pub(crate) fn op_of(alloc: Global, bytes: &[u8]) -> Result<(Op, &[u8]), CutFault>
    ensures { Gives (λ x. (x.0, x.1.now)) result (op_at bytes.now) }
{
    let (kind, rest) = u8_of(bytes)?;
    kind_of(alloc, kind, rest)
}

#[tactic(auto, unfolding(vic_wire::specs::Reading::entry_at))]
pub(crate) fn entry_of(alloc: Global, bytes: &[u8]) -> Result<(Entry, &[u8]), CutFault>
    ensures { Gives (λ x. (x.0, x.1.now)) result (entry_at bytes.now) }
{
    let (client, rest) = u8_of(bytes)?;
    if !(0 < client && client <= MOST_CLIENTS) {
        return Err(CutFault::Value);
    }
    let (seq, rest) = u32_of(rest)?;
    if !(0 < seq) {
        return Err(CutFault::Value);
    }
    let (op, rest) = op_of(alloc, rest)?;
    Ok((Entry { client, seq, op }, rest))
}
