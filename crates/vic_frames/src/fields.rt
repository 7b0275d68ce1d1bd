//! The fields that only messages have: seals and lists of tagged entries.

ghost use Rattle.std.specs.Prelude.{◌≡◌, ◌+◌, ◌<◌, ◌≤◌, [], ◌++◌, length, Result, OnOk, IfOk};
ghost use Rattle.std.specs.List.{flat_map, AllByRecursion};
ghost use Rattle.vic_dict.specs.declared.limits.TheConstants.{MOST_TOLD};
ghost use Rattle.vic_dict.specs.Dictionary.{Fits};
ghost use Rattle.vic_wire.specs.Messages.{IsTagged, seal_field, tagged_field, entries_field};
ghost use Rattle.vic_wire.specs.Reading.{FieldFault, if_ended, some_read, seal_after, seal_at, tagged_at, tagged_list_at, entries_at};
ghost use Rattle.vic_fields.specs.Giving.{Gives};

use std::alloc::Global;
use vic_dict::limits::LONGEST_CONTENT;
use vic_dict::{Bytes, NoMemory};
use vic_fields::{Cut, CutFault, put_digest, put_entry, put_u16, put_u32};
use vic_wire::{Digest32, Seal, Tagged, TaggedList};

/// The value, where nothing follows it.
pub(crate) fn whole<T: Drop>(value: T, rest: &[u8]) -> Result<T, CutFault>
    ensures gives { Gives (λ v. v) result (if_ended (value, rest.now)) }
    ensures ends { rest.now ≡ [] → result ≡ Ok value }
{
    if rest.is_empty() {
        Ok(value)
    } else {
        Err(CutFault::Value)
    }
}

/// What was read, or none where the bytes aren't in the grammar.
pub(crate) fn found_or_none<T: Drop>(read: Result<T, CutFault>) -> Result<Option<T>, NoMemory>
    ensures exact { (r : Result T FieldFault) → Gives (λ v. v) read r → IfOk result (λ o. o ≡ some_read r) }
    ensures found { IfOk read (λ v. result ≡ Ok (Some v)) }
{
    match read {
        Ok(value) => Ok(Some(value)),
        Err(CutFault::NoMemory) => Err(NoMemory),
        Err(_) => Ok(None),
    }
}

// ---- seals

#[tactic(auto, unfolding(vic_wire::specs::Reading::seal_after))]
fn take_seal_after(position: u32, cut: &mut Cut) -> Result<Seal, CutFault>
    ensures { Gives (λ s. (s, cut.new)) result (seal_after position cut.old) }
{
    if position == 0 {
        return Ok(Seal {
            position: 0,
            root: vic_hash::empty(),
            tag: Digest32 { bytes: [0; 32] },
        });
    }
    let root = cut.take_digest()?;
    let tag = cut.take_digest()?;
    Ok(Seal {
        position,
        root,
        tag,
    })
}

#[tactic(auto, unfolding(vic_wire::specs::Reading::seal_at))]
pub(crate) fn take_seal(cut: &mut Cut) -> Result<Seal, CutFault>
    ensures { Gives (λ s. (s, cut.new)) result (seal_at cut.old) }
{
    let position = cut.take_u32()?;
    take_seal_after(position, cut)
}

pub(crate) fn put_seal(out: &mut Bytes, seal: &Seal) -> Result<(), NoMemory>
    ensures { OnOk result (out.new ≡ out.old ++ seal_field seal.now) }
{
    if seal.position == 0 {
        return put_u32(out, 0);
    }
    put_u32(out, seal.position)?;
    put_digest(out, &seal.root)?;
    put_digest(out, &seal.tag)
}

// ---- tagged entries

#[tactic(auto, unfolding(vic_wire::specs::Reading::tagged_at))]
fn take_tagged(alloc: Global, cut: &mut Cut) -> Result<Tagged, CutFault>
    ensures { Gives (λ t. (t, cut.new)) result (tagged_at cut.old) }
{
    let entry = cut.take_entry(alloc)?;
    let tag = cut.take_digest()?;
    Ok(Tagged { entry, tag })
}

fn take_tagged_list(alloc: Global, count: u16, cut: &mut Cut) -> Result<TaggedList, CutFault>
    ensures { Gives (λ ts. (ts, cut.new)) result (tagged_list_at count cut.old) }
{
    let mut items = TaggedList::new(alloc);
    for _ in 0..count {
        let item = take_tagged(alloc, cut)?;
        items.push(item)?;
    }
    Ok(items)
}

/// So many tagged entries as two bytes say, if that is within the bounds.
#[tactic(auto, unfolding(vic_wire::specs::Reading::entries_at))]
pub(crate) fn take_entries(
    alloc: Global,
    least: u16,
    most: u16,
    cut: &mut Cut,
) -> Result<TaggedList, CutFault>
    ensures { Gives (λ ts. (ts, cut.new)) result (entries_at least most cut.old) }
{
    let count = cut.take_u16()?;
    if !(least <= count && count <= most) {
        return Err(CutFault::Value);
    }
    take_tagged_list(alloc, count, cut)
}

fn put_tagged(out: &mut Bytes, item: &Tagged) -> Result<(), NoMemory>
    requires { Fits item.now.entry.op }
    ensures { OnOk result (out.new ≡ out.old ++ tagged_field item.now) }
{
    put_entry(out, &item.entry)?;
    put_digest(out, &item.tag)
}

pub(crate) fn put_entries(out: &mut Bytes, items: &[Tagged]) -> Result<(), NoMemory>
    requires count { length items.now ≤ MOST_TOLD }
    requires each { AllByRecursion IsTagged items.now }
    ensures { OnOk result (out.new ≡ out.old ++ entries_field items.now) }
{
    put_u16(out, items.len() as u16)?;
    for item in items {
        put_tagged(out, item)?;
    }
    Ok(())
}
