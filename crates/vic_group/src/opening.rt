//! The clients with which a world opens, and the keys of groups.

ghost use Rattle.std.specs.Prelude.{◌≡◌, ◌<◌, ◌≤◌, [], length, map, replicate, IfOk, Some};
ghost use Rattle.std.specs.Result.{result_ok};
ghost use Rattle.hex.specs.Hex.{decode_of};
ghost use Rattle.vic_dict.specs.declared.limits.TheConstants.{MOST_CLIENTS};
ghost use Rattle.vic_group.specs.World.{MemberStands};
ghost use Rattle.vic_group.specs.Members.{AllStand};

use crate::member::Member;
use crate::queue::Queue;
use std::alloc::Global;
use vic_client::Client;
use vic_dict::{Mode, NoMemory};
use vic_tag::GroupKey;

/// The key of a script that names none.
pub fn zero_key(alloc: Global) -> Result<GroupKey, NoMemory>
    ensures { IfOk result (λ key. key ≡ replicate 32 0) }
{
    match GroupKey::from_hex(
        alloc,
        "0000000000000000000000000000000000000000000000000000000000000000",
    ) {
        Ok(key) => Ok(key),
        Err(_) => Err(NoMemory),
    }
}

/// The key that a text spells in hexadecimal digits.
fn text_key(alloc: Global, text: &str) -> Result<GroupKey, NoMemory>
    ensures { IfOk result (λ key. decode_of text.now ≡ Ok key) }
{
    match GroupKey::from_hex(alloc, text) {
        Ok(key) => Ok(key),
        Err(_) => Err(NoMemory),
    }
}

/// The key that digits spell, capital or small: 2 to 128 of them, in an even number.
pub fn spelled_key(alloc: Global, digits: &[u8]) -> Result<GroupKey, NoMemory>
    ensures { IfOk result (λ key. result_ok (decode_of digits.now) ≡ Some key) }
{
    match str::from_utf8(digits) {
        Ok(text) => text_key(alloc, text),
        Err(_) => Err(NoMemory),
    }
}

// A client that has just come in; server 1 serves it.
fn entered(alloc: Global, id: u8, count: u8, mode: Mode, key: &GroupKey) -> Result<Member, NoMemory>
    requires some { 0 < id }
    requires member { id ≤ count }
    requires few { count ≤ MOST_CLIENTS }
    ensures up { IfOk result (λ m. m.up ≡ []) }
    ensures down { IfOk result (λ m. m.down ≡ []) }
    ensures server { IfOk result (λ m. m.server ≡ 1) }
    ensures stands { IfOk result (λ m. MemberStands (record { mode = mode; count = count; key = key.now }) [] m id) }
{
    let own = key.copy(alloc)?;
    Ok(Member {
        client: Client::new(alloc, id, count, mode, own),
        server: 1,
        up: Queue::new(alloc),
        down: Queue::new(alloc),
        taken: None,
        sent: None,
    })
}

/// All clients of a group, with their numbers in order: they have come in, and nothing has happened.
pub fn entered_all(
    alloc: Global,
    count: u8,
    mode: Mode,
    key: &GroupKey,
) -> Result<Vec<Member>, NoMemory>
    requires few { count ≤ MOST_CLIENTS }
    ensures count { IfOk result (λ ms. length ms.items ≡ count) }
    ensures up { IfOk result (λ ms. map (λ m. m.up) ms.items ≡ replicate count []) }
    ensures down { IfOk result (λ ms. map (λ m. m.down) ms.items ≡ replicate count []) }
    ensures server { IfOk result (λ ms. map (λ m. m.server) ms.items ≡ replicate count 1) }
    ensures clients { IfOk result (λ ms. AllStand (MemberStands (record { mode = mode; count = count; key = key.now }) []) 1 ms.items) }
{
    let mut made = Vec::new(alloc);
    for i in 0..count {
        made.push(entered(alloc, i + 1, count, mode, key)?)?;
    }
    Ok(made)
}
