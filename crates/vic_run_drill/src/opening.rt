//! The clients with which a drill opens, and its key.

ghost use Rattle.std.specs.Prelude.{◌≡◌, ◌<◌, ◌≤◌, ◌+◌, ℕ, Some, [], length, replicate, slice_get, IfOk};
ghost use Rattle.vic_dict.specs.declared.limits.TheConstants.{MOST_CLIENTS};
ghost use Rattle.vic_drill.specs.Drills.{drill_group};
ghost use Rattle.vic_run_drill.specs.declared.seat.Seat.{Seat as ASeat};
ghost use Rattle.vic_run_drill.specs.Running.{SeatStands, HaveComeIn};

use crate::seat::{Seat, UnderWay};
use std::alloc::Global;
use vic_client::Client;
use vic_dict::{Mode, NoMemory};
use vic_tag::GroupKey;

/// The key of a drill: 32 zeros.
fn zero_key(alloc: Global) -> Result<GroupKey, NoMemory>
    ensures { IfOk result (λ key. key ≡ replicate 32 0) }
{
    match GroupKey::from_hex(
        alloc,
        "0000000000000000000000000000000000000000000000000000000000000000",
    ) {
        Ok(key) => Ok(key),
        Err(_) => Err(NoMemory),
    }
}

/// A client that has done nothing yet.
fn entered(alloc: Global, id: u8, count: u8) -> Result<Seat, NoMemory>
    requires some { 0 < id }
    requires member { id ≤ count }
    requires few { count ≤ MOST_CLIENTS }
    ensures nothing { IfOk result (λ m. m.under_way ≡ UnderWay.Nothing) }
    ensures stands { IfOk result (λ m. SeatStands (drill_group count) [] m id) }
{
    let key = zero_key(alloc)?;
    Ok(Seat {
        client: Client::new(alloc, id, count, Mode::Plain, key),
        under_way: UnderWay::Nothing,
    })
}

/// So many clients of one group, with their numbers in order.
pub fn entered_all(alloc: Global, count: u8) -> Result<Vec<Seat>, NoMemory>
    requires few { count ≤ MOST_CLIENTS }
    ensures { IfOk result (λ ms. HaveComeIn count count ms.items) }
{
    let mut made = Vec::new(alloc);
    for i in 0..count {
        made.push(entered(alloc, i + 1, count)?)?;
    }
    Ok(made)
}
