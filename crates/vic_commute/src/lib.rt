//! When two operations of different clients conflict, and that those which don't may be done in either order.
//!
//! The definition is `conflicts` of `vic_wire/specs/Conflict.antt`; the function `conflicts` computes it, and the contracts
//! of `commutes` and `table` say what it means.
#![tactic(auto)]

ghost use Rattle.std.specs.Prelude.{◌≡◌};
ghost use Rattle.vic_wire.specs.Conflict.{conflicts as conflict, is_met, changed_key, looks_at as looks};
ghost use Rattle.vic_commute.specs.Commutes.{Commutes, ConflictTable};
ghost use Rattle.vic_commute.specs.Blocks.{NotBlocked, BlocksConflict, BlocksAre};
ghost use Rattle.vic_wire.specs.Conflict.{heeds as heeds_test, blocks as block};

use vic_dict::Op;

/// Whether an operation looks at a key: at its own, or at each one with its prefix. The two are compared byte by byte.
pub fn looks_at(op: &Op, key: &[u8]) -> bool
    ensures { result ≡ looks op.now key.now }
{
    match op {
        Op::Put(own, _) | Op::Get(own) | Op::Del(own) => own.as_slice() == key,
        Op::List(prefix) => key.starts_with(prefix.as_slice()),
    }
}

// Whether the one may change a key that the other looks at.
fn is_in_reach(changing: &Op, looking: &Op) -> bool
    ensures { result ≡ is_met (changed_key changing.now) looking.now }
{
    match changing {
        Op::Put(key, _) | Op::Del(key) => looks_at(looking, key.as_slice()),
        Op::Get(_) | Op::List(_) => false,
    }
}

/// Whether one of the two may change a key that the other looks at. It costs what comparing two pairs of keys costs.
pub fn conflicts(a: &Op, b: &Op) -> bool
    ensures { result ≡ conflict a.now b.now }
{
    is_in_reach(a, b) || is_in_reach(b, a)
}

/// Two operations that don't conflict leave the same dictionary in either order, and answer the same in either order.
pub fn commutes()
    ensures { Commutes }
{}

/// What `conflicts` says of each two kinds of operations.
pub fn table()
    ensures { ConflictTable }
{}

// Whether the answer of an operation depends on the value of a key.
fn heeds(op: &Op, key: &[u8]) -> bool
    ensures { result ≡ heeds_test op.now key.now }
{
    match op {
        Op::Put(_, _) => false,
        Op::Get(_) | Op::Del(_) | Op::List(_) => looks_at(op, key),
    }
}

/// Whether a pending operation of another client may change what one's own answers. It costs what comparing two keys costs.
pub fn blocks(pending: &Op, mine: &Op) -> bool
    ensures { result ≡ block pending.now mine.now }
{
    match pending {
        Op::Put(key, _) | Op::Del(key) => heeds(mine, key.as_slice()),
        Op::Get(_) | Op::List(_) => false,
    }
}

/// What doesn't block an operation leaves its answer alone; what blocks it conflicts with it; and what `blocks` says of operations.
pub fn blocking()
    ensures alone { NotBlocked }
    ensures conflict { BlocksConflict }
    ensures table { BlocksAre }
{}
