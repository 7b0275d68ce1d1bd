ghost use Rattle.std.specs.Prelude.{◌≤◌, ◌≡◌, ◌<◌, [], IfOk, length};
ghost use Rattle.vic_dict.specs.Dictionary.{Fits};
ghost use Rattle.vic_checks.specs.Passing.{AwaitsFit};

use crate::form::reply_fits;
use crate::{Awaiting, Own, OwnList, State, Verdict, decide, judge};
use std::alloc::Global;
use std::test::Fail;
use vic_chain::Window;
use vic_dict::{Answer, Bytes, Entry, Mode, NoMemory, Op, Outcome};
use vic_prune::Pruned;
use vic_tag::GroupKey;
use vic_wire::{Digest32, Tagged, TaggedList, ToClient};

fn put(alloc: Global, key: &[u8], value: &[u8]) -> Result<Op, NoMemory>
    requires some { 0 < length key.now }
    requires short { length key.now ≤ 255 }
    requires small { length value.now ≤ 64 }
    ensures { IfOk result (λ op. Fits op) }
{
    Ok(Op::Put(Bytes::of(alloc, key)?, Bytes::of(alloc, value)?))
}

fn get(alloc: Global, key: &[u8]) -> Result<Op, NoMemory>
    requires some { 0 < length key.now }
    requires short { length key.now ≤ 255 }
    ensures { IfOk result (λ op. Fits op) }
{
    Ok(Op::Get(Bytes::of(alloc, key)?))
}

// Client 1 of 2, whose own put of a as x at position 1 isn't sealed.
fn kept(alloc: Global, awaiting: Awaiting) -> Result<State, NoMemory>
    requires { AwaitsFit awaiting }
    ensures window { IfOk result (λ x. (x.window.sealed ≡ 0) × (x.window.links ≡ [])) }
    ensures fits { IfOk result (λ x. AwaitsFit x.awaiting) }
{
    let key = GroupKey::from_hex(alloc, "6b6579").map_err(|_| NoMemory)?;
    let mut own = OwnList::new(alloc);
    own.push(Own {
        position: 1,
        op: put(alloc, b"a", b"x")?,
        done: true,
    })?;
    Ok(State {
        id: 1,
        count: 2,
        mode: Mode::Plain,
        key,
        window: Window::new(alloc, Mode::Plain, 2),
        own,
        awaiting,
    })
}

// A get of b by client 2, and a get of a by client 1.
fn entries(alloc: Global) -> Result<TaggedList, NoMemory>
    ensures { IfOk result (λ list. length list ≡ 2) }
{
    let tag = Digest32 { bytes: [0; 32] };
    let mut list = TaggedList::new(alloc);
    list.push(Tagged {
        entry: Entry {
            client: 2,
            seq: 1,
            op: get(alloc, b"b")?,
        },
        tag,
    })?;
    list.push(Tagged {
        entry: Entry {
            client: 1,
            seq: 2,
            op: get(alloc, b"a")?,
        },
        tag,
    })?;
    Ok(list)
}

#[test]
fn verdicts(rt: HostRuntime) -> Result<(), Fail> {
    let state = kept(rt.alloc(), Awaiting::Turn)?;
    let wait = ToClient::Wait;
    let other = ToClient::Kept;
    assert!(rt; judge(&state, Some(&wait), None) == Verdict::Pass);
    assert!(rt; judge(&state, Some(&other), None) == Verdict::Halt(1));
    assert!(rt; judge(&state, None, None) == Verdict::Halt(1));
    assert!(rt; state.own.len() == 1 && !state.own.is_empty() && state.own.at(0).position == 1);
    Ok(())
}

/// A Reply to a call at position 1,024 may have a seal of position 0, and one at 1,025 may not; the path has at most 1,048,576 entries.
#[test]
fn lengths_of_replies(rt: HostRuntime) -> Result<(), Fail> {
    assert!(rt; reply_fits(1023, 1, 0) && !reply_fits(1024, 1, 0) && reply_fits(1024, 1, 1));
    assert!(rt; reply_fits(1_048_575, 1, 1_047_552) && !reply_fits(1_048_576, 1, 1_048_576));
    assert!(rt; reply_fits(0, 1, 0) && !reply_fits(0, 1, 1));
    Ok(())
}

// An own call shows in the answer, and a conflict with another's call aborts.
#[test]
fn decisions(rt: HostRuntime) -> Result<(), Fail> {
    let state = kept(rt.alloc(), Awaiting::Turn)?;
    let list = entries(rt.alloc())?;
    let own = get(rt.alloc(), b"a")?;
    let other = put(rt.alloc(), b"b", b"y")?;
    let found = decide(rt.alloc(), &state, &list, 0, &Pruned::Empty, &own)?;
    match &found {
        Outcome::Done(Answer::Found(value)) => assert!(rt; value.as_slice() == b"x".as_slice()),
        _ => assert!(rt; false),
    }
    let aborted = decide(rt.alloc(), &state, &list, 0, &Pruned::Empty, &other)?;
    assert!(rt; matches!(&aborted, Outcome::Aborted(1)));
    // Over its own position the call isn't done again.
    let sealed = decide(rt.alloc(), &state, &list, 1, &Pruned::Empty, &own)?;
    assert!(rt; matches!(&sealed, Outcome::Done(Answer::NotFound)));
    Ok(())
}
