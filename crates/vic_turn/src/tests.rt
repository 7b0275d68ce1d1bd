ghost use Rattle.std.specs.Prelude.{◌≡◌, ℕ, List, length, Option, Some, None, ◌==◌, if◌then◌else◌, [], ◌∷◌};
ghost use Rattle.vic_change.specs.declared.Change.{Change};
ghost use Rattle.vic_change.specs.Changes.{change};
ghost use Rattle.vic_turn.specs.Passes.{IsPassOf};

use crate::lock::TurnLock;
use crate::pass::Pass;
use crate::passes::Passes;
use crate::recorded::Recorded;
use std::alloc::Global;
use std::marker::Model;
use std::process::Abort;
use std::sync::Wait;
use std::test::*;
use std::thread::{Threads, join};
use vic_change::Change;
use vic_dict::{Bytes, NoMemory};

/// Counts the requests that are not empty.
#[derive(Drop)]
struct Counter {
    history: Vec<Change>,
}

impl Recorded for Counter {
    type Reply = u64;

    type Fixed = ();

    ghost fixed = { λ _. tt };

    ghost changes = { λ c. c.history.items };

    ghost fits = { λ _. Unit {0} };

    ghost replies = { λ _ h _ _. length h };

    ghost records = { λ _ _ who payload _. if length payload == 0 then None else Some (who, payload) };

    fn apply(
        &mut self,
        alloc: Global,
        seat: u32,
        who: u8,
        payload: &[u8],
    ) -> Result<u64, NoMemory> {
        let reply = self.history.len() as u64;
        if payload.len() == 0 {
            return Ok(reply);
        }
        let payload = Bytes::of(alloc, payload)?;
        match self.history.push(Change { seat, who, payload }) {
            Ok(()) => Ok(reply),
            Err(_) => Err(NoMemory),
        }
    }
}

#[test]
fn counts(rt: HostRuntime) -> Result<(), Fail> {
    let mut c = Counter {
        history: Vec::new(rt.alloc()),
    };
    let a = c.apply(rt.alloc(), 1, 0, b"x").ok();
    let b = c.apply(rt.alloc(), 2, 0, b"y").ok();
    assert!(rt; a == Some(0) && b == Some(1));
    Ok(())
}

fn steps<R: Wait>(
    rt: &R,
    alloc: Global,
    lock: &TurnLock<Counter>,
    mut pass: Pass<Counter>,
    who: u8,
) -> Pass<Counter>
    requires { IsPassOf lock.now pass }
    ensures { IsPassOf lock.now result × (result.number ≡ pass.number) }
{
    for _ in 0..100 {
        let _ = lock.step_as(rt, alloc, &mut pass, who, b"x");
    }
    pass
}

fn in_threads<R: Threads + Wait + Sync>(
    rt: &R,
    alloc: Global,
    lock: &TurnLock<Counter>,
    one: Pass<Counter>,
    two: Pass<Counter>,
) -> (Pass<Counter>, Pass<Counter>)
    requires one { IsPassOf lock.now one }
    requires two { IsPassOf lock.now two }
    ensures { IsPassOf lock.now result.0 × IsPassOf lock.now result.1 }
{
    join(
        rt,
        move || -> Pass<Counter>
            requires { IsPassOf lock.now one }
            ensures { IsPassOf lock.entry.now result }
        { steps(rt, alloc, lock, one, 1) },
        move || -> Pass<Counter>
            requires { IsPassOf lock.now two }
            ensures { IsPassOf lock.entry.now result }
        { steps(rt, alloc, lock, two, 2) },
    )
}

fn met<R: Threads + Wait + Sync>(
    rt: &R,
    alloc: Global,
    lock: &TurnLock<Counter>,
    one: Pass<Counter>,
    two: Pass<Counter>,
) -> (Pass<Counter>, Pass<Counter>)
    requires one { IsPassOf lock.now one }
    requires two { IsPassOf lock.now two }
    ensures { IsPassOf lock.now result.0 × IsPassOf lock.now result.1 }
{
    let (mut one, mut two) = in_threads(rt, alloc, lock, one, two);
    let note = lock.note(&mut one);
    lock.meet(&mut two, note);
    (one, two)
}

fn both<R: Threads + Wait + Abort + Sync>(rt: &R, alloc: Global) -> Result<(), Fail> {
    let counter = Counter {
        history: Vec::new(alloc),
    };
    let Ok((lock, passes)) = TurnLock::new(alloc, counter, 2) else {
        panic!(rt; "no memory")
    };
    let mut passes = passes.into_vec();
    let two = passes.pop().ok_or("two")?;
    let one = passes.pop().ok_or("one")?;
    let (one, two) = met(rt, alloc, &lock, one, two);
    passes.push(one)?;
    passes.push(two)?;
    let counter = lock.close(Passes::of(passes));
    let firsts = counter
        .history
        .iter()
        .filter(|c| c.seat == 1 && c.who == 1)
        .count();
    assert_eq!(rt; counter.history.len(), 200);
    assert_eq!(rt; firsts, 100);
    Ok(())
}

#[test]
fn two_threads(rt: HostRuntime) -> Result<(), Fail> {
    both(&rt, rt.alloc())
}
