ghost use Rattle.std.specs.Prelude.{◌≡◌, length, IfOk, All};
ghost use Rattle.vic_turn.specs.Passes.{IsPassOf};

use std::alloc::Global;
use std::process::Abort;
use std::sync::Wait;
use std::test::*;
use std::thread::Threads;
use vic_dict::{Bytes, Mode, NoMemory};
use vic_gate::{OpenGate, WorkEnd};
use vic_hall::recorder::Recorder;
use vic_hall::{Hosted, host};
use vic_ports::{Calls, Lines, MemoryDoors, MemoryLink};
use vic_server::Served;
use vic_turn::lock::TurnLock;
use vic_turn::pass::Pass;
use vic_turn::passes::Passes;
use vic_wire::ToClient;

/// How many connections come at once.
const MANY: u8 = 8;

/// Hi, and Gone.
const GREETED_AND_GONE: &[u8] = b"\0\0\0\x01\x41\0\0\0\x01\x49";

/// What a client that comes in and leaves sends.
fn comes_and_leaves(alloc: Global, client: u8) -> Result<Bytes, NoMemory> {
    let mut bytes = Bytes::of(alloc, b"\0\0\0\x04\x21\x01\0")?;
    bytes.push(client)?;
    bytes.append(b"\0\0\0\x01\x29")?;
    Ok(bytes)
}

/// Doors with so many lines, each of a client of its own, which comes in and leaves; the accept with this number fails (0: none).
fn doors_of(alloc: Global, count: u8, fails: u64) -> Result<MemoryDoors, NoMemory> {
    let mut lines = Lines::new(alloc);
    for before in 0..count {
        let given = comes_and_leaves(alloc, before + 1)?;
        lines.push(MemoryLink::new(alloc, given, Calls::new(alloc)))?;
    }
    let mut calls = Calls::new(alloc);
    if fails > 0 {
        calls.push(fails)?;
    }
    MemoryDoors::new(alloc, lines, calls)
}

/// Whether so many lines went back, with this text written on each.
fn have_all(doors: &MemoryDoors, count: usize, text: &[u8]) -> bool {
    let back = doors.returned();
    for place in 0..back.len() {
        if back.at(place).written().as_slice() != text {
            return false;
        }
    }
    back.len() == count
}

/// Whether all of many lines are served, and the server keeps what each asked for.
fn serves_many<R: Threads + Wait + Sync>(rt: &R, alloc: Global) -> Result<bool, NoMemory> {
    let served = Served::new(alloc, Mode::Plain, MANY)?;
    let mut doors = doors_of(alloc, MANY, 0)?;
    match host(rt, alloc, served, &mut doors, &OpenGate, u32::from(MANY)) {
        Hosted::Ran(served, ends) => Ok(
            served.changes() == 16
                && served.length() == 0
                && ends.len() == usize::from(MANY)
                && ends.iter().all(|end| *end == WorkEnd::Ended)
                && have_all(&doors, usize::from(MANY), GREETED_AND_GONE),
        ),
        _ => Ok(false),
    }
}

#[test]
fn serves_eight_lines_at_once(rt: HostRuntime) -> Result<(), Fail> {
    assert!(rt; serves_many(&rt, rt.alloc()).ok().ok_or("memory")?);
    Ok(())
}

/// Whether hosting fails where one accept of three does, and those lines that had come go back with nothing written on them.
fn fails_at<R: Threads + Wait + Sync>(rt: &R, alloc: Global, accept: u8) -> Result<bool, NoMemory> {
    let served = Served::new(alloc, Mode::Plain, 3)?;
    let mut doors = doors_of(alloc, 3, u64::from(accept))?;
    match host(rt, alloc, served, &mut doors, &OpenGate, 3) {
        Hosted::Failed => Ok(have_all(&doors, usize::from(accept.saturating_sub(1)), b"")),
        _ => Ok(false),
    }
}

#[test]
fn fails_where_an_accept_does(rt: HostRuntime) -> Result<(), Fail> {
    for accept in 1..4 {
        assert!(rt;
            fails_at(&rt, rt.alloc(), accept).ok().ok_or("memory")?,
            "{accept}"
        );
    }
    Ok(())
}

/// The first pass says Hello for client 1, and whether it is answered Hi.
fn comes_in<R: Wait>(
    rt: &R,
    alloc: Global,
    lock: &TurnLock<Recorder>,
    pass: &mut Pass<Recorder>,
) -> bool
    requires { IsPassOf lock.now pass.old }
    ensures { IsPassOf lock.now pass.new × (pass.new.number ≡ pass.old.number) }
{
    matches!(
        lock.step_as(rt, alloc, pass, 0, b"\x21\x01\0\x01"),
        Ok(ToClient::Hi)
    )
}

/// Both passes, once the first has come in and the second has met a note of it.
fn met<R: Wait + Abort>(
    rt: &R,
    alloc: Global,
    lock: &TurnLock<Recorder>,
    mut one: Pass<Recorder>,
    mut two: Pass<Recorder>,
) -> (Pass<Recorder>, Pass<Recorder>)
    requires one { IsPassOf lock.now one }
    requires two { IsPassOf lock.now two }
    ensures { IsPassOf lock.now result.0 × IsPassOf lock.now result.1 }
{
    let hi = comes_in(rt, alloc, lock, &mut one);
    assert!(rt; hi);
    let note = lock.note(&mut one);
    lock.meet(&mut two, note);
    (one, two)
}

/// Both passes, as a lock takes them back.
fn back(
    alloc: Global,
    lock: &TurnLock<Recorder>,
    one: Pass<Recorder>,
    two: Pass<Recorder>,
) -> Result<Passes<Recorder>, NoMemory>
    requires one { IsPassOf lock.now one }
    requires two { IsPassOf lock.now two }
    ensures count { IfOk result (λ all. length all ≡ 2) }
    ensures own { IfOk result (λ all. All (λ p. p.lock ≡ lock.now.id) all) }
{
    let mut passes = Vec::new(alloc);
    passes.push(one)?;
    passes.push(two)?;
    Ok(Passes::of(passes))
}

fn meets_a_note<R: Wait + Abort>(rt: &R, alloc: Global) -> Result<(), Fail> {
    let Ok(served) = Served::new(alloc, Mode::Plain, 1) else {
        panic!(rt; "no memory")
    };
    let Ok((lock, passes)) = TurnLock::new(alloc, Recorder { served }, 2) else {
        panic!(rt; "no memory")
    };
    let mut passes = passes.into_vec();
    let two = passes.pop().ok_or("two")?;
    let one = passes.pop().ok_or("one")?;
    let (one, two) = met(rt, alloc, &lock, one, two);
    let all = back(alloc, &lock, one, two)?;
    let Recorder { served } = lock.close(all);
    assert_eq!(rt; served.changes(), 1);
    Ok(())
}

#[test]
fn note_is_met(rt: HostRuntime) -> Result<(), Fail> {
    meets_a_note(&rt, rt.alloc())
}
