//! Calls that may take memory, with memory enough, which no other row calls by themselves.

ghost use Rattle.std.specs.Prelude.{◌≡◌};
ghost use Rattle.vic_turn.specs.Passes.{IsPassOf};

use std::alloc::Global;
use std::process::Abort;
use std::sync::Wait;
use std::test::*;
use vic_dict::{Bytes, Mode, Names, NoMemory, Op};
use vic_gate::Desk;
use vic_hall::Hall;
use vic_hall::recorder::Recorder;
use vic_server::Served;
use vic_text::{op_text, read_client_line};
use vic_turn::pass::Pass;
use vic_wire::ToClient;

// Whether a list of this text and an empty one is copied.
fn names_copied(alloc: Global, text: &Bytes) -> Result<bool, NoMemory> {
    let mut names = Names::new(alloc);
    names.push(text.copy(alloc)?)?;
    names.push(Bytes::new(alloc))?;
    match names.copy(alloc)?.as_slice() {
        [one, other] => Ok(one.as_slice() == text.as_slice() && other.is_empty()),
        _ => Ok(false),
    }
}

// Whether the copy of an operation is printed so.
fn is_copied(alloc: Global, op: &Op, want: &[u8]) -> Result<bool, NoMemory> {
    let copied = op.copy(alloc)?;
    Ok(op_text(alloc, &copied)?.as_slice() == want)
}

// Copies equal their sources.
fn are_copied(alloc: Global, text: &Bytes) -> Result<bool, NoMemory> {
    let put = Op::Put(text.copy(alloc)?, Bytes::of(alloc, b"x")?);
    let list = Op::List(text.copy(alloc)?);
    Ok(
        text.as_slice() == b"a/b".as_slice()
            && names_copied(alloc, text)?
            && is_copied(alloc, &put, b"put a/b x")?
            && is_copied(alloc, &list, b"list a/b")?,
    )
}

#[test]
fn copies(rt: HostRuntime) -> Result<(), Fail> {
    let text = Bytes::of(rt.alloc(), b"a/b")?;
    assert!(rt; are_copied(rt.alloc(), &text)?);
    Ok(())
}

const NONE: &str = "Err(Grammar)";

/// Lines of a client's script in a group with a dictionary, and what each reads as.
const LINES: [(&'static str, &'static str); 16] = [
    (
        "put a x",
        "Ok(Call(Put(Bytes { items: [97] }, Bytes { items: [120] })))",
    ),
    ("get %61", "Ok(Call(Get(Bytes { items: [97] })))"),
    ("del a", "Ok(Call(Del(Bytes { items: [97] })))"),
    ("list %", "Ok(Call(List(Bytes { items: [] })))"),
    ("poll", "Ok(Poll)"),
    ("sync", "Ok(Sync)"),
    ("settle 1", "Ok(Settle(1))"),
    ("settle 1000", "Ok(Settle(1000))"),
    ("settle 0", NONE),
    ("settle 1001", NONE),
    ("", "Ok(Skip)"),
    ("# a", "Ok(Skip)"),
    ("put a", NONE),
    ("poll 1", NONE),
    ("call 1 get a", NONE),
    (" sync", NONE),
];

#[test]
fn client_lines(rt: HostRuntime) -> Result<(), Fail> {
    let alloc = rt.alloc();
    for (line, want) in LINES {
        let read = read_client_line(alloc, line.as_bytes(), Mode::Plain);
        let read = format!(in alloc; "{read:?}")?;
        assert_eq!(rt; read.as_str(), want, "{line}");
    }
    Ok(())
}

/// And in a group with objects.
const OBJECT_LINES: [(&'static str, &'static str); 14] = [
    (
        "store a x",
        "Ok(Object(Store(Bytes { items: [97] }, Bytes { items: [120] })))",
    ),
    (
        "store a %",
        "Ok(Object(Store(Bytes { items: [97] }, Bytes { items: [] })))",
    ),
    (
        "store a zeros:2",
        "Ok(Object(Store(Bytes { items: [97] }, Bytes { items: [0, 0] })))",
    ),
    ("store a zeros:8388609", NONE),
    ("store a zeros:", NONE),
    ("store a", NONE),
    ("store % x", NONE),
    ("load %61", "Ok(Object(Load(Bytes { items: [97] })))"),
    ("erase a", "Ok(Object(Erase(Bytes { items: [97] })))"),
    ("names %", "Ok(Object(Names(Bytes { items: [] })))"),
    ("poll", "Ok(Poll)"),
    ("settle 2", "Ok(Settle(2))"),
    ("put a x", NONE),
    ("list %", NONE),
];

#[test]
fn client_lines_of_objects(rt: HostRuntime) -> Result<(), Fail> {
    let alloc = rt.alloc();
    for (line, want) in OBJECT_LINES {
        let read = read_client_line(alloc, line.as_bytes(), Mode::Objects);
        let read = format!(in alloc; "{read:?}")?;
        assert_eq!(rt; read.as_str(), want, "{line}");
    }
    Ok(())
}

// The pass says Hello for client 1, and whether it is answered Hi.
fn comes_in<R: Wait>(rt: &R, alloc: Global, hall: &Hall, pass: &mut Pass<Recorder>) -> bool
    requires { IsPassOf hall.now pass.old }
    ensures { IsPassOf hall.now pass.new × (pass.new.number ≡ pass.old.number) }
{
    matches!(
        hall.answer(rt, alloc, pass, 0, b"\x21\x01\0\x01"),
        Ok(ToClient::Hi)
    )
}

fn answers<R: Wait + Abort>(rt: &R, alloc: Global) -> Result<(), Fail> {
    let served = Served::new(alloc, Mode::Plain, 1)?;
    let (hall, passes) = Hall::new(alloc, served, 1)?;
    let mut passes = passes.into_vec();
    let mut pass = passes.pop().ok_or("pass")?;
    let hi = comes_in(rt, alloc, &hall, &mut pass);
    assert!(rt; hi);
    Ok(())
}

#[test]
fn a_hall_answers(rt: HostRuntime) -> Result<(), Fail> {
    answers(&rt, rt.alloc())
}
