use crate::{
    kind_named, object_text, op_text, outcome_text, put_bad_line, read_client_line, read_line,
};
use std::alloc::Global;
use std::test::Fail;
use vic_attacks::HostileKind;
use vic_dict::{Answer, Bytes, Mode, Names, Op, Outcome};
use vic_rules::ObjectOutcome;

const NONE: &str = "Err(Grammar)";

/// A text, and what it reads as.
type Row = (&'static str, &'static str);

/// Lines of both modes, once the mode is known.
const LINES: [Row; 68] = [
    ("poll 1", "Ok(Poll(1))"),
    ("sync 2", "Ok(Sync(2))"),
    ("serve 3", "Ok(Serve(3))"),
    ("take 4", "Ok(Take(4))"),
    ("run 5", "Ok(Run(5))"),
    ("give 1 %", "Ok(Give(1, Bytes { items: [] }))"),
    ("give 1 %4243", "Ok(Give(1, Bytes { items: [66, 67] }))"),
    ("give 1 BC", "Ok(Give(1, Bytes { items: [66, 67] }))"),
    ("give 1 %4", NONE),
    ("give 1 %AB", NONE),
    ("give 1", NONE),
    ("give 1 a b", NONE),
    ("again 1", "Ok(Again(1))"),
    ("again 01", NONE),
    ("again 1 2", NONE),
    ("flip 1 0", "Ok(Flip(1, 0))"),
    ("flip 2 7", "Ok(Flip(2, 7))"),
    ("flip 1 00", NONE),
    ("flip 1 99999999999", "Ok(Flip(1, 4294967295))"),
    ("resend 3", "Ok(Resend(3))"),
    ("resend 4294967296", "Ok(Resend(4294967295))"),
    ("copy 9 1", "Ok(Copy(9, 1))"),
    ("copy 1 4", "Ok(Copy(1, 4))"),
    ("copy 99999999999 2", "Ok(Copy(4294967295, 2))"),
    ("copy 1 0", NONE),
    ("copy 1 5", NONE),
    ("copy 1 4294967297", NONE),
    ("copy 1 2 ", NONE),
    ("move 1 0", "Ok(Move(1, 0))"),
    ("move 99999999999 9", "Ok(Move(4294967295, 9))"),
    ("move 1  2", NONE),
    (" poll 1", NONE),
    ("poll 1 ", NONE),
    ("poll\t1", NONE),
    ("poll", NONE),
    (" ", NONE),
    (" # a", NONE),
    ("key 0b", "Ok(Key(Bytes { items: [48, 98] }))"),
    ("key aBC9", "Ok(Key(Bytes { items: [97, 66, 67, 57] }))"),
    ("key 0", NONE),
    ("key 00b", NONE),
    ("key 0g", NONE),
    ("key %00", NONE),
    ("key 00 00", NONE),
    (
        "hostile rollback 3",
        "Ok(Hostile(Bytes { items: [114, 111, 108, 108, 98, 97, 99, 107] }, 3))",
    ),
    (
        "hostile fork 3",
        "Ok(Hostile(Bytes { items: [102, 111, 114, 107] }, 3))",
    ),
    (
        "hostile replay 3",
        "Ok(Hostile(Bytes { items: [114, 101, 112, 108, 97, 121] }, 3))",
    ),
    (
        "hostile swap 3",
        "Ok(Hostile(Bytes { items: [115, 119, 97, 112] }, 3))",
    ),
    (
        "hostile badproof 3",
        "Ok(Hostile(Bytes { items: [98, 97, 100, 112, 114, 111, 111, 102] }, 3))",
    ),
    (
        "hostile stale 3",
        "Ok(Hostile(Bytes { items: [115, 116, 97, 108, 101] }, 3))",
    ),
    (
        "hostile truncate 3",
        "Ok(Hostile(Bytes { items: [116, 114, 117, 110, 99, 97, 116, 101] }, 3))",
    ),
    (
        "hostile fork 0",
        "Ok(Hostile(Bytes { items: [102, 111, 114, 107] }, 0))",
    ),
    (
        "hostile fork 1000000",
        "Ok(Hostile(Bytes { items: [102, 111, 114, 107] }, 1000000))",
    ),
    ("hostile fork 1000001", NONE),
    ("hostile fork 4294967296", NONE),
    ("hostile fork 00", NONE),
    ("hostile fork 01", NONE),
    ("hostile fork %", NONE),
    ("hostile fork", NONE),
    ("hostile fork 1 2", NONE),
    ("hostile fork 1 ", NONE),
    ("hostile honest 1", NONE),
    ("hostile Fork 1", NONE),
    ("hostile forks 1", NONE),
    ("hostile bad-proof 1", NONE),
    ("hostile 1 fork", NONE),
    ("hostile  1", NONE),
    (" hostile fork 1", NONE),
];

/// Lines of mode plain alone.
const CALLS: [Row; 14] = [
    (
        "call 1 put a %20",
        "Ok(Call(1, Put(Bytes { items: [97] }, Bytes { items: [32] })))",
    ),
    (
        "call 2 put %ab %",
        "Ok(Call(2, Put(Bytes { items: [171] }, Bytes { items: [] })))",
    ),
    (
        "call 3 get a/",
        "Ok(Call(3, Get(Bytes { items: [97, 47] })))",
    ),
    (
        "call 4294967296 del B",
        "Ok(Call(4294967295, Del(Bytes { items: [66] })))",
    ),
    ("call 5 list %", "Ok(Call(5, List(Bytes { items: [] })))"),
    ("call 01 get a", NONE),
    ("call 1 get", NONE),
    ("call 1 get %", NONE),
    ("call 1 get %AB", NONE),
    ("call 1 get %a", NONE),
    ("call 1 get a b", NONE),
    ("call 1 put a", NONE),
    ("call 1 put a b c", NONE),
    ("call 1  get a", NONE),
];

/// Lines of mode objects alone.
const OBJECTS: [Row; 15] = [
    (
        "call 1 store a x",
        "Ok(Object(1, Store(Bytes { items: [97] }, Bytes { items: [120] })))",
    ),
    (
        "call 2 store %20 zeros:2",
        "Ok(Object(2, Store(Bytes { items: [32] }, Bytes { items: [0, 0] })))",
    ),
    (
        "call 3 store a zeros:0",
        "Ok(Object(3, Store(Bytes { items: [97] }, Bytes { items: [] })))",
    ),
    (
        "call 4 load a/",
        "Ok(Object(4, Load(Bytes { items: [97, 47] })))",
    ),
    (
        "call 4294967296 erase B",
        "Ok(Object(4294967295, Erase(Bytes { items: [66] })))",
    ),
    (
        "call 5 names %",
        "Ok(Object(5, Names(Bytes { items: [] })))",
    ),
    ("call 1 store a zeros:", NONE),
    ("call 1 store a zeros:007", NONE),
    ("call 1 store a zeros:8388609", NONE),
    ("call 1 store a zeros:4303355904", NONE),
    ("call 1 store % x", NONE),
    ("call 1 store a", NONE),
    ("call 1 store a x y", NONE),
    ("call 1 load %", NONE),
    ("call 1 names", NONE),
];

/// Lines of clients' scripts, in mode plain and in mode objects.
const CLIENTS: [(&str, &str, &str); 12] = [
    (
        "put a x",
        "Ok(Call(Put(Bytes { items: [97] }, Bytes { items: [120] })))",
        NONE,
    ),
    ("get a", "Ok(Call(Get(Bytes { items: [97] })))", NONE),
    ("put a zeros:1", NONE, NONE),
    (
        "store a zeros:1",
        NONE,
        "Ok(Object(Store(Bytes { items: [97] }, Bytes { items: [0] })))",
    ),
    ("load a", NONE, "Ok(Object(Load(Bytes { items: [97] })))"),
    ("erase a", NONE, "Ok(Object(Erase(Bytes { items: [97] })))"),
    ("names a", NONE, "Ok(Object(Names(Bytes { items: [97] })))"),
    ("poll", "Ok(Poll)", "Ok(Poll)"),
    ("settle 1000", "Ok(Settle(1000))", "Ok(Settle(1000))"),
    ("settle 1001", NONE, NONE),
    ("# a", "Ok(Skip)", "Ok(Skip)"),
    ("sync 1", NONE, NONE),
];

/// Lines that are read before the mode is known, too.
const HEADERS: [Row; 14] = [
    ("", "Ok(Skip)"),
    ("#", "Ok(Skip)"),
    ("# a", "Ok(Skip)"),
    ("#key 0b\r", "Ok(Skip)"),
    ("clients 1", "Ok(Clients(1))"),
    ("clients 64", "Ok(Clients(64))"),
    ("clients 0", NONE),
    ("clients 65", NONE),
    ("clients 01", NONE),
    ("clients 4294967297", NONE),
    ("objects 1", "Ok(Objects(1))"),
    ("objects 64", "Ok(Objects(64))"),
    ("objects 0", NONE),
    ("objects 65", NONE),
];

/// What a text reads as.
fn shown(alloc: Global, text: &str, mode: Option<Mode>) -> Result<String, Fail> {
    let read = read_line(alloc, text.as_bytes(), mode);
    Ok(format!(in alloc; "{read:?}")?)
}

// What lines read as in a group of mode plain, in one of mode objects, and before the mode is known.
#[test]
fn lines(rt: HostRuntime) -> Result<(), Fail> {
    let tables = [
        (LINES.as_slice(), [true, true, false]),
        (CALLS.as_slice(), [true, false, false]),
        (OBJECTS.as_slice(), [false, true, false]),
        (HEADERS.as_slice(), [true, true, true]),
    ];
    let modes = [Some(Mode::Plain), Some(Mode::Objects), None];
    for (rows, known) in tables {
        for (line, want) in rows {
            for (mode, is_known) in modes.iter().zip(&known) {
                let read = shown(rt.alloc(), line, *mode)?;
                let right = if *is_known { *want } else { NONE };
                assert_eq!(rt; read.as_str(), right, "{line}, {mode:?}");
            }
        }
    }
    Ok(())
}

// What kinds of hostile servers names tell.
#[test]
fn kinds(rt: HostRuntime) -> Result<(), Fail> {
    for (name, want) in [
        ("rollback", Some(HostileKind::Rollback)),
        ("fork", Some(HostileKind::Fork)),
        ("replay", Some(HostileKind::Replay)),
        ("swap", Some(HostileKind::Swap)),
        ("badproof", Some(HostileKind::BadProof)),
        ("stale", Some(HostileKind::Stale)),
        ("truncate", Some(HostileKind::Truncate)),
        ("honest", None),
        ("Rollback", None),
        ("", None),
    ] {
        assert_eq!(rt; kind_named(name.as_bytes()), want, "{name}");
    }
    Ok(())
}

// What lines of a client's script read as.
#[test]
fn client_lines(rt: HostRuntime) -> Result<(), Fail> {
    let alloc = rt.alloc();
    for (line, plain, objects) in &CLIENTS {
        for (mode, want) in [(Mode::Plain, plain), (Mode::Objects, objects)] {
            let read = read_client_line(alloc, line.as_bytes(), mode);
            let text = format!(in alloc; "{read:?}")?;
            assert_eq!(rt; text.as_str(), *want, "{line}, {mode:?}");
        }
    }
    Ok(())
}

// A key, a name and a prefix may have 255 bytes, a value 64, and the key of a group 128 digits.
#[test]
fn longest(rt: HostRuntime) -> Result<(), Fail> {
    for (mode, front, most, more) in [
        (Mode::Plain, "call 1 get ", 255, 256),
        (Mode::Plain, "call 1 list ", 255, 256),
        (Mode::Plain, "call 1 put a ", 64, 65),
        (Mode::Objects, "call 1 load ", 255, 256),
        (Mode::Objects, "call 1 names ", 255, 256),
        (Mode::Plain, "key ", 128, 130),
    ] {
        for count in [most, more] {
            let line = format!(in rt.alloc(); "{front}{}", "a".repeat(rt.alloc(), count)?)?;
            let read = shown(rt.alloc(), line.as_str(), Some(mode))?;
            assert!(rt; (read.as_str() == NONE) == (count > most), "{front}{count}");
        }
    }
    Ok(())
}

// What operations and outcomes are printed as.
#[test]
fn printed(rt: HostRuntime) -> Result<(), Fail> {
    let alloc = rt.alloc();
    let ops = [
        (
            Op::Put(Bytes::of(alloc, b"a")?, Bytes::of(alloc, b" ")?),
            "put a %20",
        ),
        (Op::Get(Bytes::of(alloc, b"a.B_9-/")?), "get a.B_9-/"),
        (Op::Del(Bytes::of(alloc, b"a%\xff")?), "del %6125ff"),
        (Op::List(Bytes::new(alloc)), "list %"),
    ];
    for (op, want) in &ops {
        assert_eq!(rt; op_text(alloc, op)?.as_slice(), want.as_bytes(), "{want}");
    }
    let mut names = Names::new(alloc);
    names.push(Bytes::of(alloc, b"a")?)?;
    names.push(Bytes::of(alloc, b"b")?)?;
    let outcomes = [
        (Outcome::Done(Answer::Stored), "done stored"),
        (
            Outcome::Done(Answer::Found(Bytes::of(alloc, b" ")?)),
            "done value %20",
        ),
        (Outcome::Done(Answer::NotFound), "done none"),
        (Outcome::Done(Answer::Removed), "done removed"),
        (Outcome::Done(Answer::Absent), "done absent"),
        (
            Outcome::Done(Answer::Names(Names::new(alloc))),
            "done names",
        ),
        (Outcome::Done(Answer::Names(names)), "done names a b"),
        (Outcome::Aborted(7), "aborted 7"),
        (Outcome::Refused(2), "refused 2"),
        (Outcome::Halted(5), "halted 5"),
    ];
    for (outcome, want) in &outcomes {
        assert_eq!(rt;
            outcome_text(alloc, outcome)?.as_slice(),
            want.as_bytes(),
            "{want}"
        );
    }
    Ok(())
}

// What tells of bad lines, behind what was printed before.
#[test]
fn bad_lines(rt: HostRuntime) -> Result<(), Fail> {
    let alloc = rt.alloc();
    let mut out = Bytes::of(alloc, b"1 done stored\n")?;
    put_bad_line(&mut out, alloc, 12, 3)?;
    put_bad_line(&mut out, alloc, 4294967295, 1)?;
    let want =
        "1 done stored\nline 12: client has halted\nline 4294967295: not a line of this script\n";
    assert_eq!(rt; out.as_slice(), want.as_bytes());
    Ok(())
}

// What the outcomes of calls on objects are printed as.
#[test]
fn printed_objects(rt: HostRuntime) -> Result<(), Fail> {
    let alloc = rt.alloc();
    let mut names = Names::new(alloc);
    names.push(Bytes::of(alloc, b"a")?)?;
    names.push(Bytes::of(alloc, b" ")?)?;
    let front = "0".repeat(alloc, 64)?;
    let long = format!(in alloc; "object content 33 %{front}")?;
    let outcomes = [
        (ObjectOutcome::Stored, "object stored"),
        (
            ObjectOutcome::Content(Bytes::of(alloc, b"a")?),
            "object content 1 a",
        ),
        (
            ObjectOutcome::Content(Bytes::new(alloc)),
            "object content 0 %",
        ),
        (
            ObjectOutcome::Content(Bytes::of(alloc, &[0; 33])?),
            long.as_str(),
        ),
        (ObjectOutcome::Missing, "object missing"),
        (ObjectOutcome::Removed, "object removed"),
        (ObjectOutcome::Absent, "object absent"),
        (ObjectOutcome::Names(names), "object names a %20"),
        (ObjectOutcome::Aborted(7), "object aborted 7"),
        (ObjectOutcome::Refused(7), "object refused 7"),
    ];
    for (outcome, want) in &outcomes {
        assert_eq!(rt;
            object_text(alloc, outcome)?.as_slice(),
            want.as_bytes(),
            "{want}"
        );
    }
    Ok(())
}
