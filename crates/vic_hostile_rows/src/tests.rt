ghost use Rattle.std.specs.Prelude.{◌<◌, ◌≤◌};

use std::alloc::Global;
use std::test::Fail;
use vic_client::{Client, Step};
use vic_dict::{Bytes, Mode, NoMemory, Op};
use vic_hostile::{Hostile, HostileKind};
use vic_server::{Serve, Served};
use vic_tag::GroupKey;
use vic_text::outcome_text;

/// There is no connection, so all requests have one seat.
const SEAT: u32 = 0;

/// The most requests of one call and of the seals after it.
const MOST_REQUESTS: u32 = 8;

/// A kind, after how many requests it misbehaves, and what is printed.
type Row = (HostileKind, u32, &'static [u8]);

/// Client 1 puts `a` = `x`, with the requests 1 to 3; client 2 gets `a`, with the requests 4 to 6.
const HONEST: &[u8] = b"1 done stored/1 took/1 took/2 done value x/2 took/2 took";

/// The put isn't sealed where client 2 is served.
const ABORTED: &[u8] = b"1 done stored/1 halted 1/2 aborted 1/2 took";

/// The part that client 2 gets isn't that of the seal.
const NO_PART: &[u8] = b"1 done stored/1 took/1 took/2 halted 7";

const PUT_AND_GET: [Row; 24] = [
    (HostileKind::Honest, 0, HONEST),
    (HostileKind::Honest, 1, HONEST),
    (HostileKind::Honest, 5, HONEST),
    (HostileKind::Rollback, 0, HONEST),
    // The Commit is served by the going server, and the Seal by the one in which the call is open.
    (
        HostileKind::Rollback,
        1,
        b"1 done stored/1 took/1 halted 1/2 aborted 1/2 took",
    ),
    (HostileKind::Rollback, 5, HONEST),
    (
        HostileKind::Fork,
        0,
        b"1 done stored/1 took/1 took/2 done none/2 took/2 took",
    ),
    (
        HostileKind::Fork,
        1,
        b"1 done stored/1 took/1 took/2 aborted 1/2 took",
    ),
    (HostileKind::Fork, 5, HONEST),
    (HostileKind::Replay, 0, HONEST),
    // The Commit is answered by the Reply.
    (HostileKind::Replay, 1, ABORTED),
    // The Seal is answered by the Update before it.
    (
        HostileKind::Replay,
        5,
        b"1 done stored/1 took/1 took/2 done value x/2 took/2 halted 4",
    ),
    // No Reply has more than two entries.
    (HostileKind::Swap, 0, HONEST),
    (HostileKind::Swap, 1, HONEST),
    (HostileKind::Swap, 5, HONEST),
    // Up to the first seal the part of the empty dictionary is the right one.
    (HostileKind::BadProof, 0, NO_PART),
    (HostileKind::BadProof, 1, NO_PART),
    (HostileKind::BadProof, 5, HONEST),
    (HostileKind::Stale, 0, NO_PART),
    (HostileKind::Stale, 1, NO_PART),
    (HostileKind::Stale, 5, HONEST),
    (HostileKind::Truncate, 0, b"1 halted 1/2 halted 1"),
    (
        HostileKind::Truncate,
        1,
        b"1 done stored/1 halted 1/2 halted 1",
    ),
    (
        HostileKind::Truncate,
        5,
        b"1 done stored/1 took/1 took/2 done value x/2 took/2 halted 1",
    ),
];

/// One client puts `a` = `x`, puts `a` = `y` and gets `a`, with three requests each. A halted client calls no more.
const ALONE: [Row; 6] = [
    // The get goes to the server as it was after the first put, which knows fewer entries than the client.
    (
        HostileKind::Rollback,
        3,
        b"1 done stored/1 took/1 took/1 done stored/1 took/1 took/1 refused 5",
    ),
    // The ninth request, a Seal, goes to the server as it was when the second put was ordered.
    (
        HostileKind::Rollback,
        4,
        b"1 done stored/1 took/1 took/1 done stored/1 took/1 took/1 done value y/1 took/1 halted 1",
    ),
    (HostileKind::Replay, 1, b"1 done stored/1 halted 1"),
    (
        HostileKind::BadProof,
        3,
        b"1 done stored/1 took/1 took/1 halted 7",
    ),
    // The part of the second put is still the right one.
    (
        HostileKind::Stale,
        3,
        b"1 done stored/1 took/1 took/1 done stored/1 took/1 took/1 halted 7",
    ),
    (HostileKind::Truncate, 0, b"1 halted 1"),
];

/// Client 2 puts `b` = `y`, and client 1 puts `a` = `x` and commits it; then client 2 commits and seals, with the requests 4 and 5. The poll
/// of client 1 is the sixth, and its answer an Update.
const POLLED: [Row; 4] = [
    (
        HostileKind::Honest,
        5,
        b"2 done stored/1 done stored/1 took/2 took/2 took/1 took/1 took",
    ),
    (
        HostileKind::BadProof,
        5,
        b"2 done stored/1 done stored/1 took/2 took/2 took/1 halted 7",
    ),
    // The old dictionary is the empty one.
    (
        HostileKind::Stale,
        4,
        b"2 done stored/1 done stored/1 took/2 took/2 took/1 halted 7",
    ),
    // It is the one that was sealed by then.
    (
        HostileKind::Stale,
        5,
        b"2 done stored/1 done stored/1 took/2 took/2 took/1 took/1 took",
    ),
];

/// Three clients put different keys, and their Replies come before the first Commit. Of the third one's three entries the first two are told
/// the other way round, so its path has another hash than the second seal.
const SWAPPED: &[u8] =
    b"1 done stored/2 done stored/3 done stored/1 took/1 took/2 took/2 took/3 halted 5";

/// A kind, and its answer to the second request: client 1 leaves, and then asks for its turn.
const LEFT: [(HostileKind, &[u8]); 8] = [
    (HostileKind::Honest, b"\x46\x06"),
    (HostileKind::Rollback, b"\x46\x06"),
    (HostileKind::Fork, b"\x46\x06"),
    (HostileKind::Replay, b"\x49"),
    (HostileKind::Swap, b"\x46\x06"),
    (HostileKind::BadProof, b"\x46\x06"),
    (HostileKind::Stale, b"\x46\x06"),
    (HostileKind::Truncate, b"\x46"),
];

fn server_of(alloc: Global, kind: HostileKind, after: u32, count: u8) -> Result<Hostile, NoMemory>
    requires { (0 < count) × (count ≤ 64) }
{
    let served = Served::gathered(alloc, Mode::Plain, count)?;
    Ok(Hostile::new(kind, after.min(9), served))
}

fn member(alloc: Global, id: u8, count: u8) -> Result<Client, NoMemory>
    requires some { 0 < id }
    requires member { id ≤ count }
    requires few { count ≤ 64 }
{
    let key = GroupKey::from_hex(alloc, "6b6579").map_err(|_| NoMemory)?;
    Ok(Client::new(alloc, id, count, Mode::Plain, key))
}

fn put(alloc: Global, key: &[u8], value: &[u8]) -> Result<Op, NoMemory> {
    Ok(Op::Put(Bytes::of(alloc, key)?, Bytes::of(alloc, value)?))
}

fn get(alloc: Global, key: &[u8]) -> Result<Op, NoMemory> {
    Ok(Op::Get(Bytes::of(alloc, key)?))
}

// What a client's call sends; nothing where it may not call.
fn call(alloc: Global, client: &mut Client, op: &Op) -> Result<Option<Bytes>, NoMemory> {
    let may = client.idle() && client.mode() == Mode::Plain && client.calls() < u32::MAX;
    if may && op.fits() {
        return Ok(Some(client.invoke(alloc, op)?));
    }
    Ok(None)
}

// What is printed of a step.
fn print(alloc: Global, out: &mut Bytes, id: u8, step: &Step) -> Result<(), NoMemory> {
    if !out.is_empty() {
        out.append(b"/")?;
    }
    out.push(b'0' + id % 10)?;
    match &step.returned {
        Some(outcome) => {
            out.append(b" ")?;
            out.append(outcome_text(alloc, outcome)?.as_slice())
        }
        None => out.append(b" took"),
    }
}

// A payload goes to the server and its answer to the client, which tells what it sends next.
fn pass(
    alloc: Global,
    server: &mut Hostile,
    client: &mut Client,
    payload: Option<Bytes>,
    out: &mut Bytes,
) -> Result<Option<Bytes>, NoMemory> {
    let Some(payload) = payload else {
        return Ok(None);
    };
    let answer = server.serve(alloc, SEAT, client.id(), payload.as_slice())?;
    let step = client.take(alloc, answer.as_slice())?;
    print(alloc, out, client.id(), &step)?;
    Ok(step.send)
}

// The same until nothing is sent.
fn run(
    alloc: Global,
    server: &mut Hostile,
    client: &mut Client,
    payload: Option<Bytes>,
    out: &mut Bytes,
) -> Result<(), NoMemory> {
    let mut sent = payload;
    for _ in 0..MOST_REQUESTS {
        sent = pass(alloc, server, client, sent, out)?;
    }
    Ok(())
}

// A call from its first request to its last.
fn run_call(
    alloc: Global,
    server: &mut Hostile,
    client: &mut Client,
    op: &Op,
    out: &mut Bytes,
) -> Result<(), NoMemory> {
    let sent = call(alloc, client, op)?;
    run(alloc, server, client, sent, out)
}

fn put_and_get(alloc: Global, kind: HostileKind, after: u32, copies: bool) -> Result<Bytes, Fail> {
    let mut out = Bytes::new(alloc);
    let mut server = server_of(alloc, kind, after, 2)?;
    let mut one = member(alloc, 1, 2)?;
    let mut two = member(alloc, 2, 2)?;
    run_call(
        alloc,
        &mut server,
        &mut one,
        &put(alloc, b"a", b"x")?,
        &mut out,
    )?;
    if copies {
        server = server.copy(alloc)?;
    }
    run_call(alloc, &mut server, &mut two, &get(alloc, b"a")?, &mut out)?;
    Ok(out)
}

// Each row by one server, and by one that is copied between the two calls.
#[test]
fn puts_and_gets(rt: HostRuntime) -> Result<(), Fail> {
    let alloc = rt.alloc();
    for (n, (kind, after, want)) in PUT_AND_GET.iter().enumerate() {
        let out = put_and_get(alloc, *kind, *after, false)?;
        assert!(rt; out.as_slice() == *want, "row {n}");
        let copied = put_and_get(alloc, *kind, *after, true)?;
        assert!(rt; copied.as_slice() == *want, "row {n}, copied");
    }
    Ok(())
}

// Two puts of one key.
fn put_twice(
    alloc: Global,
    server: &mut Hostile,
    client: &mut Client,
    out: &mut Bytes,
) -> Result<(), NoMemory> {
    let first = put(alloc, b"a", b"x")?;
    run_call(alloc, server, client, &first, out)?;
    let second = put(alloc, b"a", b"y")?;
    run_call(alloc, server, client, &second, out)
}

fn alone(alloc: Global, kind: HostileKind, after: u32) -> Result<Bytes, Fail> {
    let mut out = Bytes::new(alloc);
    let mut server = server_of(alloc, kind, after, 1)?;
    let mut client = member(alloc, 1, 1)?;
    put_twice(alloc, &mut server, &mut client, &mut out)?;
    let op = get(alloc, b"a")?;
    run_call(alloc, &mut server, &mut client, &op, &mut out)?;
    Ok(out)
}

#[test]
fn one_client(rt: HostRuntime) -> Result<(), Fail> {
    let alloc = rt.alloc();
    for (n, (kind, after, want)) in ALONE.iter().enumerate() {
        let out = alone(alloc, *kind, *after)?;
        assert!(rt; out.as_slice() == *want, "row {n}");
    }
    Ok(())
}

fn polled(alloc: Global, kind: HostileKind, after: u32) -> Result<Bytes, Fail> {
    let mut out = Bytes::new(alloc);
    let mut server = server_of(alloc, kind, after, 2)?;
    let mut one = member(alloc, 1, 2)?;
    let mut two = member(alloc, 2, 2)?;
    let sent = call(alloc, &mut two, &put(alloc, b"b", b"y")?)?;
    let commit = pass(alloc, &mut server, &mut two, sent, &mut out)?;
    run_call(
        alloc,
        &mut server,
        &mut one,
        &put(alloc, b"a", b"x")?,
        &mut out,
    )?;
    run(alloc, &mut server, &mut two, commit, &mut out)?;
    if one.idle() {
        let poll = one.poll(alloc)?;
        run(alloc, &mut server, &mut one, Some(poll), &mut out)?;
    }
    Ok(out)
}

#[test]
fn polls(rt: HostRuntime) -> Result<(), Fail> {
    let alloc = rt.alloc();
    for (n, (kind, after, want)) in POLLED.iter().enumerate() {
        let out = polled(alloc, *kind, *after)?;
        assert!(rt; out.as_slice() == *want, "row {n}");
    }
    Ok(())
}

#[test]
fn swaps(rt: HostRuntime) -> Result<(), Fail> {
    let alloc = rt.alloc();
    let mut out = Bytes::new(alloc);
    let mut server = server_of(alloc, HostileKind::Swap, 0, 3)?;
    let mut one = member(alloc, 1, 3)?;
    let mut two = member(alloc, 2, 3)?;
    let mut three = member(alloc, 3, 3)?;
    let sent = call(alloc, &mut one, &put(alloc, b"a", b"x")?)?;
    let first = pass(alloc, &mut server, &mut one, sent, &mut out)?;
    let sent = call(alloc, &mut two, &put(alloc, b"b", b"y")?)?;
    let second = pass(alloc, &mut server, &mut two, sent, &mut out)?;
    let sent = call(alloc, &mut three, &put(alloc, b"c", b"z")?)?;
    let third = pass(alloc, &mut server, &mut three, sent, &mut out)?;
    run(alloc, &mut server, &mut one, first, &mut out)?;
    run(alloc, &mut server, &mut two, second, &mut out)?;
    run(alloc, &mut server, &mut three, third, &mut out)?;
    assert!(rt; out.as_slice() == SWAPPED);
    Ok(())
}

// An answer that carries no entries and no part is changed by two kinds alone.
#[test]
fn refusals(rt: HostRuntime) -> Result<(), Fail> {
    let alloc = rt.alloc();
    for (n, (kind, want)) in LEFT.iter().enumerate() {
        let mut server = server_of(alloc, *kind, 1, 1)?;
        let gone = server.serve(alloc, SEAT, 1, b"\x29")?;
        assert!(rt; gone.as_slice() == b"\x49".as_slice(), "row {n}");
        let answer = server.serve(alloc, SEAT, 1, b"\x24")?;
        assert!(rt; answer.as_slice() == *want, "row {n}");
    }
    Ok(())
}
