use sha2::{Digest, Sha256};
use std::alloc::Global;
use std::test::Fail;
use vic_client::{Client, Pending, Step};
use vic_dict::{Answer, Bytes, Mode, NoMemory, Op, Outcome};
use vic_tag::GroupKey;
use vic_wire::Digest32;

/// What a step says of the client's call.
#[derive(Clone, Copy)]
enum Ends {
    Nothing,
    Stored,
    Halted(u8),
}

/// A payload, what is sent after it (nothing, where this is empty), and what it says of the call. In both, a byte from 240 on
/// stands for a digest: the one at this place in `digests`, counted from 240.
type Taken = (&'static [u8], &'static [u8], Ends);

/// A client's number, and the payloads that it takes, one after the other.
type Row = (u8, &'static [Taken]);

/// The honest Reply to put `a` = `x`, the first call of client 1, and the client's step: it sends its Commit.
const R: &[u8] = b"\x42\0\0\0\0\0\x01\x01\0\0\0\x01\x01\x01a\x01x\xf1\x01\0";

const STORED: Taken = (R, b"\x23\0\0\0\x01\0\xf2", Ends::Stored);

/// An Update with the seal of position 0, and the client's step: it seals its put.
const SEALED: Taken = (
    b"\x44\0\0\0\0\x01\0",
    b"\x25\0\0\0\x01\xf4\xf5",
    Ends::Nothing,
);

const ROWS: [Row; 10] = [
    // R without its last byte.
    (
        1,
        &[(
            b"\x42\0\0\0\0\0\x01\x01\0\0\0\x01\x01\x01a\x01x\xf1\x01",
            b"",
            Ends::Halted(1),
        )],
    ),
    // The entry is said to be that of client 2.
    (
        1,
        &[(
            b"\x42\0\0\0\0\0\x01\x02\0\0\0\x01\x01\x01a\x01x\xf1\x01\0",
            b"",
            Ends::Halted(2),
        )],
    ),
    // One bit of its tag is changed.
    (
        1,
        &[(
            b"\x42\0\0\0\0\0\x01\x01\0\0\0\x01\x01\x01a\x01x\xf3\x01\0",
            b"",
            Ends::Halted(3),
        )],
    ),
    // The part has `b` = `y`, where the sealed dictionary is empty.
    (
        1,
        &[(
            b"\x42\0\0\0\0\0\x01\x01\0\0\0\x01\x01\x01a\x01x\xf1\x01\x01\x01b\x01y",
            b"",
            Ends::Halted(7),
        )],
    ),
    (1, &[STORED, (R, b"", Ends::Halted(1))]),
    // An Update with the seal of position 1: its tag is zeros, and then the right one.
    (
        1,
        &[
            STORED,
            (
                b"\x44\0\0\0\x01\xf4\xf0\x01\x01\x01a\x01x",
                b"",
                Ends::Halted(5),
            ),
        ],
    ),
    (
        1,
        &[
            STORED,
            (
                b"\x44\0\0\0\x01\xf4\xf5\x01\x01\x01a\x01x",
                b"",
                Ends::Halted(6),
            ),
        ],
    ),
    (1, &[STORED, SEALED]),
    // A Wait; and to the get that is called then, a Reply with the older seal.
    (
        1,
        &[
            STORED,
            SEALED,
            (b"\x43", b"", Ends::Nothing),
            (
                b"\x42\0\0\0\0\0\x01\x01\0\0\0\x02\x02\x01a\xf6\x01\0",
                b"",
                Ends::Halted(4),
            ),
        ],
    ),
    // The put of client 2 stands behind that of client 1, which isn't sealed.
    (
        2,
        &[
            (
                b"\x42\0\0\0\0\0\x02\x01\0\0\0\x01\x01\x01a\x01x\xf1\x02\0\0\0\x01\x01\x01b\x01y\xf7\x01\0",
                b"\x23\0\0\0\x02\0\xf8",
                Ends::Stored,
            ),
            (b"\x44\0\0\0\0\x01\0", b"", Ends::Halted(8)),
        ],
    ),
];

/// 32 bytes that are 0.
fn group_key(alloc: Global) -> Result<GroupKey, NoMemory> {
    let text = "0000000000000000000000000000000000000000000000000000000000000000";
    GroupKey::from_hex(alloc, text).map_err(|_| NoMemory)
}

fn hash_of(text: &[u8]) -> Digest32 {
    Digest32 {
        bytes: Sha256::digest(text),
    }
}

// A text with a hash in it.
fn text_of(alloc: Global, head: &[u8], hash: &Digest32, rest: &[u8]) -> Result<Bytes, NoMemory> {
    let mut text = Bytes::of(alloc, head)?;
    text.append(hash.bytes.as_slice())?;
    text.append(rest)?;
    Ok(text)
}

fn chained(alloc: Global, hash: &Digest32, entry: &[u8]) -> Result<Digest32, NoMemory> {
    let text = text_of(alloc, b"\x01", hash, entry)?;
    Ok(hash_of(text.as_slice()))
}

fn tagged(
    alloc: Global,
    key: &GroupKey,
    head: &[u8],
    hash: &Digest32,
    rest: &[u8],
) -> Result<Digest32, NoMemory> {
    let text = text_of(alloc, head, hash, rest)?;
    Ok(key.tag(text.as_slice()))
}

// The digests that the rows name: zeros, the tags of client 1's put, its Commit and the put with one bit changed, the root with
// `a` = `x` and its seal's tag, and the tags of client 1's get, client 2's put and its Commit.
fn digests(alloc: Global) -> Result<Vec<Digest32>, NoMemory> {
    let key = group_key(alloc)?;
    let start = hash_of(b"\x05\x01\0\x02");
    let first = chained(alloc, &start, b"\x01\0\0\0\x01\x01\x01a\x01x")?;
    let second = chained(alloc, &first, b"\x02\0\0\0\x01\x01\x01b\x01y")?;
    let root = hash_of(b"\x03\x01ax");
    let put = key.tag(b"\x11\x01\0\0\0\x01\x01\x01a\x01x");
    let mut flipped = put;
    flipped.bytes[7] ^= 16;
    let mut all = Vec::new(alloc);
    all.push(Digest32 { bytes: [0; 32] })?;
    all.push(put)?;
    all.push(tagged(alloc, &key, b"\x12\0\0\0\x01", &first, b"\0")?)?;
    all.push(flipped)?;
    all.push(root)?;
    all.push(tagged(alloc, &key, b"\x13\0\0\0\x01", &first, &root.bytes)?)?;
    all.push(key.tag(b"\x11\x01\0\0\0\x02\x02\x01a"))?;
    all.push(key.tag(b"\x11\x02\0\0\0\x01\x01\x01b\x01y"))?;
    all.push(tagged(alloc, &key, b"\x12\0\0\0\x02", &second, b"\0")?)?;
    Ok(all)
}

fn payload_of(alloc: Global, digests: &[Digest32], text: &[u8]) -> Result<Bytes, NoMemory> {
    let mut payload = Bytes::new(alloc);
    for byte in text {
        let place = (*byte as usize).checked_sub(240);
        match place.and_then(|place| digests.get(place)) {
            Some(digest) => payload.append(digest.bytes.as_slice())?,
            None => payload.push(*byte)?,
        }
    }
    Ok(payload)
}

fn says(returned: &Option<Outcome>, ends: Ends) -> bool {
    match ends {
        Ends::Nothing => returned.is_none(),
        Ends::Stored => matches!(returned, Some(Outcome::Done(Answer::Stored))),
        Ends::Halted(check) => matches!(returned, Some(Outcome::Halted(k)) if *k == check),
    }
}

// Whether the client's step is this one.
fn shows(step: &Step, sent: &[u8], ends: Ends) -> bool {
    let sends = match &step.send {
        Some(payload) => payload.as_slice() == sent,
        None => sent.is_empty(),
    };
    sends && says(&step.returned, ends)
}

// The operation of a client's first call, and of a later one.
fn op_of(alloc: Global, id: u8, calls: u32) -> Result<Op, NoMemory> {
    let op = match (id, calls) {
        (1, 0) => Op::Put(Bytes::of(alloc, b"a")?, Bytes::of(alloc, b"x")?),
        (_, 0) => Op::Put(Bytes::of(alloc, b"b")?, Bytes::of(alloc, b"y")?),
        (_, _) => Op::Get(Bytes::of(alloc, b"a")?),
    };
    Ok(op)
}

// A client that awaits nothing calls.
fn call(alloc: Global, client: &mut Client) -> Result<(), Fail> {
    let op = op_of(alloc, client.id(), client.calls())?;
    if client.idle() && client.mode() == Mode::Plain && op.fits() && client.calls() < 2 {
        let _sent = client.invoke(alloc, &op)?;
    }
    Ok(())
}

#[test]
fn rows(rt: HostRuntime) -> Result<(), Fail> {
    let alloc = rt.alloc();
    let digests = digests(alloc)?;
    for (n, (id, taken)) in ROWS.iter().enumerate() {
        let id = if *id == 1 { 1 } else { 2 };
        let mut client = Client::new(alloc, id, 2, Mode::Plain, group_key(alloc)?);
        for (payload, sent, ends) in taken.iter() {
            call(alloc, &mut client)?;
            let payload = payload_of(alloc, digests.as_slice(), payload)?;
            let sent = payload_of(alloc, digests.as_slice(), sent)?;
            let step = client.take(alloc, payload.as_slice())?;
            assert!(rt; shows(&step, sent.as_slice(), *ends), "row {n}");
        }
    }
    Ok(())
}

// What is sent by a call, a poll and a sync of a client that has no path yet.
#[test]
fn requests(rt: HostRuntime) -> Result<(), Fail> {
    let alloc = rt.alloc();
    let digests = digests(alloc)?;
    let mut client = Client::new(alloc, 1, 2, Mode::Plain, group_key(alloc)?);
    assert!(rt; client.idle());
    let polled = client.poll(alloc)?;
    assert!(rt; polled.as_slice() == b"\x24".as_slice() && !client.idle());
    let waits = client.take(alloc, b"\x43")?;
    assert!(rt; shows(&waits, b"", Ends::Nothing) && client.idle());
    let synced = client.sync(alloc)?;
    assert!(rt; synced.as_slice() == b"\x26\0\0\0\0".as_slice());
    let listed = client.take(alloc, b"\x45\0\0\0\0\0\0")?;
    assert!(rt; shows(&listed, b"", Ends::Nothing) && client.idle());
    let op = op_of(alloc, 1, 0)?;
    assert!(rt; client.mode() == Mode::Plain && op.fits() && client.calls() == 0);
    let called = client.invoke(alloc, &op)?;
    let text = b"\x22\0\0\0\0\0\0\0\x01\x01\x01a\x01x\xf1";
    assert!(rt; called.as_slice() == payload_of(alloc, digests.as_slice(), text)?.as_slice());
    Ok(())
}

// Client 1, which has made its first call.
fn caller(alloc: Global) -> Result<Client, Fail> {
    let mut client = Client::new(alloc, 1, 2, Mode::Plain, group_key(alloc)?);
    call(alloc, &mut client)?;
    Ok(client)
}

// The client hears a payload and forgets it, and then hears it and keeps its step.
fn hear_twice(alloc: Global, client: &mut Client, payload: &[u8]) -> Result<Step, Fail> {
    let forgotten = client.hear(alloc, payload)?;
    let Pending { step: _, effect } = forgotten;
    client.forget(effect);
    let kept = client.hear(alloc, payload)?;
    let Pending { step, effect } = kept;
    client.keep(effect);
    Ok(step)
}

// Whether what can be asked of two clients is the same.
fn are_alike(a: &Client, b: &Client) -> bool {
    let paths = a.length() == b.length() && a.sealed() == b.sealed();
    let calls = a.calls() == b.calls() && a.unsettled() == b.unsettled();
    paths && calls && a.idle() == b.idle()
}

// Whether one client takes a payload as the other hears it, forgets it, hears it again and keeps it, and as the row says.
fn hears_as_taken(
    alloc: Global,
    digests: &[Digest32],
    taker: &mut Client,
    hearer: &mut Client,
    taken: &Taken,
) -> Result<bool, Fail> {
    let (payload, sent, ends) = taken;
    let payload = payload_of(alloc, digests, payload)?;
    let sent = payload_of(alloc, digests, sent)?;
    let took = taker.take(alloc, payload.as_slice())?;
    let heard = hear_twice(alloc, hearer, payload.as_slice())?;
    let steps = shows(&took, sent.as_slice(), *ends) && shows(&heard, sent.as_slice(), *ends);
    Ok(steps && are_alike(taker, hearer))
}

// A Reply and an Update that are heard and forgotten, and then heard and kept, are as if they had been taken.
#[test]
fn forgets_and_keeps(rt: HostRuntime) -> Result<(), Fail> {
    let alloc = rt.alloc();
    let digests = digests(alloc)?;
    let mut taker = caller(alloc)?;
    let mut hearer = caller(alloc)?;
    let digests = digests.as_slice();
    let replied = hears_as_taken(alloc, digests, &mut taker, &mut hearer, &STORED)?;
    assert!(rt; replied && hearer.unsettled() == 1);
    let updated = hears_as_taken(alloc, digests, &mut taker, &mut hearer, &SEALED)?;
    assert!(rt; updated && hearer.unsettled() == 0);
    Ok(())
}
