ghost use Rattle.vic_rules.specs.Objects.{FitsObject};

use sha2::{Digest, Sha256};
use std::alloc::Global;
use std::test::Fail;
use vic_client::{Client, Pending, Step};
use vic_dict::{Answer, Bytes, Mode, NoMemory, Outcome};
use vic_proxy::{ObjectCall, ObjectOutcome, fits};
use vic_server::{Serve, Served};
use vic_tag::GroupKey;
use vic_wire::Digest32;

/// What a client is asked for.
#[derive(Clone, Copy)]
enum Asked {
    /// `hello` under `f`.
    Store,
    Load,
    Erase,
    Names,
}

/// What a step returns: of the call of an operation, and of the call on objects.
#[derive(Clone, Copy)]
enum Ends {
    Nothing,
    /// Stored, and Stored.
    Stored,
    /// A reference, and nothing yet.
    Found,
    /// Nothing, and `hello`.
    Content,
    /// Not found, and Missing.
    Missing,
    /// Removed, and Removed.
    Removed,
    /// Absent, and Absent.
    Absent,
    /// `f`, and `f`.
    Names,
    /// Refused, of a call and of the call on objects.
    Refused(u8),
    /// Nothing, and Refused.
    NotKept(u8),
    /// Halted, and nothing.
    Halted(u8),
}

/// Whose payload the client takes.
#[derive(Clone, Copy)]
enum By {
    /// What the server answers to what the client sent last.
    Server,
    /// One made by hand, in place of the server's answer.
    Hand,
}

/// A payload that the client takes, what it sends then (nothing, where this is empty), and what the step returns. In both texts a
/// byte from 240 on stands for a digest: the one at this place in `digests`, counted from 240.
type Taken = (By, &'static [u8], &'static [u8], Ends);

/// What the client is asked for, what it sends then, and what it takes, one after the other.
type Talk = (Asked, &'static [u8], &'static [Taken]);

/// The put of the reference, as the client's first call.
const STORE: Talk = (
    Asked::Store,
    b"\x27hello",
    &[
        (
            By::Server,
            b"\x47",
            b"\x22\0\0\0\0\0\0\0\x01\x01\x01f\x24\xf0\0\0\0\x05\xf1",
            Ends::Nothing,
        ),
        (
            By::Server,
            b"\x42\0\0\0\0\0\x01\x01\0\0\0\x01\x01\x01f\x24\xf0\0\0\0\x05\xf1\x01\0",
            b"\x23\0\0\0\x01\0\xf2",
            Ends::Stored,
        ),
        (
            By::Server,
            b"\x44\0\0\0\0\x01\0",
            b"\x25\0\0\0\x01\xf3\xf4",
            Ends::Nothing,
        ),
        (By::Server, b"\x43", b"", Ends::Nothing),
    ],
);

/// A Reply to the get of a load, whose part is the pair of `f`.
const REPLY: Taken = (
    By::Server,
    b"\x42\0\0\0\x01\xf3\xf4\0\x01\x01\0\0\0\x02\x02\x01f\xf5\x01\x01\x01f\x24\xf0\0\0\0\x05",
    b"\x23\0\0\0\x02\0\xf6",
    Ends::Found,
);

/// An Update with the bare part, and the Seal of the get.
const UPDATE: Taken = (
    By::Server,
    b"\x44\0\0\0\x01\xf3\xf4\x01\x03\xf3",
    b"\x25\0\0\0\x02\xf3\xf7",
    Ends::Nothing,
);

/// A Wait, after which the content is fetched.
const WAIT: Taken = (By::Server, b"\x43", b"\x28\xf0", Ends::Nothing);

/// The Invoke of the get.
const GET: &[u8] = b"\x22\0\0\0\x01\0\0\0\x02\x02\x01f\xf5";

/// A load of a name that was stored. The content is fetched after the Wait, and not before.
const LOAD: Talk = (
    Asked::Load,
    GET,
    &[
        REPLY,
        UPDATE,
        WAIT,
        (By::Server, b"\x48hello", b"", Ends::Content),
    ],
);

/// A load that gets another content, of the same length.
const OTHER: Talk = (
    Asked::Load,
    GET,
    &[
        REPLY,
        UPDATE,
        WAIT,
        (By::Hand, b"\x48hellO", b"", Ends::Halted(9)),
    ],
);

/// A load that gets a longer content.
const LONGER: Talk = (
    Asked::Load,
    GET,
    &[
        REPLY,
        UPDATE,
        WAIT,
        (By::Hand, b"\x48hello!", b"", Ends::Halted(9)),
    ],
);

/// A load that gets nothing where the content should stand.
const EMPTY: Talk = (
    Asked::Load,
    GET,
    &[
        REPLY,
        UPDATE,
        WAIT,
        (By::Hand, b"\x48", b"", Ends::Halted(9)),
    ],
);

/// A load whose content the server says it doesn't have.
const GONE: Talk = (
    Asked::Load,
    GET,
    &[
        REPLY,
        UPDATE,
        WAIT,
        (By::Hand, b"\x4a", b"", Ends::Halted(9)),
    ],
);

/// A content that comes before it was asked for.
const EARLY: Talk = (
    Asked::Load,
    GET,
    &[REPLY, (By::Hand, b"\x48hello", b"", Ends::Halted(1))],
);

/// The get of a load that is refused: both are over.
const REFUSED: Talk = (
    Asked::Load,
    GET,
    &[(By::Hand, b"\x46\x02", b"", Ends::Refused(2))],
);

/// A load of a name that wasn't stored, as the client's first call.
const MISSING: Talk = (
    Asked::Load,
    b"\x22\0\0\0\0\0\0\0\x01\x02\x01f\xf8",
    &[
        (
            By::Server,
            b"\x42\0\0\0\0\0\x01\x01\0\0\0\x01\x02\x01f\xf8\x01\0",
            b"\x23\0\0\0\x01\0\xf9",
            Ends::Missing,
        ),
        (
            By::Server,
            b"\x44\0\0\0\0\x01\0",
            b"\x25\0\0\0\x01\xfa\xfb",
            Ends::Nothing,
        ),
        (By::Server, b"\x43", b"", Ends::Nothing),
    ],
);

/// A store whose content isn't kept: the call on objects is over, and no operation was called.
const NOT_KEPT: Talk = (
    Asked::Store,
    b"\x27hello",
    &[(By::Hand, b"\x46\x07", b"", Ends::NotKept(7))],
);

/// A store whose put is refused.
const NOT_PUT: Talk = (
    Asked::Store,
    b"\x27hello",
    &[
        (
            By::Server,
            b"\x47",
            b"\x22\0\0\0\0\0\0\0\x01\x01\x01f\x24\xf0\0\0\0\x05\xf1",
            Ends::Nothing,
        ),
        (By::Hand, b"\x46\x03", b"", Ends::Refused(3)),
    ],
);

/// The calls that a new client of a new group makes, one after the other.
const ROWS: [&[Talk]; 10] = [
    &[STORE, LOAD],
    &[STORE, OTHER],
    &[STORE, LONGER],
    &[STORE, EMPTY],
    &[STORE, GONE],
    &[STORE, EARLY],
    &[STORE, REFUSED],
    &[MISSING],
    // A refused Keep uses no number: the store after it is the first call.
    &[NOT_KEPT, STORE],
    &[NOT_PUT],
];

/// 32 bytes that are 0.
fn group_key(alloc: Global) -> Result<GroupKey, NoMemory> {
    let text = "0000000000000000000000000000000000000000000000000000000000000000";
    GroupKey::from_hex(alloc, text).map_err(|_| NoMemory)
}

fn hash_of(text: &[u8]) -> Digest32 {
    Digest32 {
        bytes: Sha256::digest(text),
    }
}

// A text with a hash in it.
fn text_of(alloc: Global, head: &[u8], hash: &Digest32, rest: &[u8]) -> Result<Bytes, NoMemory> {
    let mut text = Bytes::of(alloc, head)?;
    text.append(hash.bytes.as_slice())?;
    text.append(rest)?;
    Ok(text)
}

fn hashed(alloc: Global, head: &[u8], hash: &Digest32, rest: &[u8]) -> Result<Digest32, NoMemory> {
    Ok(hash_of(text_of(alloc, head, hash, rest)?.as_slice()))
}

fn tagged(
    alloc: Global,
    key: &GroupKey,
    head: &[u8],
    hash: &Digest32,
    rest: &[u8],
) -> Result<Digest32, NoMemory> {
    let text = text_of(alloc, head, hash, rest)?;
    Ok(key.tag(text.as_slice()))
}

// The digests of the store and of the load after it: the content's hash, the tags of the put and of its Commit, the root with the
// reference and its seal's tag, and the tags of the get, its Commit and its Seal.
fn digests_of_store(alloc: Global, all: &mut Vec<Digest32>) -> Result<(), NoMemory> {
    let key = group_key(alloc)?;
    let content = hash_of(b"\x06hello");
    let put = text_of(
        alloc,
        b"\x01\0\0\0\x01\x01\x01f\x24",
        &content,
        b"\0\0\0\x05",
    )?;
    let start = hash_of(b"\x05\x01\x01\x02");
    let first = hashed(alloc, b"\x01", &start, put.as_slice())?;
    let second = hashed(alloc, b"\x01", &first, b"\x01\0\0\0\x02\x02\x01f")?;
    let root = hashed(alloc, b"\x03\x01f", &content, b"\0\0\0\x05")?;
    all.push(content)?;
    all.push(tagged(
        alloc,
        &key,
        b"\x11\x01\0\0\0\x01\x01\x01f\x24",
        &content,
        b"\0\0\0\x05",
    )?)?;
    all.push(tagged(alloc, &key, b"\x12\0\0\0\x01", &first, b"\0")?)?;
    all.push(root)?;
    all.push(tagged(alloc, &key, b"\x13\0\0\0\x01", &first, &root.bytes)?)?;
    all.push(key.tag(b"\x11\x01\0\0\0\x02\x02\x01f"))?;
    all.push(tagged(alloc, &key, b"\x12\0\0\0\x02", &second, b"\0")?)?;
    all.push(tagged(alloc, &key, b"\x13\0\0\0\x02", &second, &root.bytes)?)?;
    Ok(())
}

// The digests of a load as the first call: the tags of the get and of its Commit, the empty root and its seal's tag.
fn digests_of_load(alloc: Global, all: &mut Vec<Digest32>) -> Result<(), NoMemory> {
    let key = group_key(alloc)?;
    let start = hash_of(b"\x05\x01\x01\x02");
    let first = hashed(alloc, b"\x01", &start, b"\x01\0\0\0\x01\x02\x01f")?;
    let root = hash_of(b"\x02");
    all.push(key.tag(b"\x11\x01\0\0\0\x01\x02\x01f"))?;
    all.push(tagged(alloc, &key, b"\x12\0\0\0\x01", &first, b"\0")?)?;
    all.push(root)?;
    all.push(tagged(alloc, &key, b"\x13\0\0\0\x01", &first, &root.bytes)?)?;
    Ok(())
}

fn digests(alloc: Global) -> Result<Vec<Digest32>, NoMemory> {
    let mut all = Vec::new(alloc);
    digests_of_store(alloc, &mut all)?;
    digests_of_load(alloc, &mut all)?;
    Ok(all)
}

fn payload_of(alloc: Global, digests: &[Digest32], text: &[u8]) -> Result<Bytes, NoMemory> {
    let mut payload = Bytes::new(alloc);
    for byte in text {
        let place = (*byte as usize).checked_sub(240);
        match place.and_then(|place| digests.get(place)) {
            Some(digest) => payload.append(digest.bytes.as_slice())?,
            None => payload.push(*byte)?,
        }
    }
    Ok(payload)
}

// The call that a client is asked for.
fn call_of(alloc: Global, asked: Asked) -> Result<ObjectCall, NoMemory> {
    let name = Bytes::of(alloc, b"f")?;
    Ok(match asked {
        Asked::Store => ObjectCall::Store(name, Bytes::of(alloc, b"hello")?),
        Asked::Load => ObjectCall::Load(name),
        Asked::Erase => ObjectCall::Erase(name),
        Asked::Names => ObjectCall::Names(Bytes::new(alloc)),
    })
}

// The client is asked for a call: what it sends; nothing, where it can't be asked.
fn ask(alloc: Global, client: &mut Client, asked: Asked) -> Result<Bytes, NoMemory> {
    let call = call_of(alloc, asked)?;
    if client.idle() && client.mode() == Mode::Objects && fits(&call) && client.calls() < 9 {
        return client.invoke_object(alloc, &call);
    }
    Ok(Bytes::new(alloc))
}

// What the client makes of a payload. It hears it and forgets it first, and then takes it.
fn take(alloc: Global, client: &mut Client, payload: &[u8]) -> Result<Step, NoMemory> {
    let heard = client.hear(alloc, payload)?;
    let Pending { step: _, effect } = heard;
    client.forget(effect);
    client.take(alloc, payload)
}

fn is_hello(content: &Bytes) -> bool {
    content.as_slice() == b"hello".as_slice()
}

fn says(step: &Step, ends: Ends) -> bool {
    match (ends, &step.returned, &step.object) {
        (Ends::Nothing, None, None) => true,
        (Ends::Stored, Some(Outcome::Done(Answer::Stored)), Some(ObjectOutcome::Stored)) => true,
        (Ends::Found, Some(Outcome::Done(Answer::Found(value))), None) => value.len() == 36,
        (Ends::Content, None, Some(ObjectOutcome::Content(content))) => is_hello(content),
        (Ends::Missing, Some(Outcome::Done(Answer::NotFound)), Some(ObjectOutcome::Missing)) =>
            true,
        (Ends::Removed, Some(Outcome::Done(Answer::Removed)), Some(ObjectOutcome::Removed)) => true,
        (Ends::Absent, Some(Outcome::Done(Answer::Absent)), Some(ObjectOutcome::Absent)) => true,
        (Ends::Names, Some(Outcome::Done(Answer::Names(a))), Some(ObjectOutcome::Names(b))) => {
            a.len() == 1 && b.len() == 1
        }
        (Ends::Refused(r), Some(Outcome::Refused(a)), Some(ObjectOutcome::Refused(b))) => *a == r
            && *b == r,
        (Ends::NotKept(r), None, Some(ObjectOutcome::Refused(b))) => *b == r,
        (Ends::Halted(k), Some(Outcome::Halted(a)), None) => *a == k,
        _ => false,
    }
}

fn sends(step: &Step, sent: &[u8]) -> bool {
    match &step.send {
        Some(payload) => payload.as_slice() == sent,
        None => sent.is_empty(),
    }
}

// Whether a client and a server talk as the row says.
fn talks(
    alloc: Global,
    digests: &[Digest32],
    client: &mut Client,
    server: &mut Served,
    talk: &Talk,
) -> Result<bool, NoMemory> {
    let (asked, first, taken) = talk;
    let mut sent = ask(alloc, client, *asked)?;
    let mut right = sent.as_slice() == payload_of(alloc, digests, first)?.as_slice();
    for (by, payload, next, ends) in taken.iter() {
        let payload = payload_of(alloc, digests, payload)?;
        if matches!(by, By::Server) {
            let answer = server.serve(alloc, 0, 1, sent.as_slice())?;
            right &= answer.as_slice() == payload.as_slice();
        }
        let step = take(alloc, client, payload.as_slice())?;
        sent = payload_of(alloc, digests, next)?;
        right &= sends(&step, sent.as_slice()) && says(&step, *ends);
    }
    Ok(right)
}

#[test]
fn rows(rt: HostRuntime) -> Result<(), Fail> {
    let alloc = rt.alloc();
    let digests = digests(alloc)?;
    for (n, talked) in ROWS.iter().enumerate() {
        let mut client = Client::new(alloc, 1, 2, Mode::Objects, group_key(alloc)?);
        let mut server = Served::gathered(alloc, Mode::Objects, 2)?;
        for talk in talked.iter() {
            let right = talks(alloc, digests.as_slice(), &mut client, &mut server, talk)?;
            assert!(rt; right, "row {n}");
        }
    }
    Ok(())
}

// The client's call goes on with the server's answers until the client sends nothing: whether it returned this.
fn runs(
    alloc: Global,
    client: &mut Client,
    server: &mut Served,
    asked: Asked,
    ends: Ends,
) -> Result<bool, NoMemory> {
    let mut sent = Some(ask(alloc, client, asked)?);
    let mut right = false;
    for _ in 0..9 {
        let Some(payload) = sent else { break };
        let answer = server.serve(alloc, 0, client.id(), payload.as_slice())?;
        let step = take(alloc, client, answer.as_slice())?;
        right |= says(&step, ends);
        sent = step.send;
    }
    Ok(right && client.idle())
}

/// Two clients and their server.
#[derive(Drop)]
struct Group {
    one: Client,
    two: Client,
    server: Served,
}

impl Group {
    fn new(alloc: Global) -> Result<Group, NoMemory> {
        Ok(Group {
            one: Client::new(alloc, 1, 2, Mode::Objects, group_key(alloc)?),
            two: Client::new(alloc, 2, 2, Mode::Objects, group_key(alloc)?),
            server: Served::gathered(alloc, Mode::Objects, 2)?,
        })
    }

    // Whether a call of the first client, or of the second, returns this.
    fn returns(
        &mut self,
        alloc: Global,
        first: bool,
        asked: Asked,
        ends: Ends,
    ) -> Result<bool, NoMemory> {
        if first {
            return runs(alloc, &mut self.one, &mut self.server, asked, ends);
        }
        runs(alloc, &mut self.two, &mut self.server, asked, ends)
    }
}

/// Whether it is the first client that calls, what it calls, and what that returns.
const CALLS: [(bool, Asked, Ends); 6] = [
    (true, Asked::Store, Ends::Stored),
    (false, Asked::Load, Ends::Content),
    (false, Asked::Names, Ends::Names),
    (false, Asked::Erase, Ends::Removed),
    (true, Asked::Load, Ends::Missing),
    (true, Asked::Erase, Ends::Absent),
];

// What is stored by one client is loaded by another, listed and erased; and what is erased is missing.
#[test]
fn two_clients(rt: HostRuntime) -> Result<(), Fail> {
    let alloc = rt.alloc();
    let mut group = Group::new(alloc)?;
    for (n, (first, asked, ends)) in CALLS.iter().enumerate() {
        let right = group.returns(alloc, *first, *asked, *ends)?;
        assert!(rt; right, "call {n}");
    }
    Ok(())
}
