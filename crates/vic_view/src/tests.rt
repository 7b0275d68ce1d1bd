use crate::forgery::{Texts, note_made, takes_forged};
use crate::plain::{all_completed, confirmed_on, is_some_forged, last_path, put_made, texts_taken};
use crate::replay::path_of;
use crate::together::row_afresh;
use crate::view::agreements;
use crate::views::{all_paths, common_length, common_lengths, view_among};
use crate::{
    Input, Shown, TraceStep, Transcript, View, agree, forged, forged_plainly, print_end,
    print_views, view_of, view_plainly,
};
use std::alloc::Global;
use std::test::Fail;
use vic_dict::{Answer, Bytes, Entry, Mode, Names, NoMemory, Op, Outcome};
use vic_rules::{ObjectCall, ObjectOutcome};
use vic_tag::GroupKey;
use vic_wire::Digest32;

fn put(alloc: Global, seq: u32, key: &[u8], outcome: Outcome) -> Result<Shown, NoMemory> {
    Ok(Shown {
        entry: Entry {
            client: 1,
            seq,
            op: Op::Put(Bytes::of(alloc, key)?, Bytes::of(alloc, b"v")?),
        },
        outcome,
    })
}

fn listed(alloc: Global, check: u8) -> Result<Shown, NoMemory> {
    Ok(Shown {
        entry: Entry {
            client: 2,
            seq: 1,
            op: Op::List(Bytes::new(alloc)),
        },
        outcome: Outcome::Halted(check),
    })
}

/// How many calls two views have in common at their front that begin with the same two calls and end with these.
fn common(alloc: Global, a: Shown, b: Shown) -> Result<u32, NoMemory> {
    let mut one = View::new(alloc);
    let mut other = View::new(alloc);
    one.push(put(alloc, 1, b"a", Outcome::Done(Answer::Stored))?)?;
    other.push(put(alloc, 1, b"a", Outcome::Done(Answer::Stored))?)?;
    one.push(listed(alloc, 5)?)?;
    other.push(listed(alloc, 5)?)?;
    one.push(a)?;
    other.push(b)?;
    Ok(agree(&one, &other))
}

fn third(alloc: Global) -> Result<Shown, NoMemory> {
    put(alloc, 2, b"b", Outcome::Aborted(1))
}

// Two calls in common, and then the same call, or one of another number, key, position or outcome; and one view without a call.
#[test]
fn views_agree(rt: HostRuntime) -> Result<(), Fail> {
    let alloc = rt.alloc();
    assert_eq!(rt; common(alloc, third(alloc)?, third(alloc)?)?, 3);
    let number = put(alloc, 3, b"b", Outcome::Aborted(1))?;
    assert_eq!(rt; common(alloc, third(alloc)?, number)?, 2);
    let key = put(alloc, 2, b"c", Outcome::Aborted(1))?;
    assert_eq!(rt; common(alloc, third(alloc)?, key)?, 2);
    let position = put(alloc, 2, b"b", Outcome::Aborted(2))?;
    assert_eq!(rt; common(alloc, third(alloc)?, position)?, 2);
    let outcome = put(alloc, 2, b"b", Outcome::Done(Answer::Stored))?;
    assert_eq!(rt; common(alloc, third(alloc)?, outcome)?, 2);
    let mut one = View::new(alloc);
    one.push(third(alloc)?)?;
    assert_eq!(rt; agree(&one, &View::new(alloc)), 0);
    Ok(())
}

// A group in which nothing was done.
#[test]
fn nothing_done(rt: HostRuntime) -> Result<(), Fail> {
    let key = GroupKey::from_hex(rt.alloc(), "00")?;
    let _size = key.len();
    let t = Transcript::new(rt.alloc(), Mode::Plain, 3, key);
    assert_eq!(rt; t.len(), 0);
    assert_eq!(rt; view_of(rt.alloc(), &t, 2)?.len(), 0);
    assert_eq!(rt; view_plainly(rt.alloc(), &t, 2)?.len(), 0);
    assert!(rt; !forged(rt.alloc(), &t)? && !forged_plainly(rt.alloc(), &t)?);
    let right = b"view 1\nview 2\nview 3\nagree 1 2 0\nagree 1 3 0\nagree 2 3 0\ntags made\n";
    assert_eq!(rt; print_views(rt.alloc(), &t)?.as_slice(), right.as_slice());
    let printed = print_end(rt.alloc(), &t)?;
    assert_eq!(rt; printed.text.as_slice(), right.as_slice());
    assert!(rt; !printed.forged);
    Ok(())
}

/// A step: the client, the payload that it takes (none: it calls; `store` or `load`: it makes this call on objects), what it sends,
/// and whether it then completes a call, always as Stored. In both texts the byte 240 stands for a digest of zeros: no tag is
/// looked at here, and the dictionary is that without a key.
type Row = (u8, &'static [u8], &'static [u8], bool);

const CALL_1: Row = (1, b"", b"\x22\0\0\0\0\0\0\0\x01\x01\x01a\x01x\xf0", false);

const CALL_1_AGAIN: Row = (1, b"", b"\x22\0\0\0\x01\0\0\0\x02\x01\x01c\x01z\xf0", false);

const CALL_2: Row = (2, b"", b"\x22\0\0\0\0\0\0\0\x01\x01\x01b\x01y\xf0", false);

const CALL_2_AGAIN: Row = (2, b"", b"\x22\0\0\0\x01\0\0\0\x02\x01\x01b\x01z\xf0", false);

/// A Reply with the entry of client 1 alone; the client sends its Commit.
const REPLY_1: Row = (
    1,
    b"\x42\0\0\0\0\0\x01\x01\0\0\0\x01\x01\x01a\x01x\xf0\0\0\0\0\0",
    b"\x23\0\0\0\x01\0\xf0",
    true,
);

/// A Reply with the entry of client 1 and then that of client 2.
const REPLY_2_SECOND: Row = (
    2,
    b"\x42\0\0\0\0\0\x02\x01\0\0\0\x01\x01\x01a\x01x\xf0\x02\0\0\0\x01\x01\x01b\x01y\xf0\0\0\0\0\0",
    b"\x23\0\0\0\x02\0\xf0",
    true,
);

/// A Reply with the second entry of client 1 and then that of client 2.
const REPLY_2_SKIPS: Row = (
    2,
    b"\x42\0\0\0\0\0\x02\x01\0\0\0\x02\x01\x01c\x01z\xf0\x02\0\0\0\x01\x01\x01b\x01y\xf0\0\0\0\0\0",
    b"\x23\0\0\0\x02\0\xf0",
    true,
);

/// A Reply with the entry of client 2 alone.
const REPLY_2_FIRST: Row = (
    2,
    b"\x42\0\0\0\0\0\x01\x02\0\0\0\x01\x01\x01b\x01y\xf0\0\0\0\0\0",
    b"\x23\0\0\0\x01\0\xf0",
    true,
);

/// A Reply with the entry of client 1 and then the second one of client 2.
const REPLY_2_AGAIN: Row = (
    2,
    b"\x42\0\0\0\0\0\x02\x01\0\0\0\x01\x01\x01a\x01x\xf0\x02\0\0\0\x02\x01\x01b\x01z\xf0\0\0\0\0\0",
    b"\x23\0\0\0\x03\0\xf0",
    true,
);

/// A Reply with an entry of client 2, and then that of client 1.
const REPLY_1_SECOND: Row = (
    1,
    b"\x42\0\0\0\0\0\x02\x02\0\0\0\x01\x01\x01b\x01y\xf0\x01\0\0\0\x01\x01\x01a\x01x\xf0\0\0\0\0\0",
    b"\x23\0\0\0\x02\0\xf0",
    true,
);

/// An Update; client 1 seals position 1.
const SEALED: Row = (
    1,
    b"\x44\0\0\0\0\0\0\0\0\0",
    b"\x25\0\0\0\x01\xf0\xf0",
    false,
);

/// Client 2 takes that seal.
const SEAL_TAKEN: Row = (2, b"\x45\0\0\0\x01\xf0\xf0\0\0", b"", false);

/// Client 1 stores the content x, and sends it to be kept.
const KEEP: Row = (1, b"store", b"\x27x", false);

/// It is kept; client 1 calls the put of its reference.
const KEPT: Row = (
    1,
    b"\x47",
    b"\x22\0\0\0\0\0\0\0\x01\x01\x01a\x24\xf0\0\0\0\x01\xf0",
    false,
);

/// A Reply with this put alone.
const REFERENCE_PUT: Row = (
    1,
    b"\x42\0\0\0\0\0\x01\x01\0\0\0\x01\x01\x01a\x24\xf0\0\0\0\x01\xf0\0\0\0\0\0",
    b"\x23\0\0\0\x01\0\xf0",
    true,
);

/// Client 2 loads the content, and calls the get of its name.
const LOAD: Row = (2, b"load", b"\x22\0\0\0\0\0\0\0\x01\x02\x01a\xf0", false);

/// A Reply with the put of client 1 and then the get of client 2.
const REFERENCE_FOUND: Row = (
    2,
    b"\x42\0\0\0\0\0\x02\x01\0\0\0\x01\x01\x01a\x24\xf0\0\0\0\x01\xf0\x02\0\0\0\x01\x02\x01a\xf0\0\0\0\0\0",
    b"\x23\0\0\0\x02\0\xf0",
    true,
);

/// Client 2 is told to wait, and fetches the content.
const FETCH: Row = (2, b"\x43", b"\x28\xf0", false);

/// It takes the content.
const CONTENT: Row = (2, b"\x48x", b"", false);

/// Client 1 stores a content that has the bytes of the call of `CALL_1`.
const KEEP_CALL: Row = (
    1,
    b"store",
    b"\x27\x22\0\0\0\0\0\0\0\x01\x01\x01a\x01x\xf0",
    false,
);

/// The calls that a view shows, each by its client and number.
type Calls = &'static [(u8, u32)];

/// Steps, the views of the clients, for each client the byte that stands for the hash of its path with one entry, and whether
/// some text was taken that no client had made.
type Story = (&'static [Row], [Calls; 2], [u8; 2], bool);

const STORIES: [Story; 8] = [
    // Client 2 comes second, and takes the seal of client 1.
    (
        &[CALL_1, REPLY_1, CALL_2, REPLY_2_SECOND, SEALED, SEAL_TAKEN],
        [&[(1, 1)], &[(1, 1), (2, 1)]],
        [1, 1],
        false,
    ),
    // The first entries differ: what client 1 completed as its first is the second of client 2, and isn't shown there.
    (
        &[
            CALL_1,
            CALL_2,
            REPLY_1,
            REPLY_2_FIRST,
            CALL_2_AGAIN,
            REPLY_2_AGAIN,
        ],
        [&[(1, 1)], &[(2, 1), (2, 2)]],
        [1, 2],
        false,
    ),
    // The first entries differ, and both are of client 1, which completed another call as its first.
    (
        &[CALL_1, REPLY_1, CALL_1_AGAIN, CALL_2, REPLY_2_SKIPS],
        [&[(1, 1)], &[(2, 1)]],
        [1, 2],
        false,
    ),
    // Client 1 takes an entry that client 2 never sent.
    (&[CALL_1, REPLY_1_SECOND], [&[(1, 1)], &[]], [1, 1], true),
    // It is sent later.
    (
        &[CALL_1, REPLY_1_SECOND, CALL_2, REPLY_2_FIRST],
        [&[(2, 1), (1, 1)], &[(2, 1)]],
        [1, 1],
        true,
    ),
    // The first entries differ, and client 2 takes a seal that client 1 made on its own path.
    (
        &[CALL_1, CALL_2, REPLY_1, REPLY_2_FIRST, SEALED, SEAL_TAKEN],
        [&[(1, 1)], &[(2, 1)]],
        [1, 2],
        true,
    ),
    // Client 2 loads what client 1 stored. The views show the put and the get.
    (
        &[
            KEEP,
            KEPT,
            REFERENCE_PUT,
            LOAD,
            REFERENCE_FOUND,
            FETCH,
            CONTENT,
        ],
        [&[(1, 1)], &[(1, 1), (2, 1)]],
        [1, 1],
        false,
    ),
    // Client 2 takes an entry that client 1 sent as a content, and never as a call.
    (
        &[KEEP_CALL, CALL_2, REPLY_2_SECOND],
        [&[], &[(2, 1)]],
        [1, 1],
        true,
    ),
];

fn payload_of(alloc: Global, text: &[u8]) -> Result<Bytes, NoMemory> {
    let mut payload = Bytes::new(alloc);
    for byte in text {
        if *byte == 240 {
            payload.append([0; 32].as_slice())?;
        } else {
            payload.push(*byte)?;
        }
    }
    Ok(payload)
}

/// What a client is given at a step.
fn input_of(alloc: Global, taken: &[u8]) -> Result<Input, NoMemory> {
    let name = Bytes::of(alloc, b"a")?;
    Ok(if taken.is_empty() {
        Input::Call(Op::Get(name))
    } else if taken == b"store".as_slice() {
        Input::Object(ObjectCall::Store(name, Bytes::of(alloc, b"x")?))
    } else if taken == b"load".as_slice() {
        Input::Object(ObjectCall::Load(name))
    } else {
        Input::Payload(payload_of(alloc, taken)?)
    })
}

/// What a call on objects returns at a step at which this payload is taken, as far as these stories go.
fn object_of(alloc: Global, taken: &[u8]) -> Result<Option<ObjectOutcome>, NoMemory> {
    if taken.is_empty() || taken[0] != 72 {
        return Ok(None);
    }
    Ok(Some(ObjectOutcome::Content(Bytes::of(alloc, &taken[1..])?)))
}

fn step_of(alloc: Global, row: &Row) -> Result<TraceStep, NoMemory> {
    let (client, taken, sent, stored) = *row;
    let input = input_of(alloc, taken)?;
    let object = object_of(alloc, taken)?;
    let sent = match sent.is_empty() {
        true => None,
        false => Some(payload_of(alloc, sent)?),
    };
    let returned = stored.then_some(Outcome::Done(Answer::Stored));
    Ok(TraceStep {
        client,
        input,
        sent,
        returned,
        object,
    })
}

fn transcript_of(alloc: Global, rows: &[Row]) -> Result<Transcript, Fail> {
    let key = GroupKey::from_hex(alloc, "00")?;
    let mut t = Transcript::new(alloc, Mode::Plain, 2, key);
    for row in rows {
        t.push(step_of(alloc, row)?)?;
    }
    Ok(t)
}

// A client's view, as `view_of` takes it from the paths.
fn view_from_paths(alloc: Global, t: &Transcript, client: u8) -> Result<View, NoMemory> {
    let mine = path_of(alloc, t, client)?;
    let all = all_paths(alloc, t)?;
    if mine.done > mine.places.as_slice().len() {
        return Ok(View::new(alloc));
    }
    let lengths = row_afresh(alloc, &mine, all.as_slice())?;
    view_among(alloc, &mine, lengths.as_slice(), all.as_slice())
}

// A client's view, as `view_plainly` takes it from the calls that were completed.
fn view_from_calls(alloc: Global, t: &Transcript, client: u8) -> Result<View, NoMemory> {
    let all = all_completed(alloc, t.as_slice())?;
    confirmed_on(alloc, all.as_slice(), last_path(all.as_slice(), client))
}

fn are_calls(view: &View, calls: &[(u8, u32)]) -> bool {
    let shown = view.as_slice().iter();
    view.len() == calls.len()
        && shown.zip(calls).all(|(shown, call)| (shown.entry.client, shown.entry.seq) == *call)
}

// Both ways to a view give the same, and what is right.
#[test]
fn views_plainly(rt: HostRuntime) -> Result<(), Fail> {
    for (n, (rows, views, _, _)) in STORIES.iter().enumerate() {
        let t = transcript_of(rt.alloc(), rows)?;
        for (client, calls) in [(1, views[0]), (2, views[1])] {
            let fast = view_from_paths(rt.alloc(), &t, client)?;
            let plain = view_from_calls(rt.alloc(), &t, client)?;
            assert!(rt;
                are_calls(&fast, calls) && are_calls(&plain, calls),
                "story {n}"
            );
            assert!(rt;
                fast.len() < 9 && agree(&fast, &plain) as usize == fast.len(),
                "story {n}"
            );
        }
    }
    Ok(())
}

/// Client 3 takes the first entry of client 1 and then that of client 2.
const BOTH_3: Row = (
    3,
    b"\x45\0\0\0\0\0\x02\x01\0\0\0\x01\x01\x01a\x01x\xf0\x02\0\0\0\x01\x01\x01b\x01y\xf0",
    b"",
    false,
);

/// Client 4 takes the first entry of client 2.
const SECOND_4: Row = (
    4,
    b"\x45\0\0\0\0\0\x01\x02\0\0\0\x01\x01\x01b\x01y\xf0",
    b"",
    false,
);

/// Client 5 takes what client 3 does.
const BOTH_5: Row = (
    5,
    b"\x45\0\0\0\0\0\x02\x01\0\0\0\x01\x01\x01a\x01x\xf0\x02\0\0\0\x01\x01\x01b\x01y\xf0",
    b"",
    false,
);

/// Steps of six clients, the last of which does nothing, and how many entries each has in common with each.
type Parting = (&'static [Row], [[usize; 6]; 6]);

const PARTINGS: [Parting; 3] = [
    (&[], [[0; 6]; 6]),
    // Clients 3 and 5 go together, beyond client 2, which differs from them only behind the first entry.
    (
        &[CALL_1, REPLY_1, REPLY_2_AGAIN, BOTH_3, SECOND_4, BOTH_5],
        [
            [1, 1, 1, 0, 1, 0],
            [1, 2, 1, 0, 1, 0],
            [1, 1, 2, 0, 2, 0],
            [0, 0, 0, 1, 0, 0],
            [1, 1, 2, 0, 2, 0],
            [0, 0, 0, 0, 0, 0],
        ],
    ),
    // Clients 1 and 4 begin with the first entry of client 2; client 2 goes with clients 3 and 5.
    (
        &[BOTH_5, REPLY_1_SECOND, SECOND_4, REPLY_2_SECOND, BOTH_3],
        [
            [2, 0, 0, 1, 0, 0],
            [0, 2, 2, 0, 2, 0],
            [0, 2, 2, 0, 2, 0],
            [1, 0, 0, 1, 0, 0],
            [0, 2, 2, 0, 2, 0],
            [0, 0, 0, 0, 0, 0],
        ],
    ),
];

fn transcript_of_six(alloc: Global, rows: &[Row]) -> Result<Transcript, Fail> {
    let key = GroupKey::from_hex(alloc, "00")?;
    let mut t = Transcript::new(alloc, Mode::Plain, 6, key);
    for row in rows {
        t.push(step_of(alloc, row)?)?;
    }
    Ok(t)
}

// How far each two paths go together, by what is known of others and by comparison from their fronts: both are right.
#[test]
fn paths_part(rt: HostRuntime) -> Result<(), Fail> {
    for (n, (rows, right)) in PARTINGS.iter().enumerate() {
        let t = transcript_of_six(rt.alloc(), rows)?;
        let all = all_paths(rt.alloc(), &t)?;
        let lengths = common_lengths(rt.alloc(), all.as_slice())?;
        assert_eq!(rt; lengths.as_slice().len(), 6);
        for ((mine, row), numbers) in all.as_slice().iter().zip(lengths.as_slice()).zip(right) {
            assert_eq!(rt; row.as_slice(), numbers.as_slice());
            for (other, number) in all.as_slice().iter().zip(numbers) {
                let plain = common_length(mine.places.as_slice(), other.places.as_slice());
                assert!(rt; plain == *number, "parting {n}");
            }
        }
    }
    Ok(())
}

/// Views: each byte stands for a call with this number.
const LINES: [&[u8]; 8] = [
    b"abcde", b"xy", b"abd", b"", b"abdfg", b"xyz", b"abcdf", b"abdfg",
];

/// How many calls each has in common with each.
const AGREED: [[usize; 8]; 8] = [
    [5, 0, 2, 0, 2, 0, 4, 2],
    [0, 2, 0, 0, 0, 2, 0, 0],
    [2, 0, 3, 0, 3, 0, 2, 3],
    [0, 0, 0, 0, 0, 0, 0, 0],
    [2, 0, 3, 0, 5, 0, 2, 5],
    [0, 2, 0, 0, 0, 3, 0, 0],
    [4, 0, 2, 0, 2, 0, 5, 2],
    [2, 0, 3, 0, 5, 0, 2, 5],
];

fn view_with(alloc: Global, calls: &[u8]) -> Result<View, NoMemory> {
    let mut view = View::new(alloc);
    for call in calls {
        view.push(put(alloc, u32::from(*call), b"k", Outcome::Aborted(1))?)?;
    }
    Ok(view)
}

// How far each two views agree, by what is known of others and by comparison from their fronts: both are right.
#[test]
fn views_part(rt: HostRuntime) -> Result<(), Fail> {
    let mut views = Vec::new(rt.alloc());
    for calls in LINES {
        views.push(view_with(rt.alloc(), calls)?)?;
    }
    let agreed = agreements(rt.alloc(), views.as_slice())?;
    assert_eq!(rt; agreed.as_slice().len(), 8);
    for ((view, row), numbers) in views.iter().zip(agreed.as_slice()).zip(&AGREED) {
        assert_eq!(rt; row.as_slice(), numbers.as_slice());
        for (other, number) in views.iter().zip(numbers) {
            assert!(rt; view.len() < 9 && agree(view, other) as usize == *number);
        }
    }
    Ok(())
}

// Digests that stand for the hashes along a path: that of no entry, that of the first, and that of the first two.
fn hashes_of(first: u8) -> [Digest32; 3] {
    [
        Digest32 { bytes: [0; 32] },
        Digest32 { bytes: [first; 32] },
        Digest32 { bytes: [3; 32] },
    ]
}

// Both ways to look for texts that no client had made find the same, and what is right.
#[test]
fn forged_texts(rt: HostRuntime) -> Result<(), Fail> {
    let alloc = rt.alloc();
    for (n, (rows, _, firsts, forged)) in STORIES.iter().enumerate() {
        let t = transcript_of(alloc, rows)?;
        let (mut set, mut list) = (Texts::new(alloc), Names::new(alloc));
        let mut found = false;
        for step in t.as_slice() {
            let hashes = hashes_of(if step.client == 1 {
                firsts[0]
            } else {
                firsts[1]
            });
            let taken = texts_taken(alloc, step, hashes.as_slice())?;
            let is_found = is_some_forged(list.as_slice(), taken.as_slice());
            let is_found_fast = takes_forged(alloc, step, hashes.as_slice(), &set)?;
            assert!(rt; is_found == is_found_fast, "story {n}");
            found = found || is_found;
            put_made(alloc, step, hashes.as_slice(), &mut list)?;
            note_made(alloc, step, hashes.as_slice(), &mut set)?;
        }
        assert!(rt; found == *forged, "story {n}");
    }
    Ok(())
}
