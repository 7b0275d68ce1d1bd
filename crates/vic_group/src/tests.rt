//! Scripts with what they print, and lines of a world. What each script prints was worked out by hand from the rules.

ghost use Rattle.vic_rules.specs.History.{IsLawful};
ghost use Rattle.vic_view.specs.Transcripts.{transcript_group, transcript_history};

use crate::opening::zero_key;
use crate::play::{Ran, play, run_script};
use crate::{End, World, WorldFault};
use std::alloc::Global;
use std::test::Fail;
use vic_dict::{Bytes, Mode, NoMemory};
use vic_script::Line;
use vic_server::Served;
use vic_view::{
    Transcript, View, agree, forged, forged_plainly, print_views, view_of, view_plainly,
};

/// A script and what it prints, each with ` / ` between its lines, and how it ends.
type Row = (&'static str, &'static str, End);

const ROWS: [Row; 54] = [
    // A put and a get by one client, which memory suffices for.
    (
        "clients 1 / call 1 put a x / run 1 / call 1 get a / run 1",
        "1 done stored / 1 took / 1 took / 1 done value x / 1 took / 1 took / view 1 / 1.1 put a x = done stored / 1.2 get a = done value x / tags made",
        End::Whole,
    ),
    // A group in which nothing is done.
    (
        "clients 2",
        "view 1 / view 2 / agree 1 2 0 / tags made",
        End::Whole,
    ),
    // Puts of different keys, both unsealed.
    (
        "clients 2 / call 1 put a x / call 2 put b y / serve 1 / serve 2 / take 1 / take 2",
        "1 done stored / 2 done stored / view 1 / 1.1 put a x = done stored / view 2 / 1.1 put a x = done stored / 2.1 put b y = done stored / agree 1 2 1 / tags made",
        End::Whole,
    ),
    // Puts of one key at once, and a get afterwards.
    (
        "clients 2 / call 1 put a x / call 2 put a y / serve 1 / serve 2 / take 1 / take 2 / run 1 / run 2 / call 2 get a / run 2",
        "1 done stored / 2 aborted 1 / 1 took / 1 took / 2 took / 2 took / 2 done value x / 2 took / 2 took / view 1 / 1.1 put a x = done stored / view 2 / 1.1 put a x = done stored / 2.1 put a y = aborted 1 / 2.2 get a = done value x / agree 1 2 1 / tags made",
        End::Whole,
    ),
    // Another's call that stays unfinished, and so stands in no view.
    (
        "clients 2 / call 2 put b z / serve 2 / call 1 put a x / run 1 / call 1 put a y / run 1 / call 1 get a / run 1",
        "1 done stored / 1 took / 1 done stored / 1 took / 1 done value y / 1 took / view 1 / 1.1 put a x = done stored / 1.2 put a y = done stored / 1.3 get a = done value y / view 2 / agree 1 2 0 / tags made",
        End::Whole,
    ),
    // A list against an unfinished put.
    (
        "clients 2 / call 2 put ab z / serve 2 / call 1 list % / run 1 / call 1 list x / run 1",
        "1 aborted 1 / 1 took / 1 done names / 1 took / view 1 / 1.1 list % = aborted 1 / 1.2 list x = done names / view 2 / agree 1 2 0 / tags made",
        End::Whole,
    ),
    // Two gets, taken the other way round.
    (
        "clients 2 / call 1 get a / call 2 get a / serve 1 / serve 2 / take 2 / take 1",
        "2 done none / 1 done none / view 1 / 1.1 get a = done none / view 2 / 1.1 get a = done none / 2.1 get a = done none / agree 1 2 1 / tags made",
        End::Whole,
    ),
    // Puts, a list, a del and a del again.
    (
        "clients 1 / call 1 put b y / run 1 / call 1 put a x / run 1 / call 1 list % / run 1 / call 1 del a / run 1 / call 1 del a / run 1",
        "1 done stored / 1 took / 1 took / 1 done stored / 1 took / 1 took / 1 done names a b / 1 took / 1 took / 1 done removed / 1 took / 1 took / 1 done absent / 1 took / 1 took / view 1 / 1.1 put b y = done stored / 1.2 put a x = done stored / 1.3 list % = done names a b / 1.4 del a = done removed / 1.5 del a = done absent / tags made",
        End::Whole,
    ),
    // Puts of different keys, each sealed by its client; then a list, of which the other client learns by a sync.
    (
        "clients 2 / call 1 put a x / call 2 put b y / serve 1 / serve 2 / take 1 / take 2 / run 1 / run 2 / run 1 / call 1 list % / run 1 / sync 2 / run 2",
        "1 done stored / 2 done stored / 1 took / 1 took / 2 took / 2 took / 1 done names a b / 1 took / 1 took / 2 took / view 1 / 1.1 put a x = done stored / 2.1 put b y = done stored / 1.2 list % = done names a b / view 2 / 1.1 put a x = done stored / 2.1 put b y = done stored / agree 1 2 2 / tags made",
        End::Whole,
    ),
    // A call that can be sealed once another's before it is, by a poll.
    (
        "clients 2 / call 2 put b z / serve 2 / call 1 put a x / run 1 / take 2 / run 2 / poll 1 / run 1",
        "1 done stored / 1 took / 2 done stored / 2 took / 2 took / 1 took / 1 took / view 1 / 2.1 put b z = done stored / 1.1 put a x = done stored / view 2 / 2.1 put b z = done stored / agree 1 2 1 / tags made",
        End::Whole,
    ),
    // A server that forgets a seal which its client has learned of.
    (
        "clients 1 / call 1 put a x / run 1 / call 1 put a y / serve 1 / take 1 / serve 1 / copy 1 2 / take 1 / serve 1 / take 1 / move 1 2 / call 1 get a / run 1",
        "1 done stored / 1 took / 1 took / 1 done stored / 1 took / 1 took / 1 halted 4 / view 1 / 1.1 put a x = done stored / 1.2 put a y = done stored / tags made",
        End::Whole,
    ),
    // A server that forgets an entry which its client has learned of.
    (
        "clients 1 / call 1 put a x / run 1 / copy 1 2 / call 1 put a y / run 1 / move 1 2 / call 1 get a / run 1",
        "1 done stored / 1 took / 1 took / 1 done stored / 1 took / 1 took / 1 refused 5 / view 1 / 1.1 put a x = done stored / 1.2 put a y = done stored / tags made",
        End::Whole,
    ),
    // An answer that comes a second time, and a call after the halt that it leads to.
    (
        "clients 1 / call 1 put a x / serve 1 / take 1 / again 1",
        "1 done stored / 1 halted 1 / view 1 / 1.1 put a x = done stored / tags made",
        End::Whole,
    ),
    (
        "clients 1 / call 1 put a x / serve 1 / take 1 / again 1 / call 1 get a",
        "1 done stored / 1 halted 1 / line 6: client has halted",
        End::Bad,
    ),
    // An answer with another first byte of its first entry's tag.
    (
        "clients 2 / call 2 put b z / serve 2 / call 1 put a x / serve 1 / flip 1 17",
        "1 halted 3 / view 1 / view 2 / agree 1 2 0 / tags made",
        End::Whole,
    ),
    // The answer has 54 bytes: behind its last one there is none to change.
    (
        "clients 1 / call 1 put a x / serve 1 / flip 1 51",
        "line 4: nothing waiting",
        End::Bad,
    ),
    (
        "clients 1 / call 1 put a x / serve 1 / flip 1 50",
        "1 halted 1 / view 1 / tags made",
        End::Whole,
    ),
    // A server and its copy go separate ways.
    (
        "clients 2 / copy 1 2 / move 2 2 / call 1 put a x / run 1 / call 2 get a / run 2",
        "1 done stored / 1 took / 1 took / 2 done none / 2 took / 2 took / view 1 / 1.1 put a x = done stored / view 2 / 2.1 get a = done none / agree 1 2 0 / tags made",
        End::Whole,
    ),
    // The same, where a copy takes the place of a copy: server 2 is what server 1 was at line 5.
    (
        "clients 2 / copy 1 2 / call 1 put a x / run 1 / copy 1 2 / move 2 2 / call 2 get a / run 2 / call 1 get a / run 1",
        "1 done stored / 1 took / 1 took / 2 done value x / 2 took / 2 took / 1 done value x / 1 took / 1 took / view 1 / 1.1 put a x = done stored / 1.2 get a = done value x / view 2 / 1.1 put a x = done stored / 2.1 get a = done value x / agree 1 2 1 / tags made",
        End::Whole,
    ),
    // An entry of the one branch that the other has too.
    (
        "clients 2 / copy 1 2 / move 2 2 / call 2 put b y / run 2 / call 1 put a x / resend 1 / serve 1 / move 1 2 / serve 1 / move 1 1 / take 1 / call 2 put a z / run 2",
        "2 done stored / 2 took / 2 took / 1 done stored / 2 aborted 2 / 2 took / view 1 / 1.1 put a x = done stored / view 2 / 2.1 put b y = done stored / 2.2 put a z = aborted 2 / agree 1 2 0 / tags made",
        End::Whole,
    ),
    // A client that is moved from the one branch to the other.
    (
        "clients 2 / copy 1 2 / move 2 2 / call 1 put a x / run 1 / call 2 put b y / run 2 / move 2 1 / call 2 get a / run 2",
        "1 done stored / 1 took / 1 took / 2 done stored / 2 took / 2 took / 2 halted 5 / view 1 / 1.1 put a x = done stored / view 2 / 2.1 put b y = done stored / agree 1 2 0 / tags made",
        End::Whole,
    ),
    // A client's Seal, sent again.
    (
        "clients 1 / call 1 put a x / run 1 / resend 1 / run 1",
        "1 done stored / 1 took / 1 took / 1 halted 1 / view 1 / 1.1 put a x = done stored / tags made",
        End::Whole,
    ),
    // A client that halted: it sends its call again, to a copy, and takes what comes; but it can be asked for nothing.
    (
        "clients 1 / call 1 put a x / give 1 % / serve 1 / resend 1 / copy 1 2 / move 1 2 / run 1 / poll 1",
        "1 halted 1 / 1 halted 1 / line 9: client has halted",
        End::Bad,
    ),
    // Tampering that cannot be.
    ("clients 1 / again 1", "line 2: nothing waiting", End::Bad),
    ("clients 1 / resend 1", "line 2: nothing waiting", End::Bad),
    ("clients 1 / move 1 2", "line 2: no such server", End::Bad),
    ("clients 1 / copy 2 3", "line 2: no such server", End::Bad),
    (
        "clients 1 / copy 1 5",
        "line 2: not a line of this script",
        End::Bad,
    ),
    ("clients 1 / move 2 1", "line 2: no such client", End::Bad),
    // Two tests fail at once: the first one's kind is told.
    ("clients 1 / move 9 9", "line 2: no such client", End::Bad),
    (
        "clients 1 / copy 9 5",
        "line 2: not a line of this script",
        End::Bad,
    ),
    ("clients 1 / copy 9 1", "line 2: no such server", End::Bad),
    // A halted client takes what comes, and says each time why it halted.
    (
        "clients 1 / call 1 put a x / serve 1 / give 1 % / take 1 / again 1",
        "1 halted 1 / 1 halted 1 / 1 halted 1 / view 1 / tags made",
        End::Whole,
    ),
    // A server copied onto itself; answers that wait while no request does.
    (
        "clients 1 / copy 1 1 / call 1 put a x / serve 1 / run 1 / take 1 / serve 1 / copy 1 1 / take 1",
        "1 done stored / 1 took / view 1 / 1.1 put a x = done stored / tags made",
        End::Whole,
    ),
    // Bytes that are no answer.
    (
        "clients 1 / give 1 %ff / call 1 get a",
        "1 halted 1 / line 3: client has halted",
        End::Bad,
    ),
    // Bad lines, one of them behind a line that prints.
    ("", "line 1: not a line of this script", End::Bad),
    ("clients 65", "line 1: not a line of this script", End::Bad),
    ("clients 1 / take 1", "line 2: nothing waiting", End::Bad),
    (
        "clients 1 / call 2 get a",
        "line 2: no such client",
        End::Bad,
    ),
    (
        "clients 1 / call 1 put a x / call 1 get a",
        "line 3: client is busy",
        End::Bad,
    ),
    (
        "clients 1 / call 1 get a / run 1 / serve 1",
        "1 done none / 1 took / 1 took / line 4: nothing waiting",
        End::Bad,
    ),
    // Server 1 misbehaves. Its first answer lacks its only byte.
    (
        "objects 1 / hostile truncate 0 / call 1 store f abc / run 1",
        "1 halted 1 / view 1 / tags made",
        End::Whole,
    ),
    // Clients 1 and 2 have each a server of their own.
    (
        "clients 2 / hostile fork 0 / call 1 put a x / run 1 / call 2 get a / run 2",
        "1 done stored / 1 took / 1 took / 2 done none / 2 took / 2 took / view 1 / 1.1 put a x = done stored / view 2 / 2.1 get a = done none / agree 1 2 0 / tags made",
        End::Whole,
    ),
    // The seventh request goes to the state behind the third, which is shorter than what the client knows.
    (
        "clients 1 / key 0b / # a key with one byte / hostile rollback 3 / call 1 put a x / run 1 / call 1 put a y / run 1 / call 1 get a / run 1",
        "1 done stored / 1 took / 1 took / 1 done stored / 1 took / 1 took / 1 refused 5 / view 1 / 1.1 put a x = done stored / 1.2 put a y = done stored / tags made",
        End::Whole,
    ),
    // The Commit gets the Reply again.
    (
        "clients 1 / hostile replay 1 / call 1 put a x / run 1",
        "1 done stored / 1 halted 1 / view 1 / 1.1 put a x = done stored / tags made",
        End::Whole,
    ),
    // A copy misbehaves as the server does; its count goes on from there.
    (
        "clients 2 / hostile truncate 1 / call 1 put a x / serve 1 / copy 1 2 / move 2 2 / take 1 / call 2 get a / run 2 / run 1",
        "1 done stored / 2 halted 1 / 1 halted 1 / view 1 / 1.1 put a x = done stored / view 2 / agree 1 2 0 / tags made",
        End::Whole,
    ),
    // It misbehaves after more requests than there are.
    (
        "clients 1 / hostile truncate 1000000 / call 1 put a x / run 1",
        "1 done stored / 1 took / 1 took / view 1 / 1.1 put a x = done stored / tags made",
        End::Whole,
    ),
    (
        "clients 1 / hostile stale 9",
        "view 1 / tags made",
        End::Whole,
    ),
    // How it misbehaves is said once, last in the header.
    (
        "clients 1 / hostile fork 0 / hostile fork 0",
        "line 3: not a line of this script",
        End::Bad,
    ),
    (
        "clients 1 / hostile fork 0 / key 0b",
        "line 3: not a line of this script",
        End::Bad,
    ),
    (
        "clients 1 / key 0b / key 0b",
        "line 3: not a line of this script",
        End::Bad,
    ),
    (
        "clients 1 / sync 1 / hostile fork 0",
        "line 3: not a line of this script",
        End::Bad,
    ),
    (
        "hostile fork 0",
        "line 1: not a line of this script",
        End::Bad,
    ),
    (
        "clients 1 / hostile fork 1000001",
        "line 2: not a line of this script",
        End::Bad,
    ),
];

/// The lines that a text with ` / ` between them stands for; none if it is empty.
fn lines_of(alloc: Global, text: &str) -> Result<Bytes, NoMemory> {
    let mut lines = Bytes::new(alloc);
    if text.is_empty() {
        return Ok(lines);
    }
    for line in text.split(" / ") {
        lines.append(line.as_bytes())?;
        lines.push(b'\n')?;
    }
    Ok(lines)
}

/// Whether the run of a script prints this, and ends so.
fn prints(alloc: Global, script: &[u8], text: &[u8], end: End) -> Result<bool, NoMemory> {
    let played = play(alloc, script)?;
    Ok(played.text.as_slice() == text && played.end == end)
}

fn append_times(out: &mut Bytes, lines: &[u8], times: u32) -> Result<(), NoMemory> {
    for _ in 0..times {
        out.append(lines)?;
    }
    Ok(())
}

/// Appends the lines of a view for puts of `a` = `x` by client 1, with the numbers from 1 on.
fn append_puts(alloc: Global, out: &mut Bytes, count: u32) -> Result<(), NoMemory> {
    for number in 0..count {
        let line = format!(in alloc; "1.{} put a x = done stored\n", number + 1)?;
        out.append(line.as_bytes())?;
    }
    Ok(())
}

/// Calls up to the bound of unsealed ones, which another's unfinished call holds back, then past it, and then again.
fn unsealed_script(alloc: Global) -> Result<Bytes, NoMemory> {
    let mut script = Bytes::of(alloc, b"clients 2\ncall 2 put b z\nserve 2\n")?;
    append_times(&mut script, b"call 1 put a x\nrun 1\n", 1024)?;
    script.append(b"take 2\nrun 2\ncall 1 put a x\nrun 1\n")?;
    Ok(script)
}

fn unsealed_print(alloc: Global) -> Result<Bytes, NoMemory> {
    let mut text = Bytes::new(alloc);
    append_times(&mut text, b"1 done stored\n1 took\n", 1023)?;
    text.append(b"1 refused 2\n2 done stored\n2 took\n2 took\n1 done stored\n")?;
    append_times(&mut text, b"1 took\n", 1025)?;
    text.append(b"view 1\n2.1 put b z = done stored\n")?;
    append_puts(alloc, &mut text, 1023)?;
    text.append(
        b"1.1025 put a x = done stored\nview 2\n2.1 put b z = done stored\nagree 1 2 1\ntags made\n",
    )?;
    Ok(text)
}

/// 8,191 entries, then a client that has none of them, then one that has none of 8,192.
fn behind_script(alloc: Global) -> Result<Bytes, NoMemory> {
    let mut script = Bytes::of(alloc, b"clients 3\n")?;
    append_times(&mut script, b"call 1 put a x\nrun 1\n", 8191)?;
    script.append(
        b"call 2 get a\nrun 2\ncall 3 get a\nrun 3\nsync 3\nrun 3\ncall 3 get a\nrun 3\n",
    )?;
    Ok(script)
}

fn behind_print(alloc: Global) -> Result<Bytes, NoMemory> {
    let mut text = Bytes::new(alloc);
    append_times(&mut text, b"1 done stored\n1 took\n1 took\n", 8191)?;
    text.append(
        b"2 done value x\n2 took\n2 took\n3 refused 1\n3 took\n3 done value x\n3 took\n3 took\nview 1\n",
    )?;
    append_puts(alloc, &mut text, 8191)?;
    text.append(b"view 2\n")?;
    append_puts(alloc, &mut text, 8191)?;
    text.append(b"2.1 get a = done value x\nview 3\n")?;
    append_puts(alloc, &mut text, 8191)?;
    text.append(
        b"2.1 get a = done value x\n3.2 get a = done value x\nagree 1 2 8191\nagree 1 3 8191\nagree 2 3 8192\ntags made\n",
    )?;
    Ok(text)
}

#[test]
fn rows(rt: HostRuntime) -> Result<(), Fail> {
    let alloc = rt.alloc();
    for row in ROWS.iter() {
        let (script, text) = (lines_of(alloc, row.0)?, lines_of(alloc, row.1)?);
        assert!(rt;
            prints(alloc, script.as_slice(), text.as_slice(), row.2)?,
            "{}",
            row.0
        );
    }
    Ok(())
}

#[test]
fn most_unsealed(rt: HostRuntime) -> Result<(), Fail> {
    let script = unsealed_script(rt.alloc())?;
    let text = unsealed_print(rt.alloc())?;
    assert!(rt; prints(rt.alloc(), script.as_slice(), text.as_slice(), End::Whole)?);
    Ok(())
}

#[test]
fn far_behind(rt: HostRuntime) -> Result<(), Fail> {
    let script = behind_script(rt.alloc())?;
    let text = behind_print(rt.alloc())?;
    assert!(rt; prints(rt.alloc(), script.as_slice(), text.as_slice(), End::Whole)?);
    Ok(())
}

/// Client 1 takes its call's answer, behind an entry that nobody made, with the tags that the key gives.
fn forged_script(alloc: Global) -> Result<Bytes, NoMemory> {
    let key = zero_key(alloc)?;
    let other = key.tag(&[0x11, 2, 0, 0, 0, 1, 1, 1, b'b', 1, b'z']);
    let own = key.tag(&[0x11, 1, 0, 0, 0, 1, 1, 1, b'a', 1, b'x']);
    let mut script = Bytes::of(
        alloc,
        b"clients 2\ncall 1 put a x\ngive 1 %420000000000020200000001010162017a",
    )?;
    script.append(hex::encode(alloc, other.bytes)?.as_bytes())?;
    script.append(b"01000000010101610178")?;
    script.append(hex::encode(alloc, own.bytes)?.as_bytes())?;
    script.append(b"0100\n")?;
    Ok(script)
}

const FORGED: &str =
    "1 done stored / view 1 / 1.1 put a x = done stored / view 2 / agree 1 2 0 / tags not made";

#[test]
fn forged_tag(rt: HostRuntime) -> Result<(), Fail> {
    let script = forged_script(rt.alloc())?;
    let text = lines_of(rt.alloc(), FORGED)?;
    assert!(rt; prints(rt.alloc(), script.as_slice(), text.as_slice(), End::Forged)?);
    // A bad line behind it: nothing is said of tags.
    let mut script = forged_script(rt.alloc())?;
    script.append(b"take 1\n")?;
    let text = lines_of(rt.alloc(), "1 done stored / line 4: nothing waiting")?;
    assert!(rt; prints(rt.alloc(), script.as_slice(), text.as_slice(), End::Bad)?);
    Ok(())
}

/// Whether a line of a world is bad by this kind.
fn is_bad(done: &Result<Bytes, WorldFault>, kind: u8) -> bool {
    match done {
        Err(WorldFault::Bad(found)) => *found == kind,
        _ => false,
    }
}

// Lines that are done in a world without a script.
#[test]
fn lines_of_a_world(rt: HostRuntime) -> Result<(), Fail> {
    let alloc = rt.alloc();
    let server = Served::gathered(alloc, Mode::Plain, 2)?;
    let mut world = World::new(alloc, 2, Mode::Plain, zero_key(alloc)?, server)?;
    assert!(rt; is_bad(&world.apply(alloc, &Line::Copy(9, 5)), 1));
    assert!(rt; is_bad(&world.apply(alloc, &Line::Copy(9, 1)), 6));
    assert!(rt; is_bad(&world.apply(alloc, &Line::Move(9, 9)), 2));
    assert!(rt; is_bad(&world.apply(alloc, &Line::Key(Bytes::of(alloc, b"00")?)), 1));
    let hostile = Line::Hostile(Bytes::of(alloc, b"fork")?, 0);
    assert!(rt; is_bad(&world.apply(alloc, &hostile), 1));
    assert!(rt; world.apply(alloc, &Line::Skip)?.is_empty());
    assert!(rt; world.apply(alloc, &Line::Sync(2))?.is_empty());
    assert!(rt; world.apply(alloc, &Line::Run(2))?.as_slice() == b"2 took\n".as_slice());
    assert_eq!(rt; world.transcript().len(), 2);
    assert_eq!(rt; world.server().length(), 0);
    Ok(())
}

/// Whether two views of a few calls are the same.
fn are_same(one: &View, other: &View) -> bool {
    one.len() == other.len() && one.len() < 9 && agree(one, other) as usize == one.len()
}

/// Whether the definitions read off tell of a transcript what `view_of` and `forged` do, and a print ends with what those tell.
fn ends_plainly(alloc: Global, t: &Transcript, print: &[u8]) -> Result<bool, NoMemory>
    requires { IsLawful (transcript_group t.now) (transcript_history t.now) }
{
    for k in 0..t.count {
        let view = view_of(alloc, t, k + 1)?;
        if !are_same(&view, &view_plainly(alloc, t, k + 1)?) {
            return Ok(false);
        }
    }
    let end = print_views(alloc, t)?;
    Ok(forged(alloc, t)? == forged_plainly(alloc, t)? && print.ends_with(end.as_slice()))
}

/// The same of a script in which no line is bad.
fn runs_plainly(alloc: Global, script: &[u8], print: &[u8]) -> Result<bool, NoMemory> {
    match run_script(alloc, script)? {
        Ran::Whole(world, _) => ends_plainly(alloc, world.transcript(), print),
        Ran::Stopped(_, _, _) => Ok(false),
    }
}

// On the scripts of the table in which no line is bad, and on the one with a forged tag.
#[test]
fn as_defined(rt: HostRuntime) -> Result<(), Fail> {
    let alloc = rt.alloc();
    for row in ROWS.iter() {
        let (script, print) = (lines_of(alloc, row.0)?, lines_of(alloc, row.1)?);
        let is_whole = runs_plainly(alloc, script.as_slice(), print.as_slice())?;
        assert!(rt; is_whole == (row.2 == End::Whole), "{}", row.0);
    }
    let (script, print) = (forged_script(alloc)?, lines_of(alloc, FORGED)?);
    assert!(rt; runs_plainly(alloc, script.as_slice(), print.as_slice())?);
    Ok(())
}
