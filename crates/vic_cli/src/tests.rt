//! Whole runs of the command on a script, over a source and a sink in memory.

use crate::{run_group, run_in_memory};
use std::alloc::Global;
use std::test::Fail;
use vic_dict::{Bytes, NoMemory};
use vic_ports::{Calls, MemorySink, MemorySource, NeverFails};

/// A script and what it prints, each with ` / ` between its lines, and the status.
type Row = (&'static str, &'static str, u8);

/// Runs with each status that a script gives. In the second, client 1 takes an entry that nobody made, with a right tag.
const ROWS: [Row; 17] = [
    (
        "clients 1 / call 1 put a x / run 1 / call 1 get a / run 1",
        "1 done stored / 1 took / 1 took / 1 done value x / 1 took / 1 took / view 1 / 1.1 put a x = done stored / 1.2 get a = done value x / tags made",
        0,
    ),
    (
        "clients 2 / call 1 put a x / give 1 %420000000000020200000001010162017a620341e2d5bae68f1c2ed27f9a313da35c949fd70064e06d826d4626f9aa107d01000000010101610178cb54b70440a17bb85ab3a16cb236403002b93a7168c5b1fbd690db27b14574f90100",
        "1 done stored / view 1 / 1.1 put a x = done stored / view 2 / agree 1 2 0 / tags not made",
        1,
    ),
    ("", "line 1: not a line of this script", 5),
    (
        "clients 1 / call 1 put a x / call 1 get a",
        "line 3: client is busy",
        5,
    ),
    // A header alone.
    ("clients 1 / key 00", "view 1 / tags made", 0),
    // Comments and empty lines before the header, in it, between other lines and at the end.
    (
        "# one client /  / clients 1 / # its key /  / key 0B0b / # a put / call 1 put a x /  / run 1 / # the end",
        "1 done stored / 1 took / 1 took / view 1 / 1.1 put a x = done stored / tags made",
        0,
    ),
    // A reply with tags of the key that the header names, and of another key.
    (
        "clients 2 / key aBC9 / call 1 put a x / give 1 %420000000000020200000001010162017a2f7fd8d203fe081535efede1e1e91c40dd9a9a7646bed4de6ca80b04dfbab36101000000010101610178593e7efc1d64b258620a2eadbb6c3d8a512ef1165b3997a7891dc8ccfcd62c9b0100",
        "1 done stored / view 1 / 1.1 put a x = done stored / view 2 / agree 1 2 0 / tags not made",
        1,
    ),
    (
        "clients 2 / key aBC8 / call 1 put a x / give 1 %420000000000020200000001010162017a2f7fd8d203fe081535efede1e1e91c40dd9a9a7646bed4de6ca80b04dfbab36101000000010101610178593e7efc1d64b258620a2eadbb6c3d8a512ef1165b3997a7891dc8ccfcd62c9b0100",
        "1 halted 3 / view 1 / view 2 / agree 1 2 0 / tags made",
        0,
    ),
    // A key twice, behind an event, before the header, of an odd number of digits.
    (
        "clients 1 / key 00 / # again / key 00",
        "line 4: not a line of this script",
        5,
    ),
    (
        "clients 1 / poll 1 / key 00",
        "line 3: not a line of this script",
        5,
    ),
    ("key 00 / clients 1", "line 1: not a line of this script", 5),
    (
        "clients 1 / key 000",
        "line 2: not a line of this script",
        5,
    ),
    // A second header, and none.
    (
        "clients 1 / key 00 / # again / clients 1",
        "line 4: not a line of this script",
        5,
    ),
    ("# clients 1", "line 2: not a line of this script", 5),
    // Lines that are skipped are counted.
    (
        "# a / clients 1 /  / # b / take 1",
        "line 5: nothing waiting",
        5,
    ),
    // A line of a space, and a comment that doesn't begin its line.
    (
        "clients 1 /   / poll 1",
        "line 2: not a line of this script",
        5,
    ),
    (
        "clients 1 / run 1 # nothing waits",
        "line 2: not a line of this script",
        5,
    ),
];

/// The lines that a text with ` / ` between them stands for; none if it is empty.
fn lines_of(alloc: Global, text: &str) -> Result<Bytes, NoMemory> {
    let mut lines = Bytes::new(alloc);
    if text.is_empty() {
        return Ok(lines);
    }
    for line in text.split(" / ") {
        lines.append(line.as_bytes())?;
        lines.push(b'\n')?;
    }
    Ok(lines)
}

/// The words of a command line, as a text with a space between them.
fn words_of(alloc: Global, text: &str) -> Result<Vec<String>, NoMemory> {
    let mut words = Vec::new(alloc);
    for word in text.split(' ') {
        words.push(String::from_str(alloc, word)?)?;
    }
    Ok(words)
}

/// The reads or writes that are to fail: the one with this number, or none for 0.
fn failing(alloc: Global, number: u64) -> Result<Calls, NoMemory> {
    let mut calls = Calls::new(alloc);
    if number > 0 {
        calls.push(number)?;
    }
    Ok(calls)
}

/// Whether the command so named writes this of a script, and ends with this status.
fn prints(
    alloc: Global,
    command: &str,
    script: Bytes,
    text: &[u8],
    status: u8,
) -> Result<bool, NoMemory> {
    let words = words_of(alloc, command)?;
    let mut source = MemorySource::new(script, Calls::new(alloc));
    let mut sink = MemorySink::new(alloc, Calls::new(alloc));
    let ended = run_group(alloc, words.as_slice(), &mut source, &mut sink);
    Ok(sink.held().as_slice() == text && ended.number() == status)
}

fn prints_row(alloc: Global, command: &str, row: &Row) -> Result<bool, NoMemory> {
    let script = lines_of(alloc, row.0)?;
    let text = lines_of(alloc, row.1)?;
    prints(alloc, command, script, text.as_slice(), row.2)
}

/// Whether the first row's script ends with this text and status where a read or a write fails.
fn faults(
    alloc: Global,
    command: &str,
    reads: u64,
    writes: u64,
    text: &[u8],
    status: u8,
) -> Result<bool, NoMemory> {
    let words = words_of(alloc, command)?;
    let script = lines_of(alloc, ROWS[0].0)?;
    let mut source = MemorySource::new(script, failing(alloc, reads)?);
    let mut sink = MemorySink::new(alloc, failing(alloc, writes)?);
    let ended = run_group(alloc, words.as_slice(), &mut source, &mut sink);
    Ok(sink.held().as_slice() == text && ended.number() == status)
}

/// A script of so many bytes: its header, and one line of letters behind this one.
fn long_script(alloc: Global, size: usize, first: u8) -> Result<Bytes, NoMemory> {
    let mut script = Bytes::of(alloc, b"clients 1\n")?;
    script.push(first)?;
    for _ in 11..size {
        script.push(b'a')?;
    }
    Ok(script)
}

#[test]
fn rows(rt: HostRuntime) -> Result<(), Fail> {
    for row in ROWS.iter() {
        assert!(rt; prints_row(rt.alloc(), "group", row)?, "{}", row.0);
    }
    Ok(())
}

#[test]
fn in_memory(rt: HostRuntime) -> Result<(), Fail> {
    let alloc = rt.alloc();
    let words = words_of(alloc, "group")?;
    let script = lines_of(alloc, ROWS[0].0)?;
    let text = lines_of(alloc, ROWS[0].1)?;
    let mut source = NeverFails::new(MemorySource::new(script, Calls::new(alloc)));
    let mut sink = NeverFails::new(MemorySink::new(alloc, Calls::new(alloc)));
    let ended = run_in_memory(alloc, words.as_slice(), &mut source, &mut sink);
    assert!(rt; ended.number() == 0);
    assert!(rt; sink.inner().held().as_slice() == text.as_slice());
    Ok(())
}

#[test]
fn wrong_words(rt: HostRuntime) -> Result<(), Fail> {
    let row: Row = (
        "clients 1",
        "usage: vicos group | drill NUMBER CLIENTS CALLS | client ADDRESS ID COUNT KEY MODE | serve ADDRESS COUNT MODE CONNECTIONS",
        2,
    );
    for command in ["group x", "groups", ""] {
        assert!(rt; prints_row(rt.alloc(), command, &row)?);
    }
    Ok(())
}

#[test]
fn one_fault(rt: HostRuntime) -> Result<(), Fail> {
    // The second read is the one that would find the end.
    assert!(rt; faults(rt.alloc(), "group", 1, 0, b"read fault\n", 3)?);
    assert!(rt; faults(rt.alloc(), "group", 2, 0, b"read fault\n", 3)?);
    assert!(rt; faults(rt.alloc(), "group", 0, 1, b"", 4)?);
    assert!(rt; faults(rt.alloc(), "group", 1, 1, b"", 4)?);
    // Wrong words are found before anything is read.
    assert!(rt;
        faults(
            rt.alloc(),
            "group x",
            1,
            0,
            b"usage: vicos group | drill NUMBER CLIENTS CALLS | client ADDRESS ID COUNT KEY MODE | serve ADDRESS COUNT MODE CONNECTIONS\n",
            2
        )?
    );
    Ok(())
}

/// Whether a long script with this line prints this.
fn prints_long(
    alloc: Global,
    size: usize,
    first: u8,
    text: &[u8],
    status: u8,
) -> Result<bool, NoMemory> {
    let script = long_script(alloc, size, first)?;
    prints(alloc, "group", script, text, status)
}

#[test]
fn longest_script(rt: HostRuntime) -> Result<(), Fail> {
    let bad = b"line 2: not a line of this script\n";
    assert!(rt; prints_long(rt.alloc(), 16_777_216, b'a', bad, 5)?);
    let long = b"line 2: script too long\n";
    assert!(rt; prints_long(rt.alloc(), 16_777_217, b'a', long, 5)?);
    Ok(())
}

#[test]
fn longest_comment(rt: HostRuntime) -> Result<(), Fail> {
    let whole = b"view 1\ntags made\n";
    assert!(rt; prints_long(rt.alloc(), 16_777_216, b'#', whole, 0)?);
    let long = b"line 2: script too long\n";
    assert!(rt; prints_long(rt.alloc(), 16_777_217, b'#', long, 5)?);
    Ok(())
}

// Without their last byte 0a.
#[test]
fn unended_scripts(rt: HostRuntime) -> Result<(), Fail> {
    let rows = [
        ("\n", "line 2: not a line of this script\n", 5),
        ("# a", "line 2: not a line of this script\n", 5),
        ("# a\n\n", "line 3: not a line of this script\n", 5),
        ("clients 1\n# a", "view 1\ntags made\n", 0),
    ];
    for (script, text, status) in rows {
        let script = Bytes::of(rt.alloc(), script.as_bytes())?;
        assert!(rt;
            prints(rt.alloc(), "group", script, text.as_bytes(), status)?,
            "{text}"
        );
    }
    Ok(())
}
