//! The command of a drill over a sink in memory: its status and what it prints.

use crate::drill::run_drill;
use std::alloc::Global;
use std::test::*;
use vic_dict::NoMemory;
use vic_ports::{Calls, MemorySink};
use vic_text::Status;

/// The words, the write of the sink that fails (0: none), the status, and what is printed.
type Row = (&'static str, u64, Status, &'static [u8]);

const ROWS: [Row; 15] = [
    ("drill 7 1 1", 0, Status::Ok, ONE_PUT),
    ("drill 7 1 1", 1, Status::WriteFault, b""),
    (
        "drill 4294967295 1 1",
        0,
        Status::Ok,
        b"clients 1\ncalls 1\ndone 1\naborted 0\nrefused 0\nsealed 1\npairs 0\nweight 0\n",
    ),
    ("drill 4294967296 1 1", 0, Status::Usage, USAGE),
    ("drill 18446744073709551616 1 1", 0, Status::Usage, USAGE),
    ("drill 07 1 1", 0, Status::Usage, USAGE),
    ("drill -1 1 1", 0, Status::Usage, USAGE),
    ("drill 7 0 1", 0, Status::Usage, USAGE),
    ("drill 7 65 1", 0, Status::Usage, USAGE),
    ("drill 7 1 0", 0, Status::Usage, USAGE),
    ("drill 7 1 100001", 0, Status::Usage, USAGE),
    ("drill 7 1", 0, Status::Usage, USAGE),
    ("drill 7 1 1 1", 0, Status::Usage, USAGE),
    ("drills 7 1 1", 0, Status::Usage, USAGE),
    ("drill 7 1 100001", 1, Status::WriteFault, b""),
];

const ONE_PUT: &[u8] =
    b"clients 1\ncalls 1\ndone 1\naborted 0\nrefused 0\nsealed 1\npairs 1\nweight 22\n";

const USAGE: &[u8] =
    b"usage: vicos group | drill NUMBER CLIENTS CALLS | client ADDRESS ID COUNT KEY MODE | serve ADDRESS COUNT MODE CONNECTIONS\n";

/// Whether the command goes so.
fn goes_so(alloc: Global, row: &Row) -> Result<bool, NoMemory> {
    let mut words = Vec::new(alloc);
    for word in row.0.split(' ') {
        words.push(word.to_string(alloc)?)?;
    }
    let mut fails = Calls::new(alloc);
    if row.1 > 0 {
        fails.push(row.1)?;
    }
    let mut sink = MemorySink::new(alloc, fails);
    let status = run_drill(alloc, words.as_slice(), &mut sink);
    Ok(status == row.2 && sink.held().as_slice() == row.3)
}

#[test]
fn drills_go_so(rt: HostRuntime) -> Result<(), Fail> {
    for (place, row) in ROWS.iter().enumerate() {
        assert!(rt;
            goes_so(rt.alloc(), row).ok().ok_or("memory")?,
            "row {place}"
        );
    }
    Ok(())
}
