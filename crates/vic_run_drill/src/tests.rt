//! Drills and their summaries. The first was worked out by hand, the others by a program that knows lists and maps alone.

use crate::summary_of;
use std::alloc::Global;
use std::test::Fail;
use vic_dict::{Bytes, NoMemory};

/// A number, how many clients and calls there are, and the summary, with ` / ` between its lines.
type Row = (u32, u8, u32, &'static str);

const ROWS: [Row; 5] = [
    (
        7,
        1,
        1,
        "clients 1 / calls 1 / done 1 / aborted 0 / refused 0 / sealed 1 / pairs 1 / weight 22",
    ),
    (
        4_294_967_295,
        1,
        1,
        "clients 1 / calls 1 / done 1 / aborted 0 / refused 0 / sealed 1 / pairs 0 / weight 0",
    ),
    (
        3,
        3,
        40,
        "clients 3 / calls 40 / done 38 / aborted 2 / refused 0 / sealed 40 / pairs 21 / weight 478",
    ),
    (
        0,
        64,
        200,
        "clients 64 / calls 200 / done 94 / aborted 106 / refused 0 / sealed 200 / pairs 46 / weight 1058",
    ),
    (
        7,
        2,
        1000,
        "clients 2 / calls 1000 / done 916 / aborted 84 / refused 0 / sealed 1000 / pairs 154 / weight 3694",
    ),
];

/// A text with a line end in place of each ` / `, and behind it.
fn lines(alloc: Global, text: &str) -> Result<Bytes, NoMemory> {
    let mut out = Bytes::new(alloc);
    let bytes = text.as_bytes();
    let mut skip = 0u8;
    for (i, byte) in bytes.iter().enumerate() {
        if 0 < skip {
            skip -= 1;
        } else if *byte == b' ' && i + 1 < bytes.len() && bytes[i + 1] == b'/' {
            out.push(b'\n')?;
            skip = 2;
        } else {
            out.push(*byte)?;
        }
    }
    out.push(b'\n')?;
    Ok(out)
}

#[test]
fn each_drill_has_its_summary(rt: HostRuntime) -> Result<(), Fail> {
    for (number, clients, calls, want) in ROWS {
        assert!(rt; 0 < clients && clients <= 64);
        assert!(rt; calls <= 100_000);
        let made = summary_of(rt.alloc(), number, clients, calls)?;
        assert_eq!(rt; made.as_slice(), lines(rt.alloc(), want)?.as_slice());
    }
    Ok(())
}
