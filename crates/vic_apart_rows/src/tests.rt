//! Scripts, each with ` / ` between its lines, of whose texts no two have one hash. Their prints stand beside the scripts of `examples/`
//! and in the tests of other crates.

use std::alloc::Global;
use std::test::Fail;
use vic_dict::{Bytes, NoMemory};
use vic_group::texts_are_apart;

const SCRIPTS: [&str; 29] = [
    // The scripts of `examples/`.
    "clients 4 / call 1 put a x / run 1 / call 2 get a / call 3 get a / call 4 get a / serve 2 / serve 3 / serve 4 / flip 2 158 / flip 3 80 / flip 4 37",
    "clients 2 / call 1 put a x / run 1 / call 2 get a / run 2 / copy 1 2 / move 2 2 / call 1 put a y / run 1 / call 2 put b z / run 2 / call 1 get a / run 1 / call 2 get a / run 2",
    "clients 2 / call 1 put a x / call 2 put a y / serve 1 / serve 2 / take 1 / take 2 / run 1 / run 2 / call 2 get a / run 2",
    "clients 2 / copy 1 2 / move 2 2 / call 2 put b y / run 2 / call 1 put a x / resend 1 / serve 1 / move 1 2 / serve 1 / move 1 1 / take 1 / call 2 put a z / run 2",
    "clients 2 / key 0000000000000000000000000000000000000000000000000000000000000000 / call 1 put a x / give 1 %420000000000020200000001010162017a620341e2d5bae68f1c2ed27f9a313da35c949fd70064e06d826d4626f9aa107d01000000010101610178cb54b70440a17bb85ab3a16cb236403002b93a7168c5b1fbd690db27b14574f90100",
    "clients 2 / copy 1 2 / move 2 2 / call 1 put a x / run 1 / call 2 get a / run 2",
    "clients 2 / call 1 put a x / serve 1 / call 2 put b y / run 2 / take 1 / run 1 / poll 2 / run 2 / call 2 del a / run 2 / call 2 del a / run 2 / call 1 get a / run 1",
    "clients 1 / call 1 put a x / run 1 / call 1 get a / run 1",
    "clients 2 / copy 1 2 / move 2 2 / call 1 put a x / run 1 / call 2 put b y / run 2 / move 2 1 / call 2 get a / run 2",
    "clients 1 / call 1 put a x / run 1 / call 1 put a y / serve 1 / take 1 / serve 1 / copy 1 2 / take 1 / serve 1 / take 1 / move 1 2 / call 1 get a / run 1",
    "clients 2 / call 1 put a x / call 2 put b y / serve 1 / serve 2 / take 1 / take 2 / run 1 / run 2 / run 1 / call 1 list % / run 1 / sync 2 / run 2",
    "clients 1 / call 1 put a x / serve 1 / take 1 / again 1 / run 1",
    // Others without objects.
    "clients 2",
    "clients 2 / call 2 put b z / serve 2 / call 1 put a x / run 1 / call 1 put a y / run 1 / call 1 get a / run 1",
    "clients 2 / call 2 put ab z / serve 2 / call 1 list % / run 1 / call 1 list x / run 1",
    "clients 1 / call 1 put b y / run 1 / call 1 put a x / run 1 / call 1 list % / run 1 / call 1 del a / run 1 / call 1 del a / run 1",
    "clients 1 / call 1 put a x / run 1 / copy 1 2 / call 1 put a y / run 1 / move 1 2 / call 1 get a / run 1",
    "clients 2 / copy 1 2 / call 1 put a x / run 1 / copy 1 2 / move 2 2 / call 2 get a / run 2 / call 1 get a / run 1",
    "clients 1 / call 1 put a x / run 1 / resend 1 / run 1",
    // Groups with objects.
    "objects 1 / call 1 load f / run 1",
    "objects 1 / call 1 store f zeros:0 / run 1 / call 1 load f / run 1",
    "objects 2 / call 1 store f abc / run 1 / call 2 load f / run 2",
    "objects 1 / call 1 store f abc / run 1 / call 1 store g abc / run 1 / call 1 load g / run 1",
    "objects 1 / call 1 store f abc / run 1 / call 1 load f / serve 1 / take 1 / serve 1 / take 1 / serve 1 / take 1 / serve 1 / flip 1 1",
    // A bad line: before the header, in it, and behind some calls.
    "",
    "clients 65",
    "clients 1 / key 0b / key 0b",
    "clients 1 / call 1 put a x / run 1 / take 1",
    "objects 1 / call 1 store f abc / run 1 / call 1 get f",
];

/// The lines that a text with ` / ` between them stands for; none if it is empty.
fn lines_of(alloc: Global, text: &str) -> Result<Bytes, NoMemory> {
    let mut lines = Bytes::new(alloc);
    if text.is_empty() {
        return Ok(lines);
    }
    for line in text.split(" / ") {
        lines.append(line.as_bytes())?;
        lines.push(b'\n')?;
    }
    Ok(lines)
}

#[test]
fn no_two_collide(rt: HostRuntime) -> Result<(), Fail> {
    let alloc = rt.alloc();
    for script in SCRIPTS.iter() {
        let lines = lines_of(alloc, script)?;
        assert!(rt; texts_are_apart(alloc, lines.as_slice())?, "{}", script);
    }
    Ok(())
}
