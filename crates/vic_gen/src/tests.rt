ghost use Rattle.std.specs.Prelude.{◌<◌, ◌≤◌};

use super::*;
use std::alloc::Global;
use std::test::Fail;
use vic_dict::{Bytes, NoMemory};

/// A number, how many clients there are, and the first turns: who acts, and what it does. The calls are numbered by their turns.
type Run = (u32, u8, &'static str);

const RUNS: [Run; 4] = [
    (7, 1, "1 put k140 v1;"),
    (
        7,
        2,
        "1 put k140 v1;1 put k084 v2;2 put k107 v3;2 put k016 v4;1 list k11;1 poll;\
         2 list k11;1 put k156 v8;2 poll;2 del k069;2 get k199;1 put k078 v12;",
    ),
    (
        4_294_967_295,
        3,
        "2 list k15;1 get k084;3 put k074 v3;2 del k057;3 get k014;3 put k029 v6;\
         2 get k041;3 poll;3 put k056 v9;2 poll;3 get k155;1 put k021 v12;",
    ),
    (
        0,
        64,
        "47 put k108 v1;58 put k150 v2;63 put k077 v3;49 del k137;36 del k042;7 get k025;\
         16 put k196 v7;46 put k198 v8;46 put k058 v9;60 del k155;22 put k103 v11;58 put k179 v12;",
    ),
];

/// How many turns of a run are looked at: a `;` ends each.
fn turns(text: &str) -> u32 {
    let mut count = 0u32;
    for byte in text.as_bytes() {
        if *byte == b';' {
            count = count.saturating_add(1);
        }
    }
    count
}

fn put(out: &mut Bytes, name: &str, text: &Bytes) -> Result<(), NoMemory> {
    out.append(name.as_bytes())?;
    out.append(text.as_slice())
}

fn put_act(out: &mut Bytes, act: &Act) -> Result<(), NoMemory> {
    match act {
        Act::Poll => out.append(b" poll"),
        Act::Call(Op::Put(key, value)) => {
            put(out, " put ", key)?;
            put(out, " ", value)
        }
        Act::Call(Op::Get(key)) => put(out, " get ", key),
        Act::Call(Op::Del(key)) => put(out, " del ", key),
        Act::Call(Op::List(prefix)) => put(out, " list ", prefix),
    }
}

/// So many turns of a generator, as text.
fn drawn(alloc: Global, number: u32, clients: u8, turns: u32) -> Result<Bytes, NoMemory>
    requires { (0 < clients) × (clients ≤ 64) }
{
    let mut out = Bytes::new(alloc);
    let mut generator = Gen::new(alloc, number, clients)?;
    for turn in 0..turns {
        let client = generator.pick();
        let act = generator.act(alloc, client, turn.saturating_add(1))?;
        out.append(client.to_string(alloc)?.as_bytes())?;
        put_act(&mut out, &act)?;
        out.push(b';')?;
    }
    Ok(out)
}

#[test]
fn the_first_turns_are_drawn(rt: HostRuntime) -> Result<(), Fail> {
    for (number, clients, want) in RUNS {
        assert!(rt; 0 < clients && clients <= 64);
        let made = drawn(rt.alloc(), number, clients, turns(want))?;
        assert_eq!(rt; made.as_slice(), want.as_bytes());
    }
    Ok(())
}
