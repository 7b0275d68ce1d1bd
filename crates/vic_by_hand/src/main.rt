//! A group by hand: two clients and their server are values of one program, which passes the payloads to and fro itself. It shows
//! how the libraries are called, and `docs/LIBRARY.md` tells it call by call. What a client and a server do is said by the
//! contracts of `vic_client` and `vic_server`. The functions here have no more than what they ask of their callers: they are
//! proved safe, and to end.
#![tactic(auto)]

ghost use Rattle.std.specs.Prelude.{◌<◌, ◌≤◌};

use anyhow::{Result, ensure};
use std::alloc::Global;
use vic_client::{Client, request_payload};
use vic_dict::{Bytes, Mode, NoMemory, Op, Outcome};
use vic_server::{Serve, Served};
use vic_tag::GroupKey;
use vic_text::outcome_text;
use vic_wire::{ToClient, ToServer};

/// The group's key in hexadecimal digits. The server isn't given it.
const KEY: &str = "6b6579";

/// There is no connection, so all requests have one seat.
const SEAT: u32 = 0;

/// A client comes in: it says Hello before it has a number, and is answered by Hi.
fn enter(alloc: Global, server: &mut Served, id: u8) -> Result<Client>
    requires some { 0 < id }
    requires member { id ≤ 2 }
{
    let hello = request_payload(alloc, &ToServer::Hello(Mode::Plain, id))?;
    let answer = server.step(alloc, SEAT, 0, hello.as_slice())?;
    ensure!(matches!(answer, ToClient::Hi), "client {id} isn't let in");
    let key = GroupKey::from_hex(alloc, KEY)?;
    Ok(Client::new(alloc, id, 2, Mode::Plain, key))
}

/// The first payload of a call, where the client may make it.
fn call(alloc: Global, client: &mut Client, op: &Op) -> Result<Bytes> {
    let may = client.idle() && client.mode() == Mode::Plain && client.calls() < u32::MAX;
    ensure!(may && op.fits(), "client {} can't call this", client.id());
    Ok(client.invoke(alloc, op)?)
}

/// Passes payloads to and fro until the client sends none, and tells what its call returned. By its rule a client sends an Invoke,
/// a Commit, and a Seal of this call and of each earlier one that isn't sealed. That these are all isn't proved: the bound is
/// what ends the loop.
fn talk(
    alloc: Global,
    client: &mut Client,
    server: &mut Served,
    invoke: Bytes,
) -> Result<Option<Outcome>, NoMemory> {
    let most = u64::from(client.unsettled()) + 3;
    let mut sent = Some(invoke);
    let mut returned = None;
    for _ in 0..most {
        let Some(payload) = sent else { break };
        let answer = server.serve(alloc, SEAT, client.id(), payload.as_slice())?;
        let step = client.take(alloc, answer.as_slice())?;
        sent = step.send;
        returned = returned.or(step.returned);
    }
    Ok(returned)
}

/// The bytes with the lowest bit of the last one flipped.
fn flipped(alloc: Global, bytes: &[u8]) -> Result<Bytes, NoMemory> {
    let mut items = Vec::from_slice(alloc, bytes)?;
    if let Some(last) = items.last_mut() {
        *last ^= 1;
    }
    Ok(Bytes::from_vec(items))
}

fn tell(rt: &impl Print, alloc: Global, words: &str, returned: &Option<Outcome>) -> Result<()> {
    let Some(outcome) = returned else {
        println!(rt; "{words}: nothing")?;
        return Ok(());
    };
    let text = outcome_text(alloc, outcome)?;
    let text = std::str::from_utf8(text.as_slice())?;
    println!(rt; "{words}: {text}")?;
    Ok(())
}

fn main(rt: HostRuntime) -> Result<()> {
    let alloc = rt.alloc();
    let mut server = Served::new(alloc, Mode::Plain, 2)?;
    let mut one = enter(alloc, &mut server, 1)?;
    let mut two = enter(alloc, &mut server, 2)?;
    let put = Op::Put(Bytes::of(alloc, b"a")?, Bytes::of(alloc, b"x")?);
    let get = Op::Get(Bytes::of(alloc, b"a")?);

    let invoke = call(alloc, &mut one, &put)?;
    let stored = talk(alloc, &mut one, &mut server, invoke)?;
    tell(&rt, alloc, "client 1 put a x", &stored)?;
    let invoke = call(alloc, &mut two, &get)?;
    let found = talk(alloc, &mut two, &mut server, invoke)?;
    tell(&rt, alloc, "client 2 get a", &found)?;

    // The answer's last byte is the value `x`; flipped, it is `y`.
    let invoke = call(alloc, &mut two, &get)?;
    let answer = server.serve(alloc, SEAT, two.id(), invoke.as_slice())?;
    let changed = flipped(alloc, answer.as_slice())?;
    let step = two.take(alloc, changed.as_slice())?;
    tell(&rt, alloc, "client 2 get a, x flipped to y", &step.returned)
}
