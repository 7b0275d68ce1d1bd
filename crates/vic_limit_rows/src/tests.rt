ghost use Rattle.std.specs.Prelude.{◌<◌};

use std::alloc::Global;
use std::test::*;
use vic_client::Client;
use vic_dict::{Answer, Bytes, Mode, NoMemory, Op, Outcome};
use vic_server::Served;
use vic_tag::GroupKey;
use vic_wire::ToClient;

// ---- a client's path

/// 32 bytes that are 0.
fn group_key(alloc: Global) -> Result<GroupKey, NoMemory> {
    let text = "0000000000000000000000000000000000000000000000000000000000000000";
    GroupKey::from_hex(alloc, text).map_err(|_| NoMemory)
}

/// Get `b`, a call of client 2, in the spelling of entries.
fn other_call(alloc: Global, seq: u32) -> Result<Bytes, NoMemory> {
    let mut entry = Bytes::of(alloc, b"\x02")?;
    entry.append(seq.to_be_bytes().as_slice())?;
    entry.append(b"\x02\x01b")?;
    Ok(entry)
}

/// An entry, and the tag that its client gives it.
fn put_tagged(
    alloc: Global,
    key: &GroupKey,
    payload: &mut Bytes,
    entry: &[u8],
) -> Result<(), NoMemory> {
    let mut text = Bytes::of(alloc, b"\x11")?;
    text.append(entry)?;
    let tag = key.tag(text.as_slice());
    payload.append(entry)?;
    payload.append(tag.bytes.as_slice())
}

/// A Reply with the seal of position 0, which has so many calls of client 2 below the put of client 1.
fn reply_behind(alloc: Global, key: &GroupKey, others: u16) -> Result<Bytes, NoMemory>
    requires { others < 65535 }
{
    let mut payload = Bytes::of(alloc, b"\x42\0\0\0\0")?;
    payload.append((others + 1).to_be_bytes().as_slice())?;
    for n in 0..others {
        let entry = other_call(alloc, n as u32 + 1)?;
        put_tagged(alloc, key, &mut payload, entry.as_slice())?;
    }
    put_tagged(alloc, key, &mut payload, b"\x01\0\0\0\x01\x01\x01a\x01x")?;
    payload.append(b"\x01\0")?;
    Ok(payload)
}

/// What client 1 returns for its call put `a` = `x`, by the Reply with so many calls below its own; nothing where it can't call.
fn returned(alloc: Global, others: u16) -> Result<Option<Outcome>, Fail>
    requires { others < 65535 }
{
    let mut client = Client::new(alloc, 1, 2, Mode::Plain, group_key(alloc)?);
    let op = Op::Put(Bytes::of(alloc, b"a")?, Bytes::of(alloc, b"x")?);
    if !(client.idle() && client.mode() == Mode::Plain && op.fits() && client.calls() < 1) {
        return Ok(None);
    }
    let _sent = client.invoke(alloc, &op)?;
    let reply = reply_behind(alloc, &group_key(alloc)?, others)?;
    Ok(client.take(alloc, reply.as_slice())?.returned)
}

/// A path goes at most 1,024 entries beyond its seal: as the last of them a call is taken, and as the next one it isn't.
#[test]
fn longest_path(rt: HostRuntime) -> Result<(), Fail> {
    let alloc = rt.alloc();
    let taken = returned(alloc, 1023)?;
    assert!(rt; matches!(&taken, Some(Outcome::Done(Answer::Stored))));
    let halted = returned(alloc, 1024)?;
    assert!(rt; matches!(&halted, Some(Outcome::Halted(1))));
    Ok(())
}

// ---- a server's log

// The server tests no tag.
const TAG: [u8; 32] = [7; 32];

/// Get `a`, the call of client 1 behind so many.
fn call(alloc: Global, server: &mut Served, before: u32) -> Result<ToClient, NoMemory>
    requires { before < 1048577 }
{
    let mut payload = Bytes::of(alloc, b"\x22")?;
    payload.append(before.to_be_bytes().as_slice())?;
    payload.append((before + 1).to_be_bytes().as_slice())?;
    payload.append(b"\x02\x01a")?;
    payload.append(TAG.as_slice())?;
    server.step(alloc, 0, 1, payload.as_slice())
}

/// The Commit of a position, as done, and its Seal.
fn settle(alloc: Global, server: &mut Served, position: u32) -> Result<ToClient, NoMemory> {
    let mut commit = Bytes::of(alloc, b"\x23")?;
    commit.append(position.to_be_bytes().as_slice())?;
    commit.push(0)?;
    commit.append(TAG.as_slice())?;
    let _update = server.step(alloc, 0, 1, commit.as_slice())?;
    let mut seal = Bytes::of(alloc, b"\x25")?;
    seal.append(position.to_be_bytes().as_slice())?;
    seal.append(TAG.as_slice())?;
    seal.append(TAG.as_slice())?;
    server.step(alloc, 0, 1, seal.as_slice())
}

/// Whether so many calls are ordered, each of them sealed before the next one.
fn fill(alloc: Global, server: &mut Served, count: u32) -> Result<bool, NoMemory>
    requires { count < 1048577 }
{
    let mut ordered = true;
    for n in 0..count {
        let answer = call(alloc, server, n)?;
        ordered &= matches!(answer, ToClient::Reply { .. });
        let settled = settle(alloc, server, n + 1)?;
        ordered &= matches!(settled, ToClient::Wait);
    }
    Ok(ordered)
}

/// A log has at most 1,048,576 entries.
#[test]
fn full_log(rt: HostRuntime) -> Result<(), Fail> {
    let alloc = rt.alloc();
    let mut server = Served::gathered(alloc, Mode::Plain, 1)?;
    assert!(rt; fill(alloc, &mut server, 1_048_576)?);
    assert!(rt; server.length() == 1_048_576 && server.sealed() == 1_048_576);
    let refused = call(alloc, &mut server, 1_048_576)?;
    assert!(rt; matches!(refused, ToClient::Refused(4)));
    assert_eq!(rt; server.length(), 1_048_576);
    Ok(())
}
