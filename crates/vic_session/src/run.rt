//! A session: the client greets, does the lines of its script, and leaves.

ghost use Rattle.std.specs.Prelude.{◌≡◌, ◌<◌, ◌≤◌, ◌^◌, [], length};
ghost use Rattle.vic_rules.specs.Client.{at_start};
ghost use Rattle.vic_client.specs.Kept.{StandsFor, kept_group};
ghost use Rattle.vic_script.specs.Run.{script_limit};
ghost use Rattle.vic_session.specs.Running.{Greeted, Parted, Left, JudgedHello, JudgedBye};
ghost use Rattle.vic_session.specs.Sessions.{IsSessionOf};

use crate::end::SessionEnd;
use crate::lines::{go_on, hear};
use crate::place::{At, Place};
use crate::wire::{WireFault, ask};
use std::alloc::Global;
use vic_client::{Client, request_payload};
use vic_conn::FrameReader;
use vic_dict::{Bytes, NoMemory};
use vic_frames::decode_answer;
use vic_hash::content;
use vic_ports::Link;
use vic_wire::{ToClient, ToServer};

// What the answer to Hello comes to.
fn judge_hello(alloc: Global, payload: &[u8]) -> Result<(), SessionEnd>
    ensures { JudgedHello payload.now result }
{
    match decode_answer(alloc, payload) {
        Ok(Some(ToClient::Hi)) => Ok(()),
        Ok(Some(ToClient::Refused(reason))) => Err(SessionEnd::GreetingRefused(reason)),
        Ok(_) => Err(SessionEnd::Halted(1, content(payload))),
        Err(NoMemory) => Err(SessionEnd::NoMemory),
    }
}

// Says Hello, and waits for Hi.
fn greet<L: Link>(
    alloc: Global,
    client: &Client,
    link: &mut L,
    reader: &mut FrameReader,
    buffer: &mut [u8],
) -> Result<(), SessionEnd>
    requires { 0 < length buffer.old }
    ensures { Greeted (kept_group client.now) client.now.id reader.old reader.new (L.told link.old) (L.told link.new) result }
{
    let Ok(hello) = request_payload(alloc, &ToServer::Hello(client.mode(), client.id())) else {
        return Err(SessionEnd::NoMemory);
    };
    match ask(alloc, link, reader, buffer, &Some(hello)) {
        Ok(payload) => judge_hello(alloc, payload.as_slice()),
        Err(WireFault::Link) => Err(SessionEnd::LinkFault),
        Err(WireFault::Length) => Err(SessionEnd::BadFrame),
        Err(WireFault::NoMemory) => Err(SessionEnd::NoMemory),
    }
}

// What the answer to Bye comes to.
fn judge_bye(alloc: Global, payload: &[u8]) -> SessionEnd
    ensures { JudgedBye payload.now result }
{
    match decode_answer(alloc, payload) {
        Ok(Some(ToClient::Gone)) => SessionEnd::Ok,
        Ok(_) => SessionEnd::Halted(1, content(payload)),
        Err(NoMemory) => SessionEnd::NoMemory,
    }
}

// Says Bye, and waits for Gone.
fn say_bye<L: Link>(
    alloc: Global,
    link: &mut L,
    reader: &mut FrameReader,
    buffer: &mut [u8],
) -> SessionEnd
    requires { 0 < length buffer.old }
    ensures { Parted reader.old reader.new (L.told link.old) (L.told link.new) result }
{
    let Ok(bye) = request_payload(alloc, &ToServer::Bye) else {
        return SessionEnd::NoMemory;
    };
    match ask(alloc, link, reader, buffer, &Some(bye)) {
        Ok(payload) => judge_bye(alloc, payload.as_slice()),
        Err(WireFault::Link) => SessionEnd::LinkFault,
        Err(WireFault::Length) => SessionEnd::BadFrame,
        Err(WireFault::NoMemory) => SessionEnd::NoMemory,
    }
}

// Leaves, and tells it.
fn leave<L: Link>(
    alloc: Global,
    link: &mut L,
    reader: &mut FrameReader,
    buffer: &mut [u8],
    out: &mut Bytes,
) -> SessionEnd
    requires { 0 < length buffer.old }
    ensures { Left reader.old reader.new (L.told link.old) (L.told link.new) out.old out.new result }
{
    match say_bye(alloc, link, reader, buffer) {
        SessionEnd::Ok => match out.append(b"bye\n") {
            Ok(()) => SessionEnd::Ok,
            Err(NoMemory) => SessionEnd::NoMemory,
        },
        end => end,
    }
}

/// Greets, does each line of a script, and leaves; what is printed joins the lines so far. Whatever the end is, what was sent and
/// printed stays, and the client stands where the talk is, which may be in the middle of a call. After want of memory it stands
/// behind the steps that it made, two at most before that place, and nothing was sent of the others. It keeps what is not yet a
/// whole frame, one buffer, one answer, and what its client keeps. A line costs the payloads that it sends and takes.
pub fn run_lines<L: Link>(
    alloc: Global,
    client: &mut Client,
    script: &[u8],
    link: &mut L,
    out: &mut Bytes,
) -> SessionEnd
    requires { StandsFor client.old at_start }
    ensures did { IsSessionOf (kept_group client.old) client.old.id script.now (L.told link.old) out.old result (L.told link.new) out.new client.new }
    // A script past the limit has a bad line.
    ensures whole { result ≡ SessionEnd.Ok → length script.now ≤ script_limit }
{
    let mut reader = FrameReader::new(alloc);
    let mut buffer = [0u8; 4096];
    match greet(alloc, client, link, &mut reader, &mut buffer) {
        Ok(()) => (),
        Err(end) => return end,
    }
    let mut place = Place {
        rest: script,
        total: script.len(),
        behind: 0,
        number: 0,
        doing: At::Leaves,
    };
    let mut pending = match go_on(alloc, client, &mut place, out) {
        Ok(sent) => sent,
        Err(NoMemory) => return SessionEnd::NoMemory,
    };
    // Each answer takes something from what may still come (`rank`).
    'answers: loop {
        match place.doing {
            At::Leaves => return leave(alloc, link, &mut reader, &mut buffer, out),
            At::Bad(kind) => return SessionEnd::BadLine(place.number, kind),
            At::Halts(check, hash) => return SessionEnd::Halted(check, hash),
            _ => (),
        }
        let payload = match ask(alloc, link, &mut reader, &mut buffer, &pending) {
            Ok(payload) => payload,
            Err(WireFault::Link) => return SessionEnd::LinkFault,
            Err(WireFault::Length) => return SessionEnd::BadFrame,
            Err(WireFault::NoMemory) => return SessionEnd::NoMemory,
        };
        pending = match hear(alloc, client, &mut place, payload.as_slice(), out) {
            Ok(sent) => sent,
            Err(NoMemory) => return SessionEnd::NoMemory,
        };
    }
}
