//! The command of a server: lines come, are served and go back, and what it prints tells of it.

ghost use Rattle.std.specs.Prelude.{◌≡◌, ◌≢◌, ◌<◌, ◌≤◌, ◌++◌, None, IfOk, IfSome, IsSome, OnOk, map, string_bytes};
ghost use Rattle.vic_dict.specs.declared.limits.TheConstants.{MOST_CLIENTS};
ghost use Rattle.vic_cli.specs.Output.{given_by, text_bytes};
ghost use Rattle.vic_cli.specs.Command.{Plans, Ends, IsComplete};
ghost use Rattle.vic_text.specs.Statuses.{fixed_line};
ghost use Rattle.vic_cli.specs.Serving.{serve_words, told_line, serve_text, is_link_fault as link_fault_test, is_bad_frame as bad_frame_test, is_no_memory as no_memory_test, opened_by, serve_command};

use crate::arguments::{is_address, mode_of, small_number};
use crate::output::{Composed, Text, finish};
use std::alloc::Global;
use std::sync::Wait;
use std::thread::Threads;
use vic_dict::{Bytes, Mode, NoMemory};
use vic_gate::{Gate, WorkEnd};
use vic_hall::{Hosted, host};
use vic_ports::{Doors, Sink};
use vic_server::Served;
use vic_text::Status;
use vic_text::word::is_name;

/// What the words ask for.
#[derive(Clone, Copy, Debug)]
pub struct Asked {
    /// Whether the group has objects.
    pub kind: Mode,
    /// 1 to 64.
    pub clients: u8,
    /// How many it serves, 1 to 64.
    pub connections: u8,
}

/// What the command is about to write, and the server, where lines were served.
#[derive(Drop)]
struct Planned {
    /// What is to be written, and the status.
    composed: Composed,
    /// The server as it then stands.
    served: Option<Served>,
}

// What the words ask for, where they are right.
fn read_words(words: &[String]) -> Option<Asked>
    ensures is { result ≡ serve_words (map string_bytes words.now) }
    ensures clients { IfSome result (λ a. (0 < a.clients) × (a.clients ≤ MOST_CLIENTS)) }
    ensures connections { IfSome result (λ a. (0 < a.connections) × (a.connections ≤ 64)) }
{
    let [name, address, count, kind, connections] = words else {
        return None;
    };
    if !(is_name(name.as_bytes(), b"serve") && is_address(address.as_bytes())) {
        return None;
    }
    Some(Asked {
        kind: mode_of(kind.as_bytes())?,
        clients: small_number(count.as_bytes())?,
        connections: small_number(connections.as_bytes())?,
    })
}

fn is_link_fault(end: WorkEnd) -> bool
    ensures { result ≡ link_fault_test end }
{
    matches!(end, WorkEnd::LinkFault)
}

fn is_bad_frame(end: WorkEnd) -> bool
    ensures { result ≡ bad_frame_test end }
{
    matches!(end, WorkEnd::BadFrame)
}

fn is_no_memory(end: WorkEnd) -> bool
    ensures { result ≡ no_memory_test end }
{
    matches!(end, WorkEnd::NoMemory)
}

// A line with a name and a number.
fn put_told(out: &mut Bytes, alloc: Global, name: &[u8], number: u64) -> Result<(), NoMemory>
    ensures { OnOk result (out.new ≡ out.old ++ told_line name.now number) }
{
    let digits = number.to_string(alloc)?;
    out.append(name)?;
    out.append(digits.as_bytes())?;
    out.append(b"\n")
}

// The seven lines.
fn tell(
    alloc: Global,
    connections: u8,
    served: &Served,
    ends: &[WorkEnd],
) -> Result<Bytes, NoMemory>
    ensures { IfOk result (λ text. text ≡ serve_text connections served.now ends.now) }
{
    let link_faults = ends.iter().filter(|end| is_link_fault(**end)).count();
    let bad_frames = ends.iter().filter(|end| is_bad_frame(**end)).count();
    let no_memory = ends.iter().filter(|end| is_no_memory(**end)).count();
    let mut out = Bytes::new(alloc);
    put_told(&mut out, alloc, b"connections ", u64::from(connections))?;
    put_told(&mut out, alloc, b"ordered ", u64::from(served.length()))?;
    put_told(&mut out, alloc, b"sealed ", u64::from(served.sealed()))?;
    put_told(&mut out, alloc, b"changes ", served.changes())?;
    put_told(&mut out, alloc, b"link faults ", link_faults as u64)?;
    put_told(&mut out, alloc, b"bad frames ", bad_frames as u64)?;
    put_told(&mut out, alloc, b"no memory ", no_memory as u64)?;
    Ok(out)
}

// A status with its own line, where no server is kept.
fn without(status: Status) -> Planned
    ensures status { result.composed.status ≡ status }
    ensures text { text_bytes result.composed.text ≡ fixed_line status }
    ensures none { result.served ≡ None }
{
    Planned {
        composed: Composed::of(status),
        served: None,
    }
}

// Serves the lines that were asked for, and composes what is told of it.
fn plan<D: Doors, G: Gate + Sync, R: Threads + Wait + Sync>(
    rt: &R,
    alloc: Global,
    words: &[String],
    doors: &mut D,
    gate: &G,
) -> Planned
where
    D::Line: Send + Drop,
    ensures plans { Plans (serve_command (serve_words (map string_bytes words.now))
        (opened_by D.lines D.faults doors.old doors.new) result.served)
        result.composed.status (text_bytes result.composed.text) }
    ensures served { result.composed.status ≡ Status.Ok → IsSome result.served }
{
    let Some(a) = read_words(words) else {
        return without(Status::Usage);
    };
    let Ok(served) = Served::new(alloc, a.kind, a.clients) else {
        return without(Status::NoMemory);
    };
    match host(rt, alloc, served, doors, gate, u32::from(a.connections)) {
        Hosted::Ran(served, ends) => match tell(alloc, a.connections, &served, &ends) {
            Ok(text) => Planned {
                composed: Composed {
                    status: Status::Ok,
                    text: Text::Made(text),
                },
                served: Some(served),
            },
            Err(NoMemory) => without(Status::NoMemory),
        },
        Hosted::Failed => without(Status::LinkFault),
        Hosted::NoMemory => without(Status::NoMemory),
    }
}

// The server is kept at status 0 alone.
fn keep(status: Status, served: Option<Served>) -> Option<Served>
    ensures ok { status ≡ Status.Ok → result ≡ served }
    ensures none { status ≢ Status.Ok → result ≡ None }
{
    match status {
        Status::Ok => served,
        _ => None,
    }
}

/// The command of a server: accepts the lines that the words ask for, answers the requests of each in a thread of its own, gives
/// all of them back once their workers have ended, and writes seven lines about it. `kept` then has the server; at every status
/// but `Ok` it has none. A fault of a line, or want of memory in its worker, ends that worker alone; its line goes back with all
/// others. Nobody is answered before all lines have come.
///
/// It takes memory for the server and its history, and for each line what `work` says. It returns only if every worker does.
pub fn run_serve<D: Doors, K: Sink, G: Gate + Sync, R: Threads + Wait + Sync>(
    rt: &R,
    alloc: Global,
    words: &[String],
    doors: &mut D,
    gate: &G,
    sink: &mut K,
    kept: &mut Option<Served>,
) -> Status
where
    D::Line: Send + Drop,
    ensures ends { Ends (serve_command (serve_words (map string_bytes words.now))
        (opened_by D.lines D.faults doors.old doors.new) kept.new)
        (given_by K.held K.faults sink.old sink.new) result }
    ensures kept { result ≡ Status.Ok → IsSome kept.new }
    ensures none { result ≢ Status.Ok → kept.new ≡ None }
    ensures complete { IsComplete (serve_command (serve_words (map string_bytes words.now))
        (opened_by D.lines D.faults doors.old doors.new) kept.new)
        (given_by K.held K.faults sink.old sink.new) result }
{
    let Planned { composed, served } = plan(rt, alloc, words, doors, gate);
    let status = finish(sink, composed.status, composed.text.as_slice());
    *kept = keep(status, served);
    status
}
