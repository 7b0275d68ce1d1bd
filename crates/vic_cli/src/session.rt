//! A session as the command tells it.

ghost use Rattle.std.specs.Prelude.{◌≡◌, ◌++◌, [], OnOk};
ghost use Rattle.vic_rules.specs.Client.{at_start};
ghost use Rattle.vic_client.specs.Kept.{StandsFor, kept_group};
ghost use Rattle.vic_cli.specs.Output.{text_bytes};
ghost use Rattle.vic_cli.specs.Telling.{status_by, end_line, TellsEnd, TellsSession};

use crate::output::{Composed, Text};
use std::alloc::Global;
use vic_client::Client;
use vic_dict::{Bytes, NoMemory};
use vic_ports::Link;
use vic_session::{SessionEnd, run_lines};
use vic_text::{Status, put_bad_line, put_number};
use vic_wire::Digest32;

// The status of a session's end.
fn status_of(end: &SessionEnd) -> Status
    ensures { result ≡ status_by end.now }
{
    match end {
        SessionEnd::Ok => Status::Ok,
        SessionEnd::BadLine(_, _) => Status::BadLine,
        SessionEnd::LinkFault => Status::LinkFault,
        SessionEnd::Halted(_, _) => Status::Halted,
        SessionEnd::BadFrame => Status::BadFrame,
        SessionEnd::GreetingRefused(_) => Status::GreetingRefused,
        SessionEnd::NoMemory => Status::NoMemory,
    }
}

// `halted K HASH`.
fn put_halt(out: &mut Bytes, alloc: Global, check: u8, hash: &Digest32) -> Result<(), NoMemory>
    ensures { OnOk result (out.new ≡ out.old ++ end_line (SessionEnd.Halted check hash.now)) }
{
    let digits = hex::encode(alloc, &hash.bytes)?;
    out.append(b"halted ")?;
    put_number(out, u64::from(check))?;
    out.append(b" ")?;
    out.append(digits.as_bytes())?;
    out.append(b"\n")
}

// `greeting refused R`.
fn put_refusal(out: &mut Bytes, alloc: Global, reason: u8) -> Result<(), NoMemory>
    ensures { OnOk result (out.new ≡ out.old ++ end_line (SessionEnd.GreetingRefused reason)) }
{
    out.append(b"greeting refused ")?;
    put_number(out, u64::from(reason))?;
    out.append(b"\n")
}

// The line that is printed of a session's end.
fn put_end(out: &mut Bytes, alloc: Global, end: &SessionEnd) -> Result<(), NoMemory>
    ensures { OnOk result (out.new ≡ out.old ++ end_line end.now) }
{
    match end {
        SessionEnd::Ok | SessionEnd::NoMemory => Ok(()),
        SessionEnd::BadLine(number, kind) => put_bad_line(out, alloc, *number, *kind),
        SessionEnd::LinkFault => out.append(b"link fault\n"),
        SessionEnd::Halted(check, hash) => put_halt(out, alloc, *check, hash),
        SessionEnd::BadFrame => out.append(b"bad frame\n"),
        SessionEnd::GreetingRefused(reason) => put_refusal(out, alloc, *reason),
    }
}

// What is told of a session's end, behind what it printed.
fn told(alloc: Global, end: &SessionEnd, printed: Bytes) -> Composed
    ensures { TellsEnd end.now printed result.status (text_bytes result.text) }
{
    if matches!(end, SessionEnd::NoMemory) {
        return Composed::of(Status::NoMemory);
    }
    let mut text = printed;
    match put_end(&mut text, alloc, end) {
        Ok(()) => Composed {
            status: status_of(end),
            text: Text::Made(text),
        },
        Err(NoMemory) => Composed::of(Status::NoMemory),
    }
}

/// Does a session, and tells it.
pub fn compose_session<L: Link>(
    alloc: Global,
    client: &mut Client,
    script: &[u8],
    link: &mut L,
) -> Composed
    requires { StandsFor client.old at_start }
    ensures { TellsSession (kept_group client.old) client.old.id script.now (L.told link.old) (L.told link.new) result.status (text_bytes result.text) }
{
    let mut out = Bytes::new(alloc);
    let end = run_lines(alloc, client, script, link, &mut out);
    told(alloc, &end, out)
}
