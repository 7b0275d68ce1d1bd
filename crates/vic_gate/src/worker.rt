//! The worker.

ghost use Rattle.std.specs.Prelude.{◌≡◌, ◌<◌, ◌≤◌, length, IfOk, nat_eq, if◌then◌else◌};
ghost use Rattle.vic_wire.specs.Messages.{HasSpelling, answer_text};
ghost use Rattle.vic_conn.specs.Frames.{frame_text};
ghost use Rattle.vic_gate.specs.Workers.{IsWorked, Waited, Handles, SendsAnswer, greeted_after, by_hello};

use crate::desk::Desk;
use crate::gate::Gate;
use std::alloc::Global;
use std::sync::Wait;
use vic_conn::{FrameFault, FrameReader, frame};
use vic_dict::{Bytes, NoMemory};
use vic_frames::{decode_request, encode_answer};
use vic_ports::{Got, Link, Written, send};
use vic_wire::{ToClient, ToServer};

/// How a worker ended.
#[derive(Clone, Copy, Debug, PartialEq, Eq)]
pub enum WorkEnd {
    /// The link ended between frames.
    Ended,
    /// A read or a write of the link failed, or it ended inside a frame.
    LinkFault,
    /// The next frame's length is 0, or over the limit.
    BadFrame,
    /// Memory ran out.
    NoMemory,
}

// The end of a worker whose link has ended.
fn end_of(reader: &FrameReader) -> WorkEnd
    ensures { result ≡ (if nat_eq (length reader.now) 0 then WorkEnd.Ended else WorkEnd.LinkFault) }
{
    if reader.mid() {
        WorkEnd::LinkFault
    } else {
        WorkEnd::Ended
    }
}

// The next frame of a link: what was fed before comes first.
fn next_frame<L: Link, R: Wait>(
    rt: &R,
    alloc: Global,
    link: &mut L,
    reader: &mut FrameReader,
    buffer: &mut [u8],
) -> Result<Bytes, WorkEnd>
    requires { 0 < length buffer.old }
    ensures { Waited reader.old reader.new (L.told link.old) (L.told link.new) result }
{
    for _ in rt.forever() {
        match reader.take_frame(alloc) {
            Ok(Some(payload)) => return Ok(payload),
            Ok(None) => {}
            Err(FrameFault::Zero) => return Err(WorkEnd::BadFrame),
            Err(FrameFault::TooLong(_)) => return Err(WorkEnd::BadFrame),
            Err(FrameFault::NoMemory) => return Err(WorkEnd::NoMemory),
        }
        match link.read(buffer) {
            Got::Bytes(n) => {
                if reader.feed(&buffer[..n]).is_err() {
                    return Err(WorkEnd::NoMemory);
                }
            }
            Got::End => return Err(end_of(reader)),
            Got::Failed => return Err(WorkEnd::LinkFault),
        }
    }
    unreachable!()
}

// Whom a connection is greeted as, after one more answer.
fn greet(
    alloc: Global,
    greeted: Option<u8>,
    payload: &[u8],
    answer: &ToClient,
) -> Result<Option<u8>, NoMemory>
    ensures { IfOk result (λ g. g ≡ greeted_after greeted payload.now answer.now) }
{
    match (greeted, answer) {
        (None, ToClient::Hi) => match decode_request(alloc, payload)? {
            Some(ToServer::Hello(_, client)) => Ok(Some(client)),
            _ => Ok(None),
        },
        _ => Ok(greeted),
    }
}

// The frame of an answer.
#[tactic(auto, using(vic_bounds::proofs::Lengths::answer_some))]
fn framed(alloc: Global, answer: &ToClient) -> Result<Bytes, NoMemory>
    requires spelled { HasSpelling answer.now }
    requires short { length (answer_text answer.now) ≤ 16777211 }
    ensures { IfOk result (λ text. text ≡ frame_text (answer_text answer.now)) }
{
    let bytes = encode_answer(alloc, answer)?;
    frame(alloc, bytes.as_slice())
}

// Sends an answer, as its frame; the answer itself is let go before.
#[tactic(auto, using(vic_ports::proofs::Told::none_sent))]
fn send_answer<L: Link>(alloc: Global, link: &mut L, answer: ToClient) -> Result<(), WorkEnd>
    requires spelled { HasSpelling answer }
    requires short { length (answer_text answer) ≤ 16777211 }
    ensures { SendsAnswer answer (L.told link.old) result (L.told link.new) }
{
    let Ok(text) = framed(alloc, &answer) else {
        return Err(WorkEnd::NoMemory);
    };
    drop(answer);
    match send(link, text.as_slice()) {
        Written::All => Ok(()),
        Written::Fault => Err(WorkEnd::LinkFault),
        Written::NoMemory => Err(WorkEnd::NoMemory),
    }
}

// Answers one request.
#[tactic(auto, using(vic_ports::proofs::Told::none_sent))]
fn handle<L: Link, D: Desk, G: Gate, R: Wait>(
    rt: &R,
    alloc: Global,
    link: &mut L,
    desk: &D,
    pass: &mut D::Pass,
    gate: &G,
    connection: u32,
    greeted: Option<u8>,
    payload: &[u8],
) -> Result<Option<u8>, WorkEnd>
    requires { D.owns desk.now pass.old }
    ensures owns { D.owns desk.now pass.new }
    ensures given { Handles by_hello (D.answers desk.now) greeted pass.old payload.now (L.told link.old) result (L.told link.new) pass.new }
{
    gate.enter(connection);
    let answer = desk.answer(rt, alloc, pass, greeted.unwrap_or(0), payload);
    gate.leave(connection);
    let Ok(answer) = answer else {
        return Err(WorkEnd::NoMemory);
    };
    let Ok(next) = greet(alloc, greeted, payload, &answer) else {
        return Err(WorkEnd::NoMemory);
    };
    match send_answer(alloc, link, answer) {
        Ok(()) => Ok(next),
        Err(end) => Err(end),
    }
}

/// Answers the frames of a link by a desk, one after the other, until the link ends. Whatever the end is, what was read,
/// served and sent stays.
///
/// It keeps at most two frames each way: of what comes in, what the reader holds and the request in hand, which is a copy; of what
/// goes out, the answer's bytes and the frame made of them. Beside these stand a buffer of 4,096 bytes and, while an answer is formed
/// and framed, its parts. A frame is sent by one write, where the link takes it whole.
pub fn work<L: Link, D: Desk, G: Gate, R: Wait>(
    rt: &R,
    alloc: Global,
    link: &mut L,
    desk: &D,
    pass: &mut D::Pass,
    gate: &G,
    connection: u32,
) -> WorkEnd
    requires { D.owns desk.now pass.old }
    ensures owns { D.owns desk.now pass.new }
    ensures worked { IsWorked by_hello (D.answers desk.now) (L.told link.old) pass.old result (L.told link.new) pass.new }
{
    let mut reader = FrameReader::new(alloc);
    let mut buffer = [0u8; 4096];
    let mut greeted = None;
    for _ in rt.forever() {
        let payload = match next_frame(rt, alloc, link, &mut reader, &mut buffer) {
            Ok(payload) => payload,
            Err(end) => return end,
        };
        let taken = payload.as_slice();
        match handle(
            rt, alloc, link, desk, pass, gate, connection, greeted, taken,
        ) {
            Ok(next) => greeted = next,
            Err(end) => return end,
        }
    }
    unreachable!()
}
