//! Sending one request over a link, and reading one answer.

ghost use Rattle.std.specs.Prelude.{◌≡◌, ◌<◌, length, IfSome};
ghost use Rattle.vic_client.specs.Pending.{FitsFrame};
ghost use Rattle.vic_session.specs.Wires.{SendsText, Receives, Asks, frames};
ghost use Rattle.vic_session.specs.Talks.{one_of};

use std::alloc::Global;
use vic_conn::{FrameFault, FrameReader, frame};
use vic_dict::Bytes;
use vic_ports::{Got, Link, Written, send};

/// Why no answer came.
#[derive(Clone, Copy, Debug, PartialEq, Eq)]
pub enum WireFault {
    /// A read or a write of the link failed, or it ended.
    Link,
    /// A frame's length is 0, or over the limit.
    Length,
    NoMemory,
}

// Sends a payload, if there is one.
#[tactic(auto, using(vic_ports::proofs::Told::none_sent, vic_ports::proofs::Told::none_all, crate::proofs::Told::frames_one))]
fn send_one<L: Link>(alloc: Global, link: &mut L, request: &Option<Bytes>) -> Result<(), WireFault>
    requires { IfSome request.now FitsFrame }
    ensures { SendsText (frames (one_of request.now)) (L.told link.old) result (L.told link.new) }
{
    let Some(payload) = request else {
        return Ok(());
    };
    let Ok(text) = frame(alloc, payload.as_slice()) else {
        return Err(WireFault::NoMemory);
    };
    match send(link, text.as_slice()) {
        Written::All => Ok(()),
        Written::Fault => Err(WireFault::Link),
        Written::NoMemory => Err(WireFault::NoMemory),
    }
}

// The next frame of a link: what was fed before comes first.
fn receive<L: Link>(
    alloc: Global,
    link: &mut L,
    reader: &mut FrameReader,
    buffer: &mut [u8],
) -> Result<Bytes, WireFault>
    requires { 0 < length buffer.old }
    ensures { Receives reader.old reader.new (L.told link.old) (L.told link.new) result }
{
    // Fewer than 16,777,220 bytes wait for more, and each read gives at least one.
    'reads: loop {
        match reader.take_frame(alloc) {
            Ok(Some(payload)) => return Ok(payload),
            Ok(None) => {}
            Err(FrameFault::Zero) => return Err(WireFault::Length),
            Err(FrameFault::TooLong(_)) => return Err(WireFault::Length),
            Err(FrameFault::NoMemory) => return Err(WireFault::NoMemory),
        }
        match link.read(buffer) {
            Got::Bytes(n) => {
                if reader.feed(&buffer[..n]).is_err() {
                    return Err(WireFault::NoMemory);
                }
            }
            Got::End | Got::Failed => return Err(WireFault::Link),
        }
    }
}

/// Sends a request, if there is one, in one piece, and reads one answer, in whatever pieces it comes, through the buffer. What
/// was fed to the reader and not taken comes first. All that a session exchanges goes through here: the greeting, the requests
/// of its lines, and the leave.
pub fn ask<L: Link>(
    alloc: Global,
    link: &mut L,
    reader: &mut FrameReader,
    buffer: &mut [u8],
    request: &Option<Bytes>,
) -> Result<Bytes, WireFault>
    requires fits { IfSome request.now FitsFrame }
    requires room { 0 < length buffer.old }
    ensures { Asks request.now reader.old reader.new (L.told link.old) (L.told link.new) result }
{
    send_one(alloc, link, request)?;
    receive(alloc, link, reader, buffer)
}
