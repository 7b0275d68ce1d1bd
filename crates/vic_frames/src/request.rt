//! What a client sends.

ghost use Rattle.std.specs.Prelude.{◌≡◌, [], ◌∷◌, ◌++◌, length, nat_le, Some, IfSome, OnOk, IfOk};
ghost use Rattle.std.specs.Int.{w32, to_be_bytes};
ghost use Rattle.vic_dict.specs.declared.limits.TheConstants.{LONGEST_CONTENT};
ghost use Rattle.vic_dict.specs.Dictionary.{Fits};
ghost use Rattle.vic_wire.specs.declared.message.ToServer.{ToServer as ARequest};
ghost use Rattle.vic_wire.specs.declared.message.ToServer.TheVariants as ask;
ghost use Rattle.vic_wire.specs.Texts.{op_text, mode_byte, status_byte};
ghost use Rattle.vic_wire.specs.Messages.{HasRequestSpelling, request_text};
ghost use Rattle.vic_wire.specs.Reading.{if_allowed, mode_of, hello_at, invoke_at, commit_at, seal_request_at, sync_at, fetch_at, request_of_kind, read_request};
ghost use Rattle.vic_fields.specs.Giving.{Gives};
ghost use Rattle.vic_frames.specs.Kinds.{request_at};

use crate::fields::{found_or_none, whole};
use std::alloc::Global;
use vic_dict::limits::LONGEST_CONTENT;
use vic_dict::{Bytes, Mode, NoMemory, Op};
use vic_fields::{Cut, CutFault, put_bytes, put_digest, put_op, put_u8, put_u32};
use vic_wire::{Digest32, ToServer};

// ---- reading

fn mode_from(byte: u8) -> Result<Mode, CutFault>
    ensures { Gives (λ m. m) result (mode_of byte) }
{
    match byte {
        0 => Ok(Mode::Plain),
        1 => Ok(Mode::Objects),
        _ => Err(CutFault::Value),
    }
}

#[tactic(auto, unfolding(vic_wire::specs::Reading::hello_at))]
fn hello_from(fields: &[u8]) -> Result<ToServer, CutFault>
    ensures { Gives (λ m. m) result (hello_at fields.now) }
{
    let mut cut = Cut::new(fields);
    let version = cut.take_u8()?;
    if version != 1 {
        return Err(CutFault::Value);
    }
    let kind = cut.take_u8()?;
    let mode = mode_from(kind)?;
    let client = cut.take_u8()?;
    whole(ToServer::Hello(mode, client), cut.rest())
}

#[tactic(auto, unfolding(vic_wire::specs::Reading::invoke_at))]
fn invoke_from(alloc: Global, fields: &[u8]) -> Result<ToServer, CutFault>
    ensures { Gives (λ m. m) result (invoke_at fields.now) }
{
    let mut cut = Cut::new(fields);
    let known = cut.take_u32()?;
    let seq = cut.take_u32()?;
    if !(0 < seq) {
        return Err(CutFault::Value);
    }
    let op = cut.take_op(alloc)?;
    let tag = cut.take_digest()?;
    whole(
        ToServer::Invoke {
            known,
            seq,
            op,
            tag,
        },
        cut.rest(),
    )
}

#[tactic(auto, unfolding(vic_wire::specs::Reading::commit_at))]
fn commit_from(fields: &[u8]) -> Result<ToServer, CutFault>
    ensures { Gives (λ m. m) result (commit_at fields.now) }
{
    let mut cut = Cut::new(fields);
    let position = cut.take_u32()?;
    if !(0 < position) {
        return Err(CutFault::Value);
    }
    let status = cut.take_u8()?;
    if !(status <= 1) {
        return Err(CutFault::Value);
    }
    let tag = cut.take_digest()?;
    let done = status == 0;
    whole(
        ToServer::Commit {
            position,
            done,
            tag,
        },
        cut.rest(),
    )
}

#[tactic(auto, unfolding(vic_wire::specs::Reading::seal_request_at))]
fn seal_from(fields: &[u8]) -> Result<ToServer, CutFault>
    ensures { Gives (λ m. m) result (seal_request_at fields.now) }
{
    let mut cut = Cut::new(fields);
    let position = cut.take_u32()?;
    if !(0 < position) {
        return Err(CutFault::Value);
    }
    let root = cut.take_digest()?;
    let tag = cut.take_digest()?;
    whole(
        ToServer::Seal {
            position,
            root,
            tag,
        },
        cut.rest(),
    )
}

#[tactic(auto, unfolding(vic_wire::specs::Reading::sync_at))]
fn sync_from(fields: &[u8]) -> Result<ToServer, CutFault>
    ensures { Gives (λ m. m) result (sync_at fields.now) }
{
    let mut cut = Cut::new(fields);
    let known = cut.take_u32()?;
    whole(ToServer::Sync(known), cut.rest())
}

fn keep_from(alloc: Global, fields: &[u8]) -> Result<ToServer, CutFault>
    ensures { Gives (λ m. m) result (if_allowed (nat_le (length fields.now) LONGEST_CONTENT) (ask.Keep fields.now)) }
{
    if !(fields.len() <= LONGEST_CONTENT) {
        return Err(CutFault::Value);
    }
    Ok(ToServer::Keep(Bytes::of(alloc, fields)?))
}

#[tactic(auto, unfolding(vic_wire::specs::Reading::fetch_at))]
fn fetch_from(fields: &[u8]) -> Result<ToServer, CutFault>
    ensures { Gives (λ m. m) result (fetch_at fields.now) }
{
    let mut cut = Cut::new(fields);
    let hash = cut.take_digest()?;
    whole(ToServer::Fetch(hash), cut.rest())
}

#[tactic(auto, unfolding(vic_wire::specs::Reading::request_of_kind))]
fn request_from(alloc: Global, kind: u8, fields: &[u8]) -> Result<ToServer, CutFault>
    ensures gives { Gives (λ m. m) result (request_of_kind kind fields.now) }
    ensures poll { kind ≡ 0x24 → fields.now ≡ [] → result ≡ Ok ask.Poll }
{
    match kind {
        0x21 => hello_from(fields),
        0x22 => invoke_from(alloc, fields),
        0x23 => commit_from(fields),
        0x24 => whole(ToServer::Poll, fields),
        0x25 => seal_from(fields),
        0x26 => sync_from(fields),
        0x27 => keep_from(alloc, fields),
        0x28 => fetch_from(fields),
        0x29 => whole(ToServer::Bye, fields),
        _ => Err(CutFault::Value),
    }
}

fn request_of(alloc: Global, payload: &[u8]) -> Result<ToServer, CutFault>
    ensures gives { Gives (λ m. m) result (request_at payload.now) }
    ensures poll { payload.now ≡ 0x24 ∷ [] → result ≡ Ok ask.Poll }
{
    let mut cut = Cut::new(payload);
    let kind = cut.take_u8()?;
    request_from(alloc, kind, cut.rest())
}

/// The request that the payload spells; none exactly where it spells none. The cost grows with the payload alone.
#[tactic(auto, unfolding(vic_wire::specs::Reading::read_request))]
pub fn decode_request(alloc: Global, payload: &[u8]) -> Result<Option<ToServer>, NoMemory>
    // What is read is spelled so.
    ensures found { IfOk result (λ o. IfSome o (λ m. HasRequestSpelling m × (payload.now ≡ request_text m))) }
    // What is spelled so is read, unless memory runs out.
    ensures only { (m : ARequest) → HasRequestSpelling m → payload.now ≡ request_text m → IfOk result (λ o. o ≡ Some m) }
    ensures exact { IfOk result (λ o. o ≡ read_request payload.now) }
    // A Poll takes no memory.
    ensures poll { payload.now ≡ 0x24 ∷ [] → result ≡ Ok (Some ask.Poll) }
{
    found_or_none(request_of(alloc, payload))
}

// ---- writing

fn put_hello(out: &mut Bytes, mode: Mode, client: u8) -> Result<(), NoMemory>
    ensures { OnOk result (out.new ≡ out.old ++ 0x21 ∷ 1 ∷ mode_byte mode ∷ client ∷ []) }
{
    let kind = match mode {
        Mode::Plain => 0,
        Mode::Objects => 1,
    };
    put_bytes(out, &[0x21, 1, kind, client])
}

fn put_invoke(
    out: &mut Bytes,
    known: u32,
    seq: u32,
    op: &Op,
    tag: &Digest32,
) -> Result<(), NoMemory>
    requires { Fits op.now }
    ensures { OnOk result (out.new ≡ out.old ++ 0x22 ∷ to_be_bytes w32 known ++ to_be_bytes w32 seq ++ op_text op.now ++ tag.now.bytes) }
{
    put_u8(out, 0x22)?;
    put_u32(out, known)?;
    put_u32(out, seq)?;
    put_op(out, op)?;
    put_digest(out, tag)
}

fn put_commit(out: &mut Bytes, position: u32, done: bool, tag: &Digest32) -> Result<(), NoMemory>
    ensures { OnOk result (out.new ≡ out.old ++ 0x23 ∷ to_be_bytes w32 position ++ status_byte done ∷ tag.now.bytes) }
{
    put_u8(out, 0x23)?;
    put_u32(out, position)?;
    put_u8(out, if done { 0 } else { 1 })?;
    put_digest(out, tag)
}

fn put_seal_request(
    out: &mut Bytes,
    position: u32,
    root: &Digest32,
    tag: &Digest32,
) -> Result<(), NoMemory>
    ensures { OnOk result (out.new ≡ out.old ++ 0x25 ∷ to_be_bytes w32 position ++ root.now.bytes ++ tag.now.bytes) }
{
    put_u8(out, 0x25)?;
    put_u32(out, position)?;
    put_digest(out, root)?;
    put_digest(out, tag)
}

fn put_request(out: &mut Bytes, m: &ToServer) -> Result<(), NoMemory>
    requires { HasRequestSpelling m.now }
    ensures { OnOk result (out.new ≡ out.old ++ request_text m.now) }
{
    match m {
        ToServer::Hello(mode, client) => put_hello(out, *mode, *client),
        ToServer::Invoke {
            known,
            seq,
            op,
            tag,
        } => put_invoke(out, *known, *seq, op, tag),
        ToServer::Commit {
            position,
            done,
            tag,
        } => put_commit(out, *position, *done, tag),
        ToServer::Poll => put_u8(out, 0x24),
        ToServer::Seal {
            position,
            root,
            tag,
        } => put_seal_request(out, *position, root, tag),
        ToServer::Sync(known) => {
            put_u8(out, 0x26)?;
            put_u32(out, *known)
        }
        ToServer::Keep(content) => {
            put_u8(out, 0x27)?;
            put_bytes(out, content.as_slice())
        }
        ToServer::Fetch(hash) => {
            put_u8(out, 0x28)?;
            put_digest(out, hash)
        }
        ToServer::Bye => put_u8(out, 0x29),
    }
}

/// The payload that spells the request.
pub fn encode_request(alloc: Global, m: &ToServer) -> Result<Bytes, NoMemory>
    requires { HasRequestSpelling m.now }
    ensures { IfOk result (λ b. b ≡ request_text m.now) }
{
    let mut out = Bytes::new(alloc);
    put_request(&mut out, m)?;
    Ok(out)
}
