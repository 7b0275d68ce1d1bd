//! What the server answers.

ghost use Rattle.std.specs.Prelude.{◌≡◌, ◌++◌, length, nat_le, Some, IfSome, OnOk, IfOk};
ghost use Rattle.vic_dict.specs.declared.limits.TheConstants.{LONGEST_CONTENT};
ghost use Rattle.vic_wire.specs.declared.message.ToClient.{ToClient as AnAnswer};
ghost use Rattle.vic_wire.specs.declared.message.ToClient.TheVariants as say;
ghost use Rattle.vic_wire.specs.Messages.{HasSpelling, answer_text};
ghost use Rattle.vic_wire.specs.Reading.{if_allowed, update_at, answer_of_kind, read_answer};
ghost use Rattle.vic_fields.specs.Giving.{Gives};
ghost use Rattle.vic_frames.specs.Kinds.{answer_at, reply_at, listed_at, refused_at};

use crate::fields::{found_or_none, put_entries, put_seal, take_entries, take_seal, whole};
use std::alloc::Global;
use vic_dict::limits::{LONGEST_CONTENT, MOST_TOLD};
use vic_dict::{Bytes, NoMemory};
use vic_fields::{Cut, CutFault, put_bytes, put_u8};
use vic_wire::ToClient;

// ---- reading

fn reply_from(alloc: Global, fields: &[u8]) -> Result<ToClient, CutFault>
    ensures { Gives (λ m. m) result (reply_at fields.now) }
{
    let mut cut = Cut::new(fields);
    let seal = take_seal(&mut cut)?;
    let entries = take_entries(alloc, 1, MOST_TOLD as u16, &mut cut)?;
    let part = Bytes::of(alloc, cut.rest())?;
    Ok(ToClient::Reply {
        seal,
        entries,
        part,
    })
}

#[tactic(auto, unfolding(vic_wire::specs::Reading::update_at))]
fn update_from(alloc: Global, fields: &[u8]) -> Result<ToClient, CutFault>
    ensures { Gives (λ m. m) result (update_at fields.now) }
{
    let mut cut = Cut::new(fields);
    let seal = take_seal(&mut cut)?;
    let part = Bytes::of(alloc, cut.rest())?;
    Ok(ToClient::Update { seal, part })
}

fn entries_from(alloc: Global, fields: &[u8]) -> Result<ToClient, CutFault>
    ensures { Gives (λ m. m) result (listed_at fields.now) }
{
    let mut cut = Cut::new(fields);
    let seal = take_seal(&mut cut)?;
    let entries = take_entries(alloc, 0, MOST_TOLD as u16, &mut cut)?;
    whole(ToClient::Entries { seal, entries }, cut.rest())
}

fn refused_from(fields: &[u8]) -> Result<ToClient, CutFault>
    ensures { Gives (λ m. m) result (refused_at fields.now) }
{
    let mut cut = Cut::new(fields);
    let reason = cut.take_u8()?;
    if !(0 < reason && reason <= 7) {
        return Err(CutFault::Value);
    }
    whole(ToClient::Refused(reason), cut.rest())
}

fn content_from(alloc: Global, fields: &[u8]) -> Result<ToClient, CutFault>
    ensures { Gives (λ m. m) result (if_allowed (nat_le (length fields.now) LONGEST_CONTENT) (say.Content fields.now)) }
{
    if !(fields.len() <= LONGEST_CONTENT) {
        return Err(CutFault::Value);
    }
    Ok(ToClient::Content(Bytes::of(alloc, fields)?))
}

#[tactic(auto, unfolding(vic_wire::specs::Reading::answer_of_kind))]
fn answer_from(alloc: Global, kind: u8, fields: &[u8]) -> Result<ToClient, CutFault>
    ensures { Gives (λ m. m) result (answer_of_kind kind fields.now) }
{
    match kind {
        0x41 => whole(ToClient::Hi, fields),
        0x42 => reply_from(alloc, fields),
        0x43 => whole(ToClient::Wait, fields),
        0x44 => update_from(alloc, fields),
        0x45 => entries_from(alloc, fields),
        0x46 => refused_from(fields),
        0x47 => whole(ToClient::Kept, fields),
        0x48 => content_from(alloc, fields),
        0x49 => whole(ToClient::Gone, fields),
        0x4a => whole(ToClient::Absent, fields),
        _ => Err(CutFault::Value),
    }
}

fn answer_of(alloc: Global, payload: &[u8]) -> Result<ToClient, CutFault>
    ensures { Gives (λ m. m) result (answer_at payload.now) }
{
    let mut cut = Cut::new(payload);
    let kind = cut.take_u8()?;
    answer_from(alloc, kind, cut.rest())
}

/// The answer that the payload spells; none exactly where it spells none. The cost grows with the payload alone.
#[tactic(auto, unfolding(vic_wire::specs::Reading::read_answer))]
pub fn decode_answer(alloc: Global, payload: &[u8]) -> Result<Option<ToClient>, NoMemory>
    // What is read is spelled so.
    ensures found { IfOk result (λ o. IfSome o (λ m. HasSpelling m × (payload.now ≡ answer_text m))) }
    // What is spelled so is read, unless memory runs out.
    ensures only { (m : AnAnswer) → HasSpelling m → payload.now ≡ answer_text m → IfOk result (λ o. o ≡ Some m) }
    ensures exact { IfOk result (λ o. o ≡ read_answer payload.now) }
{
    found_or_none(answer_of(alloc, payload))
}

// ---- writing

fn put_answer(out: &mut Bytes, m: &ToClient) -> Result<(), NoMemory>
    requires { HasSpelling m.now }
    ensures { OnOk result (out.new ≡ out.old ++ answer_text m.now) }
{
    match m {
        ToClient::Hi => put_u8(out, 0x41),
        ToClient::Reply {
            seal,
            entries,
            part,
        } => {
            put_u8(out, 0x42)?;
            put_seal(out, seal)?;
            put_entries(out, entries.as_slice())?;
            put_bytes(out, part.as_slice())
        }
        ToClient::Wait => put_u8(out, 0x43),
        ToClient::Update { seal, part } => {
            put_u8(out, 0x44)?;
            put_seal(out, seal)?;
            put_bytes(out, part.as_slice())
        }
        ToClient::Entries { seal, entries } => {
            put_u8(out, 0x45)?;
            put_seal(out, seal)?;
            put_entries(out, entries.as_slice())
        }
        ToClient::Refused(reason) => put_bytes(out, &[0x46, *reason]),
        ToClient::Kept => put_u8(out, 0x47),
        ToClient::Content(content) => {
            put_u8(out, 0x48)?;
            put_bytes(out, content.as_slice())
        }
        ToClient::Gone => put_u8(out, 0x49),
        ToClient::Absent => put_u8(out, 0x4a),
    }
}

/// The payload that spells the answer.
pub fn encode_answer(alloc: Global, m: &ToClient) -> Result<Bytes, NoMemory>
    requires { HasSpelling m.now }
    ensures { IfOk result (λ b. b ≡ answer_text m.now) }
{
    let mut out = Bytes::new(alloc);
    put_answer(&mut out, m)?;
    Ok(out)
}
