//! The texts of the contents that clients sent to be kept or took.

ghost use Rattle.std.specs.Prelude.{◌≡◌, ◌++◌, IfOk, OnOk};
ghost use Rattle.vic_wire.specs.Texts.{content_text};
ghost use Rattle.vic_rules.specs.History.{IsLawful};
ghost use Rattle.vic_rules.specs.Trust.{content_in};
ghost use Rattle.vic_laws.specs.Meanings.{texts_of_contents};
ghost use Rattle.vic_view.specs.Transcripts.{transcript_group, transcript_history};
ghost use Rattle.vic_view.specs.Replay.{read_by};
ghost use Rattle.vic_view.specs.Making.{request_in};
ghost use Rattle.vic_apart.specs.Contents.{kept_in, contents_at, content_texts};

use std::alloc::Global;
use vic_dict::{Bytes, Names, NoMemory};
use vic_fields::{put_bytes, put_u8};
use vic_frames::decode_request;
use vic_rules::TraceStep;
use vic_view::{Transcript, answer_taken};
use vic_wire::{ToClient, ToServer};

/// The text of a content: 06, and the content.
fn content_text_of(alloc: Global, content: &[u8]) -> Result<Bytes, NoMemory>
    ensures { IfOk result (λ text. text ≡ content_text content.now) }
{
    let mut text = Bytes::new(alloc);
    put_u8(&mut text, 6)?;
    put_bytes(&mut text, content)?;
    Ok(text)
}

/// Puts the text of the content last that was sent to be kept with this payload, if one was.
fn put_sent(alloc: Global, sent: &Option<Bytes>, texts: &mut Names) -> Result<(), NoMemory>
    ensures { OnOk result (texts.new ≡ texts.old ++ content_texts (kept_in (request_in sent.now))) }
{
    let Some(payload) = sent else {
        return Ok(());
    };
    match decode_request(alloc, payload.as_slice())? {
        Some(ToServer::Keep(content)) => texts.push(content_text_of(alloc, content.as_slice())?),
        _ => Ok(()),
    }
}

/// Puts the text of the content last that a client took at a step, if it took one.
fn put_taken(alloc: Global, step: &TraceStep, texts: &mut Names) -> Result<(), NoMemory>
    ensures { OnOk result (texts.new ≡ texts.old ++ content_texts (content_in (read_by step.now.input step.now.returned))) }
{
    match answer_taken(alloc, step)? {
        Some(ToClient::Content(content)) => texts.push(content_text_of(alloc, content.as_slice())?),
        _ => Ok(()),
    }
}

/// Puts the texts of the contents last that a client sent to be kept or took at a step.
pub(crate) fn put_contents_at(
    alloc: Global,
    step: &TraceStep,
    texts: &mut Names,
) -> Result<(), NoMemory>
    ensures { OnOk result (texts.new ≡ texts.old ++ content_texts (contents_at step.now)) }
{
    put_sent(alloc, &step.sent, texts)?;
    put_taken(alloc, step, texts)
}

/// Puts the texts of all contents last that were sent to be kept or taken, from the last step to the first. It costs the transcript.
pub(crate) fn put_contents(alloc: Global, t: &Transcript, texts: &mut Names) -> Result<(), NoMemory>
    requires { IsLawful (transcript_group t.now) (transcript_history t.now) }
    ensures { OnOk result (texts.new ≡ texts.old ++ texts_of_contents (transcript_group t.now) (transcript_history t.now)) }
{
    let steps = t.as_slice();
    let mut left = steps.len();
    while left > 0 {
        left -= 1;
        put_contents_at(alloc, &steps[left], texts)?;
    }
    Ok(())
}
