//! What a call on objects does, step by step: it sends a content, calls an operation of the dictionary, or fetches a content.
//!
//! `specs/Objects.antt` of `vic_rules` has the steps, and each call's contract names its own.
#![tactic(auto)]

ghost use Rattle.std.specs.Prelude.{◌≡◌, ◌↔◌, ◌<◌, ◌≤◌, ◌+◌, IsTrue, IfOk, OnErr, OnOk, length, Some, None};
ghost use Rattle.std.specs.Prelude.{option_map};
ghost use Rattle.std.specs.Int.{w32, from_be_bytes};
ghost use Rattle.vic_dict.specs.declared.limits.TheConstants.{LONGEST_CONTENT};
ghost use Rattle.vic_dict.specs.Dictionary.{IsKey};
ghost use Rattle.vic_dict.specs.declared.op.Answer.TheVariants as answer;
ghost use Rattle.vic_dict.specs.declared.op.Outcome.{Outcome as AnOutcome};
ghost use Rattle.vic_dict.specs.declared.op.Outcome.TheVariants as outcome;
ghost use Rattle.vic_rules.specs.declared.object.Phase.TheVariants as phase;
ghost use Rattle.vic_rules.specs.Objects.{FitsObject, AreBytesInObject, first_step, step_on_kept, step_on_outcome, step_on_decision, step_on_refusal, step_on_answer, step_on_content, is_content_of, is_reference, reference_text, hash_in, length_in, content_hash};

use std::alloc::Global;
use std::marker::Model;
use vic_dict::limits::{LONGEST_CONTENT, LONGEST_KEY};
use vic_dict::{Answer, Bytes, NoMemory, Op, Outcome};
use vic_rules::Phase;
pub use vic_rules::{Next, ObjectCall, ObjectOutcome};
use vic_wire::Digest32;

#[cfg(test)]
mod tests;

/// A call on objects that is open: how far it has come.
#[derive(Debug, Drop)]
pub struct Proxy {
    phase: Phase,
}

impl Model for Proxy {
    ghost use Rattle.vic_rules.specs.declared.object.Phase.{Phase};

    ghost Value = { Phase };

    ghost view = { λ a. a.phase };
}

fn is_key(text: &Bytes) -> bool
    ensures { IsTrue result ↔ IsKey text.now }
{
    0 < text.len() && text.len() <= LONGEST_KEY
}

/// Whether the lengths of the texts of a call on objects are within the limits.
pub fn fits(call: &ObjectCall) -> bool
    ensures { IsTrue result ↔ FitsObject call.now }
{
    match call {
        ObjectCall::Store(name, content) => is_key(name) && content.len() <= LONGEST_CONTENT,
        ObjectCall::Load(name) | ObjectCall::Erase(name) => is_key(name),
        ObjectCall::Names(prefix) => prefix.len() <= LONGEST_KEY,
    }
}

/// What the type says of the numbers of the texts of a call on objects, for a proof: see `Bytes::are_bytes`. It does nothing
/// when it runs.
pub fn are_bytes(call: &ObjectCall)
    ensures { AreBytesInObject call.now }
{
    match call {
        ObjectCall::Store(name, content) => {
            name.are_bytes();
            content.are_bytes();
        }
        ObjectCall::Load(text) | ObjectCall::Erase(text) | ObjectCall::Names(text) => {
            text.are_bytes()
        }
    }
}

/// The bytes of a reference: the hash of a content, and its length.
pub fn reference(alloc: Global, hash: &Digest32, len: u32) -> Result<Bytes, NoMemory>
    ensures { IfOk result (λ b. b ≡ reference_text hash.now.bytes len) }
{
    let mut bytes = Bytes::of(alloc, &hash.bytes)?;
    bytes.append(&len.to_be_bytes())?;
    Ok(bytes)
}

/// Whether a content has this hash and this length. It costs the content, where the length is right.
pub fn is_content(hash: &Digest32, len: u32, content: &[u8]) -> bool
    ensures { result ≡ is_content_of hash.now.bytes len content.now }
{
    content.len() == len as usize && vic_hash::content(content).bytes == hash.bytes
}

impl Proxy {
    /// No call on objects is open.
    pub fn closed() -> Proxy
        ensures { result ≡ phase.Closed }
    {
        Proxy {
            phase: Phase::Closed,
        }
    }

    /// The operation of a call on objects was called.
    pub fn calling() -> Proxy
        ensures { result ≡ phase.Calling }
    {
        Proxy {
            phase: Phase::Calling,
        }
    }

    /// A content is sent that is to be kept under a name. It costs the hash of the content.
    pub fn keeping(alloc: Global, name: &Bytes, content: &[u8]) -> Result<Proxy, NoMemory>
        requires { length content.now ≤ LONGEST_CONTENT }
        ensures { IfOk result (λ p. p ≡ phase.Keeping name.now (record { bytes = content_hash content.now }) (length content.now)) }
    {
        let hash = vic_hash::content(content);
        let name = name.copy(alloc)?;
        Ok(Proxy {
            phase: Phase::Keeping(name, hash, content.len() as u32),
        })
    }

    /// How far the call has come.
    pub fn phase(&self) -> &Phase
        ensures { result.now ≡ self.now }
    {
        &self.phase
    }

    /// A call on objects begins. Of a store it costs the hash of the content, and a copy.
    pub fn begin(alloc: Global, call: &ObjectCall) -> Result<(Proxy, Next), NoMemory>
        requires { FitsObject call.now }
        ensures { IfOk result (λ r. r ≡ first_step call.now) }
    {
        match call {
            ObjectCall::Store(name, content) => {
                let proxy = Proxy::keeping(alloc, name, content.as_slice())?;
                Ok((proxy, Next::Keep(content.copy(alloc)?)))
            }
            ObjectCall::Load(name) => Ok((
                Proxy {
                    phase: Phase::Calling,
                },
                Next::Call(Op::Get(name.copy(alloc)?)),
            )),
            ObjectCall::Erase(name) => Ok((
                Proxy {
                    phase: Phase::Calling,
                },
                Next::Call(Op::Del(name.copy(alloc)?)),
            )),
            ObjectCall::Names(prefix) => Ok((
                Proxy {
                    phase: Phase::Calling,
                },
                Next::Call(Op::List(prefix.copy(alloc)?)),
            )),
        }
    }

    /// The content of a store is kept. After want of memory the call is as before.
    pub fn kept(&mut self, alloc: Global) -> Result<Next, NoMemory>
        ensures ok { IfOk result (λ n. (self.new, n) ≡ step_on_kept self.old) }
        ensures err { OnErr result (self.new ≡ self.old) }
    {
        let op = match &self.phase {
            Phase::Keeping(name, hash, len) => Op::Put(
                name.copy(alloc)?,
                reference(alloc, hash, *len)?,
            ),
            _ => return Ok(Next::Bad),
        };
        self.phase = Phase::Calling;
        Ok(Next::Call(op))
    }

    /// The operation that was called is decided. Where none was, the answer is Bad and the call stands where it stood. After want
    /// of memory the call is as before.
    pub fn outcome(&mut self, alloc: Global, outcome: &Outcome) -> Result<Next, NoMemory>
        ensures ok { IfOk result (λ n. (self.new, n) ≡ step_on_decision self.old outcome.now) }
        ensures err { OnErr result (self.new ≡ self.old) }
    {
        if !matches!(self.phase, Phase::Calling) {
            return Ok(Next::Bad);
        }
        let next = next_of(alloc, outcome)?;
        self.phase = phase_behind(&next);
        Ok(next)
    }

    /// The content that is to be kept, or the operation that was called, is refused. Where neither was asked for, the answer is Bad and
    /// the call stands where it stood. It takes no memory.
    pub fn refused(&mut self, reason: u8) -> Next
        ensures { (self.new, result) ≡ step_on_refusal self.old reason }
    {
        match &self.phase {
            Phase::Keeping(_, _, _) | Phase::Calling => {
                self.phase = Phase::Closed;
                Next::Return(ObjectOutcome::Refused(reason))
            }
            Phase::Closed | Phase::Fetching(_, _) => Next::Bad,
        }
    }

    /// The content that was to be fetched came, or there is none. Where none was to be fetched, the answer is Bad and the call stands
    /// where it stood. It costs the content's hash, where its length is right, and a copy.
    pub fn content(&mut self, alloc: Global, found: Option<&[u8]>) -> Result<Next, NoMemory>
        ensures ok { IfOk result (λ n. (self.new, n) ≡ step_on_content self.old (option_map (λ c. c.now) found.entry)) }
        ensures err { OnErr result (self.new ≡ self.old) }
    {
        let next = match (&self.phase, found) {
            (Phase::Fetching(hash, len), Some(content)) if is_content(hash, *len, content) => {
                Next::Return(ObjectOutcome::Content(Bytes::of(alloc, content)?))
            }
            (Phase::Fetching(_, _), _) => Next::Bad,
            _ => return Ok(Next::Bad),
        };
        self.phase = Phase::Closed;
        Ok(next)
    }
}

/// A number of four bytes.
fn number(bytes: &[u8]) -> u32
    requires { length bytes.now ≡ 4 }
    ensures { result ≡ from_be_bytes w32 bytes.now }
{
    u32::from_be_bytes([bytes[0], bytes[1], bytes[2], bytes[3]])
}

/// The hash and the length that a reference holds.
fn parts_of(value: &[u8]) -> (Digest32, u32)
    requires { length value.now ≡ 36 }
    ensures { (result.0.bytes ≡ hash_in value.now) × (result.1 ≡ length_in value.now) }
{
    let (front, rest) = value.split_at(32);
    let mut hash = Digest32 { bytes: [0; 32] };
    hash.bytes.copy_from_slice(front);
    (hash, number(rest))
}

/// What comes of what a load found.
fn found(value: &[u8]) -> Next
    ensures { result ≡ (step_on_answer (answer.Found value.now)).1 }
{
    if value.len() != 36 {
        return Next::Bad;
    }
    let (hash, len) = parts_of(value);
    Next::Fetch(hash, len)
}

/// What comes of an answer.
fn next_of_answer(alloc: Global, answer: &Answer) -> Result<Next, NoMemory>
    ensures { IfOk result (λ n. n ≡ (step_on_answer answer.now).1) }
{
    Ok(match answer {
        Answer::Stored => Next::Return(ObjectOutcome::Stored),
        Answer::Found(value) => found(value.as_slice()),
        Answer::NotFound => Next::Return(ObjectOutcome::Missing),
        Answer::Removed => Next::Return(ObjectOutcome::Removed),
        Answer::Absent => Next::Return(ObjectOutcome::Absent),
        Answer::Names(names) => Next::Return(ObjectOutcome::Names(names.copy(alloc)?)),
    })
}

/// What comes of an outcome.
fn next_of(alloc: Global, outcome: &Outcome) -> Result<Next, NoMemory>
    ensures { IfOk result (λ n. n ≡ (step_on_outcome outcome.now).1) }
{
    match outcome {
        Outcome::Done(answer) => next_of_answer(alloc, answer),
        Outcome::Aborted(position) => Ok(Next::Return(ObjectOutcome::Aborted(*position))),
        Outcome::Refused(reason) => Ok(Next::Return(ObjectOutcome::Refused(*reason))),
        Outcome::Halted(_) => Ok(Next::Bad),
    }
}

/// How far the call has come that does this next, once its operation was decided.
fn phase_behind(next: &Next) -> Phase
    ensures { (o : AnOutcome) → next.now ≡ (step_on_outcome o).1 → result ≡ (step_on_outcome o).0 }
{
    match next {
        Next::Fetch(hash, len) => Phase::Fetching(*hash, *len),
        _ => Phase::Closed,
    }
}
