//! The lines of a client's script, each begun and ended.

ghost use Rattle.std.specs.Prelude.{◌≡◌, ◌<◌, ◌≤◌, ◌+◌, ◌^◌, ◌++◌, List, Some, None, ℕ, length, OnOk, OnErr, IfOk, IfSome, IsTrue};
ghost use Rattle.vic_rules.specs.Client.{Standing};
ghost use Rattle.vic_client.specs.Kept.{StandsFor, is_idle};
ghost use Rattle.vic_client.specs.Pending.{FitsFrame};
ghost use Rattle.vic_dict.specs.declared.op.Mode.{Mode as AMode};
ghost use Rattle.vic_text.specs.ClientLines.{client_line_of};
ghost use Rattle.vic_session.specs.Talks.{outcome_line, object_line, outcome_lines, Talk, Talker, state_line, talk_at_next_line, talk_after_line, talk_after_payload, talk_after_asking, talk_with_state, Settles};
ghost use Rattle.vic_rules.specs.declared.trace.Input.TheVariants as input;
ghost use Rattle.vic_session.specs.Talking.{On, IsWithin, IsFine, IsDoing, Stands, GoesTo, Began, Rests, CanBegin, Lined, LinedAt, FitsIn, MaySend, IsBusy, Heard, IsShortOf};
ghost use Rattle.vic_session.specs.declared.place.Place.{Place as APlace};

use crate::place::{At, Place, first_line, line_end};
use crate::stepping::{Given, make_step, request_for};
use std::alloc::Global;
use vic_client::{Client, Step};
use vic_dict::limits::LONGEST_SCRIPT;
use vic_dict::{Bytes, NoMemory, Outcome};
use vic_hash::content;
use vic_rules::ObjectOutcome;
use vic_text::{ClientLine, LineFault, object_text, outcome_text, put_number, read_client_line};

/// What beginning a line comes to.
#[derive(Debug, Drop)]
pub enum Begun {
    /// The next line is begun.
    Next,
    /// The client sends this, and is at this.
    Asks(Bytes, At),
    /// It is no line of such a script.
    Bad,
}

// The line `state sealed S length L unsettled U`.
fn state_text(alloc: Global, client: &Client) -> Result<Bytes, NoMemory>
    ensures { (s : Standing) → StandsFor client.now s → IfOk result (λ text. text ≡ state_line s) }
{
    let mut text = Bytes::new(alloc);
    text.append(b"state sealed ")?;
    put_number(&mut text, u64::from(client.sealed()))?;
    text.append(b" length ")?;
    put_number(&mut text, u64::from(client.length()))?;
    text.append(b" unsettled ")?;
    put_number(&mut text, u64::from(client.unsettled()))?;
    text.append(b"\n")?;
    Ok(text)
}

/// Prints the client's state. Where memory runs out, nothing is printed.
pub fn tell_state(alloc: Global, client: &Client, out: &mut Bytes) -> Result<(), NoMemory>
    ensures ok { (s : Standing) → StandsFor client.now s → OnOk result (out.new ≡ out.old ++ state_line s) }
    ensures err { OnErr result (out.new ≡ out.old) }
{
    let text = state_text(alloc, client)?;
    out.append(text.as_slice())
}

// Begins a settling that polls at most so often.
fn begin_settle(
    alloc: Global,
    client: &mut Client,
    most: u16,
    out: &mut Bytes,
) -> Result<Begun, NoMemory>
    requires idle { IsTrue (is_idle client.old) }
    ensures began { (w : Talker) (t : Talk) (start : List ℕ) (p : APlace) → On w t start client.old p out.old
        → IfOk result (λ b. Began w t start (Some (ClientLine.Settle most)) client.old client.new p out.old out.new b) }
    ensures rests { IfOk result (λ b. Rests b client.old client.new) }
    ensures fits { IfOk result FitsIn }
    ensures err { OnErr result (out.new ≡ out.old) }
    ensures stays { OnErr result (client.new ≡ client.old) }
{
    if most == 0 || client.unsettled() == 0 {
        tell_state(alloc, client, out)?;
        return Ok(Begun::Next);
    }
    let sent = request_for(alloc, client, Given::Poll)?;
    Ok(Begun::Asks(sent, At::Settles(most - 1)))
}

// Begins a line.
fn begin_line(
    alloc: Global,
    client: &mut Client,
    line: &ClientLine,
    out: &mut Bytes,
) -> Result<Begun, NoMemory>
    requires idle { IsTrue (is_idle client.old) }
    requires can { CanBegin line.now client.old.mode }
    requires few { client.old.calls + 1 < 2 ^ 32 }
    ensures began { (w : Talker) (t : Talk) (start : List ℕ) (p : APlace) → On w t start client.old p out.old → t.now.calls + 1 ≤ p.number
        → IfOk result (λ b. Began w t start (Some line.now) client.old client.new p out.old out.new b) }
    ensures rests { IfOk result (λ b. Rests b client.old client.new) }
    ensures fits { IfOk result FitsIn }
    ensures err { OnErr result (out.new ≡ out.old) }
    ensures stays { OnErr result (client.new ≡ client.old) }
{
    match line {
        ClientLine::Skip => Ok(Begun::Next),
        ClientLine::Call(op) => {
            Ok(Begun::Asks(request_for(alloc, client, Given::Call(op))?, At::Calls))
        }
        ClientLine::Object(call) => {
            Ok(Begun::Asks(request_for(alloc, client, Given::Object(call))?, At::Calls))
        }
        ClientLine::Poll => { Ok(Begun::Asks(request_for(alloc, client, Given::Poll)?, At::Tells)) }
        ClientLine::Sync => { Ok(Begun::Asks(request_for(alloc, client, Given::Sync)?, At::Tells)) }
        ClientLine::Settle(most) => begin_settle(alloc, client, *most, out),
    }
}

// Begins the line that a text spells.
fn begin(
    alloc: Global,
    client: &mut Client,
    text: &[u8],
    out: &mut Bytes,
) -> Result<Begun, NoMemory>
    requires idle { IsTrue (is_idle client.old) }
    requires few { client.old.calls + 1 < 2 ^ 32 }
    ensures began { (w : Talker) (t : Talk) (start : List ℕ) (p : APlace) → On w t start client.old p out.old → t.now.calls + 1 ≤ p.number
        → IfOk result (λ b. Began w t start (client_line_of w.group.mode text.now) client.old client.new p out.old out.new b) }
    ensures rests { IfOk result (λ b. Rests b client.old client.new) }
    ensures fits { IfOk result FitsIn }
    ensures err { OnErr result (out.new ≡ out.old) }
    ensures stays { OnErr result (client.new ≡ client.old) }
{
    match read_client_line(alloc, text, client.mode()) {
        Ok(line) => begin_line(alloc, client, &line, out),
        Err(LineFault::Grammar) => Ok(Begun::Bad),
        Err(LineFault::NoMemory) => Err(NoMemory),
    }
}

// Begins the next line.
fn do_line(
    alloc: Global,
    client: &mut Client,
    place: &mut Place<'_>,
    out: &mut Bytes,
) -> Result<Begun, NoMemory>
    requires some { 0 < length place.old.rest.now }
    requires idle { IsTrue (is_idle client.old) }
    requires few { client.old.calls ≤ place.old.number }
    requires within { IsWithin place.old }
    requires total { place.old.total < 2 ^ 63 }
    ensures lined { (w : Talker) (t : Talk) (start : List ℕ) → On w t start client.old place.old out.old → IfOk result (λ b. Lined w t start client.new place.new out.new b) }
    ensures at { IfOk result (λ b. LinedAt b place.new) }
    ensures total { place.new.total ≡ place.old.total }
    ensures number { place.new.number ≡ place.old.number + 1 }
    ensures fewer { length place.new.rest.now < length place.old.rest.now }
    ensures rests { IfOk result (λ b. Rests b client.old client.new) }
    ensures fits { IfOk result FitsIn }
    ensures err { OnErr result (out.new ≡ out.old) }
    ensures stays { OnErr result (client.new ≡ client.old) }
{
    let (text, others) = first_line(place.rest);
    place.behind = line_end(place.total, place.behind, text);
    place.number += 1;
    place.rest = others;
    if LONGEST_SCRIPT < place.behind {
        place.doing = At::Bad(7);
        return Ok(Begun::Bad);
    }
    match begin(alloc, client, text, out)? {
        Begun::Next => Ok(Begun::Next),
        Begun::Asks(sent, doing) => {
            place.doing = doing;
            Ok(Begun::Asks(sent, doing))
        }
        Begun::Bad => {
            place.doing = At::Bad(1);
            Ok(Begun::Bad)
        }
    }
}

/// Begins lines until the client sends something, or no line is left, or one is bad. What is to be sent is answered.
pub fn go_on(
    alloc: Global,
    client: &mut Client,
    place: &mut Place<'_>,
    out: &mut Bytes,
) -> Result<Option<Bytes>, NoMemory>
    requires idle { IsTrue (is_idle client.old) }
    requires few { client.old.calls ≤ place.old.number }
    requires within { IsWithin place.old }
    requires total { place.old.total < 2 ^ 63 }
    ensures went { (w : Talker) (t : Talk) (start : List ℕ) → On w t start client.old place.old out.old → GoesTo w t (talk_at_next_line w t t.lines) start client.new place.new out.new result }
    ensures fine { IfOk result (λ sent. IsFine place.new.doing place.new) }
    ensures sends { IfOk result (λ sent. MaySend place.new.doing sent) }
    ensures fits { IfOk result (λ sent. IfSome sent FitsFrame) }
    ensures total { place.new.total ≡ place.old.total }
    ensures stays { OnErr result (client.new ≡ client.old) }
{
    while !place.rest.is_empty() {
        match do_line(alloc, client, place, out) {
            Ok(Begun::Next) => {}
            Ok(Begun::Asks(sent, _)) => return Ok(Some(sent)),
            Ok(Begun::Bad) => return Ok(None),
            Err(NoMemory) => return Err(NoMemory),
        }
    }
    place.doing = At::Leaves;
    Ok(None)
}

// The state is told, and the next lines are begun.
fn tell_and_go(
    alloc: Global,
    client: &mut Client,
    place: &mut Place<'_>,
    out: &mut Bytes,
) -> Result<Option<Bytes>, NoMemory>
    requires idle { IsTrue (is_idle client.old) }
    requires few { client.old.calls ≤ place.old.number }
    requires within { IsWithin place.old }
    requires total { place.old.total < 2 ^ 63 }
    ensures went { (w : Talker) (t : Talk) (start : List ℕ) → On w t start client.old place.old out.old → GoesTo w t (talk_at_next_line w (talk_with_state t) t.lines) start client.new place.new out.new result }
    ensures fine { IfOk result (λ sent. IsFine place.new.doing place.new) }
    ensures sends { IfOk result (λ sent. MaySend place.new.doing sent) }
    ensures fits { IfOk result (λ sent. IfSome sent FitsFrame) }
    ensures total { place.new.total ≡ place.old.total }
    ensures stays { OnErr result (client.new ≡ client.old) }
{
    match tell_state(alloc, client, out) {
        Ok(()) => go_on(alloc, client, place, out),
        Err(NoMemory) => Err(NoMemory),
    }
}

// It polls once more, and so many times more at most.
fn poll_again(
    alloc: Global,
    client: &mut Client,
    place: &mut Place<'_>,
    left: u16,
) -> Result<Option<Bytes>, NoMemory>
    requires idle { IsTrue (is_idle client.old) }
    requires few { client.old.calls ≤ place.old.number }
    requires within { IsWithin place.old }
    ensures went { (w : Talker) (t : Talk) (start out : List ℕ) → On w t start client.old place.old out → GoesTo w t (talk_after_asking w t input.Poll (Settles left)) start client.new place.new out result }
    ensures fine { IfOk result (λ sent. IsFine place.new.doing place.new) }
    ensures sends { IfOk result (λ sent. MaySend place.new.doing sent) }
    ensures fits { IfOk result (λ sent. IfSome sent FitsFrame) }
    ensures total { place.new.total ≡ place.old.total }
    ensures stays { OnErr result (client.new ≡ client.old) }
{
    match request_for(alloc, client, Given::Poll) {
        Ok(sent) => {
            place.doing = At::Settles(left);
            Ok(Some(sent))
        }
        Err(NoMemory) => Err(NoMemory),
    }
}

// What the client is at is over: the next lines are begun, or it polls again.
fn end_line(
    alloc: Global,
    client: &mut Client,
    place: &mut Place<'_>,
    out: &mut Bytes,
) -> Result<Option<Bytes>, NoMemory>
    requires idle { IsTrue (is_idle client.old) }
    requires few { client.old.calls ≤ place.old.number }
    requires busy { IsBusy place.old.doing }
    requires within { IsWithin place.old }
    requires total { place.old.total < 2 ^ 63 }
    ensures went { (w : Talker) (t : Talk) (start : List ℕ) → On w t start client.old place.old out.old → IsDoing place.old.doing t.doing → GoesTo w t (talk_after_line w t t.doing) start client.new place.new out.new result }
    ensures fine { IfOk result (λ sent. IsFine place.new.doing place.new) }
    ensures sends { IfOk result (λ sent. MaySend place.new.doing sent) }
    ensures fits { IfOk result (λ sent. IfSome sent FitsFrame) }
    ensures total { place.new.total ≡ place.old.total }
    ensures stays { OnErr result (client.new ≡ client.old) }
{
    match place.doing {
        At::Calls => go_on(alloc, client, place, out),
        At::Settles(left) => {
            if left == 0 {
                return tell_and_go(alloc, client, place, out);
            }
            if client.unsettled() == 0 {
                return tell_and_go(alloc, client, place, out);
            }
            poll_again(alloc, client, place, left - 1)
        }
        _ => tell_and_go(alloc, client, place, out),
    }
}

// The line of a call's outcome, if there is one.
fn outcome_line_of(alloc: Global, returned: &Option<Outcome>) -> Result<Bytes, NoMemory>
    ensures { IfOk result (λ text. text ≡ outcome_line returned.now) }
{
    let Some(outcome) = returned else {
        return Ok(Bytes::new(alloc));
    };
    let mut text = outcome_text(alloc, outcome)?;
    text.append(b"\n")?;
    Ok(text)
}

// The line of the outcome of a call on objects, if there is one.
fn object_line_of(alloc: Global, object: &Option<ObjectOutcome>) -> Result<Bytes, NoMemory>
    ensures { IfOk result (λ text. text ≡ object_line object.now) }
{
    let Some(outcome) = object else {
        return Ok(Bytes::new(alloc));
    };
    let mut text = object_text(alloc, outcome)?;
    text.append(b"\n")?;
    Ok(text)
}

// What is printed of the outcomes of a step: that of a call, and then that of a call on objects. Where memory runs out, nothing is.
fn tell_outcomes(
    alloc: Global,
    returned: &Option<Outcome>,
    object: &Option<ObjectOutcome>,
    out: &mut Bytes,
) -> Result<(), NoMemory>
    ensures ok { OnOk result (out.new ≡ out.old ++ outcome_lines None returned.now object.now) }
    ensures err { OnErr result (out.new ≡ out.old) }
{
    let mut text = outcome_line_of(alloc, returned)?;
    let more = object_line_of(alloc, object)?;
    text.append(more.as_slice())?;
    out.append(text.as_slice())
}

// What follows a step on a payload: the client has halted; or it sends something, or awaits another answer; or what it was at
// is over.
fn hear_step(
    alloc: Global,
    client: &mut Client,
    place: &mut Place<'_>,
    payload: &[u8],
    step: Step,
    out: &mut Bytes,
) -> Result<Option<Bytes>, NoMemory>
    requires fits { IfSome step.send FitsFrame }
    requires few { client.old.calls ≤ place.old.number }
    requires busy { IsBusy place.old.doing }
    requires within { IsWithin place.old }
    requires total { place.old.total < 2 ^ 63 }
    ensures went { (w : Talker) (t : Talk) (start : List ℕ) → Heard w t start payload.now step client.old place.old out.old → GoesTo w t (talk_after_payload w t payload.now) start client.new place.new out.new result }
    ensures fine { IfOk result (λ sent. IsFine place.new.doing place.new) }
    ensures sends { IfOk result (λ sent. MaySend place.new.doing sent) }
    ensures fits { IfOk result (λ sent. IfSome sent FitsFrame) }
    ensures total { place.new.total ≡ place.old.total }
    ensures stays { OnErr result (client.new ≡ client.old) }
{
    if let Some(check) = client.halted() {
        place.doing = At::Halts(check, content(payload));
        return Ok(None);
    }
    let Step {
        send,
        returned,
        object,
    } = step;
    match tell_outcomes(alloc, &returned, &object, out) {
        Ok(()) => (),
        Err(NoMemory) => return Err(NoMemory),
    }
    match send {
        Some(sent) => Ok(Some(sent)),
        None => {
            if client.idle() {
                end_line(alloc, client, place, out)
            } else {
                Ok(None)
            }
        }
    }
}

/// The client takes an answer; what is to be sent then is answered.
pub fn hear(
    alloc: Global,
    client: &mut Client,
    place: &mut Place<'_>,
    payload: &[u8],
    out: &mut Bytes,
) -> Result<Option<Bytes>, NoMemory>
    requires stands { Stands client.old place.old.number }
    requires busy { IsBusy place.old.doing }
    requires within { IsWithin place.old }
    requires total { place.old.total < 2 ^ 63 }
    ensures went { (w : Talker) (t : Talk) (start : List ℕ) → On w t start client.old place.old out.old → IsDoing place.old.doing t.doing → GoesTo w t (talk_after_payload w t payload.now) start client.new place.new out.new result }
    ensures fine { IfOk result (λ sent. IsFine place.new.doing place.new) }
    ensures sends { IfOk result (λ sent. MaySend place.new.doing sent) }
    ensures fits { IfOk result (λ sent. IfSome sent FitsFrame) }
    ensures total { place.new.total ≡ place.old.total }
    ensures short { (w : Talker) (t : Talk) (start : List ℕ) → On w t start client.old place.old out.old → IsDoing place.old.doing t.doing → OnErr result (IsShortOf w t payload.now client.new) }
{
    match make_step(alloc, client, Given::Payload(payload)) {
        Ok(step) => hear_step(alloc, client, place, payload, step, out),
        Err(NoMemory) => Err(NoMemory),
    }
}
