//! The steps of a client, each made in one place: it is planned or heard, and then kept.

ghost use Rattle.std.specs.Prelude.{◌≡◌, IfOk, IfSome, IsSome, OnOk, OnErr, Some};
ghost use Rattle.vic_rules.specs.Client.{Standing};
ghost use Rattle.vic_client.specs.Kept.{StandsFor, IsSameClient, kept_move, sent_at};
ghost use Rattle.vic_client.specs.Pending.{IsPendingOf, FitsFrame};
ghost use Rattle.vic_client.specs.Shows.{Shows};
ghost use Rattle.vic_session.specs.Stepping.{input_of, IsAsked, MayBeGiven};

use std::alloc::Global;
use vic_client::{Client, Pending, Step};
use vic_dict::{Bytes, NoMemory, Op};
use vic_rules::ObjectCall;

/// What a client is asked for, or a payload that it takes.
#[derive(Clone, Copy)]
pub enum Given<'a> {
    Call(&'a Op),
    Object(&'a ObjectCall),
    Poll,
    Sync,
    Payload(&'a [u8]),
}

// The step that the client is about to make. After want of memory it is as before.
fn plan(alloc: Global, client: &mut Client, given: Given<'_>) -> Result<Pending, NoMemory>
    requires { MayBeGiven given client.old }
    ensures planned { IfOk result (λ p. IsPendingOf client.old p client.new (input_of given.entry)) }
    ensures sends { IsAsked given.entry → IfOk result (λ p. IsSome p.step.send) }
    ensures fits { IfOk result (λ p. IfSome p.step.send FitsFrame) }
    ensures err { OnErr result (client.new ≡ client.old) }
{
    match given {
        Given::Call(op) => client.plan_call(alloc, op),
        Given::Object(call) => client.plan_object(alloc, call),
        Given::Poll => client.plan_poll(alloc),
        Given::Sync => client.plan_sync(alloc),
        Given::Payload(payload) => client.hear(alloc, payload),
    }
}

/// Makes one step of a client. After want of memory the client is as before. A client that is to be saved before it sends is
/// saved here, between the two lines.
pub fn make_step(alloc: Global, client: &mut Client, given: Given<'_>) -> Result<Step, NoMemory>
    requires { MayBeGiven given client.old }
    ensures same { IsSameClient client.old client.new }
    ensures shows { (s : Standing) → StandsFor client.old s → IfOk result (λ r. Shows client.old r client.new (kept_move client.old s (input_of given.entry))) }
    ensures sends { IsAsked given.entry → IfOk result (λ r. IsSome r.send) }
    ensures fits { IfOk result (λ r. IfSome r.send FitsFrame) }
    ensures err { OnErr result (client.new ≡ client.old) }
{
    let pending = plan(alloc, client, given)?;
    let Pending { step, effect } = pending;
    client.keep(effect);
    Ok(step)
}

/// The request of a client that is asked for something. After want of memory the client is as before.
pub fn request_for(alloc: Global, client: &mut Client, given: Given<'_>) -> Result<Bytes, NoMemory>
    requires may { MayBeGiven given client.old }
    requires asks { IsAsked given }
    ensures same { IsSameClient client.old client.new }
    ensures sent { (s : Standing) → StandsFor client.old s → IfOk result (λ b. Some b ≡ sent_at client.old (kept_move client.old s (input_of given.entry))) }
    ensures stands { (s : Standing) → StandsFor client.old s → OnOk result (StandsFor client.new (kept_move client.old s (input_of given.entry)).next) }
    ensures fits { IfOk result FitsFrame }
    ensures err { OnErr result (client.new ≡ client.old) }
{
    let step = make_step(alloc, client, given)?;
    Ok(step.send.unwrap())
}
