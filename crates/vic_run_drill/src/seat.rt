//! A client of a drill, and the message that is under way for it.

ghost use Rattle.std.specs.Prelude.{◌≡◌, ◌<◌, ◌+◌, ◌^◌, ℕ, IsTrue, IfOk, OnErr, OnOk, List, Some};
ghost use Rattle.vic_wire.specs.Hashes.{Group};
ghost use Rattle.vic_rules.specs.declared.trace.TraceStep.{TraceStep};
ghost use Rattle.vic_rules.specs.Client.{Standing};
ghost use Rattle.vic_client.specs.Kept.{StandsFor, IsSameClient, is_idle, kept_move, sent_at};
ghost use Rattle.vic_gen.specs.Drawing.{FitsAct};
ghost use Rattle.vic_run_drill.specs.Running.{is_under_way, sent_on as sent_on_by, input_of};

use std::alloc::Global;
use vic_client::Client;
use vic_dict::{Bytes, Mode, NoMemory, Outcome};
use vic_gen::Act;
use vic_server::{Serve, Served};

/// What is under way between a client and the server. It is one message at most, since a client that awaits an answer asks for
/// nothing else.
#[derive(Debug, Drop)]
pub enum UnderWay {
    Nothing,
    /// A request, which the server is to answer.
    Request(Bytes),
    /// An answer, which the client is to take.
    Answer(Bytes),
}

/// How a message went on.
#[derive(Debug, Drop)]
pub enum Went {
    /// None was under way.
    Nowhere,
    /// The server answered it.
    Answered,
    /// The client took it; here is the outcome of its call, where that is over.
    Taken(Option<Outcome>),
}

/// A client, and what is under way for it.
#[derive(Debug, Drop)]
pub struct Seat {
    /// The client.
    pub client: Client,
    /// Its request, its answer, or nothing.
    pub under_way: UnderWay,
}

/// A client does an act: the payload to send. After want of memory it is as before.
fn ask(alloc: Global, client: &mut Client, act: &Act) -> Result<Bytes, NoMemory>
    requires idle { IsTrue (is_idle client.old) }
    requires plain { client.old.mode ≡ Mode.Plain }
    requires few { client.old.calls + 1 < 2 ^ 32 }
    requires fits { FitsAct act.now }
    ensures same { IsSameClient client.old client.new }
    ensures sent { (s : Standing) → StandsFor client.old s → IfOk result (λ b. Some b ≡ sent_at client.old (kept_move client.old s (input_of act.now))) }
    ensures stands { (s : Standing) → StandsFor client.old s → OnOk result (StandsFor client.new (kept_move client.old s (input_of act.now)).next) }
    ensures err { OnErr result (client.new ≡ client.old) }
{
    match act {
        Act::Poll => client.poll(alloc),
        Act::Call(op) => client.invoke(alloc, op),
    }
}

/// What is under way once a client has made a step that sent this.
fn sent_on(sent: Option<Bytes>) -> UnderWay
    ensures { result ≡ sent_on_by sent }
{
    match sent {
        Some(payload) => UnderWay::Request(payload),
        None => UnderWay::Nothing,
    }
}

impl Seat {
    ghost use Rattle.vic_run_drill.specs.Running.{SeatStands, Steps, Goes};

    /// Whether a message is under way.
    pub fn waits(&self) -> bool
        ensures { result ≡ is_under_way self.now.under_way }
    {
        !matches!(self.under_way, UnderWay::Nothing)
    }

    /// The client acts, for whom nothing is under way: it polls, or calls an operation. After want of memory it is as before.
    pub fn act(&mut self, alloc: Global, act: &Act) -> Result<(), NoMemory>
        requires idle { IsTrue (is_idle self.old.client) }
        requires plain { self.old.client.mode ≡ Mode.Plain }
        requires few { self.old.client.calls + 1 < 2 ^ 32 }
        requires fits { FitsAct act.now }
        ensures ok { (g : Group) (h : List TraceStep) (i : ℕ) → SeatStands g h self.old i → OnOk result (Steps g h i (input_of act.now) self.new) }
        ensures err { OnErr result (self.new ≡ self.old) }
    {
        let sent = ask(alloc, &mut self.client, act)?;
        self.under_way = UnderWay::Request(sent);
        Ok(())
    }

    /// The message that is under way goes on by one step: the server answers it, or the client takes it. After want of memory all
    /// is as before.
    pub fn go_on(&mut self, alloc: Global, served: &mut Served, who: u8) -> Result<Went, NoMemory>
        ensures ok { (g : Group) (h : List TraceStep) → SeatStands g h self.old who → IfOk result (λ w. Goes g h who self.old self.new served.old.server served.new.server w) }
        ensures err { OnErr result (self.new ≡ self.old) }
        ensures err_served { OnErr result (served.new ≡ served.old) }
    {
        match &self.under_way {
            UnderWay::Nothing => Ok(Went::Nowhere),
            UnderWay::Request(request) => {
                let answer = served.serve(alloc, u32::from(who), who, request.as_slice())?;
                self.under_way = UnderWay::Answer(answer);
                Ok(Went::Answered)
            }
            UnderWay::Answer(answer) => {
                let step = self.client.take(alloc, answer.as_slice())?;
                self.under_way = sent_on(step.send);
                Ok(Went::Taken(step.returned))
            }
        }
    }
}
