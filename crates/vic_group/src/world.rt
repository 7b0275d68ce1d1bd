//! A world of clients and servers, in which a script's lines happen.

ghost use Rattle.std.specs.Prelude.{◌≡◌, ◌≢◌, ◌<◌, ◌≤◌, ◌+◌, ◌++◌, ◌&&◌, ◌↔◌, ℕ, true, false, nat_lt, nat_le, [], ◌∷◌, length, OnOk, OnErr, IfOk, Ok, Err, Some, None, MatchResult, IsTrue, is_some, slice_get, ◌-◌};
ghost use Rattle.vic_dict.specs.declared.limits.TheConstants.{MOST_CLIENTS};
ghost use Rattle.vic_order.specs.Serving.{AnswersAs};
ghost use Rattle.vic_rules.specs.declared.trace.Input.TheVariants as input;
ghost use Rattle.vic_rules.specs.History.{IsLawful};
ghost use Rattle.vic_rules.specs.Trust.{IsForged};
ghost use Rattle.vic_dict.specs.Dictionary.{Fits};
ghost use Rattle.vic_rules.specs.Objects.{FitsObject};
ghost use Rattle.vic_order.specs.Order.{fresh_server, ready_member, same_mode};
ghost use Rattle.vic_group.specs.declared.member.Member.{Member as AMember};
ghost use Rattle.vic_text.specs.BadKinds.{bad_number};
ghost use Rattle.vic_group.specs.World.{HasBytes, end_by_waiting};
ghost use Rattle.vic_script.specs.declared.line.Line.TheVariants as line;
ghost use Rattle.vic_script.specs.Lines.{is_server_number};
ghost use Rattle.vic_order.specs.Scenes.{SceneOf, opening_with, after_step, after_serving, waits_in, has_byte, server_at, Takes, Flips, Hears};
ghost use Rattle.vic_script.specs.Scenes.{done_line, bad_kind, events_of_turns, fits_op, fits_object, is_honest_line};
ghost use Rattle.vic_script.specs.Print.{end_text, is_forged};

use crate::member::Member;
use crate::objects;
use crate::opening::entered_all;
use crate::servers::Servers;
use std::alloc::Global;
use thiserror::Error;
use vic_dict::limits::MOST_CLIENTS;
use vic_dict::{Bytes, Mode, NoMemory, Op};
use vic_rules::ObjectCall;
use vic_script::Line;
use vic_server::Serve;
use vic_tag::GroupKey;
use vic_text::BadKind;
use vic_view::{Input, Transcript, put_end};

/// The most turns of a run.
const MOST_TURNS: u32 = 2100;

/// Why a line was not done.
#[derive(Clone, Copy, Debug, PartialEq, Eq, Error)]
pub enum WorldFault {
    /// The line is bad by the kind of this number (`BadKind::number`); nothing changed.
    #[error("a bad line of kind {0}")]
    Bad(u8),
    #[error("no memory")]
    NoMemory,
}

impl From<NoMemory> for WorldFault {
    ghost use Rattle.vic_group.specs.declared.world.WorldFault.TheVariants as fault;

    ghost from_gives = { λ _ e. e ≡ fault.NoMemory };

    fn from(_cause: NoMemory) -> WorldFault {
        WorldFault::NoMemory
    }
}

/// Why a line of this kind was not done.
fn bad(kind: BadKind) -> WorldFault
    ensures { result ≡ WorldFault.Bad (bad_number kind) }
{
    WorldFault::Bad(kind.number())
}

/// How a line ends of which something went; or nothing did, since nothing waited.
fn waited(went: bool) -> Result<(), WorldFault>
    ensures { result ≡ end_by_waiting went }
{
    if went {
        Ok(())
    } else {
        Err(bad(BadKind::NothingWaits))
    }
}

/// The clients of a group, each with its queues; the servers; and what the clients did, step by step. After want of memory it is as
/// before, but for the turns of a `run` line that were done, the last of which may have been served alone.
#[derive(Debug, Drop)]
pub struct World<S> {
    /// The group, and each step so far.
    transcript: Transcript,
    /// The clients 1, 2 and so on, with their queues.
    members: Vec<Member>,
    /// The servers that the members' numbers name.
    servers: Servers<S>,
}

/// Whether a server may stand in a place.
fn is_server_number(place: u8) -> bool
    ensures { result ≡ is_server_number place }
{
    0 < place && place <= 4
}

/// Whether a call is one of a group without objects, and within its lengths.
fn is_plain_call(kind: Mode, op: &Op) -> bool
    ensures is { result ≡ (same_mode kind Mode.Plain && fits_op op.now) }
    ensures plain { IsTrue result → kind ≡ Mode.Plain }
    ensures fits { IsTrue result → Fits op.now }
{
    match kind {
        Mode::Plain => op.fits(),
        Mode::Objects => false,
    }
}

/// Whether a call on objects is one of a group with objects, and within its lengths.
fn is_object_call(kind: Mode, call: &ObjectCall) -> bool
    ensures is { result ≡ (same_mode kind Mode.Objects && fits_object call.now) }
    ensures objects { IsTrue result → kind ≡ Mode.Objects }
    ensures fits { IsTrue result → FitsObject call.now }
{
    match kind {
        Mode::Plain => false,
        Mode::Objects => objects::fits(call),
    }
}

// What the type says of a line's texts. It does nothing.
fn line_bytes(line: &Line)
    ensures { HasBytes line.now }
{
    match line {
        Line::Call(_, op) => op.are_bytes(),
        Line::Object(_, call) => objects::are_bytes(call),
        _ => (),
    }
}

impl<S: Serve + Drop> World<S> {
    ghost use Rattle.vic_group.specs.World.{ShowsScene, MayDo, CanAsk, AsksClient, DoesLine, LeftWithoutMemory, TurnsLeftWithoutMemory, Makes, MakesIf, StandsHonestly};
    ghost use Rattle.vic_view.specs.Transcripts.{transcript_history, transcript_group};
    ghost use Rattle.vic_dict.specs.declared.limits.TheConstants.{MOST_CLIENTS};

    /// A world of so many clients, all come in, which this server serves.
    pub fn new(
        alloc: Global,
        count: u8,
        mode: Mode,
        key: GroupKey,
        server: S,
    ) -> Result<World<S>, NoMemory>
        requires some { 0 < count }
        requires few { count ≤ MOST_CLIENTS }
        ensures shows { IfOk result (λ w. ShowsScene S.state w (opening_with (record { mode = mode; count = count; key = key }) (S.state server))) }
        // Where the server answers as one that follows the rule and has them all ready, they are clients with one honest server.
        ensures honest { AnswersAs S.rule (S.state server) (fresh_server mode count ready_member) → IfOk result (λ w. StandsHonestly S.state S.rule w 0) }
    {
        // A key has 1 to 64 bytes.
        let _length = key.len();
        let members = entered_all(alloc, count, mode, &key)?;
        Ok(World {
            transcript: Transcript::new(alloc, mode, count, key),
            members,
            servers: Servers::new(server),
        })
    }

    // The place and the number of a client; bad where there is no such client.
    fn place(&self, who: u32) -> Result<(usize, u8), WorldFault>
        ensures { MatchResult result
            (λ p. (p.1 ≡ who) × ((p.1 ≡ p.0 + 1) × (p.0 < length self.now.members.items)))
            (λ e. (e ≡ WorldFault.Bad 2) × (length self.now.members.items ≤ MOST_CLIENTS
            → (nat_lt 0 who && nat_le who (length self.now.members.items)) ≡ false)) }
    {
        if who == 0 || who > MOST_CLIENTS as u32 {
            return Err(bad(BadKind::NoClient));
        }
        let place = who as usize - 1;
        if place < self.members.len() {
            Ok((place, who as u8))
        } else {
            Err(bad(BadKind::NoClient))
        }
    }

    // A client calls, polls or syncs; or that is bad.
    fn ask(&mut self, alloc: Global, who: u32, input: Input) -> Result<(), WorldFault>
        requires { 0 < who → (m : AMember) → slice_get self.old.members.items (who - 1) ≡ Some m → CanAsk m input }
        ensures { (s : SceneOf S.State) → ShowsScene S.state self.old s → AsksClient S.state s who input result self.new }
    {
        let (place, _) = self.place(who)?;
        if let Some(kind) = self.members[place].refusal() {
            return Err(bad(kind));
        }
        self.members[place].ask(alloc, input, &mut self.transcript)?;
        Ok(())
    }

    // A client's server serves its oldest request; whether one waited.
    fn serve(&mut self, alloc: Global, place: usize, who: u8) -> Result<bool, NoMemory>
        requires place { who ≡ place + 1 }
        requires within { place < length self.old.members.items }
        ensures members { length self.new.members.items ≡ length self.old.members.items }
        ensures ok { (s : SceneOf S.State) → ShowsScene S.state self.old s → IfOk result (λ went. (waits_in s.up who ≡ went) × ShowsScene S.state self.new (after_serving S.rule s who)) }
        ensures err { (s : SceneOf S.State) → ShowsScene S.state self.old s → OnErr result (ShowsScene S.state self.new s) }
    {
        self.members[place].serve_oldest(alloc, &mut self.servers, who)
    }

    // A client takes its oldest answer; whether one waited.
    fn take(
        &mut self,
        alloc: Global,
        place: usize,
        who: u8,
        out: &mut Bytes,
    ) -> Result<bool, NoMemory>
        requires place { who ≡ place + 1 }
        requires within { place < length self.old.members.items }
        ensures members { length self.new.members.items ≡ length self.old.members.items }
        ensures ok { (s : SceneOf S.State) → ShowsScene S.state self.old s → IfOk result (λ went. (waits_in s.down who ≡ went) × MakesIf S.state S.rule s (Takes who) self.new out.old out.new went) }
        ensures err { (s : SceneOf S.State) → ShowsScene S.state self.old s → OnErr result (ShowsScene S.state self.new s) }
    {
        let Some(payload) = self.members[place].answer(alloc)? else {
            return Ok(false);
        };
        self.members[place].take_oldest_as(alloc, payload, &mut self.transcript, out)?;
        Ok(true)
    }

    // A client takes its oldest answer with the lowest bit of one byte changed; whether one waited that has such a byte.
    fn take_flipped(
        &mut self,
        alloc: Global,
        place: usize,
        who: u8,
        number: u32,
        out: &mut Bytes,
    ) -> Result<bool, NoMemory>
        requires place { who ≡ place + 1 }
        requires within { place < length self.old.members.items }
        ensures ok { (s : SceneOf S.State) → ShowsScene S.state self.old s → IfOk result (λ went. (has_byte s.down who number ≡ went) × MakesIf S.state S.rule s (Flips who number) self.new out.old out.new went) }
        ensures err { (s : SceneOf S.State) → ShowsScene S.state self.old s → OnErr result (ShowsScene S.state self.new s) }
    {
        let Some(payload) = self.members[place].flipped_answer(alloc, number)? else {
            return Ok(false);
        };
        self.members[place].take_oldest_as(alloc, payload, &mut self.transcript, out)?;
        Ok(true)
    }

    // A client takes a payload that comes from elsewhere.
    fn hear(
        &mut self,
        alloc: Global,
        place: usize,
        who: u8,
        payload: Bytes,
        out: &mut Bytes,
    ) -> Result<(), NoMemory>
        requires place { who ≡ place + 1 }
        requires within { place < length self.old.members.items }
        ensures ok { (s : SceneOf S.State) → ShowsScene S.state self.old s → OnOk result (Makes S.state S.rule s (Hears who payload ∷ []) self.new out.old out.new) }
        ensures err { (s : SceneOf S.State) → ShowsScene S.state self.old s → OnErr result (ShowsScene S.state self.new s) }
    {
        self.members[place].take(alloc, payload, &mut self.transcript, out)
    }

    // Serve and take in turn while requests wait, at most so many times.
    fn run(
        &mut self,
        alloc: Global,
        place: usize,
        who: u8,
        left: u32,
        out: &mut Bytes,
    ) -> Result<(), NoMemory>
        requires place { who ≡ place + 1 }
        requires within { place < length self.old.members.items }
        ensures ok { (s : SceneOf S.State) → ShowsScene S.state self.old s → OnOk result (Makes S.state S.rule s (events_of_turns S.rule left s who) self.new out.old out.new) }
        ensures err { (s : SceneOf S.State) → ShowsScene S.state self.old s → OnErr result (TurnsLeftWithoutMemory S.state S.rule left s who self.new) }
    {
        if left == 0 {
            return Ok(());
        }
        if !self.serve(alloc, place, who)? {
            return Ok(());
        }
        self.take(alloc, place, who, out)?;
        self.run(alloc, place, who, left - 1, out)
    }

    // ---- the lines

    fn call_line(&mut self, alloc: Global, who: u32, op: &Op) -> Result<(), WorldFault>
        requires { MayDo self.old (line.Call who op.now) }
        ensures { (s : SceneOf S.State) → ShowsScene S.state self.old s → DoesLine S.state S.rule s (line.Call who op.now) result self.new [] [] }
    {
        if !is_plain_call(self.transcript.mode, op) {
            return Err(bad(BadKind::NotALine));
        }
        // The texts of an operation are bytes.
        op.are_bytes();
        let input = Input::Call(op.copy(alloc)?);
        self.ask(alloc, who, input)
    }

    fn object_line(&mut self, alloc: Global, who: u32, call: &ObjectCall) -> Result<(), WorldFault>
        requires { MayDo self.old (line.Object who call.now) }
        ensures { (s : SceneOf S.State) → ShowsScene S.state self.old s → DoesLine S.state S.rule s (line.Object who call.now) result self.new [] [] }
    {
        if !is_object_call(self.transcript.mode, call) {
            return Err(bad(BadKind::NotALine));
        }
        // The texts of a call are bytes.
        objects::are_bytes(call);
        let input = Input::Object(objects::copy_of(alloc, call)?);
        self.ask(alloc, who, input)
    }

    fn serve_line(&mut self, alloc: Global, who: u32) -> Result<(), WorldFault>
        ensures { (s : SceneOf S.State) → ShowsScene S.state self.old s → DoesLine S.state S.rule s (line.Serve who) result self.new [] [] }
    {
        let (place, id) = self.place(who)?;
        let went = self.serve(alloc, place, id)?;
        waited(went)
    }

    fn take_line(&mut self, alloc: Global, who: u32, out: &mut Bytes) -> Result<(), WorldFault>
        ensures { (s : SceneOf S.State) → ShowsScene S.state self.old s → DoesLine S.state S.rule s (line.Take who) result self.new out.old out.new }
    {
        let (place, id) = self.place(who)?;
        let went = self.take(alloc, place, id, out)?;
        waited(went)
    }

    fn run_line(&mut self, alloc: Global, who: u32, out: &mut Bytes) -> Result<(), WorldFault>
        ensures { (s : SceneOf S.State) → ShowsScene S.state self.old s → DoesLine S.state S.rule s (line.Run who) result self.new out.old out.new }
    {
        let (place, id) = self.place(who)?;
        self.run(alloc, place, id, MOST_TURNS, out)?;
        Ok(())
    }

    fn give_line(
        &mut self,
        alloc: Global,
        who: u32,
        payload: &Bytes,
        out: &mut Bytes,
    ) -> Result<(), WorldFault>
        ensures { (s : SceneOf S.State) → ShowsScene S.state self.old s → DoesLine S.state S.rule s (line.Give who payload.now) result self.new out.old out.new }
    {
        let (place, id) = self.place(who)?;
        let payload = payload.copy(alloc)?;
        self.hear(alloc, place, id, payload, out)?;
        Ok(())
    }

    fn again_line(&mut self, alloc: Global, who: u32, out: &mut Bytes) -> Result<(), WorldFault>
        ensures { (s : SceneOf S.State) → ShowsScene S.state self.old s → DoesLine S.state S.rule s (line.Again who) result self.new out.old out.new }
    {
        let (place, id) = self.place(who)?;
        let Some(taken) = &self.members[place].taken else {
            return Err(bad(BadKind::NothingWaits));
        };
        let payload = taken.copy(alloc)?;
        self.hear(alloc, place, id, payload, out)?;
        Ok(())
    }

    fn flip_line(
        &mut self,
        alloc: Global,
        who: u32,
        number: u32,
        out: &mut Bytes,
    ) -> Result<(), WorldFault>
        ensures { (s : SceneOf S.State) → ShowsScene S.state self.old s → DoesLine S.state S.rule s (line.Flip who number) result self.new out.old out.new }
    {
        let (place, id) = self.place(who)?;
        let went = self.take_flipped(alloc, place, id, number, out)?;
        waited(went)
    }

    fn resend_line(&mut self, alloc: Global, who: u32) -> Result<(), WorldFault>
        ensures { (s : SceneOf S.State) → ShowsScene S.state self.old s → DoesLine S.state S.rule s (line.Resend who) result self.new [] [] }
    {
        let (place, _) = self.place(who)?;
        let went = self.members[place].resend(alloc)?;
        waited(went)
    }

    fn copy_line(&mut self, alloc: Global, from: u32, to: u8) -> Result<(), WorldFault>
        ensures { (s : SceneOf S.State) → ShowsScene S.state self.old s → DoesLine S.state S.rule s (line.Copy from to) result self.new [] [] }
    {
        if !is_server_number(to) {
            return Err(bad(BadKind::NotALine));
        }
        let Some(server) = self.servers.at(from) else {
            return Err(bad(BadKind::NoServer));
        };
        // A server copied onto itself stays as it is, and that takes no memory.
        if from == u32::from(to) {
            return Ok(());
        }
        let copy = server.copy(alloc)?;
        self.servers.set(to, copy);
        Ok(())
    }

    fn move_line(&mut self, who: u32, number: u32) -> Result<(), WorldFault>
        ensures { (s : SceneOf S.State) → ShowsScene S.state self.old s → DoesLine S.state S.rule s (line.Move who number) result self.new [] [] }
    {
        let (place, _) = self.place(who)?;
        if self.servers.at(number).is_none() {
            return Err(bad(BadKind::NoServer));
        }
        self.members[place].server = number;
        Ok(())
    }

    // Does a line, and appends its text; or it is bad, and then nothing changes.
    fn do_line(&mut self, alloc: Global, line: &Line, out: &mut Bytes) -> Result<(), WorldFault>
        requires { MayDo self.old line.now }
        ensures { (s : SceneOf S.State) → ShowsScene S.state self.old s → DoesLine S.state S.rule s line.now result self.new out.old out.new }
    {
        match line {
            Line::Clients(_) | Line::Objects(_) | Line::Key(_) | Line::Hostile(_, _) => Err(bad(
                BadKind::NotALine,
            )),
            Line::Call(who, op) => self.call_line(alloc, *who, op),
            Line::Object(who, call) => self.object_line(alloc, *who, call),
            Line::Poll(who) => self.ask(alloc, *who, Input::Poll),
            Line::Sync(who) => self.ask(alloc, *who, Input::Sync),
            Line::Serve(who) => self.serve_line(alloc, *who),
            Line::Take(who) => self.take_line(alloc, *who, out),
            Line::Run(who) => self.run_line(alloc, *who, out),
            Line::Give(who, payload) => self.give_line(alloc, *who, payload, out),
            Line::Again(who) => self.again_line(alloc, *who, out),
            Line::Flip(who, number) => self.flip_line(alloc, *who, *number, out),
            Line::Resend(who) => self.resend_line(alloc, *who),
            Line::Copy(from, to) => self.copy_line(alloc, *from, *to),
            Line::Move(who, number) => self.move_line(*who, *number),
            Line::Skip => Ok(()),
        }
    }

    /// Does a line, and answers the text that it prints. Where it is bad, nothing changes. Where memory runs out, nothing has, but
    /// that the turns of a `run` line that were done stay done, the last of which may have been served alone. A client that a line
    /// calls has called fewer than 4,294,967,295 times.
    ///
    /// It costs the step or the serving of the line, and in a `run` line those of each turn. A call is copied from the line, with the
    /// content that it stores. A `copy` line costs the server's whole state, but where a server is copied onto itself.
    pub fn apply(&mut self, alloc: Global, line: &Line) -> Result<Bytes, WorldFault>
        requires { MayDo self.old line.now }
        ensures done { (s : SceneOf S.State) → ShowsScene S.state self.old s → IfOk result (λ text.
            (bad_kind s line.now ≡ None) × ((text ≡ (done_line S.rule s line.now).text) × ShowsScene S.state self.new (done_line S.rule s line.now).scene)) }
        ensures bad { (s : SceneOf S.State) (k : ℕ) → ShowsScene S.state self.old s → result ≡ Err (WorldFault.Bad k) → (bad_kind s line.now ≡ Some k) × ShowsScene S.state self.new s }
        ensures memory { (s : SceneOf S.State) → ShowsScene S.state self.old s → result ≡ Err WorldFault.NoMemory → LeftWithoutMemory S.state S.rule s line.now self.new }
        // Clients with one honest server are that still after an honest line, whatever it comes to.
        ensures honest { (n : ℕ) → StandsHonestly S.state S.rule self.old n → is_honest_line line.now ≡ true → StandsHonestly S.state S.rule self.new (n + 1) }
    {
        // The texts of the line are bytes.
        line_bytes(line);
        let mut out = Bytes::new(alloc);
        self.do_line(alloc, line, &mut out)?;
        Ok(out)
    }

    /// What its clients did, step by step.
    pub fn transcript(&self) -> &Transcript
        ensures { result.now ≡ self.now.transcript }
    {
        &self.transcript
    }

    /// The same, where the world is let go.
    pub fn into_transcript(self) -> Transcript
        ensures { result ≡ self.transcript }
    {
        self.transcript
    }

    /// Server 1, as it stands.
    pub fn server(&self) -> &S
        ensures { (s : SceneOf S.State) → ShowsScene S.state self.now s → server_at s.servers 1 ≡ Some (S.state result.now) }
    {
        self.servers.first()
    }

    /// Appends the lines of all views, how far each two agree, and whether each tag that was taken was made, of which the answer is
    /// the contrary. Where memory runs out, some of it may stand there. It costs what `put_end` of `vic_view` does.
    pub fn put_views(&self, out: &mut Bytes, alloc: Global) -> Result<bool, NoMemory>
        requires { IsLawful (transcript_group self.now.transcript) (transcript_history self.now.transcript) }
        ensures text { OnOk result (out.new ≡ out.old
            ++ end_text (transcript_group self.now.transcript) (transcript_history self.now.transcript) None) }
        ensures forged { IfOk result (λ forged. forged
            ≡ is_forged (transcript_group self.now.transcript) (transcript_history self.now.transcript)) }
        ensures means { IfOk result (λ forged. (forged ≡ true)
            ↔ IsForged (transcript_group self.now.transcript) (transcript_history self.now.transcript)) }
    {
        put_end(out, alloc, &self.transcript)
    }
}
