//! The run of a drill, and its summary.

ghost use Rattle.std.specs.Prelude.{◌≡◌, ◌<◌, ◌≤◌, ◌+◌, ◌^◌, ◌++◌, ℕ, false, length, IfOk, OnOk};
ghost use Rattle.vic_dict.specs.declared.limits.TheConstants.{MOST_CLIENTS};
ghost use Rattle.vic_drill.specs.Drills.{DrillState, drill_at_start, waits_for, drill_after_next_act, drill_after_turn, drill_after_turn_below, drill_after_repeats, first_waiting, drill_after_closing, most_turns as most_turns_by, most_events as most_events_by, drill_of, line, print_of_drill};
ghost use Rattle.vic_drill.specs.Laws.{IsHonestDrill};
ghost use Rattle.vic_run_drill.specs.Running.{calls_of, summary_lines};

use crate::opening::entered_all;
use crate::seat::{Seat, Went};
use crate::tally::Tally;
use std::alloc::Global;
use vic_dict::{Bytes, Mode, NoMemory};
use vic_gen::{Act, Gen};
use vic_server::Served;

/// A drill: its clients and its server, what their acts are drawn from, how many calls they made, and how calls ended. It keeps
/// nothing of what has happened but that. After want of memory it goes no further.
#[derive(Debug, Drop)]
pub struct Drill {
    /// Clients 1, 2 and so on, each with its message under way.
    pub seats: Vec<Seat>,
    /// The honest server.
    pub served: Served,
    /// What the acts are drawn from.
    pub generator: Gen,
    /// How many calls were made so far.
    pub calls: u32,
    /// How calls ended.
    pub tally: Tally,
}

/// How many turns the main phase has at most.
fn most_turns(calls: u32) -> u32
    requires { calls ≤ 100000 }
    ensures { result ≡ most_turns_by calls }
{
    8 * calls
}

/// How many events the closing phase has at most.
fn most_events(clients: u8, calls: u32) -> u32
    requires { calls ≤ 100000 }
    ensures { result ≡ most_events_by clients calls }
{
    8 * (u32::from(clients) + calls)
}

/// A line with a name and a number is appended.
fn put_line(out: &mut Bytes, alloc: Global, name: &[u8], number: u64) -> Result<(), NoMemory>
    ensures { OnOk result (out.new ≡ out.old ++ line name.now number) }
{
    let digits = number.to_string(alloc)?;
    out.append(name)?;
    out.append(b" ")?;
    out.append(digits.as_bytes())?;
    out.append(b"\n")
}

impl Drill {
    ghost use Rattle.vic_run_drill.specs.Running.{Stands, WentOn, Closes, IsGoing, IsAtRest};
    ghost use Rattle.vic_dict.specs.declared.limits.TheConstants.{MOST_CLIENTS};

    /// A drill that begins: all clients have come in, and nothing has happened.
    fn begun(alloc: Global, number: u32, clients: u8) -> Result<Drill, NoMemory>
        requires some { 0 < clients }
        requires few { clients ≤ MOST_CLIENTS }
        ensures { IfOk result (λ r. Stands r (drill_at_start number clients) 0) }
    {
        Ok(Drill {
            seats: entered_all(alloc, clients)?,
            served: Served::gathered(alloc, Mode::Plain, clients)?,
            generator: Gen::new(alloc, number, clients)?,
            calls: 0,
            tally: Tally {
                done: 0,
                aborted: 0,
                refused: 0,
            },
        })
    }

    // What is under way for a client goes on; whether anything was.
    fn go_on(&mut self, alloc: Global, who: u8) -> Result<bool, NoMemory>
        requires going { IsGoing self.old }
        requires some { 0 < who }
        requires known { who ≤ length self.old.seats.items }
        ensures { (d : DrillState) (n : ℕ) → Stands self.old d n → IfOk result (WentOn self.new d n who) }
    {
        let place = usize::from(who) - 1;
        match self.seats[place].go_on(alloc, &mut self.served, who)? {
            Went::Nowhere => Ok(false),
            Went::Answered => Ok(true),
            Went::Taken(returned) => {
                self.tally.count(&returned);
                Ok(true)
            }
        }
    }

    // A client, for whom nothing is under way, does what is drawn for it.
    fn act(&mut self, alloc: Global, who: u8) -> Result<(), NoMemory>
        requires rests { IsAtRest self.old who }
        requires some { 0 < who }
        requires known { who ≤ length self.old.seats.items }
        requires few { self.old.calls < 100000 }
        ensures { (d : DrillState) (n : ℕ) → n + 1 < 2 ^ 32 → Stands self.old d n → waits_for d.scene who ≡ false
            → OnOk result (Stands self.new (drill_after_next_act who d) (n + 1)) }
    {
        let place = usize::from(who) - 1;
        let act = self.generator.act(alloc, who, self.calls + 1)?;
        self.seats[place].act(alloc, &act)?;
        self.calls += calls_in(&act);
        Ok(())
    }

    // One turn, of the client that is drawn: what is under way for it goes on, or it acts.
    fn turn(&mut self, alloc: Global) -> Result<(), NoMemory>
        requires going { IsGoing self.old }
        requires few { self.old.calls < 100000 }
        ensures { (d : DrillState) (n : ℕ) → n + 1 < 2 ^ 32 → Stands self.old d n → OnOk result (Stands self.new (drill_after_turn d) (n + 1)) }
    {
        let who = self.generator.pick();
        if self.go_on(alloc, who)? {
            return Ok(());
        }
        self.act(alloc, who)
    }

    // Turns, until so many calls were made.
    fn make_calls(&mut self, alloc: Global, most: u32, calls: u32) -> Result<(), NoMemory>
        requires begun { (d : DrillState) × Stands self.old d 0 }
        requires most { most < 2 ^ 30 }
        requires few { calls ≤ 100000 }
        ensures { (d : DrillState) → Stands self.old d 0 → OnOk result (Stands self.new (drill_after_repeats most (drill_after_turn_below calls) d) most) }
    {
        for _turn in 0..most {
            if calls <= self.calls {
                return Ok(());
            }
            self.turn(alloc)?;
        }
        Ok(())
    }

    // The first client for whom something is under way.
    fn first_waiting(&self) -> Option<u8>
        requires { IsGoing self.now }
        ensures { (d : DrillState) (n : ℕ) → Stands self.now d n → first_waiting d.scene 1 d.scene.group.count ≡ result }
    {
        for (place, seat) in self.seats.iter().enumerate() {
            if seat.waits() {
                return Some(place as u8 + 1);
            }
        }
        None
    }

    // The first client's message goes on for whom one is under way; or the owner of the first entry that isn't sealed polls.
    // Whether anything was left to do.
    fn close(&mut self, alloc: Global) -> Result<bool, NoMemory>
        requires { IsGoing self.old }
        ensures { (d : DrillState) (n : ℕ) → Stands self.old d n → IfOk result (Closes self.new d n) }
    {
        if let Some(who) = self.first_waiting() {
            return self.go_on(alloc, who);
        }
        let Some(owner) = self.served.owner_of_next() else {
            return Ok(false);
        };
        let place = usize::from(owner) - 1;
        self.seats[place].act(alloc, &Act::Poll)?;
        Ok(true)
    }

    // All that is under way arrives, and all is sealed.
    fn seal_all(&mut self, alloc: Global, most: u32) -> Result<(), NoMemory>
        requires begun { (d : DrillState) × ((n : ℕ) × ((n < 2 ^ 30) × Stands self.old d n)) }
        requires most { most < 2 ^ 30 }
        ensures { (d : DrillState) (n : ℕ) → Stands self.old d n → OnOk result (Stands self.new (drill_after_repeats most drill_after_closing d) (n + most)) }
    {
        for _event in 0..most {
            if !self.close(alloc)? {
                return Ok(());
            }
        }
        Ok(())
    }

    // The eight lines.
    fn summary(&self, alloc: Global, clients: u8, calls: u32) -> Result<Bytes, NoMemory>
        ensures { IfOk result (λ text. text ≡ summary_lines clients calls self.now.tally self.now.served.server) }
    {
        let mut out = Bytes::new(alloc);
        put_line(&mut out, alloc, b"clients", u64::from(clients))?;
        put_line(&mut out, alloc, b"calls", u64::from(calls))?;
        put_line(&mut out, alloc, b"done", u64::from(self.tally.done))?;
        put_line(&mut out, alloc, b"aborted", u64::from(self.tally.aborted))?;
        put_line(&mut out, alloc, b"refused", u64::from(self.tally.refused))?;
        put_line(&mut out, alloc, b"sealed", u64::from(self.served.sealed()))?;
        put_line(&mut out, alloc, b"pairs", u64::from(self.served.pairs()))?;
        put_line(&mut out, alloc, b"weight", self.served.weight())?;
        Ok(out)
    }
}

/// How many calls an act makes.
fn calls_in(act: &Act) -> u32
    ensures { result ≡ calls_of act.now }
{
    match act {
        Act::Poll => 0,
        Act::Call(_) => 1,
    }
}

/// Runs the drill of a number, with so many clients that make so many calls, and answers its summary: eight lines.
///
/// It takes memory for what its clients keep, for the server and its history, and for one message a client. Each turn costs what
/// the one serving or the one step costs; each event of the closing phase a look at each client as well.
pub fn summary_of(alloc: Global, number: u32, clients: u8, calls: u32) -> Result<Bytes, NoMemory>
    requires some { 0 < clients }
    requires few { clients ≤ MOST_CLIENTS }
    requires bound { calls ≤ 100000 }
    ensures text { IfOk result (λ text. text ≡ print_of_drill number clients calls) }
    ensures honest { IsHonestDrill (drill_of number clients calls) }
{
    let mut drill = Drill::begun(alloc, number, clients)?;
    drill.make_calls(alloc, most_turns(calls), calls)?;
    drill.seal_all(alloc, most_events(clients, calls))?;
    drill.summary(alloc, clients, calls)
}
