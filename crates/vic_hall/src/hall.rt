//! The hall: a server behind a turn lock, as a desk.

ghost use Rattle.std.specs.Prelude.{◌≡◌, ◌<◌, ◌≤◌, [], IfOk, All, map, length};
ghost use Rattle.std.specs.List.{range_with_len};
ghost use mathlib.Core.List.{IsPrefix};
ghost use Rattle.vic_change.specs.Changes.{of_seat};
ghost use Rattle.vic_server.specs.Replay.{replay};
ghost use Rattle.vic_turn.specs.Changes.{Each};
ghost use Rattle.vic_turn.specs.Passes.{IsPassOf, IsFresh};
ghost use Rattle.vic_hall.specs.Steps.{HallStep};

use crate::recorder::Recorder;
use std::alloc::Global;
use std::marker::Model;
use std::sync::Wait;
use vic_dict::NoMemory;
use vic_gate::Desk;
use vic_server::Served;
use vic_turn::lock::TurnLock;
use vic_turn::pass::Pass;
use vic_turn::passes::Passes;
use vic_wire::ToClient;

/// A server that several connections ask, one request at a time. Contracts see which lock it is, the server before all changes and
/// the number of connections.
#[derive(Drop)]
pub struct Hall {
    /// The server with its history, behind the lock.
    lock: TurnLock<Recorder>,
}

impl Model for Hall {
    ghost use Rattle.std.specs.Coded.{codes};
    ghost use Rattle.vic_server.specs.Keeping.{dictionary_code};
    ghost use Rattle.vic_server.specs.Replay.{KeptServer};
    ghost use Rattle.vic_turn.specs.Passes.{LockView, lock_code};

    ghost Value = { LockView KeptServer };

    ghost coded = { lock_code (Prim.hlevel (codes, dictionary_code)) };

    ghost view = { λ h. h.lock };
}

impl Desk for Hall {
    type Pass = Pass<Recorder>;

    ghost owns = { λ hall pass. IsPassOf hall pass };

    ghost answers = { λ hall old who payload answer new. HallStep hall.fixed old who payload answer new };

    fn answer<R: Wait>(
        &self,
        rt: &R,
        alloc: Global,
        pass: &mut Pass<Recorder>,
        who: u8,
        payload: &[u8],
    ) -> Result<ToClient, NoMemory> {
        self.lock.step_as(rt, alloc, pass, who, payload)
    }
}

impl Hall {
    /// A hall over a server that nothing has changed yet, and a pass for each connection, with the numbers from 1 on. It takes memory
    /// for the passes and for the lock, and none later on but what the server's own steps take.
    pub fn new(
        alloc: Global,
        served: Served,
        connections: u32,
    ) -> Result<(Hall, Passes<Recorder>), NoMemory>
        requires empty { served.changes ≡ [] }
        requires connections { (0 < connections) × (connections ≤ 64) }
        ensures opening { IfOk result (λ r. r.0.fixed.opening ≡ served.opening) }
        ensures count { IfOk result (λ r. r.0.count ≡ connections) }
        ensures numbers { IfOk result (λ r. map (λ p. p.number) r.1 ≡ range_with_len 1 connections) }
        ensures passes { IfOk result (λ r. All (IsFresh r.0) r.1) }
    {
        let (lock, passes) = TurnLock::new(alloc, Recorder { served }, connections)?;
        Ok((Hall { lock }, passes))
    }

    /// The server, once all passes have come back: it keeps one history, which begins with all that each pass has seen, and in which
    /// the changes with a pass's number are those that its own requests made.
    pub fn close(self, passes: Passes<Recorder>) -> Served
        requires count { length passes ≡ self.count }
        requires own { All (λ p. p.lock ≡ self.id) passes }
        ensures opening { result.opening ≡ self.fixed.opening }
        ensures history { result.server ≡ replay result.opening result.changes }
        ensures own { All (λ p. of_seat p.number result.changes ≡ p.mine) passes }
        ensures seen { All (λ p. IsPrefix p.seen result.changes) passes }
        ensures seats { Each (λ c. (0 < c.seat) × (c.seat ≤ self.count)) result.changes }
    {
        let Hall { lock } = self;
        let Recorder { served } = lock.close(passes);
        // For the proof alone.
        served.keeps_history();
        served
    }
}
