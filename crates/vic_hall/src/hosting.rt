//! Hosting: lines come, each is served by a worker of its own, and each goes back.

ghost use Rattle.std.specs.Prelude.{◌≡◌, ◌<◌, ◌≤◌, [], All, IfOk, MatchResult, List, length, map, vec_capacity};
ghost use Rattle.std.specs.List.{range_with_len};
ghost use Rattle.vic_ports.specs.Causes.{Rose};
ghost use Rattle.vic_ports.specs.Links.{Told};
ghost use Rattle.vic_turn.specs.Passes.{IsFresh};
ghost use Rattle.vic_hall.specs.Hosting.{lines, HaveCome, HaveGone, Hosts};
ghost use Rattle.vic_hall.specs.Runs.{IsRun};

use crate::crew::{Job, work_all};
use crate::hall::Hall;
use crate::recorder::Recorder;
use std::alloc::Global;
use std::sync::Wait;
use std::thread::Threads;
use vic_gate::{Gate, WorkEnd};
use vic_ports::{Came, Doors};
use vic_server::Served;
use vic_turn::pass::Pass;
use vic_turn::passes::Passes;

/// How hosting ended.
#[derive(Drop)]
pub enum Hosted {
    /// All lines came, were served and went back: the server as it then was, and how each line's worker ended, in the order of
    /// accepting.
    Ran(Served, Vec<WorkEnd>),
    /// An accept failed. Each line that had come went back, unread and unwritten.
    Failed,
    /// There was no memory for the passes and the jobs; no line was asked for.
    NoMemory,
}

// A job for each pass, as the lines come; where an accept fails, those that there are.
#[tactic(auto, using(crate::proofs::Visits::come_none))]
fn seat_all<D: Doors>(
    doors: &mut D,
    passes: Passes<Recorder>,
    mut jobs: Vec<Job<D::Line>>,
) -> Result<Vec<Job<D::Line>>, Vec<Job<D::Line>>>
where
    D::Line: Drop,
    requires empty { jobs.items ≡ [] }
    requires room { length passes ≤ vec_capacity jobs }
    ensures passes { IfOk result (λ js. map (λ j. j.pass) js.items ≡ passes) }
    ensures lines { MatchResult result (λ js. HaveCome (map (λ j. D.Line.told j.link) js.items) (D.lines doors.old) (D.lines doors.new)) (λ js. HaveCome (map (λ j. D.Line.told j.link) js.items) (D.lines doors.old) (D.lines doors.new)) }
    ensures room { MatchResult result (λ js. length js.items ≤ length passes) (λ js. length js.items ≤ length passes) }
    ensures faults { MatchResult result (λ _. D.faults doors.new ≡ D.faults doors.old) (λ _. Rose (D.faults doors.old) (D.faults doors.new)) }
{
    for pass in passes.into_vec() {
        match doors.accept() {
            Came::Line(link) => jobs.push_reserved(Job {
                pass,
                link,
                end: WorkEnd::Ended,
            }),
            Came::Failed => return Err(jobs),
        }
    }
    Ok(jobs)
}

// Gives each line back, and keeps the passes and how the workers ended.
#[tactic(auto, using(crate::proofs::Visits::gone_none))]
fn dismiss<D: Doors>(
    doors: &mut D,
    jobs: Vec<Job<D::Line>>,
    mut passes: Vec<Pass<Recorder>>,
    mut ends: Vec<WorkEnd>,
) -> (Passes<Recorder>, Vec<WorkEnd>)
where
    D::Line: Drop,
    requires empty { (passes.items ≡ []) × (ends.items ≡ []) }
    requires room { (length jobs.items ≤ vec_capacity passes) × (length jobs.items ≤ vec_capacity ends) }
    ensures passes { result.0 ≡ map (λ j. j.pass) jobs.items }
    ensures ends { result.1.items ≡ map (λ j. j.end) jobs.items }
    ensures lines { HaveGone (map (λ j. D.Line.told j.link) jobs.items) (D.lines doors.old) (D.lines doors.new) }
    ensures faults { D.faults doors.new ≡ D.faults doors.old }
{
    for job in jobs {
        let Job { pass, link, end } = job;
        passes.push_reserved(pass);
        ends.push_reserved(end);
        doors.back(link);
    }
    (Passes::of(passes), ends)
}

// Serves each line, gives all of them back, and closes the hall.
fn serve_all<D: Doors, G: Gate + Sync, R: Threads + Wait + Sync>(
    rt: &R,
    alloc: Global,
    hall: Hall,
    gate: &G,
    doors: &mut D,
    jobs: Vec<Job<D::Line>>,
    passes: Vec<Pass<Recorder>>,
    ends: Vec<WorkEnd>,
) -> (Served, Vec<WorkEnd>)
where
    D::Line: Send + Drop,
    requires empty { (passes.items ≡ []) × (ends.items ≡ []) }
    requires room { (length jobs.items ≤ vec_capacity passes) × (length jobs.items ≤ vec_capacity ends) }
    requires fresh { All (λ j. IsFresh hall j.pass) jobs.items }
    requires numbers { map (λ j. j.pass.number) jobs.items ≡ range_with_len 1 hall.count }
    ensures run { (back : List Told) × (HaveGone back (D.lines doors.old) (D.lines doors.new) × IsRun hall.count hall.fixed.opening (lines (map (λ j. D.Line.told j.link) jobs.items) back) result.1.items result.0) }
    ensures faults { D.faults doors.new ≡ D.faults doors.old }
{
    let jobs = work_all(rt, alloc, &hall, gate, jobs);
    let (passes, ends) = dismiss(doors, jobs, passes, ends);
    (hall.close(passes), ends)
}

/// Accepts so many lines, answers each by a worker of its own until it ends, and then gives all of them back, in the order of
/// accepting. A fault of a line, or want of memory in its worker, ends that line alone. The memory for passes and jobs is taken
/// before the first line is asked for. It returns only if every worker does.
pub fn host<D: Doors, G: Gate + Sync, R: Threads + Wait + Sync>(
    rt: &R,
    alloc: Global,
    served: Served,
    doors: &mut D,
    gate: &G,
    connections: u32,
) -> Hosted
where
    D::Line: Send + Drop,
    requires empty { served.changes ≡ [] }
    requires connections { (0 < connections) × (connections ≤ 64) }
    ensures { Hosts connections served.opening (D.lines doors.old) (D.lines doors.new) (D.faults doors.old) (D.faults doors.new) result }
{
    let Ok((hall, passes)) = Hall::new(alloc, served, connections) else {
        return Hosted::NoMemory;
    };
    let count = connections as usize;
    let Ok(jobs) = Vec::with_capacity(alloc, count) else {
        return Hosted::NoMemory;
    };
    let Ok(back) = Vec::with_capacity(alloc, count) else {
        return Hosted::NoMemory;
    };
    let Ok(ends) = Vec::with_capacity(alloc, count) else {
        return Hosted::NoMemory;
    };
    match seat_all(doors, passes, jobs) {
        Ok(jobs) => {
            let (served, ends) = serve_all(rt, alloc, hall, gate, doors, jobs, back, ends);
            Hosted::Ran(served, ends)
        }
        Err(jobs) => {
            let _unserved = dismiss(doors, jobs, back, ends);
            Hosted::Failed
        }
    }
}
