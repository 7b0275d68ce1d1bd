//! One worker for each connection.

ghost use Rattle.std.specs.Prelude.{◌≡◌, ℕ, ◌<◌, All, length, slice_index_or};
ghost use Rattle.vic_turn.specs.Passes.{IsPassOf};
ghost use Rattle.vic_hall.specs.Jobs.{Worked};

use crate::hall::Hall;
use crate::recorder::Recorder;
use std::alloc::Global;
use std::sync::Wait;
use std::thread;
use std::thread::Threads;
use vic_gate::{Gate, WorkEnd, work};
use vic_ports::Link;
use vic_turn::pass::Pass;

/// The most threads that work at once.
const MOST_THREADS: usize = 64;

/// A connection at work: its pass, its link, and how its worker ended, once it did.
#[derive(Drop)]
pub struct Job<L> {
    /// The connection's pass at the lock.
    pub pass: Pass<Recorder>,
    /// The connection.
    pub link: L,
    /// How its worker ended.
    pub end: WorkEnd,
}

// The worker of one connection; the gate is told the number of its pass.
fn work_one<L: Link, G: Gate, R: Wait>(
    rt: &R,
    alloc: Global,
    hall: &Hall,
    gate: &G,
    job: &mut Job<L>,
)
    requires { IsPassOf hall.now job.old.pass }
    ensures own { IsPassOf hall.now job.new.pass }
    ensures worked { Worked hall.now.fixed L.told job.old job.new }
{
    let connection = job.pass.number();
    job.end = work(
        rt,
        alloc,
        &mut job.link,
        hall,
        &mut job.pass,
        gate,
        connection,
    );
}

// One worker for each job, in threads of their own; where no thread can be made, one after the other.
fn work_each<L: Link + Send, G: Gate + Sync, R: Threads + Wait + Sync>(
    rt: &R,
    alloc: Global,
    hall: &Hall,
    gate: &G,
    jobs: &mut [Job<L>],
)
    requires { All (λ j. IsPassOf hall.now j.pass) jobs.old }
    ensures own { All (λ j. IsPassOf hall.now j.pass) jobs.new }
    ensures len { length jobs.new ≡ length jobs.old }
    ensures each { (k : ℕ) (d : _) → k < length jobs.new → Worked hall.now.fixed L.told (slice_index_or jobs.old k d) (slice_index_or jobs.new k d) }
{
    thread::for_each_mut(
        rt,
        jobs,
        MOST_THREADS,
        &|_, job: &mut Job<L>|
            requires { IsPassOf hall.now job.old.pass }
            ensures own { IsPassOf hall.entry.now job.new.pass }
            ensures worked { Worked hall.entry.now.fixed L.told job.old job.new }
        { work_one(rt, alloc, hall, gate, job) },
    );
}

/// One worker for each job, in threads of their own, and the jobs once all workers have ended; where no thread can be made, the
/// workers run one after the other.
pub(crate) fn work_all<L: Link + Send, G: Gate + Sync, R: Threads + Wait + Sync>(
    rt: &R,
    alloc: Global,
    hall: &Hall,
    gate: &G,
    mut jobs: Vec<Job<L>>,
) -> Vec<Job<L>>
    requires { All (λ j. IsPassOf hall.now j.pass) jobs.items }
    ensures own { All (λ j. IsPassOf hall.now j.pass) result.items }
    ensures len { length result.items ≡ length jobs.items }
    ensures each { (k : ℕ) (d : _) → k < length result.items → Worked hall.now.fixed L.told (slice_index_or jobs.items k d) (slice_index_or result.items k d) }
{
    work_each(rt, alloc, hall, gate, jobs.as_mut_slice());
    jobs
}
