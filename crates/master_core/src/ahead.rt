//! The lines of workers with queues, and the heads of a plan onto these queues.
ghost use Rattle.std.specs.Prelude.{◌≡◌, ℕ, ◌<◌, ◌≤◌, ◌-◌, All, IfOk, IfSome, MatchOption, Some, cond};
ghost use Rattle.std.specs.Prelude.{◌==◌, length, map, slice_index_or};
ghost use Rattle.wave_problem.specs.declared.TheConstants.{MAX_SLOTS};
ghost use Rattle.wave_problem.specs.Wave.{worker_in};
ghost use Rattle.master_state.specs.Steps.{AreHeads, line_with, queue_lines, worker_line};

use crate::kept_plan::line_at;
use certificate_checker::Certified;
use master_tables::lines::worker_lines;
use node_ids::{SplitNo, WorkerNo};
use std::alloc::{AllocError, Global};
use wave_planner::Planned;
use wave_problem::{Plan, WorkerLine};
use worker_table::Worker;

/// A plan ahead: all pending splits on the workers' queues, with its prices; and its heads, each with its
/// worker, by rising split.
#[derive(Drop)]
pub struct Ahead {
    pub planned: Planned,
    pub pairs: Vec<(SplitNo, WorkerNo)>,
}

// A plan ahead, its heads as a plan and as pairs, and how many they are at which byte-distance.
#[derive(Drop)]
pub(crate) struct Queued {
    pub planned: Planned,
    pub heads: Plan,
    pub pairs: Vec<(SplitNo, WorkerNo)>,
    pub totals: Certified,
}

/// A line for each worker, with as many places as are asked for it, and at least its free slots.
pub(crate) fn queue_lines(
    alloc: Global,
    workers: &[Worker],
    asked: &[u64],
) -> Result<Vec<WorkerLine>, AllocError>
    requires within { All (λ worker. worker.taken ≤ worker.slots) workers.now }
    requires few { All (λ n. n ≤ MAX_SLOTS) asked.now }
    ensures { IfOk result (λ lines. lines.items ≡ queue_lines asked.now (map worker_line workers.now)) }
{
    let mut lines = Vec::with_capacity(alloc, workers.len())?;
    for i in 0..workers.len() {
        lines.push_reserved(queue_line(workers, asked, i));
    }
    Ok(lines)
}

// The line of the queue of the worker at this place.
fn queue_line(workers: &[Worker], asked: &[u64], place: usize) -> WorkerLine
    requires place { place < length workers.now }
    requires few { All (λ n. n ≤ MAX_SLOTS) asked.now }
    requires within { All (λ worker. worker.taken ≤ worker.slots) workers.now }
    ensures { result ≡ line_with (slice_index_or asked.now place 0)
        (worker_in (map worker_line workers.now) place) }
{
    let line = line_at(workers, place);
    WorkerLine {
        live: line.live,
        free: asked_at(asked, place).max(line.free),
    }
}

// How many places are asked for the worker at this place.
fn asked_at(asked: &[u64], place: usize) -> u8
    requires { All (λ n. n ≤ MAX_SLOTS) asked.now }
    ensures { result ≡ slice_index_or asked.now place 0 }
{
    match asked.get(place) {
        Some(count) => *count as u8,
        None => 0,
    }
}

/// The heads of a plan: of the splits that it gives each worker, by rising number, as many as the worker has
/// free slots.
pub(crate) fn heads_of(alloc: Global, plan: &Plan, workers: &[Worker]) -> Result<Plan, AllocError>
    requires within { All (λ worker. worker.taken ≤ worker.slots) workers.now }
    ensures heads { IfOk result (λ heads.
        AreHeads (map worker_line workers.now) plan.now.starts heads.starts) }
    ensures size { IfOk result (λ heads. length heads.starts ≡ length plan.now.starts) }
    ensures workers { IfOk result (λ heads. heads.workers ≡ plan.now.workers) }
{
    let mut left = worker_lines(alloc, workers)?;
    let mut starts = Vec::with_capacity(alloc, plan.splits())?;
    for s in 0..plan.splits() {
        let start = plan.of(SplitNo::new(s as u32));
        starts.push_reserved(take_head(&mut left, start));
    }
    Ok(Plan::from_starts(starts, plan.workers()))
}

// The worker of a start, where it has a free slot left, which is then left no more.
fn take_head(left: &mut Vec<WorkerLine>, start: Option<WorkerNo>) -> Option<WorkerNo>
    ensures taken { IfSome result (λ w. (start ≡ Some w) × (0 < (worker_in left.old.items w).free)
        × ((v : ℕ) → (worker_in left.new.items v).free
        ≡ (worker_in left.old.items v).free - cond (w == v) 1 0)) }
    ensures none { MatchOption result ((left.new.items ≡ left.old.items)
        × IfSome start (λ w. (worker_in left.old.items w).free ≡ 0)) (λ w. Unit {0}) }
{
    let worker = start?;
    let place = worker.index();
    if place >= left.len() || left[place].free == 0 {
        return None;
    }
    left[place].free -= 1;
    Some(worker)
}
