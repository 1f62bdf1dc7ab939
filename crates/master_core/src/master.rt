ghost use Rattle.std.specs.Prelude.{◌≡◌, ◌<◌, ◌≤◌, [], not, is_some, IfOk, IfSome};
ghost use Rattle.wave_problem.specs.declared.TheConstants.{MAX_SPLITS};
ghost use Rattle.master_state.specs.States.{AreAllowed, opening};
ghost use Rattle.master_state.specs.Tests.{next_part, next_worker};
ghost use Rattle.master_state.specs.Refusals.{has_no_room, has_no_sweep, is_full, is_not_reducible};
ghost use Rattle.master_state.specs.Jobs.{IsKept};
ghost use Rattle.master_core.specs.Attempts.{IsFound};

mod calls;
mod queues;
mod readers;
mod waves;

use crate::attempts::Found;
use crate::cluster::Cluster;
use crate::holders::first_holders;
use crate::kept::Kept;
use crate::lists::empty_lists;
use crate::reducing::NextPart;
use crate::touched::Touched;
use block_map::BlockMap;
use compact_lists::{CountList, EventList};
use master_state::{Limits, PartState, Start};
use master_tables::entries::{SplitEntry, are_done, pending_entries};
use master_tables::parts::first_pending;
use master_tables::running::{RunningPart, RunningSplit, part_of, part_runs, runs, split_of};
use node_ids::AttemptNo;
use shuffle_reduce::PartResult;
use std::alloc::{AllocError, Global};
use std::marker::Model;
use worker_table::WorkerTable;

/// The master of a job: its present state, and the history that led there.
pub struct Master {
    cluster: Cluster,
    limits: Limits,
    workers: WorkerTable,
    holders: BlockMap,
    splits: Vec<SplitEntry>,
    parts: Vec<PartState>,
    results: Vec<PartResult>,
    starts: Vec<Start>,
    sweeps: CountList,
    history: EventList,
    // (callers see nothing of these)
    engine: Kept,
    touched: Touched,
}

// (one call wherever it is dropped)
impl Drop for Master {
    fn drop(self) {
        let Master {
            cluster: _,
            limits: _,
            workers: _,
            holders: _,
            splits: _,
            parts: _,
            results: _,
            starts: _,
            sweeps: _,
            history: _,
            engine: _,
            touched: _,
        } = self;
    }
}

impl Model for Master {
    ghost use Rattle.master_state.specs.Jobs.{Job};

    ghost Value = { Job };

    ghost use Rattle.master_core.specs.Inside.{job_of, IsMaster};

    ghost view = { job_of };

    ghost invariant = { IsMaster };
}

impl Master {
    /// The master of a job of which nothing has happened, with room for all that the limits allow.
    pub fn new(alloc: Global, cluster: Cluster, limits: Limits) -> Result<Master, AllocError>
        requires { AreAllowed limits }
        ensures setup { IfOk result (λ m. m.setup ≡ record { cluster = cluster; limits = limits }) }
        ensures history { IfOk result (λ m. m.history ≡ []) }
        ensures state { IfOk result (λ m. m.state ≡ opening m.setup) }
        ensures results { IfOk result (λ m. m.results ≡ []) }
    {
        let parts = vec![in alloc; PartState::Pending; cluster.parts()]?;
        let splits = pending_entries(alloc, cluster.splits())?;
        let holders = first_holders(alloc, &cluster)?;
        let split_count = cluster.splits().len();
        let bars = limits.events as usize;
        let workers = WorkerTable::new(
            alloc,
            cluster.slots(),
            split_count,
            cluster.silence(),
            bars,
        )?;
        let lists = empty_lists(alloc, cluster.slots().len(), cluster.parts(), limits)?;
        let touched = Touched::new(alloc)?;
        Ok(Master {
            cluster,
            limits,
            workers,
            holders,
            splits,
            parts,
            results: lists.results,
            starts: lists.starts,
            sweeps: lists.sweeps,
            history: lists.history,
            engine: Kept::None,
            touched,
        })
    }

    /// A law of masters: what each of them keeps.
    pub fn is_kept(&self)
        ensures { IsKept self.now }
    {
        // (a look at a field shows it)
        let _limits = self.limits;
    }

    // The results of its maps and its reduces.
    pub(crate) fn into_results(self) -> (Vec<SplitEntry>, Vec<PartResult>) {
        let Master {
            cluster: _,
            limits: _,
            workers: _,
            holders: _,
            splits,
            parts: _,
            results,
            starts: _,
            sweeps: _,
            history: _,
            engine: _,
            touched: _,
        } = self;
        (splits, results)
    }

    /// Every accepted event, and the counts of every sweep.
    pub fn into_history(self) -> (EventList, CountList)
        ensures history { result.0.items ≡ self.history }
        ensures sweeps { result.1.items ≡ self.state.sweeps }
    {
        let Master {
            cluster: _,
            limits: _,
            workers: _,
            holders: _,
            splits: _,
            parts: _,
            results: _,
            starts: _,
            sweeps,
            history,
            engine: _,
            touched: _,
        } = self;
        (history, sweeps)
    }

    // Where the attempt runs.
    fn find(&self, attempt: AttemptNo) -> Found
        ensures { IsFound self.now.state attempt result }
    {
        let (splits, parts) = (&self.splits, &self.parts);
        let Some(start) = self.start(attempt) else {
            return Found::Nowhere;
        };
        let worker = start.worker;
        match split_of(start.work) {
            Some(split) => {
                if runs(&splits[split.index()], attempt) {
                    Found::Split(RunningSplit { split, worker })
                } else {
                    Found::Nowhere
                }
            }
            None => match part_of(start.work) {
                Some(part) => {
                    if part_runs(parts[part.index()], attempt) {
                        Found::Part(RunningPart { part, worker })
                    } else {
                        Found::Nowhere
                    }
                }
                None => Found::Nowhere,
            },
        }
    }

    // What the next reduce attempt would run, and where, if one may start now.
    fn next_reduce(&self) -> Option<NextPart>
        ensures ready { is_some result ≡ not (is_not_reducible self.now.state) }
        ensures part { IfSome result (λ next. next.part ≡ next_part self.now.state) }
        ensures worker { IfSome result (λ next. next.worker ≡ next_worker self.now.state) }
    {
        if !are_done(&self.splits) {
            return None;
        }
        let part = first_pending(&self.parts)?;
        let worker = self.workers.first_free()?;
        Some(NextPart { part, worker })
    }

    // Whether the history has no place left, or there are fewer attempts left than these.
    fn has_no_room(&self, count: usize) -> bool
        requires { count ≤ MAX_SPLITS }
        ensures { result ≡ has_no_room self.now.setup self.now.state count }
    {
        self.has_no_place() || (self.limits.attempts as usize) < self.starts.len() + count
    }

    // Whether there is no place left for an event, or for the counts of a sweep.
    fn has_no_sweep(&self) -> bool
        ensures { result ≡ has_no_sweep self.now.setup self.now.state }
    {
        self.has_no_place() || self.sweeps.len() >= self.limits.sweeps as usize
    }

    // Whether the history has no place left.
    fn has_no_place(&self) -> bool
        ensures { result ≡ is_full self.now.setup self.now.state }
    {
        self.history.len() >= self.limits.events as usize
    }
}
