//! Which splits and workers have changed since the engine of the last wave was made.
ghost use Rattle.std.specs.Prelude.{All, IfSome};
ghost use Rattle.std.specs.List.{AllByRecursion};
ghost use Rattle.master_state.specs.Tests.{attempts_of};
ghost use Rattle.master_tables.specs.Entries.{shown_as};
ghost use Rattle.master_core.specs.Near.{IsTouched, IsWorkerTouched, StaysTouched};

use master_state::Attempt;
use master_tables::entries::SplitEntry;
use node_ids::{SplitNo, WorkerNo};
use std::alloc::{AllocError, Global};

// How many changes of splits are listed, and how many of workers. After more changes each split and each
// worker is looked at.
const MOST_LISTED: usize = 1_024;

/// The splits and the workers that may have changed since the last wave: the listed ones, or any if there
/// were more changes.
#[derive(Drop)]
pub struct Touched {
    pub splits: Vec<SplitNo>,
    pub workers: Vec<WorkerNo>,
    pub any: bool,
}

impl Touched {
    /// Nothing is touched. The lists have room for as many splits and workers as they may name.
    pub fn new(alloc: Global) -> Result<Touched, AllocError> {
        Ok(Touched {
            splits: Vec::with_capacity(alloc, MOST_LISTED)?,
            workers: Vec::with_capacity(alloc, MOST_LISTED)?,
            any: false,
        })
    }

    /// Forgets all that were touched before.
    pub fn clear(&mut self) {
        self.splits.clear();
        self.workers.clear();
        self.any = false;
    }

    /// Touches a split.
    pub fn touch_split(&mut self, split: SplitNo)
        ensures here { IsTouched self.new split }
        ensures before { StaysTouched self.old self.new }
    {
        if self.splits.len() < self.splits.capacity() {
            self.splits.push_reserved(split);
        } else {
            self.any = true;
        }
    }

    /// Touches a worker.
    pub fn touch_worker(&mut self, worker: WorkerNo)
        ensures here { IsWorkerTouched self.new worker }
        ensures before { StaysTouched self.old self.new }
    {
        if self.workers.len() < self.workers.capacity() {
            self.workers.push_reserved(worker);
        } else {
            self.any = true;
        }
    }

    /// Touches a split and a worker.
    pub fn touch(&mut self, split: SplitNo, worker: WorkerNo)
        ensures split { IsTouched self.new split }
        ensures worker { IsWorkerTouched self.new worker }
        ensures before { StaysTouched self.old self.new }
    {
        self.touch_split(split);
        self.touch_worker(worker);
    }

    /// Touches a split and the workers of all attempts that it runs.
    pub fn touch_running(&mut self, split: SplitNo, entry: &SplitEntry)
        ensures split { IsTouched self.new split }
        ensures workers { AllByRecursion (λ attempt. IsWorkerTouched self.new attempt.worker)
            (attempts_of (shown_as entry.now)) }
        ensures before { StaysTouched self.old self.new }
    {
        self.touch_split(split);
        match entry {
            SplitEntry::Pending => {}
            SplitEntry::Running(one, second) => {
                self.touch_worker(one.worker);
                self.touch_second(second);
            }
            SplitEntry::Done(_, _) => {}
        }
    }

    // Touches the worker of a second attempt, if there is one.
    fn touch_second(&mut self, second: &Option<Attempt>)
        ensures worker { IfSome second.now (λ attempt. IsWorkerTouched self.new attempt.worker) }
        ensures before { StaysTouched self.old self.new }
    {
        match second {
            None => {}
            Some(attempt) => self.touch_worker(attempt.worker),
        }
    }

    /// Touches the split and the worker of each of these pairs.
    pub fn touch_each(&mut self, pairs: &[(SplitNo, WorkerNo)])
        ensures splits { All (λ pair. IsTouched self.new pair.0) pairs.now }
        ensures workers { All (λ pair. IsWorkerTouched self.new pair.1) pairs.now }
        ensures before { StaysTouched self.old self.new }
    {
        for pair in pairs {
            self.touch(pair.0, pair.1);
        }
    }
}
