ghost use Rattle.std.specs.Prelude.{◌≡◌, ◌≤◌, IfOk, Some, length, replicate, slice_get};
ghost use Rattle.job_threads.specs.Holdings.{AreReturning, back_with, buried, changed_at, empty_handed};
ghost use Rattle.job_threads.specs.Holdings.{has_risen, held_too, holders_of, holding_too, may_return};
ghost use Rattle.job_threads.specs.Holdings.{opened, stopped, with_all};
ghost use Rattle.job_threads.specs.Steps.{changed_if};

use master_core::Cluster;
use master_state::Answer;
use node_ids::{SplitNo, SplitSet, SplitTable, WorkerNo};
use std::alloc::{AllocError, Global};
use std::mem;

// What the calling thread knows of a worker. Its tables are made once, so that no change takes memory.
#[derive(Drop)]
pub(crate) struct Holding {
    // the splits that it holds; none where it is dead
    pub(crate) held: SplitTable,
    // the splits that it held when it died
    pub(crate) lost: SplitTable,
    // what was seen of its beats then
    pub(crate) seen: u64,
    pub(crate) is_dead: bool,
    pub(crate) is_stopped: bool,
}

impl Holding {
    // A worker that holds nothing, of so many splits.
    fn new(alloc: Global, splits: usize) -> Result<Holding, AllocError>
        requires { splits ≤ 131072 }
        ensures { IfOk result (λ h. h ≡ empty_handed splits) }
    {
        Ok(Holding {
            held: SplitTable::new(alloc, splits)?,
            lost: SplitTable::new(alloc, splits)?,
            seen: 0,
            is_dead: false,
            is_stopped: false,
        })
    }
}

// What the calling thread knows of all workers. It alone changes holders.
#[derive(Drop)]
pub(crate) struct Holdings {
    pub(crate) workers: Vec<Holding>,
    pub(crate) splits: usize,
    ghost few: { splits ≤ 131072 },
}

impl Holdings {
    // The first holders of a cluster.
    pub(crate) fn of(alloc: Global, cluster: &Cluster) -> Result<Holdings, AllocError>
        ensures workers { IfOk result (λ h. h.workers.items ≡ opened cluster.now) }
        ensures splits { IfOk result (λ h. h.splits ≡ length cluster.now.splits) }
    {
        let splits = cluster.splits().len();
        let mut holdings = Holdings {
            workers: all_empty_handed(alloc, cluster.slots().len(), splits)?,
            splits,
        };
        for split in 0..splits {
            let line = &cluster.splits()[split];
            holdings.add_all(SplitNo::new(split as u32), &line.holders);
        }
        Ok(holdings)
    }

    // The workers hold the split.
    fn add_all(&mut self, split: SplitNo, workers: &[WorkerNo])
        ensures value { self.new.workers.items
            ≡ held_too split (length workers.now) workers.now self.old.workers.items }
        ensures splits { self.new.splits ≡ self.old.splits }
    {
        for worker in workers {
            self.add(split, *worker);
        }
    }

    // The worker holds the split too.
    pub(crate) fn add(&mut self, split: SplitNo, worker: WorkerNo)
        ensures value { self.new.workers.items
            ≡ changed_at (holding_too split) self.old.workers.items worker }
        ensures splits { self.new.splits ≡ self.old.splits }
    {
        if let Some(holding) = self.workers.get_mut(worker.index()) {
            holding.held.put(split);
        }
    }

    // The same where the call was accepted.
    pub(crate) fn add_if(&mut self, answer: Answer, split: SplitNo, worker: WorkerNo)
        ensures value { self.new.workers.items
            ≡ changed_if answer (holding_too split) self.old.workers.items worker }
        ensures splits { self.new.splits ≡ self.old.splits }
    {
        if let Answer::Accepted(_, ()) = answer {
            self.add(split, worker);
        }
    }

    // The worker died, when so many of its beats were seen.
    pub(crate) fn bury(&mut self, worker: WorkerNo, seen: u64)
        ensures value { self.new.workers.items ≡ changed_at (buried seen) self.old.workers.items worker }
        ensures splits { self.new.splits ≡ self.old.splits }
    {
        if let Some(holding) = self.workers.get_mut(worker.index()) {
            mem::swap(&mut holding.held, &mut holding.lost);
            holding.held.clear();
            holding.seen = seen;
            holding.is_dead = true;
        }
    }

    // The worker was stopped, and never joins again.
    pub(crate) fn stop(&mut self, worker: WorkerNo)
        ensures value { self.new.workers.items ≡ changed_at stopped self.old.workers.items worker }
        ensures splits { self.new.splits ≡ self.old.splits }
    {
        if let Some(holding) = self.workers.get_mut(worker.index()) {
            holding.is_stopped = true;
        }
    }

    // Whether the worker is dead and was not stopped, and more of its beats are seen than when it died.
    pub(crate) fn has_risen(&self, worker: WorkerNo, seen: u64) -> bool
        ensures { result ≡ has_risen seen (slice_get self.now.workers.items worker) }
    {
        let Some(holding) = self.workers.get(worker.index()) else {
            return false;
        };
        holding.is_dead && !holding.is_stopped && holding.seen < seen
    }

    // The splits with which a dead worker joins again: the splits that it held, but for splits with eight
    // holders or more.
    pub(crate) fn returning(&self, alloc: Global, worker: WorkerNo) -> Result<SplitSet, AllocError>
        ensures { IfOk result (AreReturning self.now.workers.items self.now.splits
            (slice_get self.now.workers.items worker)) }
    {
        let mut set = SplitSet::new(alloc);
        let Some(holding) = self.workers.get(worker.index()) else {
            return Ok(set);
        };
        for split in 0..self.splits {
            let split = SplitNo::new(split as u32);
            if self.may_return(holding, split) {
                set.put(split)?;
            }
        }
        Ok(set)
    }

    // Whether a worker joins again with the split.
    fn may_return(&self, holding: &Holding, split: SplitNo) -> bool
        ensures { result ≡ may_return self.now.workers.items (Some holding.now) split }
    {
        holding.lost.has(split) && self.holders(split) < 8
    }

    // How many workers hold the split.
    fn holders(&self, split: SplitNo) -> usize
        ensures { result ≡ holders_of split self.now.workers.items }
    {
        let mut count = 0;
        for holding in &self.workers {
            if holding.held.has(split) {
                count += 1;
            }
        }
        count
    }

    // The worker is back with these splits.
    pub(crate) fn take_back(&mut self, worker: WorkerNo, set: &SplitSet)
        ensures value { self.new.workers.items
            ≡ changed_at (back_with set.now) self.old.workers.items worker }
        ensures splits { self.new.splits ≡ self.old.splits }
    {
        if let Some(holding) = self.workers.get_mut(worker.index()) {
            let held = &mut holding.held;
            held.clear();
            put_all(held, set.members());
            holding.is_dead = false;
        }
    }

    // The same where the call was accepted.
    pub(crate) fn take_back_if(&mut self, answer: Answer, worker: WorkerNo, set: &SplitSet)
        ensures value { self.new.workers.items
            ≡ changed_if answer (back_with set.now) self.old.workers.items worker }
        ensures splits { self.new.splits ≡ self.old.splits }
    {
        if let Answer::Accepted(_, ()) = answer {
            self.take_back(worker, set);
        }
    }
}

// So many workers that hold nothing, of so many splits.
fn all_empty_handed(
    alloc: Global,
    workers: usize,
    splits: usize,
) -> Result<Vec<Holding>, AllocError>
    requires { splits ≤ 131072 }
    ensures { IfOk result (λ all. all.items ≡ replicate workers (empty_handed splits)) }
{
    let mut all = Vec::with_capacity(alloc, workers)?;
    for _worker in 0..workers {
        all.push_reserved(Holding::new(alloc, splits)?);
    }
    Ok(all)
}

// Puts all these splits in.
fn put_all(table: &mut SplitTable, splits: &[SplitNo])
    ensures { table.new ≡ with_all table.old splits.now }
{
    for split in splits {
        table.put(*split);
    }
}
