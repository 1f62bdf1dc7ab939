//! What is read of a master.
ghost use Rattle.std.specs.Prelude.{◌≡◌, ◌<◌, ◌≤◌, ◌↔◌, length, IfOk, IsTrue, Some, slice_get};
ghost use Rattle.shuffle_reduce.specs.Gather.{values_of};
ghost use Rattle.block_map.specs.Copies.{AreCopies, all_copies, holdings};
ghost use Rattle.master_state.specs.States.{start_of};
ghost use Rattle.master_state.specs.Jobs.{AreResults, IsGlance, IsReady};

use crate::cluster::Cluster;
use crate::master::Master;
use block_map::CopyOrder;
use compact_lists::{CountList, EventList};
use master_state::{Glance, Limits, PartState, SplitState, Start};
use master_tables::counts::{open_parts, open_splits, running_maps, running_parts};
use master_tables::entries::shown;
use master_tables::lines::may_any_start;
use node_ids::{AttemptNo, PartNo, SplitNo};
use shuffle_reduce::PartResult;
use std::alloc::{AllocError, Global};
use std::sync::Arc;
use word_map::SplitText;
use worker_table::WorkerTable;

impl Master {
    /// The cluster that the master was given.
    pub fn cluster(&self) -> &Cluster
        ensures { result.now ≡ self.now.setup.cluster }
    {
        &self.cluster
    }

    /// The rooms that the master was given.
    pub fn limits(&self) -> Limits
        ensures { result ≡ self.now.setup.limits }
    {
        self.limits
    }

    /// Every accepted event, the first one first.
    pub fn history(&self) -> &EventList
        ensures value { result.now.items ≡ self.now.history }
        ensures most { length result.now.items ≤ 1048576 }
    {
        &self.history
    }

    /// How many events were accepted.
    pub fn events(&self) -> u32
        ensures count { result ≡ length self.now.history }
        ensures state { result ≡ self.now.state.events }
        ensures most { result ≤ 1048576 }
    {
        self.history.len() as u32
    }

    /// The start of every attempt, the first one first.
    pub fn starts(&self) -> &[Start]
        ensures { result.now ≡ self.now.state.starts }
    {
        &self.starts
    }

    /// The counts of every sweep, the first one first.
    pub fn sweeps(&self) -> &CountList
        ensures { result.now.items ≡ self.now.state.sweeps }
    {
        &self.sweeps
    }

    /// What an attempt was started for, and where, if it was.
    pub fn start(&self, attempt: AttemptNo) -> Option<Start>
        ensures { result ≡ start_of self.now.state attempt }
    {
        if attempt.index() == 0 {
            return None;
        }
        self.starts.get(attempt.index() - 1).copied()
    }

    /// Who lives, who is silent, and whose slots are taken.
    pub fn workers(&self) -> &WorkerTable
        ensures { result.now ≡ self.now.state.workers }
    {
        &self.workers
    }

    /// What has become of a split.
    pub fn state(&self, split: SplitNo) -> SplitState
        requires { split < length self.now.setup.cluster.splits }
        ensures { slice_get self.now.state.splits split ≡ Some result }
    {
        shown(&self.splits[split.index()])
    }

    /// What has become of a part.
    pub fn part_state(&self, part: PartNo) -> PartState
        requires { part < self.now.setup.cluster.parts }
        ensures { slice_get self.now.state.parts part ≡ Some result }
    {
        self.parts[part.index()]
    }

    /// The results of the parts that are done, in the order in which they were accepted.
    pub fn results(&self) -> &[PartResult]
        ensures value { result.now ≡ self.now.results }
        ensures exact { AreResults self.now.setup self.now.state self.now.results }
    {
        &self.results
    }

    /// What may start now, and what is still to be done.
    pub fn glance(&self) -> Glance
        ensures { IsGlance self.now result }
    {
        Glance {
            ready: self.is_ready(),
            reducible: self.next_reduce().is_some(),
            running: running_maps(&self.splits) + running_parts(&self.parts),
            open_splits: open_splits(&self.splits),
            open_parts: open_parts(&self.parts),
        }
    }

    // Whether a split may start on a worker.
    fn is_ready(&self) -> bool
        ensures { IsTrue result ↔ IsReady self.now }
    {
        may_any_start(&self.workers, &self.splits, &self.holders)
    }

    /// The copies that bring each split nearer to so many replicas, by rising split.
    pub fn copy_orders(&self, alloc: Global, target: usize) -> Result<Vec<CopyOrder>, AllocError>
        ensures { IfOk result (λ orders. AreCopies (holdings self.now.state.workers
            self.now.setup.cluster.tree self.now.state.holders target) orders.items) }
    {
        self.holders
            .copy_orders(alloc, &self.workers, self.cluster.tree(), target)
    }

    /// How many copies `copy_orders` answers.
    pub fn copy_count(&self, target: usize) -> usize
        ensures { result ≡ length (all_copies (holdings self.now.state.workers
            self.now.setup.cluster.tree self.now.state.holders target)) }
    {
        self.holders.copy_count(&self.workers, target)
    }

    /// The text of each split.
    pub fn texts(&self) -> &[Arc<SplitText>]
        ensures { values_of result.now ≡ self.now.setup.cluster.texts }
    {
        self.cluster.texts()
    }
}
