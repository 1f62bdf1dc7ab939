//! Which workers hold a replica of each split, and which copies bring a split nearer to its target.
//!
//! Upward it promises holders as lists, in the order in which they were added, at most 16 of a split;
//! that a worker that is dropped is no holder any more; and copy orders by their definition in
//! `specs/Copies.antt`. Holders are kept inline, so only `new`, `push` and `copy_orders` take memory. It
//! stands on the workers of `worker_table` and the racks of `rack_tree`.
#![tactic(auto)]

mod copies;
mod holders;

ghost use Rattle.std.specs.Prelude.{◌≡◌, ◌≢◌, ◌<◌, ◌≤◌, ◌↔◌, [], ◌∷◌, ◌++◌, true, false, not, is_some};
ghost use Rattle.std.specs.Prelude.{length, replicate, slice_index, take, All, IfOk, IfSome, List, ℕ};
ghost use Rattle.std.specs.Prelude.{OnErr, OnOk};
ghost use Rattle.std.specs.List.Sorted.{IsNonDecreasing};
ghost use Rattle.node_ids.specs.Sets.{is_in_row};
ghost use Rattle.block_map.specs.Holdings.{are_full, has_full_among, holders_of, is_holder, most_holders};
ghost use Rattle.block_map.specs.Holdings.{with_holder};
ghost use Rattle.block_map.specs.Holdings.{with_holder_of_all, without_holder, without_worker};
ghost use Rattle.block_map.specs.Copies.{AreCopies, IsCopy, all_copies, copy_at, holdings, wants_copy};
ghost use Rattle.rack_tree.specs.Tree.{Tree};

use holders::Holders;
use node_ids::{SplitNo, SplitRow, SplitSet, WorkerNo};
use rack_tree::RackTree;
use std::alloc::{AllocError, Global};
use std::marker::Model;
use thiserror::Error;
use worker_table::WorkerTable;

/// To how many holders a split may grow. It may have up to 16 at first, whatever the limit.
#[derive(Clone, Copy, Debug, PartialEq, Eq)]
pub enum HolderLimit {
    /// 8, as in scripts and jobs of versions 1 and 2.
    Eight,
    /// 16, as in scripts and jobs of version 3.
    Sixteen,
}

impl HolderLimit {
    /// The number of holders.
    pub fn most(self) -> usize
        ensures count { result ≡ most_holders self }
        ensures most { result ≤ 16 }
    {
        match self {
            HolderLimit::Eight => 8,
            HolderLimit::Sixteen => 16,
        }
    }
}

/// Why the holders of a split stayed as they were.
#[derive(Clone, Copy, Debug, PartialEq, Eq, Error)]
pub enum MapError {
    /// The worker holds the split already.
    #[error("the worker holds the split already")]
    AlreadyHolds,
    /// The split has as many holders as the limit allows, or more.
    #[error("the split has too many holders for one more")]
    ManyHolders,
    /// The worker does not hold the split.
    #[error("the worker does not hold the split")]
    NotHolder,
}

/// A replica that is to be made: of which split, from which holder, to which worker.
#[derive(Clone, Copy, Debug, PartialEq, Eq)]
pub struct CopyOrder {
    pub split: SplitNo,
    pub from: WorkerNo,
    pub to: WorkerNo,
}

/// The holders of each split. Splits are numbered from 0.
#[derive(Drop)]
pub struct BlockMap {
    lists: Vec<Holders>,
}

impl Model for BlockMap {
    ghost Value = { List (List ℕ) };

    ghost view = { λ m. m.lists.items };

    ghost invariant = { λ m. length m.lists.items ≤ 131072 };
}

impl BlockMap {
    /// So many splits without a holder.
    pub fn new(alloc: Global, splits: usize) -> Result<BlockMap, AllocError>
        requires { splits ≤ 131072 }
        ensures { IfOk result (λ map. map ≡ replicate splits []) }
    {
        Ok(BlockMap {
            lists: empty_lists(alloc, splits)?,
        })
    }

    /// Adds one more split, with these holders in this order.
    pub fn push(&mut self, holders: &[WorkerNo]) -> Result<(), AllocError>
        requires room { length self.old < 131072 }
        requires few { length holders.now ≤ 16 }
        ensures pushed { OnOk result (self.new ≡ self.old ++ holders.now ∷ []) }
        ensures err { OnErr result (self.new ≡ self.old) }
    {
        let alloc = *self.lists.allocator();
        self.lists.push(Holders::of(alloc, holders))?;
        Ok(())
    }

    /// How many splits there are.
    pub fn splits(&self) -> usize
        ensures count { result ≡ length self.now }
        ensures most { result ≤ 131072 }
    {
        self.lists.len()
    }

    /// The holders of a split, in the order in which they were added.
    pub fn holders(&self, split: SplitNo) -> &[WorkerNo]
        requires { split < length self.now }
        ensures value { result.now ≡ holders_of self.now split }
        ensures few { length result.now ≤ 16 }
    {
        self.lists[split.index()].as_slice()
    }

    /// Whether the worker holds the split.
    pub fn holds(&self, split: SplitNo, worker: WorkerNo) -> bool
        requires { split < length self.now }
        ensures { result ≡ is_holder self.now split worker }
    {
        self.lists[split.index()].has(worker)
    }

    /// Whether the split has as many holders as the limit allows, or more.
    pub fn is_full(&self, limit: HolderLimit, split: SplitNo) -> bool
        requires { split < length self.now }
        ensures { result ≡ are_full limit (holders_of self.now split) }
    {
        self.lists[split.index()].is_full(limit)
    }

    /// Whether a split of the set is full.
    pub fn is_any_full(&self, limit: HolderLimit, set: &SplitSet) -> bool
        ensures { result ≡ has_full_among limit self.now set.now }
    {
        is_any_full(&self.lists, limit, set)
    }

    /// Makes the worker the last holder of the split.
    pub fn add(
        &mut self,
        limit: HolderLimit,
        split: SplitNo,
        worker: WorkerNo,
    ) -> Result<(), MapError>
        requires { split < length self.old }
        ensures added { OnOk result (self.new ≡ with_holder self.old split worker) }
        ensures err { OnErr result (self.new ≡ self.old) }
        ensures already { (result ≡ Err MapError.AlreadyHolds) ↔ (is_holder self.old split worker ≡ true) }
        ensures many { (result ≡ Err MapError.ManyHolders)
            ↔ ((is_holder self.old split worker ≡ false)
            × (are_full limit (holders_of self.old split) ≡ true)) }
        ensures no_other { result ≢ Err MapError.NotHolder }
    {
        if self.holds(split, worker) {
            return Err(MapError::AlreadyHolds);
        }
        if self.is_full(limit, split) {
            return Err(MapError::ManyHolders);
        }
        self.lists[split.index()].add(worker);
        Ok(())
    }

    /// Makes the worker the last holder of each split of the set, also of one that it holds.
    pub fn add_to_all(&mut self, limit: HolderLimit, worker: WorkerNo, set: &SplitRow<'_>)
        requires { has_full_among limit self.old set.now ≡ false }
        ensures { self.new ≡ with_holder_of_all self.old set.now worker }
    {
        add_to_each(&mut self.lists, limit, worker, set);
    }

    /// Takes the worker out of the holders of the split.
    pub fn drop_one(&mut self, split: SplitNo, worker: WorkerNo) -> Result<(), MapError>
        requires { split < length self.old }
        ensures dropped { OnOk result (self.new ≡ without_holder self.old split worker) }
        ensures err { OnErr result (self.new ≡ self.old) }
        ensures not_holder { (result ≡ Err MapError.NotHolder) ↔ (is_holder self.old split worker ≡ false) }
        ensures no_other { OnErr result (result ≡ Err MapError.NotHolder) }
    {
        if !self.holds(split, worker) {
            return Err(MapError::NotHolder);
        }
        self.lists[split.index()].remove(worker);
        Ok(())
    }

    /// Takes the worker out of the holders of all splits.
    pub fn drop_worker(&mut self, worker: WorkerNo)
        ensures { self.new ≡ without_worker self.old worker }
    {
        remove_from_each(&mut self.lists, worker);
    }

    /// One copy for each split that has a holder and fewer than the lesser of the target and the number
    /// of live workers: from its lowest holder to the live worker without it in whose rack the fewest of
    /// its replicas are, the lowest among equals.
    pub fn copy_orders(
        &self,
        alloc: Global,
        workers: &WorkerTable,
        tree: &RackTree,
        target: usize,
    ) -> Result<Vec<CopyOrder>, AllocError>
        requires racks { length tree.now.rack_of ≡ length workers.now.each }
        requires holders { All (All (λ h. h < length workers.now.each)) self.now }
        ensures { IfOk result (λ orders.
            AreCopies (holdings workers.now tree.now self.now target) orders.items) }
    {
        copies::copy_orders(alloc, self, workers, tree, target)
    }

    /// How many copies `copy_orders` answers.
    pub fn copy_count(&self, workers: &WorkerTable, target: usize) -> usize
        ensures { (tree : Tree)
            → result ≡ length (all_copies (holdings workers.now tree self.now target)) }
    {
        copies::copy_count(self, workers, target)
    }

    /// The copy of a split, if it wants one.
    pub fn copy_order(
        &self,
        workers: &WorkerTable,
        tree: &RackTree,
        target: usize,
        split: SplitNo,
    ) -> Option<CopyOrder>
        requires racks { length tree.now.rack_of ≡ length workers.now.each }
        requires holders { All (λ h. h < length workers.now.each) (holders_of self.now split) }
        requires known { split < length self.now }
        ensures value { result ≡ copy_at (holdings workers.now tree.now self.now target) split }
        ensures copy { IfSome result (IsCopy (holdings workers.now tree.now self.now target)) }
        ensures wanted { is_some result
            ≡ wants_copy (holdings workers.now tree.now self.now target) split }
    {
        copies::copy_order(self, workers, tree, target, split)
    }
}

fn empty_lists(alloc: Global, splits: usize) -> Result<Vec<Holders>, AllocError>
    ensures { IfOk result (λ lists. lists.items ≡ replicate splits []) }
{
    let mut lists = Vec::with_capacity(alloc, splits)?;
    for _split in 0..splits {
        lists.push(Holders::new(alloc))?;
    }
    Ok(lists)
}

fn is_any_full(lists: &[Holders], limit: HolderLimit, set: &SplitSet) -> bool
    ensures { result ≡ has_full_among limit lists.now set.now }
{
    let members = set.members();
    for split in members {
        if is_full_at(lists, limit, *split) {
            return true;
        }
    }
    false
}

// Whether the split is there, and full.
fn is_full_at(lists: &[Holders], limit: HolderLimit, split: SplitNo) -> bool
    ensures { result ≡ are_full limit (holders_of lists.now split) }
{
    match lists.get(split.index()) {
        Some(holders) => holders.is_full(limit),
        None => false,
    }
}

fn add_to_each(lists: &mut Vec<Holders>, limit: HolderLimit, worker: WorkerNo, set: &SplitRow<'_>)
    requires { has_full_among limit lists.old.items set.now ≡ false }
    ensures { lists.new.items ≡ with_holder_of_all lists.old.items set.now worker }
{
    let members = set.members();
    for i in 0..members.len() {
        if is_first(members, i) {
            add_at(lists, limit, members[i], worker);
        }
    }
}

// Whether the split at a place stands at no place before it.
fn is_first(splits: &[SplitNo], place: usize) -> bool
    requires rising { IsNonDecreasing splits.now }
    requires inside { place < length splits.now }
    ensures { result ≡ not (is_in_row (take place splits.now) (slice_index splits.now place)) }
{
    place == 0 || splits[place - 1] != splits[place]
}

// Makes the worker the last holder of the split, if the split is there.
fn add_at(lists: &mut Vec<Holders>, limit: HolderLimit, split: SplitNo, worker: WorkerNo)
    requires { are_full limit (holders_of lists.old.items split) ≡ false }
    ensures { lists.new.items ≡ with_holder lists.old.items split worker }
{
    if split.index() < lists.len() {
        lists[split.index()].add(worker);
    }
}

fn remove_from_each(lists: &mut Vec<Holders>, worker: WorkerNo)
    ensures { lists.new.items ≡ without_worker lists.old.items worker }
{
    for holders in lists.iter_mut() {
        holders.remove(worker);
    }
}
