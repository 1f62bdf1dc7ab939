//! Sets of pairs of a split and a worker.
ghost use Rattle.std.specs.Prelude.{◌≡◌, ℕ, [], ◌<◌, ◌⊎◌, ◌↔◌, IfOk, OnOk};
ghost use Rattle.std.specs.Prelude.{length, slice_index_or};
ghost use Rattle.node_ids.specs.Sets.{has_pair, no_pairs, row_with, with_pair, HasPair};
ghost use Rattle.std.specs.List.Sorted.{IsNonDecreasing};

use crate::numbers::{SplitNo, WorkerNo};
use std::alloc::{AllocError, Global};
use std::marker::Model;

/// A set of pairs of a split and a worker: for each of the splits that it was made for, a rising row of
/// workers. It takes 24 bytes for each split, and at least 2 bytes for each pair.
#[derive(Drop)]
pub struct PairSet {
    rows: Vec<Vec<WorkerNo>>,
}

impl Model for PairSet {
    ghost use Rattle.std.specs.Prelude.{ℕ, All, List, map};
    ghost use Rattle.std.specs.List.Sorted.{IsNonDecreasing};

    ghost Value = { List (List ℕ) };

    ghost view = { λ s. map (λ row. row.items) s.rows.items };

    ghost invariant = { λ s. All (λ row. IsNonDecreasing row.items) s.rows.items };
}

impl PairSet {
    /// The set without a member, for so many splits.
    pub fn new(alloc: Global, splits: usize) -> Result<PairSet, AllocError>
        ensures value { IfOk result (λ set. set ≡ no_pairs splits) }
        ensures members { IfOk result (λ set. (s w : ℕ) → HasPair set s w → ⊥) }
    {
        let mut rows = Vec::with_capacity(alloc, splits)?;
        for _s in 0..splits {
            rows.push_reserved(Vec::new(alloc));
        }
        Ok(PairSet { rows })
    }

    /// Whether the pair is in the set.
    pub fn has(&self, split: SplitNo, worker: WorkerNo) -> bool
        ensures { result ≡ has_pair self.now split worker }
    {
        self.row(split).binary_search(&worker).is_ok()
    }

    /// Puts the pair in, if it is not there. The higher workers of the row move up, so a row fills soonest in
    /// rising order.
    pub fn put(&mut self, split: SplitNo, worker: WorkerNo) -> Result<(), AllocError>
        requires { split < length self.old }
        ensures value { OnOk result (self.new ≡ with_pair self.old split worker) }
        ensures members { OnOk result ((s w : ℕ) →
            HasPair self.new s w ↔ (((s ≡ split) × (w ≡ worker)) ⊎ HasPair self.old s w)) }
    {
        put_in_row(&mut self.rows[split.index()], worker)
    }

    /// The workers whose pair with the split is in the set, rising.
    pub fn row(&self, split: SplitNo) -> &[WorkerNo]
        ensures value { result.now ≡ slice_index_or self.now split [] }
        ensures rising { IsNonDecreasing result.now }
    {
        match self.rows.get(split.index()) {
            Some(row) => row,
            None => &[],
        }
    }
}

// Puts the worker in the row, if it is not there.
fn put_in_row(row: &mut Vec<WorkerNo>, worker: WorkerNo) -> Result<(), AllocError>
    requires { IsNonDecreasing row.old.items }
    ensures value { OnOk result (row.new.items ≡ row_with worker row.old.items) }
    ensures rising { IsNonDecreasing row.new.items }
{
    if let Err(place) = row.binary_search(&worker) {
        row.insert(place, worker)?;
    }
    Ok(())
}
