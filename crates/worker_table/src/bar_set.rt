//! Sets of barred pairs of a split and a worker.
ghost use Rattle.std.specs.Prelude.{◌≡◌, ◌^◌, ◌<◌, IfOk, length};
ghost use Rattle.node_ids.specs.Sets.{has_pair};
ghost use Rattle.worker_table.specs.Bars.{bars_with, no_bars};

use indexmap::IndexSet;
use node_ids::{PairSet, SplitNo, WorkerNo};
use std::alloc::{AllocError, Global};
use std::marker::Model;

/// The barred pairs of a split and a worker, for the splits that the set was made for. To bar a pair takes no
/// memory, and to look one up takes one hash.
#[derive(Drop)]
pub struct BarSet {
    splits: u32,
    room: usize,
    pairs: IndexSet<(SplitNo, WorkerNo)>,
}

impl Model for BarSet {
    ghost use Rattle.worker_table.specs.Bars.{Bars};
    ghost use Rattle.worker_table.specs.BarsInside.{bars_of, IsRoomy};

    ghost Value = { Bars };

    ghost view = { bars_of };

    ghost invariant = { IsRoomy };
}

impl BarSet {
    /// No bars, for so many splits, with room for so many.
    pub fn new(alloc: Global, splits: usize, room: usize) -> Result<BarSet, AllocError>
        requires { splits < 2 ^ 32 }
        ensures { IfOk result (λ bars. bars ≡ no_bars splits room) }
    {
        Ok(BarSet {
            splits: splits as u32,
            room,
            pairs: IndexSet::with_capacity(alloc, room)?,
        })
    }

    /// Whether the pair is barred.
    pub fn has(&self, split: SplitNo, worker: WorkerNo) -> bool
        ensures { result ≡ has_pair self.now.rows split worker }
    {
        self.pairs.contains(&(split, worker))
    }

    /// Bars the pair, and uses the room of one bar.
    pub fn put(&mut self, split: SplitNo, worker: WorkerNo)
        requires split { split < length self.old.rows }
        requires room { 0 < self.old.room }
        ensures { self.new ≡ bars_with self.old split worker }
    {
        self.room -= 1;
        let _is_new = self.pairs.insert((split, worker)).unwrap();
    }

    /// All barred pairs, in rows.
    pub fn rows(&self, alloc: Global) -> Result<PairSet, AllocError>
        ensures { IfOk result (λ set. set ≡ self.now.rows) }
    {
        let mut rows = PairSet::new(alloc, self.splits as usize)?;
        for pair in self.pairs.as_slice() {
            rows.put(pair.0, pair.1)?;
        }
        Ok(rows)
    }
}
