ghost use Rattle.std.specs.Prelude.{◌≡◌, ◌<◌, ◌≤◌, ◌++◌, ◌∷◌, [], ◌==◌, length, List, ℕ};
ghost use Rattle.std.specs.List.{list_any};
ghost use Rattle.block_map.specs.Holdings.{are_full, without};

use crate::HolderLimit;
use node_ids::WorkerNo;
use smallvec::SmallVec;
use std::alloc::Global;
use std::marker::Model;

/// The holders of one split, at most 16, in the order in which they were added. They are kept inline: no call
/// takes memory.
#[derive(Drop)]
pub(crate) struct Holders {
    workers: SmallVec<WorkerNo, 16>,
}

impl Model for Holders {
    ghost Value = { List ℕ };

    ghost view = { λ h. h.workers.items };

    ghost invariant = { λ h. (length h.workers.items ≤ 16) × (h.workers.capacity ≡ 16) };
}

impl Holders {
    /// No holder.
    pub(crate) fn new(alloc: Global) -> Holders
        ensures { result ≡ [] }
    {
        Holders {
            workers: SmallVec::new(alloc),
        }
    }

    /// These holders, in this order.
    pub(crate) fn of(alloc: Global, workers: &[WorkerNo]) -> Holders
        requires { length workers.now ≤ 16 }
        ensures { result ≡ workers.now }
    {
        let mut holders = Holders::new(alloc);
        for worker in workers {
            holders.add(*worker);
        }
        holders
    }

    pub(crate) fn as_slice(&self) -> &[WorkerNo]
        ensures value { result.now ≡ self.now }
        ensures few { length self.now ≤ 16 }
    {
        self.workers.as_slice()
    }

    pub(crate) fn has(&self, worker: WorkerNo) -> bool
        ensures { result ≡ list_any (λ h. h == worker) self.now }
    {
        self.workers.as_slice().contains(&worker)
    }

    pub(crate) fn is_full(&self, limit: HolderLimit) -> bool
        ensures { result ≡ are_full limit self.now }
    {
        self.workers.len() >= limit.most()
    }

    pub(crate) fn add(&mut self, worker: WorkerNo)
        requires { length self.old < 16 }
        ensures { self.new ≡ self.old ++ worker ∷ [] }
    {
        self.workers.push_reserved(worker);
    }

    /// Takes out each entry of the worker.
    pub(crate) fn remove(&mut self, worker: WorkerNo)
        ensures { self.new ≡ without worker self.old }
    {
        // (that holders differ is kept by the whole state, and not by this type)
        self.workers.retain(|holder| *holder != worker);
    }
}
