ghost use Rattle.std.specs.Prelude.{◌≡◌, ◌<◌, ◌++◌, ◌∷◌, ◌↔◌, [], All, IfOk, IsTrue, length};
ghost use Rattle.std.specs.List.Sorted.{IsNonDecreasing};
ghost use Rattle.node_ids.specs.Sets.{is_in_row};

use node_ids::WorkerNo;
use std::alloc::{AllocError, Global};
use std::marker::Model;

/// Who died in a sweep, by rising numbers, in room that was reserved once.
#[derive(Drop)]
pub struct DeadList {
    workers: Vec<WorkerNo>,
}

impl Model for DeadList {
    ghost use Rattle.std.specs.Prelude.{vec_capacity};
    ghost use Rattle.std.specs.List.Sorted.{IsNonDecreasing};
    ghost use Rattle.worker_table.specs.Deaths.{DeadValue};

    ghost Value = { DeadValue };

    ghost view = { λ d. record { items = d.workers.items; room = vec_capacity d.workers } };

    ghost invariant = { λ d. IsNonDecreasing d.workers.items };
}

impl DeadList {
    /// The empty list, with room for so many workers.
    pub fn with_room(alloc: Global, workers: usize) -> Result<DeadList, AllocError>
        ensures { IfOk result (λ list. list ≡ record { items = []; room = workers }) }
    {
        Ok(DeadList {
            workers: Vec::with_capacity(alloc, workers)?,
        })
    }

    /// Who died.
    pub fn as_slice(&self) -> &[WorkerNo]
        ensures value { result.now ≡ self.now.items }
        ensures rising { IsNonDecreasing result.now }
    {
        &self.workers
    }

    /// Whether nobody died.
    pub fn is_empty(&self) -> bool
        ensures { IsTrue result ↔ (self.now.items ≡ []) }
    {
        self.workers.is_empty()
    }

    /// The workers that died, to be asked whether a worker is one of them.
    pub fn dead(&self) -> Dead<'_>
        ensures { result ≡ self.now.items }
    {
        Dead {
            workers: &self.workers,
        }
    }

    /// Takes all workers out.
    pub fn clear(&mut self)
        ensures items { self.new.items ≡ [] }
        ensures room { self.new.room ≡ self.old.room }
    {
        self.workers.clear();
    }

    // Puts a worker after those before it.
    pub(crate) fn push(&mut self, worker: WorkerNo)
        requires room { length self.old.items < self.old.room }
        requires rising { All (λ other. other < worker) self.old.items }
        ensures items { self.new.items ≡ self.old.items ++ worker ∷ [] }
        ensures room { self.new.room ≡ self.old.room }
    {
        self.workers.push_reserved(worker);
    }
}

/// The workers that died, by rising numbers.
#[derive(Drop)]
pub struct Dead<'a> {
    workers: &'a [WorkerNo],
}

impl<'a> Model for Dead<'a> {
    ghost use Rattle.std.specs.Prelude.{ℕ, List};
    ghost use Rattle.std.specs.List.Sorted.{IsNonDecreasing};

    ghost Value = { List ℕ };

    ghost view = { λ d. d.workers.now };

    ghost invariant = { λ d. IsNonDecreasing d.workers.now };
}

impl<'a> Dead<'a> {
    /// Whether the worker died.
    pub fn has(&self, worker: WorkerNo) -> bool
        ensures { result ≡ is_in_row self.now worker }
    {
        self.workers.binary_search(&worker).is_ok()
    }
}
