ghost use Rattle.std.specs.Prelude.{◌≡◌, ◌↔◌, [], IfOk, IsTrue, length};
ghost use Rattle.shared_master.specs.Steps.{AreDeadOf, IsKeptSweep};

use master_state::Answer;
use node_ids::WorkerNo;
use shared_master::{Hand, OfJob, SharedMaster};
use std::alloc::{AllocError, Global};
use std::marker::{Model, PhantomData};
use std::sync::Wait;
use std::sync::ledger::Ledger;
use worker_table::DeadList;

// Who died in the last sweep, with room for all workers of the job.
#[derive(Drop)]
pub(crate) struct Dead<L: OfJob> {
    list: DeadList,
    of: PhantomData<L>,
}

impl<L: OfJob> Model for Dead<L> {
    ghost use Rattle.std.specs.Prelude.{◌≤◌, ℕ, List, length};

    ghost Value = { List ℕ };

    ghost view = { λ d. d.list.items };

    ghost invariant = { λ d. length L.setup.cluster.slots ≤ d.list.room };
}

impl<L: OfJob> Dead<L> {
    // Nobody, with room for the workers of the job.
    pub(crate) fn new(alloc: Global, workers: usize) -> Result<Dead<L>, AllocError>
        requires { workers ≡ length L.setup.cluster.slots }
        ensures { IfOk result (λ dead. dead ≡ []) }
    {
        Ok(Dead {
            list: DeadList::with_room(alloc, workers)?,
            of: PhantomData,
        })
    }

    // Who died.
    pub(crate) fn workers(&self) -> &[WorkerNo]
        ensures { result.now ≡ self.now }
    {
        self.list.as_slice()
    }
}

impl<L: Ledger + OfJob> Dead<L> {
    // Hands these counts to the master, and keeps who dies.
    pub(crate) fn sweep<R: Wait>(
        &mut self,
        rt: &R,
        shared: &SharedMaster<L>,
        hand: &mut Hand<L>,
        counts: &[u64],
    ) -> Answer
        requires { length counts.now ≡ length L.setup.cluster.slots }
        ensures kept { IsKeptSweep hand.old counts.now result hand.new }
        ensures dead { AreDeadOf L.setup counts.now result self.new }
    {
        let _ = shared.sizes();
        shared.sweep(rt, hand, counts, &mut self.list)
    }
}
