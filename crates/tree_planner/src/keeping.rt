//! An engine that is kept up over waves of the same tree, bytes, holders and bars.
ghost use Rattle.std.specs.Prelude.{◌≡◌, ◌≢◌, ◌<◌, ◌≤◌, ℕ, true, IfOk, IsTrue, OnOk, Some, length};
ghost use Rattle.wave_problem.specs.declared.TheConstants.{MAX_SLOTS};
ghost use Rattle.wave_problem.specs.Wave.{split_at, worker_at};
ghost use Rattle.tree_planner.specs.Going.{HasLine, HasSameGround};

use crate::kept::Engine;
use node_ids::{SplitNo, WorkerNo};
use std::alloc::{AllocError, Global};
use wave_problem::WorkerLine;

impl Engine {
    /// A pending split is not pending any more, or the other way round. Where it stands, it starts then,
    /// which takes a slot away, too. It answers on which worker: the line of each other worker is as before.
    pub fn flag(
        &mut self,
        alloc: Global,
        split: SplitNo,
        pending: bool,
    ) -> Result<Option<WorkerNo>, AllocError>
        requires split { split < length self.old.wave.splits }
        requires other { (split_at self.old.wave split).pending ≢ pending }
        ensures ground { OnOk result (HasSameGround self.old.wave self.new.wave) }
        ensures here { OnOk result ((split_at self.new.wave split).pending ≡ pending) }
        ensures others { OnOk result ((s : ℕ) → s ≢ split
            → split_at self.new.wave s ≡ split_at self.old.wave s) }
        ensures lines { IfOk result (λ started. (w : ℕ) → started ≢ Some w
            → worker_at self.new.wave w ≡ worker_at self.old.wave w) }
    {
        if !pending {
            return Ok(self.set_aside(alloc, split));
        }
        self.pend(alloc, split)?;
        Ok(None)
    }

    /// Loses and frees slots until the worker has as many as its line says, and tells whether it has. It
    /// cannot where the worker has died or has joined since.
    pub fn fit_worker(
        &mut self,
        alloc: Global,
        worker: WorkerNo,
        line: WorkerLine,
    ) -> Result<bool, AllocError>
        requires worker { worker < length self.old.wave.workers }
        requires most { line.free ≤ MAX_SLOTS }
        ensures only { OnOk result
            (HasLine self.old.wave self.new.wave worker (worker_at self.new.wave worker)) }
        ensures fit { IfOk result (λ fit. IsTrue fit → worker_at self.new.wave worker ≡ line) }
    {
        let free = self.problem().free(worker);
        if line.live != self.problem().is_live(worker) {
            return Ok(false);
        }
        if line.free == free {
            return Ok(true);
        }
        if !line.live {
            return Ok(false);
        }
        self.fit_slots(alloc, worker, line.free)
    }

    // The same of a worker that lives.
    fn fit_slots(&mut self, alloc: Global, worker: WorkerNo, free: u8) -> Result<bool, AllocError>
        requires worker { worker < length self.old.wave.workers }
        requires live { (worker_at self.old.wave worker).live ≡ true }
        requires most { free ≤ MAX_SLOTS }
        ensures only { OnOk result
            (HasLine self.old.wave self.new.wave worker (worker_at self.new.wave worker)) }
        ensures fit { IfOk result (λ fit. IsTrue fit
            → worker_at self.new.wave worker ≡ record { live = true; free = free }) }
    {
        self.lose_down_to(alloc, worker, u64::from(free))?;
        if self.problem().free(worker) > free {
            return Ok(false);
        }
        self.gain_up_to(alloc, worker, WorkerLine { live: true, free })?;
        Ok(true)
    }
}
