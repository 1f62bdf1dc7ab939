//! Plans ahead: all pending splits on the workers' queues, of which the heads start.
ghost use Rattle.std.specs.Prelude.{◌≡◌, ◌≢◌, ◌≤◌, All, List, Option, Err, IfOk, OnErr, ℕ, false};
ghost use Rattle.wave_problem.specs.declared.TheConstants.{MAX_SLOTS};
ghost use Rattle.wave_problem.specs.Assignment.{pairs_of};
ghost use Rattle.price_certificate.specs.declared.Condition.{Condition};
ghost use Rattle.master_state.specs.Jobs.{IsCommittedAhead, LacksRoomForHeads, lacks_room};
ghost use Rattle.master_core.specs.Near.{IsSettled};
ghost use Rattle.master_core.specs.Queues.{IsQueuePlan, IsQueued, queue_problem};

use crate::ahead::{Ahead, Queued, heads_of, queue_lines};
use crate::kept::Kept;
use crate::kept_plan::{fresh, gone_over, plan_of};
use crate::master::Master;
use certificate_checker::Certified;
use master_state::{CommitError, Event, Wave};
use master_tables::lines::all_split_lines;
use master_tables::log::record_event;
use master_tables::starting::start_each;
use node_ids::AttemptNo;
use std::alloc::{AllocError, Global};
use tree_planner::Engine;
use wave_planner::{cost_of, pairs_of};
use wave_problem::Problem;

impl Master {
    /// Plans all pending splits onto the workers' queues, as well as can be, and starts the heads: of the
    /// splits in each queue the first ones, as many as the worker has free slots. A queue has as many places
    /// as are asked for its worker, and at least the free slots; a worker past the last that is asked about
    /// has just these. Where no more are asked for, this is a wave. It is tested in the order Memory,
    /// HistoryFull.
    pub fn start_ahead(
        &mut self,
        alloc: Global,
        asked: &[u64],
    ) -> Result<(Ahead, Wave), CommitError>
        requires { All (λ n. n ≤ MAX_SLOTS) asked.now }
        ensures committed { IfOk result (λ a. (starts : List (Option ℕ))
            × (a.0.pairs.items ≡ pairs_of starts)
            × IsCommittedAhead self.old asked.now a.0.planned.plan.starts starts a.1 self.new) }
        ensures queued { IfOk result (λ a. IsQueued self.old asked.now a.0.planned) }
        ensures full { result ≡ Err CommitError.HistoryFull → LacksRoomForHeads self.old asked.now }
        ensures fresh { (c : Condition) → result ≢ Err (CommitError.Stale c) }
        ensures err { OnErr result (self.new ≡ self.old) }
    {
        let Ok(queued) = self.queue_plan(alloc, asked) else {
            return Err(CommitError::Memory);
        };
        if self.has_no_room(queued.pairs.len()) {
            return Err(CommitError::HistoryFull);
        }
        let wave = self.start_heads(asked, &queued);
        let Queued { planned, pairs, .. } = queued;
        Ok((Ahead { planned, pairs }, wave))
    }

    // A best plan of all pending splits onto the queues, with its heads.
    fn queue_plan(&mut self, alloc: Global, asked: &[u64]) -> Result<Queued, AllocError>
        requires { All (λ n. n ≤ MAX_SLOTS) asked.now }
        ensures plan { IfOk result (λ queued. IsQueuePlan self.old asked.now queued) }
        ensures same { self.new ≡ self.old }
    {
        let kept = self.engine.take();
        let engine = self.queue_engine(alloc, kept, asked)?;
        let planned = plan_of(alloc, &engine)?;
        let heads = heads_of(alloc, planned.plan(), self.workers.workers())?;
        let pairs = pairs_of(alloc, &heads)?;
        engine.problem().limits();
        let totals = Certified {
            count: pairs.len(),
            cost: cost_of(engine.problem(), &pairs),
            places: 0,
        };
        self.engine = Kept::Far(engine);
        Ok(Queued {
            planned,
            heads,
            pairs,
            totals,
        })
    }

    // An engine of the problem with queues: the kept engine, or a new engine.
    fn queue_engine(&self, alloc: Global, kept: Kept, asked: &[u64]) -> Result<Engine, AllocError>
        requires { All (λ n. n ≤ MAX_SLOTS) asked.now }
        ensures wave { IfOk result (λ engine.
            engine.wave ≡ queue_problem self.now asked.now) }
        ensures settled { IfOk result IsSettled }
    {
        let problem = self.queue_problem(alloc, asked)?;
        match kept {
            Kept::Near(engine) | Kept::Far(engine) => gone_over(alloc, engine, problem),
            Kept::None => fresh(alloc, problem),
        }
    }

    // The problem of the present state, with the places of queues in place of free slots.
    fn queue_problem(&self, alloc: Global, asked: &[u64]) -> Result<Problem, AllocError>
        requires { All (λ n. n ≤ MAX_SLOTS) asked.now }
        ensures { IfOk result (λ problem. problem ≡ queue_problem self.now asked.now) }
    {
        let workers = queue_lines(alloc, self.workers.workers(), asked)?;
        let splits = all_split_lines(alloc, self.cluster.splits(), &self.splits, &self.holders)?;
        let tree = self.cluster.tree().copy(alloc)?;
        let barred = self.workers.bars().rows(alloc)?;
        Problem::within_limits(alloc, tree, workers, &splits, barred)
    }

    // Starts the heads of a plan ahead, for which there is room.
    fn start_heads(&mut self, asked: &[u64], queued: &Queued) -> Wave
        requires plan { IsQueuePlan self.old asked.now queued.now }
        requires room { lacks_room self.old queued.now.heads.starts ≡ false }
        ensures { IsCommittedAhead self.old asked.now queued.now.planned.plan.starts
            queued.now.heads.starts result
            self.new }
    {
        let _ = asked;
        let first = AttemptNo::new(self.starts.len() as u32 + 1);
        let (count, cost) = (queued.totals.count as u32, queued.totals.cost);
        start_each(
            &mut self.workers,
            &mut self.splits,
            &mut self.starts,
            &queued.pairs,
        );
        self.touched.touch_each(&queued.pairs);
        let place = record_event(&mut self.history, Event::Ahead { first, count, cost });
        Wave {
            place,
            first,
            count,
            cost,
        }
    }
}
