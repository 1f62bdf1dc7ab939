ghost use Rattle.std.specs.Prelude.{◌≡◌, ◌<◌, ◌≤◌, false, IfErr, IfOk, IsTrue, OnOk, length};
ghost use Rattle.std.specs.Prelude.{slice_get, slice_index};
ghost use Rattle.shared_master.specs.Steps.{AreDeadOf, IsKeptSweep};
ghost use Rattle.job_threads.specs.Chains.{EachBelow, OnlyIf};
ghost use Rattle.job_threads.specs.Holdings.{AreReturning, all_buried, buried, changed_at, deaths_after};
ghost use Rattle.job_threads.specs.Holdings.{has_risen};
ghost use Rattle.job_threads.specs.Steps.{AreCopied, Follows, IsAdded, IsBack, IsBackIf, IsCopied};
ghost use Rattle.job_threads.specs.Steps.{IsStepError, IsSwept, known};
ghost use Rattle.job_threads.specs.Watching.{AreLooks};

use crate::aim::Aim;
use crate::caller::Caller;
use crate::common::judge;
use crate::gate::Gate;
use crate::outcome::RunError;
use block_map::CopyOrder;
use master_state::Answer;
use node_ids::{SplitNo, SplitRow, SplitSet, WorkerNo};
use shared_master::OfJob;
use std::alloc::{AllocError, Global};
use std::sync::Wait;
use std::sync::ledger::Ledger;

impl<'a, L: Ledger + OfJob + Aim, G: Gate, R: Wait> Caller<'a, L, G, R> {
    // Hands what is seen of all beats to the master, and does what follows: whether a dead worker rose.
    pub(crate) fn sweep(&mut self) -> Result<bool, RunError>
        ensures looks { OnOk result (AreLooks self.old.watch self.new.watch) }
        ensures swept { IfOk result (λ rose. IsSwept L.setup L.target self.old.holdings.splits
            self.new.watch.told (known self.old.holdings.workers.items self.old.hand) rose
            (known self.new.holdings.workers.items self.new.hand)) }
        ensures quiet { self.new.quiet ≡ self.old.quiet }
        ensures idle { self.new.idle ≡ self.old.idle }
        ensures err { IfErr result IsStepError }
    {
        let answer = self.hand_in();
        judge(answer, &self.hand)?;
        self.follow()
    }

    // Buries the dead, has copies made where one died, and lets those join that rose: whether one did.
    fn follow(&mut self) -> Result<bool, RunError>
        ensures follows { IfOk result (λ rose. Follows L.setup L.target self.old.holdings.splits
            self.old.watch.told self.old.dead (known self.old.holdings.workers.items self.old.hand) rose
            (known self.new.holdings.workers.items self.new.hand)) }
        ensures watch { self.new.watch ≡ self.old.watch }
        ensures quiet { self.new.quiet ≡ self.old.quiet }
        ensures idle { self.new.idle ≡ self.old.idle }
        ensures err { IfErr result IsStepError }
    {
        self.bury_all();
        let died = !self.dead.workers().is_empty();
        self.copy_if(died)?;
        self.join_all()
    }

    // What the master answers to what is seen of all beats. Then the list has who died.
    fn hand_in(&mut self) -> Answer
        ensures looks { AreLooks self.old.watch self.new.watch }
        ensures kept { IsKeptSweep self.old.hand self.new.watch.told result self.new.hand }
        ensures dead { AreDeadOf L.setup self.new.watch.told result self.new.dead }
        ensures same { self.new
            ≡ record self.old { hand = self.new.hand; watch = self.new.watch; dead = self.new.dead } }
    {
        self.watch.look();
        let common = self.common;
        self.dead.sweep(common.rt, common.shared, &mut self.hand, self.watch.told())
    }

    // After a death.
    fn copy_if(&mut self, died: bool) -> Result<(), RunError>
        ensures copies { OnOk result (OnlyIf died (AreCopied L.setup L.target)
            (known self.old.holdings.workers.items self.old.hand)
            (known self.new.holdings.workers.items self.new.hand)) }
        ensures splits { self.new.holdings.splits ≡ self.old.holdings.splits }
        ensures same { self.new ≡ record self.old { hand = self.new.hand; holdings = self.new.holdings } }
        ensures err { IfErr result IsStepError }
    {
        if died { self.copy() } else { Ok(()) }
    }

    // Has the copies made that bring each split of the job nearer to its target.
    fn copy(&mut self) -> Result<(), RunError>
        ensures copies { OnOk result (AreCopied L.setup L.target
            (known self.old.holdings.workers.items self.old.hand)
            (known self.new.holdings.workers.items self.new.hand)) }
        ensures splits { self.new.holdings.splits ≡ self.old.holdings.splits }
        ensures same { self.new ≡ record self.old { hand = self.new.hand; holdings = self.new.holdings } }
        ensures err { IfErr result IsStepError }
    {
        let common = self.common;
        let Ok(orders) = common
            .shared
            .copy_orders(common.rt, common.alloc, self.brief.target())
        else {
            return Err(RunError::Memory);
        };
        self.add_copies(&orders)
    }

    // Adds the copies one after another.
    fn add_copies(&mut self, orders: &[CopyOrder]) -> Result<(), RunError>
        ensures each { OnOk result (EachBelow (IsCopied orders.now) (length orders.now)
            (known self.old.holdings.workers.items self.old.hand)
            (known self.new.holdings.workers.items self.new.hand)) }
        ensures splits { self.new.holdings.splits ≡ self.old.holdings.splits }
        ensures same { self.new ≡ record self.old { hand = self.new.hand; holdings = self.new.holdings } }
        ensures err { IfErr result IsStepError }
    {
        for order in orders {
            self.add(order.split, order.to)?;
        }
        Ok(())
    }

    // The worker holds the split too, where the master takes it.
    fn add(&mut self, split: SplitNo, worker: WorkerNo) -> Result<(), RunError>
        ensures added { OnOk result (IsAdded split worker
            (known self.old.holdings.workers.items self.old.hand)
            (known self.new.holdings.workers.items self.new.hand)) }
        ensures same { self.new ≡ record self.old { hand = self.new.hand; holdings = self.new.holdings } }
        ensures splits { self.new.holdings.splits ≡ self.old.holdings.splits }
        ensures err { IfErr result IsStepError }
    {
        let common = self.common;
        let sizes = common.shared.sizes();
        if split.index() >= sizes.splits || worker.index() >= sizes.workers {
            return Err(RunError::Torn(0));
        }
        let answer = common.shared.add(common.rt, &mut self.hand, split, worker);
        self.holdings.add_if(answer, split, worker);
        judge(answer, &self.hand)
    }

    // Dead workers whose beats have risen join again: whether one's have.
    fn join_all(&mut self) -> Result<bool, RunError>
        ensures joined { IfOk result (λ rose.
            EachBelow (IsBackIf self.old.watch.told self.old.holdings.splits) (length self.old.watch.told)
            (known self.old.holdings.workers.items self.old.hand, false)
            (known self.new.holdings.workers.items self.new.hand, rose)) }
        ensures splits { self.new.holdings.splits ≡ self.old.holdings.splits }
        ensures same { self.new ≡ record self.old { hand = self.new.hand; holdings = self.new.holdings } }
        ensures err { IfErr result IsStepError }
    {
        let mut rose = false;
        for worker in 0..self.watch.told().len() {
            rose |= self.join_if(WorkerNo::new(worker as u16))?;
        }
        Ok(rose)
    }

    // The worker joins again, if it is dead and its beats have risen: whether they have.
    fn join_if(&mut self, worker: WorkerNo) -> Result<bool, RunError>
        ensures joined { IfOk result (λ rose. OnlyIf rose (IsBack self.old.holdings.splits worker)
            (known self.old.holdings.workers.items self.old.hand)
            (known self.new.holdings.workers.items self.new.hand)) }
        ensures rose { IfOk result (λ rose. rose ≡ has_risen (slice_index self.old.watch.told worker)
            (slice_get self.old.holdings.workers.items worker)) }
        ensures splits { self.new.holdings.splits ≡ self.old.holdings.splits }
        ensures same { self.new ≡ record self.old { hand = self.new.hand; holdings = self.new.holdings } }
        ensures err { IfErr result IsStepError }
    {
        if !self.has_risen(worker) {
            return Ok(false);
        }
        self.join(worker)?;
        Ok(true)
    }

    // A dead worker whose beats have risen is back, with the splits that it held.
    fn join(&mut self, worker: WorkerNo) -> Result<(), RunError>
        requires { IsTrue (has_risen (slice_index self.old.watch.told worker)
            (slice_get self.old.holdings.workers.items worker)) }
        ensures back { OnOk result (IsBack self.old.holdings.splits worker
            (known self.old.holdings.workers.items self.old.hand)
            (known self.new.holdings.workers.items self.new.hand)) }
        ensures same { self.new ≡ record self.old { hand = self.new.hand; holdings = self.new.holdings } }
        ensures splits { self.new.holdings.splits ≡ self.old.holdings.splits }
        ensures err { IfErr result IsStepError }
    {
        let Ok(set) = self.holdings.returning(self.common.alloc, worker) else {
            return Err(RunError::Memory);
        };
        self.join_with(worker, &set)
    }

    // The worker is back with these splits, where the master takes it.
    fn join_with(&mut self, worker: WorkerNo, set: &SplitSet) -> Result<(), RunError>
        requires { AreReturning self.old.holdings.workers.items self.old.holdings.splits
            (slice_get self.old.holdings.workers.items worker) set.now }
        ensures back { OnOk result (IsBack self.old.holdings.splits worker
            (known self.old.holdings.workers.items self.old.hand)
            (known self.new.holdings.workers.items self.new.hand)) }
        ensures same { self.new ≡ record self.old { hand = self.new.hand; holdings = self.new.holdings } }
        ensures splits { self.new.holdings.splits ≡ self.old.holdings.splits }
        ensures err { IfErr result IsStepError }
    {
        let common = self.common;
        let sizes = common.shared.sizes();
        if worker.index() >= sizes.workers || !set.are_below(sizes.splits) {
            return Err(RunError::Torn(0));
        }
        let Ok((told, kept)) = both_of(common.alloc, set) else {
            return Err(RunError::Memory);
        };
        let answer = common
            .shared
            .join(common.rt, &mut self.hand, worker, told, kept);
        self.holdings.take_back_if(answer, worker, set);
        judge(answer, &self.hand)
    }
}

impl<L: Ledger + OfJob + Aim, G: Gate, R> Caller<'_, L, G, R> {
    // Notes who died.
    fn bury_all(&mut self)
        ensures workers { self.new.holdings.workers.items ≡ all_buried self.old.dead self.old.watch.told
            (length self.old.dead) self.old.holdings.workers.items }
        ensures deaths { self.new.deaths ≡ deaths_after self.old.deaths (length self.old.dead) }
        ensures splits { self.new.holdings.splits ≡ self.old.holdings.splits }
        ensures same { self.new
            ≡ record self.old { holdings = self.new.holdings; deaths = self.new.deaths } }
    {
        let count = self.dead.workers().len();
        for i in 0..count {
            let worker = self.dead.workers()[i];
            self.bury(worker);
        }
        let most = u32::MAX as usize;
        self.deaths = self.deaths.saturating_add(count.min(most) as u32);
    }

    // Notes that a worker died, when so many of its beats were handed in. What was started on it is lost, and
    // it passes over these orders if it was dead by mistake: else its lane would fill.
    fn bury(&mut self, worker: WorkerNo)
        ensures value { self.new.holdings.workers.items
            ≡ changed_at (buried (slice_index self.old.watch.told worker))
            self.old.holdings.workers.items worker }
        ensures same { self.new ≡ record self.old { holdings = self.new.holdings } }
        ensures splits { self.new.holdings.splits ≡ self.old.holdings.splits }
    {
        let seen = self.watch.seen_of(worker);
        self.holdings.bury(worker, seen);
        if let Some(lane) = self.lanes.get(worker.index()) {
            lane.pass_over(self.newest);
        }
    }

    // Whether the worker is dead and was not stopped, and more of its beats were handed in than when it died.
    fn has_risen(&self, worker: WorkerNo) -> bool
        ensures { result ≡ has_risen (slice_index self.now.watch.told worker)
            (slice_get self.now.holdings.workers.items worker) }
    {
        self.holdings.has_risen(worker, self.watch.seen_of(worker))
    }
}

// Two sets of the same splits: one for the history, and one for the hand.
fn both_of(alloc: Global, set: &SplitSet) -> Result<(SplitSet, SplitSet), AllocError>
    ensures { IfOk result (λ both. (both.0 ≡ set.now) × (both.1 ≡ set.now)) }
{
    let splits = SplitRow::of(set);
    Ok((splits.to_set(alloc)?, splits.to_set(alloc)?))
}
