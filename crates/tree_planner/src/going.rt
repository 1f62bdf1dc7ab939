//! An engine that goes over to the next wave.
ghost use Rattle.std.specs.Prelude.{◌≡◌, ◌≢◌, ◌<◌, ◌≤◌, ℕ, IfOk, IsTrue, OnOk, false, length};
ghost use Rattle.wave_problem.specs.declared.TheConstants.{MAX_SLOTS};
ghost use Rattle.wave_problem.specs.Wave.{worker_at, IsUsable, Wave};
ghost use Rattle.tree_flow.specs.declared.nodes.Place.TheVariants.{Unshipped};
ghost use Rattle.tree_flow.specs.Slots.{with_workers};
ghost use Rattle.tree_flow.specs.State.{place_of};
ghost use Rattle.tree_planner.specs.Going.{HasLine, HasMore, IsHeldBack};
ghost use Rattle.tree_planner.specs.Shown.{state_in};

use crate::kept::Engine;
use crate::tables::slots_of;
use node_ids::{SplitNo, WorkerNo};
use std::alloc::{AllocError, Global};
use wave_problem::{MAX_SLOTS, Problem, WorkerLine};

impl Engine {
    /// Goes over to another problem, and settles. The nearer it is to the problem that the engine stands for,
    /// the less there is to do: a split whose ends are the same stays where it is, and so does a slot.
    /// Without memory the engine stands for some problem between the two, and may go over from there.
    pub fn go_to(&mut self, alloc: Global, next: Problem) -> Result<(), AllocError>
        ensures wave { OnOk result (self.new.wave ≡ next) }
        ensures shipped { OnOk result ((s : ℕ) → s < length next.splits
            → place_of (state_in self.new) s ≢ Unshipped) }
    {
        self.start_gone(alloc, &next);
        self.lose_surplus(alloc, &next)?;
        let lines = all_lines(alloc, &next)?;
        let mut held = next;
        hold_back(self.problem(), &mut held);
        self.turn_to(alloc, held)?;
        self.gain(alloc, &lines)?;
        self.settle(alloc)?;
        Ok(())
    }

    // Starts the splits that are not pending any more, where they stand: that takes the slots away, too.
    fn start_gone(&mut self, alloc: Global, next: &Problem) {
        for s in 0..next.splits() {
            let split = SplitNo::new(s as u32);
            if !next.is_pending(split) && s < self.problem().splits() {
                self.start(alloc, split);
            }
        }
    }

    // Loses slots of each worker until it has no more than in another problem.
    fn lose_surplus(&mut self, alloc: Global, next: &Problem) -> Result<(), AllocError> {
        for w in 0..next.workers() {
            let worker = WorkerNo::new(w as u16);
            if w < self.problem().workers() {
                self.lose_down_to(alloc, worker, slots_of(next, worker))?;
            }
        }
        Ok(())
    }

    /// Loses slots of a worker until it can give no more than these.
    pub fn lose_down_to(
        &mut self,
        alloc: Global,
        worker: WorkerNo,
        slots: u64,
    ) -> Result<(), AllocError>
        requires { worker < length self.old.wave.workers }
        ensures only { OnOk result
            (HasLine self.old.wave self.new.wave worker (worker_at self.new.wave worker)) }
        ensures live { OnOk result
            ((worker_at self.new.wave worker).live ≡ (worker_at self.old.wave worker).live) }
    {
        for _k in 0..MAX_SLOTS {
            if !has_surplus(self.problem(), worker, slots) {
                return Ok(());
            }
            self.lose(alloc, worker)?;
        }
        Ok(())
    }

    /// Frees slots of each worker until it has as many as its line says.
    pub fn gain(&mut self, alloc: Global, lines: &[WorkerLine]) -> Result<(), AllocError>
        requires { HasMore self.old.wave lines.now }
        ensures { OnOk result (self.new.wave ≡ with_workers self.old.wave lines.now) }
    {
        for w in 0..self.problem().workers() {
            self.gain_up_to(alloc, WorkerNo::new(w as u16), lines[w])?;
        }
        Ok(())
    }

    /// Frees slots of a worker until it has as many as a line says.
    pub fn gain_up_to(
        &mut self,
        alloc: Global,
        worker: WorkerNo,
        line: WorkerLine,
    ) -> Result<(), AllocError>
        requires worker { worker < length self.old.wave.workers }
        requires live { line.live ≡ (worker_at self.old.wave worker).live }
        requires more { (worker_at self.old.wave worker).free ≤ line.free }
        requires dead { line.live ≡ false → line.free ≡ (worker_at self.old.wave worker).free }
        requires most { line.free ≤ MAX_SLOTS }
        ensures { OnOk result (HasLine self.old.wave self.new.wave worker line) }
    {
        for _slots in self.problem().free(worker)..line.free {
            self.free(alloc, worker)?;
        }
        Ok(())
    }
}

/// Whether a worker can give more slots than these.
pub fn has_surplus(problem: &Problem, worker: WorkerNo, slots: u64) -> bool
    requires { worker < length problem.now.workers }
    ensures { IsTrue result → IsUsable problem.now.workers worker }
{
    problem.is_live(worker) && u64::from(problem.free(worker)) > slots
}

/// The line of each worker.
pub fn all_lines(alloc: Global, problem: &Problem) -> Result<Vec<WorkerLine>, AllocError>
    ensures { IfOk result (λ lines. lines.items ≡ problem.now.workers) }
{
    let mut lines = Vec::with_capacity(alloc, problem.workers())?;
    for w in 0..problem.workers() {
        lines.push(line_of(problem, WorkerNo::new(w as u16)))?;
    }
    Ok(lines)
}

fn line_of(problem: &Problem, worker: WorkerNo) -> WorkerLine
    requires { worker < length problem.now.workers }
    ensures line { result ≡ worker_at problem.now worker }
    ensures most { result.free ≤ MAX_SLOTS }
{
    WorkerLine {
        live: problem.is_live(worker),
        free: problem.free(worker),
    }
}

// Leaves each live worker no more slots than it can give in another problem.
fn hold_back(problem: &Problem, next: &mut Problem)
    ensures { IsHeldBack next.old next.new }
{
    next.limits();
    for w in 0..next.workers() {
        hold_back_at(problem, next, WorkerNo::new(w as u16));
    }
}

fn hold_back_at(problem: &Problem, next: &mut Problem, worker: WorkerNo)
    requires { worker < length next.old.workers }
    ensures { (first : Wave) → IsHeldBack first next.old → IsHeldBack first next.new }
{
    if worker.index() >= problem.workers() {
        return;
    }
    let line = fewest(line_of(next, worker), slots_of(problem, worker));
    next.set_worker(worker, line);
}

// The line with no more slots than these, if the worker lives.
fn fewest(line: WorkerLine, slots: u64) -> WorkerLine
    ensures live { result.live ≡ line.live }
    ensures less { result.free ≤ line.free }
    ensures dead { line.live ≡ false → result.free ≡ line.free }
{
    if line.live && slots < u64::from(line.free) {
        return WorkerLine {
            live: line.live,
            free: slots as u8,
        };
    }
    line
}
