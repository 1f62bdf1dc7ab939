//! The engine that a master keeps from wave to wave.
ghost use Rattle.std.specs.Prelude.{◌≡◌, ℕ, List, []};
ghost use Rattle.wave_problem.specs.declared.lines.WorkerLine.{WorkerLine};
ghost use Rattle.worker_table.specs.Bars.{Bars};
ghost use Rattle.master_state.specs.States.{Cluster};
ghost use Rattle.master_state.specs.declared.states.SplitState.{SplitState};
ghost use Rattle.master_core.specs.declared.touched.Touched.{Touched};
ghost use Rattle.master_core.specs.Near.{IsFlagged, IsLined, IsNear};

use std::mem;
use tree_planner::Engine;
use worker_table::DeadList;

/// The engine of the last wave, from which the next one is planned.
#[derive(Drop)]
pub enum Kept {
    /// No engine is kept.
    None,
    /// An engine whose problem has the present holders and barred pairs.
    Near(Engine),
    /// An engine since which holders or barred pairs may have changed.
    Far(Engine),
}

impl Kept {
    /// Holders or barred pairs change.
    pub fn turn_far(&mut self)
        ensures near { (cluster : Cluster) (holders : List (List ℕ)) (barred : Bars)
            → IsNear self.new cluster holders barred }
        ensures flagged { (touched : Touched) (states : List SplitState)
            → IsFlagged self.new touched states }
        ensures lined { (touched : Touched) (lines : List WorkerLine) → IsLined self.new touched lines }
    {
        // (an engine is big: it is moved only where its kind changes)
        if matches!(self, Kept::Near(_)) {
            *self = match self.take() {
                Kept::Near(engine) => Kept::Far(engine),
                other => other,
            };
        }
    }

    /// Where one of these workers died, its replicas are no holders any more.
    pub fn turn_far_by(&mut self, dead: &DeadList)
        ensures near { (cluster : Cluster) (old new : List (List ℕ)) (barred : Bars)
            → IsNear self.old cluster old barred
            → (dead.now.items ≡ [] → new ≡ old)
            → IsNear self.new cluster new barred }
        ensures flagged { (touched : Touched) (old new : List SplitState)
            → IsFlagged self.old touched old
            → (dead.now.items ≡ [] → new ≡ old)
            → IsFlagged self.new touched new }
        ensures lined { (touched : Touched) (old new : List WorkerLine)
            → IsLined self.old touched old
            → (dead.now.items ≡ [] → new ≡ old)
            → IsLined self.new touched new }
    {
        if !dead.is_empty() {
            self.turn_far();
        }
    }

    /// Takes the engine out.
    pub fn take(&mut self) -> Kept
        ensures kept { result ≡ self.old }
        ensures left { self.new ≡ Kept.None }
    {
        mem::replace(self, Kept::None)
    }
}
