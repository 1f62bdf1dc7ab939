ghost use Rattle.std.specs.Prelude.{◌≡◌, ◌<◌, ℕ, List, false, length};
ghost use Rattle.wave_problem.specs.declared.lines.WorkerLine.{WorkerLine};
ghost use Rattle.worker_table.specs.Workers.{taken_slots};
ghost use Rattle.compact_lists.specs.Lists.{is_join};
ghost use Rattle.master_state.specs.States.{Cluster, State};
ghost use Rattle.master_state.specs.Jobs.{event_of};
ghost use Rattle.master_core.specs.Attempts.{freed_by, part_end, split_end};
ghost use Rattle.master_state.specs.declared.states.SplitState.{SplitState};
ghost use Rattle.master_core.specs.declared.touched.Touched.{Touched};
ghost use Rattle.master_core.specs.Near.{IsFlagged, IsLined, IsNear};

use crate::kept::Kept;
use master_state::Event;
use master_tables::running::{RunningPart, RunningSplit};
use node_ids::AttemptNo;
use worker_table::WorkerTable;

/// Where an attempt runs.
#[derive(Clone, Copy)]
pub enum Found {
    Split(RunningSplit),
    Part(RunningPart),
    Nowhere,
}

/// How an attempt ends that made nothing.
#[derive(Clone, Copy)]
pub enum End {
    Failed,
    Withdrawn,
}

impl End {
    /// The event of the end of a split's attempt.
    pub fn of_split(self, attempt: AttemptNo) -> Event<'static>
        ensures event { (s : State) → result ≡ event_of s (split_end self attempt) }
        ensures no_join { is_join result ≡ false }
    {
        match self {
            End::Failed => Event::MapFailed(attempt),
            End::Withdrawn => Event::Withdraw(attempt),
        }
    }

    /// The event of the end of a part's attempt.
    pub fn of_part(self, attempt: AttemptNo) -> Event<'static>
        ensures event { (s : State) → result ≡ event_of s (part_end self attempt) }
        ensures no_join { is_join result ≡ false }
    {
        match self {
            End::Failed => Event::PartFailed(attempt),
            End::Withdrawn => Event::Withdraw(attempt),
        }
    }
}

/// Gives the slot back of a split's attempt that ends. A failure bars the pair.
pub fn free_slot(workers: &mut WorkerTable, engine: &mut Kept, found: RunningSplit, end: End)
    requires known { found.worker < length workers.old.each }
    requires taken { 0 < taken_slots workers.old found.worker }
    requires bars { found.split < length workers.old.barred.rows }
    requires room { 0 < workers.old.barred.room }
    ensures freed { workers.new ≡ freed_by end workers.old found.split found.worker }
    ensures near { (cluster : Cluster) (holders : List (List ℕ))
        → IsNear engine.old cluster holders workers.old.barred
        → IsNear engine.new cluster holders workers.new.barred }
    ensures flagged { (touched : Touched) (states : List SplitState)
        → IsFlagged engine.old touched states → IsFlagged engine.new touched states }
    ensures lined { (touched : Touched) (lines : List WorkerLine)
        → IsLined engine.old touched lines → IsLined engine.new touched lines }
{
    workers.give_slot(found.worker);
    match end {
        End::Failed => {
            engine.turn_far();
            workers.bar(found.split, found.worker)
        }
        End::Withdrawn => {}
    }
}
