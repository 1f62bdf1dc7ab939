ghost use Rattle.master_state.specs.Jobs.{Answers};
ghost use Rattle.master_state.specs.Refusals.{IsKnown};
ghost use Rattle.shared_master.specs.Steps.{call_of};

use master_core::Master;
use master_state::Answer;
use node_ids::{AttemptNo, SplitNo, WorkerNo};

// A call that hands in numbers alone, and is answered by a place or a reason alone.
#[derive(Clone, Copy)]
pub(crate) enum PlainCall {
    Add(SplitNo, WorkerNo),
    Lose(SplitNo, WorkerNo),
    Die(WorkerNo),
    MapFailed(AttemptNo),
    Withdraw(AttemptNo),
    PartFailed(AttemptNo),
}

impl PlainCall {
    // Asks the master.
    pub(crate) fn ask(&self, master: &mut Master) -> Answer
        requires { IsKnown master.old.setup (call_of self.now) }
        ensures { Answers master.old (call_of self.now) result master.new }
    {
        match self {
            PlainCall::Add(split, worker) => master.add(*split, *worker),
            PlainCall::Lose(split, worker) => master.lose(*split, *worker),
            PlainCall::Die(worker) => master.die(*worker),
            PlainCall::MapFailed(attempt) => master.map_failed(*attempt),
            PlainCall::Withdraw(attempt) => master.withdraw(*attempt),
            PlainCall::PartFailed(attempt) => master.part_failed(*attempt),
        }
    }
}
