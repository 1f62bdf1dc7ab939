ghost use Rattle.std.specs.Prelude.{◌≡◌, ◌⊎◌, IfErr, IfOk, IsErrOf, IsTrue, MatchResult, Some, ℕ};
ghost use Rattle.hand_ledger.specs.Settling.{IsLowestTorn};
ghost use Rattle.shared_master.specs.Held.{is_short, log_of};
ghost use Rattle.shuffle_reduce.specs.Merged.{HaveWord};
ghost use Rattle.master_state.specs.States.{Setup};
ghost use Rattle.job_threads.specs.Outcomes.{IsDoneOn, IsOutcomeOf, IsRecordOf, IsStuckWith};
ghost use Rattle.job_threads.specs.declared.outcome.RunError.{RunError};
ghost use Rattle.job_threads.specs.Settled.{AreSettled};

use crate::outcome::{Outcome, Record, RunError};
use master_core::{Master, are_parts_done, index_of};
use shared_master::{Closed, Hand, OfJob, Settled, settle};
use std::alloc::Global;
use std::sync::ledger::Ledger;

// The master, where its history is made of the hands' calls.
pub(crate) fn settled<L: Ledger + OfJob>(
    closed: Closed<L>,
    hands: Vec<Hand<L>>,
) -> Result<Master, RunError>
    ensures { MatchResult result
        (λ master. (master ≡ closed.job) × AreSettled closed.job hands.items)
        (λ e. (place : ℕ) × IsLowestTorn (log_of closed.job) (is_short closed.job) hands.items (Some place)
        × (e ≡ RunError.Torn place)) }
{
    match settle(closed, hands) {
        Ok(Settled { master }) => Ok(master),
        Err(torn) => Err(RunError::Torn(torn.place)),
    }
}

// What has become of a job.
pub(crate) fn record_of(alloc: Global, master: Master) -> Result<Record, RunError>
    ensures ok { IfOk result (λ ran. (ran.master ≡ master) × IsRecordOf master.setup ran) }
    ensures err { IfErr result (λ e. (e ≡ RunError.Memory) ⊎ (e ≡ RunError.Torn 0)) }
    ensures memory { IsErrOf result RunError.Memory → HaveWord master.setup.cluster.texts }
{
    let index = if is_done(&master) {
        let Ok(index) = index_of(alloc, &master) else {
            return Err(RunError::Memory);
        };
        Some(index)
    } else if is_stuck(&master) {
        None
    } else {
        return Err(RunError::Torn(0));
    };
    Ok(Record { master, index })
}

// The outcome alone.
pub(crate) fn outcome_of(ran: Record) -> Outcome
    ensures { (given : Setup) → IsRecordOf given ran → IsOutcomeOf given result }
{
    let Record { master, index } = ran;
    match index {
        Some(index) => Outcome::Done(index),
        None => Outcome::Stuck(master),
    }
}

// Whether all parts are done.
fn is_done(master: &Master) -> bool
    ensures { IsTrue result → IsDoneOn master.now.setup master.now }
{
    master.is_kept();
    are_parts_done(master)
}

// Whether nothing runs, nothing can start and a part is not done.
fn is_stuck(master: &Master) -> bool
    ensures { IsTrue result → IsStuckWith master.now.setup master.now }
{
    master.is_kept();
    let glance = master.glance();
    if glance.running != 0 {
        return false;
    }
    if glance.ready || glance.reducible {
        return false;
    }
    glance.open_parts > 0
}
