ghost use Rattle.std.specs.Prelude.{◌≡◌, ◌<◌, ◌+◌, ◌-◌, ◌^◌, ◌++◌, ◌∷◌, [], false, length};
ghost use Rattle.std.specs.Prelude.{vec_capacity, vec_len};
ghost use Rattle.compact_lists.specs.Lists.{is_join};

use compact_lists::{CountList, EventList};
use master_state::{Event, Start, Work};
use node_ids::{AttemptNo, SplitSet, WorkerNo};
use shuffle_reduce::PartResult;

/// Adds an event other than a join to a history with room for it, and gives its place.
pub fn record_event(history: &mut EventList, event: Event<'_>) -> u32
    requires no_join { is_join event ≡ false }
    requires room { length history.old.items < history.old.room }
    requires few { length history.old.items < 2 ^ 32 - 1 }
    ensures items { history.new.items ≡ history.old.items ++ event.entry ∷ [] }
    ensures capacity { history.new.room ≡ history.old.room }
    ensures place { result ≡ length history.old.items + 1 }
{
    history.push(&event);
    history.len() as u32
}

/// Adds the join of a worker with these splits to a history with room for it, and gives its place.
pub fn record_join(history: &mut EventList, worker: WorkerNo, set: SplitSet) -> u32
    requires room { length history.old.items < history.old.room }
    requires few { length history.old.items < 2 ^ 32 - 1 }
    ensures items { history.new.items ≡ history.old.items ++ Event.Join worker set ∷ [] }
    ensures capacity { history.new.room ≡ history.old.room }
    ensures place { result ≡ length history.old.items + 1 }
{
    history.push_join(worker, set);
    history.len() as u32
}

/// Adds a start to a list with room for it, and gives the number of its attempt.
pub fn record_start(starts: &mut Vec<Start>, work: Work, worker: WorkerNo) -> AttemptNo
    requires room { vec_len starts.old < vec_capacity starts.old }
    requires few { vec_len starts.old < 2 ^ 32 - 1 }
    ensures items { starts.new.items ≡ starts.old.items ++ record { work = work; worker = worker } ∷ [] }
    ensures capacity { vec_capacity starts.new ≡ vec_capacity starts.old }
    ensures number { result ≡ length starts.old.items + 1 }
{
    starts.push_reserved(Start { work, worker });
    AttemptNo::new(starts.len() as u32)
}

/// Adds the counts of a sweep to a list with room for them, and gives their place.
pub fn record_counts(sweeps: &mut CountList, counts: &[u64]) -> u32
    requires room { length sweeps.old.items < sweeps.old.room }
    requires workers { length counts.now ≡ sweeps.old.workers }
    requires few { length sweeps.old.items < 2 ^ 32 - 1 }
    ensures items { sweeps.new.items ≡ sweeps.old.items ++ counts.now ∷ [] }
    ensures capacity { sweeps.new.room ≡ sweeps.old.room }
    ensures workers { sweeps.new.workers ≡ sweeps.old.workers }
    ensures place { result ≡ length sweeps.old.items + 1 }
{
    sweeps.push(counts);
    sweeps.len() as u32
}

/// Adds the result of a part to a list with room for it.
pub fn record_result(results: &mut Vec<PartResult>, made: PartResult)
    requires { vec_len results.old < vec_capacity results.old }
    ensures items { results.new.items ≡ results.old.items ++ made ∷ [] }
    ensures capacity { vec_capacity results.new ≡ vec_capacity results.old }
{
    results.push_reserved(made);
}
