ghost use Rattle.std.specs.Prelude.{◌≡◌, ◌<◌, ◌≤◌, ◌+◌, ◌-◌, ◌^◌, ◌++◌, ◌∷◌, [], length, map, fold};
ghost use Rattle.std.specs.Prelude.{vec_capacity, vec_len, None};
ghost use Rattle.node_ids.specs.Updates.{updated};
ghost use Rattle.worker_table.specs.Workers.{free_slots, with_slot_taken};
ghost use Rattle.master_state.specs.declared.states.Work.TheVariants as works;
ghost use Rattle.master_state.specs.States.{Setup, State};
ghost use Rattle.master_state.specs.Changes.{split_started};
ghost use Rattle.master_tables.specs.declared.entries.SplitEntry.TheVariants as entry;
ghost use Rattle.master_tables.specs.Entries.{shown_as};
ghost use Rattle.master_tables.specs.Kept.{AreOfSplits};
ghost use Rattle.master_tables.specs.Starting.{MayStart};

use crate::entries::SplitEntry;
use master_state::{Attempt, Start, Work};
use node_ids::{AttemptNo, SplitNo, WorkerNo};
use worker_table::WorkerTable;

/// Starts splits, each on its worker, one after another.
pub fn start_each(
    workers: &mut WorkerTable,
    splits: &mut Vec<SplitEntry>,
    starts: &mut Vec<Start>,
    pairs: &[(SplitNo, WorkerNo)],
)
    requires allowed { MayStart workers.old (map shown_as splits.old.items) pairs.now }
    requires room { vec_len starts.old + length pairs.now ≤ vec_capacity starts.old }
    requires few { vec_len starts.old + length pairs.now < 2 ^ 32 - 1 }
    ensures started { (s : State) → s.workers ≡ workers.old → s.splits ≡ map shown_as splits.old.items
        → s.starts ≡ starts.old.items
        → fold (λ now pair. split_started now pair.0 pair.1) s pairs.now ≡ record s {
          workers = workers.new;
          splits = map shown_as splits.new.items;
          starts = starts.new.items;
        } }
    ensures capacity { vec_capacity starts.new ≡ vec_capacity starts.old }
    ensures made { (setup : Setup) → AreOfSplits setup splits.old.items → AreOfSplits setup splits.new.items }
{
    for pair in pairs {
        let (split, worker) = *pair;
        start_one(workers, splits, starts, split, worker);
    }
}

// A split that runs nothing runs the next attempt, on this worker.
fn start_one(
    workers: &mut WorkerTable,
    splits: &mut Vec<SplitEntry>,
    starts: &mut Vec<Start>,
    split: SplitNo,
    worker: WorkerNo,
)
    requires worker { worker < length workers.old.each }
    requires free { 0 < free_slots workers.old worker }
    requires split { split < length splits.old.items }
    requires room { vec_len starts.old < vec_capacity starts.old }
    requires few { vec_len starts.old < 2 ^ 32 - 1 }
    ensures taken { workers.new ≡ with_slot_taken workers.old worker }
    ensures running { splits.new.items
        ≡ updated (λ _. entry.Running (record {
          number = length starts.old.items + 1;
          worker = worker;
        }) None) splits.old.items split }
    ensures told { starts.new.items ≡ starts.old.items ++ record {
      work = works.Split split;
      worker = worker;
    } ∷ [] }
    ensures capacity { vec_capacity starts.new ≡ vec_capacity starts.old }
{
    let number = AttemptNo::new(starts.len() as u32 + 1);
    workers.take_slot(worker);
    splits[split.index()] = SplitEntry::Running(Attempt { number, worker }, None);
    starts.push_reserved(Start {
        work: Work::Split(split),
        worker,
    });
}
