ghost use Rattle.std.specs.Prelude.{◌≡◌, ◌<◌, length};
ghost use Rattle.node_ids.specs.Updates.{updated};
ghost use Rattle.master_state.specs.Tests.{attempts_of};
ghost use Rattle.master_state.specs.Changes.{part_done_by};
ghost use Rattle.master_tables.specs.Entries.{shown_as};
ghost use Rattle.master_tables.specs.Slots.{AreTaken, with_slots_given};

use crate::entries::SplitEntry;
use master_state::{Attempt, PartState};
use node_ids::{AttemptNo, PartNo, SplitNo};
use word_map::MapResult;
use worker_table::WorkerTable;

/// Gives the slots back of all attempts that a split runs.
pub fn give_slots(workers: &mut WorkerTable, entry: &SplitEntry)
    requires { AreTaken workers.old (attempts_of (shown_as entry.now)) }
    ensures { workers.new ≡ with_slots_given workers.old (attempts_of (shown_as entry.now)) }
{
    match entry {
        SplitEntry::Pending => {}
        SplitEntry::Running(one, None) => workers.give_slot(one.worker),
        SplitEntry::Running(one, Some(other)) => {
            workers.give_slot(one.worker);
            workers.give_slot(other.worker);
        }
        SplitEntry::Done(_, _) => {}
    }
}

/// The split is done by the attempt, with what the attempt made.
pub fn finish_split(
    entries: &mut Vec<SplitEntry>,
    split: SplitNo,
    attempt: Attempt,
    made: MapResult,
)
    requires { split < length entries.old.items }
    ensures { entries.new.items ≡ updated (λ _. SplitEntry.Done attempt made) entries.old.items split }
{
    entries[split.index()] = SplitEntry::Done(attempt, made);
}

/// The part is done, if it runs the attempt.
pub fn finish_part(parts: &mut Vec<PartState>, part: PartNo, attempt: AttemptNo)
    requires { part < length parts.old.items }
    ensures { parts.new.items ≡ updated (part_done_by attempt) parts.old.items part }
{
    let place = part.index();
    parts[place] = part_done_by(parts[place], attempt);
}

fn part_done_by(part: PartState, number: AttemptNo) -> PartState
    ensures { result ≡ part_done_by number part }
{
    match part {
        PartState::Pending => PartState::Pending,
        PartState::Running(attempt) => {
            if attempt.number == number {
                PartState::Done
            } else {
                PartState::Running(attempt)
            }
        }
        PartState::Done => PartState::Done,
    }
}
