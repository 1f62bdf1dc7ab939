ghost use Rattle.std.specs.Prelude.{◌≡◌, ◌<◌, length};
ghost use Rattle.std.specs.Option.{option_map_or};
ghost use Rattle.node_ids.specs.Updates.{updated};
ghost use Rattle.master_state.specs.declared.states.SplitState.TheVariants as states;
ghost use Rattle.master_state.specs.Tests.{is_numbered, part_runs, runs};
ghost use Rattle.master_state.specs.Changes.{part_without, without_attempts};
ghost use Rattle.master_tables.specs.Entries.{entry_of, entry_without, shown_as};
ghost use Rattle.master_tables.specs.Ends.{ends};
ghost use Rattle.master_tables.specs.Places.{part_of, split_of};

use crate::entries::SplitEntry;
use master_state::{Attempt, PartState, Work};
use node_ids::{AttemptNo, PartNo, SplitNo, WorkerNo};
use worker_table::Dead;

/// A split that runs an attempt, and the worker of the attempt.
#[derive(Clone, Copy)]
pub struct RunningSplit {
    pub split: SplitNo,
    pub worker: WorkerNo,
}

/// A part that runs an attempt, and the worker of the attempt.
#[derive(Clone, Copy)]
pub struct RunningPart {
    pub part: PartNo,
    pub worker: WorkerNo,
}

/// Which attempts end: that of a number, all on a worker, or all on the workers of a list.
#[derive(Drop)]
pub enum Ending<'a> {
    Numbered(AttemptNo),
    On(WorkerNo),
    Among(Dead<'a>),
}

/// The split for which an attempt was started, if for one.
pub fn split_of(work: Work) -> Option<SplitNo>
    ensures { result ≡ split_of work }
{
    match work {
        Work::Split(split) => Some(split),
        Work::Part(_part) => None,
    }
}

/// The part for which an attempt was started, if for one.
pub fn part_of(work: Work) -> Option<PartNo>
    ensures { result ≡ part_of work }
{
    match work {
        Work::Split(_split) => None,
        Work::Part(part) => Some(part),
    }
}

/// Whether the split runs the attempt.
pub fn runs(entry: &SplitEntry, attempt: AttemptNo) -> bool
    ensures { result ≡ runs attempt (shown_as entry.now) }
{
    match entry {
        SplitEntry::Pending => false,
        SplitEntry::Running(one, None) => one.number == attempt,
        SplitEntry::Running(one, Some(other)) => one.number == attempt || other.number == attempt,
        SplitEntry::Done(_, _) => false,
    }
}

/// Whether the part runs the attempt.
pub fn part_runs(part: PartState, attempt: AttemptNo) -> bool
    ensures { result ≡ part_runs attempt part }
{
    match part {
        PartState::Pending => false,
        PartState::Running(one) => one.number == attempt,
        PartState::Done => false,
    }
}

/// The split runs the attempt no more.
pub fn end_attempt(entries: &mut Vec<SplitEntry>, split: SplitNo, attempt: AttemptNo)
    requires { split < length entries.old.items }
    ensures { entries.new.items ≡ updated (entry_without (is_numbered attempt)) entries.old.items split }
{
    let place = split.index();
    if let Some(next) = changed_entry(&entries[place], attempt) {
        entries[place] = next;
    }
}

// What the entry becomes, where it runs the attempt.
fn changed_entry(entry: &SplitEntry, attempt: AttemptNo) -> Option<SplitEntry>
    ensures { option_map_or (λ next. next) result entry.now ≡ entry_without (is_numbered attempt) entry.now }
{
    match entry {
        SplitEntry::Pending => None,
        SplitEntry::Running(one, other) => Some(without_ended(
            *one,
            *other,
            &Ending::Numbered(attempt),
        )),
        SplitEntry::Done(_, _) => None,
    }
}

/// What a split still runs, of an attempt and perhaps another, without those that end.
pub fn without_ended(attempt: Attempt, other: Option<Attempt>, ending: &Ending<'_>) -> SplitEntry
    ensures { result ≡ entry_of (without_attempts (ends ending.now) (states.Running attempt other)) }
{
    let first_stays = !ends(ending, &attempt);
    match other {
        Some(second) => {
            let second_stays = !ends(ending, &second);
            if first_stays && second_stays {
                SplitEntry::Running(attempt, Some(second))
            } else if first_stays {
                SplitEntry::Running(attempt, None)
            } else if second_stays {
                SplitEntry::Running(second, None)
            } else {
                SplitEntry::Pending
            }
        }
        None => {
            if first_stays {
                SplitEntry::Running(attempt, None)
            } else {
                SplitEntry::Pending
            }
        }
    }
}

/// Whether the attempt is one that ends.
pub fn ends(ending: &Ending<'_>, attempt: &Attempt) -> bool
    ensures { result ≡ ends ending.now attempt.now }
{
    match ending {
        Ending::Numbered(number) => attempt.number == *number,
        Ending::On(worker) => attempt.worker == *worker,
        Ending::Among(dead) => dead.has(attempt.worker),
    }
}

/// The part runs the attempt no more.
pub fn end_part_attempt(parts: &mut Vec<PartState>, part: PartNo, attempt: AttemptNo)
    requires { part < length parts.old.items }
    ensures { parts.new.items ≡ updated (part_without (is_numbered attempt)) parts.old.items part }
{
    let place = part.index();
    parts[place] = part_without_ended(parts[place], &Ending::Numbered(attempt));
}

/// What becomes of a part whose attempt ends, if it is one that does.
pub fn part_without_ended(part: PartState, ending: &Ending<'_>) -> PartState
    ensures { result ≡ part_without (ends ending.now) part }
{
    match part {
        PartState::Pending => PartState::Pending,
        PartState::Running(attempt) => {
            if ends(ending, &attempt) {
                PartState::Pending
            } else {
                PartState::Running(attempt)
            }
        }
        PartState::Done => PartState::Done,
    }
}
