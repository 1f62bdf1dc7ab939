ghost use Rattle.std.specs.Prelude.{◌≡◌, ◌<◌, All, length, map, find, fold};
ghost use Rattle.std.specs.List.{list_all};
ghost use Rattle.std.specs.Option.{option_map_or};
ghost use Rattle.node_ids.specs.Sets.{is_in_row};
ghost use Rattle.node_ids.specs.Updates.{updated};
ghost use Rattle.worker_table.specs.Workers.{with_death};
ghost use Rattle.master_state.specs.States.{Setup, State};
ghost use Rattle.master_state.specs.Tests.{part_is_done};
ghost use Rattle.master_state.specs.Changes.{died, part_without};
ghost use Rattle.master_tables.specs.Ends.{ends, without_all};
ghost use Rattle.master_tables.specs.Entries.{entry_after_death, shown_as};
ghost use Rattle.master_tables.specs.Kept.{AreOfSplits};

use crate::entries::SplitEntry;
use crate::holders::drop_holder;
use crate::parts::are_parts_done;
use crate::running::{Ending, ends, part_without_ended, without_ended};
use block_map::BlockMap;
use master_state::PartState;
use node_ids::{SplitNo, WorkerNo};
use worker_table::{Dead, DeadList, WorkerTable};

/// A worker of the table dies: it holds nothing then, and what it ran, and had made, is pending.
pub fn bury(
    workers: &mut WorkerTable,
    holders: &mut BlockMap,
    splits: &mut Vec<SplitEntry>,
    parts: &mut Vec<PartState>,
    worker: WorkerNo,
)
    requires { worker < length workers.old.each }
    ensures died { (s : State) → s.workers ≡ workers.old → s.holders ≡ holders.old
        → s.splits ≡ map shown_as splits.old.items → s.parts ≡ parts.old.items
        → died s worker ≡ record s {
          workers = workers.new;
          holders = holders.new;
          splits = map shown_as splits.new.items;
          parts = parts.new.items;
        } }
    ensures made { (setup : Setup) → AreOfSplits setup splits.old.items → AreOfSplits setup splits.new.items }
{
    workers.die(worker);
    holders.drop_worker(worker);
    end_all(splits, parts, &Ending::On(worker));
}

/// Each worker of the list dies, one after another. Where none does, no split is looked at, and else each
/// split once.
pub fn bury_all(
    workers: &mut WorkerTable,
    holders: &mut BlockMap,
    splits: &mut Vec<SplitEntry>,
    parts: &mut Vec<PartState>,
    dead: &DeadList,
)
    requires { All (λ w. w < length workers.old.each) dead.now.items }
    ensures died { (s : State) → s.workers ≡ workers.old → s.holders ≡ holders.old
        → s.splits ≡ map shown_as splits.old.items → s.parts ≡ parts.old.items
        → fold died s dead.now.items ≡ record s {
          workers = workers.new;
          holders = holders.new;
          splits = map shown_as splits.new.items;
          parts = parts.new.items;
        } }
    ensures made { (setup : Setup) → AreOfSplits setup splits.old.items → AreOfSplits setup splits.new.items }
{
    if dead.is_empty() {
        return;
    }
    bury_each(workers, dead.as_slice());
    let those = dead.dead();
    drop_all(holders, &those);
    end_all(splits, parts, &Ending::Among(those));
}

// Marks each worker of the list dead.
fn bury_each(workers: &mut WorkerTable, dead: &[WorkerNo])
    requires { All (λ w. w < length workers.old.each) dead.now }
    ensures { workers.new ≡ fold with_death workers.old dead.now }
{
    for worker in dead {
        workers.die(*worker);
    }
}

// The workers of the list hold nothing.
fn drop_all(holders: &mut BlockMap, dead: &Dead<'_>)
    ensures { holders.new ≡ map (without_all dead.now) holders.old }
{
    for i in 0..holders.splits() {
        drop_from(holders, SplitNo::new(i as u32), dead);
    }
}

// The workers of the list do not hold the split.
fn drop_from(holders: &mut BlockMap, split: SplitNo, dead: &Dead<'_>)
    requires { split < length holders.old }
    ensures { holders.new ≡ updated (without_all dead.now) holders.old split }
{
    for _turn in 0..holders.holders(split).len() {
        let Some(holder) = first_among(holders.holders(split), dead) else {
            return;
        };
        drop_holder(holders, split, holder);
    }
}

fn first_among(holders: &[WorkerNo], dead: &Dead<'_>) -> Option<WorkerNo>
    ensures { result ≡ find (is_in_row dead.now) holders.now }
{
    holders.iter().copied().find(|holder| dead.has(*holder))
}

// The attempts end, and a split that one of them has done is pending, unless every part is done.
fn end_all(splits: &mut Vec<SplitEntry>, parts: &mut Vec<PartState>, ending: &Ending<'_>)
    ensures splits { splits.new.items
        ≡ map (entry_after_death (list_all part_is_done parts.old.items) (ends ending.now)) splits.old.items }
    ensures parts { parts.new.items ≡ map (part_without (ends ending.now)) parts.old.items }
{
    let stays = are_parts_done(parts);
    lose_entries(splits, stays, ending);
    lose_parts(parts, ending);
}

fn lose_entries(entries: &mut Vec<SplitEntry>, stays: bool, ending: &Ending<'_>)
    ensures { entries.new.items ≡ map (entry_after_death stays (ends ending.now)) entries.old.items }
{
    for entry in entries.iter_mut() {
        lose_entry(entry, stays, ending);
    }
}

fn lose_entry(entry: &mut SplitEntry, stays: bool, ending: &Ending<'_>)
    ensures { entry.new ≡ entry_after_death stays (ends ending.now) entry.old }
{
    if let Some(next) = changed_entry(entry, stays, ending) {
        *entry = next;
    }
}

// What the entry becomes, where it does not stay.
fn changed_entry(entry: &SplitEntry, stays: bool, ending: &Ending<'_>) -> Option<SplitEntry>
    ensures { option_map_or (λ next. next) result entry.now
        ≡ entry_after_death stays (ends ending.now) entry.now }
{
    match entry {
        SplitEntry::Pending => None,
        SplitEntry::Running(attempt, other) => Some(without_ended(*attempt, *other, ending)),
        SplitEntry::Done(attempt, _) => {
            if ends(ending, attempt) && !stays {
                Some(SplitEntry::Pending)
            } else {
                None
            }
        }
    }
}

fn lose_parts(parts: &mut Vec<PartState>, ending: &Ending<'_>)
    ensures { parts.new.items ≡ map (part_without (ends ending.now)) parts.old.items }
{
    for part in parts.iter_mut() {
        *part = part_without_ended(*part, ending);
    }
}
