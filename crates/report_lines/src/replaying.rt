//! Events that are gone through once more.
ghost use Rattle.std.specs.Prelude.{◌≡◌, ◌-◌, ◌<◌, ◌≤◌, [], drop, fold, length, slice_index};
ghost use Rattle.worker_table.specs.Workers.{swept};
ghost use Rattle.std.specs.Prelude.{slice_index_or, take};
ghost use Rattle.report_lines.specs.Past.{MayAllCome, MayCome, after_sweep, replayed, without_dead};
ghost use Rattle.report_lines.specs.declared.tables.Tables.{Tables};

use crate::tables::{Story, Tables};
use block_map::HolderLimit;
use compact_lists::CountList;
use master_state::Event;
use node_ids::WorkerNo;
use worker_table::WorkerTable;

/// Goes over from the tables after so many events to those after more events.
pub(crate) fn go_on(tables: &mut Tables, story: &Story, from: usize, to: usize)
    requires more { from ≤ to }
    requires may { MayAllCome story.now.tree story.now.limit story.now.sweeps.items tables.old
        (drop from story.now.history.items) }
    ensures tables { (opening : Tables)
        → tables.old ≡ fold (replayed story.now.sweeps.items) opening (take from story.now.history.items)
        → tables.new ≡ fold (replayed story.now.sweeps.items) opening (take to story.now.history.items) }
    ensures may { MayAllCome story.now.tree story.now.limit story.now.sweeps.items tables.new
        (drop to story.now.history.items) }
{
    let end = to.min(story.history.len());
    for index in from..end {
        let event = story.history.at(index);
        replay(tables, story.limit, &story.sweeps, event);
    }
}

// Goes over to the tables after an event, which may come now.
fn replay(tables: &mut Tables, limit: HolderLimit, sweeps: &CountList, event: Event<'_>)
    requires { MayCome limit tables.old event }
    ensures { tables.new ≡ replayed sweeps.now.items tables.old event.entry }
{
    match event {
        Event::Die(worker) => bury(tables, worker),
        Event::Join(worker, set) => {
            tables.workers.join(worker);
            tables.holders.add_to_all(limit, worker, &set);
        }
        Event::Add(split, worker) => {
            // (there is room for it, as is required)
            let _added = tables.holders.add(limit, split, worker);
        }
        Event::Lose(split, worker) => {
            // (it is there, as is required)
            let _dropped = tables.holders.drop_one(split, worker);
        }
        Event::Sweep(place) => sweep(tables, sweeps, place),
        _ => {}
    }
}

fn bury(tables: &mut Tables, worker: WorkerNo)
    requires { worker < length tables.old.workers.each }
    ensures { tables.new ≡ without_dead tables.old worker }
{
    tables.workers.die(worker);
    tables.holders.drop_worker(worker);
}

// All hear the counts of the sweep at a place, from 1, and those die who were silent too long.
fn sweep(tables: &mut Tables, sweeps: &CountList, place: u32)
    ensures { tables.new ≡ after_sweep tables.old (slice_index_or sweeps.now.items (place - 1) []) }
{
    hear(&mut tables.workers, sweeps, place);
    for number in 0..tables.workers.workers().len() {
        let worker = WorkerNo::new(number as u16);
        if tables.workers.is_silent(worker) {
            bury(tables, worker);
        }
    }
}

// Each worker hears its count of the sweep at a place.
fn hear(workers: &mut WorkerTable, sweeps: &CountList, place: u32)
    ensures { workers.new ≡ swept workers.old (slice_index_or sweeps.now.items (place - 1) []) }
{
    for number in 0..workers.workers().len() {
        let count = count_at(sweeps, place, number);
        workers.hear(WorkerNo::new(number as u16), count);
    }
}

// The count of a worker in the sweep at a place; 0 where there is none.
fn count_at(sweeps: &CountList, place: u32, worker: usize) -> u64
    ensures { result ≡ slice_index (slice_index_or sweeps.now.items (place - 1) []) worker }
{
    match sweeps.get((place as usize).saturating_sub(1)) {
        Some(counts) => counts.of(worker),
        None => 0,
    }
}
