//! The workers of a job as a table: who lives, how many slots are taken, who has been silent for how
//! many sweeps, and which pairs of a split and a worker are barred.
//!
//! Upward it promises that each call makes of the table just what `specs/Workers.antt` says: one worker
//! changes, or one bar is added, or every live worker hears its count in a sweep, which lists who has
//! been silent too long and marks nobody dead. Only `new`, `DeadList::with_room` and `BarSet::rows` take
//! memory: a bar has its room from the beginning. It stands on the sets of `node_ids`.
#![tactic(auto)]

ghost use Rattle.std.specs.Prelude.{◌≡◌, ◌^◌, ◌<◌, ◌≤◌, length, All, IfOk, IfSome, is_some, map, ◌&&◌};
ghost use Rattle.std.specs.Prelude.{◌==◌};
ghost use Rattle.std.specs.List.{list_any, position_or_len};
ghost use Rattle.worker_table.specs.Workers.{IsTable, IsWithin, free_slots, fresh, has_free_slot, heard};
ghost use Rattle.worker_table.specs.Workers.{heard_from, is_barred, is_live, is_silent, opening_workers};
ghost use Rattle.worker_table.specs.Workers.{silent_in, with_beats};
ghost use Rattle.worker_table.specs.Workers.{swept, taken_slots, with_bar, with_death, with_return};
ghost use Rattle.worker_table.specs.Workers.{with_slot_given, with_slot_taken, worker_at, Workers};
ghost use Rattle.worker_table.specs.Bars.{no_bars};
ghost use Rattle.worker_table.specs.View.{table_of};
ghost use Rattle.worker_table.specs.declared.TheConstants.{MAX_WORKERS};

pub mod bar_set;
pub mod dead_list;

pub use bar_set::BarSet;
pub use dead_list::{Dead, DeadList};
use node_ids::{SplitNo, WorkerNo};
use std::alloc::{AllocError, Global};
use std::marker::Model;

/// How many workers a table holds at most.
pub const MAX_WORKERS: usize = 32_768;

/// A worker as the table keeps it. `silence` is the number of sweeps, one after the other, in which its
/// beats had not risen above `beat`.
#[derive(Clone, Copy, Debug, PartialEq, Eq)]
pub struct Worker {
    pub live: bool,
    pub slots: u8,
    pub taken: u8,
    pub beat: u64,
    pub silence: u32,
}

/// The workers of a job, numbered from 0, and the pairs of a split and a worker that are barred.
#[derive(Drop)]
pub struct WorkerTable {
    limit: u32,
    workers: Vec<Worker>,
    bars: BarSet,
}

impl Model for WorkerTable {
    ghost Value = { Workers };

    ghost view = { table_of };

    ghost invariant = { λ t. IsTable (table_of t) };
}

impl WorkerTable {
    /// A table of live workers with these numbers of slots, for so many splits, with room for so many bars.
    /// `silence` is the number of sweeps without a new beat at which a worker is silent too long.
    pub fn new(
        alloc: Global,
        slots: &[u8],
        splits: usize,
        silence: u32,
        bars: usize,
    ) -> Result<WorkerTable, AllocError>
        requires workers { length slots.now ≤ MAX_WORKERS }
        requires slots { All (λ n. n ≤ 255) slots.now }
        requires splits { splits < 2 ^ 32 }
        requires silence { 1 ≤ silence }
        ensures { IfOk result (λ table. table ≡ opening_workers slots.now splits silence bars) }
    {
        Ok(WorkerTable {
            limit: silence,
            workers: fresh_workers(alloc, slots, silence)?,
            bars: BarSet::new(alloc, splits, bars)?,
        })
    }

    /// Each worker, by its number.
    pub fn workers(&self) -> &[Worker]
        ensures value { result.now ≡ self.now.each }
        ensures table { IsTable self.now }
    {
        &self.workers
    }

    /// Whether the worker lives.
    pub fn live(&self, worker: WorkerNo) -> bool
        requires { worker < length self.now.each }
        ensures { result ≡ is_live self.now worker }
    {
        self.workers[worker.index()].live
    }

    /// How many slots the worker has, free or taken.
    pub fn slots(&self, worker: WorkerNo) -> u8
        requires { worker < length self.now.each }
        ensures count { result ≡ (worker_at self.now worker).slots }
        ensures most { result ≤ 255 }
    {
        self.workers[worker.index()].slots
    }

    /// How many slots of the worker are not taken. A dead worker's are all free.
    pub fn free(&self, worker: WorkerNo) -> u8
        requires { worker < length self.now.each }
        ensures count { result ≡ free_slots self.now worker }
        ensures most { result ≤ 255 }
    {
        let found = self.workers[worker.index()];
        found.slots - found.taken
    }

    /// The lowest live worker with a free slot.
    pub fn first_free(&self) -> Option<WorkerNo>
        ensures found { is_some result ≡ list_any has_free_slot self.now.each }
        ensures lowest { IfSome result (λ worker. worker ≡ position_or_len has_free_slot self.now.each) }
        ensures table { IsTable self.now }
    {
        first_free(&self.workers)
    }

    /// Whether the pair is barred.
    pub fn barred(&self, split: SplitNo, worker: WorkerNo) -> bool
        ensures { result ≡ is_barred self.now split worker }
    {
        self.bars.has(split, worker)
    }

    /// All barred pairs.
    pub fn bars(&self) -> &BarSet
        ensures { result.now ≡ self.now.barred }
    {
        &self.bars
    }

    /// Bars the pair for good, and uses the room of one bar.
    pub fn bar(&mut self, split: SplitNo, worker: WorkerNo)
        requires split { split < length self.old.barred.rows }
        requires room { 0 < self.old.barred.room }
        ensures { self.new ≡ with_bar self.old split worker }
    {
        self.bars.put(split, worker);
    }

    /// Marks the worker dead, and all its slots free.
    pub fn die(&mut self, worker: WorkerNo)
        requires { worker < length self.old.each }
        ensures { self.new ≡ with_death self.old worker }
    {
        let found = &mut self.workers[worker.index()];
        found.live = false;
        found.taken = 0;
    }

    /// Marks the worker live, and as just heard. Its last beat stays.
    pub fn join(&mut self, worker: WorkerNo)
        requires { worker < length self.old.each }
        ensures { self.new ≡ with_return self.old worker }
    {
        let found = &mut self.workers[worker.index()];
        found.live = true;
        found.silence = 0;
    }

    /// Takes a slot of the worker.
    pub fn take_slot(&mut self, worker: WorkerNo)
        requires known { worker < length self.old.each }
        requires free { 0 < free_slots self.old worker }
        ensures { self.new ≡ with_slot_taken self.old worker }
    {
        let found = &mut self.workers[worker.index()];
        found.taken += 1;
    }

    /// Gives a slot of the worker back.
    pub fn give_slot(&mut self, worker: WorkerNo)
        requires known { worker < length self.old.each }
        requires taken { 0 < taken_slots self.old worker }
        ensures { self.new ≡ with_slot_given self.old worker }
    {
        let found = &mut self.workers[worker.index()];
        found.taken -= 1;
    }

    /// Lets one worker hear the count of its beats, as a sweep lets each of them.
    pub fn hear(&mut self, worker: WorkerNo, count: u64)
        requires { worker < length self.old.each }
        ensures { self.new ≡ with_beats self.old worker count }
    {
        let place = worker.index();
        self.workers[place] = hear(self.limit, self.workers[place], count);
    }

    /// Whether the worker lives and has been silent too long.
    pub fn is_silent(&self, worker: WorkerNo) -> bool
        requires { worker < length self.now.each }
        ensures { result ≡ is_silent self.now worker }
    {
        has_been_silent(self.limit, &self.workers[worker.index()])
    }

    /// Lets each live worker hear the count of its beats, and lists who has been silent too long. Nobody is
    /// marked dead, and no memory is taken.
    pub fn sweep(&mut self, counts: &[u64], dead: &mut DeadList)
        requires counts { length counts.now ≡ length self.old.each }
        requires room { length self.old.each ≤ dead.old.room }
        ensures heard { self.new ≡ swept self.old counts.now }
        ensures dead { dead.new.items ≡ silent_in self.new }
        ensures room { dead.new.room ≡ dead.old.room }
    {
        hear_each(self.limit, &mut self.workers, counts);
        list_silent(self.limit, &self.workers, dead);
    }
}

fn first_free(workers: &[Worker]) -> Option<WorkerNo>
    requires { length workers.now ≤ MAX_WORKERS }
    ensures found { is_some result ≡ list_any has_free_slot workers.now }
    ensures lowest { IfSome result (λ worker. worker ≡ position_or_len has_free_slot workers.now) }
{
    for (i, worker) in workers.iter().enumerate() {
        if has_free_slot(worker) {
            return Some(WorkerNo::new(i as u16));
        }
    }
    None
}

fn has_free_slot(worker: &Worker) -> bool
    ensures { result ≡ has_free_slot worker.now }
{
    worker.live && worker.taken < worker.slots
}

fn fresh_workers(alloc: Global, slots: &[u8], limit: u32) -> Result<Vec<Worker>, AllocError>
    requires { All (λ n. n ≤ 255) slots.now }
    ensures each { IfOk result (λ workers. workers.items ≡ map fresh slots.now) }
    ensures within { IfOk result (λ workers. All (IsWithin limit) workers.items) }
{
    let mut workers = Vec::with_capacity(alloc, slots.len())?;
    for slots in slots {
        workers.push(Worker {
            live: true,
            slots: *slots,
            taken: 0,
            beat: 0,
            silence: 0,
        })?;
    }
    Ok(workers)
}

// Each worker hears the count at its number.
fn hear_each(limit: u32, workers: &mut Vec<Worker>, counts: &[u64])
    requires { length counts.now ≡ length workers.old.items }
    ensures { workers.new.items ≡ heard_from 0 limit workers.old.items counts.now }
{
    for i in 0..workers.len() {
        workers[i] = hear(limit, workers[i], counts[i]);
    }
}

// The worker after a sweep that read this count of its beats.
fn hear(limit: u32, worker: Worker, count: u64) -> Worker
    ensures { result ≡ heard limit worker count }
{
    let mut worker = worker;
    if worker.live {
        if count > worker.beat {
            worker.beat = count;
            worker.silence = 0;
        } else {
            worker.silence = worker.silence.saturating_add(1).min(limit);
        }
    }
    worker
}

fn has_been_silent(limit: u32, worker: &Worker) -> bool
    ensures { result ≡ (worker.now.live && worker.now.silence == limit) }
{
    worker.live && worker.silence == limit
}

// Lists the workers that have been silent for as many sweeps as the limit says.
fn list_silent(limit: u32, workers: &[Worker], dead: &mut DeadList)
    requires few { length workers.now ≤ MAX_WORKERS }
    requires room { length workers.now ≤ dead.old.room }
    ensures dead { dead.new.items
        ≡ silent_in (record { limit = limit; each = workers.now; barred = no_bars 0 0 }) }
    ensures room { dead.new.room ≡ dead.old.room }
{
    dead.clear();
    for (i, worker) in workers.iter().enumerate() {
        if has_been_silent(limit, worker) {
            dead.push(WorkerNo::new(i as u16));
        }
    }
}
