//! Jobs and gates made of numbers, against an index that is made word by word.
//!
//! The test runs the seeds from 1 to 100. Where the environment has the word SEEDS, as in `SEEDS="1 10000"`, it runs
//! the seeds from its first number to its second one. A failure tells its seed, which can be run alone.
use crate::gates::{Made, drawn};
use crate::jobs::{SplitRow, job_of};
use crate::told::{Told, add_number, is_done, tell};
use job_threads::{Outcome, RunError, run};
use master_core::Master;
use master_state::Limits;
use node_ids::{SplitNo, WorkerNo};
use std::alloc::Global;
use std::env::Env;
use std::process::Abort;
use std::rt::Clock;
use std::sync::Wait;
use std::sync::atomic::{AtomicU64, Ordering};
use std::thread::Threads;
use std::{env, io};
use wave_problem::Problem;

// The words that a split's number has, by its bits.
const WORDS: [&str; 8] = ["", "a", "b", "a b", "c", "C a", "b c", "c b a"];

// Each of the words with its bit.
const LETTERS: [(&str, usize); 3] = [("a", 1), ("b", 2), ("c", 4)];

// The workers' numbers: the holders of a split are some that follow one another.
const WORKERS: [u16; 32] = [
    0, 1, 2, 3, 4, 5, 6, 7, 8, 9, 10, 11, 12, 13, 14, 15, 16, 17, 18, 19, 20, 21, 22, 23, 24, 25,
    26, 27, 28, 29, 30, 31,
];

// Room that no job ends whose threads are not very slow.
const ENOUGH: Limits = Limits {
    events: 8192,
    attempts: 4096,
    sweeps: 2048,
};

// Room that most jobs end.
const LITTLE: Limits = Limits {
    events: 9,
    attempts: 6,
    sweeps: 5,
};

// How many workers, splits, parts and slots a job has.
#[derive(Clone, Copy)]
struct Sizes {
    workers: usize,
    splits: usize,
    parts: usize,
    slots: u8,
    silence: u32,
    is_small: bool,
}

// Most jobs are small; of eight one has 32 workers, and one 64 splits on few workers.
fn sizes_of(seed: u64) -> Sizes {
    let kind = seed % 8;
    let (few_workers, few_splits) = (drawn(seed, 1) % 4 + 1, drawn(seed, 2) % 6 + 1);
    let (workers, splits) = match kind {
        0 => (32, few_splits),
        1 => (few_workers, 64),
        _ => (few_workers, few_splits),
    };
    let parts = match kind {
        0..=3 => drawn(seed, 3) % 64 + 1,
        _ => drawn(seed, 3) % 3 + 1,
    };
    let slots = if kind == 1 || kind == 2 { 16 } else { 1 };
    Sizes {
        workers: workers as usize,
        splits: splits as usize,
        parts: parts as usize,
        slots,
        silence: (drawn(seed, 8) % 3 + 1) as u32,
        is_small: drawn(seed, 9) % 16 == 0,
    }
}

// The words of each split, by their bits.
fn masks_of(seed: u64) -> [usize; 64] {
    let mut masks = [0usize; 64];
    for split in 0..64usize {
        masks[split] = (drawn(seed, split as u64 + 100) % 8) as usize;
    }
    masks
}

// Its holders: in one of four jobs none for one of eight splits, else up to three.
fn holders_of(rt: &impl Abort, seed: u64, split: u64, workers: usize) -> &'static [u16] {
    let number = drawn(seed, split.saturating_add(200));
    let is_lost = drawn(seed, 10) % 4 == 0 && number % 8 == 0;
    let many = if is_lost { 0 } else { number / 32 % 3 + 1 };
    let many = (many as usize).min(workers);
    let first = ((number / 128 % 30) as usize).min(workers.saturating_sub(many));
    assert!(rt; first <= 29 && many <= 3);
    &WORKERS[first..first + many]
}

// The splits of a job, with the words of the masks.
fn rows_of(
    rt: &impl Abort,
    seed: u64,
    masks: &[usize; 64],
    workers: usize,
) -> [SplitRow<'static>; 64] {
    let mut rows: [SplitRow<'static>; 64] = [(5, &[], ""); 64];
    for split in 0..64usize {
        let bytes = drawn(seed, split as u64 + 300) % 100 + 1;
        let holders = holders_of(rt, seed, split as u64, workers);
        rows[split] = (bytes, holders, WORDS[masks[split] % 8]);
    }
    rows
}

// The index of splits with these words.
fn index_of(rt: &impl Abort, alloc: Global, masks: &[usize]) -> String {
    let mut lines = String::new(alloc);
    for (letter, bit) in &LETTERS {
        let mut is_there = false;
        for split in 0..masks.len() {
            if masks[split] & *bit != 0 {
                if !is_there {
                    lines.push_str(letter).expect(rt, "no memory");
                    is_there = true;
                }
                add_number(rt, alloc, &mut lines, " ", split);
            }
        }
        if is_there {
            lines.push_str("/").expect(rt, "no memory");
        }
    }
    lines
}

// Whether some live worker has a free slot.
fn has_slot(problem: &Problem) -> bool {
    for number in 0..problem.workers() {
        let worker = WorkerNo::new(number as u16);
        if problem.is_live(worker) && problem.free(worker) > 0 {
            return true;
        }
    }
    false
}

// Whether each split is done or held by nobody.
fn are_left(problem: &Problem, master: &Master) -> bool {
    for split in 0..problem.splits() {
        let holders = problem.holders(SplitNo::new(split as u32));
        if !is_done(master, split) && !holders.is_empty() {
            return false;
        }
    }
    true
}

// Whether no slot is left, or what is not done is held by nobody.
fn is_rightly_stuck(rt: &impl Abort, alloc: Global, master: &Master) -> bool {
    let problem = master.problem(alloc).expect(rt, "no memory");
    !has_slot(&problem) || are_left(&problem, master)
}

// What was done in all runs.
#[derive(Clone, Copy, Default)]
struct Counted {
    runs: u64,
    done: u64,
    stuck: u64,
    full: u64,
    ended: u64,
    stops: u64,
    deaths: u64,
    backups: u64,
    sweeps: u64,
    maps: u64,
    longest: u64,
}

fn count(word: &AtomicU64) -> u64 {
    word.load(Ordering::SeqCst)
}

impl Counted {
    // Counts a run.
    fn add(&mut self, gate: &Made, told: &Told) {
        self.runs = self.runs.wrapping_add(1);
        match told {
            Told::Done(_) => self.done = self.done.wrapping_add(1),
            Told::Stuck(_) => self.stuck = self.stuck.wrapping_add(1),
            Told::Error(RunError::HistoryFull) => self.full = self.full.wrapping_add(1),
            Told::Error(_) => self.ended = self.ended.wrapping_add(1),
        }
        self.stops = self.stops.wrapping_add(count(&gate.stops));
        self.deaths = self.deaths.wrapping_add(count(&gate.deaths));
        self.backups = self.backups.wrapping_add(count(&gate.backups));
        self.sweeps = self.sweeps.wrapping_add(count(&gate.seen.sweeps));
        self.maps = self.maps.wrapping_add(count(&gate.seen.begun));
        self.longest = self.longest.max(count(&gate.seen.turns));
    }

    fn print(&self, rt: &impl Print) -> io::Result<()> {
        println!(rt;
            "{} runs: {} done, {} stuck, {} of a full history, {} ended by the gate",
            self.runs, self.done, self.stuck, self.full, self.ended
        )?;
        println!(rt;
            "{} workers stopped, {} maps held until a death, {} turns of backups, {} sweeps, {} maps, at most {} turns",
            self.stops, self.deaths, self.backups, self.sweeps, self.maps, self.longest
        )
    }
}

// Whether a full history can be: there is little room, or the threads were so slow that there were many
// calls.
fn may_be_full(gate: &Made, sizes: Sizes) -> bool {
    sizes.is_small || count(&gate.seen.sweeps) >= 1000 || count(&gate.seen.begun) >= 1000
}

// The one index, what nobody holds, or the error that its gate or its room asked for.
fn judge(rt: &impl Abort, alloc: Global, seed: u64, gate: &Made, sizes: Sizes, told: &Told) {
    let is_over = count(&gate.overs) > 0;
    match told {
        Told::Done(index) => {
            let wanted = index_of(rt, alloc, &masks_of(seed)[..sizes.splits.min(64)]);
            assert!(rt;
                !is_over && index.as_str() == wanted.as_str(),
                "seed {seed}: {index}"
            );
        }
        Told::Stuck(_) => assert!(rt; !is_over, "seed {seed}: {told:?}"),
        Told::Error(RunError::HistoryFull) => assert!(rt;
            may_be_full(gate, sizes),
            "seed {seed}: {told:?}"
        ),
        Told::Error(error) => assert!(rt;
            is_over && *error == RunError::GateLimit,
            "seed {seed}: {error:?}"
        ),
    }
}

fn limits_of(sizes: Sizes) -> Limits {
    if sizes.is_small { LITTLE } else { ENOUGH }
}

// Runs the job of a seed under its gate.
fn run_made<R: Threads + Wait + Clock + Abort + Sync>(
    rt: &R,
    alloc: Global,
    seed: u64,
    sizes: Sizes,
    gate: &Made,
) -> Told {
    let rows = rows_of(rt, seed, &masks_of(seed), sizes.workers);
    assert!(rt; sizes.workers <= 32 && sizes.splits <= 64);
    let job = job_of(
        rt,
        alloc,
        &[sizes.slots; 32][..sizes.workers],
        &rows[..sizes.splits],
        sizes.parts,
        sizes.silence,
        limits_of(sizes),
    )
    .expect(rt, "no job");
    let outcome = run(rt, alloc, job, gate);
    if let Ok(Outcome::Stuck(master)) = &outcome {
        assert!(rt; is_rightly_stuck(rt, alloc, master), "seed {seed}");
    }
    tell(rt, alloc, outcome)
}

// The first and the last seed that the environment names.
fn named_seeds<R: Env + Alloc>(rt: &R) -> Option<(u64, u64)> {
    let words = env::var(rt, "SEEDS").ok()?;
    let mut words = words.as_str().split(' ');
    let first = words.next()?.parse().ok()?;
    let last = words.next()?.parse().ok()?;
    Some((first, last))
}

// Whatever was stopped, held, swept, backed up and ended.
#[test]
fn made_jobs_have_no_other_index(rt: HostRuntime) {
    let (first, last) = named_seeds(&rt).unwrap_or((1, 100));
    let mut counted = Counted::default();
    for seed in first..last.saturating_add(1) {
        let sizes = sizes_of(seed);
        let gate = Made::new(seed, sizes.workers as u64);
        let told = run_made(&rt, rt.alloc(), seed, sizes, &gate);
        judge(&rt, rt.alloc(), seed, &gate, sizes, &told);
        counted.add(&gate, &told);
    }
    let _ = counted.print(&rt);
}
