//! Jobs whose histories are looked at: the copies after a death, and where second attempts start.
use crate::gates::{Count, DiesFirst, Holds, Pace};
use crate::jobs::{AMPLE, SplitRow, job_of};
use crate::told::add_number;
use job_threads::{Gate, Observer, Progress, RunError, Turn, run_recorded};
use master_state::Event;
use std::alloc::Global;
use std::process::Abort;
use std::rt::Clock;
use std::sync::Wait;
use std::sync::atomic::{AtomicU64, Ordering};
use std::thread::Threads;

/// Sees how many workers died.
#[derive(Drop)]
struct Deaths {
    seen: AtomicU64,
}

impl Observer for Deaths {
    fn seen(&self, progress: &Progress) {
        self.seen
            .store(u64::from(progress.deaths), Ordering::SeqCst);
    }
}

// Adds what a copy or a second attempt says: the split and the worker.
fn tell_event(rt: &impl Abort, alloc: Global, lines: &mut String, event: &Event<'_>) {
    match event {
        Event::Add(split, worker) | Event::Backup(_, split, worker) => {
            add_number(rt, alloc, lines, "", split.index());
            add_number(rt, alloc, lines, " on ", worker.index());
            lines.push_str("/").expect(rt, "no memory");
        }
        _ => {}
    }
}

// The copies and the second attempts of a job's history, in their order.
fn told_of<G: Gate, O: Observer, R: Threads + Wait + Clock + Abort + Sync>(
    rt: &R,
    alloc: Global,
    slots: &[u8],
    rows: &[SplitRow<'_>],
    target: u8,
    gate: &G,
    observer: &O,
) -> Result<String, RunError> {
    let mut job = job_of(rt, alloc, slots, rows, 1, 4, AMPLE).expect(rt, "no job");
    job.target = target;
    let ran = run_recorded(rt, alloc, job, gate, observer)?;
    let mut lines = String::new(alloc);
    let history = ran.master.history();
    for index in 0..history.len() {
        tell_event(rt, alloc, &mut lines, &history.at(index));
    }
    Ok(lines)
}

const WORKERS: [u16; 8] = [0, 1, 2, 3, 4, 5, 6, 7];

// The copies of the splits from 1 up to the target, each on the worker that follows the split's number.
fn copies_of(rt: &impl Abort, alloc: Global, target: u8) -> String {
    let mut lines = String::new(alloc);
    for split in 1..usize::from(target) {
        add_number(rt, alloc, &mut lines, "", split);
        add_number(rt, alloc, &mut lines, " on ", split + 1);
        lines.push_str("/").expect(rt, "no memory");
    }
    lines
}

// The copies that a job's history has after the death of one worker, with this least time between sweeps.
// None if more workers died, since a thread got no processor for that time.
fn copies_told<R: Threads + Wait + Clock + Abort + Sync>(
    rt: &R,
    alloc: Global,
    rows: &[SplitRow<'_>],
    target: u8,
    gap: u64,
) -> Option<String> {
    let deaths = Deaths {
        seen: AtomicU64::new(0),
    };
    let gate = DiesFirst::new(gap);
    let lines = told_of(rt, alloc, &[1; 9], rows, target, &gate, &deaths).ok()?;
    if deaths.seen.load(Ordering::SeqCst) == 1 {
        Some(lines)
    } else {
        None
    }
}

// The first of nine workers is stopped while it maps, and dies. Split s has s other holders: each split that
// has some, but fewer than the target, gets one copy.
#[test]
fn copies_after_a_death_are_those_of_the_target(rt: HostRuntime) {
    let mut rows: [SplitRow<'_>; 8] = [(5, &[], "one"); 8];
    for split in 0..8usize {
        rows[split].1 = &WORKERS[..split + 1];
    }
    for target in 1..9u8 {
        let mut told = None;
        for gap in [10, 20, 40, 80, 160, 320, 640, 1280, 2560, 5120] {
            if told.is_none() {
                told = copies_told(&rt, rt.alloc(), &rows, target, gap);
            }
        }
        let told = told.expect(&rt, "no run with one death");
        let wanted = copies_of(&rt, rt.alloc(), target);
        assert_eq!(rt; (target, told.as_str()), (target, wanted.as_str()));
    }
}

// Runs a job of these splits, and sees that each split gets its second attempt on its worker.
fn backs_up<R: Threads + Wait + Clock + Abort + Sync>(
    rt: &R,
    alloc: Global,
    slots: &[u8],
    rows: &[SplitRow<'_>],
    wanted: &str,
) {
    let splits = rows.len() as u64;
    let gate = Holds::new(splits, Count::Answered, splits, Pace::Each(Turn::Backup));
    let deaths = Deaths {
        seen: AtomicU64::new(0),
    };
    let told = told_of(rt, alloc, slots, rows, 1, &gate, &deaths);
    let told = told.ok().expect(rt, "no record");
    assert_eq!(rt; (slots, told.as_str()), (slots, wanted));
}

// Splits that run on the fourth worker, on the first, and on the third and the fourth.
const ON_3: [SplitRow<'static>; 1] = [(5, &[3], "one")];

const ON_0: [SplitRow<'static>; 1] = [(5, &[0], "one")];

const ON_TWO: [SplitRow<'static>; 2] = [(5, &[2], "one"), (5, &[3], "two")];

#[test]
fn a_backup_starts_on_the_lowest_worker_that_may_take_it(rt: HostRuntime) {
    backs_up(&rt, rt.alloc(), &[1, 1, 1, 1], &ON_3, "0 on 0/");
    backs_up(&rt, rt.alloc(), &[0, 1, 1, 1], &ON_3, "0 on 1/");
    backs_up(&rt, rt.alloc(), &[0, 0, 1, 1], &ON_3, "0 on 2/");
    backs_up(&rt, rt.alloc(), &[1, 1, 1, 1], &ON_0, "0 on 1/");
    backs_up(&rt, rt.alloc(), &[1, 1, 1, 1], &ON_TWO, "0 on 0/1 on 1/");
}
