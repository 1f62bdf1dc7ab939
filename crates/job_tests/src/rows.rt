//! Rows whose answers were worked out by hand.
use crate::gates::{Count, Holds, Pace, Seen, Stops, Yields};
use crate::jobs::{AMPLE, SplitRow};
use crate::told::{Told, run_rows};
use job_threads::{PlainGate, Turn};
use master_state::Limits;
use node_ids::WorkerNo;
use std::sync::atomic::Ordering;

// Two splits, each on a worker of its own.
const APART: [SplitRow<'static>; 2] = [(3, &[0], "one two"), (3, &[1], "two")];

// The same on both workers.
const ON_BOTH: [SplitRow<'static>; 2] = [(3, &[0, 1], "one two"), (3, &[0, 1], "two")];

// On one thread the first map would be held for ever.
#[test]
fn two_workers_map_side_by_side(rt: HostRuntime) {
    let gate = Holds::new(u64::MAX, Count::Begun, 2, Pace::Sweeps(0));
    let told = run_rows(&rt, rt.alloc(), &[1, 1], &APART, AMPLE, &gate);
    assert!(rt; told.is_index("one 0/two 0 1/"), "{told:?}");
    assert!(rt; gate.seen.of_first.load(Ordering::SeqCst) > 0);
    assert!(rt; gate.seen.of_second.load(Ordering::SeqCst) > 0);
}

#[test]
fn a_job_under_two_gates(rt: HostRuntime) {
    let told = run_rows(&rt, rt.alloc(), &[1, 1], &APART, AMPLE, &Yields);
    assert!(rt; told.is_index("one 0/two 0 1/"), "{told:?}");
    let told = run_rows(&rt, rt.alloc(), &[1, 1], &APART, AMPLE, &PlainGate);
    assert!(rt; told.is_index("one 0/two 0 1/"), "{told:?}");
}

#[test]
fn a_stopped_worker_changes_no_index(rt: HostRuntime) {
    for _ in 0..100u32 {
        let gate = Stops {
            seen: Seen::new(),
            worker: WorkerNo::new(0),
            every: 1024,
        };
        match run_rows(&rt, rt.alloc(), &[1, 1], &ON_BOTH, AMPLE, &gate) {
            Told::Done(index) => assert!(rt; index.as_str() == "one 0/two 0 1/", "{index}"),
            Told::Stuck(_) => {}
            Told::Error(error) => panic!(rt; "{error:?}"),
        }
    }
}

// A wave in each turn would fill the history.
#[test]
fn a_long_wait_fills_no_history(rt: HostRuntime) {
    let limits = Limits {
        events: 1000,
        attempts: 1000,
        sweeps: 1000,
    };
    let gate = Holds::new(1, Count::Turns, 10_000, Pace::Sweeps(0));
    let told = run_rows(&rt, rt.alloc(), &[1, 1], &APART, limits, &gate);
    assert!(rt; told.is_index("one 0/two 0 1/"), "{told:?}");
}

#[test]
fn a_backup_overtakes_the_first_attempt(rt: HostRuntime) {
    let rows: [SplitRow<'_>; 1] = [(5, &[0, 1], "one")];
    let gate = Holds::new(1, Count::Answered, 1, Pace::Each(Turn::Backup));
    let told = run_rows(&rt, rt.alloc(), &[1, 1], &rows, AMPLE, &gate);
    assert!(rt; told.is_index("one 0/"), "{told:?}");
    assert!(rt; gate.seen.begun.load(Ordering::SeqCst) == 2);
}
