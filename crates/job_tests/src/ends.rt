//! Runs that end without an index, and those that nothing refused changes.
use crate::gates::{Ask, Count, Ends, Holds, Pace, Seen, Stops, Yields};
use crate::jobs::{AMPLE, SplitRow, job_of};
use crate::told::{Told, run_rows, tell};
use job_threads::{PlainGate, RunError, Turn, run};
use master_state::Limits;
use node_ids::WorkerNo;

// Two splits, each on a worker of its own.
const APART: [SplitRow<'static>; 2] = [(3, &[0], "one two"), (3, &[1], "two")];

#[test]
fn a_full_history_ends_the_run(rt: HostRuntime) {
    let limits = Limits {
        events: 2,
        attempts: 2,
        sweeps: 0,
    };
    let told = run_rows(&rt, rt.alloc(), &[1, 1], &APART, limits, &Yields);
    assert_eq!(rt; told, Told::Error(RunError::HistoryFull));
}

// The third sweep finds no place, while the map is held.
#[test]
fn a_history_full_of_sweeps_ends_the_run(rt: HostRuntime) {
    let limits = Limits {
        events: 100,
        attempts: 10,
        sweeps: 2,
    };
    let gate = Holds::new(u64::MAX, Count::Turns, 3, Pace::Each(Turn::Sweep));
    let told = run_rows(&rt, rt.alloc(), &[1, 1], &APART, limits, &gate);
    assert_eq!(rt; told, Told::Error(RunError::HistoryFull));
}

#[test]
fn over_ends_the_run_wherever_it_is_answered(rt: HostRuntime) {
    for at in [Ask::Before, Ask::After, Ask::Turn] {
        let told = run_rows(&rt, rt.alloc(), &[1, 1], &APART, AMPLE, &Ends { at });
        assert_eq!(rt; told, Told::Error(RunError::GateLimit));
    }
}

// Beside a split that a worker holds.
#[test]
fn a_split_that_nobody_holds_is_left(rt: HostRuntime) {
    let rows: [SplitRow<'_>; 2] = [(5, &[0], "one"), (5, &[], "two")];
    let gate = Stops {
        seen: Seen::new(),
        worker: WorkerNo::new(31),
        every: 65_536,
    };
    let told = run_rows(&rt, rt.alloc(), &[1], &rows, AMPLE, &gate);
    assert!(rt; told.is_stuck_with(" 1"), "{told:?}");
}

#[test]
fn a_cluster_without_workers_is_stuck(rt: HostRuntime) {
    let rows: [SplitRow<'_>; 1] = [(5, &[], "one")];
    let gate = Stops {
        seen: Seen::new(),
        worker: WorkerNo::new(0),
        every: 1024,
    };
    let told = run_rows(&rt, rt.alloc(), &[], &rows, AMPLE, &gate);
    assert!(rt; told.is_stuck_with(" 0"), "{told:?}");
}

// A job that can never go on is stuck at once under the plain gate, however long workers may be silent.
// Meanwhile no worker that beats is taken for dead, and no split that is done is lost. (slots, silence, what
// is left)
#[test]
fn a_job_past_help_is_stuck_at_once(rt: HostRuntime) {
    let rows: [SplitRow<'_>; 2] = [(5, &[0], "one"), (5, &[], "two")];
    let table: [(&[u8], u32, &str); 5] = [
        (&[0, 0], 1000, " 0 1"),
        (&[1, 1], 1000, " 1"),
        (&[1, 1], 1, " 1"),
        (&[0, 16], 3, " 1"),
        (&[1; 32], 3, " 1"),
    ];
    for (slots, silence, left) in table {
        let job = job_of(&rt, rt.alloc(), slots, &rows, 1, silence, AMPLE).expect(&rt, "no job");
        let told = tell(&rt, rt.alloc(), run(&rt, rt.alloc(), job, &PlainGate));
        assert!(rt; told.is_stuck_with(left), "{slots:?} {silence}: {told:?}");
    }
}

// Whatever allocation is refused, there is no other index than the job's.
#[test]
fn a_refused_run_has_no_other_index(rt: HostRuntime) {
    match run_rows(&rt, rt.alloc(), &[1, 1], &APART, AMPLE, &PlainGate) {
        Told::Done(index) => assert!(rt; index.as_str() == "one 0/two 0 1/", "{index}"),
        Told::Stuck(_) => {}
        Told::Error(error) => {
            assert!(rt;
                matches!(error, RunError::Memory | RunError::NoThread),
                "{error:?}"
            );
        }
    }
}
