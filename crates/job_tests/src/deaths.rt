//! Workers that die by sweeps, and return.
use crate::gates::{Count, Holds, Pace, Silences};
use crate::jobs::{AMPLE, SplitRow, job_of};
use crate::told::{Told, add_number, run_rows, tell};
use job_threads::{RunError, run};
use master_state::Limits;
use std::sync::atomic::Ordering;

// The one worker is held in its first map through so many sweeps that it dies, and its split has no other
// holder. It returns with that split, and maps it again.
#[test]
fn a_worker_that_was_only_slow_returns(rt: HostRuntime) {
    let rows: [SplitRow<'_>; 1] = [(5, &[0], "one")];
    let gate = Silences::new(51, 0);
    let job = job_of(&rt, rt.alloc(), &[1], &rows, 2, 50, AMPLE).expect(&rt, "no job");
    let told = tell(&rt, rt.alloc(), run(&rt, rt.alloc(), job, &gate));
    assert!(rt; told.is_index("one 0/"), "{told:?}");
    assert!(rt;
        gate.seen.begun.load(Ordering::SeqCst) == 2,
        "its late result was taken"
    );
}

// The one worker has 16 orders, and dies in its first map. When it returns it passes over the 15 that are
// left of these, and does the 16 that it is given anew.
#[test]
fn orders_that_a_death_lost_are_passed_over(rt: HostRuntime) {
    let rows: [SplitRow<'_>; 16] = [(5, &[0], "one"); 16];
    let gate = Silences::new(51, 0);
    let job = job_of(&rt, rt.alloc(), &[16], &rows, 1, 50, AMPLE).expect(&rt, "no job");
    let told = tell(&rt, rt.alloc(), run(&rt, rt.alloc(), job, &gate));
    assert!(rt; matches!(told, Told::Done(_)), "{told:?}");
    assert_eq!(rt; gate.seen.begun.load(Ordering::SeqCst), 17);
}

// A worker dies while its map is held, and the other one does it.
#[test]
fn a_death_by_sweeps_loses_no_split(rt: HostRuntime) {
    let rows: [SplitRow<'_>; 1] = [(5, &[0, 1], "one")];
    let gate = Holds::new(1, Count::Answered, 1, Pace::Sweeps(512));
    let job = job_of(&rt, rt.alloc(), &[1, 1], &rows, 2, 50, AMPLE).expect(&rt, "no job");
    let told = tell(&rt, rt.alloc(), run(&rt, rt.alloc(), job, &gate));
    assert!(rt; told.is_index("one 0/"), "{told:?}");
    assert!(rt; gate.seen.begun.load(Ordering::SeqCst) >= 2);
}

// A worker that dies after each 1,000 maps, and returns, never has all maps. Its hand grows with its calls,
// and the run ends where the history is full. At least every second event is the end of a map, but for the
// sweeps.
#[test]
fn a_hand_grows_until_the_history_is_full(rt: HostRuntime) {
    let rows: [SplitRow<'_>; 1024] = [(5, &[0], "one"); 1024];
    let gate = Silences::new(51, 1000);
    let limits = Limits {
        events: 8_192,
        sweeps: 8_192,
        ..AMPLE
    };
    let job = job_of(&rt, rt.alloc(), &[16], &rows, 1, 50, limits).expect(&rt, "no job");
    let told = tell(&rt, rt.alloc(), run(&rt, rt.alloc(), job, &gate));
    assert_eq!(rt; told, Told::Error(RunError::HistoryFull));
    let begun = gate.seen.begun.load(Ordering::SeqCst);
    assert!(rt; begun > 3500 && begun < 8192, "{begun}");
}

// Four workers fill their lanes: 16 starts each at once, and the first maps are held until all four have one.
#[test]
fn full_hands_and_long_lanes(rt: HostRuntime) {
    let held: [u16; 4] = [0, 1, 2, 3];
    let mut rows: [SplitRow<'_>; 64] = [(5, &held, "one"); 64];
    for split in 0..64usize {
        if split % 2 == 1 {
            rows[split].2 = "two";
        }
    }
    let gate = Holds::new(u64::MAX, Count::Begun, 4, Pace::Sweeps(0));
    let told = run_rows(&rt, rt.alloc(), &[16; 4], &rows, AMPLE, &gate);
    let alloc = rt.alloc();
    let mut lines = String::new(alloc);
    lines.push_str("one").expect(&rt, "no memory");
    for split in 0..32usize {
        add_number(&rt, alloc, &mut lines, " ", 2 * split);
    }
    lines.push_str("/two").expect(&rt, "no memory");
    for split in 0..32usize {
        add_number(&rt, alloc, &mut lines, " ", 2 * split + 1);
    }
    lines.push_str("/").expect(&rt, "no memory");
    assert!(rt; told.is_index(&lines), "{told:?}");
}
