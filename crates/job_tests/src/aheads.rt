//! Jobs whose waves are plans ahead.
use crate::gates::{DiesFirst, Yields};
use crate::jobs::{AMPLE, SplitRow, job_of};
use crate::told::{Told, tell};
use job_threads::{Gate, Unobserved, run, run_recorded};
use master_state::Event;
use std::alloc::Global;
use std::process::Abort;
use std::rt::Clock;
use std::sync::Wait;
use std::thread::Threads;

// How many waves, plans ahead and bytes times steps the history has of a job on two workers with a slot each,
// whose four splits lie on the first worker.
fn planned<G: Gate, R: Threads + Wait + Clock + Abort + Sync>(
    rt: &R,
    alloc: Global,
    ahead: Option<u8>,
    gate: &G,
) -> (usize, usize, u64) {
    let rows: [SplitRow<'_>; 4] = [(5, &[0], "one"); 4];
    let mut job = job_of(rt, alloc, &[1, 1], &rows, 1, 50, AMPLE).expect(rt, "no job");
    job.ahead = ahead;
    let ran = run_recorded(rt, alloc, job, gate, &Unobserved).ok();
    let ran = ran.expect(rt, "no record");
    assert!(rt; ran.index.is_some());
    let (mut waves, mut aheads, mut bytes) = (0usize, 0usize, 0u64);
    let history = ran.master.history();
    for index in 0..history.len() {
        match history.at(index) {
            Event::Wave { cost, .. } => {
                waves = waves.saturating_add(1);
                bytes = bytes.saturating_add(cost);
            }
            Event::Ahead { cost, .. } => {
                aheads = aheads.saturating_add(1);
                bytes = bytes.saturating_add(cost);
            }
            _ => {}
        }
    }
    (waves, aheads, bytes)
}

// A wave uses the free slot of the other worker. Ahead, each split waits for its holder, and a plan is made
// once between two other events.
#[test]
fn splits_planned_ahead_wait_for_their_holder(rt: HostRuntime) {
    let (waves, aheads, bytes) = planned(&rt, rt.alloc(), None, &Yields);
    assert!(rt;
        waves > 0 && aheads == 0 && bytes > 0,
        "{waves} {aheads} {bytes}"
    );
    let (waves, aheads, bytes) = planned(&rt, rt.alloc(), Some(4), &Yields);
    assert_eq!(rt; (waves, aheads, bytes), (0, 4, 0));
}

// Queues of one wave's slots have two places, so the other worker takes a split.
#[test]
fn queues_have_the_places_of_as_many_waves_as_are_asked_for(rt: HostRuntime) {
    let (waves, _aheads, bytes) = planned(&rt, rt.alloc(), Some(1), &Yields);
    assert!(rt; waves == 0 && bytes > 0, "{waves} {bytes}");
}

// The first worker dies in its first map, and the splits of its queue are planned anew.
#[test]
fn a_queue_of_a_dead_worker_is_planned_anew(rt: HostRuntime) {
    let alloc = rt.alloc();
    let rows: [SplitRow<'_>; 4] = [(5, &[0, 1], "one"); 4];
    let mut job = job_of(&rt, alloc, &[1, 1], &rows, 1, 4, AMPLE).expect(&rt, "no job");
    job.ahead = Some(3);
    let told = tell(&rt, alloc, run(&rt, alloc, job, &DiesFirst::new(10)));
    assert!(rt;
        told.is_index("one 0 1 2 3/") || matches!(told, Told::Stuck(_)),
        "{told:?}"
    );
}
