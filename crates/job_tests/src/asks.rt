//! What a gate is asked, and what an observer is told, and when.
use crate::gates::{SeesAnswers, StopsLate, Yields};
use crate::jobs::{AMPLE, SplitRow, job_of};
use job_threads::{Observer, Progress, Record, Unobserved, run_recorded};
use master_core::Master;
use master_state::Event;
use node_ids::WorkerNo;
use std::alloc::Global;
use std::cell::Cell;
use std::process::Abort;
use std::rt::Clock;
use std::sync::Wait;
use std::sync::atomic::Ordering;
use std::thread::Threads;

// How many ends of maps a master's history has.
fn maps_told(master: &Master) -> u32 {
    let history = master.history();
    let mut told: u32 = 0;
    for index in 0..history.len() {
        if matches!(history.at(index), Event::MapDone(_) | Event::MapFailed(_)) {
            told = told.saturating_add(1);
        }
    }
    told
}

// A worker with slots for all splits, which it alone holds, is stopped in its second map. It ends that map,
// and calls, takes and beats no more, so that it dies.
fn begins_no_further_map<R: Threads + Wait + Clock + Abort + Sync>(
    rt: &R,
    alloc: Global,
    slots: &[u8],
    worker: u16,
) {
    let held = [worker];
    let rows: [SplitRow<'_>; 64] = [(5, &held, "one"); 64];
    let gate = StopsLate::new(WorkerNo::new(worker));
    let job = job_of(rt, alloc, slots, &rows, 1, 50, AMPLE).expect(rt, "no job");
    let ran = run_recorded(rt, alloc, job, &gate, &Unobserved);
    let Record { master, index } = ran.ok().expect(rt, "no record");
    let begun = gate.seen.begun.load(Ordering::SeqCst);
    let answered = gate.seen.answered.load(Ordering::SeqCst);
    let told = maps_told(&master);
    assert!(rt; index.is_none());
    assert!(rt;
        begun <= 2 && answered <= 1 && told <= 1,
        "{begun} maps were begun, {answered} answered, {told} told"
    );
}

#[test]
fn a_stopped_worker_begins_no_further_map(rt: HostRuntime) {
    begins_no_further_map(&rt, rt.alloc(), &[16], 0);
}

#[test]
fn a_stopped_worker_of_many_begins_no_further_map(rt: HostRuntime) {
    for worker in [63, 64, 69] {
        let mut slots = [0; 70];
        slots[worker as usize] = 16;
        begins_no_further_map(&rt, rt.alloc(), &slots, worker);
    }
}

// After each map the gate waits until the calling thread has seen as many splits done as it was asked for.
#[test]
fn a_gate_is_asked_when_the_master_has_answered(rt: HostRuntime) {
    let rows: [SplitRow<'_>; 4] = [(5, &[0], "one"); 4];
    let gate = SeesAnswers::new();
    let job = job_of(&rt, rt.alloc(), &[2], &rows, 1, 3, AMPLE).expect(&rt, "no job");
    let ran = run_recorded(&rt, rt.alloc(), job, &gate, &gate);
    assert!(rt; ran.ok().expect(&rt, "no record").index.is_some());
    assert_eq!(rt; gate.seen.answered.load(Ordering::SeqCst), 4);
}

// The first and the last that was told.
#[derive(Drop)]
struct Ends {
    first: Cell<Option<Progress>>,
    last: Cell<Option<Progress>>,
}

impl Observer for Ends {
    fn seen(&self, progress: &Progress) {
        if self.first.get().is_none() {
            self.first.set(Some(*progress));
        }
        self.last.set(Some(*progress));
    }
}

// Three splits in two parts, all of which start in one wave.
#[test]
fn an_observer_is_told_what_is_open(rt: HostRuntime) {
    let rows: [SplitRow<'_>; 3] = [(5, &[0], "one"); 3];
    let ends = Ends {
        first: Cell::new(None),
        last: Cell::new(None),
    };
    let job = job_of(&rt, rt.alloc(), &[16], &rows, 2, 3, AMPLE).expect(&rt, "no job");
    let ran = run_recorded(&rt, rt.alloc(), job, &Yields, &ends);
    assert!(rt; ran.ok().expect(&rt, "no record").index.is_some());
    let at_first = Progress {
        splits: 3,
        parts: 2,
        open_splits: 3,
        open_parts: 2,
        waves: 0,
        deaths: 0,
    };
    let at_last = Progress {
        open_splits: 0,
        open_parts: 0,
        waves: 1,
        ..at_first
    };
    let told = (ends.first.get(), ends.last.get());
    assert_eq!(rt; told, (Some(at_first), Some(at_last)));
}
