//! Jobs at the limits of their sizes.
use crate::gates::{CountsBeats, Yields};
use crate::jobs::{AMPLE, SplitRow, job_of};
use crate::told::{add_number, tell};
use job_threads::{PlainGate, Record, Unobserved, run, run_recorded};
use std::alloc::Global;
use std::process::Abort;
use std::sync::atomic::Ordering;

// The numbers of all splits behind a word.
fn index_of(rt: &impl Abort, alloc: Global, word: &str, splits: usize) -> String {
    let mut lines = String::new(alloc);
    lines.push_str(word).expect(rt, "no memory");
    for split in 0..splits {
        add_number(rt, alloc, &mut lines, " ", split);
    }
    lines.push_str("/").expect(rt, "no memory");
    lines
}

// 32 workers of 16 slots, 64 parts, and 600 splits, all of which may start in the first wave on few workers:
// the lanes of the first ones hold 32 orders.
#[test]
fn as_many_workers_and_parts_as_there_may_be(rt: HostRuntime) {
    let held: [u16; 1] = [31];
    let rows: [SplitRow<'_>; 600] = [(5, &held, "one"); 600];
    let job = job_of(&rt, rt.alloc(), &[16; 32], &rows, 64, 50, AMPLE).expect(&rt, "no job");
    let told = tell(&rt, rt.alloc(), run(&rt, rt.alloc(), job, &Yields));
    let wanted = index_of(&rt, rt.alloc(), "one", 600);
    assert!(rt; told.is_index(&wanted), "{told:?}");
}

// A worker of 255 slots, on which as many splits start in one wave, and another one that holds nothing.
#[test]
fn as_many_slots_as_there_may_be(rt: HostRuntime) {
    let rows: [SplitRow<'_>; 300] = [(5, &[0], "one"); 300];
    let job = job_of(&rt, rt.alloc(), &[255, 255], &rows, 1, 50, AMPLE).expect(&rt, "no job");
    let told = tell(&rt, rt.alloc(), run(&rt, rt.alloc(), job, &Yields));
    let wanted = index_of(&rt, rt.alloc(), "one", 300);
    assert!(rt; told.is_index(&wanted), "{told:?}");
}

// A split of 16 MB, whose one map outlasts many turns of the calling thread.
#[test]
fn one_great_split_under_the_plain_gate(rt: HostRuntime) {
    let alloc = rt.alloc();
    let mut words = String::new(alloc);
    for _ in 0..1_048_576u32 {
        words.push_str("one two five six ").expect(&rt, "no memory");
    }
    let rows: [SplitRow<'_>; 1] = [(5, &[0], &words)];
    let job = job_of(&rt, alloc, &[1], &rows, 2, 1000, AMPLE).expect(&rt, "no job");
    let told = tell(&rt, alloc, run(&rt, alloc, job, &PlainGate));
    assert!(rt; told.is_index("five 0/one 0/six 0/two 0/"), "{told:?}");
}

// Adds a word of five letters, another one for each number below 26^5.
fn push_word(rt: &impl Abort, words: &mut String, number: u32) {
    let mut rest = number;
    for _ in 0..5u32 {
        words
            .push(char::from(b'a' + (rest % 26) as u8))
            .expect(rt, "no memory");
        rest /= 26;
    }
    words.push(' ').expect(rt, "no memory");
}

// In so many words a worker beats at least once.
const STRIDE: u64 = 4097;

// A worker beats while it maps a split of many words, and maps it once.
#[test]
fn a_worker_beats_while_it_maps(rt: HostRuntime) {
    let alloc = rt.alloc();
    let mut words = String::new(alloc);
    for number in 0..1_500_000u32 {
        // (in another order than that of the words)
        push_word(&rt, &mut words, number * 7 % 10_000_019);
    }
    let rows: [SplitRow<'_>; 1] = [(5, &[0], &words)];
    let gate = CountsBeats::new();
    let job = job_of(&rt, alloc, &[1], &rows, 1, 1000, AMPLE).expect(&rt, "no job");
    let ran = run_recorded(&rt, alloc, job, &gate, &Unobserved);
    let Record { master, index } = ran.ok().expect(&rt, "no record");
    let index = index.expect(&rt, "no index");
    let begun = gate.seen.begun.load(Ordering::SeqCst);
    assert_eq!(rt; (index.entries().len(), begun), (1_500_000, 1));
    let sweeps = master.sweeps();
    let (2, Some(before), Some(after)) = (sweeps.len(), sweeps.get(0), sweeps.get(1)) else {
        panic!(rt; "not two sweeps");
    };
    let beats = after.of(0).saturating_sub(before.of(0));
    assert!(rt; beats >= 1_500_000 / STRIDE, "{beats} beats");
}
