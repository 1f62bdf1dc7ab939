//! The waves of a master, which keeps its planner, beside a new plan of each state over the direct network.
use crate::jobs::{Call, Job, Shape, SplitRow, answer, last_glance, make_shaped};
use crate::runs::next;
use certificate_checker::certify;
use master_state::Limits;
use price_certificate::are_of_one_size;
use std::alloc::Global;
use std::process::Abort;
use wave_planner::{NetworkKind, plan_with};

// Room for the events and starts of a test.
const ROOM: Limits = Limits {
    events: 1000,
    attempts: 1000,
    sweeps: 0,
};

// The next number that is drawn.
fn drawn(seed: &mut u64) -> u64 {
    *seed = next(*seed);
    *seed >> 33u32
}

fn drawn_split(seed: &mut u64) -> SplitRow<'static> {
    let holders: &'static [u16] = match drawn(seed) % 6 {
        0 => &[0],
        1 => &[0, 3],
        2 => &[1, 2, 5],
        3 => &[4],
        4 => &[2, 3],
        _ => &[5, 1],
    };
    (drawn(seed) % 100, holders, "one")
}

// A job of six workers in three racks and of eight splits, whose slots and splits are drawn.
fn drawn_job(rt: &impl Abort, alloc: Global, seed: &mut u64) -> Job {
    let mut slots = [0; 6];
    for w in 0..6usize {
        slots[w] = (drawn(seed) % 3) as u8;
    }
    let mut splits = [drawn_split(seed); 8];
    for s in 1..8usize {
        splits[s] = drawn_split(seed);
    }
    let shape = Shape {
        racks: &[2, 3, 1],
        slots: &slots,
        splits: &splits,
        parts: 2,
    };
    make_shaped(rt, alloc, &shape, ROOM).expect(rt, "no job")
}

// What happens to a job that has had so many attempts.
fn drawn_call(seed: &mut u64, attempts: u32) -> Call {
    let (split, worker) = ((drawn(seed) % 8) as u16, (drawn(seed) % 6) as u16);
    let attempt = attempts.saturating_sub((drawn(seed) % 8) as u32);
    match drawn(seed) % 14 {
        0 => Call::Done(attempt),
        1 => Call::Fail(attempt),
        2 => Call::Backup(split, worker),
        3 => Call::Die(worker),
        4 => Call::Join(worker, None),
        5 | 6 => Call::Join(worker, Some(split)),
        7 => Call::Lose(split, worker),
        8 | 9 => Call::Add(split, worker),
        _ => Call::Withdraw(attempt),
    }
}

// That a wave is certified and starts as many splits, at the same cost, as a plan over the direct network;
// and that the starts alone, told of a job with the same history, are the same.
fn assert_best(rt: &impl Abort, alloc: Global, job: &mut Job, twin: &mut Job) {
    let problem = job.master.problem(alloc).expect(rt, "no problem");
    let new = plan_with(alloc, &problem, NetworkKind::Direct).expect(rt, "no plan");
    let (kept, wave) = job.master.start_best(alloc).expect(rt, "no wave");
    assert!(rt; are_of_one_size(&problem, kept.plan(), kept.prices()));
    let certified = certify(alloc, &problem, kept.plan(), kept.prices());
    assert_eq!(rt; certified, Ok(new.certified()));
    assert_eq!(rt; wave.cost, new.certified().cost);
    let (starts, same) = twin.master.start_wave(alloc).expect(rt, "no wave");
    assert_eq!(rt; starts.as_slice(), kept.pairs());
    assert_eq!(rt; same, wave);
}

// Three calls that are drawn.
fn call_three_times(rt: &impl Abort, alloc: Global, job: &mut Job, seed: &mut u64) {
    for _ in 0..3usize {
        let attempts = job.master.starts().len().min(1000) as u32;
        answer(rt, alloc, job, drawn_call(seed, attempts));
    }
}

#[test]
fn waves_of_a_kept_planner_stay_best(rt: HostRuntime) {
    let (mut seed, mut starts) = (31, 0usize);
    for _ in 0..40usize {
        let mut same = seed;
        let mut job = drawn_job(&rt, rt.alloc(), &mut seed);
        let mut twin = drawn_job(&rt, rt.alloc(), &mut same);
        for _ in 0..50usize {
            assert_best(&rt, rt.alloc(), &mut job, &mut twin);
            call_three_times(&rt, rt.alloc(), &mut job, &mut seed);
            call_three_times(&rt, rt.alloc(), &mut twin, &mut same);
        }
        starts = starts.wrapping_add(job.master.starts().len());
        last_glance(job);
        last_glance(twin);
    }
    assert!(rt; starts >= 1000, "{starts}");
}
