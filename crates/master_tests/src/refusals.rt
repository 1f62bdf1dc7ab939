//! Allocations that are refused: they hold whichever is, one or none.
use crate::jobs;
use crate::jobs::{AMPLE, Call, Job, Shape, answer, end, make_cluster, make_master, planned};
use crate::seen::{Shown, seen};
use master_core::{ClusterError, Master};
use master_state::{Answer, CommitError, Why};
use std::alloc::Global;
use std::process::Abort;

// Two splits, of which the first worker holds one and nobody the other.
const TWO_SPLITS: Shape<'static> = Shape {
    racks: &[2],
    slots: &[1, 1],
    splits: &[(10, &[0], "one"), (10, &[], "two")],
    parts: 2,
};

const ONE_SPLIT: Shape<'static> = Shape {
    racks: &[2],
    slots: &[1, 1],
    splits: &[(3, &[0], "The cat, THE dog")],
    parts: 2,
};

/// A master of these splits, unless an allocation is refused.
pub fn one_master(rt: &impl Abort, alloc: Global, of: &Shape<'_>) -> Option<Job> {
    match make_cluster(rt, alloc, of)? {
        Ok(cluster) => make_master(rt, alloc, cluster, AMPLE),
        Err(why) => {
            assert_eq!(rt; why, ClusterError::Memory);
            None
        }
    }
}

// The same, made at the second time where an allocation of its cluster or of its own is refused at the first.
fn a_master(rt: &impl Abort, alloc: Global, of: &Shape<'_>) -> Job {
    match one_master(rt, alloc, of) {
        Some(job) => job,
        None => one_master(rt, alloc, of).expect(rt, "no second master"),
    }
}

/// The master shows what it showed before, where both could be told.
pub fn is_as_before(rt: &impl Abort, alloc: Global, master: &Master, before: Option<Shown>) {
    if let (Some(before), Some(after)) = (before, seen(alloc, master).ok()) {
        assert_eq!(rt; before, after);
    }
}

// Commits a plan of the present state, at the second call where the first is refused.
fn commit(rt: &impl Abort, alloc: Global, job: &mut Job) -> Option<u32> {
    let planned = planned(alloc, job)?;
    let before = seen(alloc, &job.master).ok();
    match jobs::commit(rt, alloc, job, &planned) {
        Ok(wave) => Some(wave.place),
        Err(why) => {
            assert_eq!(rt; why, CommitError::Memory);
            is_as_before(rt, alloc, &job.master, before);
            None
        }
    }
}

#[test]
fn a_refused_commit_changes_nothing(rt: HostRuntime) {
    let mut job = a_master(&rt, rt.alloc(), &TWO_SPLITS);
    let first = commit(&rt, rt.alloc(), &mut job);
    let second = commit(&rt, rt.alloc(), &mut job);
    assert_eq!(rt; first.or(second), Some(1));
    end(job);
}

// Hands in a plan of before split 0 was done, which is refused in any case.
fn commit_an_old_plan(rt: &impl Abort, alloc: Global, job: &mut Job) -> Option<()> {
    let old = planned(alloc, job)?;
    answer(rt, alloc, job, Call::Done(1))?;
    let before = seen(alloc, &job.master).ok();
    match jobs::commit(rt, alloc, job, &old) {
        Err(CommitError::Memory | CommitError::Stale(_)) => {}
        told => panic!(rt; "{told:?}"),
    }
    is_as_before(rt, alloc, &job.master, before);
    Some(())
}

// Split 0 runs on worker 0, which holds split 1 too, unless an allocation is refused.
fn a_running_master(rt: &impl Abort, alloc: Global) -> Option<Job> {
    let mut job = a_master(rt, alloc, &TWO_SPLITS);
    for call in [Call::Wave, Call::Add(1, 0)] {
        answer(rt, alloc, &mut job, call)?;
    }
    Some(job)
}

#[test]
fn a_refused_commit_of_an_old_plan_changes_nothing(rt: HostRuntime) {
    let Some(mut job) = a_running_master(&rt, rt.alloc()) else {
        return;
    };
    if commit_an_old_plan(&rt, rt.alloc(), &mut job).is_some() {
        let first = commit(&rt, rt.alloc(), &mut job);
        let second = commit(&rt, rt.alloc(), &mut job);
        assert_eq!(rt; first.or(second), Some(4));
    }
    end(job);
}

// Starts a reduce attempt, at the second call where the first is refused.
fn reduce(rt: &impl Abort, alloc: Global, job: &mut Job) -> Option<u32> {
    let before = seen(alloc, &job.master).ok();
    match job.master.reduce_start(alloc) {
        Answer::Accepted(place, reply) => {
            assert_eq!(rt; reply.runs.len(), 1);
            Some(place)
        }
        Answer::Ignored(why, ()) => {
            assert_eq!(rt; why, Why::Memory);
            is_as_before(rt, alloc, &job.master, before);
            None
        }
    }
}

// A master whose split is done, unless an allocation is refused.
fn a_mapped_master(rt: &impl Abort, alloc: Global) -> Option<Job> {
    let mut job = a_master(rt, alloc, &ONE_SPLIT);
    for call in [Call::Wave, Call::Done(1)] {
        answer(rt, alloc, &mut job, call)?;
    }
    Some(job)
}

#[test]
fn a_refused_reduce_start_changes_nothing(rt: HostRuntime) {
    let Some(mut job) = a_mapped_master(&rt, rt.alloc()) else {
        return;
    };
    let first = reduce(&rt, rt.alloc(), &mut job);
    let second = reduce(&rt, rt.alloc(), &mut job);
    assert_eq!(rt; first.or(second), Some(3));
    end(job);
}

// Whether a problem is made, and how many copies are ordered.
fn read(alloc: Global, job: &Job) -> (bool, Option<usize>) {
    let orders = job.master.copy_orders(alloc, 2).ok();
    (
        job.master.problem(alloc).is_ok(),
        orders.map(|orders| orders.len()),
    )
}

#[test]
fn refused_readers_change_nothing(rt: HostRuntime) {
    let job = a_master(&rt, rt.alloc(), &TWO_SPLITS);
    let before = seen(rt.alloc(), &job.master).ok();
    let first = read(rt.alloc(), &job);
    let second = read(rt.alloc(), &job);
    is_as_before(&rt, rt.alloc(), &job.master, before);
    assert!(rt; first == (true, Some(1)) || second == (true, Some(1)));
    end(job);
}
