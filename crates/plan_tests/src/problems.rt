use crate::clusters::{WorkerRow, made};
use node_ids::{SplitNo, WorkerNo};
use std::alloc::Global;
use std::process::Abort;
use wave_problem::{MAX_BYTES, Problem, ProblemError};

// Workers 0 and 1 in one rack and 2 in another, the last one dead, with so many slots each.
fn three_workers(free: u8) -> [WorkerRow; 3] {
    [(0, true, free), (0, true, free), (1, false, free)]
}

// What comes of a problem of three workers and one split.
fn told(
    rt: &impl Abort,
    alloc: Global,
    free: u8,
    bytes: u64,
    holders: &[u16],
) -> Option<ProblemError> {
    let splits = [(bytes, true, holders)];
    made(rt, alloc, &three_workers(free), &splits, &[]).err()
}

#[test]
fn errors_in_order(rt: HostRuntime) {
    let many: &[u16] = &[0, 1, 2, 0, 1, 2, 0, 1, 2, 0, 1, 2, 0, 1, 2, 0, 1];
    let rows: [(u8, u64, &[u16], Option<ProblemError>); 6] = [
        (255, MAX_BYTES, &[2, 0], None),
        (1, MAX_BYTES + 1, &[0], Some(ProblemError::Limit)),
        (1, 1, many, Some(ProblemError::Limit)),
        (1, MAX_BYTES + 1, &[3], Some(ProblemError::Limit)),
        (1, 1, &[3], Some(ProblemError::Holder)),
        (1, 1, &[1, 0, 1], Some(ProblemError::Holder)),
    ];
    for (free, bytes, holders, want) in rows {
        let error = told(&rt, rt.alloc(), free, bytes, holders);
        assert_eq!(rt; (free, bytes, error), (free, bytes, want));
    }
}

/// Split 0 of 10 bytes and split 1 of 20 on worker 0, split 2 of 7 on the dead worker 2; split 1 may not
/// start on worker 1.
pub fn three_splits(rt: &impl Abort, alloc: Global) -> Problem {
    let splits: [(u64, bool, &[u16]); 3] = [(10, true, &[0]), (20, true, &[0]), (7, true, &[2])];
    made(rt, alloc, &three_workers(1), &splits, &[(1, 1)]).expect(rt, "no problem")
}

// The cost of a start and whether it is admissible.
fn cost_of(rt: &impl Abort, problem: &Problem, split: u32, worker: u16) -> (Option<u64>, bool) {
    let split = SplitNo::new(split);
    let worker = WorkerNo::new(worker);
    assert!(rt; split.index() < problem.splits() && worker.index() < problem.workers());
    (
        problem.cost(split, worker),
        problem.admissible(split, worker),
    )
}

#[test]
fn costs(rt: HostRuntime) {
    let problem = three_splits(&rt, rt.alloc());
    assert_eq!(rt; problem.reward(), 149);
    for (split, worker, cost, admissible) in [
        (0, 0, Some(0), true),
        (0, 1, Some(20), true),
        (0, 2, Some(40), false),
        (1, 0, Some(0), true),
        (1, 1, Some(40), false),
        (2, 0, None, false),
        (2, 2, None, false),
    ] {
        let told = cost_of(&rt, &problem, split, worker);
        assert_eq!(rt; (split, worker, told), (split, worker, (cost, admissible)));
    }
}

// The bytes of split 1, and whether it is pending; whether a holder of it and one of split 2 lives; and
// whether worker 0 alone holds it.
fn told_of_splits(rt: &impl Abort, problem: &Problem) -> (u64, bool, [bool; 2], bool) {
    let split = SplitNo::new(1);
    assert!(rt; problem.splits() == 3);
    (
        problem.bytes(split),
        problem.is_pending(split),
        [
            problem.has_live_holder(split),
            problem.has_live_holder(SplitNo::new(2)),
        ],
        problem.holders(split) == [WorkerNo::new(0)].as_slice(),
    )
}

#[test]
fn splits(rt: HostRuntime) {
    let problem = three_splits(&rt, rt.alloc());
    let told = told_of_splits(&rt, &problem);
    assert_eq!(rt; told, (20, true, [true, false], true));
}

// The racks, and the free slots of worker 1; whether it and worker 2 live; whether splits 1 and 0 may not
// start on it; and whether split 1 may not start on it alone.
fn told_of_workers(rt: &impl Abort, problem: &Problem) -> (usize, u8, [bool; 2], [bool; 2], bool) {
    let worker = WorkerNo::new(1);
    assert!(rt; problem.splits() == 3 && problem.workers() == 3);
    (
        problem.tree().racks(),
        problem.free(worker),
        [problem.is_live(worker), problem.is_live(WorkerNo::new(2))],
        [
            problem.is_barred(SplitNo::new(1), worker),
            problem.is_barred(SplitNo::new(0), worker),
        ],
        problem.bars(SplitNo::new(1)) == [worker].as_slice(),
    )
}

#[test]
fn workers(rt: HostRuntime) {
    let problem = three_splits(&rt, rt.alloc());
    let told = told_of_workers(&rt, &problem);
    assert_eq!(rt; told, (2, 1, [true, false], [true, false], true));
}
