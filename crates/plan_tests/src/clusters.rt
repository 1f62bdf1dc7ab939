//! Problems, plans and prices made from rows.
use node_ids::{CentreNo, PairSet, RackNo, SplitNo, WorkerNo};
use price_certificate::Prices;
use rack_tree::{MAX_WORKERS, RackTree};
use std::alloc::Global;
use std::process::Abort;
use wave_problem::{MAX_SPLITS, Plan, Problem, ProblemError, SplitLine, WorkerLine};

/// How many data centres there are, and the centre of each rack.
pub type Centres<'r> = (u8, &'r [u8]);

/// A worker: its rack, whether it lives, and its free slots.
pub type WorkerRow = (u16, bool, u8);

/// A split: its bytes, whether it is pending, and its holders.
pub type SplitRow<'r> = (u64, bool, &'r [u16]);

/// The tree of these data centres and racks.
pub fn empty_racks(rt: &impl Abort, alloc: Global, centres: Centres<'_>) -> RackTree {
    let mut tree = RackTree::new(alloc);
    for _ in 0..centres.0 {
        tree.add_centre().expect(rt, "no centre");
    }
    for centre in centres.1 {
        let centre = CentreNo::new(*centre);
        assert!(rt; centre.index() < tree.centres());
        tree.add_rack(centre).expect(rt, "no rack");
    }
    tree
}

/// The tree of these data centres, racks and workers.
pub fn tree_in(
    rt: &impl Abort,
    alloc: Global,
    centres: Centres<'_>,
    rows: &[WorkerRow],
) -> RackTree {
    let mut tree = empty_racks(rt, alloc, centres);
    for (rack, _, _) in rows {
        let rack = RackNo::new(*rack);
        assert!(rt; rack.index() < tree.racks());
        tree.add_worker(rack).expect(rt, "no worker");
    }
    tree
}

/// The tree of two racks in one data centre and these workers.
pub fn tree(rt: &impl Abort, alloc: Global, rows: &[WorkerRow]) -> RackTree {
    tree_in(rt, alloc, (1, &[0, 0]), rows)
}

/// The lines of these workers.
pub fn worker_lines(rt: &impl Abort, alloc: Global, rows: &[WorkerRow]) -> Vec<WorkerLine> {
    let mut lines = Vec::new(alloc);
    for (_, live, free) in rows {
        let line = WorkerLine {
            live: *live,
            free: *free,
        };
        lines.push(line).expect(rt, "no workers");
    }
    lines
}

fn holders(rt: &impl Abort, alloc: Global, row: &[u16]) -> Vec<WorkerNo> {
    let mut holders = Vec::new(alloc);
    for holder in row {
        holders
            .push(WorkerNo::new(*holder))
            .expect(rt, "no holders");
    }
    holders
}

/// The lines of these splits.
pub fn split_lines(rt: &impl Abort, alloc: Global, rows: &[SplitRow<'_>]) -> Vec<SplitLine> {
    let mut lines = Vec::new(alloc);
    for (bytes, pending, row) in rows {
        let line = SplitLine {
            bytes: *bytes,
            pending: *pending,
            holders: holders(rt, alloc, row),
        };
        lines.push(line).expect(rt, "no splits");
    }
    lines
}

/// The set of these pairs of a split and a worker, where all splits are in range.
pub fn pairs(rt: &impl Abort, alloc: Global, rows: &[(u16, u16)]) -> PairSet {
    let mut barred = PairSet::new(alloc, 1024).expect(rt, "no pairs");
    for (split, worker) in rows {
        assert!(rt; *split < 1024);
        let split = SplitNo::new(u32::from(*split));
        barred
            .put(split, WorkerNo::new(*worker))
            .expect(rt, "no pairs");
    }
    barred
}

/// What comes of a problem of these rows, in which these pairs of a split and a worker are barred, in two
/// racks of one data centre.
pub fn made(
    rt: &impl Abort,
    alloc: Global,
    workers: &[WorkerRow],
    splits: &[SplitRow<'_>],
    barred: &[(u16, u16)],
) -> Result<Problem, ProblemError> {
    made_in(rt, alloc, (1, &[0, 0]), workers, splits, barred)
}

/// The same in the racks of these data centres.
pub fn made_in(
    rt: &impl Abort,
    alloc: Global,
    centres: Centres<'_>,
    workers: &[WorkerRow],
    splits: &[SplitRow<'_>],
    barred: &[(u16, u16)],
) -> Result<Problem, ProblemError> {
    let tree = tree_in(rt, alloc, centres, workers);
    let workers = worker_lines(rt, alloc, workers);
    let splits = split_lines(rt, alloc, splits);
    let barred = pairs(rt, alloc, barred);
    assert!(rt; workers.len() == tree.workers());
    Problem::new(alloc, tree, workers, splits, barred)
}

/// The plan by which the splits start on these of so many workers.
pub fn plan_of(rt: &impl Abort, alloc: Global, starts: &[Option<u16>], workers: usize) -> Plan {
    assert!(rt; starts.len() <= MAX_SPLITS && workers <= MAX_WORKERS);
    let mut plan = Plan::new(alloc, starts.len(), workers).expect(rt, "no plan");
    for (split, start) in starts.iter().enumerate() {
        if let Some(worker) = start {
            assert!(rt; split < plan.splits() && usize::from(*worker) < plan.workers());
            plan.set(SplitNo::new(split as u32), Some(WorkerNo::new(*worker)));
        }
    }
    plan
}

/// These prices of the splits and of the workers.
pub fn prices_of(rt: &impl Abort, alloc: Global, splits: &[u64], workers: &[u64]) -> Prices {
    let splits = splits.to_vec(alloc).expect(rt, "no prices");
    Prices::from_lists(splits, workers.to_vec(alloc).expect(rt, "no prices"))
}
