//! Problems made of their descriptions.
use crate::clusters::{Centres, empty_racks};
use crate::small::{Small, Split, Worker};
use node_ids::{PairSet, RackNo, SplitNo, WorkerNo};
use price_certificate::PlacePrices;
use rack_tree::RackTree;
use std::alloc::Global;
use std::process::Abort;
use wave_problem::{Problem, SplitLine, WorkerLine};

fn tree(rt: &impl Abort, alloc: Global, centres: Centres<'_>, workers: &[Worker]) -> RackTree {
    let mut tree = empty_racks(rt, alloc, centres);
    for worker in workers {
        let rack = RackNo::new(worker.rack);
        assert!(rt; rack.index() < tree.racks());
        tree.add_worker(rack).expect(rt, "no worker");
    }
    tree
}

fn worker_lines(rt: &impl Abort, alloc: Global, workers: &[Worker]) -> Vec<WorkerLine> {
    let mut lines = Vec::new(alloc);
    for worker in workers {
        let line = WorkerLine {
            live: worker.live,
            free: worker.free,
        };
        lines.push(line).expect(rt, "no memory");
    }
    lines
}

fn split_line(rt: &impl Abort, alloc: Global, split: &Split) -> SplitLine {
    let mut holders = Vec::new(alloc);
    for w in 0..4u16 {
        if split.held_by[usize::from(w)] {
            holders.push(WorkerNo::new(w)).expect(rt, "no memory");
        }
    }
    SplitLine {
        bytes: split.bytes,
        pending: split.pending,
        holders,
    }
}

fn split_lines(rt: &impl Abort, alloc: Global, splits: &[Split]) -> Vec<SplitLine> {
    let mut lines = Vec::new(alloc);
    for split in splits {
        let line = split_line(rt, alloc, split);
        lines.push(line).expect(rt, "no memory");
    }
    lines
}

fn barred_pairs(rt: &impl Abort, alloc: Global, splits: &[Split]) -> PairSet {
    let mut barred = PairSet::new(alloc, 1024).expect(rt, "no memory");
    for s in 0..splits.len().min(1024) {
        for w in 0..4u16 {
            if splits[s].barred_on[usize::from(w)] {
                let split = SplitNo::new(s as u32);
                barred.put(split, WorkerNo::new(w)).expect(rt, "no memory");
            }
        }
    }
    barred
}

// The problem of these data centres with their racks, these workers and splits.
fn problem(
    rt: &impl Abort,
    alloc: Global,
    centres: Centres<'_>,
    workers: &[Worker],
    splits: &[Split],
) -> Problem {
    let tree = tree(rt, alloc, centres, workers);
    let workers = worker_lines(rt, alloc, workers);
    assert!(rt; workers.len() == tree.workers());
    let lines = split_lines(rt, alloc, splits);
    let barred = barred_pairs(rt, alloc, splits);
    Problem::new(alloc, tree, workers, lines, barred).expect(rt, "no problem")
}

/// A small problem.
pub fn of(rt: &impl Abort, alloc: Global, small: &Small) -> Problem {
    let centres = (small.centres.max(1), small.centre_of.as_slice());
    let workers = &small.worker[..small.workers.min(4)];
    let splits = &small.split[..small.splits.min(4)];
    problem(rt, alloc, centres, workers, splits)
}

/// The prices of the places of a small problem.
pub fn places_of(rt: &impl Abort, alloc: Global, small: &Small) -> PlacePrices {
    let mut rows = Vec::new(alloc);
    for places in &small.places[..small.workers.min(4)] {
        let row = &places.price[..places.count.min(3)];
        rows.push(row.to_vec(alloc).expect(rt, "no prices"))
            .expect(rt, "no prices");
    }
    PlacePrices::from_rows(rows).expect(rt, "no prices of places")
}

/// A worker without slots holds 1,024 splits of so many bytes; 64 workers of 16 slots stand in another rack.
pub fn one_host(rt: &impl Abort, alloc: Global, bytes: u64) -> Problem {
    one_host_of(rt, alloc, &[on_first(bytes); 1024])
}

/// The same with one split more, of one byte each.
pub fn one_split_past_direct(rt: &impl Abort, alloc: Global) -> Problem {
    one_host_of(rt, alloc, &[on_first(1); 1025])
}

/// A worker without slots holds 20 splits of one byte; 299 workers of 16 slots stand in another rack.
pub fn workers_past_direct(rt: &impl Abort, alloc: Global) -> Problem {
    let mut workers = [FAR; 300];
    workers[0] = HOST;
    problem(rt, alloc, (1, &[0, 0]), &workers, &[on_first(1); 20])
}

// A split of so many bytes on the first worker.
fn on_first(bytes: u64) -> Split {
    Split {
        bytes,
        pending: true,
        held_by: [true, false, false, false],
        barred_on: [false; 4],
    }
}

const HOST: Worker = Worker {
    rack: 0,
    live: true,
    free: 0,
};

const FAR: Worker = Worker {
    rack: 1,
    live: true,
    free: 16,
};

fn one_host_of(rt: &impl Abort, alloc: Global, splits: &[Split]) -> Problem {
    let mut workers = [FAR; 65];
    workers[0] = HOST;
    problem(rt, alloc, (1, &[0, 0]), &workers, splits)
}
