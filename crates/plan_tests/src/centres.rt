//! Problems of one data centre and of several, with a plan of each and prices that certify it.
use crate::clusters::{Centres, SplitRow, WorkerRow, made_in, plan_of, prices_of};
use certificate_checker::{Certified, certify};
use price_certificate::{Condition, are_of_one_size};
use std::alloc::Global;
use std::process::Abort;

// A problem, its reward, and a plan with prices that certify it, which starts so many splits at this cost.
#[derive(Clone, Copy)]
struct Row<'r> {
    centres: Centres<'r>,
    workers: &'r [WorkerRow],
    splits: &'r [SplitRow<'r>],
    reward: u64,
    starts: &'r [Option<u16>],
    split_prices: &'r [u64],
    worker_prices: &'r [u64],
    certified: (usize, u64),
}

// The reward, and what is answered.
fn told(rt: &impl Abort, alloc: Global, row: Row<'_>) -> (u64, Result<Certified, Condition>) {
    let problem = made_in(rt, alloc, row.centres, row.workers, row.splits, &[]).expect(
        rt,
        "no problem",
    );
    let plan = plan_of(rt, alloc, row.starts, row.workers.len());
    let prices = prices_of(rt, alloc, row.split_prices, row.worker_prices);
    assert!(rt; are_of_one_size(&problem, &plan, &prices));
    (problem.reward(), certify(alloc, &problem, &plan, &prices))
}

#[test]
fn rows(rt: HostRuntime) {
    let far: &[WorkerRow] = &[(0, true, 0), (1, true, 1)];
    let near_and_far: &[WorkerRow] = &[(0, true, 0), (1, true, 1), (2, true, 1)];
    let one: &[SplitRow<'_>] = &[(7, true, &[0])];
    let two: &[SplitRow<'_>] = &[(7, true, &[0]), (1, true, &[0])];
    let other_centre = Row {
        centres: (2, &[0, 1]),
        workers: far,
        splits: one,
        reward: 43,
        starts: &[Some(1)],
        split_prices: &[1],
        worker_prices: &[0, 0],
        certified: (1, 42),
    };
    let other_rack = Row {
        centres: (1, &[0, 0]),
        reward: 29,
        certified: (1, 28),
        ..other_centre
    };
    // the larger split stays in the centre; the other way it would be 46
    let both = Row {
        centres: (2, &[0, 0, 1]),
        workers: near_and_far,
        splits: two,
        reward: 49,
        starts: &[Some(1), Some(2)],
        split_prices: &[19, 43],
        worker_prices: &[0, 2, 0],
        certified: (2, 34),
    };
    for row in [other_centre, other_rack, both] {
        let want = Certified {
            count: row.certified.0,
            cost: row.certified.1,
            places: 0,
        };
        assert_eq!(rt; told(&rt, rt.alloc(), row), (row.reward, Ok(want)));
    }
}
