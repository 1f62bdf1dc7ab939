use crate::clusters::{made, plan_of, prices_of};
use certificate_checker::{
    Certified, CheckError, certify, certify_on, certify_places, certify_places_on,
};
use node_ids::{SplitNo, WorkerNo};
use price_certificate::{Condition, PlacePrices, Prices, are_of_one_size};
use std::alloc::Global;
use std::process::Abort;
use std::thread::Threads;
use wave_problem::{Plan, Problem};

// Splits s of 10 bytes and t of 20, both on worker a; workers a and b, one slot each, in one rack. So the
// reward is 121, and a start of s costs 0 on a and 20 on b, one of t 0 and 40. A row says whether s is
// pending and b lives, where s and t start, and the prices of s and t and of a and b.
#[derive(Clone, Copy)]
struct Row {
    s_pending: bool,
    b_live: bool,
    starts: [Option<u16>; 2],
    splits: [u64; 2],
    workers: [u64; 2],
}

// The plan that starts s on b and t on a, with prices that certify it.
const CERTIFIED: Row = Row {
    s_pending: true,
    b_live: true,
    starts: [Some(1), Some(0)],
    splits: [101, 91],
    workers: [30, 0],
};

fn problem(rt: &impl Abort, alloc: Global, row: Row) -> Problem {
    let workers = [(0, true, 1), (0, row.b_live, 1)];
    let splits: [(u64, bool, &[u16]); 2] = [(10, row.s_pending, &[0]), (20, true, &[0])];
    made(rt, alloc, &workers, &splits, &[]).expect(rt, "no problem")
}

// What the two checkers answer.
type Answers = (Result<Certified, Condition>, Result<Certified, CheckError>);

fn refused(condition: &Condition) -> Answers {
    (Err(*condition), Err(CheckError::Failed(*condition)))
}

fn answers<R: Abort + Threads + Sync>(
    rt: &R,
    alloc: Global,
    problem: &Problem,
    plan: &Plan,
    prices: &Prices,
) -> Answers {
    assert!(rt; are_of_one_size(problem, plan, prices));
    (
        certify(alloc, problem, plan, prices),
        certify_on(rt, alloc, problem, plan, prices),
    )
}

fn answers_to<R: Abort + Threads + Sync>(rt: &R, alloc: Global, row: Row) -> Answers {
    let problem = problem(rt, alloc, row);
    let plan = plan_of(rt, alloc, &row.starts, 2);
    let prices = prices_of(rt, alloc, &row.splits, &row.workers);
    answers(rt, alloc, &problem, &plan, &prices)
}

#[test]
fn certified(rt: HostRuntime) {
    for (splits, workers) in [
        ([101, 91], [30, 0]),
        ([101, 101], [20, 0]),
        ([101, 81], [40, 0]),
    ] {
        let row = Row {
            splits,
            workers,
            ..CERTIFIED
        };
        let want = Certified {
            count: 2,
            cost: 20,
            places: 0,
        };
        assert_eq!(rt;
            (splits, answers_to(&rt, rt.alloc(), row)),
            (splits, (Ok(want), Ok(want)))
        );
    }
}

#[test]
fn refused_prices(rt: HostRuntime) {
    let s = SplitNo::new(0);
    let b = WorkerNo::new(1);
    for (splits, workers, want) in [
        ([101, 102], [19, 0], Condition::Priced(s, WorkerNo::new(0))),
        ([101, 80], [41, 0], Condition::Priced(SplitNo::new(1), b)),
        ([122, 91], [30, 0], Condition::SplitPrice(s)),
        ([u64::MAX, 91], [30, 0], Condition::SplitPrice(s)),
        ([101, 91], [30, 122], Condition::WorkerPrice(b)),
    ] {
        let row = Row {
            splits,
            workers,
            ..CERTIFIED
        };
        assert_eq!(rt; answers_to(&rt, rt.alloc(), row), refused(&want));
    }
}

#[test]
fn refused_starts(rt: HostRuntime) {
    let s = SplitNo::new(0);
    let a = WorkerNo::new(0);
    for (starts, want) in [
        ([Some(0), Some(1)], Condition::Tight(s, a)),
        ([Some(0), Some(0)], Condition::Room(a)),
    ] {
        let row = Row {
            starts,
            ..CERTIFIED
        };
        assert_eq!(rt; answers_to(&rt, rt.alloc(), row), refused(&want));
    }
}

#[test]
fn refused_where_nothing_starts(rt: HostRuntime) {
    let s = SplitNo::new(0);
    let a = WorkerNo::new(0);
    for (splits, workers, want) in [
        ([0, 0], [0, 0], Condition::Priced(s, a)),
        ([121, 121], [0, 0], Condition::Unstarted(s)),
        ([0, 0], [121, 121], Condition::Spare(a)),
    ] {
        let row = Row {
            starts: [None, None],
            splits,
            workers,
            ..CERTIFIED
        };
        assert_eq!(rt; answers_to(&rt, rt.alloc(), row), refused(&want));
    }
}

#[test]
fn refused_in_another_problem(rt: HostRuntime) {
    let s = SplitNo::new(0);
    for (s_pending, b_live, want) in [
        (false, true, Condition::Open(s)),
        (true, false, Condition::Allowed(s, WorkerNo::new(1))),
    ] {
        let row = Row {
            s_pending,
            b_live,
            ..CERTIFIED
        };
        assert_eq!(rt; answers_to(&rt, rt.alloc(), row), refused(&want));
    }
}

// Worker a has three slots, whose places cost 0, 10 and 60, and worker b one slot, whose place is free. The
// splits s and t of the rows above start on a, and have one price. So the reward is 191.
fn answers_of_places<R: Abort + Threads + Sync>(
    rt: &R,
    alloc: Global,
    b_live: bool,
    split: u64,
    workers: [u64; 2],
) -> Answers {
    let splits: [(u64, bool, &[u16]); 2] = [(10, true, &[0]), (20, true, &[0])];
    let lines = [(0, true, 3), (0, b_live, 1)];
    let problem = made(rt, alloc, &lines, &splits, &[]).expect(rt, "no problem");
    let plan = plan_of(rt, alloc, &[Some(0), Some(0)], 2);
    let prices = prices_of(rt, alloc, &[split, split], &workers);
    let row = [0, 10, 60].to_vec(alloc).expect(rt, "no prices");
    let mut rows = Vec::new(alloc);
    rows.push(row).expect(rt, "no prices");
    let places = PlacePrices::from_rows(rows).expect(rt, "no prices of places");
    assert!(rt; are_of_one_size(&problem, &plan, &prices));
    (
        certify_places(alloc, &problem, &places, &plan, &prices),
        certify_places_on(rt, alloc, &problem, &places, &plan, &prices),
    )
}

// The price of a is at least that of its second place. It is at most what b leaves, or where b is dead at most
// that of its third place.
#[test]
fn certified_with_places(rt: HostRuntime) {
    let want = Certified {
        count: 2,
        cost: 0,
        places: 10,
    };
    for (b_live, split, a) in [
        (true, 181, 10),
        (true, 171, 20),
        (false, 181, 10),
        (false, 131, 60),
    ] {
        assert_eq!(rt;
            (a, answers_of_places(&rt, rt.alloc(), b_live, split, [a, 0])),
            (a, (Ok(want), Ok(want)))
        );
    }
}

#[test]
fn refused_with_places(rt: HostRuntime) {
    let s = SplitNo::new(0);
    let a = WorkerNo::new(0);
    let b = WorkerNo::new(1);
    for (b_live, split, workers, want) in [
        (true, 182, [9, 0], Condition::Spare(a)),
        (false, 130, [61, 0], Condition::Spare(a)),
        (true, 176, [15, 1], Condition::Spare(b)),
        (true, 170, [21, 0], Condition::Priced(s, b)),
        (true, 111, [10, 0], Condition::Priced(s, a)),
        (true, 192, [10, 0], Condition::SplitPrice(s)),
    ] {
        let told = answers_of_places(&rt, rt.alloc(), b_live, split, workers);
        assert_eq!(rt; told, refused(&want));
    }
}

// Three hundred splits of one byte on one worker that has a slot, so that more than one thread looks at
// pairs. No split starts; those before `first` have the reward as their price, and the others have none.
fn long_problem(rt: &impl Abort, alloc: Global) -> Problem {
    let split: (u64, bool, &[u16]) = (1, true, &[0]);
    made(rt, alloc, &[(0, true, 1)], &[split; 300], &[]).expect(rt, "no problem")
}

fn long_prices(rt: &impl Abort, alloc: Global, first: u32) -> Prices {
    let mut splits = [0; 300];
    for split in 0..300usize {
        if split < first as usize {
            splits[split] = 1201;
        }
    }
    prices_of(rt, alloc, &splits, &[0])
}

fn answers_to_first<R: Abort + Threads + Sync>(
    rt: &R,
    alloc: Global,
    problem: &Problem,
    first: u32,
) -> Answers {
    let plan = plan_of(rt, alloc, &[None; 300], 1);
    let prices = long_prices(rt, alloc, first);
    answers(rt, alloc, problem, &plan, &prices)
}

#[test]
fn threads_name_the_first_failure(rt: HostRuntime) {
    let problem = long_problem(&rt, rt.alloc());
    for first in [0, 1, 127, 128, 200, 299] {
        let want = Condition::Priced(SplitNo::new(first), WorkerNo::new(0));
        assert_eq!(rt;
            answers_to_first(&rt, rt.alloc(), &problem, first),
            refused(&want)
        );
    }
}
