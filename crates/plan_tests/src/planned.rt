use crate::random::Random;
use crate::small::{NONE, ONE_CENTRE, Row, Small, Value};
use crate::small_problems::{of, one_host, one_split_past_direct, workers_past_direct};
use certificate_checker::{Certified, certify};
use node_ids::{SplitNo, WorkerNo};
use price_certificate::Prices;
use std::alloc::Global;
use std::process::Abort;
use wave_planner::{NetworkKind, PlanError, Planned, plan, plan_with};
use wave_problem::{MAX_BYTES, Problem};

// That the plan over a network is certified, with this count and cost.
fn assert_certified(
    rt: &impl Abort,
    alloc: Global,
    problem: &Problem,
    kind: NetworkKind,
    want: Value,
) {
    let planned = plan_with(alloc, problem, kind).expect(rt, "no plan");
    let want = Certified {
        count: want.count,
        cost: want.cost,
        places: 0,
    };
    let certified = certify(alloc, problem, planned.plan(), planned.prices());
    assert_eq!(rt;
        (kind, planned.certified(), certified),
        (kind, want, Ok(want))
    );
}

fn assert_best(rt: &impl Abort, alloc: Global, small: &Small) {
    let problem = of(rt, alloc, small);
    let best = small.best();
    assert_certified(rt, alloc, &problem, NetworkKind::Direct, best);
    assert_certified(rt, alloc, &problem, NetworkKind::Racks, best);
}

#[test]
fn plans_are_best(rt: HostRuntime) {
    let mut random = Random::new(1);
    for _ in 0..400usize {
        assert_best(&rt, rt.alloc(), &Small::random(&mut random));
    }
}

// The worker of each split.
fn assert_starts(rt: &impl Abort, planned: &Planned, starts: &[Option<u16>]) {
    let plan = planned.plan();
    assert_eq!(rt; plan.splits(), starts.len());
    for (i, start) in starts.iter().enumerate() {
        if i < plan.splits() {
            let worker = start.map(|worker| WorkerNo::new(worker));
            assert_eq!(rt; (i, plan.of(SplitNo::new(i as u32))), (i, worker));
        }
    }
}

// That over a network the splits start on these workers, at this cost.
fn assert_planned(
    rt: &impl Abort,
    alloc: Global,
    problem: &Problem,
    kind: NetworkKind,
    row: &PlanRow,
) {
    let planned = plan_with(alloc, problem, kind).expect(rt, "no plan");
    let told = planned.certified().cost;
    assert_eq!(rt; (row.0, kind, told), (row.0, kind, row.2));
    assert_starts(rt, &planned, row.3);
}

fn assert_row(rt: &impl Abort, alloc: Global, row: &PlanRow) {
    let problem = of(rt, alloc, &Small::of(&row.1));
    assert_planned(rt, alloc, &problem, NetworkKind::Direct, row);
    assert_planned(rt, alloc, &problem, NetworkKind::Racks, row);
}

// Two workers with a slot each in one rack.
const PAIR: &'static [(u16, u8)] = &[(0, 1), (0, 1)];

// A worker without slots, and one with a slot in another rack.
const APART: &'static [(u16, u8)] = &[(0, 0), (1, 1)];

// The second rack is in the second data centre.
const TWO_CENTRES: (u8, [u8; 3]) = (2, [0, 1, 0]);

// What a problem shows, the problem, what its plan costs, and the worker of each split.
type PlanRow = (&'static str, Row, u64, &'static [Option<u16>]);

static ROWS: [PlanRow; 10] = [
    (
        "the nearest is not the cheapest",
        Row {
            workers: PAIR,
            splits: &[(10, 0, NONE), (20, 0, NONE)],
            centres: ONE_CENTRE,
        },
        20,
        &[Some(1), Some(0)],
    ),
    (
        "the count comes first",
        Row {
            workers: PAIR,
            splits: &[(1000, 0, NONE), (1, 0, 1)],
            centres: ONE_CENTRE,
        },
        2000,
        &[Some(1), Some(0)],
    ),
    (
        "nothing",
        Row {
            workers: &[],
            splits: &[],
            centres: ONE_CENTRE,
        },
        0,
        &[],
    ),
    (
        "not held",
        Row {
            workers: &[(0, 1)],
            splits: &[(10, NONE, NONE)],
            centres: ONE_CENTRE,
        },
        0,
        &[None],
    ),
    (
        "another rack",
        Row {
            workers: APART,
            splits: &[(7, 0, NONE)],
            centres: ONE_CENTRE,
        },
        28,
        &[Some(1)],
    ),
    (
        "no bytes",
        Row {
            workers: APART,
            splits: &[(0, 0, NONE)],
            centres: ONE_CENTRE,
        },
        0,
        &[Some(1)],
    ),
    (
        "another centre",
        Row {
            workers: APART,
            splits: &[(7, 0, NONE)],
            centres: TWO_CENTRES,
        },
        42,
        &[Some(1)],
    ),
    (
        "barred",
        Row {
            workers: APART,
            splits: &[(7, 0, 1)],
            centres: TWO_CENTRES,
        },
        0,
        &[None],
    ),
    (
        "the larger stays in the centre: the other way it would be 46",
        Row {
            workers: &[(0, 0), (1, 1), (2, 1)],
            splits: &[(7, 0, NONE), (1, 0, NONE)],
            centres: (2, [0, 0, 1]),
        },
        34,
        &[Some(1), Some(2)],
    ),
    (
        "the largest stays, and the next goes to the other worker of the rack",
        Row {
            workers: &[(0, 1), (0, 1), (1, 1)],
            splits: &[(10, 0, NONE), (20, 0, NONE), (30, 0, NONE)],
            centres: ONE_CENTRE,
        },
        80,
        &[Some(2), Some(1), Some(0)],
    ),
];

#[test]
fn rows(rt: HostRuntime) {
    for row in &ROWS {
        assert_row(&rt, rt.alloc(), row);
    }
}

const SPARE: Row = Row {
    workers: &[(0, 2)],
    splits: &[(10, 0, NONE)],
    centres: ONE_CENTRE,
};

fn plan_of(rt: &impl Abort, alloc: Global, row: &Row) -> Planned {
    let problem = of(rt, alloc, &Small::of(row));
    plan(alloc, &problem).expect(rt, "no plan")
}

// The price of the one split, and of the one worker.
fn prices_of(rt: &impl Abort, prices: &Prices) -> (u64, u64) {
    assert!(rt; prices.splits() == 1 && prices.workers() == 1);
    (
        prices.split(SplitNo::new(0)),
        prices.worker(WorkerNo::new(0)),
    )
}

// No other prices certify: the worker has a slot left.
#[test]
fn a_spare_slot_is_free_of_charge(rt: HostRuntime) {
    let planned = plan_of(&rt, rt.alloc(), &SPARE);
    assert_eq!(rt; prices_of(&rt, planned.prices()), (41, 0));
}

// The bytes of a split, and the cost of a plan of `one_host`: the distance is 4 for each byte.
const ONE_HOST: [(u64, u64); 2] = [
    (67_108_864, 274_877_906_944),
    (MAX_BYTES, 35_184_372_088_832),
];

// What a plan of `one_host` comes to.
fn all_started(cost: u64) -> Value {
    Value { count: 1024, cost }
}

fn arcs_by_racks(rt: &impl Abort, alloc: Global, problem: &Problem) -> usize {
    rack_network::build(alloc, problem)
        .expect(rt, "no network")
        .arcs()
}

#[test]
fn one_host_by_racks(rt: HostRuntime) {
    for (bytes, cost) in ONE_HOST {
        let problem = one_host(&rt, rt.alloc(), bytes);
        let want = all_started(cost);
        assert_eq!(rt; arcs_by_racks(&rt, rt.alloc(), &problem), 3_204);
        assert_certified(&rt, rt.alloc(), &problem, NetworkKind::Racks, want);
    }
}

fn arcs_by_pairs(rt: &impl Abort, alloc: Global, problem: &Problem) -> usize {
    direct_network::build(alloc, problem)
        .expect(rt, "no network")
        .arcs()
}

#[test]
fn one_host_by_pairs(rt: HostRuntime) {
    for (bytes, cost) in ONE_HOST {
        let problem = one_host(&rt, rt.alloc(), bytes);
        let want = all_started(cost);
        assert_eq!(rt; arcs_by_pairs(&rt, rt.alloc(), &problem), 66_626);
        assert_certified(&rt, rt.alloc(), &problem, NetworkKind::Direct, want);
    }
}

// That the problem is planned over the tree, and that neither network is built for it.
fn assert_past_networks(rt: &impl Abort, alloc: Global, problem: &Problem, want: Value) {
    assert_certified(rt, alloc, problem, NetworkKind::Racks, want);
    let error = plan_with(alloc, problem, NetworkKind::Direct).err();
    assert_eq!(rt; error, Some(PlanError::Size));
    assert!(rt; direct_network::build(alloc, problem).is_err());
    assert!(rt; rack_network::build(alloc, problem).is_err());
}

// All splits but one start, four steps away.
#[test]
fn one_split_past_the_networks(rt: HostRuntime) {
    let problem = one_split_past_direct(&rt, rt.alloc());
    assert_past_networks(&rt, rt.alloc(), &problem, all_started(4096));
}

// All splits start, four steps away.
#[test]
fn workers_past_the_networks(rt: HostRuntime) {
    let problem = workers_past_direct(&rt, rt.alloc());
    let want = Value {
        count: 20,
        cost: 80,
    };
    assert_past_networks(&rt, rt.alloc(), &problem, want);
}
