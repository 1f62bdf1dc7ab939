//! Plans where places have prices, beside all assignments of small problems, and rows worked by hand.
use crate::random::Random;
use crate::small::{NONE, ONE_CENTRE, Places, Row, Small, Value};
use crate::small_problems::{of, places_of};
use certificate_checker::{Certified, certify_places};
use std::alloc::Global;
use std::process::Abort;

// That the plan with its prices is certified, with the count and the charge of the best assignment.
fn assert_best(rt: &impl Abort, alloc: Global, small: &Small) {
    let problem = of(rt, alloc, small);
    let places = places_of(rt, alloc, small);
    let (plan, prices) = tree_planner::plan_places(alloc, &problem, &places).expect(rt, "no plan");
    let told = certify_places(alloc, &problem, &places, &plan, &prices).expect(rt, "refused");
    let charged = Value {
        count: told.count,
        cost: told.cost.wrapping_add(told.places),
    };
    assert_eq!(rt; charged, small.best());
}

#[test]
fn plans_are_best(rt: HostRuntime) {
    let mut random = Random::new(29);
    for _ in 0..400usize {
        assert_best(&rt, rt.alloc(), &Small::priced(&mut random));
    }
}

// Two workers of one rack, of which the first holds all splits and has prices of places; and what the plan comes to.
static ROWS: [(Row, Places, Certified); 2] = [
    // the other split next door costs 8, and both on their holder 10
    (
        Row {
            workers: &[(0, 2), (0, 1)],
            splits: &[(4, 0, NONE), (3, 0, NONE)],
            centres: ONE_CENTRE,
        },
        Places {
            count: 2,
            price: [0, 10, 0],
        },
        Certified {
            count: 2,
            cost: 6,
            places: 0,
        },
    ),
    // a place past the last price costs as much: all on their holder cost 11
    (
        Row {
            workers: &[(0, 3), (0, 1)],
            splits: &[(4, 0, NONE), (3, 0, NONE), (2, 0, NONE)],
            centres: ONE_CENTRE,
        },
        Places {
            count: 2,
            price: [1, 5, 0],
        },
        Certified {
            count: 3,
            cost: 4,
            places: 6,
        },
    ),
];

// That the plan of a row comes to this.
fn assert_row(rt: &impl Abort, alloc: Global, row: &Row, places: Places, want: Certified) {
    let mut small = Small::of(row);
    small.places[0] = places;
    let problem = of(rt, alloc, &small);
    let places = places_of(rt, alloc, &small);
    let planned = wave_planner::plan_places(alloc, &problem, &places).expect(rt, "no plan");
    assert_eq!(rt; planned.certified(), want);
}

#[test]
fn rows(rt: HostRuntime) {
    for (row, places, want) in &ROWS {
        assert_row(&rt, rt.alloc(), row, *places, *want);
    }
}
