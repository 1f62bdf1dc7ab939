//! Plans of the engine over the tree, beside all assignments of small problems.
use crate::random::Random;
use crate::small::Small;
use crate::small_problems::of;
use certificate_checker::{Certified, certify};
use std::alloc::Global;
use std::process::Abort;
use tree_planner::plan;

// That the plan with its prices is certified, with the count and cost of the best assignment.
fn assert_best(rt: &impl Abort, alloc: Global, small: &Small) {
    let problem = of(rt, alloc, small);
    let best = small.best();
    let want = Certified {
        count: best.count,
        cost: best.cost,
        places: 0,
    };
    let (plan, prices) = plan(alloc, &problem).expect(rt, "no plan");
    let certified = certify(alloc, &problem, &plan, &prices);
    assert_eq!(rt; certified, Ok(want));
}

#[test]
fn plans_are_best(rt: HostRuntime) {
    let mut random = Random::new(5);
    for _ in 0..400usize {
        assert_best(&rt, rt.alloc(), &Small::random(&mut random));
    }
}
