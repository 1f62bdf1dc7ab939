use crate::problems::three_splits;
use node_ids::WorkerNo;
use std::test::Fail;
use wave_problem::Plan;

#[test]
fn total_costs(rt: HostRuntime) -> Result<(), Fail> {
    let alloc = rt.alloc();
    let problem = three_splits(&rt, alloc);
    for (last, want) in [(None, Some(20)), (Some(WorkerNo::new(0)), None)] {
        let starts = [Some(WorkerNo::new(1)), Some(WorkerNo::new(0)), last];
        let plan = Plan::from_starts(starts.to_vec(alloc)?, 3);
        assert!(rt; plan.splits() == problem.splits() && plan.workers() == problem.workers());
        assert_eq!(rt; plan.total_cost(&problem), want);
    }
    Ok(())
}
