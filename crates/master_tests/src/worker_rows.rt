use node_ids::WorkerNo;
use std::alloc::Global;
use std::process::Abort;
use worker_table::{DeadList, WorkerTable};

// The counts of sweeps, one after another, each with whether the worker has been silent too long.
const SWEEPS: [(u64, bool); 7] = [
    (1, false),
    (1, false),
    (1, false),
    (1, true),
    (1, true),
    (2, false),
    (2, false),
];

// Whether the first worker has been silent too long, and no other is told. Each worker has this count.
fn is_silent(rt: &impl Abort, alloc: Global, table: &mut WorkerTable, count: u64) -> bool {
    let workers = table.workers().len();
    let counts = vec![in alloc; count; workers].expect(rt, "no counts");
    let mut dead = DeadList::with_room(alloc, workers).expect(rt, "no list");
    table.sweep(&counts, &mut dead);
    dead.as_slice().len() == 1 && dead.dead().has(WorkerNo::new(0))
}

fn sweep_often(rt: &impl Abort, alloc: Global, table: &mut WorkerTable) {
    for (count, told) in SWEEPS {
        assert_eq!(rt; (count, is_silent(rt, alloc, table, count)), (count, told));
    }
}

#[test]
fn the_third_silent_sweep_tells(rt: HostRuntime) {
    let mut table = WorkerTable::new(rt.alloc(), &[1], 1, 3, 0).expect(&rt, "no table");
    sweep_often(&rt, rt.alloc(), &mut table);
    let worker = WorkerNo::new(0);
    assert!(rt; table.workers().len() == 1 && table.live(worker) && table.slots(worker) == 1);
}
