use block_map::{BlockMap, HolderLimit, MapError};
use node_ids::{SplitNo, WorkerNo};
use std::alloc::Global;
use std::process::Abort;

// Adds a holder of the one split.
fn add(
    rt: &impl Abort,
    map: &mut BlockMap,
    limit: HolderLimit,
    worker: u16,
) -> Result<(), MapError> {
    assert!(rt; map.splits() == 1);
    map.add(limit, SplitNo::new(0), WorkerNo::new(worker))
}

// Whether the one split is full.
fn is_full(rt: &impl Abort, map: &BlockMap, limit: HolderLimit) -> bool {
    assert!(rt; map.splits() == 1);
    map.is_full(limit, SplitNo::new(0))
}

// Drops a holder of the one split.
fn drop_one(rt: &impl Abort, map: &mut BlockMap, worker: u16) -> Result<(), MapError> {
    assert!(rt; map.splits() == 1);
    map.drop_one(SplitNo::new(0), WorkerNo::new(worker))
}

// A map of one split to which these holders were added, one after another.
fn map_of(rt: &impl Abort, alloc: Global, workers: &[u16]) -> BlockMap {
    let mut map = BlockMap::new(alloc, 1).expect(rt, "no map");
    for worker in workers {
        add(rt, &mut map, HolderLimit::Eight, *worker).expect(rt, "not added");
    }
    map
}

#[test]
fn holders_stand_as_they_were_added(rt: HostRuntime) {
    let mut map = map_of(&rt, rt.alloc(), &[5, 3, 9]);
    drop_one(&rt, &mut map, 3).expect(&rt, "not dropped");
    assert!(rt; map.splits() == 1);
    assert_eq!(rt;
        map.holders(SplitNo::new(0)),
        [WorkerNo::new(5), WorkerNo::new(9)].as_slice()
    );
}

#[test]
fn reasons_come_in_their_order(rt: HostRuntime) {
    let mut map = map_of(&rt, rt.alloc(), &[0, 1, 2, 3, 4, 5, 6, 7]);
    let told = (
        add(&rt, &mut map, HolderLimit::Eight, 7),
        add(&rt, &mut map, HolderLimit::Eight, 8),
        drop_one(&rt, &mut map, 8),
        is_full(&rt, &map, HolderLimit::Sixteen),
        add(&rt, &mut map, HolderLimit::Sixteen, 8),
    );
    let wanted = (
        Err(MapError::AlreadyHolds),
        Err(MapError::ManyHolders),
        Err(MapError::NotHolder),
        false,
        Ok(()),
    );
    assert_eq!(rt; told, wanted);
    assert!(rt; is_full(&rt, &map, HolderLimit::Eight));
    assert!(rt; map.splits() == 1);
    assert!(rt; map.holds(SplitNo::new(0), WorkerNo::new(7)));
}
