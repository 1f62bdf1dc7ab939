use crate::clusters::{tree, tree_in};
use node_ids::{CentreNo, RackNo, WorkerNo};
use rack_tree::{MAX_CENTRES, MAX_RACKS, MAX_WORKERS, RackTree, TreeError};
use std::alloc::Global;
use std::process::Abort;

#[test]
fn distances(rt: HostRuntime) {
    let rows = [(0, true, 1), (0, true, 1), (1, true, 1)];
    let tree = tree(&rt, rt.alloc(), &rows);
    assert!(rt; tree.workers() == 3);
    for (from, to, steps) in [
        (0, 0, 0),
        (0, 1, 2),
        (1, 0, 2),
        (0, 2, 4),
        (2, 1, 4),
        (2, 2, 0),
    ] {
        let distance = tree.distance(WorkerNo::new(from), WorkerNo::new(to));
        assert_eq!(rt; (from, to, distance), (from, to, steps));
    }
}

// Racks 0 and 2 in data centre 0, and 1 in 1.
#[test]
fn distances_between_centres(rt: HostRuntime) {
    let rows = [(0, true, 1), (0, true, 1), (1, true, 1), (2, true, 1)];
    let tree = tree_in(&rt, rt.alloc(), (2, &[0, 1, 0]), &rows);
    assert!(rt; tree.workers() == 4);
    for (from, to, steps) in [
        (3, 3, 0),
        (0, 1, 2),
        (1, 3, 4),
        (3, 0, 4),
        (0, 2, 6),
        (2, 3, 6),
    ] {
        let distance = tree.distance(WorkerNo::new(from), WorkerNo::new(to));
        assert_eq!(rt; (from, to, distance), (from, to, steps));
    }
}

// As many data centres as there may be.
fn all_centres(rt: &impl Abort, alloc: Global) -> RackTree {
    let mut tree = RackTree::new(alloc);
    for _ in 0..MAX_CENTRES {
        tree.add_centre().expect(rt, "no centre");
    }
    tree
}

// The last of them with as many racks as there may be.
fn all_racks(rt: &impl Abort, alloc: Global) -> RackTree {
    let mut tree = all_centres(rt, alloc);
    for _ in 0..MAX_RACKS {
        assert!(rt; tree.centres() > 255);
        tree.add_rack(CentreNo::new(255)).expect(rt, "no rack");
    }
    tree
}

// The last of these with as many workers as there may be.
fn full(rt: &impl Abort, alloc: Global) -> RackTree {
    let mut tree = all_racks(rt, alloc);
    for _ in 0..MAX_WORKERS {
        assert!(rt; tree.racks() > 4095);
        tree.add_worker(RackNo::new(4095)).expect(rt, "no worker");
    }
    tree
}

// What comes of one more of each.
fn one_more(rt: &impl Abort, tree: &mut RackTree) -> [Option<TreeError>; 3] {
    assert!(rt; tree.centres() > 255 && tree.racks() > 4095);
    [
        tree.add_centre().err(),
        tree.add_rack(CentreNo::new(255)).err(),
        tree.add_worker(RackNo::new(4095)).err(),
    ]
}

// How many there are of each, and the distance of the first worker from the last.
fn sizes(rt: &impl Abort, tree: &RackTree) -> (usize, usize, usize, u8) {
    assert!(rt; tree.workers() > 32_767);
    let distance = tree.distance(WorkerNo::new(0), WorkerNo::new(32_767));
    (tree.centres(), tree.racks(), tree.workers(), distance)
}

#[test]
fn a_tree_has_its_limits(rt: HostRuntime) {
    let mut tree = full(&rt, rt.alloc());
    let refused = one_more(&rt, &mut tree);
    assert_eq!(rt; refused, [Some(TreeError::Limit); 3]);
    assert_eq!(rt; sizes(&rt, &tree), (256, 4096, 32_768, 2));
}
