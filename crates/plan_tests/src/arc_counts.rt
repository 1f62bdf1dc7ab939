//! The rack network of problems with one and with several data centres, arcs counted by hand.
use crate::small::{NONE, ONE_CENTRE, Row, Small};
use crate::small_problems::of;
use rack_network::build;
use std::alloc::Global;
use std::process::Abort;

// A worker in each of three racks; the first has no slot.
const WORKERS: &'static [(u16, u8)] = &[(0, 0), (1, 1), (2, 1)];

const TWO: &'static [(u64, usize, usize)] = &[(7, 0, NONE), (1, 0, NONE)];

const ONE: &'static [(u64, usize, usize)] = &[(7, 1, NONE)];

const BARRED: &'static [(u64, usize, usize)] = &[(7, 0, 1)];

// Splits and data centres, with how many arcs there are.
const ROWS: [(&'static [(u64, usize, usize)], (u8, [u8; 3]), usize); 7] = [
    (TWO, ONE_CENTRE, 2 * 3 + 3 + 2 + 3 + 1),
    (TWO, (2, [0, 0, 1]), 2 * 4 + 2 + 3 + 2 + 3 + 1),
    (ONE, ONE_CENTRE, 4 + 3 + 2 + 3 + 1),
    (ONE, (3, [0, 1, 2]), 5 + 3 + 3 + 2 + 3 + 1),
    (BARRED, ONE_CENTRE, 2 + 3 + 2 + 3 + 1),
    (BARRED, (2, [0, 1, 0]), 2 + 2 + 3 + 2 + 3 + 1),
    (&[], (2, [0, 1, 0]), 2 + 3 + 2 + 3 + 1),
];

fn arcs_of(rt: &impl Abort, alloc: Global, row: &Row) -> usize {
    let problem = of(rt, alloc, &Small::of(row));
    build(alloc, &problem).expect(rt, "no network").arcs()
}

// A split has an arc to each node above its live holder, to the holder where it has a slot, and to
// `Unstarted`; with a barred pair to each worker on which it may start, and to `Unstarted`. Then come the
// arcs of the cluster to the centres, of the centres to three racks, of the racks to the workers with a
// slot, of the workers, and the last.
#[test]
fn arcs_of_racks_and_centres(rt: HostRuntime) {
    for (splits, centres, arcs) in ROWS {
        let row = Row {
            workers: WORKERS,
            splits,
            centres,
        };
        let told = arcs_of(&rt, rt.alloc(), &row);
        assert_eq!(rt; (splits, centres, told), (splits, centres, arcs));
    }
}
