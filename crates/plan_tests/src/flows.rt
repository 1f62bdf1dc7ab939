use crate::networks::{add, excess, network};
use flow_network::{ArcNo, Network};
use node_ids::{Layout, Numbered};
use std::process::Abort;

const ARC: ArcNo = ArcNo::Forward(0);

// The units on the one arc, the room that is left on it, and the excess at each of its ends.
fn standing(rt: &impl Abort, network: &Network<Numbered>) -> [i64; 4] {
    assert!(rt; network.arcs() == 1);
    [
        network.flow(ARC).cast_signed(),
        network.residual(ARC).cast_signed(),
        excess(network, 0),
        excess(network, 1),
    ]
}

fn push(rt: &impl Abort, network: &mut Network<Numbered>) {
    assert!(rt; network.arcs() == 1);
    assert!(rt; network.residual(ARC) > 0);
    network.push(&[ARC]);
}

#[test]
fn units_move_and_come_back(rt: HostRuntime) {
    let mut network = network(&rt, rt.alloc(), 2, &[(0, 1, 2, 5)]);
    assert_eq!(rt; network.reverse(ARC), ArcNo::Reverse(0));
    let before = standing(&rt, &network);
    push(&rt, &mut network);
    assert_eq!(rt;
        (before, standing(&rt, &network)),
        ([0, 2, 0, 0], [1, 1, -1, 1])
    );
}

fn leaving(network: &Network<Numbered>, node: usize) -> usize {
    if network.layout().holds(node) {
        network.arcs_from(node).len()
    } else {
        0
    }
}

// How many arcs there are, and how many are listed at each end.
fn sizes(network: &Network<Numbered>) -> (usize, usize, usize) {
    (network.arcs(), leaving(network, 0), leaving(network, 1))
}

// Whatever allocation is refused, an arc is listed at both ends or not at all.
#[test]
fn refused_arcs_leave_no_trace(rt: HostRuntime) {
    if let Ok(mut network) = Network::new(rt.alloc(), Numbered { nodes: 2 }) {
        for _ in 0..9usize {
            let arcs = network.arcs();
            let is_added = add(&mut network, (0, 1, 1, 1));
            let arcs = arcs.wrapping_add(usize::from(is_added));
            assert_eq!(rt; sizes(&network), (arcs, arcs, arcs));
        }
    }
}
