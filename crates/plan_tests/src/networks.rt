//! Networks whose nodes are their own places.
use flow_network::Network;
use node_ids::{Layout, Numbered};
use std::alloc::Global;
use std::process::Abort;

/// An arc by its ends, capacity and cost.
pub type Row = (usize, usize, u64, u64);

/// Adds an arc, where the network may have it; answers whether it was added.
pub fn add(network: &mut Network<Numbered>, row: Row) -> bool {
    let (from, to, capacity, cost) = row;
    let is_inside = network.layout().holds(from) && network.layout().holds(to);
    if is_inside && capacity <= 4096 && cost < 1 << 47 {
        network.add_arc(from, to, capacity, cost).is_ok()
    } else {
        false
    }
}

/// The network of some arcs, without flow.
pub fn network(rt: &impl Abort, alloc: Global, nodes: usize, rows: &[Row]) -> Network<Numbered> {
    let nodes = nodes.min(4096);
    let mut network = Network::new(alloc, Numbered { nodes }).expect(rt, "no network");
    for row in rows {
        assert!(rt; add(&mut network, *row));
    }
    network
}

/// What a node takes in less what it gives out, or 0 for no node.
pub fn excess(network: &Network<Numbered>, node: usize) -> i64 {
    if network.layout().holds(node) {
        network.excess(node)
    } else {
        0
    }
}
