//! Shipments whose sources are given in any order, against all choices of ways.
use crate::networks::{Row, network};
use crate::random::Random;
use crate::shipments::ship;
use flow_network::Network;
use node_ids::Numbered;
use std::alloc::Global;
use std::process::Abort;

// Four sources, nodes 0 to 3; three places and one where any unit may wait, nodes 4 to 7; and the sink.
const NODES: usize = 9;

const SINK: usize = 8;

// What a unit of each source pays at each of the four, and how many units each of them takes.
#[derive(Drop)]
struct Fair {
    costs: [[u64; 4]; 4],
    room: [u64; 4],
}

fn made(seed: u64) -> Fair {
    let mut random = Random::new(seed);
    let mut costs = [[0; 4]; 4];
    for source in 0..4usize {
        for place in 0..3usize {
            costs[source][place] = random.below(6);
        }
        costs[source][3] = 9;
    }
    let room = [random.below(3), random.below(2), random.below(2), 4];
    Fair { costs, room }
}

fn rows(fair: &Fair) -> [Row; 20] {
    let mut rows = [(0, 0, 0, 0); 20];
    for source in 0..4usize {
        for place in 0..4usize {
            rows[4 * source + place] = (source, 4 + place, 1, fair.costs[source][place]);
        }
        rows[16 + source] = (4 + source, SINK, fair.room[source], 0);
    }
    rows
}

// What the units pay where each source takes the way that a number with a digit for each says, if there is
// room.
fn price(fair: &Fair, choice: u32) -> Option<u64> {
    let mut left = fair.room;
    let mut paid: u64 = 0;
    let mut digits = choice;
    for source in 0..4usize {
        let place = (digits % 4) as usize;
        digits /= 4;
        left[place] = left[place].checked_sub(1)?;
        paid = paid.wrapping_add(fair.costs[source][place]);
    }
    Some(paid)
}

// The least that they pay.
fn least(fair: &Fair) -> Option<u64> {
    let mut least = None;
    for choice in 0..256u32 {
        if let Some(paid) = price(fair, choice) {
            if least.is_none_or(|known| paid < known) {
                least = Some(paid);
            }
        }
    }
    least
}

// What the units of a network pay.
fn paid(network: &Network<Numbered>) -> u64 {
    let mut paid: u64 = 0;
    for (arc, carried) in network.all_arcs().iter().zip(network.all_flows()) {
        paid = paid.wrapping_add(arc.cost.wrapping_mul(*carried));
    }
    paid
}

// What the shipment of the sources costs, in the order in which they are given.
fn shipped(rt: &impl Abort, alloc: Global, fair: &Fair, sources: &[usize]) -> u64 {
    let mut network = network(rt, alloc, NODES, &rows(fair));
    let _potentials = ship(rt, alloc, &mut network, sources, SINK);
    paid(&network)
}

const ORDERS: [[usize; 4]; 6] = [
    [0, 1, 2, 3],
    [3, 2, 1, 0],
    [1, 0, 3, 2],
    [2, 3, 0, 1],
    [1, 3, 0, 2],
    [2, 0, 3, 1],
];

// That the sources of a seed's fair pay the least in each order.
fn assert_orders(rt: &impl Abort, alloc: Global, seed: u64) {
    let fair = made(seed);
    let want = least(&fair);
    for order in &ORDERS {
        let told = Some(shipped(rt, alloc, &fair, order));
        assert_eq!(rt; told, want, "seed {seed}, {order:?}");
    }
}

#[test]
fn no_order_costs_more(rt: HostRuntime) {
    for seed in 0..50u64 {
        assert_orders(&rt, rt.alloc(), seed);
    }
}
