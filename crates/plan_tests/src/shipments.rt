use crate::networks::{Row, excess, network};
use crate::paths::search;
use crate::random::Random;
use augmenting_paths::{can_ship, saturate};
use flow_network::{FlowArc, Network};
use node_ids::Numbered;
use shortest_paths::Potentials;
use std::alloc::Global;
use std::process::Abort;

/// Ships a unit from each source, which may be asked.
pub fn ship(
    rt: &impl Abort,
    alloc: Global,
    network: &mut Network<Numbered>,
    sources: &[usize],
    sink: usize,
) -> Potentials {
    let may_ship = can_ship(alloc, network, sources, sink).expect(rt, "no memory");
    assert!(rt; may_ship);
    saturate(alloc, network, sources, sink).expect(rt, "no memory")
}

// How far below 0 the potential of a node lies, or 0 for no node.
fn depth(potentials: &Potentials, node: usize) -> i64 {
    potentials
        .depths()
        .get(node)
        .copied()
        .unwrap_or(0)
        .cast_signed()
}

fn assert_excesses(rt: &impl Abort, network: &Network<Numbered>, wanted: &[i64]) {
    for (node, want) in wanted.iter().enumerate() {
        assert_eq!(rt; excess(network, node), *want, "node {node}");
    }
}

// Sources 0 and 1 want the one place of node 2; the second unit drives the first over to node 3.
const CONTEST: [Row; 9] = [
    (0, 2, 1, 0),
    (0, 3, 1, 4),
    (1, 2, 1, 0),
    (1, 3, 1, 6),
    (0, 4, 1, 100),
    (1, 4, 1, 100),
    (2, 5, 1, 0),
    (3, 5, 1, 0),
    (4, 5, 2, 0),
];

// How far below 0 the potentials of some nodes lie.
fn assert_depths(rt: &impl Abort, potentials: &Potentials, rows: &[(usize, i64)]) {
    for (node, want) in rows {
        assert_eq!(rt; (*node, depth(potentials, *node)), (*node, *want));
    }
}

#[test]
fn a_unit_makes_way(rt: HostRuntime) {
    let mut network = network(&rt, rt.alloc(), 6, &CONTEST);
    let potentials = ship(&rt, rt.alloc(), &mut network, &[0, 1], 5);
    assert_eq!(rt; network.all_flows(), [0, 1, 1, 0, 0, 0, 1, 1, 0].as_slice());
    assert_excesses(&rt, &network, &[-1, -1, 0, 0, 0, 2]);
    // 0 pays 4 at node 3, and 1 would pay as much more than 0 at node 2
    assert_depths(&rt, &potentials, &[(0, 4), (1, 4), (2, 4), (3, 0), (5, 0)]);
}

// Sources of the contest, and whether a unit can be shipped from each.
const CASES: [(&'static [usize], bool); 6] = [
    (&[0, 1], true),
    (&[], true),
    (&[0, 0], false),
    (&[0, 5], false),
    (&[0, 2], false),
    (&[0, 6], false),
];

#[test]
fn what_may_be_shipped(rt: HostRuntime) {
    let contest = network(&rt, rt.alloc(), 6, &CONTEST);
    for (sources, want) in CASES {
        let may_ship = can_ship(rt.alloc(), &contest, sources, 5);
        assert_eq!(rt; may_ship, Ok(want), "{sources:?}");
    }
}

const NODES: usize = 7;

const SINK: usize = 6;

// Two sources, four inner nodes and the sink, with ten arcs at random beside the ways through node 5.
fn random(rt: &impl Abort, alloc: Global, seed: u64) -> Network<Numbered> {
    let mut random = Random::new(seed);
    let mut rows = [(0, 5, 1, 50); 13];
    rows[1] = (1, 5, 1, 50);
    rows[2] = (5, SINK, 2, 0);
    for place in 3..13usize {
        let from = random.below(6) as usize;
        let to = random.below(5) as usize;
        let capacity = random.below(3);
        rows[place] = (from, to.wrapping_add(2), capacity, random.below(10));
    }
    network(rt, alloc, NODES, &rows)
}

// A residual path that visits no node twice.
#[derive(Clone, Copy)]
struct Walk {
    end: usize,
    visited: [bool; NODES],
    cost: i64,
}

impl Walk {
    fn visits(&self, node: usize) -> bool {
        self.visited.get(node).copied().unwrap_or(true)
    }

    fn visit(&mut self, node: usize) {
        if let Some(visit) = self.visited.get_mut(node) {
            *visit = true;
        }
    }

    // The path of no arcs at a node.
    fn at(node: usize) -> Walk {
        let mut walk = Walk {
            end: node,
            visited: [false; NODES],
            cost: 0,
        };
        walk.visit(node);
        walk
    }

    // The path with one arc more, where the arc leaves its end for a node that it has not visited.
    fn over(self, potentials: &Potentials, from: usize, to: usize, cost: i64) -> Option<Walk> {
        if self.end != from || self.visits(to) {
            return None;
        }
        let mut longer = self;
        longer.end = to;
        longer.visit(to);
        longer.cost = self
            .cost
            .wrapping_add(cost)
            .wrapping_sub(depth(potentials, from))
            .wrapping_add(depth(potentials, to));
        Some(longer)
    }

    // The path with an arc more that carries so many units, and with its reverse.
    fn longer(self, potentials: &Potentials, arc: FlowArc, carried: u64) -> [Option<Walk>; 2] {
        let cost = arc.cost.cast_signed();
        let mut longer = [None; 2];
        let from = arc.from as usize;
        let to = arc.to as usize;
        if carried < arc.capacity as u64 {
            longer[0] = self.over(potentials, from, to, cost);
        }
        if carried > 0 {
            longer[1] = self.over(potentials, to, from, cost.wrapping_neg());
        }
        longer
    }
}

fn add(rt: &impl Abort, paths: &mut Vec<Walk>, path: Option<Walk>) {
    if let Some(path) = path {
        paths.push(path).expect(rt, "no memory");
    }
}

// Adds all paths that are this one with one residual arc more.
fn add_longer(
    rt: &impl Abort,
    network: &Network<Numbered>,
    potentials: &Potentials,
    path: Walk,
    longer: &mut Vec<Walk>,
) {
    for (arc, carried) in network.all_arcs().iter().zip(network.all_flows()) {
        let both = path.longer(potentials, *arc, *carried);
        add(rt, longer, both[0]);
        add(rt, longer, both[1]);
    }
}

// All paths that are one of these with one residual arc more.
fn longer(
    rt: &impl Abort,
    alloc: Global,
    network: &Network<Numbered>,
    potentials: &Potentials,
    paths: &[Walk],
) -> Vec<Walk> {
    let mut longer = Vec::new(alloc);
    for path in paths {
        add_longer(rt, network, potentials, *path, &mut longer);
    }
    longer
}

// Notes the costs of paths where they are the least to their ends.
fn note(best: &mut [Option<i64>; NODES], paths: &[Walk]) {
    for path in paths {
        if let Some(at_end) = best.get_mut(path.end) {
            if at_end.is_none_or(|old| path.cost < old) {
                *at_end = Some(path.cost);
            }
        }
    }
}

// The least reduced cost of all residual paths to each node, by listing them.
fn by_paths(
    rt: &impl Abort,
    alloc: Global,
    from: usize,
    network: &Network<Numbered>,
    potentials: &Potentials,
) -> [Option<i64>; NODES] {
    let mut best = [None; NODES];
    let mut paths = [Walk::at(from)].to_vec(alloc).expect(rt, "no memory");
    for _ in 0..NODES {
        note(&mut best, &paths);
        paths = longer(rt, alloc, network, potentials, &paths);
    }
    best
}

// The distances from a node, as the search finds them.
fn by_search(
    rt: &impl Abort,
    alloc: Global,
    network: &Network<Numbered>,
    potentials: &Potentials,
    from: usize,
) -> [Option<i64>; NODES] {
    let distances = search(rt, alloc, network, potentials, from);
    let mut found = [None; NODES];
    for node in 0..NODES {
        if node < potentials.depths().len() {
            found[node] = distances.of(node).map(|distance| distance.cast_signed());
        }
    }
    found
}

// That from each node the search finds what the list of paths does.
fn assert_searches(
    rt: &impl Abort,
    alloc: Global,
    network: &Network<Numbered>,
    potentials: &Potentials,
    seed: u64,
) {
    for node in 0..NODES {
        let slow = by_paths(rt, alloc, node, network, potentials);
        let fast = by_search(rt, alloc, network, potentials, node);
        assert_eq!(rt; fast, slow, "seed {seed}, node {node}");
    }
}

fn ship_in_random(rt: &impl Abort, alloc: Global, seed: u64) {
    let mut network = random(rt, alloc, seed);
    let potentials = ship(rt, alloc, &mut network, &[0, 1], SINK);
    assert_excesses(rt, &network, &[-1, -1, 0, 0, 0, 0, 2]);
    assert_searches(rt, alloc, &network, &potentials, seed);
}

#[test]
fn random_networks(rt: HostRuntime) {
    for seed in 0..40u64 {
        ship_in_random(&rt, rt.alloc(), seed);
    }
}
