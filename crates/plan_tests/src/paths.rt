ghost use Rattle.std.specs.Prelude.{◌≡◌, ◌<◌, ◌≤◌, length};

use crate::networks::{Row, network};
use flow_network::{ArcNo, Meter, Network};
use node_ids::{Layout, Numbered};
use shortest_paths::{Distances, Potentials, distances, distances_by, has_no_negative};
use std::alloc::Global;
use std::process::Abort;

// A cycle without cost between 0 and 1, two arcs from there to 2, one on to 4 without room, and 3 apart.
const CYCLE: [Row; 7] = [
    (0, 1, 1, 0),
    (1, 0, 1, 0),
    (1, 2, 1, 4),
    (1, 2, 1, 3),
    (0, 2, 1, 9),
    (2, 4, 0, 1),
    (3, 0, 1, 1),
];

/// The least paths from a node, where the potentials allow the search.
pub fn search(
    rt: &impl Abort,
    alloc: Global,
    network: &Network<Numbered>,
    potentials: &Potentials,
    from: usize,
) -> Distances
    ensures { length result ≡ length potentials.now }
{
    assert!(rt; network.layout().holds(from));
    assert!(rt; potentials.depths().len() == network.layout().size());
    assert!(rt; has_no_negative(network, potentials));
    distances(alloc, network, potentials, from).expect(rt, "no memory")
}

// The length of a least path to each of five nodes.
fn lengths(found: &Distances) -> [Option<u64>; 5]
    requires { 5 ≤ length found.now }
{
    [
        found.of(0),
        found.of(1),
        found.of(2),
        found.of(3),
        found.of(4),
    ]
}

// The arcs of a least path to a node, none where there is no path.
fn assert_path(rt: &impl Abort, alloc: Global, found: &Distances, node: usize, want: &[ArcNo])
    requires { node < length found.now }
{
    let path = found.path(alloc, node).expect(rt, "no memory");
    let arcs = path.unwrap_or(Vec::new(alloc));
    assert_eq!(rt; arcs.as_slice(), want);
}

// The least paths from node 0: none leads to 3 or 4.
fn assert_from_0(rt: &impl Abort, alloc: Global, found: &Distances)
    requires { 5 ≤ length found.now }
{
    assert_eq!(rt; lengths(found), [Some(0), Some(0), Some(3), None, None]);
    assert_path(rt, alloc, found, 2, &[ArcNo::Forward(0), ArcNo::Forward(3)]);
    assert_path(rt, alloc, found, 4, &[]);
}

#[test]
fn least_paths_from_the_cycle(rt: HostRuntime) {
    let network = network(&rt, rt.alloc(), 5, &CYCLE);
    let potentials = Potentials::new(rt.alloc(), 5).expect(&rt, "no memory");
    assert!(rt; potentials.depths().len() == 5);
    let found = search(&rt, rt.alloc(), &network, &potentials, 0);
    assert_from_0(&rt, rt.alloc(), &found);
}

// Potentials under which a unit may be on the cheaper arc from 1 to 2.
fn lowered(rt: &impl Abort, alloc: Global) -> Potentials {
    let mut potentials = Potentials::new(alloc, 5).expect(rt, "no memory");
    for node in [0, 1, 3] {
        if node < potentials.depths().len() {
            potentials.set(node, -3);
        }
    }
    potentials
}

// The cycle with a unit on the cheaper arc from 1 to 2.
fn with_a_unit(rt: &impl Abort, alloc: Global) -> Network<Numbered> {
    let mut network = network(rt, alloc, 5, &CYCLE);
    assert!(rt; network.arcs() == 7);
    assert!(rt; network.residual(ArcNo::Forward(3)) == 1);
    network.push(&[ArcNo::Forward(3)]);
    network
}

// The least paths from node 2, which lead over the reverse of the arc with a unit, and the potentials of two
// nodes.
fn assert_from_2(rt: &impl Abort, alloc: Global, found: &Distances, potentials: &Potentials)
    requires { (5 ≤ length found.now) × (5 ≤ length potentials.now) }
{
    let told = (lengths(found), potentials.of(0), potentials.of(2));
    assert_eq!(rt; told, ([Some(0), Some(0), Some(0), None, None], -3, 0));
    assert_path(rt, alloc, found, 0, &[ArcNo::Reverse(3), ArcNo::Forward(1)]);
}

// With a unit on the cheaper arc, its reverse gives the cost back.
#[test]
fn a_path_takes_a_unit_back(rt: HostRuntime) {
    let network = with_a_unit(&rt, rt.alloc());
    let potentials = lowered(&rt, rt.alloc());
    assert!(rt; potentials.depths().len() == 5);
    let found = search(&rt, rt.alloc(), &network, &potentials, 2);
    assert_from_2(&rt, rt.alloc(), &found, &potentials);
}

// How many looks a search from node 0 takes.
fn looks(
    rt: &impl Abort,
    alloc: Global,
    network: &Network<Numbered>,
    potentials: &Potentials,
) -> u64 {
    assert!(rt; network.layout().holds(0) && potentials.depths().len() == network.layout().size());
    assert!(rt; has_no_negative(network, potentials));
    let mut meter = Meter::new(network);
    let _ = distances_by(alloc, &mut meter, potentials, 0).expect(rt, "no memory");
    meter.count()
}

// Four arcs leave each of the nodes 0, 1 and 2 in one direction or the other.
#[test]
fn looks_are_few(rt: HostRuntime) {
    let network = network(&rt, rt.alloc(), 5, &CYCLE);
    let potentials = Potentials::new(rt.alloc(), 5).expect(&rt, "no memory");
    assert_eq!(rt; looks(&rt, rt.alloc(), &network, &potentials), 12);
}
