//! Least reduced costs over a network.
ghost use Rattle.std.specs.Prelude.{◌≡◌, ℕ, ◌*◌, ◌≤◌, length, slice_index, true, IfOk};
ghost use Rattle.flow_network.specs.Flows.{NoNegative};
ghost use Rattle.shortest_paths.specs.Paths.{AreLeastPaths};

use crate::reached::find;
use crate::{Distances, Potentials};
use flow_network::{Meter, Network};
use node_ids::Layout;
use std::alloc::{AllocError, Global};

/// For each node the least reduced cost of a residual path from a node, with such a path (Dijkstra's search
/// over reduced costs; Ahuja, Magnanti and Orlin, Network Flows, chapter 9). Only memory can fail.
pub fn distances<L: Layout>(
    alloc: Global,
    network: &Network<L>,
    potentials: &Potentials,
    from: L::Node,
) -> Result<Distances, AllocError>
    requires from { L.is_member network.now.layout from ≡ true }
    requires nodes { length potentials.now ≡ L.node_count network.now.layout }
    requires reduced { NoNegative network.now.arcs network.now.flows (slice_index potentials.now) }
    ensures size { IfOk result (λ d. length d ≡ length potentials.now) }
    ensures least { IfOk result (λ d. AreLeastPaths network.now.arcs network.now.flows
        (slice_index potentials.now) (L.index_of network.now.layout from) d) }
{
    let mut meter = Meter::new(network);
    distances_by(alloc, &mut meter, potentials, from)
}

/// `distances`, on a network that counts the arcs that are looked at: each at most once in each direction.
pub fn distances_by<L: Layout>(
    alloc: Global,
    meter: &mut Meter<L>,
    potentials: &Potentials,
    from: L::Node,
) -> Result<Distances, AllocError>
    requires count { meter.old.count ≡ 0 }
    requires from { L.is_member meter.old.network.layout from ≡ true }
    requires nodes { length potentials.now ≡ L.node_count meter.old.network.layout }
    requires reduced { NoNegative meter.old.network.arcs meter.old.network.flows
        (slice_index potentials.now) }
    ensures size { IfOk result (λ d. length d ≡ length potentials.now) }
    ensures least { IfOk result (λ d. AreLeastPaths meter.old.network.arcs meter.old.network.flows
        (slice_index potentials.now)
        (L.index_of meter.old.network.layout from) d) }
    ensures network { meter.new.network ≡ meter.old.network }
    ensures steps { meter.new.count ≤ 2 * length meter.old.network.arcs }
{
    let start = meter.layout().index(from);
    find(alloc, meter, potentials, start)
}
