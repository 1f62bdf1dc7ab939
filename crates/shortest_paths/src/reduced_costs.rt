//! What is read of the residual arcs that leave a node.
ghost use Rattle.std.specs.Prelude.{◌≡◌, ℕ, ◌<◌, ◌≤◌, ◌^◌, length, slice_index, pos, neg_ℤ, ◌+ℤ◌, ◌-ℤ◌, ◌≤ℤ◌};
ghost use Rattle.flow_network.specs.Flows.{leaving_of};

use crate::Potentials;
use flow_network::{ArcNo, Look, Meter};
use node_ids::Layout;

/// The reduced cost of an arc that leaves a node and is seen as `look`.
pub fn reduced(potentials: &Potentials, node: usize, look: Look) -> u64
    requires node { node < length potentials.now }
    requires to { look.to < length potentials.now }
    requires deep { (v : ℕ) → slice_index potentials.now v ≤ 2 ^ 60 }
    requires low { neg_ℤ (pos (2 ^ 47)) ≤ℤ look.cost }
    requires high { look.cost ≤ℤ pos (2 ^ 47) }
    requires reduced { pos (slice_index potentials.now node) ≤ℤ
        (look.cost +ℤ pos (slice_index potentials.now look.to)) }
    ensures { pos result ≡ (look.cost +ℤ pos (slice_index potentials.now look.to)) -ℤ pos
        (slice_index potentials.now node) }
{
    (look.cost + potentials.of(node) - potentials.of(look.to)) as u64
}

/// The residual arcs that leave the node of an index.
pub fn leaving<'a, L: Layout>(meter: &Meter<'a, L>, node: usize) -> &'a [ArcNo]
    requires { node < L.node_count meter.now.network.layout }
    ensures { result.now ≡ leaving_of meter.now.network.arcs node }
{
    meter.arcs_from(meter.layout().node(node))
}
