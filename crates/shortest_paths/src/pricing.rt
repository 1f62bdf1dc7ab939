//! The test of what a search asks of potentials.
ghost use Rattle.std.specs.Prelude.{◌≡◌, ℕ, ◌<◌, ◌≤◌, ◌^◌, length, slice_index, IsTrue, ◌↔◌};
ghost use Rattle.flow_network.specs.Flows.{arc_at, AreArcs, NoNegative, NoNegativeArc};

use crate::Potentials;
use flow_network::{FlowArc, Network};
use node_ids::Layout;

/// Whether no residual arc has a negative reduced cost, so that the flow has the least cost of those with its
/// balances (Ahuja, Magnanti and Orlin, Network Flows, theorem 9.3).
pub fn has_no_negative<L: Layout>(network: &Network<L>, potentials: &Potentials) -> bool
    requires { length potentials.now ≡ L.node_count network.now.layout }
    ensures { IsTrue result ↔ NoNegative network.now.arcs network.now.flows (slice_index potentials.now) }
{
    are_priced(network.all_arcs(), network.all_flows(), potentials.depths())
}

// The same of arcs, their flows, and how far each potential lies below 0.
fn are_priced(arcs: &[FlowArc], flows: &[u64], depths: &[u64]) -> bool
    requires sizes { length flows.now ≡ length arcs.now }
    requires inside { AreArcs (length depths.now) arcs.now }
    requires deep { (v : ℕ) → slice_index depths.now v ≤ 2 ^ 60 }
    ensures { IsTrue result ↔ NoNegative arcs.now flows.now (slice_index depths.now) }
{
    for k in 0..arcs.len() {
        if !is_priced_arc(arcs[k], flows[k], depths) {
            return false;
        }
    }
    true
}

// The same of one arc.
fn is_priced_arc(arc: FlowArc, flow: u64, depths: &[u64]) -> bool
    requires from { arc.from < length depths.now }
    requires to { arc.to < length depths.now }
    requires cost { arc.cost < 2 ^ 47 }
    requires deep { (v : ℕ) → slice_index depths.now v ≤ 2 ^ 60 }
    ensures { IsTrue result ↔ NoNegativeArc (slice_index depths.now) arc flow }
{
    let from = depths[arc.from as usize];
    let through = arc.cost + depths[arc.to as usize];
    (flow >= arc.capacity as u64 || from <= through) && (flow == 0 || through <= from)
}
