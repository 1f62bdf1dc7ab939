//! A path of two arcs over which a unit costs nothing more.
ghost use Rattle.std.specs.Prelude.{◌≡◌, ◌<◌, ◌∷◌, [], length, slice_index, IfOk, IfSome, IsTrue};
ghost use Rattle.flow_network.specs.Flows.{arc_index};
ghost use Rattle.shortest_paths.specs.Search.{MaySearch};
ghost use Rattle.augmenting_paths.specs.DepthFirst.{IsOf};
ghost use Rattle.augmenting_paths.specs.TightPath.{FindsTight, IsTightArc, IsTightPath};

use flow_network::{ArcNo, Meter, Network};
use node_ids::Layout;
use shortest_paths::{Potentials, Query, leaving};
use std::alloc::AllocError;

/// Whether two tight arcs lead from the query's start over a node to the sink; then they are the path. The
/// start's last arc is tried first: in a network of a wave it leads to Unstarted.
pub fn straight_path<L: Layout>(
    network: &Network<L>,
    query: &Query,
    path: &mut Vec<ArcNo>,
) -> Result<bool, AllocError>
    requires { MaySearch L.node_count network.now query.now }
    ensures { IfOk result (FindsTight network.now query.now path.new.items) }
{
    let meter = Meter::new(network);
    let arcs = leaving(&meter, query.start);
    for i in 0..arcs.len() {
        let place = if i == 0 { arcs.len() - 1 } else { i - 1 };
        if let Some(last) = arc_on(network, query, arcs[place]) {
            path.clear();
            path.push(arcs[place])?;
            path.push(last)?;
            return Ok(true);
        }
    }
    Ok(false)
}

// The arc to the sink that goes on from the end of this arc of the start, if both are tight.
fn arc_on<L: Layout>(network: &Network<L>, query: &Query, first: ArcNo) -> Option<ArcNo>
    requires may { MaySearch L.node_count network.now query.now }
    requires own { IsOf network.now.arcs query.now.start first }
    ensures { IfSome result (λ last. IsTightPath network.now.arcs network.now.flows
        (slice_index query.now.potentials.now) query.now.start query.now.sink (first ∷ last ∷ [])) }
{
    if !is_tight(network, query.potentials, first) {
        return None;
    }
    let middle = network.view(first).to;
    let Some(on) = query.lists.sink_arc(middle) else {
        return None;
    };
    let last = ArcNo::Forward(on);
    if number_of(first) != on && is_tight(network, query.potentials, last) {
        Some(last)
    } else {
        None
    }
}

// The number of the arc that a residual arc goes over.
fn number_of(arc: ArcNo) -> u32
    ensures { result ≡ arc_index arc }
{
    match arc {
        ArcNo::Forward(k) => k,
        ArcNo::Reverse(k) => k,
    }
}

/// Whether an arc is residual and costs nothing under the potentials.
#[inline(always)]
pub fn is_tight<L: Layout>(network: &Network<L>, potentials: &Potentials, arc: ArcNo) -> bool
    requires size { length potentials.now ≡ L.node_count network.now.layout }
    requires listed { arc_index arc < length network.now.arcs }
    ensures { IsTrue result
        → IsTightArc network.now.arcs network.now.flows (slice_index potentials.now) arc }
{
    let arcs = network.all_arcs();
    let depths = potentials.depths();
    match arc {
        ArcNo::Forward(k) => {
            let seen = arcs[k as usize];
            depths[seen.from as usize] == seen.cost + depths[seen.to as usize]
                && network.all_flows()[k as usize] < seen.capacity as u64
        }
        ArcNo::Reverse(k) => {
            let seen = arcs[k as usize];
            depths[seen.from as usize] == seen.cost + depths[seen.to as usize]
                && network.all_flows()[k as usize] > 0
        }
    }
}
