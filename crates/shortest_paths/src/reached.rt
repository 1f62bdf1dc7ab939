//! What a search over all nodes found: the least distances from one node, with their paths.
ghost use Rattle.std.specs.Prelude.{◌≡◌, ℕ, ◌*◌, ◌<◌, ◌≤◌, length, slice_index, slice_index_or, None, Some};
ghost use Rattle.std.specs.Prelude.{IfOk, MatchOption, List, Option};
ghost use Rattle.flow_network.specs.Flows.{NoNegative};
ghost use Rattle.shortest_paths.specs.Paths.{option_distance, option_path, AreLeastPaths};
ghost use Rattle.flow_network.specs.declared.arcs.ArcNo.{ArcNo};
ghost use Rattle.shortest_paths.specs.Finding.{paths_of, AreTracedBack};

use crate::residual_arcs::ResidualArcs;
use crate::search::Search;
use crate::{Potentials, Query};
use flow_network::{ArcNo, Meter};
use node_ids::Layout;
use std::alloc::{AllocError, Global};
use std::marker::Model;

/// For each node the least reduced cost of a path to it, with such a path, by the nodes' indices.
#[derive(Drop)]
pub struct Distances {
    search: Search,
}

impl Model for Distances {
    ghost Value = { List (Option (ℕ × List ArcNo)) };

    ghost view = { λ d. paths_of d.search.distances.items d.search.arrivals.items };

    ghost invariant = { λ d. AreTracedBack d.search.distances.items d.search.arrivals.items };
}

/// The least paths from the node of an index: a search over all residual arcs, to no sink.
pub fn find<L: Layout>(
    alloc: Global,
    meter: &mut Meter<L>,
    potentials: &Potentials,
    start: usize,
) -> Result<Distances, AllocError>
    requires count { meter.old.count ≡ 0 }
    requires nodes { length potentials.now ≡ L.node_count meter.old.network.layout }
    requires reduced { NoNegative meter.old.network.arcs meter.old.network.flows
        (slice_index potentials.now) }
    requires start { start < length potentials.now }
    ensures size { IfOk result (λ d. length d ≡ length potentials.now) }
    ensures least { IfOk result (λ d. AreLeastPaths meter.old.network.arcs meter.old.network.flows
        (slice_index potentials.now) start d) }
    ensures network { meter.new.network ≡ meter.old.network }
    ensures steps { meter.new.count ≤ 2 * length meter.old.network.arcs }
{
    let nodes = potentials.depths().len();
    let arcs = ResidualArcs::all(alloc, meter)?;
    let mut search = Search::new(alloc, meter.layout().size())?;
    let query = Query {
        potentials,
        lists: &arcs,
        start,
        sink: nodes,
    };
    search.run(meter, &query)?;
    Ok(Distances { search })
}

impl Distances {
    /// The least reduced cost of a path to a node, or none where there is no path.
    pub fn of(&self, node: usize) -> Option<u64>
        requires { node < length self.now }
        ensures { result ≡ option_distance (slice_index_or self.now node None) }
    {
        self.search.distance(node)
    }

    /// A path to a node of the least reduced cost, or none where there is no path.
    pub fn path(&self, alloc: Global, node: usize) -> Result<Option<Vec<ArcNo>>, AllocError>
        requires { node < length self.now }
        ensures { IfOk result (λ p. MatchOption p (slice_index_or self.now node None ≡ None)
            (λ v. option_path (slice_index_or self.now node None) ≡ Some v.items)) }
    {
        if self.of(node).is_none() {
            return Ok(None);
        }
        let path = self.search.trace(alloc, node)?;
        Ok(Some(path))
    }
}
