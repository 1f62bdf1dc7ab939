//! In which order the units are shipped.
ghost use Rattle.std.specs.Prelude.{◌≡◌, ℕ, ◌<◌, length, map, slice_index, IfOk, IsPermutation};

use flow_network::{FlowArc, Network};
use node_ids::Layout;
use std::alloc::{AllocError, Global};

// The greatest cost of a node's own arcs, and the greatest that is less: what its unit costs at most where
// it need not take the dearest arc.
#[derive(Clone, Copy)]
struct Costs {
    most: u64,
    next: u64,
}

impl Costs {
    fn with(self, cost: u64) -> Costs {
        if cost > self.most {
            return Costs {
                most: cost,
                next: self.most,
            };
        }
        if cost < self.most && cost > self.next {
            return Costs { next: cost, ..self };
        }
        self
    }
}

/// The sources in the order of shipping. First come as many of the cheapest as the narrow arcs to the sink
/// take together, the dearest of these first, and then the others, the cheapest first: so a unit is seldom
/// displaced by a later one. That each source stands in it as often as it is given is all that is promised.
pub fn shipping_order<L: Layout>(
    alloc: Global,
    network: &Network<L>,
    sources: &[usize],
    sink: usize,
) -> Result<Vec<usize>, AllocError>
    requires { (k : ℕ) → k < length sources.now →
        slice_index sources.now k < L.node_count network.now.layout }
    ensures { IfOk result (λ v. IsPermutation sources.now v.items) }
{
    let mut order = cheapest_first(alloc, network, sources)?;
    let room = narrow_room(network.all_arcs(), sink, sources.len() as u64);
    let mut others = order.split_off(order.len().min(room))?;
    order.reverse();
    order.append(&mut others)?;
    Ok(order)
}

// The sources, those first whose units cost least.
fn cheapest_first<L: Layout>(
    alloc: Global,
    network: &Network<L>,
    sources: &[usize],
) -> Result<Vec<usize>, AllocError>
    requires { (k : ℕ) → k < length sources.now →
        slice_index sources.now k < L.node_count network.now.layout }
    ensures { IfOk result (λ v. IsPermutation sources.now v.items) }
{
    let costs = costs_of(alloc, network)?;
    let mut keys = keys_of(alloc, sources, &costs)?;
    keys.sort()?;
    nodes_of(alloc, &keys)
}

// The costs of each node's own arcs, by the nodes' indices.
fn costs_of<L: Layout>(alloc: Global, network: &Network<L>) -> Result<Vec<Costs>, AllocError>
    ensures { IfOk result (λ c. length c.items ≡ L.node_count network.now.layout) }
{
    let none = Costs { most: 0, next: 0 };
    let mut costs = vec![in alloc; none; network.layout().size()]?;
    for arc in network.all_arcs() {
        let from = arc.from as usize;
        costs[from] = costs[from].with(arc.cost);
    }
    Ok(costs)
}

// Each source, after what its unit costs.
fn keys_of(
    alloc: Global,
    sources: &[usize],
    costs: &[Costs],
) -> Result<Vec<(u64, usize)>, AllocError>
    requires { (k : ℕ) → k < length sources.now → slice_index sources.now k < length costs.now }
    ensures { IfOk result (λ k. map (λ p. p.1) k.items ≡ sources.now) }
{
    let mut keys = Vec::new(alloc);
    for source in sources {
        keys.push((costs[*source].next, *source))?;
    }
    Ok(keys)
}

// The nodes of the keys.
fn nodes_of(alloc: Global, keys: &[(u64, usize)]) -> Result<Vec<usize>, AllocError>
    ensures { IfOk result (λ n. n.items ≡ map (λ p. p.1) keys.now) }
{
    let mut nodes = Vec::new(alloc);
    for key in keys {
        nodes.push(key.1)?;
    }
    Ok(nodes)
}

// What the arcs to the sink take together that cannot take all units.
fn narrow_room(arcs: &[FlowArc], sink: usize, units: u64) -> usize {
    let mut room: usize = 0;
    for arc in arcs {
        if arc.to as usize == sink && (arc.capacity as u64) < units {
            room = room.saturating_add(arc.capacity as usize);
        }
    }
    room
}
