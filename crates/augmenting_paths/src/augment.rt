//! One unit after the other along least paths.
ghost use Rattle.std.specs.Prelude.{◌≡◌, ℕ, ◌+◌, ◌*◌, ◌<◌, ◌≤◌, ◌^◌, List, length, map, slice_index, true};
ghost use Rattle.std.specs.Prelude.{false, IfOk, IfSome, IsSome};
ghost use Rattle.std.specs.List.{AllPass};
ghost use Rattle.flow_network.specs.Flows.{arc_at, arc_index, tail_of, AreArcs};
ghost use Rattle.shortest_paths.specs.Finding.{IsTotal};
ghost use Rattle.shortest_paths.specs.Search.{MaySearch};
ghost use Rattle.shortest_paths.specs.Searching.{distance_at};
ghost use Rattle.shortest_paths.specs.ToSink.{IsSearched, IsTrace};
ghost use Rattle.augmenting_paths.specs.Shipping.{CanShip, HasShipped, IsCheapest, IsLifted, AreMarked};
ghost use Rattle.augmenting_paths.specs.TightPath.{FindsTight};
ghost use Rattle.augmenting_paths.specs.DepthFirst.{HasNodes};
ghost use Rattle.augmenting_paths.specs.NextUnit.{MayShipNext, AreKept, HasLiftedNext, HasFoundNext};
ghost use Rattle.augmenting_paths.specs.NextUnit.{KeepsArcs};

use crate::order::shipping_order;
use crate::requirements::indices;
use crate::straight::straight_path;
use crate::trail::Trail;
use flow_network::{ArcNo, FlowArc, Meter, Network};
use node_ids::Layout;
use shortest_paths::{Buffers, Found, Potentials, Query, ResidualArcs, leaving};
use std::alloc::{AllocError, Global};

// What is kept from unit to unit: the last unit's path, and how many looks at arcs the searches took.
#[derive(Drop)]
struct Shipping {
    potentials: Potentials,
    lists: ResidualArcs,
    buffers: Buffers,
    trail: Trail,
    path: Vec<ArcNo>,
    looks: u64,
}

/// Ships one unit from each source to the sink, at the least total cost, by successive shortest paths
/// (Ahuja, Magnanti and Orlin, Network Flows, section 9.7), one augmentation a source. It answers the
/// potentials that show this: the sink's is 0, and no residual arc has a negative reduced cost. Per unit it
/// makes two passes over the source's arcs, of which the second looks for a path of two arcs, and one
/// depth-first search over tight arcs (each node and arc at most once). Only if these find no path does it
/// search by distances; all such searches together look at each arc at most twice for each source. Only memory can fail, and then the
/// network may hold part of the flow.
pub fn saturate<L: Layout>(
    alloc: Global,
    network: &mut Network<L>,
    sources: &[L::Node],
    sink: L::Node,
) -> Result<Potentials, AllocError>
    requires members { AllPass (L.is_member network.old.layout) sources.now }
    requires sink { L.is_member network.old.layout sink ≡ true }
    requires limit { length sources.now ≤ 4096 }
    requires can { CanShip (L.node_count network.old.layout) network.old.arcs
        (map (L.index_of network.old.layout) sources.now) (L.index_of network.old.layout sink) }
    requires no_flow { (k : ℕ) → slice_index network.old.flows k ≡ 0 }
    ensures size { IfOk result (λ p. length p ≡ L.node_count network.old.layout) }
    ensures shipped { IfOk result (λ p. HasShipped network.old.arcs
        (map (L.index_of network.old.layout) sources.now) (L.index_of network.old.layout sink)
        (length sources.now) network.new.flows (slice_index p)) }
    ensures cheapest { IfOk result (λ _. IsCheapest network.old.arcs
        (map (L.index_of network.old.layout) sources.now) (L.index_of network.old.layout sink)
        network.new.flows) }
    ensures arcs { network.new.arcs ≡ network.old.arcs }
    ensures layout { network.new.layout ≡ network.old.layout }
{
    let end = network.layout().index(sink);
    let starts = indices(alloc, network.layout(), sources)?;
    ship_all(alloc, network, &starts, end)
}

// The same by the indices of the nodes.
fn ship_all<L: Layout>(
    alloc: Global,
    network: &mut Network<L>,
    sources: &[usize],
    sink: usize,
) -> Result<Potentials, AllocError>
    requires limit { length sources.now ≤ 4096 }
    requires can { CanShip (L.node_count network.old.layout) network.old.arcs sources.now sink }
    requires no_flow { (k : ℕ) → slice_index network.old.flows k ≡ 0 }
    ensures size { IfOk result (λ p. length p ≡ L.node_count network.old.layout) }
    ensures shipped { IfOk result (λ p. HasShipped network.old.arcs sources.now sink (length sources.now)
        network.new.flows (slice_index p)) }
    ensures cheapest { IfOk result (λ _. IsCheapest network.old.arcs sources.now sink network.new.flows) }
    ensures arcs { network.new.arcs ≡ network.old.arcs }
    ensures layout { network.new.layout ≡ network.old.layout }
{
    let order = shipping_order(alloc, network, sources, sink)?;
    let mut shipping = unshipped(alloc, network, &order, sink)?;
    for count in 0..order.len() {
        shipping = ship(alloc, network, shipping, &order, sink, count)?;
    }
    Ok(shipping.potentials)
}

// What is kept before the first unit.
fn unshipped<L: Layout>(
    alloc: Global,
    network: &Network<L>,
    sources: &[usize],
    sink: usize,
) -> Result<Shipping, AllocError>
    requires can { CanShip (L.node_count network.now.layout) network.now.arcs sources.now sink }
    requires no_flow { (k : ℕ) → slice_index network.now.flows k ≡ 0 }
    ensures kept { IfOk result (λ s. AreKept L.node_count network.now sink 0 s) }
    ensures state { IfOk result (λ s. HasShipped network.now.arcs sources.now sink 0 network.now.flows
        (slice_index s.potentials)) }
{
    let nodes = network.layout().size();
    Ok(Shipping {
        trail: Trail::new(alloc, nodes)?,
        potentials: Potentials::new(alloc, nodes)?,
        lists: lists_of(alloc, network, sources, sink)?,
        buffers: Buffers::new(alloc, nodes)?,
        path: Vec::new(alloc),
        looks: 0,
    })
}

// The lists of arcs for a search from these sources, where nothing flows.
fn lists_of<L: Layout>(
    alloc: Global,
    network: &Network<L>,
    sources: &[usize],
    sink: usize,
) -> Result<ResidualArcs, AllocError>
    requires can { CanShip (L.node_count network.now.layout) network.now.arcs sources.now sink }
    requires no_flow { (k : ℕ) → slice_index network.now.flows k ≡ 0 }
    ensures { IfOk result (KeepsArcs (L.node_count network.now.layout) network.now.arcs
        network.now.flows sink) }
{
    let marks = marked(alloc, network.layout().size(), sources)?;
    ResidualArcs::new(alloc, network, marks, sink)
}

// Ships the unit of the source that stands at this place of the order along a least path, and lowers the
// potentials.
fn ship<L: Layout>(
    alloc: Global,
    network: &mut Network<L>,
    shipping: Shipping,
    order: &[usize],
    sink: usize,
    count: usize,
) -> Result<Shipping, AllocError>
    requires next { MayShipNext L.node_count network.old order.now sink count }
    requires kept { AreKept L.node_count network.old sink count shipping }
    requires state { HasShipped network.old.arcs order.now sink count network.old.flows
        (slice_index shipping.potentials) }
    ensures kept { IfOk result (λ s. AreKept L.node_count network.new sink (count + 1) s) }
    ensures state { IfOk result (λ s. HasShipped network.new.arcs order.now sink (count + 1) network.new.flows
        (slice_index s.potentials)) }
    ensures arcs { network.new.arcs ≡ network.old.arcs }
    ensures layout { network.new.layout ≡ network.old.layout }
{
    let found = find_path(alloc, network, shipping, order, sink, count)?;
    push(network, found, order, sink, count)
}

// Finds a path for the unit of the next source, under lowered potentials over which it costs nothing. The
// source is lifted first, so that an arc of reduced cost 0 leaves it: then a path is mostly found over such
// arcs alone, and no potential is lowered.
fn find_path<L: Layout>(
    alloc: Global,
    network: &Network<L>,
    mut shipping: Shipping,
    order: &[usize],
    sink: usize,
    count: usize,
) -> Result<Shipping, AllocError>
    requires next { MayShipNext L.node_count network.now order.now sink count }
    requires kept { AreKept L.node_count network.now sink count shipping }
    requires state { HasShipped network.now.arcs order.now sink count network.now.flows
        (slice_index shipping.potentials) }
    ensures kept { IfOk result (λ s. AreKept L.node_count network.now sink (count + 1) s) }
    ensures found { IfOk result (λ s. HasFoundNext network.now.arcs order.now sink count network.now.flows
        (slice_index s.potentials) s.path.items) }
{
    let start = order[count];
    lift(network, &mut shipping.potentials, start);
    let query = Query {
        potentials: &shipping.potentials,
        lists: &shipping.lists,
        start,
        sink,
    };
    if tight_path(network, &query, &mut shipping.trail, &mut shipping.path)? {
        return Ok(shipping);
    }
    search_path(alloc, network, shipping, order, sink, count)
}

// Whether tight arcs lead from a node to the sink, and then their path.
fn tight_path<L: Layout>(
    network: &Network<L>,
    query: &Query,
    trail: &mut Trail,
    path: &mut Vec<ArcNo>,
) -> Result<bool, AllocError>
    requires may { MaySearch L.node_count network.now query.now }
    requires nodes { HasNodes (length query.now.potentials.now) trail.old }
    ensures nodes { HasNodes (length query.now.potentials.now) trail.new }
    ensures tight { IfOk result (FindsTight network.now query.now path.new.items) }
{
    if straight_path(network, query, path)? {
        return Ok(true);
    }
    trail.search(network, query, path)
}

// The same by a search for distances, where the source is lifted.
fn search_path<L: Layout>(
    alloc: Global,
    network: &Network<L>,
    shipping: Shipping,
    order: &[usize],
    sink: usize,
    count: usize,
) -> Result<Shipping, AllocError>
    requires next { MayShipNext L.node_count network.now order.now sink count }
    requires kept { AreKept L.node_count network.now sink count shipping }
    requires lifted { HasLiftedNext network.now.arcs order.now sink count network.now.flows
        (slice_index shipping.potentials) }
    ensures kept { IfOk result (λ s. AreKept L.node_count network.now sink (count + 1) s) }
    ensures found { IfOk result (λ s. HasFoundNext network.now.arcs order.now sink count network.now.flows
        (slice_index s.potentials) s.path.items) }
{
    let Shipping {
        mut potentials,
        lists,
        buffers,
        mut trail,
        mut looks,
        ..
    } = shipping;
    let query = Query {
        potentials: &potentials,
        lists: &lists,
        start: order[count],
        sink,
    };
    let found = find(buffers, network, &query, &mut looks)?;
    let path = match found.path(alloc)? {
        Some(path) => path,
        None => unreachable!(),
    };
    let buffers = found.lower(&mut potentials);
    trail.open_all();
    Ok(Shipping {
        potentials,
        lists,
        buffers,
        trail,
        path,
        looks,
    })
}

// Pushes the unit of the next source along its path, over which it costs nothing.
fn push<L: Layout>(
    network: &mut Network<L>,
    mut shipping: Shipping,
    order: &[usize],
    sink: usize,
    count: usize,
) -> Result<Shipping, AllocError>
    requires next { MayShipNext L.node_count network.old order.now sink count }
    requires kept { AreKept L.node_count network.old sink (count + 1) shipping }
    requires found { HasFoundNext network.old.arcs order.now sink count network.old.flows
        (slice_index shipping.potentials) shipping.path.items }
    ensures kept { IfOk result (λ s. AreKept L.node_count network.new sink (count + 1) s) }
    ensures state { IfOk result (λ s. HasShipped network.new.arcs order.now sink (count + 1) network.new.flows
        (slice_index s.potentials)) }
    ensures arcs { network.new.arcs ≡ network.old.arcs }
    ensures layout { network.new.layout ≡ network.old.layout }
{
    network.push(&shipping.path);
    shipping.lists.follow(network, &shipping.path)?;
    Ok(shipping)
}

// Lowers the potential of a source, which is 0, by the least of what an arc of its own costs together with
// the depth of its end.
fn lift<L: Layout>(network: &Network<L>, potentials: &mut Potentials, source: usize)
    requires size { length potentials.old ≡ L.node_count network.now.layout }
    requires source { source < L.node_count network.now.layout }
    requires level { slice_index potentials.old source ≡ 0 }
    requires arc { (k : ℕ) × (k < length network.now.arcs) × ((arc_at network.now.arcs k).from ≡ source)
        × (0 < (arc_at network.now.arcs k).capacity)
        × ((arc_at network.now.arcs k).cost + slice_index potentials.old (arc_at network.now.arcs k).to
        ≤ 2 ^ 60) }
    ensures size { length potentials.new ≡ length potentials.old }
    ensures lifted { IsLifted network.now.arcs (slice_index potentials.old)
        (slice_index potentials.new) source }
{
    let depth = least_depth(network, potentials.depths(), source);
    potentials.lower(source, depth);
}

// The least of what an arc with room of a node's own costs together with the depth of its end.
fn least_depth<L: Layout>(network: &Network<L>, depths: &[u64], node: usize) -> u64
    requires size { length depths.now ≡ L.node_count network.now.layout }
    requires node { node < L.node_count network.now.layout }
    requires deep { (v : ℕ) → slice_index depths.now v ≤ 2 ^ 60 }
    ensures { (k : ℕ) → k < length network.now.arcs → (arc_at network.now.arcs k).from ≡ node
        → 0 < (arc_at network.now.arcs k).capacity
        → result ≤ (arc_at network.now.arcs k).cost + slice_index depths.now (arc_at network.now.arcs k).to }
{
    let mut least = u64::MAX;
    let meter = Meter::new(network);
    for arc in leaving(&meter, node) {
        least = lesser_depth(network.all_arcs(), depths, *arc, least);
    }
    least
}

// The same of one arc, and of what is known.
fn lesser_depth(arcs: &[FlowArc], depths: &[u64], arc: ArcNo, least: u64) -> u64
    requires arcs { AreArcs (length depths.now) arcs.now }
    requires listed { arc_index arc < length arcs.now }
    requires deep { (v : ℕ) → slice_index depths.now v ≤ 2 ^ 60 }
    ensures known { result ≤ least }
    ensures arc { (k : ℕ) → arc ≡ ArcNo.Forward k → 0 < (arc_at arcs.now k).capacity
        → result ≤ (arc_at arcs.now k).cost + slice_index depths.now (arc_at arcs.now k).to }
{
    match arc {
        ArcNo::Forward(k) if arcs[k as usize].capacity > 0 => {
            let arc = arcs[k as usize];
            least.min(arc.cost + depths[arc.to as usize])
        }
        _ => least,
    }
}

// Searches for the sink, and adds its looks at arcs to those before: at most two for each arc.
fn find<L: Layout>(
    buffers: Buffers,
    network: &Network<L>,
    query: &Query,
    looks: &mut u64,
) -> Result<Found, AllocError>
    requires looks { looks.old + 2 * length network.now.arcs < 2 ^ 64 }
    requires may { MaySearch L.node_count network.now query.now }
    requires nodes { buffers ≡ length query.now.potentials.now }
    requires sink { query.now.sink < length query.now.potentials.now }
    ensures size { IfOk result (λ f. length f.distances ≡ length query.now.potentials.now) }
    ensures total { IfOk result (λ f. IsTotal f.total (distance_at f.distances query.now.sink)) }
    ensures searched { IfOk result (λ f. IsSearched network.now.arcs network.now.flows
        (slice_index query.now.potentials.now) query.now.start query.now.sink (distance_at f.distances)) }
    ensures path { IfOk result (λ f. IsSome f.total → IsTrace network.now.arcs network.now.flows
        (slice_index query.now.potentials.now) query.now.start query.now.sink
        (distance_at f.distances) f.path) }
    ensures looks { looks.new ≤ looks.old + 2 * length network.now.arcs }
{
    let mut meter = Meter::new(network);
    let found = buffers.search(&mut meter, query);
    *looks += meter.count();
    found
}

// Which of so many nodes are sources.
fn marked(alloc: Global, nodes: usize, sources: &[usize]) -> Result<Vec<bool>, AllocError>
    requires { (k : ℕ) → k < length sources.now → slice_index sources.now k < nodes }
    ensures size { IfOk result (λ m. length m.items ≡ nodes) }
    ensures marks { IfOk result (λ m. AreMarked sources.now m.items) }
{
    let mut marks = vec![in alloc; false; nodes]?;
    for source in sources {
        marks[*source] = true;
    }
    Ok(marks)
}
