//! The test of what `saturate` asks of a network and its sources.
ghost use Rattle.std.specs.Prelude.{◌≡◌, ℕ, ◌<◌, ◌≤◌, length, map, slice_index, true, IsTrue, ◌↔◌, IfOk};
ghost use Rattle.std.specs.List.{AllPass};
ghost use Rattle.flow_network.specs.Flows.{arc_at};
ghost use Rattle.augmenting_paths.specs.Shipping.{CanShip, HasPath, LeadsOn, IsEntered, IsSource, AreSources};
ghost use Rattle.augmenting_paths.specs.Shipping.{MayShip};

use flow_network::{FlowArc, Network};
use node_ids::Layout;
use std::alloc::{AllocError, Global};

/// How many units `saturate` ships at most.
pub const MAX_SOURCES: usize = 4096;

/// Whether `saturate` may be called: each clause that it requires is tested. The test takes time in
/// proportion to the arcs times the sources; a caller that knows its network need not make it.
pub fn can_ship<L: Layout>(
    alloc: Global,
    network: &Network<L>,
    sources: &[L::Node],
    sink: L::Node,
) -> Result<bool, AllocError>
    ensures { IfOk result (λ b. IsTrue b ↔ MayShip (L.is_member network.now.layout)
        (L.index_of network.now.layout)
        (L.node_count network.now.layout) network.now.arcs network.now.flows sources.now sink) }
{
    if sources.len() > MAX_SOURCES {
        return Ok(false);
    }
    if !network.layout().holds(sink) {
        return Ok(false);
    }
    if !are_members(network.layout(), sources) {
        return Ok(false);
    }
    if !are_zero(network.all_flows()) {
        return Ok(false);
    }
    can_ship_over(alloc, network, sources, sink)
}

// Whether the sources are such that each has a path of two arcs to the sink.
fn can_ship_over<L: Layout>(
    alloc: Global,
    network: &Network<L>,
    sources: &[L::Node],
    sink: L::Node,
) -> Result<bool, AllocError>
    requires members { AllPass (L.is_member network.now.layout) sources.now }
    requires sink { L.is_member network.now.layout sink ≡ true }
    ensures { IfOk result (λ b. IsTrue b ↔ CanShip (L.node_count network.now.layout) network.now.arcs
        (map (L.index_of network.now.layout) sources.now) (L.index_of network.now.layout sink)) }
{
    let end = network.layout().index(sink);
    let starts = indices(alloc, network.layout(), sources)?;
    let arcs = network.all_arcs();
    let may_ship = are_starts_with_paths(arcs, &starts, end);
    Ok(may_ship)
}

// Whether each node is one of the layout's.
fn are_members<L: Layout>(layout: &L, nodes: &[L::Node]) -> bool
    ensures { IsTrue result ↔ AllPass (L.is_member layout.now) nodes.now }
{
    nodes.iter().all(|node| layout.holds(*node))
}

// Whether nothing flows.
fn are_zero(flows: &[u64]) -> bool
    ensures { IsTrue result ↔ ((k : ℕ) → slice_index flows.now k ≡ 0) }
{
    for flow in flows {
        if *flow != 0 {
            return false;
        }
    }
    true
}

/// The indices of nodes.
pub fn indices<L: Layout>(
    alloc: Global,
    layout: &L,
    nodes: &[L::Node],
) -> Result<Vec<usize>, AllocError>
    requires { AllPass (L.is_member layout.now) nodes.now }
    ensures { IfOk result (λ v. v.items ≡ map (L.index_of layout.now) nodes.now) }
{
    let mut indices = Vec::new(alloc);
    for node in nodes {
        indices.push(layout.index(*node))?;
    }
    Ok(indices)
}

// Whether an arc leads from the node to the sink with room for so many units.
fn leads_on(arcs: &[FlowArc], units: usize, sink: usize, node: usize) -> bool
    ensures { IsTrue result ↔ LeadsOn arcs.now units sink node }
{
    arcs.iter().any(|arc| {
        arc.from as usize == node && arc.to as usize == sink && units <= arc.capacity as usize
    })
}

// Whether the source has a path of two arcs to the sink.
fn has_path(arcs: &[FlowArc], sources: &[usize], sink: usize, source: usize) -> bool
    ensures { IsTrue result ↔ HasPath arcs.now sources.now sink source }
{
    arcs.iter().any(|arc| {
        arc.from as usize == source
            && arc.capacity > 0
            && leads_on(arcs, sources.len(), sink, arc.to as usize)
    })
}

// Whether each source has a path of two arcs to the sink.
fn have_paths(arcs: &[FlowArc], sources: &[usize], sink: usize) -> bool
    ensures { IsTrue result ↔ ((k : ℕ) → k < length sources.now
        → HasPath arcs.now sources.now sink (slice_index sources.now k)) }
{
    sources
        .iter()
        .all(|source| has_path(arcs, sources, sink, *source))
}

// Whether an arc leads to the node.
fn is_entered(arcs: &[FlowArc], node: usize) -> bool
    ensures { IsTrue result ↔ IsEntered arcs.now node }
{
    arcs.iter().any(|arc| arc.to as usize == node)
}

// Whether a source stands before its place too.
fn stands_before(sources: &[usize], place: usize) -> bool
    requires { place < length sources.now }
    ensures { IsTrue result ↔ ((j : ℕ) × (j < place)
        × (slice_index sources.now j ≡ slice_index sources.now place)) }
{
    for j in 0..place {
        if sources[j] == sources[place] {
            return true;
        }
    }
    false
}

// Whether the source of this number stands once, is not the sink, and no arc leads to it.
fn is_start(arcs: &[FlowArc], sources: &[usize], sink: usize, k: usize) -> bool
    requires { k < length sources.now }
    ensures { IsTrue result ↔ IsSource arcs.now sources.now sink k }
{
    sources[k] != sink && !is_entered(arcs, sources[k]) && !stands_before(sources, k)
}

// Whether each source stands once, is not the sink, and no arc leads to it.
fn are_starts(arcs: &[FlowArc], sources: &[usize], sink: usize) -> bool
    ensures { IsTrue result ↔ AreSources arcs.now sources.now sink }
{
    for k in 0..sources.len() {
        if !is_start(arcs, sources, sink, k) {
            return false;
        }
    }
    true
}

// Both of each source.
fn are_starts_with_paths(arcs: &[FlowArc], sources: &[usize], sink: usize) -> bool
    ensures { IsTrue result ↔ (AreSources arcs.now sources.now sink
        × ((k : ℕ) → k < length sources.now
        → HasPath arcs.now sources.now sink (slice_index sources.now k))) }
{
    are_starts(arcs, sources, sink) && have_paths(arcs, sources, sink)
}
