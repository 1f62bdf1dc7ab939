//! The residual arcs by which a search leaves the nodes.
ghost use Rattle.std.specs.Prelude.{◌≡◌, ℕ, ◌<◌, List, ◌∷◌, ◌++◌, length, slice_index, slice_index_or};
ghost use Rattle.std.specs.Prelude.{[], false, None, replicate, IfOk, OnOk, All};
ghost use Rattle.flow_network.specs.declared.arcs.FlowArc.{FlowArc};
ghost use Rattle.flow_network.specs.declared.arcs.ArcNo.{ArcNo};
ghost use Rattle.flow_network.specs.Flows.{arc_at, arc_index, leaving_of, pushed};
ghost use Rattle.shortest_paths.specs.Lists.{source_at, inner_at, matched_at, AreResidualArcs, AreSized};
ghost use Rattle.shortest_paths.specs.Lists.{ArcLists};
ghost use Rattle.shortest_paths.specs.Matched.{AreMatched, GoesOnce, IsFollowing};
ghost use Rattle.shortest_paths.specs.Sorted.{AreSorted};

use crate::matched_arcs::MatchedArcs;
use crate::reduced_costs::leaving;
use crate::sorted_arcs::{SortedArcs, no_sink_arcs, sort_arcs};
use flow_network::{ArcNo, FlowArc, Leaving, Meter, Network, none_leaving};
use node_ids::Layout;
use std::alloc::{AllocError, Global};
use std::marker::Model;

/// The residual arcs that leave each node other than a source, in three lists: an arc to the sink, the other
/// arcs to nodes that are no sources, and the arcs back to sources. Of the last only those to matched sources
/// are kept, since only these carry a unit. A source's own arcs are the network's list.
#[derive(Drop)]
pub struct ResidualArcs {
    is_source: Vec<bool>,
    sink_arcs: Vec<Option<u32>>,
    inner: Vec<Leaving>,
    matched: Vec<MatchedArcs>,
}

impl Model for ResidualArcs {
    ghost Value = { ArcLists };

    ghost view = { λ g. record {
      is_source = g.is_source.items;
      sink_arcs = g.sink_arcs.items;
      inner = g.inner.items;
      matched = g.matched.items;
    } };
}

impl ResidualArcs {
    /// The arcs of a network without flow, of which no source is matched; the sources are marked.
    pub fn new<L: Layout>(
        alloc: Global,
        network: &Network<L>,
        is_source: Vec<bool>,
        sink: usize,
    ) -> Result<ResidualArcs, AllocError>
        requires size { length is_source.items ≡ L.node_count network.now.layout }
        requires no_entry { (k : ℕ) → k < length network.now.arcs
            → slice_index_or is_source.items (arc_at network.now.arcs k).to false ≡ false }
        requires no_flow { (k : ℕ) → slice_index network.now.flows k ≡ 0 }
        ensures sorted { IfOk result
            (λ g. AreSorted (L.node_count network.now.layout) network.now.arcs sink g) }
        ensures matched { IfOk result (λ g. AreMatched network.now.arcs network.now.flows g) }
        ensures sources { IfOk result (λ g. g.is_source ≡ is_source.items) }
    {
        let sorted = sort_arcs(alloc, network, &is_source, sink)?;
        let matched = none_matched(alloc, network.layout().size())?;
        let SortedArcs { sink_arcs, inner } = sorted;
        Ok(ResidualArcs {
            is_source,
            sink_arcs,
            inner,
            matched,
        })
    }

    /// All residual arcs of each node, whatever the flow, in one list; no node is held for a source.
    pub fn all<L: Layout>(alloc: Global, meter: &Meter<L>) -> Result<ResidualArcs, AllocError>
        ensures sized { IfOk result (λ g. AreSized (L.node_count meter.now.network.layout) g) }
        ensures residual { IfOk result (λ g. (flows : List ℕ) (sink : ℕ)
            → AreResidualArcs meter.now.network.arcs flows sink g) }
        ensures none { IfOk result (λ g. (v : ℕ) → source_at g v ≡ false) }
    {
        let nodes = meter.layout().size();
        Ok(ResidualArcs {
            is_source: vec![in alloc; false; nodes]?,
            sink_arcs: no_sink_arcs(alloc, nodes)?,
            inner: all_leaving(alloc, meter, nodes)?,
            matched: none_matched(alloc, nodes)?,
        })
    }

    /// Whether a node is one of the sources.
    pub fn is_source(&self, node: usize) -> bool
        requires { node < length self.now.is_source }
        ensures { result ≡ source_at self.now node }
    {
        self.is_source[node]
    }

    /// An arc to the sink.
    pub fn sink_arc(&self, node: usize) -> Option<u32>
        requires { node < length self.now.sink_arcs }
        ensures { result ≡ slice_index_or self.now.sink_arcs node None }
    {
        self.sink_arcs[node]
    }

    /// The other arcs of a node that is no source.
    pub fn inner(&self, node: usize) -> &[ArcNo]
        requires { node < length self.now.inner }
        ensures { result.now ≡ inner_at self.now node }
    {
        self.inner[node].all()
    }

    /// The arcs of the sources that are matched with a node.
    pub fn matched(&self, node: usize) -> &[u32]
        requires { node < length self.now.matched }
        ensures { result.now ≡ matched_at self.now node }
    {
        self.matched[node].all()
    }

    /// Follows a unit that was pushed along a path: a source's arc that the path takes is listed where it
    /// ends once it carries a unit, and is struck off once it carries none.
    pub fn follow<L: Layout>(
        &mut self,
        network: &Network<L>,
        path: &[ArcNo],
    ) -> Result<(), AllocError>
        requires sources { length self.old.is_source ≡ L.node_count network.now.layout }
        requires matched { length self.old.matched ≡ L.node_count network.now.layout }
        requires path { All (λ a. arc_index a < length network.now.arcs) path.now }
        ensures lists { self.new ≡ record self.old { matched = self.new.matched } }
        ensures size { length self.new.matched ≡ length self.old.matched }
        ensures matched { OnOk result ((flows : List ℕ) → network.now.flows ≡ pushed path.now flows
            → GoesOnce path.now → AreMatched network.now.arcs flows self.old
            → AreMatched network.now.arcs network.now.flows self.new) }
    {
        for arc in path {
            let (ends, flow) = carried(network, *arc);
            self.follow_arc(*arc, ends, flow)?;
        }
        Ok(())
    }

    // Follows the unit over one residual arc between these ends, which carries so many now.
    fn follow_arc(&mut self, arc: ArcNo, ends: FlowArc, flow: u64) -> Result<(), AllocError>
        requires from { ends.from < length self.old.is_source }
        requires to { ends.to < length self.old.matched }
        ensures lists { self.new ≡ record self.old { matched = self.new.matched } }
        ensures size { length self.new.matched ≡ length self.old.matched }
        ensures following { OnOk result ((arcs : List FlowArc) (last : List ℕ) (rest : List ArcNo)
            → arc_index arc < length arcs → ends ≡ arc_at arcs (arc_index arc)
            → flow ≡ slice_index last (arc_index arc)
            → IsFollowing arcs last (arc ∷ rest) self.old → IsFollowing arcs last rest self.new) }
    {
        if !self.is_source[ends.from as usize] {
            return Ok(());
        }
        match arc {
            ArcNo::Forward(k) => {
                if flow == 1 {
                    self.matched[ends.to as usize].enter(k)?;
                    return Ok(());
                }
                Ok(())
            }
            ArcNo::Reverse(k) => {
                if flow == 0 {
                    self.matched[ends.to as usize].leave(k);
                    return Ok(());
                }
                Ok(())
            }
        }
    }
}

// No source is matched with any of so many nodes.
fn none_matched(alloc: Global, nodes: usize) -> Result<Vec<MatchedArcs>, AllocError>
    ensures { IfOk result (λ s. s.items ≡ replicate nodes []) }
{
    let mut matched = Vec::with_capacity(alloc, nodes)?;
    for _node in 0..nodes {
        matched.push(MatchedArcs::new(alloc))?;
    }
    Ok(matched)
}

// All residual arcs of each of so many nodes.
fn all_leaving<L: Layout>(
    alloc: Global,
    meter: &Meter<L>,
    nodes: usize,
) -> Result<Vec<Leaving>, AllocError>
    requires { nodes ≡ L.node_count meter.now.network.layout }
    ensures size { IfOk result (λ l. length l.items ≡ nodes) }
    ensures each { IfOk result (λ l. (v : ℕ) → v < nodes
        → slice_index_or l.items v [] ≡ leaving_of meter.now.network.arcs v) }
{
    let mut lists = none_leaving(alloc, nodes)?;
    for node in 0..nodes {
        put_all(&mut lists[node], leaving(meter, node))?;
    }
    Ok(lists)
}

// Puts some arcs at the end of a list.
fn put_all(list: &mut Leaving, arcs: &[ArcNo]) -> Result<(), AllocError>
    ensures { OnOk result (list.new ≡ list.old ++ arcs.now) }
{
    for arc in arcs {
        list.put(*arc)?;
    }
    Ok(())
}

// The arc that a residual arc goes over, and how many units it carries.
fn carried<L: Layout>(network: &Network<L>, arc: ArcNo) -> (FlowArc, u64)
    requires { arc_index arc < length network.now.arcs }
    ensures arc { result.0 ≡ arc_at network.now.arcs (arc_index arc) }
    ensures units { result.1 ≡ slice_index network.now.flows (arc_index arc) }
    ensures from { result.0.from < L.node_count network.now.layout }
    ensures to { result.0.to < L.node_count network.now.layout }
{
    let k = number(arc);
    (network.all_arcs()[k], network.all_flows()[k])
}

// Its number.
fn number(arc: ArcNo) -> usize
    ensures { result ≡ arc_index arc }
{
    match arc {
        ArcNo::Forward(k) => k as usize,
        ArcNo::Reverse(k) => k as usize,
    }
}
