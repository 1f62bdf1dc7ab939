//! A path over which a unit costs nothing more, by a search that goes depth first over tight arcs.
ghost use Rattle.std.specs.Prelude.{◌≡◌, ℕ, ◌+◌, ◌<◌, ◌≤◌, length, slice_index, slice_set, IfOk, IfSome};
ghost use Rattle.std.specs.Prelude.{IsTrue, All, true};
ghost use Rattle.flow_network.specs.Flows.{arc_index, head_of, tail_of, AreArcs};
ghost use Rattle.shortest_paths.specs.Search.{MaySearch};
ghost use Rattle.augmenting_paths.specs.TightPath.{FindsTight};
ghost use Rattle.augmenting_paths.specs.DepthFirst.{HasNodes, IsOf, IsOpenArc, GoesOn};

use crate::straight::is_tight;
use flow_network::{ArcNo, FlowArc, Meter, Network};
use node_ids::Layout;
use shortest_paths::{Potentials, Query, leaving};
use std::alloc::{AllocError, Global};

/// The closed nodes and the cursors of a depth-first search over tight arcs. A closed node is on the current
/// path, or was searched without reaching the sink. It stays closed until the potentials change; lifting a
/// source does not reopen it.
#[derive(Drop)]
pub struct Trail {
    closed: Vec<bool>,
    // each node's cursor: how many of its arcs are still to be looked at, or any greater number
    left: Vec<usize>,
}

impl Trail {
    /// So many nodes, none of them closed.
    pub fn new(alloc: Global, nodes: usize) -> Result<Trail, AllocError>
        ensures { IfOk result (λ t. HasNodes nodes t) }
    {
        Ok(Trail {
            closed: vec![in alloc; false; nodes]?,
            left: vec![in alloc; 0; nodes]?,
        })
    }

    /// Opens all nodes.
    pub fn open_all(&mut self)
        ensures { (nodes : ℕ) → HasNodes nodes self.old → HasNodes nodes self.new }
    {
        self.closed.fill(false);
    }

    /// Searches depth first, over tight arcs, for a path from the query's start to its sink. If there is one,
    /// its nodes are open again. The search enters each node at most once and looks at each of its arcs at
    /// most once. Only the arc to the sink is tested each time the search is at the node.
    pub fn search<L: Layout>(
        &mut self,
        network: &Network<L>,
        query: &Query,
        path: &mut Vec<ArcNo>,
    ) -> Result<bool, AllocError>
        requires may { MaySearch L.node_count network.now query.now }
        requires nodes { HasNodes (length query.now.potentials.now) self.old }
        ensures nodes { HasNodes (length query.now.potentials.now) self.new }
        ensures tight { IfOk result (FindsTight network.now query.now path.new.items) }
    {
        path.clear();
        self.enter(query.start);
        let mut top = query.start;
        // (each node is entered once, and left once)
        for _turn in 0..2 * self.closed.len() {
            if top == query.sink {
                self.closed[query.start] = false;
                open_ends(&mut self.closed, network, path);
                return Ok(true);
            }
            match self.next(network, query, top) {
                Some(arc) => {
                    path.push(arc)?;
                    top = network.view(arc).to;
                    self.enter(top);
                }
                None => {
                    let Some(arc) = path.pop() else {
                        return Ok(false);
                    };
                    top = tail(network.all_arcs(), arc);
                }
            }
        }
        Ok(false)
    }

    // Closes a node, with all its arcs still to be looked at.
    fn enter(&mut self, node: usize)
        requires closed { node < length self.old.closed.items }
        requires left { node < length self.old.left.items }
        ensures closed { self.new.closed.items ≡ slice_set self.old.closed.items node true }
        ensures left { length self.new.left.items ≡ length self.old.left.items }
    {
        self.closed[node] = true;
        self.left[node] = usize::MAX;
    }

    // The next of a node's arcs that goes on, from the last to the first: a source's own, or else that to the
    // sink, the inner ones, and then those back to matched sources.
    fn next<L: Layout>(&mut self, network: &Network<L>, query: &Query, node: usize) -> Option<ArcNo>
        requires may { MaySearch L.node_count network.now query.now }
        requires nodes { HasNodes (length query.now.potentials.now) self.old }
        requires node { node < length query.now.potentials.now }
        ensures left { self.new ≡ record self.old { left = self.new.left } }
        ensures size { length self.new.left.items ≡ length self.old.left.items }
        ensures goes_on { IfSome result (λ a. GoesOn network.now.arcs network.now.flows
            (slice_index query.now.potentials.now) self.old.closed.items node a) }
    {
        if query.lists.is_source(node) {
            let meter = Meter::new(network);
            return self.next_of(network, query.potentials, leaving(&meter, node), &[], node);
        }
        if let Some(k) = query.lists.sink_arc(node)
            && self.is_open(network, query.potentials, ArcNo::Forward(k))
        {
            return Some(ArcNo::Forward(k));
        }
        self.next_of(
            network,
            query.potentials,
            query.lists.inner(node),
            query.lists.matched(node),
            node,
        )
    }

    // The next of these arcs of a node, or of those back over the arcs with these numbers.
    fn next_of<L: Layout>(
        &mut self,
        network: &Network<L>,
        potentials: &Potentials,
        inner: &[ArcNo],
        matched: &[u32],
        node: usize,
    ) -> Option<ArcNo>
        requires size { length potentials.now ≡ L.node_count network.now.layout }
        requires nodes { HasNodes (length potentials.now) self.old }
        requires node { node < length potentials.now }
        requires inner { All (IsOf network.now.arcs node) inner.now }
        requires matched { (i : ℕ) → i < length matched.now
            → IsOf network.now.arcs node (ArcNo.Reverse (slice_index matched.now i)) }
        ensures left { self.new ≡ record self.old { left = self.new.left } }
        ensures size { length self.new.left.items ≡ length self.old.left.items }
        ensures goes_on { IfSome result (λ a. GoesOn network.now.arcs network.now.flows
            (slice_index potentials.now) self.old.closed.items node a) }
    {
        let most = self.left[node].min(matched.len().saturating_add(inner.len()));
        let Some((arc, left)) = self.find(network, potentials, inner, matched, node, most) else {
            self.left[node] = 0;
            return None;
        };
        self.left[node] = left;
        Some(arc)
    }

    // The last of these arcs that goes on, of so many of the matched ones and then the others; and how many
    // come before it.
    fn find<L: Layout>(
        &self,
        network: &Network<L>,
        potentials: &Potentials,
        inner: &[ArcNo],
        matched: &[u32],
        node: usize,
        most: usize,
    ) -> Option<(ArcNo, usize)>
        requires size { length potentials.now ≡ L.node_count network.now.layout }
        requires nodes { HasNodes (length potentials.now) self.now }
        requires inner { All (IsOf network.now.arcs node) inner.now }
        requires matched { (i : ℕ) → i < length matched.now
            → IsOf network.now.arcs node (ArcNo.Reverse (slice_index matched.now i)) }
        requires most { most ≤ length matched.now + length inner.now }
        ensures { IfSome result (λ pair. GoesOn network.now.arcs network.now.flows
            (slice_index potentials.now) self.now.closed.items node pair.0) }
    {
        let mut left = most;
        while left > 0 {
            left -= 1;
            let arc = if left < matched.len() {
                ArcNo::Reverse(matched[left])
            } else {
                inner[left - matched.len()]
            };
            if self.is_open(network, potentials, arc) {
                return Some((arc, left));
            }
        }
        None
    }

    // Whether an arc has room, costs nothing under the potentials, and does not lead to a closed node.
    #[inline(always)]
    fn is_open<L: Layout>(&self, network: &Network<L>, potentials: &Potentials, arc: ArcNo) -> bool
        requires size { length potentials.now ≡ L.node_count network.now.layout }
        requires nodes { length self.now.closed.items ≡ length potentials.now }
        requires listed { arc_index arc < length network.now.arcs }
        ensures { IsTrue result → IsOpenArc network.now.arcs network.now.flows (slice_index potentials.now)
            self.now.closed.items arc }
    {
        !self.closed[head(network.all_arcs(), arc)] && is_tight(network, potentials, arc)
    }
}

// Opens the nodes to which the arcs of a path lead.
fn open_ends<L: Layout>(closed: &mut [bool], network: &Network<L>, path: &[ArcNo])
    requires size { length closed.old ≡ L.node_count network.now.layout }
    requires arcs { AreArcs (L.node_count network.now.layout) network.now.arcs }
    requires path { All (λ a. arc_index a < length network.now.arcs) path.now }
    ensures { length closed.new ≡ length closed.old }
{
    for arc in path {
        closed[network.view(*arc).to] = false;
    }
}

// The node to which a residual arc leads.
fn head(arcs: &[FlowArc], arc: ArcNo) -> usize
    requires { arc_index arc < length arcs.now }
    ensures { result ≡ head_of arcs.now arc }
{
    match arc {
        ArcNo::Forward(k) => arcs[k as usize].to as usize,
        ArcNo::Reverse(k) => arcs[k as usize].from as usize,
    }
}

// The node that a residual arc leaves.
fn tail(arcs: &[FlowArc], arc: ArcNo) -> usize
    requires { arc_index arc < length arcs.now }
    ensures { result ≡ tail_of arcs.now arc }
{
    match arc {
        ArcNo::Forward(k) => arcs[k as usize].from as usize,
        ArcNo::Reverse(k) => arcs[k as usize].to as usize,
    }
}
