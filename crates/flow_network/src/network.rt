//! The network: a layout of nodes, arcs between them, and the flow of each arc.
ghost use Rattle.std.specs.Prelude.{◌≡◌, ℕ, ◌+◌, ◌-◌, ◌*◌, ◌<◌, ◌≤◌, ◌^◌, List, [], ◌∷◌, ◌++◌, length, pos};
ghost use Rattle.std.specs.Prelude.{◌-ℤ◌, OnOk, OnErr, ◌↔◌, IfOk, IfErr, slice_index, true, vec_len, All};
ghost use Rattle.flow_network.specs.Flows.{tail_of, head_of, residual_of, arc_index, arc_at, IsResidual};
ghost use Rattle.flow_network.specs.Flows.{IsPath, IsDistinct, pushed, inflow, outflow, unit_at, opposite};
ghost use Rattle.flow_network.specs.Flows.{WithinCapacities, AreArcs, path_start, path_end};
ghost use Rattle.flow_network.specs.Flows.{leaving_of, cost_of, IsNetwork};
ghost use Rattle.flow_network.specs.Flow.{Flow, IsFlow};

use crate::leaving::{Leaving, list_arc, none_leaving};
use crate::{ArcNo, FlowArc, Look};
use node_ids::Layout;
use std::alloc::{AllocError, AllocFailed, Global};
use std::marker::Model;

/// Why an arc is not added.
#[derive(Debug, Drop, thiserror::Error)]
pub enum NetError {
    /// There is no memory for the arc or its places in the lists.
    #[error("no memory")]
    Memory,
    /// The network has 1,048,576 arcs already; this is tested first.
    #[error("too many arcs")]
    ArcLimit,
}

const MAX_ARCS: usize = 1_048_576;

/// A network of at most 4,096 nodes, those of the layout, with arcs and a flow of whole units.
#[derive(Drop)]
pub struct Network<L: Layout> {
    layout: L,
    arcs: Vec<FlowArc>,
    flows: Vec<u64>,
    leaving: Vec<Leaving>,
}

impl<L: Layout> Model for Network<L> {
    ghost Value = { Flow L };

    ghost view = { λ n. record { layout = n.layout; arcs = n.arcs.items; flows = n.flows.items } };

    ghost invariant = { λ n. IsFlow (L.node_count n.layout) n.arcs.items n.flows.items n.leaving.items };
}

impl<L: Layout> Network<L> {
    /// A network without arcs.
    pub fn new(alloc: Global, layout: L) -> Result<Self, AllocError>
    where
        L: Drop,
        requires { L.node_count layout ≤ 4096 }
        ensures layout { IfOk result (λ n. n.layout ≡ layout) }
        ensures arcs { IfOk result (λ n. n.arcs ≡ []) }
        ensures flows { IfOk result (λ n. n.flows ≡ []) }
    {
        let leaving = none_leaving(alloc, layout.size())?;
        Ok(Network {
            layout,
            arcs: Vec::new(alloc),
            flows: Vec::new(alloc),
            leaving,
        })
    }

    /// The numbering of the nodes.
    pub fn layout(&self) -> &L
        ensures value { result.now ≡ self.now.layout }
        ensures limits { IsNetwork (L.node_count self.now.layout) self.now.arcs self.now.flows }
    {
        &self.layout
    }

    /// How many arcs there are, not counting their reverses.
    pub fn arcs(&self) -> usize
        ensures { result ≡ length self.now.arcs }
    {
        self.arcs.len()
    }

    /// The units that an arc carries. A reverse arc has the flow of its arc.
    pub fn flow(&self, arc: ArcNo) -> u64
        requires { arc_index arc < length self.now.arcs }
        ensures { result ≡ slice_index self.now.flows (arc_index arc) }
    {
        match arc {
            ArcNo::Forward(k) => self.flows[k as usize],
            ArcNo::Reverse(k) => self.flows[k as usize],
        }
    }

    /// The residual arcs that leave a node, of those with no room too, in the order of adding.
    pub fn arcs_from(&self, node: L::Node) -> &[ArcNo]
        requires { L.is_member self.now.layout node ≡ true }
        ensures { result.now ≡ leaving_of self.now.arcs (L.index_of self.now.layout node) }
    {
        self.leaving[self.layout.index(node)].all()
    }

    /// The arcs, by their numbers.
    pub fn all_arcs(&self) -> &[FlowArc]
        ensures value { result.now ≡ self.now.arcs }
        ensures limits { IsNetwork (L.node_count self.now.layout) self.now.arcs self.now.flows }
    {
        &self.arcs
    }

    /// The flows, by the numbers of their arcs.
    pub fn all_flows(&self) -> &[u64]
        ensures { result.now ≡ self.now.flows }
    {
        &self.flows
    }

    /// What is seen of a residual arc.
    pub fn view(&self, arc: ArcNo) -> Look
        requires { arc_index arc < length self.now.arcs }
        ensures to { result.to ≡ head_of self.now.arcs arc }
        ensures residual { result.residual ≡ residual_of self.now.arcs self.now.flows arc }
        ensures cost { result.cost ≡ cost_of self.now.arcs arc }
    {
        match arc {
            ArcNo::Forward(k) => {
                let seen = self.arcs[k as usize];
                Look {
                    to: seen.to as usize,
                    residual: seen.capacity as u64 - self.flows[k as usize],
                    cost: seen.cost as i64,
                }
            }
            ArcNo::Reverse(k) => {
                let seen = self.arcs[k as usize];
                Look {
                    to: seen.from as usize,
                    residual: self.flows[k as usize],
                    cost: -(seen.cost as i64),
                }
            }
        }
    }

    /// How many units more an arc takes.
    pub fn residual(&self, arc: ArcNo) -> u64
        requires { arc_index arc < length self.now.arcs }
        ensures { result ≡ residual_of self.now.arcs self.now.flows arc }
    {
        match arc {
            ArcNo::Forward(k) => self.arcs[k as usize].capacity as u64 - self.flows[k as usize],
            ArcNo::Reverse(k) => self.flows[k as usize],
        }
    }

    /// The arc that takes a unit back.
    pub fn reverse(&self, arc: ArcNo) -> ArcNo
        ensures { result ≡ opposite arc }
    {
        match arc {
            ArcNo::Forward(k) => ArcNo::Reverse(k),
            ArcNo::Reverse(k) => ArcNo::Forward(k),
        }
    }

    /// What flows into a node, less what flows out of it.
    pub fn excess(&self, node: L::Node) -> i64
        requires { L.is_member self.now.layout node ≡ true }
        ensures { let v = L.index_of self.now.layout node in
            result ≡ pos (inflow self.now.arcs self.now.flows v) -ℤ pos
            (outflow self.now.arcs self.now.flows v) }
    {
        let index = self.layout.index(node);
        let (gained, given) = flows_at(&self.arcs, &self.flows, index);
        gained as i64 - given as i64
    }

    /// Pushes one unit along a path of at least one arc, no arc twice, each with room.
    pub fn push(&mut self, path: &[ArcNo])
        requires some_arc { 0 < length path.now }
        requires distinct { IsDistinct path.now }
        requires path { IsPath self.old.arcs self.old.flows path.now (path_start self.old.arcs path.now)
            (path_end self.old.arcs path.now) }
        ensures pushed { self.new ≡ record self.old { flows = pushed path.now self.old.flows } }
        // a unit leaves the start and comes to the end; each other node keeps its balance
        ensures balance { (w : ℕ) → inflow self.old.arcs self.new.flows w
            + outflow self.old.arcs self.old.flows w + unit_at (path_start self.old.arcs path.now) w
            ≡ inflow self.old.arcs self.old.flows w + outflow self.old.arcs self.new.flows w + unit_at
            (path_end self.old.arcs path.now) w }
        ensures limits { IsNetwork (L.node_count self.new.layout) self.new.arcs self.new.flows }
    {
        self.push_along(path);
    }

    // `push`, without what it says of balances.
    fn push_along(&mut self, path: &[ArcNo])
        requires distinct { IsDistinct path.now }
        requires path { IsPath self.old.arcs self.old.flows path.now (path_start self.old.arcs path.now)
            (path_end self.old.arcs path.now) }
        ensures pushed { self.new ≡ record self.old { flows = pushed path.now self.old.flows } }
        ensures sizes { length self.old.flows ≡ length self.old.arcs }
        ensures limits { IsNetwork (L.node_count self.new.layout) self.new.arcs self.new.flows }
    {
        push_units(&self.arcs, &mut self.flows, path);
    }

    /// Takes memory for so many arcs more that leave a node or lead to it, at once. That changes nothing.
    pub fn make_room(&mut self, node: L::Node, arcs: usize) -> Result<(), AllocError>
        requires { L.is_member self.old.layout node ≡ true }
        ensures { self.new ≡ self.old }
    {
        let index = self.layout.index(node);
        self.leaving[index].make_room(arcs)?;
        Ok(())
    }

    /// Reserves memory for `arcs` more arcs, except in the nodes' lists. The network stays the same.
    pub fn reserve(&mut self, arcs: usize) -> Result<(), AllocError>
        ensures { self.new ≡ self.old }
    {
        self.arcs.reserve(arcs)?;
        self.flows.reserve(arcs)?;
        Ok(())
    }

    /// Adds an arc, which carries nothing at first. A refused call leaves the network as it was.
    #[inline(always)]
    pub fn add_arc(
        &mut self,
        from: L::Node,
        to: L::Node,
        capacity: u64,
        cost: u64,
    ) -> Result<ArcNo, NetError>
        requires from { L.is_member self.old.layout from ≡ true }
        requires to { L.is_member self.old.layout to ≡ true }
        requires capacity { capacity ≤ 4096 }
        requires cost { cost < 2 ^ 47 }
        ensures arc { IfOk result (λ a. a ≡ ArcNo.Forward (length self.old.arcs)) }
        ensures arcs { OnOk result (self.new ≡ record self.old {
          arcs = self.old.arcs ++ record {
            from = L.index_of self.old.layout from;
            to = L.index_of self.old.layout to;
            capacity = capacity;
            cost = cost;
          } ∷ [];
          flows = self.old.flows ++ 0 ∷ [];
        }) }
        ensures err { OnErr result (self.new ≡ self.old) }
        ensures limit { IfErr result (λ e. (e ≡ NetError.ArcLimit) ↔ (length self.old.arcs ≡ 1048576)) }
    {
        let from = self.layout.index(from);
        let to = self.layout.index(to);
        self.add_between(FlowArc {
            from: from as u16,
            to: to as u16,
            capacity: capacity as u16,
            cost,
        })
    }

    /// The same between the nodes of these indices.
    #[inline(always)]
    pub fn add_between(&mut self, arc: FlowArc) -> Result<ArcNo, NetError>
        requires from { arc.from < L.node_count self.old.layout }
        requires to { arc.to < L.node_count self.old.layout }
        requires capacity { arc.capacity ≤ 4096 }
        requires cost { arc.cost < 2 ^ 47 }
        ensures arc { IfOk result (λ a. a ≡ ArcNo.Forward (length self.old.arcs)) }
        ensures arcs { OnOk result (self.new ≡ record self.old {
          arcs = self.old.arcs ++ arc ∷ [];
          flows = self.old.flows ++ 0 ∷ [];
        }) }
        ensures err { OnErr result (self.new ≡ self.old) }
        ensures limit { IfErr result (λ e. (e ≡ NetError.ArcLimit) ↔ (length self.old.arcs ≡ 1048576)) }
    {
        if self.arcs.len() >= MAX_ARCS {
            return Err(NetError::ArcLimit);
        }
        let number = self.arcs.len();
        if self.arcs.push(arc).is_err() {
            return Err(NetError::Memory);
        }
        if self.flows.push(0).is_err() {
            self.arcs.truncate(number);
            return Err(NetError::Memory);
        }
        match list_arc(
            &mut self.leaving,
            arc.from as usize,
            arc.to as usize,
            number as u32,
        ) {
            Ok(()) => Ok(ArcNo::Forward(number as u32)),
            Err(_) => {
                self.arcs.truncate(number);
                self.flows.truncate(number);
                Err(NetError::Memory)
            }
        }
    }
}

// Moves one unit over each arc of a path.
fn push_units(arcs: &[FlowArc], flows: &mut [u64], path: &[ArcNo])
    requires arcs { AreArcs 4096 arcs.now }
    requires sizes { length flows.old ≡ length arcs.now }
    requires within { WithinCapacities arcs.now flows.old }
    requires distinct { IsDistinct path.now }
    requires residual { All (IsResidual arcs.now flows.old) path.now }
    ensures moved { flows.new ≡ pushed path.now flows.old }
    ensures within { WithinCapacities arcs.now flows.new }
{
    for arc in path {
        match *arc {
            ArcNo::Forward(k) => flows[k as usize] += 1,
            ArcNo::Reverse(k) => flows[k as usize] -= 1,
        }
    }
}

// What flows into a node, and what flows out of it.
fn flows_at(arcs: &[FlowArc], flows: &[u64], node: usize) -> (u64, u64)
    requires arcs { AreArcs 4096 arcs.now }
    requires limit { length arcs.now ≤ 1048576 }
    requires sizes { length flows.now ≡ length arcs.now }
    requires within { WithinCapacities arcs.now flows.now }
    ensures inflow { result.0 ≡ inflow arcs.now flows.now node }
    ensures outflow { result.1 ≡ outflow arcs.now flows.now node }
    ensures bound { (result.0 ≤ 4096 * 1048576) × (result.1 ≤ 4096 * 1048576) }
{
    let (mut gained, mut given) = (0, 0);
    for k in 0..arcs.len() {
        if arcs[k].to as usize == node {
            gained += flows[k];
        }
        if arcs[k].from as usize == node {
            given += flows[k];
        }
    }
    (gained, given)
}
