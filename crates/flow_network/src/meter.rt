//! A network that counts how many of its arcs are looked at.
ghost use Rattle.std.specs.Prelude.{◌≡◌, ℕ, ◌+◌, ◌<◌, ◌^◌, length, true};
ghost use Rattle.flow_network.specs.Flows.{arc_index, head_of, residual_of, cost_of, leaving_of, IsNetwork};
ghost use Rattle.flow_network.specs.Flow.{Counted};

use crate::{ArcNo, Network};
use node_ids::Layout;
use std::marker::Model;

/// What is seen of a residual arc: the index of the node to which it leads, how many units it takes, and the
/// cost of one, which is below 0 where a unit is taken back.
#[derive(Clone, Copy, Debug)]
pub struct Look {
    pub to: usize,
    pub residual: u64,
    pub cost: i64,
}

/// A network whose arcs are looked at one by one, and counted.
#[derive(Drop)]
pub struct Meter<'a, L: Layout> {
    network: &'a Network<L>,
    count: u64,
}

impl<'a, L: Layout> Model for Meter<'a, L> {
    ghost Value = { Counted L };

    ghost view = { λ m. record { network = m.network.now; count = m.count } };
}

impl<'a, L: Layout> Meter<'a, L> {
    /// No arc was looked at yet.
    pub fn new(network: &'a Network<L>) -> Self
        ensures network { result.network ≡ network.now }
        ensures count { result.count ≡ 0 }
    {
        Meter { network, count: 0 }
    }

    /// How many arcs were looked at.
    pub fn count(&self) -> u64
        ensures { result ≡ self.now.count }
    {
        self.count
    }

    /// The numbering of the nodes.
    pub fn layout(&self) -> &'a L
        ensures value { result.now ≡ self.now.network.layout }
        ensures limits { IsNetwork (L.node_count self.now.network.layout) self.now.network.arcs
            self.now.network.flows }
    {
        self.network.layout()
    }

    /// The residual arcs that leave a node, of those with no room too.
    pub fn arcs_from(&self, node: L::Node) -> &'a [ArcNo]
        requires { L.is_member self.now.network.layout node ≡ true }
        ensures { result.now ≡ leaving_of self.now.network.arcs (L.index_of self.now.network.layout node) }
    {
        self.network.arcs_from(node)
    }

    /// Looks at a residual arc, and counts the look. There is no other way to an arc through a meter.
    pub fn look(&mut self, arc: ArcNo) -> Look
        requires count { self.old.count + 1 < 2 ^ 64 }
        requires listed { arc_index arc < length self.old.network.arcs }
        ensures to { result.to ≡ head_of self.old.network.arcs arc }
        ensures residual { result.residual ≡ residual_of self.old.network.arcs self.old.network.flows arc }
        ensures cost { result.cost ≡ cost_of self.old.network.arcs arc }
        ensures counted { self.new ≡ record self.old { count = self.old.count + 1 } }
    {
        self.count += 1;
        self.network.view(arc)
    }
}
