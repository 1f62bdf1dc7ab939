//! A flow is taken apart into the ways of its units.
ghost use Rattle.std.specs.Prelude.{◌≡◌, ℕ, ◌<◌, ◌≤◌, ◌↔◌, length, slice_index, IsTrue};
ghost use Rattle.augmenting_paths.specs.Shipping.{standing};
ghost use Rattle.network_prices.specs.HandOn.{CanHandOn, IsHandedOn, IsMoved};

use flow_network::FlowArc;

/// Hands units on, arc by arc, as far as the last node before the sink (flow decomposition; Ahuja, Magnanti
/// and Orlin, Network Flows, section 3.5). There is one place for each unit: the node at which it is. It
/// takes about as many steps as there are arcs, and one for each place at an arc that carries several units.
pub fn decompose_flow(places: &mut [usize], arcs: &[FlowArc], flows: &[u64], sink: usize)
    requires { CanHandOn arcs.now flows.now sink places.old }
    ensures { IsHandedOn arcs.now flows.now sink places.old places.new (length arcs.now) }
{
    for k in 0..arcs.len() {
        hand_on(places, &arcs[k], flows[k], sink);
    }
}

// Hands so many units on over an arc that does not lead to the sink.
fn hand_on(places: &mut [usize], arc: &FlowArc, units: u64, sink: usize)
    requires units { (arc.now.to ≡ sink → ⊥) → units ≤ standing places.old arc.now.from }
    requires apart { arc.now.from ≡ arc.now.to → ⊥ }
    ensures on { (arc.now.to ≡ sink → ⊥) → IsMoved places.old places.new arc.now.from arc.now.to units }
    ensures stay { arc.now.to ≡ sink → places.new ≡ places.old }
{
    if arc.to as usize != sink {
        move_units(places, arc.from as usize, arc.to as usize, units);
    }
}

// Moves so many of the units that are at a node to another. The unit of the place that is numbered as the
// node, as each split's is at first, is moved alone where one is to go.
fn move_units(places: &mut [usize], from: usize, to: usize, units: u64)
    requires units { units ≤ standing places.old from }
    requires apart { from ≡ to → ⊥ }
    ensures { IsMoved places.old places.new from to units }
{
    if units == 1 && is_at(places, from) {
        move_one(places, from, to);
    } else {
        move_first_units(places, from, to, units);
    }
}

// Whether the unit of the place that is numbered as a node is at that node.
fn is_at(places: &[usize], node: usize) -> bool
    ensures { IsTrue result ↔ ((node < length places.now) × (slice_index places.now node ≡ node)) }
{
    node < places.len() && places[node] == node
}

// Moves that unit.
fn move_one(places: &mut [usize], from: usize, to: usize)
    requires place { from < length places.old }
    requires at { slice_index places.old from ≡ from }
    ensures { (units : ℕ) → units ≡ 1 → IsMoved places.old places.new from to units }
{
    places[from] = to;
}

// The same, of the units of the first places.
fn move_first_units(places: &mut [usize], from: usize, to: usize, units: u64)
    requires units { units ≤ standing places.old from }
    requires apart { from ≡ to → ⊥ }
    ensures { IsMoved places.old places.new from to units }
{
    let mut left = units;
    for i in 0..places.len() {
        if left == 0 {
            return;
        }
        if places[i] == from {
            places[i] = to;
            left -= 1;
        }
    }
}
