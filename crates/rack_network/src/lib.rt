//! The network of a wave with nodes for the racks, for the data centres and for the cluster.
//!
//! A split without barred pairs gives its unit to the holders that have a slot, to their racks, to their data
//! centres or to the cluster, so that a few arcs for each holder leave it, not one for each worker. With one
//! centre, its node takes the cluster's place. `build` makes the network of a small problem: of at most
//! `MAX_SPLITS` splits, `MAX_WORKERS` workers, `MAX_RACKS` racks, `MAX_CENTRES` data centres and `MAX_SLOTS`
//! free slots. Upward the layer promises that it is a `WaveNetwork`, off whose flows `plan_of` reads a plan.
//! Each wave, of whatever size, has such a network, and what prices certify is read off it. Waves are planned
//! over the tree and not over this network, so it is built the plainest way. Stands on `network_prices`.
#![tactic(auto)]

mod arcs;
mod laws;
mod layout;
mod levels;
mod network;
mod wave_network;

pub use arcs::RackArc;
pub use laws::{certified_is_over_racks, rack_is_wave_network};
pub use layout::{RackLayout, RackNode};
pub use network::{MAX_ARCS, MAX_CENTRES, MAX_RACKS, MAX_SLOTS, MAX_SPLITS, MAX_WORKERS, build};
pub use network_prices::plan_of;
