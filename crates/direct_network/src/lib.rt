//! The network of a wave with an arc from each pending split to each worker on which it may start.
//!
//! `build` makes the network of a problem of at most `MAX_SPLITS` splits and `MAX_WORKERS` workers. Upward
//! the layer promises that it is a `WaveNetwork`: `plan_of` and `prices_of` read a plan and its prices off a
//! least-cost flow, and `priced_plan` is the three with the flow between. Stands on `network_prices`, beside
//! `rack_network`.
#![tactic(auto)]

mod arcs;
mod laws;
mod layout;
mod marks;
mod network;
mod wave_network;

pub use arcs::{DirectArc, MAX_ARCS};
pub use laws::direct_is_wave_network;
pub use layout::{DirectLayout, DirectNode};
pub use network::{MAX_SPLITS, MAX_WORKERS, build};
pub use network_prices::{plan_of, priced_plan, prices_of};
