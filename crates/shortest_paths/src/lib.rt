//! Least paths over the residual arcs of a network.
//!
//! `Potentials` give each arc its reduced cost. One search settles nodes nearest first, by std's heap, and
//! follows arcs of reduced cost 0 depth first, with at most two looks an arc. `Buffers` search to a sink,
//! over `ResidualArcs`, which leave out the sources whose units go elsewhere. `distances` and `distances_by`
//! answer for each node the least reduced cost of a residual path and a path, by that search over all arcs.
//! Stands on `flow_network`, for the layers that ship units.
#![tactic(auto)]

mod arrival;
mod found;
mod least;
mod matched_arcs;
mod potentials;
mod pricing;
mod query;
mod queue;
mod reached;
mod reduced_costs;
mod residual_arcs;
mod search;
mod sorted_arcs;

pub use found::{Buffers, Found};
pub use least::{distances, distances_by};
pub use potentials::Potentials;
pub use pricing::has_no_negative;
pub use query::Query;
pub use reached::Distances;
pub use reduced_costs::leaving;
pub use residual_arcs::ResidualArcs;
