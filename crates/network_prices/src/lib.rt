//! What a network of a wave has to offer, so that a plan and prices read off its flows are right.
//!
//! A network is seen by its nodes: each worker's, the way up from there to the root, that of the splits
//! which are not started, the sink. Upward the layer promises that units are handed on to where the flow
//! takes them, and laws, whatever nodes hang above the workers: admissible assignments are flows and flows
//! are assignments, the prices read off the potentials certify the plan read off a least-cost flow, and what
//! prices certify is read off one. The price of a split is the same for all of them (`split_prices`). Stands
//! on the flows of `augmenting_paths` and on `price_certificate`.
#![tactic(auto)]

mod decomposing;
mod laws;
mod planning;
mod pricing;
mod reading;
mod splits;
mod wave_network;

pub use decomposing::decompose_flow;
pub use laws::{
    assignment_is_flow, certified_is_read_off, cheapest_costs_as_plan, flow_is_assignment,
    prices_certify,
};
pub use planning::priced_plan;
pub use pricing::prices_of;
pub use reading::{plan_of, read_plan};
pub use splits::{pending_count, split_prices};
pub use wave_network::WaveNetwork;
