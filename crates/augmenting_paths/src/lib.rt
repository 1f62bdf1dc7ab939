//! Ships one unit from each source to the sink, at the least total cost.
//!
//! `saturate` augments along one least path after the other and answers the potentials under which no
//! residual arc has a negative reduced cost, so that its flow is a cheapest one; `can_ship` tests what it
//! requires. Only a source's own arc and one more to the sink are asked of the network, and this is why
//! every unit finds a path. Stands on `shortest_paths`, for the layers that read plans and prices off flows
//! and potentials.
#![tactic(auto)]

mod augment;
mod order;
mod requirements;
mod straight;
mod trail;

pub use augment::saturate;
pub use requirements::{MAX_SOURCES, can_ship};
