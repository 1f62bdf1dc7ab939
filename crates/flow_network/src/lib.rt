//! Networks whose arcs carry whole units of flow.
//!
//! A `Network` keeps arcs between the nodes of a layout, the flow of each, and for each node the residual
//! arcs that leave it. Its flow is always within the capacities, and `push` along a path keeps the balance
//! of every node but the ends. Arcs are seen by searches through a `Meter`, which counts its looks.
//! `laws` and the lemmas of `proofs/` carry what least-cost flow needs of pushes. Stands on `node_ids`.
#![tactic(auto)]

mod arcs;
mod kinds;
pub mod laws;
mod leaving;
mod meter;
mod network;

pub use arcs::{ArcNo, FlowArc};
pub use kinds::NetworkKind;
pub use leaving::{Leaving, none_leaving};
pub use meter::{Look, Meter};
pub use network::{NetError, Network};
