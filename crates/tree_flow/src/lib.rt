//! A plan of a wave as a flow over the tree of its cluster: what such a state is, and which steps keep it.
//!
//! A split stands on a node of the tree, from which its unit goes down to a worker, or it waits. Depths of
//! the nodes show that no other choice is cheaper. Upward the crate promises laws: prices read off a state
//! certify its plan (`engine_certifies`), and each step of a search, each slot that comes or goes and each
//! change of the splits keeps the state. It stands on `wave_problem` and the certificate of
//! `price_certificate`.
#![tactic(auto)]

mod laws;
mod node_table;
mod nodes;

pub use laws::{engine_certifies, lowers, moves, raises, slots, unit_goes_on};
pub use node_table::NodeTable;
pub use nodes::{End, Place, TreeNode};
