//! A plan of a wave, kept as a flow over the tree of its cluster.
//!
//! A split stands on a node of the tree, from which its unit goes down to a worker, or it waits. Depths of
//! the nodes show that no other choice is cheaper, so that prices read off them certify the plan. Upward the
//! crate promises that `plan` finds a best plan with prices that certify it, and that `Engine` keeps one
//! while splits start, slots come back and the wave changes: after an event and `settle` its plan is best for
//! the wave that it then stands for. It stands on `tree_flow`, `wave_problem` and the certificate of
//! `price_certificate`.
#![tactic(auto)]

mod back;
mod children;
mod choice;
mod copies;
mod covers;
mod cursors;
mod down;
mod engine;
mod events;
mod follow;
mod going;
mod hand_down;
mod hints;
mod keeping;
mod kept;
mod like;
mod lists;
mod lose;
mod lows;
mod nearest;
mod order;
mod over;
mod prices;
mod reached;
mod refill;
mod renewed;
mod search;
mod split_ends;
mod tables;
mod tree_nodes;
mod turn;

pub use engine::{Found, plan, plan_places};
pub use kept::Engine;
