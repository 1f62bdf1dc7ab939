//! Lanes of orders: bounded queues that threads share.
//!
//! Each thread that puts orders into a lane or takes them has a `Pass`; more passes are made by `share`.
//! A put adds at the back and a take takes from the front, in one step each. Upward the layer promises:
//! an order that is not put comes back; where all passes come to `close`, each order was taken or is left
//! as often as it was put; and where one pass alone put and one alone took, what was taken and then what
//! is left is what was put, in its order. A pass that was never shared is told Full or None only where the
//! lane was full or empty; of a shared pass no clause says so, since a refusal leaves no trace in what the
//! passes know. `close` gives what is left with any pass, and without one gives the lane back. The rule
//! under which the threads' steps go together is `specs/Rule.antt`: what was sent is what was got, and then
//! what the lane holds. It stands on the ruled queue of `crossbeam_queue`, on `view_sums`, and on the texts
//! and runs of `word_map`, which an order carries.
//!
//! # How the layer above uses it
//! The calling thread makes the lane and shares its pass with the worker's thread. It puts and the worker
//! takes; at the end the worker's pass comes back by its join, and `close` takes both. A contract sees a
//! pass as `{ lane; puts; takes; depth }`. That no other pass was made is said by the depths: each
//! `share` halves a part, and the passes at hand are all where their parts make up the whole lane
//! (`AreWhole`: the first pass is whole, and sharing keeps it, by the laws of `laws`). The tests prove
//! this caller, whose `put_and_take` runs two threads, one that puts all orders and one that takes as
//! many:
//!
//! ```text
//! fn hand_over<R: Threads + Wait + Sync>(rt: &R, alloc: Global, orders: Vec<Order>) -> Option<Vec<Order>>
//!     ensures { IfSome result (λ taken. taken.items ≡ orders.items) }
//! {
//!     let taken = Vec::with_capacity(alloc, orders.len()).ok()?;
//!     let mut passes = Vec::with_capacity(alloc, 2).ok()?;
//!     let (lane, mut putter) = Lane::new(alloc, 2).ok()?;
//!     let taker = lane.share(&mut putter).ok()?;
//!     let (putter, taker, taken) = put_and_take(rt, &lane, putter, taker, orders, taken);
//!     passes.push_reserved(putter);
//!     passes.push_reserved(taker);
//!     match lane.close(rt, alloc, passes) {
//!         Ok(_) => Some(taken),
//!         Err(_) => None,
//!     }
//! }
//! ```
#![tactic(auto)]

pub mod lane;
pub mod laws;
pub mod order;
mod view;

pub use lane::{CloseRefused, Full, Lane, Pass, Tally};
pub use order::Order;

/// How many orders a lane holds at most.
pub const MAX_CAPACITY: usize = 512;
