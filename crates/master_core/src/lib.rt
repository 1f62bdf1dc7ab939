//! The master of a job: a state machine whose every call is one event of its definition.
//!
//! Upward it promises, in the words of `master_state`: a call is ignored for the first reason that applies,
//! and then changes nothing; or it is accepted as the next event. Each history is legal and leads to the
//! present state. Only calls with an allocator take memory. It stands on the tables of `master_tables`.
#![tactic(auto)]

pub mod ahead;
mod attempts;
pub mod cluster;
mod finished;
mod holders;
mod inputs;
mod kept;
mod kept_plan;
mod lists;
pub mod master;
mod piles;
mod reducing;
mod touched;

pub use ahead::Ahead;
pub use cluster::{Cluster, ClusterError};
pub use finished::{are_parts_done, index_of};
pub use holders::first_holders;
pub use master::Master;
pub use master_state::{
    Answer, Attempt, CommitError, Event, Glance, Limits, PartState, Reply, SplitState, Start, Wave,
    Why, Work,
};
pub use piles::Piles;
