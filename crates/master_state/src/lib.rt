//! The master of a job as a state machine: what its calls change, and when each is refused.
//!
//! `specs/` says what a cluster and a state are, the reasons of each call in the order in which they are
//! tested, the change of each event, what a legal history is, and what a caller is promised by an answer.
//! Upward the layer gives these words and the values below to the master itself. It stands on the tables
//! of `worker_table` and `block_map`, the problem of `wave_problem` and the results of `shuffle_reduce`.
#![tactic(auto)]

pub mod answers;
pub mod events;
pub mod laws;
pub mod states;

pub use answers::{Answer, CommitError, Glance, Reply, Wave, Why};
pub use events::Event;
pub use states::{Attempt, Limits, PartState, SplitState, Start, Work};

/// How many splits a job has at most.
pub const MAX_JOB_SPLITS: usize = 131_072;

/// How many workers a job has at most.
pub const MAX_JOB_WORKERS: usize = 32_768;
