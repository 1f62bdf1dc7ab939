//! A master that threads share.
//!
//! One lock keeps a master of the job that its type names (`OfJob`), with what is kept of its hands; each
//! thread calls with a hand of its own, which keeps what was accepted of it. Waves are planned while the lock
//! is free, and certified in the state in which they are committed, or are planned and committed in one hold,
//! as plans ahead are.
//! Upward the layer promises that each call under the lock is one of the master's, that what it answers is of
//! this job, that a hand keeps just the events of its accepted calls, and that `settle` says exactly whether a
//! history is made of the calls of the hands that it is given. It stands on `master_core`, `wave_planner` and
//! `hand_ledger`, and on the ledgers of std.
#![tactic(auto)]

mod aheads;
mod calls;
pub mod closed;
pub mod glance;
mod held;
pub mod of_job;
pub mod shared;
pub mod sizes;
pub mod waves;

pub use closed::{Closed, Settled, Torn, settle};
pub use glance::SharedGlance;
pub use hand_ledger::{Hand, HandError};
pub use of_job::OfJob;
pub use shared::SharedMaster;
pub use sizes::Sizes;
pub use waves::{Between, Nothing, SharedWave, WaveError};
