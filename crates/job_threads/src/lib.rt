//! A job on threads, one for each of its workers, and the thread that called.
//!
//! The calling thread plans, sends orders and looks after beats, by what a gate says; the workers map and
//! merge, and tell a shared master. Upward the layer promises what an outcome means, whatever the threads
//! did: an index is the sequential one of the job's documents, and a stuck master can start nothing. The
//! contracts of its private functions say what each step does (`specs/Steps.antt`, `specs/Telling.antt`). It
//! stands on `shared_master`, `beat_board` and `lane_queue`, and knows no text.
#![tactic(auto)]

mod aim;
mod asking;
mod beats;
mod brief;
mod caller;
mod closing;
mod common;
mod dead;
mod ending;
pub mod gate;
mod holdings;
pub mod job;
mod lanes;
pub mod observer;
pub mod outcome;
pub mod running;
mod starting;
mod sweeping;
mod threads;
mod work;

pub use gate::{Gate, Go, PlainGate, Turn};
pub use job::Job;
pub use observer::{Observer, Progress, Unobserved};
pub use outcome::{Outcome, Record, RunError};
pub use running::{run, run_recorded};
