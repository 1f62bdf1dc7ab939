//! Jobs, from a reader's bytes to a writer's.
//!
//! `run_text` runs the job that a text declares on the threads of `job_threads`, and writes its outcome,
//! `run_text_observed` all that was done before it (`specs/RunAnswer.antt`). The lines of a long index are made
//! by up to four threads, while two let the master go. The headline is told here once, of reports and of runs
//! (`specs/Headlines.antt`). Below stand the texts of `script_text` and the lines of `report_lines`; `job_play`
//! makes the cluster and the lines of an end.
#![tactic(auto)]

mod index_text;
pub mod laws;
mod letting_go;
pub mod running;

pub use job_threads::{
    Gate, Go, Job, Observer, Outcome, PlainGate, Progress, Record, RunError, Turn, Unobserved, run,
    run_recorded,
};
pub use running::{JobEnd, RunEnd, RunTextError, run_text, run_text_observed};
