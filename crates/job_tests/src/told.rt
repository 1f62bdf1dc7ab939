//! How a run ended, told in a line.
use crate::jobs::{SplitRow, job_of};
use job_threads::{Gate, Outcome, RunError, run};
use master_core::Master;
use master_state::{Limits, SplitState};
use node_ids::SplitNo;
use std::alloc::Global;
use std::process::Abort;
use std::rt::Clock;
use std::sync::Wait;
use std::thread::Threads;

/// How a run ended: with its index, a word and its documents one after the other; with the numbers of the
/// splits that are not done; or with an error.
#[derive(Debug, PartialEq, Eq, Drop)]
pub enum Told {
    Done(String),
    Stuck(String),
    Error(RunError),
}

impl Told {
    /// Whether it has such an index, each word's line ended by a slash.
    pub fn is_index(&self, lines: &str) -> bool {
        match self {
            Told::Done(index) => index.as_str() == lines,
            _ => false,
        }
    }

    /// Whether just these splits are not done, each number after a space.
    pub fn is_stuck_with(&self, splits: &str) -> bool {
        match self {
            Told::Stuck(open) => open.as_str() == splits,
            _ => false,
        }
    }
}

/// Adds a number and what comes before it.
pub fn add_number(rt: &impl Abort, alloc: Global, text: &mut String, before: &str, number: usize) {
    let number = format!(in alloc; "{before}{number}").expect(rt, "no memory");
    text.push_str(&number).expect(rt, "no memory");
}

/// Tells an outcome.
pub fn tell(rt: &impl Abort, alloc: Global, outcome: Result<Outcome, RunError>) -> Told {
    match outcome {
        Ok(Outcome::Done(index)) => {
            let mut lines = String::new(alloc);
            for entry in index.entries() {
                lines.push_str(entry.word()).expect(rt, "no memory");
                for document in entry.documents() {
                    add_number(rt, alloc, &mut lines, " ", document.index());
                }
                lines.push_str("/").expect(rt, "no memory");
            }
            Told::Done(lines)
        }
        Ok(Outcome::Stuck(master)) => {
            let mut open = String::new(alloc);
            for split in 0..master.cluster().splits().len() {
                if !is_done(&master, split) {
                    add_number(rt, alloc, &mut open, " ", split);
                }
            }
            Told::Stuck(open)
        }
        Err(error) => Told::Error(error),
    }
}

/// Whether a split is done.
pub fn is_done(master: &Master, split: usize) -> bool {
    split < 131_072
        && split < master.cluster().splits().len()
        && matches!(
            master.state(SplitNo::new(split as u32)),
            SplitState::Done(_)
        )
}

/// Runs such a job in two parts.
pub fn run_rows<G: Gate, R: Threads + Wait + Clock + Abort + Sync>(
    rt: &R,
    alloc: Global,
    slots: &[u8],
    rows: &[SplitRow<'_>],
    limits: Limits,
    gate: &G,
) -> Told {
    let job = job_of(rt, alloc, slots, rows, 2, 3, limits).expect(rt, "no job");
    tell(rt, alloc, run(rt, alloc, job, gate))
}
