//! The history of a job under a made gate, for a script that follows it.
//!
//! The words JOB and SEED of the environment are the text of the job and the number of its gate, which
//! stops no worker. The job is planned ahead where AHEAD is a number of waves.
use crate::gates::Made;
use job_run::{RunEnd, RunTextError, Unobserved, run_text_observed};
use std::alloc::Global;
use std::env;
use std::env::Env;
use std::rt::Clock;
use std::sync::Wait;
use std::sync::atomic::Ordering;
use std::thread::Threads;

// What runs where the environment has no job.
const JOB: &str = "job 1
target 2
silence 1
rack r
worker a r 1
worker b r 1
worker c r 1
split s 3 a b
split t 3 b c
doc d s one two
doc e t two
end
";

// The gate's number where it has none.
const SEED: u64 = 1;

fn named_seed<R: Env + Alloc>(rt: &R) -> Option<u64> {
    env::var(rt, "SEED").ok()?.as_str().parse().ok()
}

// How many waves are planned ahead, where that is a number.
fn named_waves<R: Env + Alloc>(rt: &R) -> Option<u8> {
    env::var(rt, "AHEAD").ok()?.as_str().parse().ok()
}

// How a job ended under the gate, and the lines of its history and its end.
fn recorded<T: Threads + Wait + Clock + Sync>(
    rt: &T,
    alloc: Global,
    text: &str,
    gate: &Made,
    ahead: Option<u8>,
) -> (Result<RunEnd, RunTextError>, Vec<u8>) {
    let mut reader = text.as_bytes();
    let mut lines = Vec::new(alloc);
    let end = run_text_observed(
        rt,
        alloc,
        &mut reader,
        &mut lines,
        gate,
        &Unobserved,
        ahead,
        true,
    );
    (end, lines)
}

#[test]
fn a_history_under_a_made_gate(rt: HostRuntime) {
    let gate = Made::new(named_seed(&rt).unwrap_or(SEED), 0);
    let text = env::var(&rt, "JOB").ok();
    let text = match &text {
        Some(text) => text.as_str(),
        None => JOB,
    };
    let (end, lines) = recorded(&rt, rt.alloc(), text, &gate, named_waves(&rt));
    assert!(rt;
        end.is_ok() || gate.overs.load(Ordering::SeqCst) > 0,
        "{end:?}"
    );
    let lines = String::from_utf8(lines).ok().expect(&rt, "not UTF-8");
    let _ = println!(rt; "{lines}ended {end:?}");
}
