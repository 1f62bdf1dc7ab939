use crate::gates::{Ask, Ends};
use job_run::{Gate, PlainGate, RunEnd, RunError, RunTextError, run_text};
use std::alloc::Global;
use std::rt::Clock;
use std::sync::Wait;
use std::thread::Threads;

const CLUSTER: &str = "silence 1\nrack r\nworker a r 1\nworker b r 1\nsplit s 3 a\nsplit t 3";

const DOCUMENTS: &str = "\ndoc d s one two\ndoc e t two\nend\n";

// How the run of a job ends whose split t has these holders, and what is written.
fn ran<T: Threads + Wait + Clock + Sync, G: Gate>(
    rt: &T,
    alloc: Global,
    gate: &G,
    first: &str,
    holders: &str,
) -> Option<(Result<RunEnd, RunTextError>, Vec<u8>)> {
    let text = format!(in alloc; "{first}\n{CLUSTER}{holders}{DOCUMENTS}").ok()?;
    let mut reader = text.as_bytes();
    let mut lines = Vec::new(alloc);
    let end = run_text(rt, alloc, &mut reader, &mut lines, gate);
    Some((end, lines))
}

#[test]
fn a_job_ends_with_its_index_or_stuck(rt: HostRuntime) {
    for (holders, wanted, lines) in [
        (" b", RunEnd::Done, "index 2\nword one d\nword two d e\n"),
        ("", RunEnd::Stuck, "stuck 1\nopen t\n"),
    ] {
        let (end, written) = ran(&rt, rt.alloc(), &PlainGate, "job 1", holders).expect(
            &rt,
            "no memory",
        );
        assert_eq!(rt; end, Ok(wanted));
        assert_eq!(rt; written.as_slice(), lines.as_bytes());
    }
}

#[test]
fn a_run_that_its_gate_ends_writes_nothing(rt: HostRuntime) {
    let gate = Ends { at: Ask::Turn };
    let (end, written) = ran(&rt, rt.alloc(), &gate, "job 1", " b").expect(&rt, "no memory");
    assert_eq!(rt; end, Err(RunTextError::Run(RunError::GateLimit)));
    assert!(rt; written.is_empty());
}

#[test]
fn a_text_that_is_no_job_is_told(rt: HostRuntime) {
    let gate = Ends { at: Ask::Turn };
    let (end, written) = ran(&rt, rt.alloc(), &gate, "script 1", " b").expect(&rt, "no memory");
    assert!(rt; matches!(end, Err(RunTextError::Tool(_))));
    assert_eq!(rt; written.as_slice(), "line 1: fault 7\n".as_bytes());
}
