use line_rules::ReadingError;
use script_text::{read_job, read_script};
use std::alloc::Global;
use std::process::Abort;

// The parts and the silence of a script.
fn settings_of(rt: &impl Abort, alloc: Global, text: &str) -> (usize, u32) {
    let read = read_script(alloc, text.as_bytes()).expect(rt, "not read");
    (read.head.parts, read.head.silence)
}

// Scripts, with the parts and the silence of each.
static SETTINGS: [(&str, (usize, u32)); 4] = [
    ("script 1\nbegin\nend\n", (1, 3)),
    ("script 1\nparts 64\nbegin\nend\n", (64, 3)),
    ("script 1\nsilence 1000\nbegin\nend\n", (1, 1000)),
    (
        "script 1\ntarget 8\nsilence 1\nparts 2\nbegin\nend\n",
        (2, 1),
    ),
];

#[test]
fn settings_are_those_of_their_lines(rt: HostRuntime) {
    for (text, want) in SETTINGS {
        assert_eq!(rt; settings_of(&rt, rt.alloc(), text), want, "{text}");
    }
}

const JOB: &str =
    "job 1\ntarget 2\nrack r\nworker a r 1\nsplit s 3 a\ndoc d s The cat\ndoc e s dog\nend\n";

// The target, the parts and the silence of a job, and how many centres it has.
fn job_numbers(rt: &impl Abort, alloc: Global, text: &str) -> (usize, usize, u32, usize) {
    let job = read_job(alloc, text.as_bytes()).expect(rt, "not read");
    let head = &job.head;
    (
        job.script.target,
        head.parts,
        head.silence,
        head.tree.centres(),
    )
}

#[test]
fn a_job_has_its_numbers(rt: HostRuntime) {
    assert_eq!(rt; job_numbers(&rt, rt.alloc(), JOB), (2, 1, 3, 1));
}

// The line and the number of a job's fault.
fn fault_of(alloc: Global, text: &str) -> Option<(u32, u8)> {
    match read_job(alloc, text.as_bytes()).err()? {
        ReadingError::Text(fault) => Some((fault.line, fault.number.number())),
        ReadingError::Memory => None,
    }
}

// Jobs, with the fault of each.
static FAULTS: [(&str, Option<(u32, u8)>); 6] = [
    ("job 1\nend\n", None),
    ("script 1\nbegin\nend\n", Some((1, 7))),
    ("job 1\nbegin\nend\n", Some((2, 7))),
    ("job 1\ndoc d s one\nend\n", Some((2, 3))),
    ("job 1\nparts 65\nparts 0\nend\n", Some((2, 5))),
    ("job 1\n", Some((2, 7))),
];

#[test]
fn a_job_has_its_least_fault(rt: HostRuntime) {
    for (text, want) in FAULTS {
        assert_eq!(rt; fault_of(rt.alloc(), text), want, "{text}");
    }
}
