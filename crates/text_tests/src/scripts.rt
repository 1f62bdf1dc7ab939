use crate::faults::{Row as FaultRow, fault_in, fault_of, have_faults};
use line_rules::{KnownLines, Purpose, Row, Version, read_lines};
use line_shapes::Keyword;
use std::alloc::Global;
use std::process::Abort;
use text_lines::NameTable;

// What stands in a script after `script 1`, a rack r, the workers a and b and a split s: its lines from the
// sixth on.
static IN_SCRIPTS: [FaultRow; 30] = [
    (
        "parts 64\ntarget 8\nsilence 1000\ndoc d s \ndoc e s\nbegin\nend\n",
        None,
    ),
    ("parts 0\nbegin\nend\n", Some((6, 5))),
    ("parts 65\nbegin\nend\n", Some((6, 5))),
    ("target 9\nbegin\nend\n", Some((6, 5))),
    ("silence 1001\nbegin\nend\n", Some((6, 5))),
    ("parts 2\nparts 3\nbegin\nend\n", Some((7, 4))),
    ("doc s s one\nbegin\nend\n", Some((6, 4))),
    ("doc d a one\nbegin\nend\n", Some((6, 3))),
    ("doc d  s one\nbegin\nend\n", Some((6, 1))),
    ("doc d\nbegin\nend\n", Some((6, 1))),
    ("doc d s  one  two \nbegin\nend\n", None),
    ("busy s\nbegin\nend\n", Some((6, 7))),
    ("centre x\nbegin\nend\n", Some((6, 7))),
    ("rack q r\nbegin\nend\n", Some((6, 1))),
    ("wave\nbegin\nend\n", Some((6, 7))),
    ("end\n", Some((6, 7))),
    ("begin\nwave now\nend\n", Some((7, 1))),
    ("begin\nwave\nwave\ndone 0\ndone 1000000\nend\n", None),
    ("begin\nfail 1000001\nend\n", Some((7, 5))),
    ("begin\nwithdraw a\nend\n", Some((7, 1))),
    ("begin\ndie r\nend\n", Some((7, 3))),
    ("begin\njoin a\njoin b s\nend\n", None),
    ("begin\njoin a s s\nend\n", Some((7, 8))),
    ("begin\nadd s a\nlose a s\nend\n", Some((8, 3))),
    ("begin\nsweep 0 1099511627776\nend\n", None),
    ("begin\nsweep 0 1099511627777\nend\n", Some((7, 5))),
    ("begin\nsweep 0\nend\n", Some((7, 1))),
    ("begin\nreduce\ncopies\nend\n", None),
    ("begin\nbackup s a\nend\n", Some((7, 7))),
    ("begin\ndoc d s one\nend\n", Some((7, 7))),
];

#[test]
fn faults_of_scripts(rt: HostRuntime) {
    let head = "script 1\nrack r\nworker a r 1\nworker b r 1\nsplit s 5 a\n";
    have_faults(&rt, rt.alloc(), Purpose::Playing, head, &IN_SCRIPTS);
}

// Texts of each kind, with the fault that each has.
static TO_PLAY: [FaultRow; 10] = [
    (
        "script 1\nrack r\nworker a r 1\nbegin\nsweep 1 2\nend\n",
        Some((5, 1)),
    ),
    ("sweep 1\n", Some((1, 1))),
    ("sweep\n", Some((1, 7))),
    ("job 1\n", Some((1, 7))),
    ("script 4\n", Some((1, 5))),
    ("script 0\n", Some((1, 5))),
    ("script 2\nscript 9\n", Some((2, 7))),
    ("script 2\nrack r\n", Some((2, 1))),
    ("script 2\nrack r r\n", Some((2, 3))),
    ("script 2\ncentre x\nrack x x\n", Some((3, 4))),
];

static TO_RUN: [FaultRow; 3] = [
    ("job 1\nparts 2\nend\n", None),
    ("job 1\nbegin\nend\n", Some((2, 7))),
    ("job 1\nwave\nend\n", Some((2, 7))),
];

static TO_PLAN: [FaultRow; 5] = [
    ("problem 2\nrack r\nend\n", Some((2, 1))),
    ("problem 1\ncentre x\nend\n", Some((2, 7))),
    (
        "problem 2\ncentre x\ncentre y\nrack r x\nrack q y\nworker a r 0\nworker b q 1\nsplit s 7 a\nend\n",
        None,
    ),
    ("problem 1\nwave\nend\n", Some((2, 7))),
    ("problem 1\ndoc d s  x\nend\n", Some((2, 7))),
];

#[test]
fn faults_of_each_kind(rt: HostRuntime) {
    let alloc = rt.alloc();
    have_faults(&rt, alloc, Purpose::Playing, "", &TO_PLAY);
    have_faults(&rt, alloc, Purpose::Running, "", &TO_RUN);
    have_faults(&rt, alloc, Purpose::Planning, "", &TO_PLAN);
    let script = [("script 1\n", Some((1, 7)))];
    have_faults(&rt, alloc, Purpose::Checking, "", &script);
}

// What stands in a script with one worker, from its fifth line on: of version 2, and of version 3.
static BACKUPS: [FaultRow; 2] = [
    ("split s 0\nbegin\nbackup s a\nend\n", None),
    ("begin\nahead 1\nend\n", Some((6, 7))),
];

static AHEADS: [FaultRow; 5] = [
    ("begin\nahead 0\nahead 255\nend\n", None),
    ("begin\nahead 256\nend\n", Some((6, 5))),
    ("begin\nahead\nend\n", Some((6, 1))),
    ("begin\nahead 1 1\nend\n", Some((6, 1))),
    ("ahead 1\nbegin\nend\n", Some((5, 7))),
];

#[test]
fn commands_of_later_versions(rt: HostRuntime) {
    for (first, rows) in [("script 2", &BACKUPS[..]), ("script 3", &AHEADS[..])] {
        let head = format!(in rt.alloc(); "{first}\ncentre x\nrack r x\nworker a r 1\n").expect(
            &rt, "no text",
        );
        have_faults(&rt, rt.alloc(), Purpose::Playing, &head, rows);
    }
}

// A job of a version with so many workers.
fn job_of(rt: &impl Abort, alloc: Global, version: u8, workers: u16) -> String {
    let rack = if version == 1 {
        "rack r"
    } else {
        "centre z\nrack r z"
    };
    let mut text = format!(in alloc; "job {version}\n{rack}\n").expect(rt, "no text");
    for worker in 0..workers {
        let line = format!(in alloc; "worker w{worker} r 1\n").expect(rt, "no text");
        text.push_str(&line).expect(rt, "no text");
    }
    text.push_str("end\n").expect(rt, "no text");
    text
}

// Versions, how many workers a job of each has, and the fault of the text.
static WORKERS: [(u8, u16, Option<(u32, u8)>); 6] = [
    (1, 32, None),
    (1, 33, Some((35, 6))),
    (2, 32, None),
    (2, 33, Some((36, 6))),
    (3, 1024, None),
    (3, 1025, Some((1028, 6))),
];

#[test]
fn a_job_has_so_many_workers_by_its_version(rt: HostRuntime) {
    for (version, workers, fault) in WORKERS {
        let text = job_of(&rt, rt.alloc(), version, workers);
        let told = fault_of(rt.alloc(), Purpose::Running, &text);
        assert_eq!(rt; (version, workers, told), (version, workers, fault));
    }
}

// Declares so many splits.
fn add_splits(rt: &impl Abort, alloc: Global, text: &mut String, splits: u32) {
    for number in 0..splits {
        let line = format!(in alloc; "split s{number} 0\n").expect(rt, "no text");
        text.push_str(&line).expect(rt, "no text");
    }
}

// A script of a version with so many splits.
fn splits_of(rt: &impl Abort, alloc: Global, version: u8, splits: u32) -> String {
    let mut text = format!(in alloc; "script {version}\n").expect(rt, "no text");
    add_splits(rt, alloc, &mut text, splits);
    text.push_str("begin\nend\n").expect(rt, "no text");
    text
}

// Versions, how many splits a script of each has, and the fault of the text.
static SPLITS: [(u8, u32, Option<(u32, u8)>); 6] = [
    (1, 1024, None),
    (1, 1025, Some((1026, 6))),
    (2, 1024, None),
    (2, 1025, Some((1026, 6))),
    (3, 131_072, None),
    (3, 131_073, Some((131_074, 6))),
];

#[test]
fn a_script_has_so_many_splits_by_its_version(rt: HostRuntime) {
    for (version, splits, fault) in SPLITS {
        let text = splits_of(&rt, rt.alloc(), version, splits);
        let told = fault_of(rt.alloc(), Purpose::Playing, &text);
        assert_eq!(rt; (version, splits, told), (version, splits, fault));
    }
}

// A script of 1,100 splits with a join of all but the last of them, and one more.
fn joined(rt: &impl Abort, alloc: Global, one: u32) -> String {
    let head = "script 3\ncentre z\nrack r z\nworker w r 1\n";
    let mut text = String::from_str(alloc, head).expect(rt, "no text");
    add_splits(rt, alloc, &mut text, 1100);
    text.push_str("begin\njoin w").expect(rt, "no text");
    for number in 0..1099 {
        add_name(rt, alloc, &mut text, number);
    }
    add_name(rt, alloc, &mut text, one);
    text.push_str("\nend\n").expect(rt, "no text");
    text
}

fn add_name(rt: &impl Abort, alloc: Global, text: &mut String, split: u32) {
    let name = format!(in alloc; " s{split}").expect(rt, "no text");
    text.push_str(&name).expect(rt, "no text");
}

// The last split of the join, and the fault of the text.
static JOINED: [(u32, Option<(u32, u8)>); 4] = [
    (1099, None),
    (1098, Some((1106, 8))),
    (0, Some((1106, 8))),
    (1100, Some((1106, 3))),
];

#[test]
fn a_join_of_many_splits_names_each_once(rt: HostRuntime) {
    for (one, fault) in JOINED {
        let text = joined(&rt, rt.alloc(), one);
        let told = fault_of(rt.alloc(), Purpose::Playing, &text);
        assert_eq!(rt; (one, told), (one, fault));
    }
}

const PLAYED: &str = "script 1\nparts 2\nrack r\nworker a r 1\nworker b r 1\nsplit s 3 a\n\
doc d1 s The cat\ndoc d2 s cat, THE dog\nbegin\nwave\ndone 1\nadd s b\ndie a\nwave\ndone 2\nreduce\n\
reduce\ndone 3\nreduce\ndone 4\nend\n";

const JOB: &str = "job 1\nparts 2\nrack r\nworker a r 1\nsplit s 3 a\ndoc d1 s The cat\n\
doc d2 s cat, THE dog\nend\n";

// A script of a version with so many commands.
fn script_of(rt: &impl Abort, alloc: Global, version: u8, commands: u32) -> String {
    let mut text = format!(in alloc; "script {version}\nbegin\n").expect(rt, "no text");
    for _ in 0..commands {
        text.push_str("wave\n").expect(rt, "no text");
    }
    text.push_str("end\n").expect(rt, "no text");
    text
}

// Versions, how many commands a script of each has or how many documents a job, and the fault of the text.
static MANY: [(u8, u32, Option<(u32, u8)>); 4] = [
    (1, 65_537, Some((65_539, 6))),
    (2, 65_536, None),
    (2, 65_537, Some((65_539, 6))),
    (3, 65_537, None),
];

#[test]
fn a_script_has_so_many_commands_by_its_version(rt: HostRuntime) {
    for (version, commands, fault) in MANY {
        let text = script_of(&rt, rt.alloc(), version, commands);
        let told = fault_of(rt.alloc(), Purpose::Playing, &text);
        assert_eq!(rt; (version, commands, told), (version, commands, fault));
    }
}

// A job of a version with so many documents.
fn documents_of(rt: &impl Abort, alloc: Global, version: u8, documents: u32) -> String {
    let mut text = format!(in alloc; "job {version}\nsplit s 0\n").expect(rt, "no text");
    for number in 0..documents {
        let line = format!(in alloc; "doc d{number} s\n").expect(rt, "no text");
        text.push_str(&line).expect(rt, "no text");
    }
    text.push_str("end\n").expect(rt, "no text");
    text
}

#[test]
fn a_job_has_so_many_documents_by_its_version(rt: HostRuntime) {
    for (version, documents, fault) in MANY {
        let text = documents_of(&rt, rt.alloc(), version, documents);
        let told = fault_of(rt.alloc(), Purpose::Running, &text);
        assert_eq!(rt; (version, documents, told), (version, documents, fault));
    }
}

#[test]
fn each_front_of_a_job_has_a_fault(rt: HostRuntime) {
    let mut line = 1;
    for end in 0..JOB.len() {
        let front = &JOB.as_bytes()[..end];
        let is_whole = matches!(front.last(), None | Some(b'\n'));
        let want = if is_whole { 7 } else { 12 };
        let told = fault_in(rt.alloc(), Purpose::Running, front);
        assert_eq!(rt; told, Some((line, want)), "{end}");
        if JOB.as_bytes()[end] == b'\n' {
            line = line.wrapping_add(1);
        }
    }
    assert_eq!(rt; fault_of(rt.alloc(), Purpose::Running, JOB), None);
}

// How many commands a script has, whether its second document has its words, and whether it is in version 1.
fn read_of(rt: &impl Abort, alloc: Global, text: &str) -> (usize, bool, bool) {
    let known = read_lines(alloc, Purpose::Playing, text.as_bytes()).expect(rt, "not read");
    let is_first = matches!(known.version(), Version::One);
    (
        known.commands().len(),
        has_second_document(&known),
        is_first,
    )
}

fn has_second_document(known: &KnownLines<'_>) -> bool {
    match known.rows().row(Keyword::Doc, 1) {
        Some(Row::Line(row)) => {
            let words = row.words;
            let is_text = words.len() == 3 && words[0] == "d2" && words[2] == "cat, THE dog";
            row.keyword == Keyword::Doc && is_text
        }
        _ => false,
    }
}

// Whether a text to plan from enters no row and no command, and a table no name.
fn none_entered(rt: &impl Abort, alloc: Global, text: &str) -> [bool; 3] {
    let known = read_lines(alloc, Purpose::Planning, text.as_bytes()).expect(rt, "not read");
    [
        known.rows().is_empty(),
        known.commands().is_empty(),
        NameTable::new(alloc).is_empty(),
    ]
}

#[test]
fn a_problem_may_be_empty(rt: HostRuntime) {
    for (rest, empty) in [("end\n", true), ("rack r\nend\n", false)] {
        let text = format!(in rt.alloc(); "problem 1\n{rest}").expect(&rt, "no text");
        let told = none_entered(&rt, rt.alloc(), &text);
        assert_eq!(rt; told, [empty, true, true], "{rest}");
    }
}

#[test]
fn commands_and_documents_are_kept(rt: HostRuntime) {
    assert_eq!(rt; read_of(&rt, rt.alloc(), PLAYED), (11, true, true));
}
