ghost use Rattle.script_text.specs.Heads.{IsFitHead};

use command_runner::AnswerLines;
use job_play::clusters::cluster_of;
use job_play::{PlayEnd, Report, fits, play_script};
use script_text::{Head, read_script};
use std::alloc::Global;
use std::process::Abort;

const HEAD: &str = "script 1\nrack r\nworker a r 1\nsplit s 10 a\ndoc d s The cat\nbegin\n";

// The head of a script.
fn head_of(rt: &impl Abort, alloc: Global, script: &str) -> Head
    ensures { IsFitHead result }
{
    read_script(alloc, script.as_bytes())
        .expect(rt, "not read")
        .head
}

// The end that a report tells, and its lines.
fn written(rt: &impl Abort, alloc: Global, report: Report) -> (PlayEnd, Vec<u8>) {
    let mut lines = Vec::new(alloc);
    report.lines.write_to(&mut lines).expect(rt, "not written");
    (report.end, lines)
}

// How a script ends on a cluster that it fits, and its report.
fn played(rt: &impl Abort, alloc: Global, script: &str, on: &str) -> Option<(PlayEnd, Vec<u8>)> {
    let cluster = cluster_of(alloc, head_of(rt, alloc, on)).expect(rt, "no cluster");
    let read = read_script(alloc, script.as_bytes()).expect(rt, "not read");
    if !fits(&cluster, &read.script) {
        return None;
    }
    let report = play_script(alloc, cluster, &read.script).expect(rt, "not played");
    Some(written(rt, alloc, report))
}

#[test]
fn a_script_is_played_on_a_cluster_that_it_fits(rt: HostRuntime) {
    let alloc = rt.alloc();
    let script = format!(in alloc; "{HEAD}wave\ndone 1\nreduce\ndone 2\nend\n").expect(
        &rt,
        "no memory",
    );
    let (end, lines) = played(&rt, alloc, script.as_str(), script.as_str()).expect(
        &rt,
        "not played",
    );
    let wanted =
        "accepted 1\nwave 1 0\nstart 1 s a\naccepted 2\naccepted 3\nreduce 2 0 a\naccepted 4\n\
                  index 2\nword cat d\nword the d\n";
    assert_eq!(rt; (end, lines.as_slice()), (PlayEnd::Done, wanted.as_bytes()));
}

#[test]
fn a_script_does_not_fit_a_cluster_of_more_workers(rt: HostRuntime) {
    let script = "script 1\nrack r\nworker a r 1\nbegin\nend\n";
    let cluster = "script 1\nrack r\nworker a r 1\nworker b r 1\nbegin\nend\n";
    assert!(rt; played(&rt, rt.alloc(), script, script).is_some());
    assert!(rt; played(&rt, rt.alloc(), script, cluster).is_none());
}

// The second split waits for its holder until the first one is done; a wave would move it.
// (The report is worked by hand, and scripts/reference_play.py finds nothing wrong with it.)
#[test]
fn a_plan_ahead_starts_its_heads(rt: HostRuntime) {
    let head =
        "script 3\ncentre z\nrack r z\nworker a r 1\nworker b r 1\nsplit s 10 a\nsplit t 5 a\n\
                doc d s one\ndoc e t two\nbegin\n";
    let commands = "ahead 2 0\ndone 1\nahead 2 0\ndone 2\nreduce\ndone 3\nend\n";
    let script = format!(in rt.alloc(); "{head}{commands}").expect(&rt, "no memory");
    let (end, lines) = played(&rt, rt.alloc(), script.as_str(), script.as_str()).expect(
        &rt,
        "not played",
    );
    let wanted = "accepted 1\nahead 1 0\nqueued 2 0\nstart 1 s a\naccepted 2\n\
                  accepted 3\nahead 1 0\nqueued 1 0\nstart 2 t a\naccepted 4\n\
                  accepted 5\nreduce 3 0 a\naccepted 6\nindex 2\nword one d\nword two e\n";
    assert_eq!(rt; (end, lines.as_slice()), (PlayEnd::Done, wanted.as_bytes()));
}

// (The report is worked by hand, and scripts/reference_play.py finds nothing wrong with it.)
#[test]
fn copies_are_those_of_their_place(rt: HostRuntime) {
    let head = "script 1\nrack r\nrack q\nworker a r 1\nworker b r 1\nworker c q 1\nworker d q 1\n\
                split s 10 a\nsplit t 20 a b\ntarget 2\nbegin\n";
    let commands =
        "copies\ncopies\nadd s c\ncopies\nlose s a\ndie b\ncopies\ncopies\njoin b t\ncopies\n\
                    die c\ncopies\nend\n";
    let script = format!(in rt.alloc(); "{head}{commands}").expect(&rt, "no memory");
    let (end, lines) = played(&rt, rt.alloc(), script.as_str(), script.as_str()).expect(
        &rt,
        "not played",
    );
    let to_death =
        "copies 1\ncopy s a c\ncopies 1\ncopy s a c\naccepted 1\ncopies 0\naccepted 2\naccepted 3\n";
    let after = "copies 2\ncopy s c a\ncopy t a c\n";
    let from_join =
        "accepted 4\ncopies 1\ncopy s c a\naccepted 5\ncopies 0\nstuck 2\nopen s\nopen t\n";
    let wanted = format!(in rt.alloc(); "{to_death}{after}{after}{from_join}").expect(
        &rt,
        "no memory",
    );
    assert_eq!(rt;
        (end, lines.as_slice()),
        (PlayEnd::Stuck, wanted.as_bytes())
    );
}
