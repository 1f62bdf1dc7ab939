//! Plans ahead, in which splits may wait for their holders.
use crate::jobs::{AMPLE, Call, Job, Shape, answers, end, last_glance, make_shaped};
use crate::seen::seen;
use certificate_checker::Certified;
use master_core::Master;
use master_state::{Answer, CommitError, Event, Limits, SplitState, Start, Wave, Work};
use node_ids::{AttemptNo, SplitNo, WorkerNo};
use std::alloc::Global;
use std::process::Abort;

// Two workers with a slot each, of which the first holds both splits. On the other worker the second split
// costs 10, twice its bytes.
const ON_THE_FIRST: Shape<'static> = Shape {
    racks: &[2],
    slots: &[1, 1],
    splits: &[(10, &[0], "one"), (5, &[0], "two")],
    parts: 1,
};

// How many splits are planned and at which cost, and what starts.
type Told = Result<(Certified, Wave), CommitError>;

// Plans ahead with these places, none of them more than 255.
fn ahead(rt: &impl Abort, alloc: Global, job: &mut Job, places: &[u64]) -> Told {
    assert!(rt; places.iter().all(|n| *n <= 255));
    let (ahead, wave) = job.master.start_ahead(alloc, places)?;
    Ok((ahead.planned.certified(), wave))
}

fn best(alloc: Global, job: &mut Job) -> Told {
    let (planned, wave) = job.master.start_best(alloc)?;
    Ok((planned.certified(), wave))
}

// A plan of so many splits at a cost, of which so many start at a cost, as the first event.
fn first(planned: (usize, u64), started: (u32, u64)) -> Told {
    let certified = Certified {
        count: planned.0,
        cost: planned.1,
        places: 0,
    };
    let wave = Wave {
        place: 1,
        first: AttemptNo::new(1),
        count: started.0,
        cost: started.1,
    };
    Ok((certified, wave))
}

// The places, how many splits are planned and at which cost, and how many start and at which cost. Where the
// first worker has two places, both splits are planned onto it, and one starts. A worker without a number has
// its free slots as places, and a number past the last worker is for nobody.
const ROWS: [(&[u64], (usize, u64), (u32, u64)); 7] = [
    (&[2, 0], (2, 0), (1, 0)),
    (&[2], (2, 0), (1, 0)),
    (&[2, 0, 255], (2, 0), (1, 0)),
    (&[255, 255], (2, 0), (1, 0)),
    (&[0, 0], (2, 10), (2, 10)),
    (&[], (2, 10), (2, 10)),
    (&[1, 5], (2, 10), (2, 10)),
];

// Plans ahead with these places in a new job.
fn ahead_anew(rt: &impl Abort, alloc: Global, places: &[u64]) -> Told {
    let mut job = make_shaped(rt, alloc, &ON_THE_FIRST, AMPLE).expect(rt, "no master");
    let told = ahead(rt, alloc, &mut job, places);
    end(job);
    told
}

#[test]
fn what_waits_and_what_starts(rt: HostRuntime) {
    for (places, planned, started) in ROWS {
        let told = ahead_anew(&rt, rt.alloc(), places);
        assert_eq!(rt; told, first(planned, started), "{places:?}");
    }
}

// A wave of the same state would move the second split.
#[test]
fn without_more_places_it_is_a_wave(rt: HostRuntime) {
    let mut job = make_shaped(&rt, rt.alloc(), &ON_THE_FIRST, AMPLE).expect(&rt, "no master");
    let told = best(rt.alloc(), &mut job);
    assert_eq!(rt; told, ahead_anew(&rt, rt.alloc(), &[0, 0]));
    end(job);
}

// A split on the first worker, as an attempt starts it.
fn on_the_first(split: u32) -> Start {
    Start {
        work: Work::Split(SplitNo::new(split)),
        worker: WorkerNo::new(0),
    }
}

// Whether an event is that of a plan ahead of which one split starts as the first attempt, on a holder.
fn is_first_head(event: &Event<'_>) -> bool {
    match event {
        Event::Ahead { first, count, cost } => first.index() == 1 && *count == 1 && *cost == 0,
        _ => false,
    }
}

// The first event is the head's, which is split 0 on the first worker, and split 1 waits.
fn assert_waiting(rt: &impl Abort, master: &Master) {
    let history = master.history();
    let is_told = match &history.get(0) {
        Some(event) => is_first_head(event),
        None => false,
    };
    assert!(rt; master.cluster().splits().len() == 2);
    let waits = matches!(master.state(SplitNo::new(1)), SplitState::Pending);
    assert_eq!(rt;
        (is_told, waits, master.start(AttemptNo::new(1))),
        (true, true, Some(on_the_first(0)))
    );
}

// Once the first split is done, the next plan ahead starts the second one on the same worker.
fn start_the_second(rt: &impl Abort, alloc: Global, job: &mut Job) {
    answers(rt, alloc, job, &[(Call::Done(1), Answer::Accepted(2, ()))]);
    let wave = Wave {
        place: 3,
        first: AttemptNo::new(2),
        count: 1,
        cost: 0,
    };
    let certified = Certified {
        count: 1,
        cost: 0,
        places: 0,
    };
    let told = ahead(rt, alloc, job, &[2, 0]);
    assert_eq!(rt; told, Ok((certified, wave)));
    assert_eq!(rt; job.master.start(AttemptNo::new(2)), Some(on_the_first(1)));
}

#[test]
fn a_split_waits_for_its_holder(rt: HostRuntime) {
    let alloc = rt.alloc();
    let mut job = make_shaped(&rt, alloc, &ON_THE_FIRST, AMPLE).expect(&rt, "no master");
    assert_eq!(rt; ahead(&rt, alloc, &mut job, &[2, 0]), first((2, 0), (1, 0)));
    assert_waiting(&rt, &job.master);
    start_the_second(&rt, alloc, &mut job);
    let rest = [
        (Call::Done(2), Answer::Accepted(4, ())),
        (Call::Reduce, Answer::Accepted(5, ())),
        (Call::Done(3), Answer::Accepted(6, ())),
    ];
    answers(&rt, alloc, &mut job, &rest);
    let (glance, results) = last_glance(job);
    assert_eq!(rt; (glance.open_splits, glance.open_parts, results), (0, 0, 1));
}

const ONE_EVENT: Limits = Limits {
    events: 1,
    attempts: 1,
    sweeps: 0,
};

// A plan ahead for whose heads there is no room changes nothing.
fn assert_full(rt: &impl Abort, alloc: Global, job: &mut Job, places: &[u64]) {
    let before = seen(alloc, &job.master).expect(rt, "no memory");
    let told = ahead(rt, alloc, job, places);
    let after = seen(alloc, &job.master).expect(rt, "no memory");
    assert_eq!(rt; told, Err(CommitError::HistoryFull));
    assert_eq!(rt; after, before);
}

// Two heads are more than the one attempt, and after one head there is room for no other event.
#[test]
fn only_heads_need_room(rt: HostRuntime) {
    let alloc = rt.alloc();
    let mut job = make_shaped(&rt, alloc, &ON_THE_FIRST, ONE_EVENT).expect(&rt, "no master");
    assert_full(&rt, alloc, &mut job, &[0, 0]);
    assert_eq!(rt; ahead(&rt, alloc, &mut job, &[2, 0]), first((2, 0), (1, 0)));
    assert_full(&rt, alloc, &mut job, &[2, 0]);
    end(job);
}
