use crate::jobs::{
    AMPLE, Call, Job, Shape, answers, commit, end, last_glance, make_shaped, planned, played,
    text_of,
};
use crate::seen::seen;
use block_map::CopyOrder;
use master_core::Master;
use master_state::{Answer, CommitError, Event, Limits, SplitState, Start, Wave, Why, Work};
use node_ids::{AttemptNo, SplitNo, WorkerNo};
use price_certificate::Condition;
use std::alloc::Global;
use std::process::Abort;
use std::sync::Arc;
use wave_planner::Planned;
use word_map::{MapResult, map_split};

// Two workers with a slot each, of which the first holds the one split.
const ONE_SPLIT: Shape<'static> = Shape {
    racks: &[2],
    slots: &[1, 1],
    splits: &[(5, &[0], "one")],
    parts: 2,
};

#[test]
fn a_death_and_the_rest_of_the_job(rt: HostRuntime) {
    let job = played(
        &rt,
        rt.alloc(),
        &ONE_SPLIT,
        AMPLE,
        &[
            (Call::Wave, Answer::Accepted(1, ())),
            (Call::Done(1), Answer::Accepted(2, ())),
            (Call::Add(0, 1), Answer::Accepted(3, ())),
            (Call::Die(0), Answer::Accepted(4, ())),
            (Call::Wave, Answer::Accepted(5, ())),
            (Call::Done(2), Answer::Accepted(6, ())),
            (Call::Reduce, Answer::Accepted(7, ())),
            (Call::Reduce, Answer::Ignored(Why::NotReady, ())),
            (Call::Done(3), Answer::Accepted(8, ())),
            (Call::Reduce, Answer::Accepted(9, ())),
            (Call::Done(4), Answer::Accepted(10, ())),
        ],
    );
    let (glance, results) = last_glance(job);
    let counts = (glance.running, glance.open_splits, glance.open_parts);
    assert_eq!(rt;
        (counts, glance.ready, glance.reducible, results),
        ((0, 0, 0), false, false, 2)
    );
}

// Three workers with a slot each, and a split on each of the first two.
const THREE_WORKERS: Shape<'static> = Shape {
    racks: &[3],
    slots: &[1, 1, 1],
    splits: &[(5, &[0], "one"), (5, &[1], "two")],
    parts: 2,
};

// Worker 0 has joined again before the last sweep, in which the others have been silent too long: what they
// ran, held and had done is lost.
#[test]
fn a_sweep_takes_two_of_three(rt: HostRuntime) {
    let job = played(
        &rt,
        rt.alloc(),
        &THREE_WORKERS,
        AMPLE,
        &[
            (Call::Wave, Answer::Accepted(1, ())),
            (Call::Add(0, 2), Answer::Accepted(2, ())),
            (Call::Done(2), Answer::Accepted(3, ())),
            (Call::Sweep(1), Answer::Accepted(4, ())),
            (Call::Sweep(1), Answer::Accepted(5, ())),
            (Call::Sweep(1), Answer::Accepted(6, ())),
            (Call::Backup(0, 2), Answer::Accepted(7, ())),
            (Call::Die(0), Answer::Accepted(8, ())),
            (Call::Join(0, Some(1)), Answer::Accepted(9, ())),
            (Call::Sweep(1), Answer::Accepted(10, ())),
            (Call::Done(3), Answer::Ignored(Why::OldAttempt, ())),
            (Call::Lose(0, 2), Answer::Ignored(Why::NotHolder, ())),
            (Call::Lose(1, 1), Answer::Ignored(Why::NotHolder, ())),
            (Call::Die(2), Answer::Ignored(Why::DeadWorker, ())),
            (Call::Wave, Answer::Accepted(11, ())),
            (Call::Done(4), Answer::Accepted(12, ())),
        ],
    );
    let (glance, _) = last_glance(job);
    assert_eq!(rt; (glance.running, glance.open_splits), (0, 1));
}

// Two splits on the first of two workers.
const ON_THE_FIRST: Shape<'static> = Shape {
    racks: &[2],
    slots: &[1, 1],
    splits: &[(10, &[0], "one"), (20, &[0], "two")],
    parts: 2,
};

const ONE_EVENT: Limits = Limits {
    events: 1,
    attempts: 1,
    sweeps: 0,
};

// A plan of the present state, committed twice.
fn commit_twice(rt: &impl Abort, alloc: Global, job: &mut Job) -> [Result<Wave, CommitError>; 2] {
    let new = planned(alloc, job).expect(rt, "no plan");
    [commit(rt, alloc, job, &new), commit(rt, alloc, job, &new)]
}

#[test]
fn a_full_history_is_told(rt: HostRuntime) {
    let alloc = rt.alloc();
    let mut job = make_shaped(&rt, alloc, &ON_THE_FIRST, ONE_EVENT).expect(&rt, "no master");
    let told = commit_twice(&rt, alloc, &mut job);
    assert_eq!(rt;
        told,
        [Err(CommitError::HistoryFull), Err(CommitError::HistoryFull)]
    );
    answers(
        &rt,
        alloc,
        &mut job,
        &[
            (Call::Sweep(1), Answer::Ignored(Why::HistoryFull, ())),
            (Call::Add(0, 1), Answer::Accepted(1, ())),
            (Call::Lose(0, 1), Answer::Ignored(Why::HistoryFull, ())),
        ],
    );
    end(job);
}

// Two workers with a slot each, of which the first holds the first split.
const TWO_SPLITS: Shape<'static> = Shape {
    racks: &[2],
    slots: &[1, 1],
    splits: &[(10, &[0], "one"), (10, &[], "two")],
    parts: 2,
};

// Split 0 runs on worker 0, which holds split 1 too, whose best start is a plan of before split 0 was done.
fn with_an_old_plan(rt: &impl Abort, alloc: Global) -> (Job, Planned) {
    let before = [
        (Call::Wave, Answer::Accepted(1, ())),
        (Call::Add(1, 0), Answer::Accepted(2, ())),
    ];
    let mut job = played(rt, alloc, &TWO_SPLITS, AMPLE, &before);
    let old = planned(alloc, &job).expect(rt, "no plan");
    answers(
        rt,
        alloc,
        &mut job,
        &[(Call::Done(1), Answer::Accepted(3, ()))],
    );
    (job, old)
}

// The first condition that an old plan fails, whose one start costs 20: a start of split 1 on worker 0 costs
// nothing now, and the reward is 81.
fn fails(rt: &impl Abort, planned: &Planned) -> Condition {
    let (a, s) = (WorkerNo::new(0), SplitNo::new(1));
    let (prices, certified) = (planned.prices(), planned.certified());
    assert_eq!(rt; (certified.count, certified.cost), (1, 20));
    assert!(rt; prices.splits() == 2 && prices.workers() == 2);
    let (for_split, for_worker) = (prices.split(s), prices.worker(a));
    assert!(rt; for_split <= 81 && for_worker <= 81);
    if for_split + for_worker < 81 {
        Condition::Priced(s, a)
    } else {
        Condition::Spare(a)
    }
}

// Hands in an old plan, which is refused and changes nothing.
fn commit_an_old_plan(rt: &impl Abort, alloc: Global, job: &mut Job, old: &Planned) {
    let before = seen(alloc, &job.master).expect(rt, "no memory");
    let told = commit(rt, alloc, job, old);
    let after = seen(alloc, &job.master).expect(rt, "no memory");
    assert_eq!(rt; told, Err(CommitError::Stale(fails(rt, old))));
    assert_eq!(rt; after, before);
}

#[test]
fn an_old_plan_is_stale(rt: HostRuntime) {
    let (mut job, old) = with_an_old_plan(&rt, rt.alloc());
    commit_an_old_plan(&rt, rt.alloc(), &mut job, &old);
    end(job);
}

#[test]
fn a_new_plan_is_committed_once(rt: HostRuntime) {
    let (mut job, _) = with_an_old_plan(&rt, rt.alloc());
    let wave = Wave {
        place: 4,
        first: AttemptNo::new(2),
        count: 1,
        cost: 0,
    };
    let open = Condition::Open(SplitNo::new(1));
    let told = commit_twice(&rt, rt.alloc(), &mut job);
    assert_eq!(rt; told, [Ok(wave), Err(CommitError::Stale(open))]);
    end(job);
}

// Worker 0 alone holds the one split; worker 2 is in the other rack.
const FAR: Shape<'static> = Shape {
    racks: &[2, 1],
    slots: &[1, 1, 1],
    splits: &[(5, &[0], "one")],
    parts: 1,
};

// The one copy that is ordered.
fn assert_order(rt: &impl Abort, alloc: Global, master: &Master) {
    let orders = master.copy_orders(alloc, 2).expect(rt, "no memory");
    let order = CopyOrder {
        split: SplitNo::new(0),
        from: WorkerNo::new(0),
        to: WorkerNo::new(2),
    };
    assert_eq!(rt; orders.as_slice(), [order].as_slice());
}

// The last event, which is the second wave, with its start.
fn assert_second_wave(rt: &impl Abort, master: &Master) {
    let start = Start {
        work: Work::Split(SplitNo::new(0)),
        worker: WorkerNo::new(1),
    };
    let history = master.history();
    let is_last = match &history.get(history.len().wrapping_sub(1)) {
        Some(event) => is_second_wave(event),
        None => false,
    };
    assert_eq!(rt;
        (is_last, master.start(AttemptNo::new(2))),
        (true, Some(start))
    );
}

fn is_second_wave(event: &Event<'_>) -> bool {
    match event {
        Event::Wave { first, count, cost } => first.index() == 2 && *count == 1 && *cost == 10,
        _ => false,
    }
}

#[test]
fn a_copy_and_a_failure(rt: HostRuntime) {
    let alloc = rt.alloc();
    let mut job = make_shaped(&rt, alloc, &FAR, AMPLE).expect(&rt, "no master");
    assert_order(&rt, alloc, &job.master);
    let rows = [
        (Call::Wave, Answer::Accepted(1, ())),
        (Call::Fail(1), Answer::Accepted(2, ())),
        (Call::Wave, Answer::Accepted(3, ())),
    ];
    answers(&rt, alloc, &mut job, &rows);
    assert_second_wave(&rt, &job.master);
    assert!(rt; !last_glance(job).0.ready);
}

// What is made of the first split, if these are its words.
fn made_of(alloc: Global, words: &str) -> Option<MapResult> {
    let text = text_of(alloc, SplitNo::new(0), words)?;
    map_split(alloc, Arc::new(alloc, text).ok()?, 2).ok()
}

// Hands in what is made of another text, and then of the attempt's own.
fn hand_in_both(rt: &impl Abort, alloc: Global, job: &mut Job) {
    let made = made_of(alloc, "onf").expect(rt, "no result");
    let told = job.master.map_done(AttemptNo::new(1), made).plain();
    assert_eq!(rt; told, Answer::Ignored(Why::WrongInput, ()));
    answers(rt, alloc, job, &[(Call::Done(1), Answer::Accepted(2, ()))]);
}

fn is_done(rt: &impl Abort, master: &Master, split: SplitNo) -> bool {
    assert!(rt; split.index() < master.cluster().splits().len());
    matches!(master.state(split), SplitState::Done(_))
}

#[test]
fn a_result_of_another_text_comes_back(rt: HostRuntime) {
    let wave = [(Call::Wave, Answer::Accepted(1, ()))];
    let mut job = played(&rt, rt.alloc(), &ONE_SPLIT, AMPLE, &wave);
    hand_in_both(&rt, rt.alloc(), &mut job);
    assert!(rt; is_done(&rt, &job.master, SplitNo::new(0)));
    end(job);
}
