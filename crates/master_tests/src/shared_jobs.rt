use crate::jobs::SplitRow;
use crate::shared_masters::{
    AMPLE, Setting, Test, hand_of, list_of, made_of, master_of, settled, share, wave_of,
};
use master_core::Master;
use master_state::{Answer, Event, Reply, Why};
use node_ids::{AttemptNo, SplitNo, WorkerNo};
use shared_master::{Hand, OfJob};
use shuffle_reduce::{PartResult, are_of_part, merge};
use std::alloc::Global;
use std::process::Abort;
use std::sync::Wait;
use std::sync::ledger::Ledger;
use word_map::MapResult;

// One split, on the first of two workers.
const ROWS: [SplitRow<'static>; 1] = [(5, &[0], "one two")];

// A wave, and a backup of its attempt.
fn start_twice<L: Ledger + OfJob, R: Wait + Abort>(on: &Setting<'_, L, R>, hand: &mut Hand<L>) {
    let (b, s, two) = (WorkerNo::new(1), SplitNo::new(0), AttemptNo::new(2));
    let wave = wave_of(on, hand).expect(on.rt, "no wave");
    assert!(on.rt; b.index() < on.shared.sizes().workers && s.index() < on.shared.sizes().splits);
    let answer = on.shared.backup(on.rt, hand, s, b);
    assert_eq!(on.rt;
        (wave.place, wave.count, answer),
        (1, 1, Answer::Accepted(2, two))
    );
    let is_last = match &hand.last() {
        Some(event) => is_second_backup(event),
        None => false,
    };
    assert!(on.rt; is_last);
}

// Whether it is the second attempt, of the first split on the second worker.
fn is_second_backup(event: &Event<'_>) -> bool {
    match event {
        Event::Backup(attempt, split, worker) => {
            attempt.index() == 2 && split.index() == 0 && worker.index() == 1
        }
        _ => false,
    }
}

// What a result is answered, which does not come back.
fn place_of(answer: Answer<(), MapResult>) -> Result<u32, Why> {
    match answer {
        Answer::Accepted(place, ()) => Ok(place),
        Answer::Ignored(why, _) => Err(why),
    }
}

/// Starts a part and hands in what its runs make: the place of the second call, where both were accepted.
pub fn reduce_one<L: Ledger + OfJob, R: Wait + Abort>(
    on: &Setting<'_, L, R>,
    hand: &mut Hand<L>,
) -> Option<u32> {
    let Answer::Accepted(_, reply) = on.shared.reduce_start(on.rt, on.alloc, hand) else {
        return None;
    };
    let made = made_of_part(on.rt, on.alloc, &reply);
    match on.shared.part_done(on.rt, hand, reply.attempt, made) {
        Answer::Accepted(place, ()) => Some(place),
        Answer::Ignored(_, _) => None,
    }
}

fn made_of_part(rt: &impl Abort, alloc: Global, reply: &Reply) -> PartResult {
    let (part, runs) = (reply.part, reply.runs.as_slice());
    assert!(rt; part.index() < 2 && are_of_part(runs, part, 2));
    merge(alloc, 2, part, runs).expect(rt, "no memory")
}

// A job by one hand: the second attempt is done first.
fn run_a_job<L: Ledger + OfJob, R: Wait + Abort>(on: &Setting<'_, L, R>, hand: &mut Hand<L>) {
    start_twice(on, hand);
    let (one, two) = (AttemptNo::new(1), AttemptNo::new(2));
    let made = made_of(on.rt, on.alloc, SplitNo::new(0), "one two");
    let same = made_of(on.rt, on.alloc, SplitNo::new(0), "one two");
    let second = place_of(on.shared.map_done(on.rt, hand, two, made));
    let first = place_of(on.shared.map_done(on.rt, hand, one, same));
    let reducible = on.shared.glance(on.rt).shown().reducible;
    assert_eq!(on.rt;
        (second, first, reducible),
        (Ok(3), Err(Why::OldAttempt), true)
    );
    let parts = [
        reduce_one(on, hand),
        reduce_one(on, hand),
        reduce_one(on, hand),
    ];
    let open = on.shared.glance(on.rt).shown().open_parts;
    assert_eq!(on.rt; (parts, open), ([Some(5), Some(7), None], 0));
}

fn results_in(settled: Option<Master>) -> Option<usize> {
    Some(settled?.results().len())
}

// It settles by this hand alone, which made every call, with both parts.
#[derive(Drop)]
struct SettleAJob;

impl Test for SettleAJob {
    fn run<L: Ledger + OfJob, R: Wait + Abort>(&self, on: Setting<'_, L, R>) {
        let mut hand = hand_of(&on);
        run_a_job(&on, &mut hand);
        let hands = list_of(on.alloc, hand).expect(on.rt, "no list");
        assert_eq!(on.rt; results_in(settled(on.shared, hands)), Some(2));
    }
}

#[test]
fn a_job_by_one_hand(rt: HostRuntime) {
    let master = master_of(&rt, rt.alloc(), (2, 0), &ROWS, AMPLE);
    share(&rt, rt.alloc(), master, &SettleAJob)
}
