//! Results that come late, twice, from the dead, or of another text.

use crate::jobs::{AMPLE, Call, Row, Shape, SplitRow, answers, last_glance, played};
use crate::shared_masters;
use crate::shared_masters::{
    Setting, Test, hand_of, join, list_of, made_of, master_of, settles, share, wave_of,
};
use master_state::{Answer, Why};
use node_ids::{AttemptNo, SplitNo, WorkerNo};
use shared_master::{Hand, OfJob};
use std::process::Abort;
use std::sync::Wait;
use std::sync::ledger::Ledger;

// Two workers with a slot each, of which the first holds the one split.
const ONE_SPLIT: [SplitRow<'static>; 1] = [(5, &[0], "one")];

const OLD: Answer = Answer::Ignored(Why::OldAttempt, ());

// Attempts of the split that are done, lost, failed and withdrawn. Worker 0 comes back with the split, on
// which it fails, and worker 1 without it.
const LATE: [Row; 21] = [
    (Call::Wave, Answer::Accepted(1, ())),
    (Call::Done(1), Answer::Accepted(2, ())),
    (Call::Done(1), OLD),
    (Call::Die(0), Answer::Accepted(3, ())),
    (Call::Done(1), OLD),
    (Call::Join(0, Some(0)), Answer::Accepted(4, ())),
    (Call::Done(1), OLD),
    (Call::Wave, Answer::Accepted(5, ())),
    (Call::Fail(2), Answer::Accepted(6, ())),
    (Call::Done(2), OLD),
    (Call::Wave, Answer::Accepted(7, ())),
    (Call::Withdraw(3), Answer::Accepted(8, ())),
    (Call::Done(3), OLD),
    (Call::Wave, Answer::Accepted(9, ())),
    (Call::Die(1), Answer::Accepted(10, ())),
    (Call::Done(4), OLD),
    (Call::Join(1, None), Answer::Accepted(11, ())),
    (Call::Done(4), OLD),
    (Call::Wave, Answer::Accepted(12, ())),
    (Call::Done(5), Answer::Accepted(13, ())),
    (Call::Done(4), OLD),
];

// The same of attempts of the parts, once the split is done on worker 1.
const LATE_PARTS: [Row; 14] = [
    (Call::Reduce, Answer::Accepted(14, ())),
    (Call::Done(6), Answer::Accepted(15, ())),
    (Call::Done(6), OLD),
    (Call::Reduce, Answer::Accepted(16, ())),
    (Call::Withdraw(7), Answer::Accepted(17, ())),
    (Call::Done(7), OLD),
    (Call::Reduce, Answer::Accepted(18, ())),
    (Call::Fail(8), Answer::Accepted(19, ())),
    (Call::Done(8), OLD),
    (Call::Reduce, Answer::Accepted(20, ())),
    (Call::Die(0), Answer::Accepted(21, ())),
    (Call::Done(9), OLD),
    (Call::Reduce, Answer::Accepted(22, ())),
    (Call::Done(10), Answer::Accepted(23, ())),
];

#[test]
fn late_results_are_ignored(rt: HostRuntime) {
    let of = Shape {
        racks: &[2],
        slots: &[1, 1],
        splits: &ONE_SPLIT,
        parts: 2,
    };
    let mut job = played(&rt, rt.alloc(), &of, AMPLE, &LATE);
    answers(&rt, rt.alloc(), &mut job, &LATE_PARTS);
    assert_eq!(rt; last_glance(job).1, 2);
}

// A result of these words is handed in: the answer, and whether it came back.
fn hand_in<L: Ledger + OfJob, R: Wait + Abort>(
    on: &Setting<'_, L, R>,
    hand: &mut Hand<L>,
    attempt: u32,
    words: &str,
) -> (Answer, bool) {
    let made = made_of(on.rt, on.alloc, SplitNo::new(0), words);
    match on
        .shared
        .map_done(on.rt, hand, AttemptNo::new(attempt), made)
    {
        Answer::Accepted(place, ()) => (Answer::Accepted(place, ()), false),
        Answer::Ignored(why, back) => {
            let again = made_of(on.rt, on.alloc, SplitNo::new(0), words);
            let is_same = back.text().is_same(again.text());
            (Answer::Ignored(why, ()), is_same)
        }
    }
}

// What the call of a hand is answered.
fn answer_by_hand<L: Ledger + OfJob, R: Wait + Abort>(
    on: &Setting<'_, L, R>,
    hand: &mut Hand<L>,
    call: Call,
) -> Answer {
    match call {
        Call::Wave => Answer::Accepted(wave_of(on, hand).expect(on.rt, "no wave").place, ()),
        Call::Done(attempt) => hand_in(on, hand, attempt, "one").0,
        Call::Fail(attempt) => on.shared.map_failed(on.rt, hand, AttemptNo::new(attempt)),
        Call::Withdraw(attempt) => on.shared.withdraw(on.rt, hand, AttemptNo::new(attempt)),
        Call::Die(worker) => {
            assert!(on.rt; (worker as usize) < on.shared.sizes().workers);
            on.shared.die(on.rt, hand, WorkerNo::new(worker))
        }
        Call::Join(worker, split) => {
            // (the one split, where it is held)
            let splits = [SplitNo::new(0)];
            let held: &[SplitNo] = if split.is_some() { &splits } else { &[] };
            join(on, hand, WorkerNo::new(worker), held)
        }
        _ => panic!(on.rt; "{call:?}"),
    }
}

fn late_by_hand<L: Ledger + OfJob, R: Wait + Abort>(on: &Setting<'_, L, R>, hand: &mut Hand<L>) {
    for (call, want) in &LATE {
        let told = answer_by_hand(on, hand, *call);
        assert_eq!(on.rt; told, *want, "{call:?}");
    }
}

// A result of a text in which one byte differs comes back, and the right one is accepted.
fn lie_by_hand<L: Ledger + OfJob, R: Wait + Abort>(on: &Setting<'_, L, R>, hand: &mut Hand<L>) {
    assert!(on.rt; wave_of(on, hand).is_some());
    let lie = hand_in(on, hand, 1, "onf");
    let truth = hand_in(on, hand, 1, "one");
    let wrong = Answer::Ignored(Why::WrongInput, ());
    assert_eq!(on.rt; (lie, truth.0), ((wrong, true), Answer::Accepted(2, ())));
}

// Both are calls of a hand, which settles alone.
#[derive(Drop)]
struct SettleByHand {
    lies: bool,
}

impl Test for SettleByHand {
    fn run<L: Ledger + OfJob, R: Wait + Abort>(&self, on: Setting<'_, L, R>) {
        let mut hand = hand_of(&on);
        if self.lies {
            lie_by_hand(&on, &mut hand);
        } else {
            late_by_hand(&on, &mut hand);
        }
        let hands = list_of(on.alloc, hand).expect(on.rt, "no list");
        assert!(on.rt; settles(on.shared, hands));
    }
}

#[test]
fn late_results_of_a_hand_are_ignored(rt: HostRuntime) {
    let master = master_of(&rt, rt.alloc(), (2, 0), &ONE_SPLIT, shared_masters::AMPLE);
    share(&rt, rt.alloc(), master, &SettleByHand { lies: false })
}

#[test]
fn a_lie_of_a_hand_comes_back(rt: HostRuntime) {
    let master = master_of(&rt, rt.alloc(), (2, 0), &ONE_SPLIT, shared_masters::AMPLE);
    share(&rt, rt.alloc(), master, &SettleByHand { lies: true })
}
