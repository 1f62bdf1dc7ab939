//! Allocations that are refused: they hold whichever is, one or none.

use crate::jobs::{Call, Shape, SplitRow, answer, end};
use crate::one_hold::wave;
use crate::refusals::{is_as_before, one_master};
use crate::seen::{Shown, seen};
use crate::shared_masters::{
    AMPLE, Setting, Test, list_of, make_master, settles, share, sweep_all,
};
use master_state::Answer;
use node_ids::{SplitNo, WorkerNo};
use shared_master::{Hand, HandError, OfJob, WaveError};
use std::alloc::Global;
use std::process::Abort;
use std::sync::Wait;
use std::sync::ledger::Ledger;

// Two splits, of which the first of two workers holds one and nobody the other.
const ROWS: [SplitRow<'static>; 2] = [(10, &[0], "one"), (10, &[], "two")];

// A hand, unless an allocation is refused.
fn make_hand<L: Ledger + OfJob, R: Wait + Abort>(on: &Setting<'_, L, R>) -> Option<Hand<L>> {
    match on.shared.hand(on.rt, on.alloc, AMPLE) {
        Ok(hand) => Some(hand),
        Err(why) => {
            assert_eq!(on.rt; why, HandError::Memory);
            None
        }
    }
}

// Of two hands one is made, and its call is accepted, where there is memory for its counts.
fn sweep_by_either<L: Ledger + OfJob, R: Wait + Abort>(
    on: &Setting<'_, L, R>,
) -> Option<Vec<Hand<L>>> {
    let first = make_hand(on);
    let second = make_hand(on);
    let mut hand = first.or(second).expect(on.rt, "neither was made");
    if let Some(told) = sweep_all(on, &mut hand, 1) {
        assert_eq!(on.rt; told, Answer::Accepted(1, ()));
    }
    list_of(on.alloc, hand)
}

// They settle, where there was memory for their list.
fn assert_settles<L: Ledger + OfJob, R: Abort>(on: Setting<'_, L, R>, hands: Option<Vec<Hand<L>>>) {
    if let Some(hands) = hands {
        assert!(on.rt; settles(on.shared, hands));
    }
}

#[derive(Drop)]
struct CallByEither;

impl Test for CallByEither {
    fn run<L: Ledger + OfJob, R: Wait + Abort>(&self, on: Setting<'_, L, R>) {
        let hands = sweep_by_either(&on);
        assert_settles(on, hands);
    }
}

#[test]
fn a_refused_hand_changes_nothing(rt: HostRuntime) {
    if let Some(master) = make_master(&rt, rt.alloc(), (2, 0), &ROWS, AMPLE) {
        share(&rt, rt.alloc(), master, &CallByEither);
    }
}

// The place of a wave, made in one hold of the lock or not, unless an allocation is refused.
fn plan<L: Ledger + OfJob, R: Wait + Abort>(
    on: &Setting<'_, L, R>,
    hand: &mut Hand<L>,
    in_one_hold: bool,
) -> Option<u32> {
    let before = on.shared.glance(on.rt).shown();
    match wave(on.rt, on.alloc, &on.shared, hand, in_one_hold) {
        Ok(made) => Some(made.wave.place),
        Err(why) => {
            assert_eq!(on.rt;
                (why, on.shared.glance(on.rt).shown()),
                (WaveError::Memory, before)
            );
            None
        }
    }
}

// The first wave is planned, at the second call where the first is refused.
fn plan_by_one<L: Ledger + OfJob, R: Wait + Abort>(on: &Setting<'_, L, R>) -> Option<Vec<Hand<L>>> {
    let mut hand = make_hand(on)?;
    let first = plan(on, &mut hand, false);
    let second = plan(on, &mut hand, true);
    assert_eq!(on.rt; first.or(second), Some(1));
    list_of(on.alloc, hand)
}

#[derive(Drop)]
struct PlanTwice;

impl Test for PlanTwice {
    fn run<L: Ledger + OfJob, R: Wait + Abort>(&self, on: Setting<'_, L, R>) {
        let hands = plan_by_one(&on);
        assert_settles(on, hands);
    }
}

#[test]
fn a_refused_wave_changes_nothing(rt: HostRuntime) {
    if let Some(master) = make_master(&rt, rt.alloc(), (2, 0), &ROWS, AMPLE) {
        share(&rt, rt.alloc(), master, &PlanTwice);
    }
}

// Split 1 gets a holder.
fn add_holder<L: Ledger + OfJob, R: Wait + Abort>(on: &Setting<'_, L, R>, hand: &mut Hand<L>) {
    let (split, worker) = (SplitNo::new(1), WorkerNo::new(0));
    assert!(on.rt;
        split.index() < on.shared.sizes().splits && worker.index() < on.shared.sizes().workers
    );
    assert_eq!(on.rt;
        on.shared.add(on.rt, hand, split, worker),
        Answer::Accepted(2, ())
    );
}

// The calls of a hand until an allocation is refused.
const CALLS: [Call; 3] = [Call::Wave, Call::Add(1, 0), Call::Wave];

// How many of them were accepted.
fn call_until_refused<L: Ledger + OfJob, R: Wait + Abort>(on: &Setting<'_, L, R>) -> usize {
    let Some(mut hand) = make_hand(on) else {
        return 0;
    };
    if plan(on, &mut hand, true).is_none() {
        return 0;
    }
    add_holder(on, &mut hand);
    if plan(on, &mut hand, true).is_none() {
        return 2;
    }
    3
}

const SHAPE: Shape<'static> = Shape {
    racks: &[2, 0],
    slots: &[1, 1],
    splits: &ROWS,
    parts: 2,
};

// What a master of one thread shows after so many of them.
fn seen_after(rt: &impl Abort, alloc: Global, calls: usize) -> Option<Shown> {
    let mut job = one_master(rt, alloc, &SHAPE)?;
    for call in &CALLS[..calls.min(3)] {
        answer(rt, alloc, &mut job, *call)?;
    }
    let shown = seen(alloc, &job.master).ok();
    end(job);
    shown
}

#[derive(Drop)]
struct CompareWithOneThread;

impl Test for CompareWithOneThread {
    fn run<L: Ledger + OfJob, R: Wait + Abort>(&self, on: Setting<'_, L, R>) {
        let calls = call_until_refused(&on);
        let before = seen_after(on.rt, on.alloc, calls);
        is_as_before(on.rt, on.alloc, on.shared.into_master().master(), before);
    }
}

// Under the lock stands what the accepted calls made, whichever allocation is refused.
#[test]
fn a_refused_call_leaves_the_whole_master(rt: HostRuntime) {
    if let Some(master) = make_master(&rt, rt.alloc(), (2, 0), &ROWS, AMPLE) {
        share(&rt, rt.alloc(), master, &CompareWithOneThread);
    }
}
