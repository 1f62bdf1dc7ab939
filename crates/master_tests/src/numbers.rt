ghost use Rattle.std.specs.Prelude.{◌<◌};

use crate::jobs::SplitRow;
use crate::shared_masters::{AMPLE, Setting, Test, hand_of, join, master_of, share, wave_of};
use block_map::CopyOrder;
use master_state::{Answer, Event, Why};
use node_ids::{AttemptNo, SplitNo, WorkerNo};
use shared_master::{Hand, OfJob};
use std::process::Abort;
use std::sync::Wait;
use std::sync::ledger::Ledger;

// One split, on the first of the workers.
const ROWS: [SplitRow<'static>; 1] = [(5, &[0], "one")];

// The calls that change where a split lies and which workers live, each accepted.
fn call_of_workers<L: Ledger + OfJob, R: Wait + Abort>(on: &Setting<'_, L, R>, hand: &mut Hand<L>) {
    let (b, s) = (WorkerNo::new(1), SplitNo::new(0));
    assert!(on.rt; b.index() < on.shared.sizes().workers && s.index() < on.shared.sizes().splits);
    let told = [
        on.shared.add(on.rt, hand, s, b),
        on.shared.lose(on.rt, hand, s, b),
        on.shared.die(on.rt, hand, b),
        join(on, hand, b, &[]),
    ];
    let wanted = [
        Answer::Accepted(1, ()),
        Answer::Accepted(2, ()),
        Answer::Accepted(3, ()),
        Answer::Accepted(4, ()),
    ];
    assert_eq!(on.rt; told, wanted);
}

// Those of an attempt, which is withdrawn and then old.
fn call_of_attempts<L: Ledger + OfJob, R: Wait + Abort>(
    on: &Setting<'_, L, R>,
    hand: &mut Hand<L>,
) {
    let one = AttemptNo::new(1);
    let old = Answer::Ignored(Why::OldAttempt, ());
    assert!(on.rt; wave_of(on, hand).is_some());
    let told = [
        on.shared.withdraw(on.rt, hand, one),
        on.shared.map_failed(on.rt, hand, one),
        on.shared.part_failed(on.rt, hand, one),
    ];
    let wanted = [Answer::Accepted(6, ()), old, old];
    let is_last = match &hand.last() {
        Some(event) => is_withdrawal(event, one),
        None => false,
    };
    assert_eq!(on.rt; (told, is_last, hand.last_place()), (wanted, true, 6));
}

fn is_withdrawal(event: &Event<'_>, of: AttemptNo) -> bool {
    match event {
        Event::Withdraw(attempt) => attempt.index() == of.index(),
        _ => false,
    }
}

#[derive(Drop)]
struct CallByNumbers;

impl Test for CallByNumbers {
    fn run<L: Ledger + OfJob, R: Wait + Abort>(&self, on: Setting<'_, L, R>) {
        let mut hand = hand_of(&on);
        call_of_workers(&on, &mut hand);
        call_of_attempts(&on, &mut hand);
    }
}

#[test]
fn calls_by_numbers_come_one_after_another(rt: HostRuntime) {
    let master = master_of(&rt, rt.alloc(), (2, 0), &ROWS, AMPLE);
    share(&rt, rt.alloc(), master, &CallByNumbers)
}

// A replica goes to the other rack.
#[derive(Drop)]
struct OrderCopies;

impl Test for OrderCopies {
    fn run<L: Ledger + OfJob, R: Wait + Abort>(&self, on: Setting<'_, L, R>) {
        let orders = on
            .shared
            .copy_orders(on.rt, on.alloc, 2)
            .expect(on.rt, "no memory");
        let order = CopyOrder {
            split: SplitNo::new(0),
            from: WorkerNo::new(0),
            to: WorkerNo::new(2),
        };
        assert_eq!(on.rt; orders.as_slice(), [order].as_slice());
    }
}

#[test]
fn a_copy_is_ordered_under_the_lock(rt: HostRuntime) {
    let master = master_of(&rt, rt.alloc(), (2, 1), &ROWS, AMPLE);
    share(&rt, rt.alloc(), master, &OrderCopies)
}
