//! Plans ahead of a shared master.

use crate::jobs::{AMPLE, SplitRow};
use crate::shared_masters::{Setting, Test, hand_of, list_of, master_of, settles, share};
use node_ids::AttemptNo;
use shared_master::{Hand, OfJob, WaveError};
use std::process::Abort;
use std::sync::Wait;
use std::sync::ledger::Ledger;

// The first of two workers in a rack, each with a slot, holds both splits.
const SPLITS: [SplitRow<'static>; 2] = [(20, &[0], "one"), (10, &[0], "two")];

// The place of a plan ahead, its first attempt, how many splits it starts, and their cost.
type Told = Result<Option<(u32, usize, usize, u64)>, WaveError>;

// Plans ahead onto two places of the first worker.
fn ahead<L: Ledger + OfJob, R: Wait + Abort>(on: &Setting<'_, L, R>, hand: &mut Hand<L>) -> Told {
    let places: [u64; 2] = [2, 0];
    assert!(on.rt; places.iter().all(|n| *n <= 255));
    match on.shared.start_ahead(on.rt, on.alloc, hand, &places)? {
        Some(made) => {
            let wave = made.wave;
            Ok(Some((wave.place, wave.first.index(), made.starts.len(), wave.cost)))
        }
        None => Ok(None),
    }
}

// Plans of a hand, of which the second comes right after the first. The hand settles.
#[derive(Drop)]
struct ThreePlans;

impl Test for ThreePlans {
    fn run<L: Ledger + OfJob, R: Wait + Abort>(&self, on: Setting<'_, L, R>) {
        let mut hand = hand_of(&on);
        let first = ahead(&on, &mut hand);
        let second = ahead(&on, &mut hand);
        on.shared.withdraw(on.rt, &mut hand, AttemptNo::new(1));
        let third = ahead(&on, &mut hand);
        let hands = list_of(on.alloc, hand).expect(on.rt, "no list");
        assert_eq!(on.rt;
            [first, second, third],
            [Ok(Some((1, 1, 1, 0))), Ok(None), Ok(Some((3, 2, 1, 0)))]
        );
        assert!(on.rt; settles(on.shared, hands));
    }
}

#[test]
fn a_plan_ahead_waits_for_an_event(rt: HostRuntime) {
    let master = master_of(&rt, rt.alloc(), (2, 0), &SPLITS, AMPLE);
    share(&rt, rt.alloc(), master, &ThreePlans)
}
