//! Waves planned and committed in one hold of the lock, beside waves planned while it is free.
ghost use Rattle.std.specs.Prelude.{◌≡◌, []};

use crate::jobs::SplitRow;
use crate::shared_masters::{list_of, master_of, settles};
use master_core::Master;
use master_state::Limits;
use node_ids::AttemptNo;
use shared_master::{Hand, OfJob, SharedMaster, SharedWave, WaveError};
use std::alloc::Global;
use std::marker::Brand;
use std::process::Abort;
use std::sync::Wait;
use std::sync::ledger::{Blank, Ledger};

// The first of two workers in a rack holds two splits, and the worker of the other rack holds the third.
const SPLITS: [SplitRow<'static>; 3] = [(20, &[0], "one"), (10, &[0], "two"), (5, &[2], "three")];

// A wave's place, its first attempt, how many splits it starts, and its cost.
type Told = Result<(u32, usize, usize, u64), WaveError>;

const FULL: Told = Err(WaveError::HistoryFull);

// The attempts that a master has room for, and the attempts and events that a hand has room for; then three
// waves. All splits start; then a split that was withdrawn, on the same worker; then two, of which one failed
// there.
type Row = ([u32; 3], [Told; 3]);

const FIRST: Told = Ok((1, 1, 3, 20));

const SECOND: Told = Ok((3, 4, 1, 20));

const THIRD: Told = Ok((6, 5, 2, 60));

const ROWS: [Row; 5] = [
    ([200, 200, 200], [FIRST, SECOND, THIRD]),
    ([200, 6, 200], [FIRST, SECOND, THIRD]),
    ([200, 5, 200], [FIRST, SECOND, FULL]),
    ([5, 200, 200], [FIRST, SECOND, FULL]),
    ([200, 200, 5], [FIRST, SECOND, FULL]),
];

fn room_of(events: u32, attempts: u32) -> Limits {
    Limits {
        events,
        attempts,
        sweeps: 0,
    }
}

/// A wave, planned and committed in one hold of the lock or not.
pub fn wave<L: Ledger + OfJob, R: Wait>(
    rt: &R,
    alloc: Global,
    shared: &SharedMaster<L>,
    hand: &mut Hand<L>,
    in_one_hold: bool,
) -> Result<SharedWave, WaveError> {
    if in_one_hold {
        shared.start_best(rt, alloc, hand)
    } else {
        shared.plan_wave(rt, alloc, hand)
    }
}

fn told<L: Ledger + OfJob, R: Wait>(
    rt: &R,
    alloc: Global,
    shared: &SharedMaster<L>,
    hand: &mut Hand<L>,
    in_one_hold: bool,
) -> Told {
    let SharedWave { wave, starts } = wave(rt, alloc, shared, hand, in_one_hold)?;
    Ok((wave.place, wave.first.index(), starts.len(), wave.cost))
}

fn three_waves<L: Ledger + OfJob, R: Wait>(
    rt: &R,
    alloc: Global,
    shared: &SharedMaster<L>,
    hand: &mut Hand<L>,
    in_one_hold: bool,
) -> [Told; 3] {
    let first = told(rt, alloc, shared, hand, in_one_hold);
    shared.withdraw(rt, hand, AttemptNo::new(2));
    let second = told(rt, alloc, shared, hand, in_one_hold);
    shared.map_failed(rt, hand, AttemptNo::new(4));
    shared.withdraw(rt, hand, AttemptNo::new(3));
    [first, second, told(rt, alloc, shared, hand, in_one_hold)]
}

// The waves of a hand, which settles.
fn waves_of_a_hand<L: Ledger + OfJob, R: Wait + Abort>(
    rt: &R,
    alloc: Global,
    blank: Blank,
    master: Master,
    room: Limits,
    in_one_hold: bool,
) -> [Told; 3]
    requires ledger { (blank.name ≡ L.name) × (blank.parts ≡ L.parts) × (blank.parts ≡ 4096) }
    requires job { (master.history ≡ []) × (master.setup ≡ L.setup) }
{
    let shared: SharedMaster<L> = SharedMaster::new(blank, master);
    let mut hand = shared.hand(rt, alloc, room).expect(rt, "no hand");
    let waves = three_waves(rt, alloc, &shared, &mut hand, in_one_hold);
    let hands = list_of(alloc, hand).expect(rt, "no list");
    assert!(rt; settles(shared, hands));
    waves
}

fn assert_waves<R: Wait + Abort>(rt: &R, alloc: Global, row: Row, in_one_hold: bool) {
    let ([attempts, hand_attempts, hand_events], want) = row;
    let (limits, room) = (room_of(200, attempts), room_of(hand_events, hand_attempts));
    let master = master_of(rt, alloc, (2, 1), &SPLITS, limits);
    let waves = waves_of_a_hand::<Brand, _>(rt, alloc, Blank::new(4096), master, room, in_one_hold);
    assert_eq!(rt; waves, want);
}

#[test]
fn waves_in_one_hold_are_as_others(rt: HostRuntime) {
    for row in ROWS {
        assert_waves(&rt, rt.alloc(), row, true);
        assert_waves(&rt, rt.alloc(), row, false);
    }
}
