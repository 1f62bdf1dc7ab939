ghost use Rattle.std.specs.Prelude.{◌≡◌, []};

use crate::jobs::SplitRow;
use crate::shared_masters::{
    AMPLE, Setting, hand_of, list_of_both, made_of, master_of, settles, wave_of,
};
use master_core::Master;
use master_state::{Answer, Start, Wave, Work};
use node_ids::{AttemptNo, SplitNo, WorkerNo};
use shared_master::{Between, Hand, OfJob, SharedMaster, SharedWave};
use std::alloc::Global;
use std::marker::Brand;
use std::process::Abort;
use std::sync::ledger::{Blank, Ledger};
use std::sync::{Mutex, Wait};
use std::thread;
use std::thread::Threads;
use word_map::MapResult;

// Split u runs on worker a, which holds split s too, once it was added.
const ROWS: [SplitRow<'static>; 2] = [(10, &[0], "one"), (10, &[], "two")];

// Of which turn the problem is known, which turn is solved, in which turn the other thread has called, and
// whether it was waited for in vain.
#[derive(Drop)]
struct Meeting {
    asked: Mutex<u32>,
    solved: Mutex<u32>,
    called: Mutex<u32>,
    late: Mutex<bool>,
}

// Waits for a number to be reached, at most ten million turns.
fn is_reached<R: Wait>(rt: &R, number: &Mutex<u32>, least: u32) -> bool {
    for _ in 0..10_000_000u32 {
        if *number.lock(rt) >= least {
            return true;
        }
        thread::yield_now();
    }
    false
}

// It waits for the other thread's call: before the first solution, and after each further one.
#[derive(Drop)]
struct Waits<'a, R: Wait> {
    rt: &'a R,
    meeting: &'a Meeting,
}

impl<'a, R: Wait> Waits<'a, R> {
    fn meet(&self, turn: u32) {
        if !is_reached(self.rt, &self.meeting.called, turn) {
            *self.meeting.late.lock(self.rt) = true;
        }
    }
}

impl<'a, R: Wait> Between for Waits<'a, R> {
    fn asked(&self, turn: u32) {
        *self.meeting.asked.lock(self.rt) = turn;
        if turn == 1 {
            self.meet(turn);
        }
    }

    fn solved(&self, turn: u32) {
        *self.meeting.solved.lock(self.rt) = turn;
        if turn > 1 {
            self.meet(turn);
        }
    }
}

fn put<R: Wait>(rt: &R, number: &Mutex<u32>, value: u32) {
    *number.lock(rt) = value;
}

fn is_accepted(answer: Answer) -> bool {
    matches!(answer, Answer::Accepted(_, ()))
}

// Worker a gets split s, or loses it. Whether it was accepted.
fn change_holder<L: Ledger + OfJob, R: Wait + Abort>(
    on: &Setting<'_, L, R>,
    hand: &mut Hand<L>,
    is_new: bool,
) -> bool {
    let (a, s) = (WorkerNo::new(0), SplitNo::new(1));
    assert!(on.rt; a.index() < on.shared.sizes().workers && s.index() < on.shared.sizes().splits);
    is_accepted(if is_new {
        on.shared.add(on.rt, hand, s, a)
    } else {
        on.shared.lose(on.rt, hand, s, a)
    })
}

// s loses its holder in the second turn and gets it again in the third. Whether all was accepted.
fn change_twice<L: Ledger + OfJob, R: Wait + Abort>(
    on: &Setting<'_, L, R>,
    hand: &mut Hand<L>,
    meeting: &Meeting,
) -> bool {
    put(on.rt, &meeting.called, 1);
    let is_second = is_reached(on.rt, &meeting.solved, 2);
    let is_lost = change_holder(on, hand, false);
    put(on.rt, &meeting.called, 2);
    let is_third = is_reached(on.rt, &meeting.solved, 3);
    let is_added = change_holder(on, hand, true);
    is_second & is_lost & is_third & is_added
}

// In the first turn u is done; where there are three, s changes its holder twice. Whether all was accepted.
fn call_in_turns<L: Ledger + OfJob, R: Wait + Abort>(
    on: &Setting<'_, L, R>,
    hand: &mut Hand<L>,
    meeting: &Meeting,
    turns: u32,
    made: MapResult,
) -> bool {
    let is_first = is_reached(on.rt, &meeting.asked, 1);
    let is_done = is_accepted(
        on.shared
            .map_done(on.rt, hand, AttemptNo::new(1), made)
            .plain(),
    );
    let is_changed = turns != 3 || change_twice(on, hand, meeting);
    put(on.rt, &meeting.called, 4);
    is_first & is_done & is_changed
}

// A wave of one hand, with these turns of the other's calls between its solutions, and how often it was
// solved.
fn plan_beside<L: Ledger + OfJob + Send + Sync, R: Threads + Wait + Abort + Sync>(
    on: &Setting<'_, L, R>,
    turns: u32,
    one: &mut Hand<L>,
    two: &mut Hand<L>,
) -> (SharedWave, u32) {
    let made = made_of(on.rt, on.alloc, SplitNo::new(0), "one");
    let meeting = Meeting {
        asked: Mutex::new(0),
        solved: Mutex::new(0),
        called: Mutex::new(0),
        late: Mutex::new(false),
    };
    let (planned, accepted) = thread::join(
        on.rt,
        || {
            let waits = Waits {
                rt: on.rt,
                meeting: &meeting,
            };
            on.shared.plan_wave_with(on.rt, on.alloc, one, &waits)
        },
        || call_in_turns(on, two, &meeting, turns, made),
    );
    assert!(on.rt; accepted && !*meeting.late.lock(on.rt));
    let solved = *meeting.solved.lock(on.rt);
    (planned.expect(on.rt, "no wave"), solved)
}

// The second attempt, of s on a, which holds it.
fn expect(rt: &impl Abort, shared: SharedWave, place: u32) {
    let wave = Wave {
        place,
        first: AttemptNo::new(2),
        count: 1,
        cost: 0,
    };
    let start = Start {
        work: Work::Split(SplitNo::new(1)),
        worker: WorkerNo::new(0),
    };
    assert_eq!(rt;
        (shared.wave, shared.starts.as_slice()),
        (wave, [start].as_slice())
    );
}

// With these turns the second wave has this place, and was solved so often.
fn plan_in_turns<L: Ledger + OfJob + Send + Sync, R: Threads + Wait + Abort + Sync>(
    on: &Setting<'_, L, R>,
    (turns, place, solved): (u32, u32, u32),
    one: &mut Hand<L>,
    two: &mut Hand<L>,
) {
    assert!(on.rt; wave_of(on, one).is_some());
    assert!(on.rt; change_holder(on, one, true));
    let (wave, often) = plan_beside(on, turns, one, two);
    expect(on.rt, wave, place);
    assert_eq!(on.rt; often, solved);
}

// So it is, and both hands settle.
fn wave_in_turns<L: Ledger + OfJob + Send + Sync, R: Threads + Wait + Abort + Sync>(
    rt: &R,
    alloc: Global,
    blank: Blank,
    master: Master,
    wanted: (u32, u32, u32),
)
    requires ledger { (blank.name ≡ L.name) × (blank.parts ≡ L.parts) × (blank.parts ≡ 4096) }
    requires job { (master.history ≡ []) × (master.setup ≡ L.setup) }
{
    let shared: SharedMaster<L> = SharedMaster::new(blank, master);
    let on = Setting { rt, alloc, shared };
    let mut one = hand_of(&on);
    let mut two = hand_of(&on);
    plan_in_turns(&on, wanted, &mut one, &mut two);
    let hands = list_of_both(on.alloc, one, two).expect(on.rt, "no memory");
    assert!(on.rt; settles(on.shared, hands));
}

#[test]
fn a_stale_plan_is_made_again(rt: HostRuntime) {
    let master = master_of(&rt, rt.alloc(), (2, 0), &ROWS, AMPLE);
    wave_in_turns::<Brand, _>(&rt, rt.alloc(), Blank::new(4096), master, (1, 4, 2))
}

#[test]
fn after_three_stale_plans_one_is_made_under_the_lock(rt: HostRuntime) {
    let master = master_of(&rt, rt.alloc(), (2, 0), &ROWS, AMPLE);
    wave_in_turns::<Brand, _>(&rt, rt.alloc(), Blank::new(4096), master, (3, 6, 3))
}
