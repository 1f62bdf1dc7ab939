ghost use Rattle.std.specs.Prelude.{◌≡◌, ◌<◌, [], length, vec_len, IsTrue};
ghost use Rattle.hand_ledger.specs.Settling.{all_calls};

use crate::jobs::SplitRow;
use crate::shared_masters::{
    AMPLE, Setting, Test, hand_of, list_of, master_of, share, sweep_all, wave_of,
};
use master_core::Master;
use master_state::{Answer, Limits, Why};
use shared_master::{Closed, Hand, HandError, OfJob, SharedMaster, Torn, settle};
use std::alloc::Global;
use std::marker::Brand;
use std::ops::Range;
use std::process::Abort;
use std::sync::Wait;
use std::sync::ledger::{Blank, Ledger};
use std::thread;
use std::thread::Threads;

// Two splits on the first of two workers.
const TWO_SPLITS: [SplitRow<'static>; 2] = [(10, &[0], "one two"), (20, &[0], "two")];

// The place of a sweep with this count for each worker.
fn sweep_place<L: Ledger + OfJob, R: Wait>(
    on: &Setting<'_, L, R>,
    hand: &mut Hand<L>,
    count: u64,
) -> Option<u32> {
    match sweep_all(on, hand, count)? {
        Answer::Accepted(place, ()) => Some(place),
        Answer::Ignored(_, ()) => None,
    }
}

// Calls of a thread, of which each is accepted: every fourth is a wave, and the others are sweeps, which
// their counts tell apart. The place of the first.
fn call_often<L: Ledger + OfJob, R: Wait>(
    on: &Setting<'_, L, R>,
    hand: &mut Hand<L>,
    calls: Range<u64>,
) -> Option<u32> {
    let mut first = None;
    for call in calls {
        let place = if call % 4 == 0 {
            wave_of(on, hand)?.place
        } else {
            sweep_place(on, hand, call)?
        };
        first = first.or(Some(place));
    }
    first
}

// Two threads of a hundred accepted calls each, on a master with room for no more: the second one's first
// place.
fn call_in_two_threads<L: Ledger + OfJob + Send + Sync, R: Threads + Wait + Abort + Sync>(
    on: &Setting<'_, L, R>,
    one: &mut Hand<L>,
    two: &mut Hand<L>,
) -> u32 {
    let (first, second) = thread::join(
        on.rt,
        || call_often(on, one, 1000..1100),
        || call_often(on, two, 2000..2100),
    );
    assert!(on.rt; first.is_some());
    second.expect(on.rt, "a call was ignored")
}

fn is_full<L: Ledger + OfJob, R: Wait>(on: &Setting<'_, L, R>, hand: &mut Hand<L>) -> bool {
    sweep_all(on, hand, 0) == Some(Answer::Ignored(Why::HistoryFull, ()))
}

fn is_full_for_both<L: Ledger + OfJob, R: Wait>(
    on: &Setting<'_, L, R>,
    one: &mut Hand<L>,
    two: &mut Hand<L>,
) -> bool {
    is_full(on, one) && is_full(on, two)
}

// The notes of a hand that had room when the master had none.
fn is_told_full<L: Ledger>(hand: &Hand<L>) -> bool {
    hand.is_full() && !hand.is_strange() && hand.room() == AMPLE
}

// Whether these are all hands: then every event is a call of theirs.
fn are_all<L: Ledger + OfJob>(closed: &mut Closed<L>, hands: &mut [Hand<L>]) -> bool
    requires { L.parts ≡ 4096 }
    ensures { IsTrue result → length (all_calls hands.old) ≡ length closed.old.job.history }
{
    closed.audit(hands);
    hands.len() as u64 == closed.made()
}

// One hand is not all, and its history is torn.
fn settle_one<L: Ledger + OfJob>(
    rt: &impl Abort,
    mut closed: Closed<L>,
    mut hands: Vec<Hand<L>>,
) -> Torn<L>
    requires { L.parts ≡ 4096 }
{
    assert!(rt; !are_all(&mut closed, &mut hands));
    settle(closed, hands).err().expect(rt, "a hand is left out")
}

// How many events there are, and how many sweeps.
fn counts_of(master: Master) -> (usize, usize) {
    (master.history().len(), master.sweeps().len())
}

// Both are all, and settle.
fn settle_both<L: Ledger + OfJob>(
    rt: &impl Abort,
    mut closed: Closed<L>,
    mut hands: Vec<Hand<L>>,
    two: Hand<L>,
) -> (usize, usize)
    requires { L.parts ≡ 4096 }
{
    hands.push(two).expect(rt, "no memory");
    assert!(rt; are_all(&mut closed, &mut hands));
    counts_of(
        settle(closed, hands)
            .ok()
            .expect(rt, "every hand is there")
            .master,
    )
}

// One hand alone is torn at the lowest place of the other; both settle. How many events there are, and how
// many sweeps.
fn settle_one_and_both<L: Ledger + OfJob>(
    rt: &impl Abort,
    closed: Closed<L>,
    one: Vec<Hand<L>>,
    two: Hand<L>,
    lowest: u32,
) -> (usize, usize)
    requires { L.parts ≡ 4096 }
{
    let torn = settle_one(rt, closed, one);
    assert_eq!(rt; (torn.place, torn.closed.master().events()), (lowest, 200));
    settle_both(rt, torn.closed, torn.hands, two)
}

fn settle_two_hands<L: Ledger + OfJob + Send + Sync, R: Threads + Wait + Abort + Sync>(
    rt: &R,
    alloc: Global,
    blank: Blank,
    master: Master,
)
    requires ledger { (blank.name ≡ L.name) × (blank.parts ≡ L.parts) × (blank.parts ≡ 4096) }
    requires job { (master.history ≡ []) × (master.setup ≡ L.setup) }
{
    let shared: SharedMaster<L> = SharedMaster::new(blank, master);
    let on = Setting { rt, alloc, shared };
    let mut one = hand_of(&on);
    let mut two = hand_of(&on);
    let lowest = call_in_two_threads(&on, &mut one, &mut two);
    assert!(on.rt; is_full_for_both(&on, &mut one, &mut two));
    assert!(on.rt; is_told_full(&one) && is_told_full(&two));
    let alone = list_of(on.alloc, one).expect(on.rt, "no memory");
    let counts = settle_one_and_both(on.rt, on.shared.into_master(), alone, two, lowest);
    assert_eq!(on.rt; counts, (200, 150));
}

#[test]
fn calls_of_two_threads_settle(rt: HostRuntime) {
    let master = master_of(&rt, rt.alloc(), (2, 0), &TWO_SPLITS, AMPLE);
    settle_two_hands::<Brand, _>(&rt, rt.alloc(), Blank::new(4096), master)
}

const NO_ROOM: Limits = Limits {
    events: 0,
    attempts: 0,
    sweeps: 0,
};

// All hands that a master has.
fn make_all_hands<L: Ledger + OfJob, R: Wait + Abort>(on: &Setting<'_, L, R>) -> Vec<Hand<L>> {
    let mut hands = Vec::new(on.alloc);
    for made in 0..4095u32 {
        let Ok(hand) = on.shared.hand(on.rt, on.alloc, NO_ROOM) else {
            panic!(on.rt; "no hand after {made}")
        };
        hands.push(hand).expect(on.rt, "no memory");
    }
    hands
}

// Why there is no other. That there is none the law says, and no test.
fn why_no_other<L: Ledger + OfJob, R: Wait + Abort>(
    on: &Setting<'_, L, R>,
    mut hands: Vec<Hand<L>>,
) -> HandError
    requires { (L.parts ≡ 4096) × (vec_len hands ≡ 4095) }
{
    match on.shared.hand(on.rt, on.alloc, NO_ROOM) {
        Err(error) => error,
        Ok(hand) => {
            hands.push(hand).expect(on.rt, "no memory");
            on.shared.are_few(on.rt, &mut hands);
            unreachable!()
        }
    }
}

#[derive(Drop)]
struct AskForTooMany;

impl Test for AskForTooMany {
    fn run<L: Ledger + OfJob, R: Wait + Abort>(&self, on: Setting<'_, L, R>) {
        let hands = make_all_hands(&on);
        assert!(on.rt; hands.len() == 4095);
        assert_eq!(on.rt; why_no_other(&on, hands), HandError::Limit);
    }
}

#[test]
fn the_hands_of_a_master_are_few(rt: HostRuntime) {
    let master = master_of(&rt, rt.alloc(), (1, 0), &[], NO_ROOM);
    share(&rt, rt.alloc(), master, &AskForTooMany)
}
