ghost use Rattle.std.specs.Prelude.{◌≡◌, ◌≢◌, ◌<◌, ◌≤◌, [], length, Err, Some, IfErr, IfSome, None, OnErr};
ghost use Rattle.std.specs.Prelude.{OnOk, true};
ghost use Rattle.std.specs.Arc.{arc_value};
ghost use Rattle.beat_board.specs.Values.{SeatValue};
ghost use Rattle.std.specs.Option.{is_some};
ghost use Rattle.master_state.specs.declared.events.Event.{Event};
ghost use Rattle.shuffle_reduce.specs.Gather.{texts_of_runs};
ghost use Rattle.hand_ledger.specs.Hands.{new_hand, with_place};
ghost use Rattle.job_threads.specs.Steps.{MayEndWith};
ghost use Rattle.job_threads.specs.Telling.{Does, HasWorked, IsAnswered, IsMapTold, IsPartTold, Performs};
ghost use Rattle.job_threads.specs.Telling.{Tells, worker_room};
ghost use Rattle.job_threads.specs.declared.gate.Go.{Go};
ghost use Rattle.job_threads.specs.declared.outcome.RunError.{RunError};

use crate::aim::Aim;
use crate::beats::{Beating, Pulse};
use crate::common::{Common, GoingOn, judge, judge_go};
use crate::gate::{Gate, Go};
use crate::lanes::{Half, LaneEnd};
use crate::outcome::RunError;
use beat_board::Seat;
use lane_queue::Order;
use master_state::{Answer, Why};
use node_ids::{AttemptNo, PartNo};
use shared_master::{Hand, OfJob};
use shuffle_reduce::{PartResult, are_of_part, merge_paced};
use std::rt::Clock;
use std::sync::ledger::Ledger;
use std::sync::{Arc, Wait};
use std::thread;
use std::time::Duration;
use word_map::{MapResult, Run, SplitText, map_split_paced};

// After so many takes without an order a worker sleeps at each further one.
const EAGER_TAKES: u32 = 16;

// How many microseconds a nap takes among few workers.
const NAP_MICROS: u64 = 50;

// For each so many workers a nap is longer by `NAP_MICROS`, since the end of each nap takes processor time.
const CROWD: usize = 64;

// What the thread of a worker is given.
#[derive(Drop)]
pub(crate) struct Worker<'a, L: Ledger + OfJob + Aim> {
    pub(crate) hand: Hand<L>,
    pub(crate) orders: LaneEnd<'a, L>,
    pub(crate) pulse: Pulse<'a, L>,
    ghost hand_is: { hand ≡ new_hand (length L.setup.cluster.slots) worker_room },
    ghost orders_are: { orders.takes ≡ [] },
}

// What the thread of a worker gives back.
#[derive(Drop)]
pub(crate) struct Back<L: Ledger + Aim> {
    pub(crate) hand: Hand<L>,
    pub(crate) end: Result<(), RunError>,
    pub(crate) half: Half<L>,
    pub(crate) seat: Option<Seat>,
    ghost board: { (s : SeatValue) → seat ≡ Some s → s.board ≡ L.board.board },
    ghost limit: { end ≡ Err RunError.GateLimit → L.may_end ≡ true },
    ghost thread: { end ≢ Err RunError.NoThread },
}

// Beats, takes orders and does them, until the run is over or the worker is stopped. It beats also while it
// maps and merges.
pub(crate) fn work<L: Ledger + OfJob + Aim, G: Gate, R: Wait + Clock>(
    common: &Common<'_, L, G, R>,
    worker: Worker<'_, L>,
) -> Back<L>
    ensures worked { HasWorked L.setup result.half result.hand }
{
    let Worker {
        mut hand,
        mut orders,
        pulse,
    } = worker;
    let beating = Beating::new(pulse, &common.flags);
    let mut end = Ok(());
    let mut empty = 0;
    for _ in common.rt.forever() {
        let Some(going) = beating.beat() else {
            break;
        };
        match take_one(common, &beating, &mut hand, &mut orders, going, empty) {
            Ok(takes) => empty = takes,
            Err(error) => {
                end = Err(error);
                common.flags.end();
                break;
            }
        }
    }
    Back {
        hand,
        end,
        half: orders.into_half(),
        seat: beating.seat(),
    }
}

// Takes the next order and does it, unless its attempt is lost: how many takes had no order by now.
fn take_one<L: Ledger + OfJob + Aim, G: Gate, R: Wait + Clock>(
    common: &Common<'_, L, G, R>,
    beating: &Beating<'_, '_, L>,
    hand: &mut Hand<L>,
    orders: &mut LaneEnd<'_, L>,
    going: GoingOn,
    empty: u32,
) -> Result<u32, RunError>
    ensures worked { HasWorked L.setup orders.old hand.old → HasWorked L.setup orders.new hand.new }
    ensures err { IfErr result (MayEndWith (G.may_end ≡ true)) }
{
    let Some(order) = orders.take(common.rt, going) else {
        return Ok(wait(common.rt, empty, common.shared.sizes().workers));
    };
    if !orders.is_lost(&order) {
        perform(common, beating, hand, &order)?;
    }
    Ok(0)
}

// Leaves the processor to others, among so many workers: how many takes had no order by now.
fn wait<R: Clock>(rt: &R, empty: u32, workers: usize) -> u32 {
    if empty < EAGER_TAKES {
        thread::yield_now();
        return empty + 1;
    }
    let crowds = 1 + workers / CROWD;
    thread::sleep(rt, Duration::from_micros(NAP_MICROS * crowds as u64));
    empty
}

// Does an order, once its hand has room for a call more.
fn perform<L: Ledger + OfJob + Aim, G: Gate, R: Wait>(
    common: &Common<'_, L, G, R>,
    beating: &Beating<'_, '_, L>,
    hand: &mut Hand<L>,
    order: &Order,
) -> Result<(), RunError>
    ensures performs { Performs L.setup order.now hand.old hand.new }
    ensures err { IfErr result (MayEndWith (G.may_end ≡ true)) }
{
    make_room(hand)?;
    do_order(common, beating, hand, order)
}

// Gives a hand room for a call more.
fn make_room<L: Ledger>(hand: &mut Hand<L>) -> Result<(), RunError>
    ensures ok { OnOk result (hand.new ≡ with_place hand.old) }
    ensures same { OnErr result (hand.new ≡ hand.old) }
    ensures err { IfErr result (λ e. e ≡ RunError.Memory) }
{
    match hand.make_room() {
        Ok(()) => Ok(()),
        Err(_) => Err(RunError::Memory),
    }
}

// Does an order.
fn do_order<L: Ledger + OfJob + Aim, G: Gate, R: Wait>(
    common: &Common<'_, L, G, R>,
    beating: &Beating<'_, '_, L>,
    hand: &mut Hand<L>,
    order: &Order,
) -> Result<(), RunError>
    ensures does { Does L.setup order.now hand.old hand.new }
    ensures err { IfErr result (MayEndWith (G.may_end ≡ true)) }
{
    match order {
        Order::Map(attempt, text) => {
            judge_go(common.gate.before_map(order))?;
            let made = mapped(common, beating, text);
            let Some(going) = beating.beat() else {
                return Ok(());
            };
            let answer = tell_map(common, hand, *attempt, made, going);
            judge(answer, hand)?;
            judge_go(ask_after(common, order))
        }
        Order::Reduce(attempt, part, runs) => {
            let made = reduced(common, beating, *part, runs);
            let Some(going) = beating.beat() else {
                return Ok(());
            };
            let answer = tell_reduce(common, hand, *attempt, made, going);
            judge(answer, hand)
        }
    }
}

// What the gate says when the master has answered the worker's call for an order.
fn ask_after<L: Ledger + OfJob + Aim, G: Gate, R>(common: &Common<'_, L, G, R>, order: &Order) -> Go
    requires { IsAnswered L.setup order.now }
    ensures { result ≡ Go.Over → G.may_end ≡ true }
{
    common.gate.after_map(order)
}

// The words of the text; none where memory is wanting.
fn mapped<L: Ledger + OfJob + Aim, G: Gate, R>(
    common: &Common<'_, L, G, R>,
    beating: &Beating<'_, '_, L>,
    text: &Arc<SplitText>,
) -> Option<MapResult>
    ensures text { IfSome result (λ made. made.text ≡ arc_value text.now) }
    ensures parts { IfSome result (λ made. made.parts ≡ L.setup.cluster.parts) }
{
    map_split_paced(
        common.alloc,
        Arc::try_clone(text).ok()?,
        common.parts,
        beating,
    )
    .ok()
}

// The part of the words; none also where the runs are not what a merge asks for.
fn reduced<L: Ledger + OfJob + Aim, G: Gate, R>(
    common: &Common<'_, L, G, R>,
    beating: &Beating<'_, '_, L>,
    part: PartNo,
    runs: &[Arc<Run>],
) -> Option<PartResult>
    ensures part { IfSome result (λ made. made.part ≡ part) }
    ensures parts { IfSome result (λ made. made.parts ≡ L.setup.cluster.parts) }
    ensures texts { IfSome result (λ made. made.texts ≡ texts_of_runs runs.now) }
{
    if part.index() >= common.parts || !are_of_part(runs, part, common.parts) {
        return None;
    }
    merge_paced(common.alloc, common.parts, part, runs, beating).ok()
}

// Tells the master what became of a map attempt.
#[tactic(auto, using(crate::proofs::Telling::kept_plainly))]
fn tell_map<L: Ledger + OfJob + Aim, G: Gate, R: Wait>(
    common: &Common<'_, L, G, R>,
    hand: &mut Hand<L>,
    attempt: AttemptNo,
    made: Option<MapResult>,
    _going: GoingOn,
) -> Answer
    ensures first { IsMapTold L.setup attempt made hand.old }
    ensures tells { Tells (Event.MapDone attempt) (Event.MapFailed attempt) (is_some made)
        hand.old result hand.new }
{
    let Some(made) = made else {
        return common.shared.map_failed(common.rt, hand, attempt);
    };
    match common.shared.map_done(common.rt, hand, attempt, made) {
        Answer::Ignored(Why::WrongInput, _) => common.shared.map_failed(common.rt, hand, attempt),
        answer => answer.plain(),
    }
}

// The same of a reduce attempt.
#[tactic(auto, using(crate::proofs::Telling::kept_plainly))]
fn tell_reduce<L: Ledger + OfJob + Aim, G: Gate, R: Wait>(
    common: &Common<'_, L, G, R>,
    hand: &mut Hand<L>,
    attempt: AttemptNo,
    made: Option<PartResult>,
    _going: GoingOn,
) -> Answer
    ensures first { IsPartTold L.setup attempt made hand.old }
    ensures tells { Tells (Event.PartDone attempt) (Event.PartFailed attempt) (is_some made)
        hand.old result hand.new }
{
    let Some(made) = made else {
        return common.shared.part_failed(common.rt, hand, attempt);
    };
    match common.shared.part_done(common.rt, hand, attempt, made) {
        Answer::Ignored(Why::WrongInput, _) => common.shared.part_failed(common.rt, hand, attempt),
        answer => answer.plain(),
    }
}
