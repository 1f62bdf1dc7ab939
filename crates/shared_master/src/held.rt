ghost use Rattle.std.specs.Prelude.{◌≡◌, ◌+◌, ◌<◌, ◌≤◌, ◌↔◌, [], ◌∷◌, true, length, IsTrue, IfOk, OnErr};
ghost use Rattle.std.specs.Prelude.{All, OnOk, Err, map, option_to_list};
ghost use Rattle.block_map.specs.Copies.{AreCopies, holdings};
ghost use Rattle.master_state.specs.Jobs.{died_in, GivesBack, IsGlance, TellsNext};
ghost use Rattle.master_state.specs.Refusals.{Call, IsKnown};
ghost use Rattle.master_state.specs.declared.events.Event.{Event};
ghost use Rattle.master_core.specs.Backups.{IsBackupWorker};
ghost use Rattle.hand_ledger.specs.Hands.{has_room, new_hand, noted};
ghost use Rattle.hand_ledger.specs.Settling.{all_calls};
ghost use Rattle.hand_ledger.specs.declared.making.HandError.{HandError};
ghost use Rattle.shared_master.specs.Steps.{answered, call_of, HasCounts, IsAt, IsBarrier, IsLast, IsOwn};
ghost use Rattle.shared_master.specs.Steps.{IsReduceStep, IsStep, Replies, total_after};
ghost use Rattle.shared_master.specs.Held.{HeldValue, IsMasterOf, IsStillSeen};

use crate::calls::PlainCall;
use crate::of_job::OfJob;
use block_map::CopyOrder;
use hand_ledger::{Hand, HandError, Hands};
use master_core::Master;
use master_state::{Answer, Glance, Limits, Reply, Why};
use node_ids::{AttemptNo, SplitNo, SplitSet, WorkerNo};
use shuffle_reduce::PartResult;
use std::alloc::{AllocError, Global};
use std::marker::Model;
use std::sync::ledger::Ledger;
use word_map::MapResult;
use worker_table::DeadList;

// What lies under the lock: a master of the job, and what is kept of all hands.
#[derive(Drop)]
pub(crate) struct Held<L: Ledger + OfJob> {
    pub(crate) master: Master,
    pub(crate) hands: Hands<L>,
    pub(crate) seen: Option<Seen>,
}

// What was seen at a glance, and how many events there were by then: it is told again while no event has
// come, since a master remembers none.
#[derive(Clone, Copy)]
pub(crate) struct Seen {
    events: u32,
    glance: Glance,
}

impl<L: Ledger + OfJob> Model for Held<L> {
    ghost Value = { HeldValue };

    ghost view = { λ h. record { job = h.master; made = h.hands.made } };

    ghost invariant = { λ h. (h.hands.total ≡ length h.master.history) × IsStillSeen h.master h.seen
        × (h.master.setup ≡ L.setup) };
}

impl<L: Ledger + OfJob> Held<L> {
    // A hand without a call, for the workers of the job.
    pub(crate) fn hand(&mut self, alloc: Global, room: Limits) -> Result<Hand<L>, HandError>
        ensures job { self.new.job ≡ self.old.job }
        ensures made { OnOk result (self.new.made ≡ self.old.made + 1) }
        ensures err { OnErr result (self.new ≡ self.old) }
        ensures limit { (result ≡ Err HandError.Limit) ↔ (self.old.made ≡ 4095) }
        ensures hand { IfOk result (λ h. h ≡ new_hand (length L.setup.cluster.slots) room) }
    {
        let workers = self.master.cluster().slots().len();
        self.hands.hand(alloc, workers, room)
    }

    // Hands that exist at one time are no more than were made.
    pub(crate) fn are_few(&mut self, hands: &mut [Hand<L>])
        requires { L.parts ≡ 4096 }
        ensures made { length hands.old ≤ self.old.made }
        ensures few { length hands.old ≤ 4095 }
        ensures hands { hands.new ≡ hands.old }
        ensures held { self.new ≡ self.old }
    {
        self.hands.are_few(hands);
    }

    // Hands have no more calls than there are events, and as many calls as events if all hands are there.
    pub(crate) fn audit(&mut self, hands: &mut [Hand<L>])
        requires { L.parts ≡ 4096 }
        ensures bound { length (all_calls hands.old) ≤ length self.old.job.history }
        ensures all { length hands.old ≡ self.old.made
            → length (all_calls hands.old) ≡ length self.old.job.history }
        ensures hands { hands.new ≡ hands.old }
        ensures held { self.new ≡ self.old }
    {
        self.hands.audit(hands);
    }

    // The master, without its hands.
    pub(crate) fn into_master(self) -> Master
        ensures { result ≡ self.job }
    {
        let Held {
            master,
            hands: _,
            seen: _,
        } = self;
        master
    }

    // A law: what lies under the lock is a master of the job.
    pub(crate) fn is_of_job(&self)
        ensures { IsMasterOf L.setup self.now.job }
    {
        self.master.is_kept();
    }

    // Whether the hand keeps a count for each worker, and its last call stands in the history.
    pub(crate) fn is_own(&self, hand: &Hand<L>) -> bool
        ensures { IsTrue result ↔ IsOwn self.now.job hand.now }
    {
        hand.workers() == self.master.cluster().slots().len() && hand.stands(self.master.history())
    }

    // Why a call does not reach the master, if it does not.
    fn why_not(&self, hand: &Hand<L>, counts: usize) -> Option<Why>
        ensures { IsBarrier self.now.job hand.now counts 0 result }
    {
        if !self.is_own(hand) {
            Some(Why::StrangeHand)
        } else if !hand.has_room(counts, 0) {
            Some(Why::HistoryFull)
        } else {
            None
        }
    }

    // A call that hands in numbers alone.
    pub(crate) fn step(&mut self, hand: &mut Hand<L>, call: &PlainCall) -> Answer
        requires { IsKnown L.setup (call_of call.now) }
        ensures old { IsMasterOf L.setup self.old.job }
        ensures step { IsStep self.old.job hand.old (call_of call.now) [] result self.new.job hand.new }
        ensures made { self.new.made ≡ self.old.made }
    {
        self.is_of_job();
        if let Some(why) = self.why_not(hand, 0) {
            ignore(hand, 0, why);
            return Answer::Ignored(why, ());
        }
        let answer = call.ask(&mut self.master);
        enter(&self.master, &mut self.hands, hand, None, &answer);
        answer
    }

    pub(crate) fn join(
        &mut self,
        hand: &mut Hand<L>,
        worker: WorkerNo,
        set: SplitSet,
        kept: SplitSet,
    ) -> Answer
        requires known { IsKnown L.setup (Call.Join worker set) }
        requires same { kept ≡ set }
        ensures old { IsMasterOf L.setup self.old.job }
        ensures step { IsStep self.old.job hand.old (Call.Join worker set) [] result
            self.new.job hand.new }
        ensures made { self.new.made ≡ self.old.made }
    {
        self.is_of_job();
        if let Some(why) = self.why_not(hand, 0) {
            ignore(hand, 0, why);
            return Answer::Ignored(why, ());
        }
        let answer = self.master.join(worker, set);
        enter_join(&self.master, &mut self.hands, hand, worker, kept, &answer);
        answer
    }

    pub(crate) fn map_done(
        &mut self,
        hand: &mut Hand<L>,
        attempt: AttemptNo,
        made: MapResult,
    ) -> Answer<(), MapResult>
        ensures old { IsMasterOf L.setup self.old.job }
        ensures step { IsStep self.old.job hand.old (Call.MapDone attempt made) [] result
            self.new.job hand.new }
        ensures back { GivesBack made result }
        ensures made { self.new.made ≡ self.old.made }
    {
        self.is_of_job();
        if let Some(why) = self.why_not(hand, 0) {
            ignore(hand, 0, why);
            return Answer::Ignored(why, made);
        }
        let answer = self.master.map_done(attempt, made);
        enter(&self.master, &mut self.hands, hand, None, &answer);
        answer
    }

    pub(crate) fn part_done(
        &mut self,
        hand: &mut Hand<L>,
        attempt: AttemptNo,
        made: PartResult,
    ) -> Answer<(), PartResult>
        ensures old { IsMasterOf L.setup self.old.job }
        ensures step { IsStep self.old.job hand.old (Call.PartDone attempt made) [] result
            self.new.job hand.new }
        ensures back { GivesBack made result }
        ensures made { self.new.made ≡ self.old.made }
    {
        self.is_of_job();
        if let Some(why) = self.why_not(hand, 0) {
            ignore(hand, 0, why);
            return Answer::Ignored(why, made);
        }
        let answer = self.master.part_done(attempt, made);
        enter(&self.master, &mut self.hands, hand, None, &answer);
        answer
    }

    pub(crate) fn backup(
        &mut self,
        hand: &mut Hand<L>,
        split: SplitNo,
        worker: WorkerNo,
    ) -> Answer<AttemptNo>
        requires { IsKnown L.setup (Call.Backup split worker) }
        ensures old { IsMasterOf L.setup self.old.job }
        ensures step { IsStep self.old.job hand.old (Call.Backup split worker) [] result
            self.new.job hand.new }
        ensures attempt { TellsNext self.old.job result }
        ensures made { self.new.made ≡ self.old.made }
    {
        self.is_of_job();
        if let Some(why) = self.why_not(hand, 0) {
            ignore(hand, 0, why);
            return Answer::Ignored(why, ());
        }
        let answer = self.master.backup(split, worker);
        enter(&self.master, &mut self.hands, hand, None, &answer);
        answer
    }

    pub(crate) fn reduce_start(&mut self, alloc: Global, hand: &mut Hand<L>) -> Answer<Reply>
        ensures old { IsMasterOf L.setup self.old.job }
        ensures step { IsReduceStep self.old.job hand.old result self.new.job hand.new }
        ensures reply { Replies L.setup result }
        ensures made { self.new.made ≡ self.old.made }
    {
        self.is_of_job();
        if let Some(why) = self.why_not(hand, 0) {
            ignore(hand, 0, why);
            return Answer::Ignored(why, ());
        }
        let answer = self.master.reduce_start(alloc);
        self.master.is_kept();
        enter(&self.master, &mut self.hands, hand, None, &answer);
        answer
    }

    pub(crate) fn sweep(
        &mut self,
        hand: &mut Hand<L>,
        counts: &[u64],
        dead: &mut DeadList,
    ) -> Answer
        requires known { IsKnown L.setup (Call.Sweep counts.now) }
        requires room { length L.setup.cluster.slots ≤ dead.old.room }
        ensures step { IsStep self.old.job hand.old (Call.Sweep counts.now) (counts.now ∷ []) result
            self.new.job hand.new }
        ensures dead { dead.new.items ≡ died_in self.old.job counts.now result }
        ensures room { dead.new.room ≡ dead.old.room }
        ensures old { IsMasterOf L.setup self.old.job }
        ensures made { self.new.made ≡ self.old.made }
    {
        self.is_of_job();
        if let Some(why) = self.why_not(hand, 1) {
            ignore(hand, 1, why);
            dead.clear();
            return Answer::Ignored(why, ());
        }
        let answer = self.master.sweep(counts, dead);
        enter(&self.master, &mut self.hands, hand, Some(counts), &answer);
        answer
    }

    // What is seen at a glance. It is told again, without a look, where nothing was accepted since.
    pub(crate) fn glance(&mut self) -> Glance
        ensures old { IsMasterOf L.setup self.old.job }
        ensures glance { IsGlance self.old.job result }
        ensures same { self.new ≡ self.old }
    {
        self.is_of_job();
        let events = self.master.events();
        if let Some(seen) = self.seen {
            if seen.events == events {
                return seen.glance;
            }
        }
        let glance = self.master.glance();
        self.seen = Some(Seen { events, glance });
        glance
    }

    // The lowest worker on which a second attempt of a split may start, if there is one.
    pub(crate) fn backup_worker(&self, split: SplitNo) -> Option<WorkerNo>
        requires { split < length L.setup.cluster.splits }
        ensures of_job { IsMasterOf L.setup self.now.job }
        ensures worker { IsBackupWorker self.now.job split result }
    {
        self.is_of_job();
        self.master.backup_worker(split)
    }

    pub(crate) fn copy_orders(
        &self,
        alloc: Global,
        target: usize,
    ) -> Result<Vec<CopyOrder>, AllocError>
        ensures of_job { IsMasterOf L.setup self.now.job }
        ensures copies { IfOk result (λ orders. AreCopies (holdings self.now.job.state.workers
            self.now.job.setup.cluster.tree self.now.job.state.holders target) orders.items) }
    {
        self.is_of_job();
        self.master.copy_orders(alloc, target)
    }
}

// Notes why a call that has so many counts was ignored.
fn ignore<L: Ledger>(hand: &mut Hand<L>, counts: usize, why: Why)
    ensures { hand.new ≡ noted hand.old (has_room hand.old counts 0) why }
{
    let had_room = hand.has_room(counts, 0);
    hand.note(had_room, why);
}

// Keeps the event of an accepted call that is no join in the hand, with its counts if it is a sweep; or notes
// why the call was ignored.
fn enter<L: Ledger, T, B>(
    master: &Master,
    hands: &mut Hands<L>,
    hand: &mut Hand<L>,
    counts: Option<&[u64]>,
    answer: &Answer<T, B>,
)
    requires place { IsLast master.now.history answer.now }
    requires counts { HasCounts master.now.history answer.now (length (option_to_list counts)) }
    requires workers { All (λ own. length own.now ≡ hand.old.workers) (option_to_list counts) }
    requires room { has_room hand.old (length (option_to_list counts)) 0 ≡ true }
    ensures hand { (event : Event) → IsAt master.now.history answer.now event
        → hand.new ≡ answered hand.old event (map (λ own. own.now) (option_to_list counts.entry)) answer.now }
    ensures total { hands.new.total ≡ total_after hands.old.total answer.now }
    ensures made { hands.new.made ≡ hands.old.made }
{
    match answer {
        Answer::Accepted(place, _) => {
            let event = master.history().at(*place as usize - 1);
            hand.keep(hands, *place, &event, counts, &[]);
        }
        Answer::Ignored(why, _) => ignore(hand, usize::from(counts.is_some()), *why),
    }
}

// Keeps an accepted join in the hand, which takes the set over; or notes why the call was ignored.
fn enter_join<L: Ledger>(
    master: &Master,
    hands: &mut Hands<L>,
    hand: &mut Hand<L>,
    worker: WorkerNo,
    set: SplitSet,
    answer: &Answer,
)
    requires place { IsLast master.now.history answer.now }
    requires room { has_room hand.old 0 0 ≡ true }
    ensures hand { hand.new ≡ answered hand.old (Event.Join worker set) [] answer.now }
    ensures total { hands.new.total ≡ total_after hands.old.total answer.now }
    ensures made { hands.new.made ≡ hands.old.made }
{
    match answer {
        Answer::Accepted(..) => hand.keep_join(hands, master.events(), worker, set),
        Answer::Ignored(why, _) => ignore(hand, 0, *why),
    }
}
