ghost use Rattle.std.specs.Prelude.{◌≡◌, ◌<◌, ◌≤◌, [], ◌∷◌, length, All, IfOk};
ghost use Rattle.wave_problem.specs.declared.TheConstants.{MAX_SLOTS};
ghost use Rattle.master_state.specs.declared.events.Event.{Event};
ghost use Rattle.master_state.specs.Jobs.{GivesBack};
ghost use Rattle.master_state.specs.Refusals.{Call};
ghost use Rattle.hand_ledger.specs.Hands.{new_hand};
ghost use Rattle.shared_master.specs.Aheads.{AheadsAs, IsAheadStepOf};
ghost use Rattle.shared_master.specs.Held.{AreCopiesOf, IsBackupWorkerOf, IsMasterOf, IsShownOf};
ghost use Rattle.shared_master.specs.Steps.{AreDeadOf, AreSizesOf, IsKeptAs, IsKeptBackup, IsKeptReduce};
ghost use Rattle.shared_master.specs.Steps.{IsKeptSweep, IsKnownTo, IsReduceStepOf, IsStepOf, Replies};
ghost use Rattle.shared_master.specs.Steps.{call_of, plain_event};
ghost use Rattle.shared_master.specs.Waves.{IsWaveStepOf, SolvesAs, TurnsAs, WavesAs};
ghost use Rattle.shared_master.specs.declared.sizes.Sizes.{Sizes};

use crate::calls::PlainCall;
use crate::closed::Closed;
use crate::glance::SharedGlance;
use crate::held::Held;
use crate::of_job::OfJob;
use crate::sizes::Sizes;
use crate::waves::{Between, Nothing, SharedWave, Solved, Uncommitted, WaveError, solve};
use block_map::CopyOrder;
use hand_ledger::{Hand, HandError, Hands};
use master_core::Master;
use master_state::{Answer, Limits, Reply};
use node_ids::{AttemptNo, SplitNo, SplitSet, WorkerNo};
use shuffle_reduce::PartResult;
use std::alloc::{AllocError, Global};
use std::marker::Model;
use std::sync::ledger::{Blank, Ledger};
use std::sync::{Mutex, Wait};
use word_map::MapResult;
use worker_table::DeadList;

/// A master of the job that threads share, each with a hand of its own.
#[derive(Drop)]
pub struct SharedMaster<L: Ledger + OfJob> {
    lock: Mutex<Held<L>>,
    sizes: Sizes,
}

impl<L: Ledger + OfJob> Model for SharedMaster<L> {
    ghost Value = { Sizes };

    ghost view = { λ s. s.sizes };

    ghost invariant = { λ s. AreSizesOf L.setup s.sizes };
}

impl<L: Ledger + OfJob> SharedMaster<L> {
    /// Shares a master of the job of which nothing has happened, by the blank of the ledger.
    pub fn new(blank: Blank, master: Master) -> SharedMaster<L>
        requires name { blank.name ≡ L.name }
        requires parts { (blank.parts ≡ L.parts) × (blank.parts ≡ 4096) }
        requires empty { master.history ≡ [] }
        requires job { master.setup ≡ L.setup }
        ensures { AreSizesOf L.setup result }
    {
        let sizes = Sizes {
            splits: master.cluster().splits().len(),
            workers: master.cluster().slots().len(),
        };
        let held = Held {
            master,
            hands: Hands::new(blank),
            seen: None,
        };
        SharedMaster {
            lock: Mutex::new(held),
            sizes,
        }
    }

    /// The numbers of splits and workers.
    pub fn sizes(&self) -> Sizes
        ensures value { result ≡ self.now }
        ensures of_job { AreSizesOf L.setup self.now }
    {
        self.sizes
    }

    /// A hand for one thread, with this room.
    pub fn hand<R: Wait>(&self, rt: &R, alloc: Global, room: Limits) -> Result<Hand<L>, HandError>
        ensures { IfOk result (λ h. h ≡ new_hand (length L.setup.cluster.slots) room) }
    {
        self.lock.lock(rt).hand(alloc, room)
    }

    /// A law of the hands that exist at one time: they are at most 4,095. So where one caller has so many,
    /// `hand` answers no Ok.
    pub fn are_few<R: Wait>(&self, rt: &R, hands: &mut [Hand<L>])
        requires { L.parts ≡ 4096 }
        ensures few { length hands.old ≤ 4095 }
        ensures hands { hands.new ≡ hands.old }
    {
        self.lock.lock(rt).are_few(hands);
    }

    // A call under the lock that hands in numbers alone.
    fn plain<R: Wait>(&self, rt: &R, hand: &mut Hand<L>, call: &PlainCall) -> Answer
        requires { IsKnownTo self.now (call_of call.now) }
        ensures kept { IsKeptAs hand.old (plain_event call.now) [] result hand.new }
        ensures step { IsStepOf L.setup hand.old (call_of call.now) [] result hand.new }
    {
        self.lock.lock(rt).step(hand, call)
    }

    /// `Master::add` under the lock.
    pub fn add<R: Wait>(
        &self,
        rt: &R,
        hand: &mut Hand<L>,
        split: SplitNo,
        worker: WorkerNo,
    ) -> Answer
        requires split { split < self.now.splits }
        requires worker { worker < self.now.workers }
        ensures kept { IsKeptAs hand.old (Event.Add split worker) [] result hand.new }
        ensures step { IsStepOf L.setup hand.old (Call.Add split worker) [] result hand.new }
    {
        self.plain(rt, hand, &PlainCall::Add(split, worker))
    }

    /// `Master::lose` under the lock.
    pub fn lose<R: Wait>(
        &self,
        rt: &R,
        hand: &mut Hand<L>,
        split: SplitNo,
        worker: WorkerNo,
    ) -> Answer
        requires split { split < self.now.splits }
        requires worker { worker < self.now.workers }
        ensures kept { IsKeptAs hand.old (Event.Lose split worker) [] result hand.new }
        ensures step { IsStepOf L.setup hand.old (Call.Lose split worker) [] result hand.new }
    {
        self.plain(rt, hand, &PlainCall::Lose(split, worker))
    }

    /// `Master::join` under the lock. The history keeps the one set and the hand the other, so the call takes
    /// no memory.
    pub fn join<R: Wait>(
        &self,
        rt: &R,
        hand: &mut Hand<L>,
        worker: WorkerNo,
        set: SplitSet,
        kept: SplitSet,
    ) -> Answer
        requires known { IsKnownTo self.now (Call.Join worker set) }
        requires same { kept ≡ set }
        ensures kept { IsKeptAs hand.old (Event.Join worker set) [] result hand.new }
        ensures step { IsStepOf L.setup hand.old (Call.Join worker set) [] result hand.new }
    {
        self.lock.lock(rt).join(hand, worker, set, kept)
    }

    /// `Master::die` under the lock.
    pub fn die<R: Wait>(&self, rt: &R, hand: &mut Hand<L>, worker: WorkerNo) -> Answer
        requires { worker < self.now.workers }
        ensures kept { IsKeptAs hand.old (Event.Die worker) [] result hand.new }
        ensures step { IsStepOf L.setup hand.old (Call.Die worker) [] result hand.new }
    {
        self.plain(rt, hand, &PlainCall::Die(worker))
    }

    /// `Master::map_failed` under the lock.
    pub fn map_failed<R: Wait>(&self, rt: &R, hand: &mut Hand<L>, attempt: AttemptNo) -> Answer
        ensures kept { IsKeptAs hand.old (Event.MapFailed attempt) [] result hand.new }
        ensures step { IsStepOf L.setup hand.old (Call.MapFailed attempt) [] result hand.new }
    {
        self.plain(rt, hand, &PlainCall::MapFailed(attempt))
    }

    /// `Master::withdraw` under the lock.
    pub fn withdraw<R: Wait>(&self, rt: &R, hand: &mut Hand<L>, attempt: AttemptNo) -> Answer
        ensures kept { IsKeptAs hand.old (Event.Withdraw attempt) [] result hand.new }
        ensures step { IsStepOf L.setup hand.old (Call.Withdraw attempt) [] result hand.new }
    {
        self.plain(rt, hand, &PlainCall::Withdraw(attempt))
    }

    /// `Master::part_failed` under the lock.
    pub fn part_failed<R: Wait>(&self, rt: &R, hand: &mut Hand<L>, attempt: AttemptNo) -> Answer
        ensures kept { IsKeptAs hand.old (Event.PartFailed attempt) [] result hand.new }
        ensures step { IsStepOf L.setup hand.old (Call.PartFailed attempt) [] result hand.new }
    {
        self.plain(rt, hand, &PlainCall::PartFailed(attempt))
    }

    /// `Master::map_done` under the lock.
    pub fn map_done<R: Wait>(
        &self,
        rt: &R,
        hand: &mut Hand<L>,
        attempt: AttemptNo,
        made: MapResult,
    ) -> Answer<(), MapResult>
        ensures kept { IsKeptAs hand.old (Event.MapDone attempt) [] result hand.new }
        ensures step { IsStepOf L.setup hand.old (Call.MapDone attempt made) [] result hand.new }
        ensures back { GivesBack made result }
    {
        self.lock.lock(rt).map_done(hand, attempt, made)
    }

    /// `Master::part_done` under the lock.
    pub fn part_done<R: Wait>(
        &self,
        rt: &R,
        hand: &mut Hand<L>,
        attempt: AttemptNo,
        made: PartResult,
    ) -> Answer<(), PartResult>
        ensures kept { IsKeptAs hand.old (Event.PartDone attempt) [] result hand.new }
        ensures step { IsStepOf L.setup hand.old (Call.PartDone attempt made) [] result hand.new }
        ensures back { GivesBack made result }
    {
        self.lock.lock(rt).part_done(hand, attempt, made)
    }

    /// `Master::backup` under the lock.
    pub fn backup<R: Wait>(
        &self,
        rt: &R,
        hand: &mut Hand<L>,
        split: SplitNo,
        worker: WorkerNo,
    ) -> Answer<AttemptNo>
        requires split { split < self.now.splits }
        requires worker { worker < self.now.workers }
        ensures kept { IsKeptBackup hand.old split worker result hand.new }
        ensures step { IsStepOf L.setup hand.old (Call.Backup split worker) [] result hand.new }
    {
        self.lock.lock(rt).backup(hand, split, worker)
    }

    /// `Master::reduce_start` under the lock.
    pub fn reduce_start<R: Wait>(&self, rt: &R, alloc: Global, hand: &mut Hand<L>) -> Answer<Reply>
        ensures kept { IsKeptReduce hand.old result hand.new }
        ensures reply { Replies L.setup result }
        ensures step { IsReduceStepOf L.setup hand.old result hand.new }
    {
        self.lock.lock(rt).reduce_start(alloc, hand)
    }

    /// `Master::sweep` under the lock. The hand keeps the counts. Where it is ignored, nobody is listed.
    pub fn sweep<R: Wait>(
        &self,
        rt: &R,
        hand: &mut Hand<L>,
        counts: &[u64],
        dead: &mut DeadList,
    ) -> Answer
        requires known { IsKnownTo self.now (Call.Sweep counts.now) }
        requires room { self.now.workers ≤ dead.old.room }
        ensures kept { IsKeptSweep hand.old counts.now result hand.new }
        ensures dead { AreDeadOf L.setup counts.now result dead.new.items }
        ensures room { dead.new.room ≡ dead.old.room }
        ensures step { IsStepOf L.setup hand.old (Call.Sweep counts.now) (counts.now ∷ []) result hand.new }
    {
        self.lock.lock(rt).sweep(hand, counts, dead)
    }

    /// What a master of the job shows at a glance, of a state that a history leads to. Where no event came
    /// since the last glance, that is told again in constant time.
    pub fn glance<R: Wait>(&self, rt: &R) -> SharedGlance<L>
        ensures { IsShownOf L.setup result }
    {
        SharedGlance::of(self.lock.lock(rt).glance())
    }

    /// The lowest worker on which a second attempt of a split may start, if there is one, in such a state.
    pub fn backup_worker<R: Wait>(&self, rt: &R, split: SplitNo) -> Option<WorkerNo>
        requires { split < self.now.splits }
        ensures { IsBackupWorkerOf L.setup split result }
    {
        self.lock.lock(rt).backup_worker(split)
    }

    /// The copies that bring each split of the job nearer to so many replicas, in such a state.
    pub fn copy_orders<R: Wait>(
        &self,
        rt: &R,
        alloc: Global,
        target: usize,
    ) -> Result<Vec<CopyOrder>, AllocError>
        ensures { IfOk result (λ orders. AreCopiesOf L.setup target orders.items) }
    {
        self.lock.lock(rt).copy_orders(alloc, target)
    }

    /// Plans a wave and commits it. It is planned while the lock is free, at most three times, until its
    /// prices certify it in the state that it is committed in; then once under the lock.
    pub fn plan_wave<R: Wait>(
        &self,
        rt: &R,
        alloc: Global,
        hand: &mut Hand<L>,
    ) -> Result<SharedWave, WaveError>
        ensures { WavesAs L.setup hand.old result hand.new }
    {
        self.plan_wave_with(rt, alloc, hand, &Nothing)
    }

    /// The same, with something done before and after each solution made while the lock is free.
    pub fn plan_wave_with<R: Wait, B: Between>(
        &self,
        rt: &R,
        alloc: Global,
        hand: &mut Hand<L>,
        between: &B,
    ) -> Result<SharedWave, WaveError>
        ensures { WavesAs L.setup hand.old result hand.new }
    {
        for turn in 1..=3 {
            if let Some(shared) = self.turn(rt, alloc, hand, between, turn)? {
                return Ok(shared);
            }
        }
        self.lock.lock(rt).plan_wave(alloc, hand)
    }

    /// `Master::start_wave` under the lock: in one hold it plans a wave by the engine that the master keeps,
    /// and commits it. Once the hand has room for fewer starts than there are splits, it plans without that
    /// engine, as the last turn of `plan_wave` does.
    pub fn start_best<R: Wait>(
        &self,
        rt: &R,
        alloc: Global,
        hand: &mut Hand<L>,
    ) -> Result<SharedWave, WaveError>
        ensures kept { WavesAs L.setup hand.old result hand.new }
        ensures step { IsWaveStepOf L.setup hand.old result hand.new }
    {
        self.lock.lock(rt).start_best(alloc, hand)
    }

    /// `Master::start_ahead` under the lock: in one hold it plans all pending splits onto the workers' queues,
    /// with as many places as are asked for, and starts the heads. None is made where the last event is such a
    /// plan, since what that left waits for a slot. The hand must have room for as many starts as there are
    /// splits.
    pub fn start_ahead<R: Wait>(
        &self,
        rt: &R,
        alloc: Global,
        hand: &mut Hand<L>,
        asked: &[u64],
    ) -> Result<Option<SharedWave>, WaveError>
        requires { All (λ n. n ≤ MAX_SLOTS) asked.now }
        ensures kept { AheadsAs L.setup hand.old result hand.new }
        ensures step { IsAheadStepOf L.setup hand.old asked.now result hand.new }
    {
        self.lock.lock(rt).start_ahead(alloc, hand, asked)
    }

    // Plans a wave while the lock is free, and commits it; none where it is stale by then.
    fn turn<R: Wait, B: Between>(
        &self,
        rt: &R,
        alloc: Global,
        hand: &mut Hand<L>,
        between: &B,
        turn: u32,
    ) -> Result<Option<SharedWave>, WaveError>
        ensures { TurnsAs L.setup hand.old result hand.new }
    {
        let solved = match self.solved(rt, alloc, hand, between, turn) {
            Ok(solved) => solved,
            Err(error) => return Err(error),
        };
        between.solved(turn);
        let committed = self.lock.lock(rt).commit(alloc, hand, solved);
        match committed {
            Ok(shared) => Ok(Some(shared)),
            Err(Uncommitted::Stale(_)) => Ok(None),
            Err(Uncommitted::Refused(error)) => Err(error),
        }
    }

    // Solves the problem of the present state, while the lock is free.
    fn solved<R: Wait, B: Between>(
        &self,
        rt: &R,
        alloc: Global,
        hand: &mut Hand<L>,
        between: &B,
        turn: u32,
    ) -> Result<Solved, WaveError>
        ensures { SolvesAs L.setup hand.old result hand.new }
    {
        let asked = self.lock.lock(rt).problem(alloc, hand);
        match asked {
            Ok(problem) => {
                between.asked(turn);
                solve(alloc, &problem)
            }
            Err(error) => Err(error),
        }
    }

    /// The master that the lock kept, with its hands.
    pub fn into_master(self) -> Closed<L>
        ensures { IsMasterOf L.setup result.job }
    {
        let SharedMaster { lock, sizes: _ } = self;
        let held = lock.into_inner();
        held.is_of_job();
        Closed::of(held)
    }
}
