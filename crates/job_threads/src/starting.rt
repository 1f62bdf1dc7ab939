ghost use Rattle.std.specs.Prelude.{◌≡◌, ◌+◌, ◌^◌, ◌<◌, ◌≤◌, All, IfErr, IfOk, IsTrue, length, max, nat_lt};
ghost use Rattle.std.specs.Prelude.{false, if◌then◌else◌};
ghost use Rattle.lane_queue.specs.Orders.{attempt_of};
ghost use Rattle.job_threads.specs.Chains.{EachBelow};
ghost use Rattle.job_threads.specs.Steps.{AreStartsSent, IsAnswered, IsBackedUp, IsBackedUpToo, IsMapSent};
ghost use Rattle.job_threads.specs.Steps.{IsMapStartSent, IsReduceStarted, IsSent, IsStepError};
ghost use Rattle.job_threads.specs.Steps.{PlansAs, Starts, StartsWave, queues_of, sent};
ghost use Rattle.shared_master.specs.Waves.{IsMapStart, WavesAs};

use crate::aim::Aim;
use crate::brief::Brief;
use crate::caller::Caller;
use crate::common::{Common, judge, judge_why};
use crate::gate::Gate;
use crate::outcome::RunError;
use lane_queue::Order;
use master_state::{Answer, Start, Why, Work};
use node_ids::{AttemptNo, SplitNo, WorkerNo};
use shared_master::{Hand, OfJob, SharedGlance, SharedWave, WaveError};
use std::sync::ledger::Ledger;
use std::sync::{Arc, Wait};

// For how many turns no wave is planned after a lane was full: the next would start the same attempt.
const PAUSE_TURNS: u32 = 1024;

impl<'a, L: Ledger + OfJob + Aim, G: Gate, R: Wait> Caller<'a, L, G, R> {
    // Starts what may start by a glance: whether an order is in a lane.
    pub(crate) fn start(&mut self, seen: &SharedGlance<L>) -> Result<bool, RunError>
        ensures starts { IfOk result (λ started. Starts L.setup (queues_of L.setup L.ahead)
            (nat_lt 0 self.old.pause) seen.now (sent self.old.lanes.items self.old.hand) started
            (sent self.new.lanes.items self.new.hand)) }
        ensures idle { self.new.idle ≡ self.old.idle }
        ensures err { IfErr result IsStepError }
    {
        if self.pause > 0 {
            self.pause -= 1;
            return Ok(false);
        }
        let glance = seen.shown();
        if glance.ready {
            self.start_wave(seen)
        } else if glance.reducible {
            self.start_reduce(seen)
        } else {
            Ok(false)
        }
    }

    // Plans a wave, and sends its orders; none where a plan ahead waits.
    fn start_wave(&mut self, _seen: &SharedGlance<L>) -> Result<bool, RunError>
        requires { IsTrue _seen.now.ready }
        ensures starts { IfOk result (λ started. StartsWave L.setup (queues_of L.setup L.ahead)
            (sent self.old.lanes.items self.old.hand) started
            (sent self.new.lanes.items self.new.hand)) }
        ensures idle { self.new.idle ≡ self.old.idle }
        ensures err { IfErr result IsStepError }
    {
        match plan(self.common, &mut self.hand, &self.brief, self.waves == 0) {
            Ok(Some(wave)) => {
                self.waves = self.waves.saturating_add(1);
                self.send_wave(&wave)
            }
            Ok(None) => Ok(false),
            Err(WaveError::Memory) => Err(RunError::Memory),
            Err(WaveError::HistoryFull) => Err(RunError::HistoryFull),
            Err(WaveError::StrangeHand) => Err(RunError::Torn(self.hand.last_place())),
        }
    }

    // Sends the orders of a wave, each as the attempt after that of the one before it.
    fn send_wave(&mut self, wave: &SharedWave) -> Result<bool, RunError>
        requires attempts { wave.now.wave.first + length wave.now.starts.items < 2 ^ 32 }
        requires maps { All (IsMapStart L.setup) wave.now.starts.items }
        ensures sends { IfOk result (λ started. AreStartsSent wave.now L.setup.cluster.texts
            (sent self.old.lanes.items self.old.hand) started
            (sent self.new.lanes.items self.new.hand)) }
        ensures idle { self.new.idle ≡ self.old.idle }
        ensures err { IfErr result IsStepError }
    {
        let mut started = false;
        let first = wave.wave.first.index();
        for place in 0..wave.starts.len() {
            let attempt = AttemptNo::new((first + place) as u32);
            started |= self.send_start(attempt, &wave.starts[place])?;
        }
        Ok(started)
    }

    // Sends the order of a wave's start.
    fn send_start(&mut self, attempt: AttemptNo, start: &Start) -> Result<bool, RunError>
        requires { IsMapStart L.setup start.now }
        ensures sends { IfOk result (λ put. IsMapStartSent L.setup.cluster.texts attempt start.now put
            self.old.lanes.items self.old.hand self.new.lanes.items self.new.hand) }
        ensures idle { self.new.idle ≡ self.old.idle }
        ensures err { IfErr result IsStepError }
    {
        match start.work {
            Work::Split(split) => self.send_map(attempt, split, start.worker),
            Work::Part(_) => unreachable!(),
        }
    }

    // Sends a map attempt of a split to a worker.
    fn send_map(
        &mut self,
        attempt: AttemptNo,
        split: SplitNo,
        worker: WorkerNo,
    ) -> Result<bool, RunError>
        ensures sends { IfOk result (λ put. IsMapSent L.setup.cluster.texts attempt split worker
            put self.old.lanes.items self.old.hand self.new.lanes.items self.new.hand) }
        ensures idle { self.new.idle ≡ self.old.idle }
        ensures err { IfErr result IsStepError }
    {
        let Some(text) = self.brief.text(split) else {
            return Err(RunError::Torn(0));
        };
        let Ok(text) = Arc::try_clone(text) else {
            return Err(RunError::Memory);
        };
        self.send(worker, Order::Map(attempt, text))
    }

    // Puts an order into a worker's lane: whether it is there. Where the lane is full, its attempt is
    // withdrawn, and no wave is planned for some turns.
    fn send(&mut self, worker: WorkerNo, order: Order) -> Result<bool, RunError>
        ensures order { IfOk result (λ put. IsSent worker order put
            self.old.lanes.items self.old.hand self.new.lanes.items self.new.hand) }
        ensures pause { IfOk result (λ put. self.new.pause ≡ (if put then self.old.pause else 1024)) }
        ensures newest { self.new.newest ≡ max self.old.newest (attempt_of order) }
        ensures idle { self.new.idle ≡ self.old.idle }
        ensures err { IfErr result IsStepError }
    {
        self.newest = self.newest.max(order.attempt().index() as u32);
        let Some(lane) = self.lanes.get_mut(worker.index()) else {
            return Err(RunError::Torn(0));
        };
        let Err(full) = lane.put(self.common.rt, order) else {
            return Ok(true);
        };
        self.pause = PAUSE_TURNS;
        let attempt = full.order.attempt();
        let answer = self
            .common
            .shared
            .withdraw(self.common.rt, &mut self.hand, attempt);
        judge(answer, &self.hand)?;
        Ok(false)
    }

    // Starts a reduce attempt: whether its order is in a lane.
    fn start_reduce(&mut self, _seen: &SharedGlance<L>) -> Result<bool, RunError>
        requires { IsTrue _seen.now.reducible }
        ensures starts { IfOk result (λ started. IsReduceStarted L.setup
            (sent self.old.lanes.items self.old.hand) started
            (sent self.new.lanes.items self.new.hand)) }
        ensures idle { self.new.idle ≡ self.old.idle }
        ensures err { IfErr result IsStepError }
    {
        let common = self.common;
        match common
            .shared
            .reduce_start(common.rt, common.alloc, &mut self.hand)
        {
            Answer::Accepted(_, reply) => {
                let order = Order::Reduce(reply.attempt, reply.part, reply.runs);
                self.send(reply.worker, order)
            }
            Answer::Ignored(Why::Memory, ()) => Err(RunError::Memory),
            Answer::Ignored(why, ()) => {
                judge_why(why, &self.hand)?;
                Ok(false)
            }
        }
    }

    // A second attempt for each split of which one may start: whether an order is in a lane. It looks at the
    // master once for each split, once in 65,536 idle turns under the plain gate.
    pub(crate) fn back_up(&mut self) -> Result<bool, RunError>
        ensures backup { IfOk result (λ started. EachBelow (IsBackedUpToo L.setup)
            (length L.setup.cluster.splits) (sent self.old.lanes.items self.old.hand, false)
            (sent self.new.lanes.items self.new.hand, started)) }
        ensures idle { self.new.idle ≡ self.old.idle }
        ensures err { IfErr result IsStepError }
    {
        let mut started = false;
        let splits = self.common.shared.sizes().splits;
        for split in 0..splits {
            started |= self.back_up_split(SplitNo::new(split as u32))?;
        }
        Ok(started)
    }

    // On the lowest worker on which it may start.
    fn back_up_split(&mut self, split: SplitNo) -> Result<bool, RunError>
        requires { split < length L.setup.cluster.splits }
        ensures backup { IfOk result (λ started. IsBackedUp L.setup split
            (sent self.old.lanes.items self.old.hand) started
            (sent self.new.lanes.items self.new.hand)) }
        ensures idle { self.new.idle ≡ self.old.idle }
        ensures err { IfErr result IsStepError }
    {
        let _ = self.common.shared.sizes();
        let Some(worker) = self.common.shared.backup_worker(self.common.rt, split) else {
            return Ok(false);
        };
        let Some(attempt) = self.ask_backup(split, worker)? else {
            return Ok(false);
        };
        self.send_map(attempt, split, worker)
    }

    // Asks for a second attempt of a split on a worker.
    fn ask_backup(
        &mut self,
        split: SplitNo,
        worker: WorkerNo,
    ) -> Result<Option<AttemptNo>, RunError>
        requires split { split < length L.setup.cluster.splits }
        requires worker { worker < length L.setup.cluster.slots }
        ensures asked { IfOk result
            (λ attempt. IsAnswered split worker attempt self.old.hand self.new.hand) }
        ensures same { self.new ≡ record self.old { hand = self.new.hand } }
        ensures err { IfErr result IsStepError }
    {
        let common = self.common;
        let _ = common.shared.sizes();
        match common
            .shared
            .backup(common.rt, &mut self.hand, split, worker)
        {
            Answer::Accepted(_, attempt) => Ok(Some(attempt)),
            Answer::Ignored(why, ()) => {
                judge_why(why, &self.hand)?;
                Ok(None)
            }
        }
    }
}

// Plans a wave, or ahead where the job has queues, and commits it; none where a plan ahead waits.
fn plan<L: Ledger + OfJob + Aim, G: Gate, R: Wait>(
    common: &Common<'_, L, G, R>,
    hand: &mut Hand<L>,
    brief: &Brief<L>,
    is_first: bool,
) -> Result<Option<SharedWave>, WaveError>
    ensures { PlansAs L.setup (queues_of L.setup L.ahead) hand.old result hand.new }
{
    let shared = common.shared;
    match brief.places() {
        Some(places) => shared.start_ahead(common.rt, common.alloc, hand, places),
        None => Ok(Some(plan_wave(common, hand, is_first)?)),
    }
}

// Plans and commits a wave. The first one places all splits, so it is planned while the lock is free. Each
// later one goes on from the engine that the master keeps, which takes less time than a copy of the problem.
fn plan_wave<L: Ledger + OfJob + Aim, G: Gate, R: Wait>(
    common: &Common<'_, L, G, R>,
    hand: &mut Hand<L>,
    is_first: bool,
) -> Result<SharedWave, WaveError>
    ensures { WavesAs L.setup hand.old result hand.new }
{
    if is_first {
        common.shared.plan_wave(common.rt, common.alloc, hand)
    } else {
        common.shared.start_best(common.rt, common.alloc, hand)
    }
}
