ghost use Rattle.std.specs.Prelude.{◌≡◌, ◌↔◌, ◌⊎◌, ◌<◌, ◌≤◌, ℕ, nat_lt, Bool, true, Err, IfErr, IfOk, IsTrue};
ghost use Rattle.std.specs.Prelude.{OnOk};
ghost use Rattle.job_threads.specs.declared.gate.Turn.{Turn};
ghost use Rattle.job_threads.specs.declared.outcome.RunError.{RunError};
ghost use Rattle.job_threads.specs.Holdings.{changed_at, stopped};
ghost use Rattle.job_threads.specs.Steps.{AreBackedUp, EndsCalls, HasStarted, IsStepError, IsSwept};
ghost use Rattle.job_threads.specs.Steps.{MayEndWith, known, progress_of, queues_of, sent};
ghost use Rattle.job_threads.specs.Turns.{has_ended, idle_after, is_still, nap_micros, quiet_after};
ghost use Rattle.job_threads.specs.Turns.{IsPastHelp, none_may_rise, quiet_swept};

use crate::aim::Aim;
use crate::asking::Asked;
use crate::beats::Watch;
use crate::brief::Brief;
use crate::common::{Common, Over};
use crate::dead::Dead;
use crate::gate::{Gate, NAPS_FROM, Turn};
use crate::holdings::{Holding, Holdings};
use crate::lanes::LaneEnd;
use crate::observer::{Observer, Progress};
use crate::outcome::RunError;
use master_state::Glance;
use node_ids::WorkerNo;
use shared_master::{Hand, OfJob, SharedGlance};
use std::rt::Clock;
use std::sync::Wait;
use std::sync::ledger::Ledger;
use std::thread;
use std::time::{Duration, Instant};

// What the calling thread has.
#[derive(Drop)]
pub(crate) struct Caller<'a, L: Ledger + OfJob + Aim, G: Gate, R> {
    pub(crate) common: &'a Common<'a, L, G, R>,
    pub(crate) hand: Hand<L>,
    pub(crate) watch: Watch<'a, L>,
    pub(crate) dead: Dead<L>,
    pub(crate) lanes: Vec<LaneEnd<'a, L>>,
    pub(crate) brief: Brief<L>,
    pub(crate) holdings: Holdings,
    // the greatest number of an attempt that was sent
    pub(crate) newest: u32,
    // in how many turns, one after the other, nothing started
    pub(crate) idle: u64,
    // for how many turns no wave is planned, since a lane was full
    pub(crate) pause: u32,
    // how many sweeps saw no dead worker rise while nothing ran and nothing could start
    pub(crate) quiet: u32,
    // how many waves were started and how many deaths seen, for the observer
    pub(crate) waves: u32,
    pub(crate) deaths: u32,
}

// Why the turns ended: the run was seen to be over, or what was seen at a glance ended them.
#[derive(Drop)]
pub(crate) enum CallEnd {
    Over(Over),
    Seen(Glance),
}

impl<'a, L: Ledger + OfJob + Aim, G: Gate, R: Wait + Clock> Caller<'a, L, G, R> {
    // Turn after turn, until the job is done or stuck, or something ends the run.
    pub(crate) fn call<O: Observer>(&mut self, observer: &O) -> Result<CallEnd, RunError>
        ensures ends { IfOk result (EndsCalls L.setup self.new.quiet) }
        ensures err { IfErr result (MayEndWith (G.may_end ≡ true)) }
    {
        for _ in self.common.rt.forever() {
            if let Some(over) = self.common.flags.seen_over() {
                return Ok(CallEnd::Over(over));
            }
            let seen = self.common.shared.glance(self.common.rt);
            let glance = seen.shown();
            observer.seen(&self.progress(&glance));
            if self.has_ended(&glance) {
                return Ok(CallEnd::Seen(glance));
            }
            self.turn(&seen)?;
        }
        unreachable!()
    }

    // Starts what may start, and does what the gate says.
    fn turn(&mut self, seen: &SharedGlance<L>) -> Result<(), RunError>
        ensures started { OnOk result (HasStarted L.setup (queues_of L.setup L.ahead)
            (nat_lt 0 self.old.pause) seen.now (sent self.old.lanes.items self.old.hand)
            self.old.idle self.new.idle) }
        ensures err { IfErr result (MayEndWith (G.may_end ≡ true)) }
    {
        let started = self.start(seen)?;
        self.count_idle(started);
        let common = self.common;
        rest(common.rt, self.idle);
        let asked = Asked::by(common.rt, common.gate, self.idle, self.watch.told_at);
        self.act(seen, &asked)
    }

    // Does what the gate says.
    fn act(&mut self, seen: &SharedGlance<L>, asked: &Asked) -> Result<(), RunError>
        requires { asked.now.idle ≡ self.old.idle }
        ensures idle { OnOk result ((self.new.idle ≡ self.old.idle) ⊎ (self.new.idle ≡ 0)) }
        ensures over { (result ≡ Err RunError.GateLimit) ↔ (asked.now.turn ≡ Turn.Over) }
        ensures err { IfErr result (MayEndWith (asked.now.turn ≡ Turn.Over)) }
        ensures sweep { asked.now.turn ≡ Turn.Sweep → asked.now.is_due ≡ true → OnOk result ((rose : Bool)
            × IsSwept L.setup L.target self.old.holdings.splits self.new.watch.told
            (known self.old.holdings.workers.items self.old.hand) rose
            (known self.new.holdings.workers.items self.new.hand)
            × (self.new.quiet ≡ quiet_swept self.old.quiet (is_still seen.now) rose)) }
        ensures stop { (w : ℕ) → asked.now.turn ≡ Turn.Stop w → self.new.holdings.workers.items
            ≡ changed_at stopped self.old.holdings.workers.items w }
        ensures backup { asked.now.turn ≡ Turn.Backup → OnOk result (AreBackedUp L.setup
            (sent self.old.lanes.items self.old.hand) (sent self.new.lanes.items self.new.hand)
            self.old.idle self.new.idle) }
    {
        let glance = seen.shown();
        match asked.turn() {
            Turn::On => self.sweep_on(&glance, false),
            Turn::Sweep => self.sweep_on(&glance, asked.is_due()),
            Turn::Backup => self.back_up_idle(),
            Turn::Stop(worker) => {
                self.stop(worker);
                Ok(())
            }
            Turn::Over => Err(RunError::GateLimit),
        }
    }

    // Starts second attempts. If one started, the turn was not idle.
    fn back_up_idle(&mut self) -> Result<(), RunError>
        ensures backup { OnOk result (AreBackedUp L.setup
            (sent self.old.lanes.items self.old.hand) (sent self.new.lanes.items self.new.hand)
            self.old.idle self.new.idle) }
        ensures idle { OnOk result ((self.new.idle ≡ self.old.idle) ⊎ (self.new.idle ≡ 0)) }
        ensures err { IfErr result IsStepError }
    {
        if self.back_up()? {
            self.idle = 0;
        }
        Ok(())
    }

    // Sweeps where one is due, and at once where the job is past help, so that it is told stuck soon.
    fn sweep_on(&mut self, glance: &Glance, due: bool) -> Result<(), RunError>
        ensures swept { due ≡ true → OnOk result ((rose : Bool)
            × IsSwept L.setup L.target self.old.holdings.splits self.new.watch.told
            (known self.old.holdings.workers.items self.old.hand) rose
            (known self.new.holdings.workers.items self.new.hand)
            × (self.new.quiet ≡ quiet_swept self.old.quiet (is_still glance.now) rose)) }
        ensures idle { self.new.idle ≡ self.old.idle }
        ensures err { IfErr result IsStepError }
    {
        if !due && !self.is_past_help(glance) {
            return Ok(());
        }
        self.watch.told_at = Instant::now(self.common.rt).ok();
        let rose = self.sweep()?;
        self.count_quiet(is_still(glance), rose);
        Ok(())
    }
}

impl<L: Ledger + OfJob + Aim, G: Gate, R> Caller<'_, L, G, R> {
    // How far the job is.
    fn progress(&self, glance: &Glance) -> Progress
        ensures { result ≡ progress_of L.setup glance.now self.now.waves self.now.deaths }
    {
        Progress {
            splits: self.brief.splits(),
            parts: self.common.parts,
            open_splits: glance.open_splits,
            open_parts: glance.open_parts,
            waves: self.waves,
            deaths: self.deaths,
        }
    }

    // Whether all parts are done; or nothing ran, nothing could start and no dead worker rose through as many
    // sweeps as a worker may be silent.
    fn has_ended(&mut self, glance: &Glance) -> bool
        ensures value { result ≡ has_ended glance.now self.new.quiet L.setup.cluster.silence }
        ensures same { self.new ≡ record self.old { quiet = quiet_after self.old.quiet glance.now } }
    {
        let still = is_still(glance);
        if !still {
            self.quiet = 0;
        }
        glance.open_parts == 0 || still && self.brief.silence() <= self.quiet
    }

    // Whether nothing runs and nothing can start, each dead worker was stopped, and each other worker has
    // beaten since the last sweep. Then another sweep finds no worker silent but stopped ones, no worker
    // rises, and no nap helps.
    fn is_past_help(&mut self, glance: &Glance) -> bool
        ensures value { IsTrue result ↔ IsPastHelp glance.now self.old.holdings.workers.items self.new.watch }
        ensures hand { self.new.hand ≡ self.old.hand }
        ensures workers { self.new.holdings.workers ≡ self.old.holdings.workers }
        ensures quiet { self.new.quiet ≡ self.old.quiet }
        ensures idle { self.new.idle ≡ self.old.idle }
    {
        is_still(glance)
            && none_may_rise(&self.holdings.workers)
            && self.watch.have_beaten(&self.holdings.workers)
    }

    fn count_idle(&mut self, started: bool)
        ensures { self.new ≡ record self.old { idle = idle_after self.old.idle started } }
    {
        self.idle = if started {
            0
        } else {
            self.idle.saturating_add(1)
        };
    }

    // After a sweep: a dead worker rose, or nothing ran and nothing could start.
    fn count_quiet(&mut self, still: bool, rose: bool)
        ensures { self.new ≡ record self.old { quiet = quiet_swept self.old.quiet still rose } }
    {
        if rose {
            self.quiet = 0;
        } else if still {
            self.quiet = self.quiet.saturating_add(1);
        }
    }

    // The worker never goes on, and never joins again.
    fn stop(&mut self, worker: WorkerNo)
        ensures workers { self.new.holdings.workers.items
            ≡ changed_at stopped self.old.holdings.workers.items worker }
        ensures idle { self.new.idle ≡ self.old.idle }
    {
        self.common.flags.stop(worker);
        self.holdings.stop(worker);
    }
}

// Whether nothing runs and nothing can start.
fn is_still(glance: &Glance) -> bool
    ensures { result ≡ is_still glance.now }
{
    glance.running == 0 && !glance.ready && !glance.reducible
}

// Leaves the processor to the workers for a moment, in some of the idle turns. So many idle turns take
// some time, however fast one turn is.
fn rest<R: Clock>(rt: &R, idle: u64) {
    let micros = nap_micros(idle);
    if micros > 0 {
        thread::sleep(rt, Duration::from_micros(micros));
    }
}

// For how many microseconds the calling thread naps: at each 64th idle turn, and longer where there were
// many.
fn nap_micros(idle: u64) -> u64
    ensures { result ≡ nap_micros idle }
{
    if idle < NAPS_FROM || idle % 64 != 0 {
        0
    } else if idle < 4096 {
        50
    } else {
        300
    }
}

// Whether each dead worker was stopped, so that none joins again.
fn none_may_rise(workers: &[Holding]) -> bool
    ensures { result ≡ none_may_rise workers.now }
{
    for worker in workers {
        if worker.is_dead && !worker.is_stopped {
            return false;
        }
    }
    true
}
