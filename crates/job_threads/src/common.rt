ghost use Rattle.std.specs.Prelude.{◌≡◌, ◌<◌, ◌≤◌, IfErr, IfOk, IfSome, false, length};
ghost use Rattle.std.specs.List.{range_with_len};
ghost use Rattle.hand_ledger.specs.Hands.{last_place};
ghost use Rattle.job_threads.specs.Steps.{IsStepError, judged, judged_go, judged_why};

use crate::aim::Aim;
use crate::gate::{Gate, Go};
use crate::outcome::RunError;
use master_state::{Answer, Why};
use node_ids::WorkerNo;
use shared_master::{Hand, OfJob, SharedMaster};
use std::alloc::{AllocError, Global};
use std::marker::Model;
use std::sync::atomic::{AtomicBool, Ordering};
use std::sync::ledger::Ledger;

// Whether a worker was stopped.
#[derive(Drop)]
struct Flag {
    worker: WorkerNo,
    stopped: AtomicBool,
}

impl Model for Flag {
    ghost use Rattle.std.specs.Prelude.{ℕ};

    ghost Value = { ℕ };

    ghost view = { λ f. f.worker };
}

impl Flag {
    // The flag of a worker that was not stopped.
    fn new(worker: WorkerNo) -> Flag
        ensures { result ≡ worker }
    {
        Flag {
            worker,
            stopped: AtomicBool::new(false),
        }
    }

    fn look(&self) -> Look
        ensures { result.worker ≡ self.now }
    {
        Look {
            worker: self.worker,
            stopped: self.stopped.load(Ordering::SeqCst),
        }
    }
}

// What was seen of a worker's flag. `Flag::look` alone makes one.
#[derive(Drop)]
struct Look {
    worker: WorkerNo,
    stopped: bool,
}

// What ends threads: whether the run is over, and a flag for each worker, by their numbers.
#[derive(Drop)]
pub(crate) struct Flags {
    over: AtomicBool,
    workers: Vec<Flag>,
    ghost numbers: { workers.items ≡ range_with_len 0 (length workers.items) },
}

impl Flags {
    // The flags of a run that is not over, for so many workers.
    pub(crate) fn new(alloc: Global, workers: usize) -> Result<Flags, AllocError>
        requires { workers ≤ 1024 }
        ensures { IfOk result (λ flags. length flags.workers.items ≡ workers) }
    {
        let mut flags = Vec::with_capacity(alloc, workers)?;
        for worker in 0..workers {
            flags.push_reserved(Flag::new(WorkerNo::new(worker as u16)));
        }
        Ok(Flags {
            over: AtomicBool::new(false),
            workers: flags,
        })
    }

    pub(crate) fn end(&self) {
        self.over.store(true, Ordering::SeqCst);
    }

    pub(crate) fn is_over(&self) -> bool {
        self.over.load(Ordering::SeqCst)
    }

    // A token that the run was seen to be over, if it is.
    pub(crate) fn seen_over(&self) -> Option<Over> {
        if self.is_over() {
            return Some(Over { _made: () });
        }
        None
    }

    // Stops a worker, if there is one of this number.
    pub(crate) fn stop(&self, worker: WorkerNo) {
        if let Some(flag) = self.workers.get(worker.index()) {
            flag.stopped.store(true, Ordering::SeqCst);
        }
    }

    // A token that the worker was seen to go on, if it does.
    pub(crate) fn go_on(&self, worker: WorkerNo) -> Option<GoingOn>
        requires { worker < length self.now.workers.items }
        ensures { IfSome result (λ going. going.worker ≡ worker) }
    {
        let over = self.is_over();
        let look = self.workers[worker.index()].look();
        if over || look.stopped {
            return None;
        }
        Some(GoingOn { worker, over, look })
    }
}

// A look at the flags that showed that the run was not over and the worker not stopped. `Flags::go_on` alone
// makes one, and a worker beats, takes and calls with one only.
#[derive(Drop)]
pub(crate) struct GoingOn {
    worker: WorkerNo,
    over: bool,
    look: Look,
    ghost goes_on: { over ≡ false },
    ghost own: { look.worker ≡ worker },
    ghost runs: { look.stopped ≡ false },
}

// The run was seen to be over. `Flags::seen_over` alone makes one.
#[derive(Drop)]
pub(crate) struct Over {
    _made: (),
}

// What all threads of a job share.
#[derive(Drop)]
pub(crate) struct Common<'a, L: Ledger + OfJob + Aim, G: Gate, R> {
    pub(crate) rt: &'a R,
    pub(crate) alloc: Global,
    pub(crate) shared: &'a SharedMaster<L>,
    pub(crate) gate: &'a G,
    pub(crate) flags: Flags,
    pub(crate) parts: usize,
    ghost some: { 0 < parts },
    ghost few: { parts ≤ 64 },
    ghost of_job: { parts ≡ L.setup.cluster.parts },
    ghost gate_of: { G.may_end ≡ L.may_end },
    ghost all: { length flags.workers.items ≡ length L.setup.cluster.slots },
}

impl<'a, L: Ledger + OfJob + Aim, G: Gate, R> Common<'a, L, G, R> {
    pub(crate) fn new(
        rt: &'a R,
        alloc: Global,
        shared: &'a SharedMaster<L>,
        gate: &'a G,
        parts: usize,
    ) -> Result<Common<'a, L, G, R>, AllocError>
        requires some { 0 < parts }
        requires few { parts ≤ 64 }
        requires of_job { parts ≡ L.setup.cluster.parts }
        requires gate { G.may_end ≡ L.may_end }
        requires workers { length L.setup.cluster.slots ≤ 1024 }
    {
        Ok(Common {
            rt,
            alloc,
            shared,
            gate,
            flags: Flags::new(alloc, shared.sizes().workers)?,
            parts,
        })
    }
}

// Ends the run where the answer says so.
pub(crate) fn judge<L: Ledger>(answer: Answer, hand: &Hand<L>) -> Result<(), RunError>
    ensures value { result ≡ judged answer (last_place hand.now.calls) }
    ensures err { IfErr result IsStepError }
{
    match answer {
        Answer::Accepted(_, ()) => Ok(()),
        Answer::Ignored(why, ()) => judge_why(why, hand),
    }
}

pub(crate) fn judge_why<L: Ledger>(why: Why, hand: &Hand<L>) -> Result<(), RunError>
    ensures value { result ≡ judged_why why (last_place hand.now.calls) }
    ensures err { IfErr result IsStepError }
{
    match why {
        Why::HistoryFull => Err(RunError::HistoryFull),
        Why::StrangeHand => Err(RunError::Torn(hand.last_place())),
        _ => Ok(()),
    }
}

pub(crate) fn judge_go(go: Go) -> Result<(), RunError>
    ensures { result ≡ judged_go go }
{
    match go {
        Go::On => Ok(()),
        Go::Over => Err(RunError::GateLimit),
    }
}
