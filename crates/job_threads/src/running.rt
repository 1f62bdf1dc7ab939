ghost use Rattle.std.specs.Prelude.{◌≡◌, ◌<◌, ◌≤◌, ◌⊎◌, ◌++◌, ◌∷◌, length, map, Err, IfErr, IfOk, IsOk, []};
ghost use Rattle.std.specs.Prelude.{Some, slice_get, true};
ghost use Rattle.master_state.specs.States.{AreAllowed};
ghost use Rattle.hand_ledger.specs.Hands.{new_hand};
ghost use Rattle.job_threads.specs.Outcomes.{IsOutcomeOf, IsRecordOf, setup_of};
ghost use Rattle.job_threads.specs.Holdings.{opened, upto};
ghost use Rattle.lane_queue.specs.Lanes.{LaneValue};
ghost use Rattle.job_threads.specs.Closing.{AreCounted, AreHandedOver, first_pass, lane_places};
ghost use Rattle.job_threads.specs.Settled.{ConcludesAs, no_hand};
ghost use Rattle.job_threads.specs.declared.outcome.RunError.{RunError};

use crate::aim::Aim;
use crate::beats::{Pulse, Watch};
use crate::brief::Brief;
use crate::caller::Caller;
use crate::closing::{Closing, close};
use crate::common::Common;
use crate::dead::Dead;
use crate::ending::{outcome_of, record_of, settled};
use crate::gate::Gate;
use crate::holdings::Holdings;
use crate::job::Job;
use crate::lanes::{LaneEnd, Way, new_ways};
use crate::observer::{Observer, Unobserved};
use crate::outcome::{Outcome, Record, RunError};
use crate::threads::{Ended, run_threads};
use crate::work::Worker;
use beat_board::{Board, Maker};
use lane_queue::Pass;
use master_core::{Cluster, Master};
use master_state::Limits;
use node_ids::WorkerNo;
use shared_master::{Hand, HandError, OfJob, SharedMaster};
use std::alloc::{AllocError, Global};
use std::marker::Brand;
use std::rt::Clock;
use std::sync::Wait;
use std::sync::ledger::{Blank, Ledger};
use std::thread::Threads;

// What a worker's hand has room for at first.
const WORKER_ROOM: Limits = Limits {
    events: 64,
    attempts: 0,
    sweeps: 0,
};

/// Runs a job, each of its workers in a thread of its own, by what the gate says.
pub fn run<G: Gate, R: Threads + Wait + Clock + Sync>(
    rt: &R,
    alloc: Global,
    job: Job,
    gate: &G,
) -> Result<Outcome, RunError>
    requires workers { length job.cluster.slots ≤ 1024 }
    requires limits { AreAllowed job.limits }
    ensures outcome { IfOk result (IsOutcomeOf (setup_of job)) }
    ensures limit { result ≡ Err RunError.GateLimit → G.may_end ≡ true }
{
    Ok(outcome_of(run_recorded(rt, alloc, job, gate, &Unobserved)?))
}

/// Runs a job as `run` does, and hands back the master with all that was done. While the job runs, the
/// observer is told how far it is.
pub fn run_recorded<G: Gate, O: Observer, R: Threads + Wait + Clock + Sync>(
    rt: &R,
    alloc: Global,
    job: Job,
    gate: &G,
    observer: &O,
) -> Result<Record, RunError>
    requires workers { length job.cluster.slots ≤ 1024 }
    requires limits { AreAllowed job.limits }
    ensures record { IfOk result (IsRecordOf (setup_of job)) }
    ensures limit { result ≡ Err RunError.GateLimit → G.may_end ≡ true }
{
    let paths = new_paths(alloc, job.cluster.slots())?;
    run_on::<Brand, G, O, R>(rt, alloc, Blank::new(4096), job, paths, gate, observer)
}

// What leads from the calling thread of a run to its workers: the board, with the maker of its seats, and
// the lanes, with their first passes.
#[derive(Drop)]
struct Paths {
    board: Board,
    maker: Maker,
    ways: Vec<Way>,
    passes: Vec<Pass>,
    ghost maker_of: { maker.board ≡ board.board },
    ghost passes_of: { passes.items ≡ map first_pass ways.items },
}

// The board and the lanes for workers with these numbers of slots.
fn new_paths(alloc: Global, slots: &[u8]) -> Result<Paths, RunError>
    requires { length slots.now ≤ 1024 }
    ensures board { IfOk result (λ paths. paths.board.workers ≡ length slots.now) }
    ensures lanes { IfOk result (λ paths. length paths.ways.items ≡ length slots.now) }
    ensures places { IfOk result (λ paths.
        map (λ way. way.capacity) paths.ways.items ≡ map lane_places slots.now) }
    ensures err { IfErr result (λ e. e ≡ RunError.Memory) }
{
    let Ok((board, maker)) = Board::new(alloc, slots.len()) else {
        return Err(RunError::Memory);
    };
    let Ok((ways, passes)) = new_ways(alloc, slots) else {
        return Err(RunError::Memory);
    };
    Ok(Paths {
        board,
        maker,
        ways,
        passes,
    })
}

fn run_on<
    L: Ledger + OfJob + Aim + Send + Sync,
    G: Gate,
    O: Observer,
    R: Threads + Wait + Clock + Sync,
>(
    rt: &R,
    alloc: Global,
    blank: Blank,
    job: Job,
    paths: Paths,
    gate: &G,
    observer: &O,
) -> Result<Record, RunError>
    requires ledger { (blank.name ≡ L.name) × (blank.parts ≡ L.parts) × (blank.parts ≡ 4096) }
    requires job { setup_of job ≡ L.setup }
    requires target { job.target ≡ L.target }
    requires ahead { job.ahead ≡ L.ahead }
    requires gate { G.may_end ≡ L.may_end }
    requires paths { (paths.board ≡ L.board) × (paths.ways.items ≡ L.lanes) }
    requires sizes { (paths.board.workers ≡ length job.cluster.slots)
        × (length paths.ways.items ≡ length job.cluster.slots) }
    requires workers { length job.cluster.slots ≤ 1024 }
    requires limits { AreAllowed job.limits }
    ensures record { IfOk result (IsRecordOf L.setup) }
    ensures limit { result ≡ Err RunError.GateLimit → G.may_end ≡ true }
{
    let Job {
        cluster,
        target,
        limits,
        ahead,
    } = job;
    let Paths {
        board,
        maker,
        ways,
        passes,
    } = paths;
    let parts = cluster.parts();
    let Ok(watch) = Watch::new(alloc, &board, maker, cluster.slots().len()) else {
        return Err(RunError::Memory);
    };
    let aims = aims_of::<L>(alloc, &cluster, usize::from(target), limits, ahead)?;
    let Ok(master) = Master::new(alloc, cluster, limits) else {
        return Err(RunError::Memory);
    };
    let shared: SharedMaster<L> = SharedMaster::new(blank, master);
    let lines = Lines {
        watch,
        ways: ways.as_slice(),
        passes,
    };
    let ended = run_shared(rt, alloc, &shared, gate, observer, parts, aims, lines)?;
    conclude(rt, alloc, shared, board, ways, ended)
}

// What leads to the workers, as the threads of the run use it.
#[derive(Drop)]
struct Lines<'a, L: OfJob + Aim> {
    watch: Watch<'a, L>,
    ways: &'a [Way],
    passes: Vec<Pass>,
    ghost ways_of: { ways.now ≡ L.lanes },
    ghost passes_of: { passes.items ≡ map first_pass L.lanes },
    ghost count: { length L.lanes ≡ length L.setup.cluster.slots },
    ghost few: { length L.lanes ≤ 1024 },
}

// What the calling thread is to know before there is a master.
#[derive(Drop)]
struct Aims<L: OfJob + Aim> {
    brief: Brief<L>,
    holdings: Holdings,
    room: Limits,
    dead: Dead<L>,
}

fn aims_of<L: OfJob + Aim>(
    alloc: Global,
    cluster: &Cluster,
    target: usize,
    room: Limits,
    ahead: Option<u8>,
) -> Result<Aims<L>, RunError>
    requires cluster { cluster.now ≡ L.setup.cluster }
    requires target { target ≡ L.target }
    requires ahead { ahead ≡ L.ahead }
    ensures holdings { IfOk result (λ aims. aims.holdings.workers.items ≡ opened L.setup.cluster) }
    ensures room { IfOk result (λ aims. aims.room ≡ room) }
    ensures err { IfErr result (λ e. e ≡ RunError.Memory) }
{
    let Ok(brief) = Brief::of(alloc, cluster, target, ahead) else {
        return Err(RunError::Memory);
    };
    let Ok(holdings) = Holdings::of(alloc, cluster) else {
        return Err(RunError::Memory);
    };
    let Ok(dead) = Dead::new(alloc, cluster.slots().len()) else {
        return Err(RunError::Memory);
    };
    Ok(Aims {
        brief,
        holdings,
        room,
        dead,
    })
}

// Makes the hands, the ends of the lanes and the seats, and runs the threads.
fn run_shared<
    'a,
    L: Ledger + OfJob + Aim + Send + Sync,
    G: Gate,
    O: Observer,
    R: Threads + Wait + Clock + Sync,
>(
    rt: &'a R,
    alloc: Global,
    shared: &'a SharedMaster<L>,
    gate: &'a G,
    observer: &O,
    parts: usize,
    aims: Aims<L>,
    lines: Lines<'a, L>,
) -> Result<Ended<L>, RunError>
    requires some { 0 < parts }
    requires few { parts ≤ 64 }
    requires of_job { parts ≡ L.setup.cluster.parts }
    requires gate { G.may_end ≡ L.may_end }
    ensures err { IfErr result (λ e. (e ≡ RunError.Memory) ⊎ (e ≡ RunError.Torn 0)) }
{
    let Ok(common) = Common::new(rt, alloc, shared, gate, parts) else {
        return Err(RunError::Memory);
    };
    let Aims {
        brief,
        holdings,
        room,
        dead,
    } = aims;
    let Lines {
        watch,
        ways,
        passes,
    } = lines;
    let hand = hand_of(&common, room)?;
    let mut caller = Caller {
        common: &common,
        hand,
        watch,
        dead,
        lanes: Vec::new(alloc),
        brief,
        holdings,
        newest: 0,
        idle: 0,
        pause: 0,
        quiet: 0,
        waves: 0,
        deaths: 0,
    };
    let all = make_workers(&mut caller, ways, passes)?;
    let Ok(ended) = run_threads(&common, caller, all, observer) else {
        return Err(RunError::Memory);
    };
    Ok(ended)
}

// Settles, closes the board and the lanes, and tells how the job ended.
fn conclude<L: Ledger + OfJob + Aim, R: Wait>(
    rt: &R,
    alloc: Global,
    shared: SharedMaster<L>,
    board: Board,
    ways: Vec<Way>,
    ended: Ended<L>,
) -> Result<Record, RunError>
    requires paths { (board ≡ L.board) × (ways.items ≡ L.lanes) }
    ensures ok { IfOk result (IsRecordOf L.setup) }
    ensures beats { IfOk result (λ _. AreCounted ended.closing.seats.items ended.closing.reader) }
    ensures lanes { IfOk result (λ _. AreHandedOver ended.closing.ours.items ended.closing.theirs.items) }
    ensures ends { ConcludesAs L.setup ended.end ended.hands.items result }
    ensures limit { result ≡ Err RunError.GateLimit → L.may_end ≡ true }
{
    let Ended {
        hands,
        end,
        closing,
    } = ended;
    match end {
        Ok(()) => match settled(shared.into_master(), hands) {
            Ok(master) => closed(rt, alloc, board, ways, closing, master),
            Err(torn) => Err(torn),
        },
        Err(RunError::HistoryFull) => Err(full_or_torn(settled(shared.into_master(), hands))),
        Err(error) => Err(error),
    }
}

// Closes the board and the lanes, and tells what has become of the job.
fn closed<L: Aim, R: Wait>(
    rt: &R,
    alloc: Global,
    board: Board,
    ways: Vec<Way>,
    closing: Closing<L>,
    master: Master,
) -> Result<Record, RunError>
    requires paths { (board ≡ L.board) × (ways.items ≡ L.lanes) }
    ensures ok { IfOk result (λ ran. (ran.master ≡ master) × IsRecordOf master.setup ran) }
    ensures err { IfErr result (λ e. (e ≡ RunError.Memory) ⊎ (e ≡ RunError.Torn 0)) }
    ensures beats { IfOk result (λ _. AreCounted closing.seats.items closing.reader) }
    ensures lanes { IfOk result (λ _. AreHandedOver closing.ours.items closing.theirs.items) }
{
    close(rt, alloc, board, ways, closing)?;
    record_of(alloc, master)
}

// A full history is told of a master that settles.
fn full_or_torn(settled: Result<Master, RunError>) -> RunError
    ensures full { IsOk settled → result ≡ RunError.HistoryFull }
    ensures torn { IfErr settled (λ e. result ≡ e) }
{
    match settled {
        Ok(_) => RunError::HistoryFull,
        Err(torn) => torn,
    }
}

fn hand_of<L: Ledger + OfJob + Aim, G: Gate, R: Wait>(
    common: &Common<'_, L, G, R>,
    room: Limits,
) -> Result<Hand<L>, RunError>
    ensures hand { IfOk result (λ hand. hand ≡ new_hand (length L.setup.cluster.slots) room) }
    ensures err { IfErr result (λ e. (e ≡ RunError.Memory) ⊎ (e ≡ RunError.Torn 0)) }
{
    match common.shared.hand(common.rt, common.alloc, room) {
        Ok(hand) => Ok(hand),
        Err(error) => Err(no_hand(error)),
    }
}

// Why there is no hand.
fn no_hand(error: HandError) -> RunError
    ensures value { result ≡ no_hand error }
    ensures few { (result ≡ RunError.Memory) ⊎ (result ≡ RunError.Torn 0) }
{
    match error {
        HandError::Memory => RunError::Memory,
        HandError::Limit => RunError::Torn(0),
    }
}

// What each worker is given, in the order of their numbers; the caller keeps the other ends of the lanes.
fn make_workers<'a, L: Ledger + OfJob + Aim, G: Gate, R: Wait>(
    caller: &mut Caller<'a, L, G, R>,
    ways: &'a [Way],
    passes: Vec<Pass>,
) -> Result<Vec<Worker<'a, L>>, RunError>
    requires ways { ways.now ≡ L.lanes }
    requires passes { passes.items ≡ map first_pass L.lanes }
    requires few { length L.lanes ≤ 1024 }
    ensures seats { IfOk result
        (λ all. map (λ worker. worker.pulse.worker) all.items ≡ upto (length L.lanes)) }
    ensures lanes { IfOk result (λ all. map (λ lane. lane.lane) caller.new.lanes.items
        ≡ map (λ lane. lane.lane) caller.old.lanes.items ++ map (λ worker. worker.orders.lane) all.items) }
    ensures err { IfErr result (λ e. (e ≡ RunError.Memory) ⊎ (e ≡ RunError.Torn 0)) }
{
    let mut all = Vec::new(caller.common.alloc);
    for pass in passes {
        let number = all.len();
        let worker = WorkerNo::new(number as u16);
        let made = make_worker(caller, &ways[number], worker, pass)?;
        if all.push(made).is_err() {
            return Err(RunError::Memory);
        }
    }
    Ok(all)
}

fn make_worker<'a, L: Ledger + OfJob + Aim, G: Gate, R: Wait>(
    caller: &mut Caller<'a, L, G, R>,
    way: &'a Way,
    number: WorkerNo,
    pass: Pass,
) -> Result<Worker<'a, L>, RunError>
    requires lane { slice_get L.lanes number ≡ Some way.now }
    requires pass { pass ≡ first_pass way.now }
    ensures seat { IfOk result (λ worker. worker.pulse.worker ≡ number) }
    ensures lane { IfOk result (λ worker. map (λ lane. lane.lane) caller.new.lanes.items
        ≡ map (λ lane. lane.lane) caller.old.lanes.items ++ worker.orders.lane ∷ []) }
    ensures err { IfErr result (λ e. (e ≡ RunError.Memory) ⊎ (e ≡ RunError.Torn 0)) }
{
    let hand = hand_of(caller.common, WORKER_ROOM)?;
    let Ok((orders, pulse)) = ends_of(caller, way, number, pass) else {
        return Err(RunError::Memory);
    };
    Ok(Worker {
        hand,
        orders,
        pulse,
    })
}

// A worker's end of its lane, and its seat.
fn ends_of<'a, L: Ledger + OfJob + Aim, G: Gate, R>(
    caller: &mut Caller<'a, L, G, R>,
    way: &'a Way,
    worker: WorkerNo,
    pass: Pass,
) -> Result<(LaneEnd<'a, L>, Pulse<'a, L>), AllocError>
    requires lane { slice_get L.lanes worker ≡ Some way.now }
    requires pass { pass ≡ first_pass way.now }
    ensures seat { IfOk result (λ ends. ends.1.worker ≡ worker) }
    ensures lane { IfOk result (λ ends. map (λ lane. lane.lane) caller.new.lanes.items
        ≡ map (λ lane. lane.lane) caller.old.lanes.items ++ ends.0.lane ∷ []) }
    ensures orders { IfOk result (λ ends. ends.0.takes ≡ []) }
{
    let Some(pulse) = caller.watch.pulse(worker) else {
        return Err(AllocError);
    };
    let (ours, orders) = LaneEnd::both(way, worker, pass)?;
    caller.lanes.push(ours)?;
    Ok((orders, pulse))
}
