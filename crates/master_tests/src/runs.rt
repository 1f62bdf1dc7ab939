//! Short runs of four threads whose calls are drawn at random.
ghost use Rattle.std.specs.Prelude.{◌≡◌, ◌<◌, []};

use crate::jobs::SplitRow;
use crate::shared_jobs::reduce_one;
use crate::shared_masters::{Setting, join, made_of, master_of, settles, sweep_all, wave_of};
use master_core::Master;
use master_state::Limits;
use node_ids::{AttemptNo, SplitNo, WorkerNo};
use shared_master::{Hand, OfJob, SharedMaster};
use std::alloc::Global;
use std::marker::Brand;
use std::process::Abort;
use std::sync::Wait;
use std::sync::ledger::{Blank, Ledger};
use std::thread;
use std::thread::Threads;

// Two splits of the same words, on two of three workers in two racks.
const ROWS: [SplitRow<'static>; 2] = [(10, &[0], "one two"), (20, &[1], "one two")];

const ROOM: Limits = Limits {
    events: 64,
    attempts: 64,
    sweeps: 16,
};

// A hand, and the number that its calls are drawn from.
#[derive(Drop)]
struct Player<L: Ledger> {
    hand: Hand<L>,
    seed: u64,
}

/// The next number of Knuth's linear congruential sequence, whose high bits look random.
pub fn next(seed: u64) -> u64 {
    seed.wrapping_mul(6_364_136_223_846_793_005)
        .wrapping_add(1_442_695_040_888_963_407)
}

// A call of a kind, of a split and a worker or of an attempt.
fn call_of<L: Ledger + OfJob, R: Wait>(
    on: &Setting<'_, L, R>,
    hand: &mut Hand<L>,
    kind: u64,
    attempt: AttemptNo,
    split: SplitNo,
    worker: WorkerNo,
)
    requires split { split < on.now.shared.splits }
    requires worker { worker < on.now.shared.workers }
{
    match kind {
        0 => {
            on.shared.add(on.rt, hand, split, worker);
        }
        1 => {
            on.shared.lose(on.rt, hand, split, worker);
        }
        2 => {
            on.shared.backup(on.rt, hand, split, worker);
        }
        3 => {
            on.shared.die(on.rt, hand, worker);
        }
        4 => {
            on.shared.withdraw(on.rt, hand, attempt);
        }
        5 => {
            on.shared.map_failed(on.rt, hand, attempt);
        }
        _ => {
            on.shared.part_failed(on.rt, hand, attempt);
        }
    }
}

// The call that a number draws among the calls that the master answers without memory.
fn call_without_memory<L: Ledger + OfJob, R: Wait + Abort>(
    on: &Setting<'_, L, R>,
    hand: &mut Hand<L>,
    draw: u64,
) {
    let kind = draw % 16;
    let (split, attempt) = split_and_attempt(draw);
    let worker = WorkerNo::new((draw / 32 % 3) as u16);
    assert!(on.rt;
        split.index() < on.shared.sizes().splits && worker.index() < on.shared.sizes().workers
    );
    match kind {
        0..=3 => call_of(on, hand, kind, attempt, split, worker),
        4..=5 => {
            join(on, hand, worker, &[]);
        }
        _ => call_of(on, hand, 4 + kind % 3, attempt, split, worker),
    }
}

// The split and the attempt that a number draws.
fn split_and_attempt(draw: u64) -> (SplitNo, AttemptNo) {
    let split = SplitNo::new((draw / 16 % 2) as u32);
    let attempt = AttemptNo::new((1 + draw / 128 % 8) as u32);
    (split, attempt)
}

// The call that a player's number draws.
fn call<L: Ledger + OfJob, R: Wait + Abort>(on: &Setting<'_, L, R>, player: &mut Player<L>) {
    let (draw, hand) = (player.seed >> 33, &mut player.hand);
    match draw % 16 {
        0..=8 => call_without_memory(on, hand, draw),
        9 => {
            sweep_all(on, hand, draw / 16);
        }
        10..=11 => {
            reduce_one(on, hand);
        }
        12..=13 => {
            let (split, attempt) = split_and_attempt(draw);
            let made = made_of(on.rt, on.alloc, split, "one two");
            on.shared.map_done(on.rt, hand, attempt, made);
        }
        _ => assert!(on.rt; wave_of(on, hand).is_some()),
    }
}

// Eight calls of a thread.
fn play<L: Ledger + OfJob, R: Wait + Abort>(
    on: &Setting<'_, L, R>,
    mut player: Player<L>,
) -> Hand<L> {
    for _ in 0..8u32 {
        call(on, &mut player);
        player.seed = next(player.seed);
    }
    player.hand
}

// Four hands, each with a number of its own.
fn players_of<L: Ledger + OfJob, R: Wait + Abort>(
    on: &Setting<'_, L, R>,
    seed: u64,
) -> Vec<Player<L>> {
    let mut players = Vec::new(on.alloc);
    let mut seed = next(seed);
    for _ in 0..4u32 {
        let hand = on
            .shared
            .hand(on.rt, on.alloc, ROOM)
            .expect(on.rt, "no hand");
        players
            .push(Player { hand, seed })
            .expect(on.rt, "no memory");
        seed = next(next(seed));
    }
    players
}

// A run of four threads, which settles.
fn run<L: Ledger + OfJob + Send + Sync, R: Threads + Wait + Abort + Sync>(
    rt: &R,
    alloc: Global,
    blank: Blank,
    master: Master,
    seed: u64,
)
    requires ledger { (blank.name ≡ L.name) × (blank.parts ≡ L.parts) × (blank.parts ≡ 4096) }
    requires job { (master.history ≡ []) × (master.setup ≡ L.setup) }
{
    let shared: SharedMaster<L> = SharedMaster::new(blank, master);
    let on = Setting { rt, alloc, shared };
    let players = players_of(&on, seed);
    let hands = thread::map_vec(on.rt, players, &|player| play(&on, player)).expect(
        on.rt,
        "no memory",
    );
    assert!(on.rt; settles(on.shared, hands), "run {seed}");
}

#[test]
fn a_thousand_short_runs_settle(rt: HostRuntime) {
    for seed in 0..1000u64 {
        let master = master_of(&rt, rt.alloc(), (2, 1), &ROWS, ROOM);
        run::<Brand, _>(&rt, rt.alloc(), Blank::new(4096), master, seed);
    }
}
