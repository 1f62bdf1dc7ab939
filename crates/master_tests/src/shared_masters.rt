//! Shared masters made from rows, and what becomes of them.
ghost use Rattle.std.specs.Prelude.{◌≡◌, [], IfSome};

use crate::jobs::{Shape, SplitRow, make_cluster, text_of};
use master_core::Master;
use master_state::{Answer, Limits, Wave};
use node_ids::{SplitNo, SplitSet, WorkerNo};
use shared_master::{Hand, OfJob, Settled, SharedMaster, settle};
use std::alloc::Global;
use std::marker::Brand;
use std::process::Abort;
use std::sync::ledger::{Blank, Ledger};
use std::sync::{Arc, Wait};
use word_map::{MapResult, map_split};
use worker_table::DeadList;

/// How many workers the first rack has, and how many the second; each has a slot.
pub type Racks = (usize, usize);

/// Room for whatever a test does, but for two hundred events.
pub const AMPLE: Limits = Limits {
    events: 200,
    attempts: 200,
    sweeps: 200,
};

/// A master of these workers and splits, of two parts, of which nothing has happened.
pub fn make_master(
    rt: &impl Abort,
    alloc: Global,
    racks: Racks,
    rows: &[SplitRow<'_>],
    limits: Limits,
) -> Option<Master>
    ensures { IfSome result (λ master. master.history ≡ []) }
{
    assert!(rt; racks.0 <= 4 && racks.1 <= 4);
    let of = Shape {
        racks: &[racks.0, racks.1],
        slots: &[1; 8][..racks.0 + racks.1],
        splits: rows,
        parts: 2,
    };
    let cluster = make_cluster(rt, alloc, &of)?.ok()?;
    assert!(rt;
        limits.events <= 65_536 && limits.attempts <= 1_000_000 && limits.sweeps <= limits.events
    );
    Master::new(alloc, cluster, limits).ok()
}

/// A shared master of which nothing has happened, and what its calls take.
#[derive(Drop)]
pub struct Setting<'a, L: Ledger + OfJob, R> {
    pub rt: &'a R,
    pub alloc: Global,
    pub shared: SharedMaster<L>,
}

/// A test on a shared master.
pub trait Test {
    /// Calls it, and asserts what its calls are answered.
    fn run<L: Ledger + OfJob, R: Wait + Abort>(&self, on: Setting<'_, L, R>)
        requires parts { L.parts ≡ 4096 };
}

/// Shares a master, and runs the test on it.
pub fn share<T: Test, R: Wait + Abort>(rt: &R, alloc: Global, master: Master, test: &T)
    requires { master.history ≡ [] }
{
    share_as::<Brand, T, R>(rt, alloc, Blank::new(4096), master, test)
}

fn share_as<L: Ledger + OfJob, T: Test, R: Wait + Abort>(
    rt: &R,
    alloc: Global,
    blank: Blank,
    master: Master,
    test: &T,
)
    requires ledger { (blank.name ≡ L.name) × (blank.parts ≡ L.parts) × (blank.parts ≡ 4096) }
    requires job { (master.history ≡ []) × (master.setup ≡ L.setup) }
{
    let shared: SharedMaster<L> = SharedMaster::new(blank, master);
    test.run(Setting { rt, alloc, shared })
}

/// What a sweep with this count for each worker is answered, where there is memory for the counts.
pub fn sweep_all<L: Ledger + OfJob, R: Wait>(
    on: &Setting<'_, L, R>,
    hand: &mut Hand<L>,
    count: u64,
) -> Option<Answer> {
    let workers = on.shared.sizes().workers;
    let counts = vec![in on.alloc; count; workers].ok()?;
    let mut dead = DeadList::with_room(on.alloc, workers).ok()?;
    Some(on.shared.sweep(on.rt, hand, &counts, &mut dead))
}

/// Such a master, where there is memory.
pub fn master_of(
    rt: &impl Abort,
    alloc: Global,
    racks: Racks,
    rows: &[SplitRow<'_>],
    limits: Limits,
) -> Master
    ensures { result.history ≡ [] }
{
    make_master(rt, alloc, racks, rows, limits).expect(rt, "no master")
}

/// A hand with ample room.
pub fn hand_of<L: Ledger + OfJob, R: Wait + Abort>(on: &Setting<'_, L, R>) -> Hand<L> {
    on.shared
        .hand(on.rt, on.alloc, AMPLE)
        .expect(on.rt, "no hand")
}

/// What a split's words make.
pub fn made_of(rt: &impl Abort, alloc: Global, split: SplitNo, words: &str) -> MapResult {
    let text = text_of(alloc, split, words).expect(rt, "no text");
    let text = Arc::new(alloc, text).ok().expect(rt, "no memory");
    map_split(alloc, text, 2).ok().expect(rt, "no result")
}

/// A worker comes back with these splits.
pub fn join<L: Ledger + OfJob, R: Wait + Abort>(
    on: &Setting<'_, L, R>,
    hand: &mut Hand<L>,
    worker: WorkerNo,
    splits: &[SplitNo],
) -> Answer {
    let set = SplitSet::of(on.alloc, splits)
        .ok()
        .expect(on.rt, "no memory");
    let kept = SplitSet::of(on.alloc, splits)
        .ok()
        .expect(on.rt, "no memory");
    let sizes = on.shared.sizes();
    assert!(on.rt; worker.index() < sizes.workers && set.are_below(sizes.splits));
    on.shared.join(on.rt, hand, worker, set, kept)
}

/// A list of one hand.
pub fn list_of<L: Ledger>(alloc: Global, hand: Hand<L>) -> Option<Vec<Hand<L>>> {
    let mut hands = Vec::new(alloc);
    hands.push(hand).ok()?;
    Some(hands)
}

/// A list of two hands.
pub fn list_of_both<L: Ledger>(alloc: Global, one: Hand<L>, two: Hand<L>) -> Option<Vec<Hand<L>>> {
    let mut hands = list_of(alloc, one)?;
    hands.push(two).ok()?;
    Some(hands)
}

/// The master, where its history is made of these hands.
pub fn settled<L: Ledger + OfJob>(shared: SharedMaster<L>, hands: Vec<Hand<L>>) -> Option<Master> {
    match settle(shared.into_master(), hands) {
        Ok(Settled { master }) => Some(master),
        Err(_) => None,
    }
}

/// Whether its history is made of these hands.
pub fn settles<L: Ledger + OfJob>(shared: SharedMaster<L>, hands: Vec<Hand<L>>) -> bool {
    settled(shared, hands).is_some()
}

/// The wave that was planned and committed, if it was.
pub fn wave_of<L: Ledger + OfJob, R: Wait>(
    on: &Setting<'_, L, R>,
    hand: &mut Hand<L>,
) -> Option<Wave> {
    let planned = on.shared.plan_wave(on.rt, on.alloc, hand).ok()?;
    Some(planned.wave)
}
