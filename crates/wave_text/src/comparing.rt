ghost use Rattle.std.specs.Prelude.{◌≡◌, ◌<◌, ◌≤◌, ◌↔◌, ℕ, IsTrue, length};
ghost use Rattle.node_ids.specs.Sets.{HasPair};
ghost use Rattle.rack_tree.specs.declared.TheConstants.{MAX_WORKERS};
ghost use Rattle.wave_problem.specs.Wave.{split_at, worker_at};
ghost use Rattle.wave_problem.specs.declared.TheConstants.{MAX_SPLITS};
ghost use Rattle.wave_text.specs.Told.{IsSameWave};

use node_ids::{RackNo, SplitNo, WorkerNo};
use price_certificate::Prices;
use rack_tree::RackTree;
use wave_problem::{Plan, Problem};

// Whether the waves have the same tree, workers and splits, and the same barred pairs. Pairs past the last
// worker are compared too: waves that differ in these alone are not found the same.
pub(crate) fn is_same_wave(wave: &Problem, other: &Problem) -> bool
    ensures { IsTrue result → IsSameWave wave.now other.now }
{
    is_same_tree(wave.tree(), other.tree())
        && are_same_workers(wave, other)
        && are_same_splits(wave, other)
        && are_same_bars(wave, other)
}

fn is_same_tree(tree: &RackTree, other: &RackTree) -> bool
    ensures { IsTrue result ↔ (tree.now ≡ other.now) }
{
    tree.centres() == other.centres()
        && are_same_racks(tree, other)
        && are_in_same_racks(tree, other)
}

// Whether there are as many racks, each in the same centre.
fn are_same_racks(tree: &RackTree, other: &RackTree) -> bool
    ensures { IsTrue result ↔ (tree.now.centre_of ≡ other.now.centre_of) }
{
    if tree.racks() != other.racks() {
        return false;
    }
    for number in 0..tree.racks() {
        let rack = RackNo::new(number as u16);
        if tree.centre_of(rack) != other.centre_of(rack) {
            return false;
        }
    }
    true
}

// Whether there are as many workers, each in the same rack.
fn are_in_same_racks(tree: &RackTree, other: &RackTree) -> bool
    ensures { IsTrue result ↔ (tree.now.rack_of ≡ other.now.rack_of) }
{
    if tree.workers() != other.workers() {
        return false;
    }
    for number in 0..tree.workers() {
        let worker = WorkerNo::new(number as u16);
        if tree.rack_of(worker) != other.rack_of(worker) {
            return false;
        }
    }
    true
}

fn are_same_workers(wave: &Problem, other: &Problem) -> bool
    ensures { IsTrue result ↔ (wave.now.workers ≡ other.now.workers) }
{
    if wave.workers() != other.workers() {
        return false;
    }
    for number in 0..wave.workers() {
        if !is_same_worker(wave, other, WorkerNo::new(number as u16)) {
            return false;
        }
    }
    true
}

fn is_same_worker(wave: &Problem, other: &Problem, worker: WorkerNo) -> bool
    requires known { worker < length wave.now.workers }
    requires known_too { worker < length other.now.workers }
    ensures { IsTrue result ↔ (worker_at wave.now worker ≡ worker_at other.now worker) }
{
    wave.is_live(worker) == other.is_live(worker) && wave.free(worker) == other.free(worker)
}

fn are_same_splits(wave: &Problem, other: &Problem) -> bool
    ensures { IsTrue result ↔ (wave.now.splits ≡ other.now.splits) }
{
    if wave.splits() != other.splits() {
        return false;
    }
    for number in 0..wave.splits() {
        if !is_same_split(wave, other, SplitNo::new(number as u32)) {
            return false;
        }
    }
    true
}

fn is_same_split(wave: &Problem, other: &Problem, split: SplitNo) -> bool
    requires known { split < length wave.now.splits }
    requires known_too { split < length other.now.splits }
    ensures { IsTrue result ↔ (split_at wave.now split ≡ split_at other.now split) }
{
    wave.bytes(split) == other.bytes(split)
        && wave.is_pending(split) == other.is_pending(split)
        && have_same_holders(wave, other, split)
}

fn have_same_holders(wave: &Problem, other: &Problem, split: SplitNo) -> bool
    requires known { split < length wave.now.splits }
    requires known_too { split < length other.now.splits }
    ensures { IsTrue result ↔ ((split_at wave.now split).holders ≡ (split_at other.now split).holders) }
{
    wave.holders(split) == other.holders(split)
}

// Whether the same workers are barred from each split.
fn are_same_bars(wave: &Problem, other: &Problem) -> bool
    ensures { IsTrue result → (s w : ℕ) → s < length other.now.splits
        → HasPair wave.now.barred s w ↔ HasPair other.now.barred s w }
{
    if wave.splits() != other.splits() {
        return false;
    }
    for number in 0..other.splits() {
        let split = SplitNo::new(number as u32);
        if wave.bars(split) != other.bars(split) {
            return false;
        }
    }
    true
}

// Whether each split starts on the same worker in both plans, or in neither.
pub(crate) fn are_same_starts(plan: &Plan, other: &Plan) -> bool
    ensures { IsTrue result ↔ (plan.now.starts ≡ other.now.starts) }
{
    if plan.splits() != other.splits() {
        return false;
    }
    for number in 0..plan.splits() {
        let split = SplitNo::new(number as u32);
        if plan.of(split) != other.of(split) {
            return false;
        }
    }
    true
}

// Whether each split and each worker has the same price.
pub(crate) fn are_same_prices(prices: &Prices, other: &Prices) -> bool
    requires splits { length prices.now.splits ≤ MAX_SPLITS }
    requires workers { length prices.now.workers ≤ MAX_WORKERS }
    ensures { IsTrue result ↔ (prices.now ≡ other.now) }
{
    are_same_split_prices(prices, other) && are_same_worker_prices(prices, other)
}

fn are_same_split_prices(prices: &Prices, other: &Prices) -> bool
    requires { length prices.now.splits ≤ MAX_SPLITS }
    ensures { IsTrue result ↔ (prices.now.splits ≡ other.now.splits) }
{
    if prices.splits() != other.splits() {
        return false;
    }
    for number in 0..prices.splits() {
        let split = SplitNo::new(number as u32);
        if prices.split(split) != other.split(split) {
            return false;
        }
    }
    true
}

fn are_same_worker_prices(prices: &Prices, other: &Prices) -> bool
    requires { length prices.now.workers ≤ MAX_WORKERS }
    ensures { IsTrue result ↔ (prices.now.workers ≡ other.now.workers) }
{
    if prices.workers() != other.workers() {
        return false;
    }
    for number in 0..prices.workers() {
        let worker = WorkerNo::new(number as u16);
        if prices.worker(worker) != other.worker(worker) {
            return false;
        }
    }
    true
}
