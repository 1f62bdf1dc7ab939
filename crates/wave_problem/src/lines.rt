ghost use Rattle.std.specs.Prelude.{◌≡◌, ◌≢◌, ℕ, ◌<◌, ◌≤◌, ◌↔◌, length, All, AllPairs, IsTrue, false};
ghost use Rattle.std.specs.Prelude.{slice_index_or};
ghost use Rattle.wave_problem.specs.declared.TheConstants.{MAX_SLOTS};
ghost use Rattle.wave_problem.specs.Wave.{AreHeldWell, AreSmall, AreSmallSplits, IsHeldWell, IsSmall, Split};

use crate::{MAX_BYTES, MAX_HOLDERS, MAX_SLOTS, MAX_SPLITS};
use node_ids::WorkerNo;
use std::marker::Model;

/// A worker as a wave sees it: whether it lives, and how many of its slots are free.
#[derive(Clone, Copy, Debug, PartialEq, Eq)]
pub struct WorkerLine {
    pub live: bool,
    pub free: u8,
}

/// A split as a wave sees it: its declared bytes, whether it waits for a start, and the workers that
/// hold a replica of it, dead ones among them.
#[derive(Drop)]
pub struct SplitLine {
    pub bytes: u64,
    pub pending: bool,
    pub holders: Vec<WorkerNo>,
}

impl Model for SplitLine {
    ghost Value = { Split };

    ghost view = { λ s. record { bytes = s.bytes; pending = s.pending; holders = s.holders.items } };
}

impl SplitLine {
    /// The same line, with its holders lent.
    pub fn lent(&self) -> SplitRef<'_>
        ensures { result ≡ self.now }
    {
        SplitRef {
            bytes: self.bytes,
            pending: self.pending,
            holders: &self.holders,
        }
    }
}

/// As a `SplitLine`, with the holders lent.
#[derive(Drop)]
pub struct SplitRef<'h> {
    pub bytes: u64,
    pub pending: bool,
    pub holders: &'h [WorkerNo],
}

impl<'h> Model for SplitRef<'h> {
    ghost Value = { Split };

    ghost view = { λ s. record { bytes = s.bytes; pending = s.pending; holders = s.holders.now } };
}

pub(crate) fn are_small(workers: &[WorkerLine], splits: &[SplitLine]) -> bool
    ensures { IsTrue result ↔ AreSmall workers.now splits.now }
{
    have_few_slots(workers) && are_small_splits(splits)
}

fn have_few_slots(workers: &[WorkerLine]) -> bool
    ensures { IsTrue result ↔ All (λ worker. worker.free ≤ MAX_SLOTS) workers.now }
{
    workers.iter().all(|worker| worker.free <= MAX_SLOTS)
}

/// Whether a problem may have these splits, as far as its limits say: few enough, each of few enough bytes
/// and holders.
pub fn are_small_splits(splits: &[SplitLine]) -> bool
    ensures { IsTrue result ↔ AreSmallSplits splits.now }
{
    splits.len() <= MAX_SPLITS && are_small_each(splits)
}

fn are_small_each(splits: &[SplitLine]) -> bool
    ensures { IsTrue result ↔ All IsSmall splits.now }
{
    splits.iter().all(|split| is_small(split))
}

fn is_small(split: &SplitLine) -> bool
    ensures { IsTrue result ↔ IsSmall split.now }
{
    split.bytes <= MAX_BYTES && split.holders.len() <= MAX_HOLDERS
}

/// Whether each holder is one of so many workers, and none stands twice among the holders of a split.
pub fn are_held_well(workers: usize, splits: &[SplitLine]) -> bool
    ensures { IsTrue result ↔ AreHeldWell workers splits.now }
{
    for i in 0..splits.len() {
        if !is_held_well(workers, &splits[i]) {
            return false;
        }
    }
    true
}

fn is_held_well(workers: usize, split: &SplitLine) -> bool
    ensures { IsTrue result ↔ IsHeldWell workers split.now }
{
    are_known(workers, &split.holders) && are_distinct(&split.holders)
}

fn are_known(workers: usize, holders: &[WorkerNo]) -> bool
    ensures { IsTrue result ↔ All (λ h. h < workers) holders.now }
{
    for i in 0..holders.len() {
        if holders[i].index() >= workers {
            return false;
        }
    }
    true
}

fn are_distinct(holders: &[WorkerNo]) -> bool
    ensures { IsTrue result ↔ AllPairs (λ a b. a ≢ b) holders.now }
{
    for i in 0..holders.len() {
        if stands_before(holders, i) {
            return false;
        }
    }
    true
}

// Whether the holder at a place stands at an earlier one too.
fn stands_before(holders: &[WorkerNo], i: usize) -> bool
    requires { i < length holders.now }
    ensures repeated { IsTrue result → AllPairs (λ a b. a ≢ b) holders.now → ⊥ }
    ensures apart { result ≡ false
        → (k d : ℕ) → k < i → slice_index_or holders.now k d ≢ slice_index_or holders.now i d }
{
    for k in 0..i {
        if holders[k] == holders[i] {
            return true;
        }
    }
    false
}
