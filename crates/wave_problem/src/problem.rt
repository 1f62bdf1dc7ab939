ghost use Rattle.std.specs.Prelude.{◌≡◌, ◌≢◌, ℕ, List, [], ◌∷◌, ◌++◌, ◌+◌, ◌*◌, ◌<◌, ◌≤◌, ◌↔◌, length, map};
ghost use Rattle.std.specs.Prelude.{slice_index_or, slice_set, sum_by, All, AllPairs};
ghost use Rattle.std.specs.Prelude.{IsTrue, OnOk, IfOk, IfSome, Err};
ghost use Rattle.std.specs.List.Sorted.{IsNonDecreasing};
ghost use Rattle.node_ids.specs.Sets.{HasPair};
ghost use Rattle.rack_tree.specs.Tree.{distance};
ghost use Rattle.rack_tree.specs.declared.TheConstants.{MAX_DISTANCE, MAX_WORKERS};
ghost use Rattle.wave_problem.specs.declared.TheConstants.{MAX_SPLITS, MAX_HOLDERS, MAX_SLOTS, MAX_BYTES};
ghost use Rattle.wave_problem.specs.Sums.{least};
ghost use Rattle.rack_tree.specs.View as tree;
ghost use Rattle.wave_problem.specs.Wave.{cost, live_among, live_holders, reward, split_at, wave_from};
ghost use Rattle.wave_problem.specs.Wave.{worker_at, worker_in, AreHeldWell, AreSmall, IsAdmissible};
ghost use Rattle.wave_problem.specs.Wave.{IsWithinLimits};

use crate::lines::{SplitLine, SplitRef, WorkerLine, are_held_well, are_small};
use node_ids::{PairSet, SplitNo, WorkerNo};
use rack_tree::RackTree;
use smallvec::SmallVec;
use std::alloc::{AllocError, Global};
use std::marker::Model;
use thiserror::Error;

// A split with its holders. Where they are no more than eight, they are kept inline.
#[derive(Drop)]
struct SplitEntry {
    bytes: u64,
    pending: bool,
    holders: SmallVec<WorkerNo, 8>,
}

impl Model for SplitEntry {
    ghost use Rattle.wave_problem.specs.Wave.{Split};

    ghost Value = { Split };

    ghost view = { λ s. record { bytes = s.bytes; pending = s.pending; holders = s.holders.items } };
}

fn keep_inline(alloc: Global, line: &SplitRef<'_>) -> Result<SplitEntry, AllocError>
    ensures { IfOk result (λ entry. entry ≡ line.now) }
{
    Ok(SplitEntry {
        bytes: line.bytes,
        pending: line.pending,
        holders: SmallVec::from_slice(alloc, line.holders)?,
    })
}

fn keep_all(alloc: Global, lines: &[SplitLine]) -> Result<Vec<SplitEntry>, AllocError>
    ensures { IfOk result (λ entries. entries.items ≡ lines.now) }
{
    let mut entries = Vec::with_capacity(alloc, lines.len())?;
    for line in lines {
        let entry = keep_inline(alloc, &line.lent())?;
        entries.push_reserved(entry);
    }
    Ok(entries)
}

// As `keep_all`, of lines that are lent.
fn keep_lent(alloc: Global, lines: &[SplitRef<'_>]) -> Result<Vec<SplitEntry>, AllocError>
    ensures { IfOk result (λ entries. entries.items ≡ lines.now) }
{
    let mut entries = Vec::with_capacity(alloc, lines.len())?;
    for line in lines {
        let entry = keep_inline(alloc, line)?;
        entries.push_reserved(entry);
    }
    Ok(entries)
}

/// Why no problem was made, in the order in which it is tested.
#[derive(Clone, Copy, Debug, PartialEq, Eq, Error)]
pub enum ProblemError {
    /// There are too many splits, or slots of a worker, or bytes or holders of a split.
    #[error("the problem is too large")]
    Limit,
    /// A holder is no worker of the tree, or stands twice among the holders of a split.
    #[error("a holder is unknown or repeated")]
    Holder,
    /// There is no memory for the lines of the splits.
    #[error("no memory")]
    Memory,
}

/// The cluster as one wave sees it: the tree, a line for each worker and each split, and the pairs of
/// a split and a worker that are barred.
pub struct Problem {
    tree: RackTree,
    workers: Vec<WorkerLine>,
    splits: Vec<SplitEntry>,
    barred: PairSet,
}

// (one call wherever it is dropped)
impl Drop for Problem {
    fn drop(self) {
        let Problem {
            tree: _,
            workers: _,
            splits: _,
            barred: _,
        } = self;
    }
}

impl Model for Problem {
    ghost use Rattle.wave_problem.specs.Wave.{IsWithinLimits, Wave};

    ghost Value = { Wave };

    ghost use Rattle.wave_problem.specs.View.{wave_of};

    ghost view = { wave_of };

    ghost invariant = { λ p. IsWithinLimits (wave_of p) };
}

impl Problem {
    /// The problem of these parts, with a line for each worker of the tree. The limits are tested
    /// before the holders, and both before memory is taken.
    pub fn new(
        alloc: Global,
        tree: RackTree,
        workers: Vec<WorkerLine>,
        splits: Vec<SplitLine>,
        barred: PairSet,
    ) -> Result<Problem, ProblemError>
        requires { length workers.items ≡ length tree.rack_of }
        ensures ok { IfOk result (λ p. p ≡ wave_from tree workers.items splits.items barred) }
        ensures sound { OnOk result
            (AreSmall workers.items splits.items × AreHeldWell (length workers.items) splits.items) }
        ensures limit { (result ≡ Err ProblemError.Limit) ↔ (AreSmall workers.items splits.items → ⊥) }
        ensures holder { (result ≡ Err ProblemError.Holder)
            ↔ (AreSmall workers.items splits.items × (AreHeldWell (length workers.items) splits.items → ⊥)) }
        ensures memory { result ≡ Err ProblemError.Memory
            → AreSmall workers.items splits.items × AreHeldWell (length workers.items) splits.items }
    {
        let count = tree.workers();
        if !are_small(&workers, &splits) {
            return Err(ProblemError::Limit);
        }
        if !are_held_well(count, &splits) {
            return Err(ProblemError::Holder);
        }
        match keep_all(alloc, &splits) {
            Ok(splits) => Ok(Problem {
                tree,
                workers,
                splits,
                barred,
            }),
            Err(_) => Err(ProblemError::Memory),
        }
    }

    /// The problem of parts that are known to keep to the limits. Room for the splits is taken at once.
    pub fn within_limits(
        alloc: Global,
        tree: RackTree,
        workers: Vec<WorkerLine>,
        splits: &[SplitRef<'_>],
        barred: PairSet,
    ) -> Result<Problem, AllocError>
        requires { IsWithinLimits (wave_from tree workers.items splits.now barred) }
        ensures { IfOk result (λ p. p ≡ wave_from tree workers.items splits.now barred) }
    {
        let splits = keep_lent(alloc, splits)?;
        Ok(Problem {
            tree,
            workers,
            splits,
            barred,
        })
    }

    /// What holds of every problem, and of its tree.
    pub fn limits(&self)
        ensures problem { IsWithinLimits self.now }
        ensures tree { tree.IsWithinLimits self.now.tree }
    {
        self.tree.limits();
    }

    /// The racks and the rack of each worker.
    pub fn tree(&self) -> &RackTree
        ensures tree { result.now ≡ self.now.tree }
        ensures lines { length self.now.workers ≡ length self.now.tree.rack_of }
        ensures most { length self.now.workers ≤ MAX_WORKERS }
    {
        &self.tree
    }

    /// How many splits there are.
    pub fn splits(&self) -> usize
        ensures count { result ≡ length self.now.splits }
        ensures most { result ≤ MAX_SPLITS }
    {
        self.splits.len()
    }

    /// How many workers there are.
    pub fn workers(&self) -> usize
        ensures count { result ≡ length self.now.workers }
        ensures most { result ≤ MAX_WORKERS }
    {
        self.workers.len()
    }

    /// Whether the worker lives.
    pub fn is_live(&self, worker: WorkerNo) -> bool
        requires { worker < length self.now.workers }
        ensures { result ≡ (worker_at self.now worker).live }
    {
        self.workers[worker.index()].live
    }

    /// How many slots of the worker are free.
    pub fn free(&self, worker: WorkerNo) -> u8
        requires { worker < length self.now.workers }
        ensures slots { result ≡ (worker_at self.now worker).free }
        ensures most { result ≤ MAX_SLOTS }
    {
        self.workers[worker.index()].free
    }

    /// The declared bytes of the split.
    pub fn bytes(&self, split: SplitNo) -> u64
        requires { split < length self.now.splits }
        ensures size { result ≡ (split_at self.now split).bytes }
        ensures most { result ≤ MAX_BYTES }
    {
        self.splits[split.index()].bytes
    }

    /// Whether the split waits for a start.
    pub fn is_pending(&self, split: SplitNo) -> bool
        requires { split < length self.now.splits }
        ensures { result ≡ (split_at self.now split).pending }
    {
        self.splits[split.index()].pending
    }

    /// The workers that hold a replica of the split, dead ones among them, in their order.
    pub fn holders(&self, split: SplitNo) -> &[WorkerNo]
        requires { split < length self.now.splits }
        ensures holders { result.now ≡ (split_at self.now split).holders }
        ensures known { All (λ h. h < length self.now.workers) result.now }
        ensures distinct { AllPairs (λ a b. a ≢ b) result.now }
        ensures most { length result.now ≤ MAX_HOLDERS }
    {
        let line = &self.splits[split.index()];
        line.holders.as_slice()
    }

    /// Whether the split may not start on the worker.
    pub fn is_barred(&self, split: SplitNo, worker: WorkerNo) -> bool
        requires split { split < length self.now.splits }
        requires worker { worker < length self.now.workers }
        ensures { IsTrue result ↔ HasPair self.now.barred split worker }
    {
        self.barred.has(split, worker)
    }

    /// The workers on which the split may not start, rising.
    pub fn bars(&self, split: SplitNo) -> &[WorkerNo]
        requires { split < length self.now.splits }
        ensures row { result.now ≡ slice_index_or self.now.barred split [] }
        ensures rising { IsNonDecreasing result.now }
    {
        self.barred.row(split)
    }

    /// Whether a live worker holds a replica of the split.
    pub fn has_live_holder(&self, split: SplitNo) -> bool
        requires { split < length self.now.splits }
        ensures { IsTrue result ↔ (0 < length (live_holders self.now split)) }
    {
        let line = &self.splits[split.index()];
        any_live(&self.workers, line.holders.as_slice())
    }

    /// The byte-distance of a start of the split on the worker: its bytes times the least distance from
    /// the worker to a live holder.
    pub fn cost(&self, split: SplitNo, worker: WorkerNo) -> Option<u64>
        requires split { split < length self.now.splits }
        requires worker { worker < length self.now.workers }
        ensures cost { result ≡ cost self.now split worker }
        ensures most { IfSome result (λ c. c ≤ MAX_DISTANCE * MAX_BYTES) }
    {
        let line = &self.splits[split.index()];
        // (the cost is asked mostly of live holders, which are looked for first)
        match least_distance(&self.tree, &self.workers, line.holders.as_slice(), worker) {
            Some(steps) => Some(line.bytes * u64::from(steps)),
            None => None,
        }
    }

    /// Whether the split may start on the worker.
    pub fn admissible(&self, split: SplitNo, worker: WorkerNo) -> bool
        requires split { split < length self.now.splits }
        requires worker { worker < length self.now.workers }
        ensures { IsTrue result ↔ IsAdmissible self.now split worker }
    {
        self.is_pending(split)
            && self.has_live_holder(split)
            && self.is_live(worker)
            && self.free(worker) > 0
            && !self.is_barred(split, worker)
    }

    /// Puts another line in the place of a worker's.
    pub fn set_worker(&mut self, worker: WorkerNo, line: WorkerLine)
        requires worker { worker < length self.old.workers }
        requires slots { line.free ≤ MAX_SLOTS }
        ensures { self.new ≡ record self.old { workers = slice_set self.old.workers worker line } }
    {
        self.workers[worker.index()] = line;
    }

    /// Says whether the split waits for a start.
    pub fn set_pending(&mut self, split: SplitNo, pending: bool)
        requires { split < length self.old.splits }
        ensures { self.new ≡ record self.old {
          splits = slice_set self.old.splits split
              (record (split_at self.old split) { pending = pending });
        } }
    {
        self.splits[split.index()].pending = pending;
    }

    /// What one start more is worth, in byte-distance: more than any admissible assignment costs.
    pub fn reward(&self) -> u64
        ensures reward { result ≡ reward self.now }
        ensures most { result ≤ 1 + MAX_DISTANCE * MAX_SPLITS * MAX_BYTES }
    {
        1 + u64::from(self.tree.reach()) * total_bytes(&self.splits)
    }
}

fn least_distance(
    tree: &RackTree,
    workers: &[WorkerLine],
    holders: &[WorkerNo],
    to: WorkerNo,
) -> Option<u8>
    requires lines { length workers.now ≡ length tree.now.rack_of }
    requires holders { All (λ h. h < length workers.now) holders.now }
    requires to { to < length workers.now }
    ensures least { result ≡ least (map (λ h. distance tree.now h to) (live_among workers.now holders.now)) }
    ensures most { IfSome result (λ steps. steps ≤ MAX_DISTANCE) }
{
    // (no holder is nearer than the worker itself)
    if holders.contains(&to) && lives(workers, to) {
        return Some(0);
    }
    let mut nearest = None;
    for holder in holders {
        if lives(workers, *holder) {
            nearest = Some(closer(nearest, tree.distance(*holder, to)));
        }
    }
    nearest
}

fn lives(workers: &[WorkerLine], worker: WorkerNo) -> bool
    requires { worker < length workers.now }
    ensures { result ≡ (worker_in workers.now worker).live }
{
    workers[worker.index()].live
}

// The lesser of the least so far and one more.
fn closer(nearest: Option<u8>, steps: u8) -> u8
    ensures least { (xs : List ℕ) → nearest ≡ least xs → Some result ≡ least (xs ++ steps ∷ []) }
    ensures most { result ≤ steps }
{
    match nearest {
        Some(least) if least <= steps => least,
        _ => steps,
    }
}

fn any_live(workers: &[WorkerLine], holders: &[WorkerNo]) -> bool
    requires { All (λ h. h < length workers.now) holders.now }
    ensures { IsTrue result ↔ (0 < length (live_among workers.now holders.now)) }
{
    for worker in holders {
        if lives(workers, *worker) {
            return true;
        }
    }
    false
}

fn total_bytes(splits: &[SplitEntry]) -> u64
    requires few { length splits.now ≤ MAX_SPLITS }
    requires small { All (λ split. split.bytes ≤ MAX_BYTES) splits.now }
    ensures sum { result ≡ sum_by (λ split. split.bytes) splits.now }
    ensures most { result ≤ MAX_SPLITS * MAX_BYTES }
{
    let mut total = 0;
    for split in splits {
        total += split.bytes;
    }
    total
}
