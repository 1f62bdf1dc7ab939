ghost use Rattle.std.specs.Prelude.{◌≡◌, ◌≤◌, ◌↔◌, IsTrue, length, map, All, IfOk};
ghost use Rattle.std.specs.List.{range_with_len};
ghost use Rattle.wave_problem.specs.declared.TheConstants.{MAX_SLOTS};
ghost use Rattle.wave_problem.specs.Wave.{AreHeldWell};
ghost use Rattle.shuffle_reduce.specs.Gather.{values_of};
ghost use Rattle.master_state.specs.States.{IsWhole};
ghost use Rattle.master_core.specs.Clusters.{AreFewAndSmall, cluster_from, documents_in};

use block_map::HolderLimit;
use master_state::{MAX_JOB_SPLITS, MAX_JOB_WORKERS};
use rack_tree::RackTree;
use std::alloc::Global;
use std::marker::Model;
use std::sync::Arc;
use thiserror::Error;
use wave_problem::{MAX_SLOTS, SplitLine, are_held_well, are_small_splits};
use word_map::SplitText;

/// The greatest number of parts of a job.
pub const MAX_PARTS: usize = 64;

/// The greatest number of documents of a job.
pub const MAX_DOCUMENTS: usize = 1_048_576;

/// Why a cluster was not made. It is tested in this order.
#[derive(Clone, Copy, Debug, PartialEq, Eq, Error)]
pub enum ClusterError {
    /// A worker has too many slots, there are too many workers, splits, documents or parts, or a split has
    /// too many bytes or holders.
    #[error("a limit of the cluster is passed")]
    Limit,
    /// A holder is no worker, or stands twice at a split.
    #[error("a holder is no worker, or stands twice at a split")]
    Holder,
    #[error("no memory")]
    Memory,
}

/// A job's input: racks and workers, each worker's slots, splits with their first holders and texts, the
/// number of parts, the silence (sweeps without a new beat) after which a worker is dead, and to how many
/// holders a split may grow.
pub struct Cluster {
    tree: RackTree,
    slots: Vec<u8>,
    splits: Vec<SplitLine>,
    texts: Vec<Arc<SplitText>>,
    parts: usize,
    silence: u32,
    holder_limit: HolderLimit,
}

// (one call wherever it is dropped)
impl Drop for Cluster {
    fn drop(self) {
        let Cluster {
            tree: _,
            slots: _,
            splits: _,
            texts: _,
            parts: _,
            silence: _,
            holder_limit: _,
        } = self;
    }
}

impl Model for Cluster {
    ghost use Rattle.master_state.specs.States.{Cluster, IsWhole};

    ghost Value = { Cluster };

    ghost use Rattle.master_core.specs.Inside.{cluster_of};

    ghost view = { cluster_of };

    ghost invariant = { λ c. IsWhole (cluster_of c) };
}

impl Cluster {
    /// The cluster of these parts: slots and texts by the numbers of the workers and splits. Whether a split
    /// is pending is not read.
    pub fn new(
        alloc: Global,
        tree: RackTree,
        slots: &[u8],
        splits: Vec<SplitLine>,
        texts: Vec<Arc<SplitText>>,
        parts: usize,
        silence: u32,
        holder_limit: HolderLimit,
    ) -> Result<Cluster, ClusterError>
        requires workers { length tree.rack_of ≡ length slots.now }
        requires texts { map (λ text. text.split) (values_of texts.items)
            ≡ range_with_len 0 (length splits.items) }
        requires parts { 1 ≤ parts }
        requires silence { 1 ≤ silence }
        ensures ok { IfOk result (λ c.
            c ≡ cluster_from tree slots.now splits.items texts.items parts silence holder_limit) }
        ensures limit { (result ≡ Err ClusterError.Limit)
            ↔ (AreFewAndSmall slots.now splits.items (values_of texts.items) parts → ⊥) }
        ensures holder { (result ≡ Err ClusterError.Holder)
            ↔ (AreFewAndSmall slots.now splits.items (values_of texts.items) parts
            × (AreHeldWell (length slots.now) splits.items → ⊥)) }
        ensures memory { result ≡ Err ClusterError.Memory
            → AreFewAndSmall slots.now splits.items (values_of texts.items) parts
            × AreHeldWell (length slots.now) splits.items }
    {
        if !are_few_and_small(slots, &splits, &texts, parts) {
            return Err(ClusterError::Limit);
        }
        if !are_held_well(slots.len(), &splits) {
            return Err(ClusterError::Holder);
        }
        match slots.to_vec(alloc) {
            Ok(slots) => Ok(Cluster {
                tree,
                slots,
                splits,
                texts,
                parts,
                silence,
                holder_limit,
            }),
            Err(_) => Err(ClusterError::Memory),
        }
    }

    /// The racks, and the rack of each worker.
    pub fn tree(&self) -> &RackTree
        ensures { result.now ≡ self.now.tree }
    {
        &self.tree
    }

    /// The number of slots of each worker.
    pub fn slots(&self) -> &[u8]
        ensures value { result.now ≡ self.now.slots }
        ensures whole { IsWhole self.now }
    {
        &self.slots
    }

    /// The splits with their first holders.
    pub fn splits(&self) -> &[SplitLine]
        ensures value { result.now ≡ self.now.splits }
        ensures whole { IsWhole self.now }
    {
        &self.splits
    }

    /// The text of each split.
    pub fn texts(&self) -> &[Arc<SplitText>]
        ensures { values_of result.now ≡ self.now.texts }
    {
        &self.texts
    }

    /// How many parts the words are divided into.
    pub fn parts(&self) -> usize
        ensures count { result ≡ self.now.parts }
        ensures most { result ≤ 64 }
        ensures some { 1 ≤ result }
    {
        self.parts
    }

    /// The sweeps without a new beat after which a worker is dead.
    pub fn silence(&self) -> u32
        ensures count { result ≡ self.now.silence }
        ensures some { 1 ≤ result }
    {
        self.silence
    }

    /// To how many holders a split may grow.
    pub fn holder_limit(&self) -> HolderLimit
        ensures { result ≡ self.now.holder_limit }
    {
        self.holder_limit
    }
}

// Whether the limits that a cluster has beside its tree are kept.
fn are_few_and_small(
    slots: &[u8],
    splits: &[SplitLine],
    texts: &[Arc<SplitText>],
    parts: usize,
) -> bool
    ensures { IsTrue result ↔ AreFewAndSmall slots.now splits.now (values_of texts.now) parts }
{
    slots.len() <= MAX_JOB_WORKERS
        && have_few_slots(slots)
        && splits.len() <= MAX_JOB_SPLITS
        && are_small_splits(splits)
        && have_few_documents(texts)
        && parts <= MAX_PARTS
}

fn have_few_documents(texts: &[Arc<SplitText>]) -> bool
    ensures { IsTrue result ↔ documents_in (values_of texts.now) ≤ 1048576 }
{
    let mut left = MAX_DOCUMENTS;
    for text in texts {
        let count = text.documents().len();
        if count > left {
            return false;
        }
        left -= count;
    }
    true
}

fn have_few_slots(slots: &[u8]) -> bool
    ensures { IsTrue result ↔ All (λ n. n ≤ MAX_SLOTS) slots.now }
{
    slots.iter().all(|count| *count <= MAX_SLOTS)
}
