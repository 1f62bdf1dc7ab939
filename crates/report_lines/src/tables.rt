//! What is told of a master's past.
use block_map::{BlockMap, HolderLimit};
use compact_lists::{CountList, EventList};
use rack_tree::RackTree;
use worker_table::WorkerTable;

/// Who lives and was heard, and who holds which split.
#[derive(Drop)]
pub struct Tables {
    pub workers: WorkerTable,
    pub holders: BlockMap,
}

/// The racks, to how many holders a split may grow, how many it is to have, the events of a master, and the
/// counts of its sweeps.
#[derive(Drop)]
pub struct Story {
    pub tree: RackTree,
    pub limit: HolderLimit,
    pub target: usize,
    pub history: EventList,
    pub sweeps: CountList,
}
