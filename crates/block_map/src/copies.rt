ghost use Rattle.std.specs.Prelude.{◌≡◌, ℕ, ◌<◌, ◌≤◌, ◌&&◌, true, nat_lt, length, All, Contains, IfOk};
ghost use Rattle.block_map.specs.Holdings.{holders_of};
ghost use Rattle.block_map.specs.Copies.{IsCopy, IsNoWorse, WantsCopy, all_copies, copy_at, holdings};
ghost use Rattle.block_map.specs.Copies.{live_count, may_hold, replicas_in};
ghost use Rattle.rack_tree.specs.Tree.{Tree};

use crate::{BlockMap, CopyOrder};
use node_ids::{RackNo, SplitNo, WorkerNo};
use rack_tree::RackTree;
use std::alloc::{AllocError, Global};
use worker_table::WorkerTable;

/// The copy of each split that wants one, by rising split.
pub(crate) fn copy_orders(
    alloc: Global,
    blocks: &BlockMap,
    table: &WorkerTable,
    tree: &RackTree,
    target: usize,
) -> Result<Vec<CopyOrder>, AllocError>
    requires racks { length tree.now.rack_of ≡ length table.now.each }
    requires holders { All (All (λ h. h < length table.now.each)) blocks.now }
    ensures { IfOk result (λ orders.
        orders.items ≡ all_copies (holdings table.now tree.now blocks.now target)) }
{
    let mut orders = Vec::new(alloc);
    for i in 0..blocks.splits() {
        if let Some(order) = copy_order(blocks, table, tree, target, SplitNo::new(i as u32)) {
            orders.push(order)?;
        }
    }
    Ok(orders)
}

/// How many copies `copy_orders` answers.
pub(crate) fn copy_count(blocks: &BlockMap, table: &WorkerTable, target: usize) -> usize
    ensures { (tree : Tree)
        → result ≡ length (all_copies (holdings table.now tree blocks.now target)) }
{
    let limit = target.min(live_count(table));
    let mut count = 0;
    for i in 0..blocks.splits() {
        if is_between(blocks, SplitNo::new(i as u32), limit) {
            count += 1;
        }
    }
    count
}

/// The copy of a split, if it wants one.
pub(crate) fn copy_order(
    blocks: &BlockMap,
    table: &WorkerTable,
    tree: &RackTree,
    target: usize,
    split: SplitNo,
) -> Option<CopyOrder>
    requires racks { length tree.now.rack_of ≡ length table.now.each }
    requires holders { All (λ h. h < length table.now.each) (holders_of blocks.now split) }
    requires known { split < length blocks.now }
    ensures { result ≡ copy_at (holdings table.now tree.now blocks.now target) split }
{
    let limit = target.min(live_count(table));
    if is_between(blocks, split, limit) {
        Some(copy_of(blocks, table, tree, split))
    } else {
        None
    }
}

// Whether the split has a holder, and fewer than the limit.
fn is_between(blocks: &BlockMap, split: SplitNo, limit: usize) -> bool
    requires { split < length blocks.now }
    ensures { result ≡ (nat_lt 0 (length (holders_of blocks.now split))
        && nat_lt (length (holders_of blocks.now split)) limit) }
{
    let count = blocks.holders(split).len();
    0 < count && count < limit
}

fn live_count(table: &WorkerTable) -> usize
    ensures { result ≡ live_count table.now }
{
    table.workers().iter().filter(|worker| worker.live).count()
}

// The copy of a split that wants one.
fn copy_of(blocks: &BlockMap, table: &WorkerTable, tree: &RackTree, split: SplitNo) -> CopyOrder
    requires racks { length tree.now.rack_of ≡ length table.now.each }
    requires holders { All (λ h. h < length table.now.each) (holders_of blocks.now split) }
    requires known { split < length blocks.now }
    requires held { 0 < length (holders_of blocks.now split) }
    requires few { length (holders_of blocks.now split) < live_count table.now }
    ensures split { result.split ≡ split }
    ensures copy { (target : ℕ) → WantsCopy (holdings table.now tree.now blocks.now target) split
        → IsCopy (holdings table.now tree.now blocks.now target) result }
{
    CopyOrder {
        split,
        from: lowest(blocks.holders(split)),
        to: target_of(blocks, table, tree, split),
    }
}

fn lowest(holders: &[WorkerNo]) -> WorkerNo
    requires { 0 < length holders.now }
    ensures held { Contains holders.now result }
    ensures lowest { All (λ h. result ≤ h) holders.now }
{
    let mut lowest = holders[0];
    for holder in holders {
        if *holder < lowest {
            lowest = *holder;
        }
    }
    lowest
}

// How many of the holders are in a rack.
fn replicas_in(tree: &RackTree, rack: RackNo, holders: &[WorkerNo]) -> usize
    requires { All (λ h. h < length tree.now.rack_of) holders.now }
    ensures count { result ≡ replicas_in tree.now rack holders.now }
    ensures most { result ≤ length holders.now }
{
    let mut count = 0;
    for holder in holders {
        if tree.rack_of(*holder) == rack {
            count += 1;
        }
    }
    count
}

fn may_hold(blocks: &BlockMap, table: &WorkerTable, split: SplitNo, worker: WorkerNo) -> bool
    requires split { split < length blocks.now }
    requires worker { worker < length table.now.each }
    ensures { (tree : Tree) → result ≡ may_hold (holdings table.now tree blocks.now 0) split worker }
{
    table.live(worker) && !blocks.holds(split, worker)
}

// The live worker without the split in whose rack the fewest of its replicas are, the lowest among equals.
fn target_of(blocks: &BlockMap, table: &WorkerTable, tree: &RackTree, split: SplitNo) -> WorkerNo
    requires racks { length tree.now.rack_of ≡ length table.now.each }
    requires holders { All (λ h. h < length table.now.each) (holders_of blocks.now split) }
    requires known { split < length blocks.now }
    requires few { length (holders_of blocks.now split) < live_count table.now }
    ensures allowed { may_hold (holdings table.now tree.now blocks.now 0) split result ≡ true }
    ensures fewest { (w : ℕ) → may_hold (holdings table.now tree.now blocks.now 0) split w ≡ true
        → IsNoWorse (holdings table.now tree.now blocks.now 0) split result w }
{
    let holders = blocks.holders(split);
    let mut best: Option<WorkerNo> = None;
    let mut fewest = usize::MAX;
    for i in 0..tree.workers() {
        let worker = WorkerNo::new(i as u16);
        let beside = replicas_in(tree, tree.rack_of(worker), holders);
        if beside < fewest && may_hold(blocks, table, split, worker) {
            best = Some(worker);
            fewest = beside;
        }
    }
    best.unwrap()
}
