//! Whether two problems differ in their splits' ends alone.
ghost use Rattle.std.specs.Prelude.{◌≡◌, ◌<◌, ◌↔◌, ℕ, IsTrue, length};
ghost use Rattle.node_ids.specs.Sets.{HasPair};
ghost use Rattle.rack_tree.specs.Tree.{Tree};
ghost use Rattle.wave_problem.specs.Wave.{live_holders};
ghost use Rattle.tree_flow.specs.declared.nodes.End.{End};
ghost use Rattle.tree_flow.specs.Nodes.{IsEnd};
ghost use Rattle.tree_flow.specs.State.{slots_of};
ghost use Rattle.tree_planner.specs.Events.{HasSameBytes, HasSameSlots, IsLike};

use crate::tables::slots_of;
use node_ids::{RackNo, SplitNo, WorkerNo};
use rack_tree::RackTree;
use wave_problem::Problem;

/// Whether two problems have the same tree, slots and bytes, so that they can differ in their splits' ends
/// alone.
pub fn is_like(one: &Problem, other: &Problem) -> bool
    ensures { IsTrue result → IsLike one.now other.now }
{
    is_same_tree(one.tree(), other.tree())
        && has_same_slots(one, other)
        && has_same_bytes(one, other)
        && one.reward() == other.reward()
}

fn is_same_tree(one: &RackTree, other: &RackTree) -> bool
    ensures { IsTrue result → one.now ≡ other.now }
{
    one.centres() == other.centres() && has_same_centres(one, other) && has_same_racks(one, other)
}

// Whether each rack stands in the same centre.
fn has_same_centres(one: &RackTree, other: &RackTree) -> bool
    ensures { IsTrue result → one.now.centre_of ≡ other.now.centre_of }
{
    if one.racks() != other.racks() {
        return false;
    }
    for r in 0..one.racks() {
        let rack = RackNo::new(r as u16);
        if one.centre_of(rack).index() != other.centre_of(rack).index() {
            return false;
        }
    }
    true
}

// Whether each worker stands in the same rack.
fn has_same_racks(one: &RackTree, other: &RackTree) -> bool
    ensures { IsTrue result → one.now.rack_of ≡ other.now.rack_of }
{
    if one.workers() != other.workers() {
        return false;
    }
    for w in 0..one.workers() {
        let worker = WorkerNo::new(w as u16);
        if one.rack_of(worker).index() != other.rack_of(worker).index() {
            return false;
        }
    }
    true
}

// Whether each worker can give as many slots.
fn has_same_slots(one: &Problem, other: &Problem) -> bool
    ensures { IsTrue result → HasSameSlots one.now other.now }
{
    if one.workers() != other.workers() {
        return false;
    }
    for w in 0..one.workers() {
        let worker = WorkerNo::new(w as u16);
        if slots_of(one, worker) != slots_of(other, worker) {
            return false;
        }
    }
    true
}

// Whether each split has as many bytes.
fn has_same_bytes(one: &Problem, other: &Problem) -> bool
    ensures { IsTrue result → HasSameBytes one.now other.now }
{
    if one.splits() != other.splits() {
        return false;
    }
    for s in 0..one.splits() {
        let split = SplitNo::new(s as u32);
        if one.bytes(split) != other.bytes(split) {
            return false;
        }
    }
    true
}

/// Whether a split surely has the same ends in two problems of one tree, since its line, its live holders and
/// its bars are the same.
pub fn has_same_ends(one: &Problem, other: &Problem, split: SplitNo) -> bool
    requires like { IsLike one.now other.now }
    requires split { split < length other.now.splits }
    ensures { IsTrue result → (e : End) → IsEnd other.now split e ↔ IsEnd one.now split e }
{
    one.limits();
    let here = one.is_pending(split);
    let there = other.is_pending(split);
    if !here {
        return !there;
    }
    if !there {
        return false;
    }
    if !has_same_holders(one, other, split) {
        return false;
    }
    has_same_bars(one, other, split)
}

// Whether a split has the same live holders.
fn has_same_holders(one: &Problem, other: &Problem, split: SplitNo) -> bool
    requires one { split < length one.now.splits }
    requires other { split < length other.now.splits }
    ensures { IsTrue result → live_holders other.now split ≡ live_holders one.now split }
{
    let (before, after) = (one.holders(split), other.holders(split));
    if before.len() != after.len() {
        return false;
    }
    for k in 0..before.len() {
        if before[k] != after[k] || one.is_live(before[k]) != other.is_live(after[k]) {
            return false;
        }
    }
    true
}

// Whether a split is barred on the same workers.
fn has_same_bars(one: &Problem, other: &Problem, split: SplitNo) -> bool
    requires one { split < length one.now.splits }
    requires other { split < length other.now.splits }
    ensures { IsTrue result → (w : ℕ) → HasPair other.now.barred split w ↔ HasPair one.now.barred split w }
{
    let before = one.bars(split);
    let after = other.bars(split);
    before == after
}
