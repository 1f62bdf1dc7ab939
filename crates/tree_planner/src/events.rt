//! What happens to a wave, told to the state that is kept for it.
ghost use Rattle.std.specs.Prelude.{◌≡◌, ◌≢◌, ◌+◌, ◌<◌, ◌≤◌, ◌↔◌, ℕ, true, false, IfOk};
ghost use Rattle.std.specs.Prelude.{OnErr, OnOk, Some, length};
ghost use Rattle.wave_problem.specs.declared.TheConstants.{MAX_SLOTS};
ghost use Rattle.wave_problem.specs.Wave.{split_at, worker_at, IsAdmissible, IsUsable, Wave};
ghost use Rattle.tree_flow.specs.declared.nodes.End.{End};
ghost use Rattle.tree_flow.specs.declared.nodes.Place.TheVariants.{Stands, Unshipped, Waits};
ghost use Rattle.tree_flow.specs.declared.nodes.TreeNode.{TreeNode};
ghost use Rattle.tree_flow.specs.declared.nodes.TreeNode.TheVariants.{Worker};
ghost use Rattle.tree_flow.specs.Moves.{IsPlaced};
ghost use Rattle.tree_flow.specs.Nodes.{is_under, parent, IsEnd};
ghost use Rattle.tree_planner.specs.Hanging.{AreChildren};
ghost use Rattle.tree_flow.specs.State.{place_of};
ghost use Rattle.tree_flow.specs.Table.{at_node};
ghost use Rattle.tree_planner.specs.Engine.{IsFixed, IsStanding, IsStandingBut};
ghost use Rattle.tree_planner.specs.Ends.{HasEnd};
ghost use Rattle.tree_planner.specs.Events.{slot_less, slot_more, started, with_pending};
ghost use Rattle.tree_planner.specs.View.{state_of};
ghost use Rattle.tree_planner.specs.Way.{AreOthersSame};
ghost use Rattle.tree_planner.specs.SearchingBack.{IsBlank};
ghost use Rattle.tree_planner.specs.WayBack.{AreAllSame};

use crate::back::SearchBack;
use crate::engine::{Fixed, ship_rest};
use crate::follow::{place, stood_at};
use crate::refill::{deepen, fill, sink};
use crate::split_ends::OwnEnds;
use crate::tables::{Tables, add_above, one_less_above};
use crate::tree_nodes::node_above;
use node_ids::{SplitNo, WorkerNo};
use std::alloc::{AllocError, Global};
use tree_flow::{End, Place, TreeNode};
use wave_problem::{Problem, WorkerLine};

/// Where a split is.
pub fn place_at(tables: &Tables, split: u32) -> Place
    requires { split < length tables.now.places.items }
    ensures { result ≡ place_of (state_of tables.now) split }
{
    tables.places[split as usize]
}

/// Ships the splits that are not shipped yet, or lets them wait. Without memory some may be left.
pub fn settle(
    alloc: Global,
    problem: &Problem,
    fixed: &Fixed,
    tables: &mut Tables,
) -> Result<(), AllocError>
    requires fixed { IsFixed problem.now fixed.now }
    requires standing { IsStanding problem.now tables.old }
    ensures standing { IsStanding problem.now tables.new }
    ensures shipped { OnOk result ((s : ℕ) → s < length problem.now.splits
        → place_of (state_of tables.new) s ≢ Unshipped) }
{
    ship_rest(alloc, problem, fixed, tables)
}

/// A slot of a worker comes back: a split that waits may take it, splits may change their places for it, or
/// it stays free. The split that is named, if one is, is looked at first.
pub fn free(
    problem: &mut Problem,
    fixed: &mut Fixed,
    tables: &mut Tables,
    search: &mut SearchBack,
    worker: WorkerNo,
    first: Option<u32>,
)
    requires fixed { IsFixed problem.old fixed.old }
    requires standing { IsStanding problem.old tables.old }
    requires blank { IsBlank problem.old.tree search.old }
    requires worker { worker < length problem.old.workers }
    requires live { (worker_at problem.old worker).live ≡ true }
    requires room { (worker_at problem.old worker).free < MAX_SLOTS }
    ensures wave { problem.new ≡ slot_more problem.old worker }
    ensures fixed { IsFixed problem.new fixed.new }
    ensures standing { IsStanding problem.new tables.new }
    ensures unshipped { AreAllSame (state_of tables.old) (state_of tables.new) }
    ensures blank { IsBlank problem.old.tree search.new }
{
    let hole = TreeNode::Worker(worker.index() as u16);
    add_slot(problem, fixed, tables, worker);
    fill(problem, fixed, tables, search, hole, first);
}

// Gives a worker one slot more, which nobody has yet.
fn add_slot(problem: &mut Problem, fixed: &mut Fixed, tables: &mut Tables, worker: WorkerNo)
    requires fixed { IsFixed problem.old fixed.old }
    requires standing { IsStanding problem.old tables.old }
    requires worker { worker < length problem.old.workers }
    requires live { (worker_at problem.old worker).live ≡ true }
    requires room { (worker_at problem.old worker).free < MAX_SLOTS }
    ensures wave { problem.new ≡ slot_more problem.old worker }
    ensures fixed { IsFixed problem.new fixed.new }
    ensures standing { IsStandingBut problem.new tables.new (Some (Worker worker)) }
    ensures places { (state_of tables.new).places ≡ (state_of tables.old).places }
{
    problem.limits();
    deepen_above(problem, fixed, tables, worker);
    add_above(problem, &mut fixed.slots, worker, 1);
    let live = problem.is_live(worker);
    let free = problem.free(worker) + 1;
    problem.set_worker(worker, WorkerLine { live, free });
}

// Deepens the nodes above a worker that units fill, from the top down, so that none lies higher than its
// parent.
fn deepen_above(problem: &Problem, fixed: &Fixed, tables: &mut Tables, worker: WorkerNo)
    requires fixed { IsFixed problem.now fixed.now }
    requires standing { IsStanding problem.now tables.old }
    requires worker { worker < length problem.now.workers }
    ensures standing { IsStanding problem.now tables.new }
    ensures places { (state_of tables.new).places ≡ (state_of tables.old).places }
    ensures above { (u : TreeNode) → is_under problem.now.tree (Worker worker) u ≡ true
        → at_node tables.new.depth (parent problem.now.tree u) ≤ at_node tables.new.depth u }
{
    let tree = problem.tree();
    deepen(problem, fixed, tables, node_above(tree, 2, worker));
    deepen(problem, fixed, tables, node_above(tree, 1, worker));
    deepen(problem, fixed, tables, node_above(tree, 0, worker));
}

/// Takes a split that stands away, with its unit and a slot of the worker to which that goes: it has started
/// there. The worker's number.
pub fn start(
    alloc: Global,
    problem: &mut Problem,
    fixed: &mut Fixed,
    tables: &mut Tables,
    split: SplitNo,
) -> WorkerNo
    requires fixed { IsFixed problem.old fixed.old }
    requires standing { IsStanding problem.old tables.old }
    requires split { split < length problem.old.splits }
    requires stands { (e : End) × (place_of (state_of tables.old) split ≡ Stands e) }
    ensures wave { problem.new ≡ started problem.old split result }
    ensures admissible { IsAdmissible problem.old split result }
    ensures worker { result < length problem.old.workers }
    ensures fixed { IsFixed problem.new fixed.new }
    ensures standing { IsStanding problem.new tables.new }
    ensures unshipped { AreAllSame (state_of tables.old) (state_of tables.new) }
{
    let worker = take_away(problem, fixed, tables, split.index() as u32);
    set_aside(alloc, problem, fixed, tables, split);
    let_wait(problem, tables, split.index() as u32);
    worker
}

// Takes a split that stands off, and away a slot of the worker to which its unit went.
fn take_away(problem: &mut Problem, fixed: &mut Fixed, tables: &mut Tables, split: u32) -> WorkerNo
    requires fixed { IsFixed problem.old fixed.old }
    requires standing { IsStanding problem.old tables.old }
    requires split { split < length problem.old.splits }
    requires stands { (e : End) × (place_of (state_of tables.old) split ≡ Stands e) }
    ensures wave { problem.new ≡ slot_less problem.old result }
    ensures admissible { IsAdmissible problem.old split result }
    ensures worker { result < length problem.old.workers }
    ensures fixed { IsFixed problem.new fixed.new }
    ensures standing { IsStanding problem.new tables.new }
    ensures gone { place_of (state_of tables.new) split ≡ Unshipped }
    ensures others { AreOthersSame (state_of tables.old) (state_of tables.new) split }
{
    let end = stood_at(tables, split);
    take_off(problem, tables, split, end);
    let worker = WorkerNo::new(sink(problem, fixed, tables, end.node));
    remove_slot(problem, fixed, tables, worker);
    worker
}

/// Takes a split off the end at which it stands: a hole is left there.
pub fn take_off(problem: &Problem, tables: &mut Tables, split: u32, end: End)
    requires standing { IsStanding problem.now tables.old }
    requires stands { place_of (state_of tables.old) split ≡ Stands end }
    ensures standing { IsStandingBut problem.now tables.new (Some end.node) }
    ensures placed { IsPlaced (state_of tables.old) (state_of tables.new) split Unshipped }
{
    place(problem, tables, split, Place::Unshipped);
}

/// Takes a slot of a worker away that nobody has.
pub fn remove_slot(problem: &mut Problem, fixed: &mut Fixed, tables: &Tables, worker: WorkerNo)
    requires fixed { IsFixed problem.old fixed.old }
    requires standing { IsStandingBut problem.old tables.now (Some (Worker worker)) }
    requires worker { worker < length problem.old.workers }
    ensures wave { problem.new ≡ slot_less problem.old worker }
    ensures usable { IsUsable problem.old.workers worker }
    ensures fixed { IsFixed problem.new fixed.new }
    ensures standing { IsStanding problem.new tables.now }
{
    let _ = tables;
    one_less_above(problem, &mut fixed.slots, worker);
    let live = problem.is_live(worker);
    let free = problem.free(worker) - 1;
    problem.set_worker(worker, WorkerLine { live, free });
}

// A split that is not shipped waits for a start no more.
fn set_aside(
    alloc: Global,
    problem: &mut Problem,
    fixed: &mut Fixed,
    tables: &Tables,
    split: SplitNo,
)
    requires fixed { IsFixed problem.old fixed.old }
    requires standing { IsStanding problem.old tables.now }
    requires split { split < length problem.old.splits }
    requires unshipped { place_of (state_of tables.now) split ≡ Unshipped }
    ensures wave { problem.new ≡ with_pending problem.old split false }
    ensures none { (e : End) → IsEnd problem.new split e → ⊥ }
    ensures fixed { IsFixed problem.new fixed.new }
    ensures standing { IsStanding problem.new tables.now }
{
    let _ = tables;
    problem.set_pending(split, false);
    fixed.ends.put(split.index(), OwnEnds::none(alloc));
}

// Lets a split wait that has no ends.
fn let_wait(problem: &Problem, tables: &mut Tables, split: u32)
    requires standing { IsStanding problem.now tables.old }
    requires split { split < length problem.now.splits }
    requires unshipped { place_of (state_of tables.old) split ≡ Unshipped }
    requires none { (e : End) → IsEnd problem.now split e → ⊥ }
    ensures standing { IsStanding problem.now tables.new }
    ensures placed { IsPlaced (state_of tables.old) (state_of tables.new) split Waits }
{
    place(problem, tables, split, Place::Waits);
}

/// A split that does not stand is not pending any more.
pub fn pass_over(
    alloc: Global,
    problem: &mut Problem,
    fixed: &mut Fixed,
    tables: &mut Tables,
    split: SplitNo,
)
    requires fixed { IsFixed problem.old fixed.old }
    requires standing { IsStanding problem.old tables.old }
    requires split { split < length problem.old.splits }
    requires idle { (e : End) → place_of (state_of tables.old) split ≢ Stands e }
    ensures wave { problem.new ≡ with_pending problem.old split false }
    ensures fixed { IsFixed problem.new fixed.new }
    ensures standing { IsStanding problem.new tables.new }
{
    lay_off(tables, split.index() as u32);
    set_aside(alloc, problem, fixed, tables, split);
    let_wait(problem, tables, split.index() as u32);
}

/// A split that has started, or was never pending, is pending again: it is not shipped yet. Without memory
/// nothing changes.
pub fn pend(
    alloc: Global,
    problem: &mut Problem,
    fixed: &mut Fixed,
    tables: &mut Tables,
    split: SplitNo,
) -> Result<(), AllocError>
    requires fixed { IsFixed problem.old fixed.old }
    requires standing { IsStanding problem.old tables.old }
    requires split { split < length problem.old.splits }
    requires idle { (split_at problem.old split).pending ≡ false }
    ensures wave { OnOk result (problem.new ≡ with_pending problem.old split true) }
    ensures fixed { OnOk result (IsFixed problem.new fixed.new) }
    ensures standing { OnOk result (IsStanding problem.new tables.new) }
    ensures unshipped { OnOk result (place_of (state_of tables.new) split ≡ Unshipped) }
    ensures others { OnOk result (AreOthersSame (state_of tables.old) (state_of tables.new) split) }
    ensures err_wave { OnErr result (problem.new ≡ problem.old) }
    ensures err_fixed { OnErr result (fixed.new ≡ fixed.old) }
    ensures err_tables { OnErr result (tables.new ≡ tables.old) }
{
    let ends = pending_ends(alloc, problem, fixed, split)?;
    fixed.ends.put(split.index(), ends);
    lay_off(tables, split.index() as u32);
    Ok(())
}

// Lets a split be pending: its ends. Without memory nothing changes.
fn pending_ends(
    alloc: Global,
    problem: &mut Problem,
    fixed: &Fixed,
    split: SplitNo,
) -> Result<OwnEnds, AllocError>
    requires children { AreChildren problem.old.tree fixed.now.children }
    requires split { split < length problem.old.splits }
    requires idle { (split_at problem.old split).pending ≡ false }
    ensures wave { OnOk result (problem.new ≡ with_pending problem.old split true) }
    ensures ends { IfOk result (λ ends. (e : End) → HasEnd problem.new.tree ends e ↔ IsEnd problem.new split e) }
    ensures err { OnErr result (problem.new ≡ problem.old) }
{
    problem.set_pending(split, true);
    match OwnEnds::of(alloc, problem, &fixed.children, split) {
        Ok(ends) => Ok(ends),
        Err(error) => {
            problem.set_pending(split, false);
            Err(error)
        }
    }
}

/// Takes a split off that does not stand.
pub fn lay_off(tables: &mut Tables, split: u32)
    requires split { split < length tables.old.places.items }
    requires idle { (e : End) → place_of (state_of tables.old) split ≢ Stands e }
    ensures standing { (wave : Wave) → IsStanding wave tables.old → IsStanding wave tables.new }
    ensures placed { IsPlaced (state_of tables.old) (state_of tables.new) split Unshipped }
{
    unmark(tables, split);
}

fn unmark(tables: &mut Tables, split: u32)
    requires { split < length tables.old.places.items }
    ensures placed { IsPlaced (state_of tables.old) (state_of tables.new) split Unshipped }
    ensures rest { tables.new ≡ record tables.old { places = tables.new.places } }
{
    tables.places[split as usize] = Place::Unshipped;
}
