//! Units moved along the way that a search found.
ghost use Rattle.std.specs.Prelude.{◌≡◌, ◌≢◌, ℕ, ◌+◌, ◌-◌, ◌^◌, ◌<◌, ◌≤◌, min, MatchOption, length};
ghost use Rattle.tree_flow.specs.declared.nodes.End.{End};
ghost use Rattle.tree_flow.specs.declared.nodes.Place.TheVariants.{Stands};
ghost use Rattle.tree_flow.specs.Moves.{IsFlowSet, IsPlaced, IsTaken};
ghost use Rattle.tree_flow.specs.Nodes.{IsKnown, IsNode};
ghost use Rattle.tree_planner.specs.Hanging.{AreChildren};
ghost use Rattle.tree_planner.specs.Searching.{order_at, HasReached};
ghost use Rattle.tree_flow.specs.State.{place_of};
ghost use Rattle.tree_flow.specs.Table.{at_node, IsOver};
ghost use Rattle.tree_planner.specs.Listing.{AreLists, HasListed};
ghost use Rattle.tree_planner.specs.View.{state_of, AreListed, AreOnNodes, AreTables};
ghost use Rattle.tree_planner.specs.Way.{AreDeeper, AreOthersSame, IsFollowing, IsReady, IsShipped};

use crate::children::Children;
use crate::down::take_below;
use crate::search::{Goal, Search, Step};
use crate::tables::{Tables, one_less_above};
use crate::tree_nodes::parent;
use node_ids::WorkerNo;
use tree_flow::{End, NodeTable, Place, TreeNode};
use wave_problem::Problem;

// Lists may have so many cells more than two for each split that stands, before they are made anew.
const SPARE_CELLS: usize = 1_024;

/// After a search each node that is nearer than the end of the way lies deeper by the rest, and none deeper
/// than a start is worth.
pub fn deepen(problem: &Problem, worth: u64, depth: &mut NodeTable<u64>, search: &Search)
    requires over { IsOver problem.now.tree depth.old }
    requires small { worth < 2 ^ 60 }
    requires low { (v : TreeNode) → at_node depth.old v ≤ worth }
    requires bound { search.now.bound ≤ search.now.limit }
    requires limit { search.now.limit ≤ worth }
    requires far { IsOver problem.now.tree search.now.far }
    requires reached { HasReached problem.now.tree search.now }
    ensures over { IsOver problem.now.tree depth.new }
    ensures low { (v : TreeNode) → at_node depth.new v ≤ worth }
    ensures deeper { AreDeeper worth depth.old search.now depth.new }
{
    let _ = problem;
    for k in 0..search.reached.count {
        let node = search.reached.at(k);
        let deep = deepened(worth, depth.get(node), search.bound, search.far.get(node));
        depth.set(node, deep);
    }
}

// How deep a node at this depth lies then, if it is so far and the end of the way is at the bound.
fn deepened(worth: u64, depth: u64, bound: u64, far: u64) -> u64
    requires small { worth < 2 ^ 60 }
    requires low { depth ≤ worth }
    requires near { bound ≤ worth }
    ensures { result ≡ min worth (depth + (bound - far)) }
{
    worth.min(depth + bound.saturating_sub(far))
}

/// Moves units along the way that a search found, from its end back, until the split is shipped.
pub fn follow(problem: &Problem, children: &Children, tables: &mut Tables, search: &Search)
    requires children { AreChildren problem.now.tree children.now }
    requires wave { IsKnown problem.now }
    requires tables { AreTables problem.now tables.old }
    requires how { IsOver problem.now.tree search.now.how }
    requires split { search.now.split < length problem.now.splits }
    requires ready { IsReady problem.now (state_of tables.old) search.now }
    ensures depth { tables.new.depth ≡ tables.old.depth }
    ensures terms { (state_of tables.new).terms ≡ (state_of tables.old).terms }
    ensures tables { AreTables problem.now tables.new }
    ensures shipped { IsShipped problem.now (state_of tables.new) search.now.split }
    ensures others { AreOthersSame (state_of tables.old) (state_of tables.new) search.now.split }
{
    let mut hole = take_end(problem, children, tables, search);
    while let Some(node) = hole {
        hole = step_back(problem, tables, search, node);
    }
}

// Takes what the way ends in: a hole is left at its last node, if it has one.
fn take_end(
    problem: &Problem,
    children: &Children,
    tables: &mut Tables,
    search: &Search,
) -> Option<TreeNode>
    requires children { AreChildren problem.now.tree children.now }
    requires wave { IsKnown problem.now }
    requires tables { AreTables problem.now tables.old }
    requires split { search.now.split < length problem.now.splits }
    requires ready { IsReady problem.now (state_of tables.old) search.now }
    ensures depth { tables.new.depth ≡ tables.old.depth }
    ensures terms { (state_of tables.new).terms ≡ (state_of tables.old).terms }
    ensures tables { AreTables problem.now tables.new }
    ensures hole { MatchOption result
        (IsShipped problem.now (state_of tables.new) search.now.split)
        (λ node. IsFollowing problem.now (state_of tables.new) search.now node) }
    ensures others { AreOthersSame (state_of tables.old) (state_of tables.new) search.now.split }
{
    match search.goal {
        Goal::Wait => {
            place(problem, tables, search.split, Place::Waits);
            None
        }
        Goal::Slot(node) => {
            take_below(problem, children, tables, node);
            Some(node)
        }
        Goal::Off(split) => {
            let end = stood_at(tables, split);
            place(problem, tables, split, Place::Waits);
            Some(end.node)
        }
    }
}

// Takes the last step of the way to a node back: the hole is then at the node from which it came, if any.
fn step_back(
    problem: &Problem,
    tables: &mut Tables,
    search: &Search,
    node: TreeNode,
) -> Option<TreeNode>
    requires tables { AreTables problem.now tables.old }
    requires how { IsOver problem.now.tree search.now.how }
    requires split { search.now.split < length problem.now.splits }
    requires following { IsFollowing problem.now (state_of tables.old) search.now node }
    ensures depth { tables.new.depth ≡ tables.old.depth }
    ensures terms { (state_of tables.new).terms ≡ (state_of tables.old).terms }
    ensures tables { AreTables problem.now tables.new }
    ensures hole { MatchOption result
        (IsShipped problem.now (state_of tables.new) search.now.split)
        (λ from. IsFollowing problem.now (state_of tables.new) search.now from
        × (order_at search.now from < order_at search.now node)) }
    ensures others { AreOthersSame (state_of tables.old) (state_of tables.new) search.now.split }
{
    problem.limits();
    match search.how.get(node) {
        Step::Start(level) => {
            place(
                problem,
                tables,
                search.split,
                Place::Stands(End { node, level }),
            );
            None
        }
        Step::Down => {
            let units = tables.flow.get(node) + 1;
            set_flow(problem, tables, node, units);
            Some(parent(problem.tree(), node))
        }
        Step::Up(below) => {
            let units = tables.flow.get(below) - 1;
            set_flow(problem, tables, below, units);
            Some(below)
        }
        Step::Over(split, level) => {
            let end = stood_at(tables, split);
            place(problem, tables, split, Place::Stands(End { node, level }));
            Some(end.node)
        }
    }
}

/// Where a split stands.
pub fn stood_at(tables: &Tables, split: u32) -> End
    requires split { split < length tables.now.places.items }
    requires stands { (e : End) × (place_of (state_of tables.now) split ≡ Stands e) }
    ensures { place_of (state_of tables.now) split ≡ Stands result }
{
    match tables.places[split as usize] {
        Place::Stands(end) => end,
        _ => unreachable!(),
    }
}

/// Gives a split another place.
pub fn place(problem: &Problem, tables: &mut Tables, split: u32, place: Place)
    requires tables { AreTables problem.now tables.old }
    requires split { split < length problem.now.splits }
    requires known { (e : End) → place ≡ Stands e → IsNode problem.now.tree e.node }
    ensures placed { IsPlaced (state_of tables.old) (state_of tables.new) split place }
    ensures tables { AreTables problem.now tables.new }
    ensures depth { tables.new.depth ≡ tables.old.depth }
    ensures terms { (state_of tables.new).terms ≡ (state_of tables.old).terms }
{
    tables.places[split as usize] = place;
    if let Place::Stands(end) = place {
        list(problem, tables, split, end.node);
    }
}

// Puts a split that stands on a node on its list; where no cell is left, all lists are made anew.
fn list(problem: &Problem, tables: &mut Tables, split: u32, node: TreeNode)
    requires places { length tables.old.places.items ≡ length problem.now.splits }
    requires lists { AreLists problem.now.tree (length problem.now.splits) tables.old.standing }
    requires known { AreOnNodes problem.now tables.old }
    requires split { split < length problem.now.splits }
    requires stands { (e : End) → place_of (state_of tables.old) split ≡ Stands e → e.node ≡ node }
    requires node { IsNode problem.now.tree node }
    requires others { (s : ℕ) (e : End) → s ≢ split → place_of (state_of tables.old) s ≡ Stands e
        → HasListed tables.old.standing e.node s }
    ensures rest { tables.new ≡ record tables.old { standing = tables.new.standing } }
    ensures lists { AreLists problem.now.tree (length problem.now.splits) tables.new.standing }
    ensures listed { AreListed tables.new }
{
    if tables.standing.is_full() {
        list_all(problem, tables);
    } else {
        tables
            .standing
            .add(problem.tree(), problem.splits(), node, split);
    }
}

/// Makes all lists anew where they have many more cells than splits stand.
pub fn shorten_lists(problem: &Problem, tables: &mut Tables, stand: usize)
    requires { AreTables problem.now tables.old }
    ensures rest { tables.new ≡ record tables.old { standing = tables.new.standing } }
    ensures tables { AreTables problem.now tables.new }
{
    if tables.standing.used.saturating_sub(SPARE_CELLS) / 2 > stand {
        list_all(problem, tables);
    }
}

// Makes all lists anew.
fn list_all(problem: &Problem, tables: &mut Tables)
    requires places { length tables.old.places.items ≡ length problem.now.splits }
    requires lists { AreLists problem.now.tree (length problem.now.splits) tables.old.standing }
    requires known { AreOnNodes problem.now tables.old }
    ensures rest { tables.new ≡ record tables.old { standing = tables.new.standing } }
    ensures lists { AreLists problem.now.tree (length problem.now.splits) tables.new.standing }
    ensures listed { AreListed tables.new }
{
    tables.standing.clear(problem.tree(), problem.splits());
    for s in 0..problem.splits() {
        list_again(problem, tables, s as u32);
    }
}

// Puts a split on the list of the node on which it stands, if it stands.
fn list_again(problem: &Problem, tables: &mut Tables, split: u32)
    requires places { length tables.old.places.items ≡ length problem.now.splits }
    requires lists { AreLists problem.now.tree (length problem.now.splits) tables.old.standing }
    requires known { AreOnNodes problem.now tables.old }
    requires split { split < length problem.now.splits }
    requires few { tables.old.standing.used ≤ split }
    ensures rest { tables.new ≡ record tables.old { standing = tables.new.standing } }
    ensures lists { AreLists problem.now.tree (length problem.now.splits) tables.new.standing }
    ensures few { tables.new.standing.used ≤ split + 1 }
    ensures here { (e : End) → place_of (state_of tables.old) split ≡ Stands e
        → HasListed tables.new.standing e.node split }
    ensures others { (v : TreeNode) (t : ℕ) → HasListed tables.old.standing v t
        → HasListed tables.new.standing v t }
{
    if let Place::Stands(end) = tables.places[split as usize] {
        tables
            .standing
            .add(problem.tree(), problem.splits(), end.node, split);
    }
}

/// Gives a node other units.
pub fn set_flow(problem: &Problem, tables: &mut Tables, node: TreeNode, units: u64)
    requires tables { AreTables problem.now tables.old }
    requires known { IsNode problem.now.tree node }
    ensures set { IsFlowSet (state_of tables.old) (state_of tables.new) node units }
    ensures tables { AreTables problem.now tables.new }
    ensures depth { tables.new.depth ≡ tables.old.depth }
    ensures terms { (state_of tables.new).terms ≡ (state_of tables.old).terms }
{
    let _ = problem;
    tables.flow.set(node, units);
}

/// Takes a free slot of a worker.
pub fn take_slot(problem: &Problem, tables: &mut Tables, worker: u16)
    requires tables { AreTables problem.now tables.old }
    requires known { worker < length problem.now.workers }
    requires some { 0 < (state_of tables.old).free worker }
    ensures taken { IsTaken problem.now (state_of tables.old) (state_of tables.new) worker }
    ensures tables { AreTables problem.now tables.new }
    ensures depth { tables.new.depth ≡ tables.old.depth }
    ensures terms { (state_of tables.new).terms ≡ (state_of tables.old).terms }
{
    take_free(problem, tables, worker);
    one_less_above(problem, &mut tables.below, WorkerNo::new(worker));
}

fn take_free(problem: &Problem, tables: &mut Tables, worker: u16)
    requires known { worker < length problem.now.workers }
    requires size { length tables.old.free.items ≡ length problem.now.workers }
    requires some { 0 < (state_of tables.old).free worker }
    ensures taken { IsTaken problem.now (state_of tables.old) (state_of tables.new) worker }
    ensures rest { tables.new ≡ record tables.old { free = tables.new.free } }
    ensures size { length tables.new.free.items ≡ length tables.old.free.items }
{
    let _ = problem;
    tables.free[worker as usize] -= 1;
}
