//! A search for the cheapest way to fill a hole: a slot under a node that nobody has.
ghost use Rattle.std.specs.Prelude.{◌≡◌, ◌≢◌, ◌+◌, ◌*◌, ◌<◌, ◌≤◌, ◌^◌, min, ℕ, length, IfOk, MatchOption};
ghost use Rattle.std.specs.Prelude.{vec_capacity};
ghost use Rattle.tree_planner.specs.Ends.{ends_at, IsBarred, IsOf};
ghost use Rattle.wave_problem.specs.declared.TheConstants.{MAX_BYTES};
ghost use Rattle.wave_problem.specs.Wave.{reward};
ghost use Rattle.tree_flow.specs.declared.nodes.End.{End};
ghost use Rattle.tree_flow.specs.declared.nodes.Place.TheVariants.{Stands, Waits};
ghost use Rattle.tree_flow.specs.declared.nodes.TreeNode.{TreeNode};
ghost use Rattle.tree_flow.specs.Nodes.{parent, IsEnd, IsNode};
ghost use Rattle.tree_flow.specs.State.{place_of, reach_cost, slots_of, sum_under};
ghost use Rattle.tree_flow.specs.Table.{HasNode, IsSized};
ghost use Rattle.tree_planner.specs.Hanging.{HangsFrom};
ghost use Rattle.tree_planner.specs.declared.back.Hollow.{Hollow};
ghost use Rattle.tree_planner.specs.SearchingBack.{order_at, far_at, far_of, state_at, wave_of, AreInto};
ghost use Rattle.tree_planner.specs.SearchingBack.{EndsIn};
ghost use Rattle.tree_planner.specs.Reaching.{IsAdded};
ghost use Rattle.tree_planner.specs.SearchingBack.{HasLookedFrom, HasReached, HasTables, Improves, IsAt, IsBlank};
ghost use Rattle.tree_planner.specs.SearchingBack.{IsDown, IsFresh};
ghost use Rattle.tree_planner.specs.SearchingBack.{IsHollow, IsInto};
ghost use Rattle.tree_planner.specs.SearchingBack.{IsNearest, IsSearched, IsSearching, IsUnused, LeadsTo};
ghost use Rattle.tree_planner.specs.SearchingBack.{Settles};

use crate::engine::Fixed;
use crate::reached::FAR;
use crate::split_ends::{Ends, Group, is_left};
use crate::tables::Tables;
use crate::tree_nodes::{is_same, parent};
use node_ids::SplitNo;
use rack_tree::RackTree;
use std::alloc::{AllocError, Global};
use tree_flow::{End, NodeTable, Place, TreeNode};
use wave_problem::Problem;

/// The last step by which a hole comes to a node.
#[derive(Clone, Copy, Debug, PartialEq, Eq)]
pub enum StepBack {
    /// The hole is there at first.
    Start,
    /// It rises from this node, which hangs from it: a unit more goes down to this node.
    Rise(TreeNode),
    /// It sinks from the node's parent: a unit less goes down.
    Sink,
    /// The split of this number, which stands on the node, goes over to this end, where the hole was.
    Over(u32, End),
}

/// How a hole is filled.
#[derive(Clone, Copy, Debug, PartialEq, Eq)]
pub enum Rest {
    /// Units stay where they are: a slot of a worker under this node becomes free.
    Free(TreeNode),
    /// The split of this number waits, and takes the slot at this end.
    Join(u32, End),
}

/// What a search back stands on: a problem, what is read of it, the tables of a state with a hole, and a
/// split that may fill the hole for nothing, if one is known.
#[derive(Drop)]
pub struct Hollow<'a> {
    pub problem: &'a Problem,
    pub fixed: &'a Fixed,
    pub tables: &'a Tables,
    pub hole: TreeNode,
    pub first: Option<u32>,
}

/// From which node the hole starts; how far each node is, how the hole comes to it, as which one it was
/// looked from; the reached nodes; and the nearest end of a way, and how far it is. The tables serve one
/// search after another: between two searches no node is reached.
pub struct SearchBack {
    pub hole: TreeNode,
    pub far: NodeTable<u64>,
    pub how: NodeTable<StepBack>,
    pub order: NodeTable<u64>,
    pub reached: Vec<TreeNode>,
    pub looked: u64,
    pub bound: u64,
    pub goal: Rest,
}

// (one call wherever it is dropped)
impl Drop for SearchBack {
    fn drop(self) {
        let SearchBack {
            hole: _,
            far: _,
            how: _,
            order: _,
            reached: _,
            looked: _,
            bound: _,
            goal: _,
        } = self;
    }
}

impl SearchBack {
    /// Room for searches back over a tree.
    pub fn new(alloc: Global, tree: &RackTree) -> Result<Self, AllocError>
        ensures { IfOk result (λ search. IsBlank tree.now search) }
    {
        let nodes = tree.workers() + tree.racks() + tree.centres() + 1;
        let far = NodeTable::new(alloc, tree, FAR)?;
        let how = NodeTable::new(alloc, tree, StepBack::Start)?;
        let order = NodeTable::new(alloc, tree, 0)?;
        Ok(SearchBack {
            hole: TreeNode::Cluster,
            far,
            how,
            order,
            reached: Vec::with_capacity(alloc, nodes)?,
            looked: 0,
            bound: FAR,
            goal: Rest::Free(TreeNode::Cluster),
        })
    }

    /// Begins a search from a node.
    pub fn begin(&mut self, problem: &Problem, hole: TreeNode)
        requires { IsBlank problem.now.tree self.old }
        ensures hole { self.new.hole ≡ hole }
        ensures unused { IsUnused problem.now self.new }
    {
        let _ = problem;
        self.hole = hole;
        self.looked = 0;
        self.bound = FAR;
        self.goal = Rest::Free(hole);
    }

    /// Forgets the reached nodes.
    pub fn clear(&mut self, tree: &RackTree)
        requires tables { HasTables tree.now self.old }
        requires reached { HasReached tree.now self.old }
        requires most { (v : TreeNode) → far_at self.old v ≤ 2 ^ 60 }
        ensures { IsBlank tree.now self.new }
    {
        let _ = tree;
        while let Some(node) = self.reached.pop() {
            self.far.set(node, FAR);
            self.order.set(node, 0);
        }
    }

    // How far a node is.
    fn far_of(&self, node: TreeNode) -> u64
        requires { HasNode self.now.far node }
        ensures { result ≡ far_at self.now node }
    {
        self.far.get(node)
    }

    // Comes to a node, where that is nearer.
    fn reach(&mut self, node: TreeNode, distance: u64, step: StepBack)
        requires far { HasNode self.old.far node }
        requires how { HasNode self.old.how node }
        requires room { 2 ^ 60 ≤ far_at self.old node
            → length self.old.reached.items < vec_capacity self.old.reached }
        requires beyond { (u : TreeNode) → 0 < order_at self.old u → far_at self.old u ≤ distance }
        ensures hole { self.new.hole ≡ self.old.hole }
        ensures improves { Improves self.old self.new }
        ensures near { min self.new.bound (far_at self.new node) ≤ distance }
        ensures kept { (h : Hollow) → IsSearching h self.old → IsNode (wave_of h).tree node
            → (order_at self.old node ≡ 0 → LeadsTo h self.old node distance step) → IsSearching h self.new }
    {
        let far = self.far.get(node);
        if distance < self.bound && distance < far {
            note(&mut self.reached, node, far);
            self.far.set(node, distance);
            self.how.set(node, step);
        }
    }

    // Comes to an end of a way, where that is nearer.
    fn arrive(&mut self, goal: Rest, distance: u64)
        ensures hole { self.new.hole ≡ self.old.hole }
        ensures improves { Improves self.old self.new }
        ensures near { self.new.bound ≤ distance }
        ensures kept { (h : Hollow) → IsSearching h self.old
            → (distance < self.old.bound → EndsIn h self.old distance goal) → IsSearching h self.new }
    {
        if distance < self.bound {
            self.bound = distance;
            self.goal = goal;
        }
    }

    // Puts the node next in order.
    fn settle(&mut self, node: TreeNode)
        requires node { HasNode self.old.order node }
        requires few { self.old.looked + 1 < 2 ^ 64 }
        ensures hole { self.new.hole ≡ self.old.hole }
        ensures kept { (h : Hollow) → IsSearching h self.old → IsNearest h self.old node
            → IsSearching h self.new }
        ensures at { (h : Hollow) → IsSearching h self.old → IsNearest h self.old node → IsAt self.new node }
        ensures settles { (h : Hollow) → IsSearching h self.old → IsNearest h self.old node
            → Settles self.old self.new node }
    {
        self.looked += 1;
        self.order.set(node, self.looked);
    }
}

// Adds a node, which was so far, to the row of the reached nodes.
fn note(row: &mut Vec<TreeNode>, node: TreeNode, far: u64)
    requires { 2 ^ 60 ≤ far → length row.old.items < vec_capacity row.old }
    ensures added { IsAdded row.old.items row.new.items node far }
    ensures room { vec_capacity row.new ≡ vec_capacity row.old }
{
    if far >= FAR {
        row.push_reserved(node);
    }
}

// How deep a node lies.
fn depth_of(hollow: &Hollow<'_>, node: TreeNode) -> u64
    requires hollow { IsHollow hollow.now }
    requires known { IsNode (wave_of hollow.now).tree node }
    ensures depth { result ≡ (state_at hollow.now).depth node }
    ensures most { result ≤ reward (wave_of hollow.now) }
{
    hollow.tables.depth.get(node)
}

// How many units come to a node from its parent.
fn flow_of(hollow: &Hollow<'_>, node: TreeNode) -> u64
    requires hollow { IsHollow hollow.now }
    requires known { IsNode (wave_of hollow.now).tree node }
    ensures { result ≡ (state_at hollow.now).flow node }
{
    hollow.tables.flow.get(node)
}

// How many slots there are under a node.
fn slots_at(hollow: &Hollow<'_>, node: TreeNode) -> u64
    requires hollow { IsHollow hollow.now }
    requires known { IsNode (wave_of hollow.now).tree node }
    ensures { result ≡ sum_under (wave_of hollow.now) node (slots_of (wave_of hollow.now)) }
{
    hollow.fixed.slots.get(node)
}

// The node from which a node hangs.
fn above(hollow: &Hollow<'_>, node: TreeNode) -> TreeNode
    requires { IsNode (wave_of hollow.now).tree node }
    ensures node { result ≡ parent (wave_of hollow.now).tree node }
    ensures known { IsNode (wave_of hollow.now).tree result }
{
    parent(hollow.problem.tree(), node)
}

// The ends of a split.
fn ends_of<'h>(hollow: &'h Hollow<'_>, split: u32) -> Ends<'h>
    requires hollow { IsHollow hollow.now }
    requires split { split < length (wave_of hollow.now).splits }
    ensures { result ≡ ends_at hollow.now.fixed.now.ends split }
{
    hollow.fixed.ends.at(split as usize)
}

// What it costs the split to end at an end.
fn cost_at(hollow: &Hollow<'_>, split: u32, end: End) -> u64
    requires hollow { IsHollow hollow.now }
    requires is_end { IsEnd (wave_of hollow.now) split end }
    ensures cost { result ≡ reach_cost (wave_of hollow.now) (state_at hollow.now) split end }
    ensures most { result ≤ 6 * MAX_BYTES + reward (wave_of hollow.now) }
{
    let steps = 2 * u64::from(end.level);
    hollow.problem.bytes(SplitNo::new(split)) * steps + depth_of(hollow, end.node)
}

// Where a split is.
fn place_of(hollow: &Hollow<'_>, split: u32) -> Place
    requires hollow { IsHollow hollow.now }
    requires split { split < length (wave_of hollow.now).splits }
    ensures { result ≡ place_of (state_at hollow.now) split }
{
    hollow.tables.places[split as usize]
}

/// Searches from a hole over the steps by which it can move, as far as the nearest way to fill it (Dijkstra's
/// search over reduced costs, against their direction).
pub fn find_rest(hollow: &Hollow<'_>, search: &mut SearchBack)
    requires hollow { IsHollow hollow.now }
    requires hole { search.old.hole ≡ hollow.now.hole }
    requires unused { IsUnused (wave_of hollow.now) search.old }
    ensures hole { search.new.hole ≡ search.old.hole }
    ensures searched { IsSearched hollow.now search.new }
{
    start(hollow, search);
    run(hollow, search);
}

// Comes to the node of the hole.
fn start(hollow: &Hollow<'_>, search: &mut SearchBack)
    requires hollow { IsHollow hollow.now }
    requires hole { search.old.hole ≡ hollow.now.hole }
    requires unused { IsUnused (wave_of hollow.now) search.old }
    ensures hole { search.new.hole ≡ search.old.hole }
    ensures looked { search.new.looked ≡ 0 }
    ensures bound { search.new.bound ≡ 2 ^ 60 }
    ensures none { (v : TreeNode) → order_at search.new v ≡ 0 }
    ensures searching { IsSearching hollow.now search.new }
{
    note(&mut search.reached, search.hole, FAR);
    search.far.set(search.hole, 0);
    search.how.set(search.hole, StepBack::Start);
}

// Looks from nodes, the nearest first, until none is nearer than the bound that was not looked from.
fn run(hollow: &Hollow<'_>, search: &mut SearchBack)
    requires hollow { IsHollow hollow.now }
    requires searching { IsSearching hollow.now search.old }
    requires none { (v : TreeNode) → order_at search.old v ≡ 0 }
    requires looked { search.old.looked ≡ 0 }
    requires hole { search.old.hole ≡ hollow.now.hole }
    requires bound { search.old.bound ≡ 2 ^ 60 }
    ensures hole { search.new.hole ≡ search.old.hole }
    ensures searched { IsSearched hollow.now search.new }
{
    let _most = hollow.fixed.nodes.len();
    let mut next = Some(search.hole);
    while let Some(node) = next {
        look_from(hollow, search, node);
        next = next_after(hollow, search, node);
    }
}

// The nearest node that was not looked from, if one is nearer than the bound. None is nearer than the one
// that was looked from last.
fn next_after(hollow: &Hollow<'_>, search: &SearchBack, node: TreeNode) -> Option<TreeNode>
    requires hollow { IsHollow hollow.now }
    requires known { IsNode (wave_of hollow.now).tree node }
    requires searching { IsSearching hollow.now search.now }
    requires settled { 0 < order_at search.now node }
    ensures { MatchOption result
        ((v : TreeNode) → order_at search.now v ≡ 0 → search.now.bound ≤ far_at search.now v)
        (λ next. IsNearest hollow.now search.now next) }
{
    if search.bound <= search.far_of(node) {
        return None;
    }
    nearest(hollow, search)
}

// The nearest node that was not looked from and is nearer than the bound.
fn nearest(hollow: &Hollow<'_>, search: &SearchBack) -> Option<TreeNode>
    requires hollow { IsHollow hollow.now }
    requires searching { IsSearching hollow.now search.now }
    ensures { MatchOption result
        ((v : TreeNode) → order_at search.now v ≡ 0 → search.now.bound ≤ far_at search.now v)
        (λ node. IsNearest hollow.now search.now node) }
{
    let _ = hollow;
    let mut best = None;
    for node in &search.reached {
        best = nearer(search, best, *node);
    }
    best
}

// The nearer of two nodes, if one is nearer than the bound and was not looked from.
fn nearer(search: &SearchBack, best: Option<TreeNode>, node: TreeNode) -> Option<TreeNode>
    requires far { HasNode search.now.far node }
    requires order { HasNode search.now.order node }
    requires best { MatchOption best (Unit {0}) (λ c. HasNode search.now.far c) }
    ensures fresh { (h : Hollow) → IsNode (wave_of h).tree node → IsFresh h search.now best
        → IsFresh h search.now result }
    ensures least { far_of search.now result ≤ far_of search.now best }
    ensures here { order_at search.now node ≡ 0 → far_of search.now result ≤ far_at search.now node }
{
    if search.order.get(node) != 0 {
        return best;
    }
    let least = match best {
        Some(other) => search.far_of(other),
        None => search.bound,
    };
    if search.far_of(node) < least {
        return Some(node);
    }
    best
}

// Takes all steps by which a hole leaves a node.
fn look_from(hollow: &Hollow<'_>, search: &mut SearchBack, node: TreeNode)
    requires hollow { IsHollow hollow.now }
    requires searching { IsSearching hollow.now search.old }
    requires nearest { IsNearest hollow.now search.old node }
    requires few { search.old.looked + 1 < 2 ^ 64 }
    ensures hole { search.new.hole ≡ search.old.hole }
    ensures searching { IsSearching hollow.now search.new }
    ensures looked { HasLookedFrom hollow.now search.new node }
    ensures settles { Settles search.old search.new node }
{
    search.settle(node);
    look_free(hollow, search, node);
    look_further(hollow, search, node);
}

// Takes the steps out of a node, unless an end is known that is no farther than the node.
fn look_further(hollow: &Hollow<'_>, search: &mut SearchBack, node: TreeNode)
    requires hollow { IsHollow hollow.now }
    requires known { IsNode (wave_of hollow.now).tree node }
    requires searching { IsSearching hollow.now search.old }
    requires at { IsAt search.old node }
    requires low { search.old.bound ≤ far_at search.old node + (state_at hollow.now).depth node }
    ensures hole { search.new.hole ≡ search.old.hole }
    ensures searching { IsSearching hollow.now search.new }
    ensures improves { Improves search.old search.new }
    ensures looked { HasLookedFrom hollow.now search.new node }
{
    if search.bound <= search.far_of(node) {
        return;
    }
    look_up(hollow, search, node);
    look_down(hollow, search, node);
    look_over(hollow, search, node);
}

// Units may stay where they are.
fn look_free(hollow: &Hollow<'_>, search: &mut SearchBack, node: TreeNode)
    requires hollow { IsHollow hollow.now }
    requires known { IsNode (wave_of hollow.now).tree node }
    requires searching { IsSearching hollow.now search.old }
    requires at { IsAt search.old node }
    ensures hole { search.new.hole ≡ search.old.hole }
    ensures searching { IsSearching hollow.now search.new }
    ensures improves { Improves search.old search.new }
    ensures low { search.new.bound ≤ far_at search.new node + (state_at hollow.now).depth node }
{
    let distance = search.far_of(node) + depth_of(hollow, node);
    search.arrive(Rest::Free(node), distance);
}

// A unit more may go down to the node.
fn look_up(hollow: &Hollow<'_>, search: &mut SearchBack, node: TreeNode)
    requires hollow { IsHollow hollow.now }
    requires known { IsNode (wave_of hollow.now).tree node }
    requires searching { IsSearching hollow.now search.old }
    requires at { IsAt search.old node }
    ensures hole { search.new.hole ≡ search.old.hole }
    ensures searching { IsSearching hollow.now search.new }
    ensures improves { Improves search.old search.new }
    ensures down { (state_at hollow.now).flow node
        < sum_under (wave_of hollow.now) node (slots_of (wave_of hollow.now))
        → min search.new.bound (far_at search.new (parent (wave_of hollow.now).tree node))
        + (state_at hollow.now).depth (parent (wave_of hollow.now).tree node)
        ≤ far_at search.new node + (state_at hollow.now).depth node }
{
    if flow_of(hollow, node) < slots_at(hollow, node) {
        let up = above(hollow, node);
        let distance = search.far_of(node) + depth_of(hollow, node) - depth_of(hollow, up);
        search.reach(up, distance, StepBack::Rise(node));
    }
}

// A unit less may go down from the node.
fn look_down(hollow: &Hollow<'_>, search: &mut SearchBack, node: TreeNode)
    requires hollow { IsHollow hollow.now }
    requires known { IsNode (wave_of hollow.now).tree node }
    requires searching { IsSearching hollow.now search.old }
    requires at { IsAt search.old node }
    ensures hole { search.new.hole ≡ search.old.hole }
    ensures searching { IsSearching hollow.now search.new }
    ensures improves { Improves search.old search.new }
    ensures up { (v : TreeNode) → IsDown hollow.now search.new node v }
{
    for below in hollow.fixed.children.of(hollow.problem.tree(), node) {
        step_down(hollow, search, node, *below);
    }
}

fn step_down(hollow: &Hollow<'_>, search: &mut SearchBack, node: TreeNode, below: TreeNode)
    requires hollow { IsHollow hollow.now }
    requires known { IsNode (wave_of hollow.now).tree node }
    requires below { HangsFrom (wave_of hollow.now).tree node below }
    requires searching { IsSearching hollow.now search.old }
    requires at { IsAt search.old node }
    ensures hole { search.new.hole ≡ search.old.hole }
    ensures searching { IsSearching hollow.now search.new }
    ensures improves { Improves search.old search.new }
    ensures up { IsDown hollow.now search.new node below }
{
    if flow_of(hollow, below) > 0 {
        let distance = search.far_of(node) + depth_of(hollow, node) - depth_of(hollow, below);
        search.reach(below, distance, StepBack::Sink);
    }
}

// Splits may go over to the node, or start there.
fn look_over(hollow: &Hollow<'_>, search: &mut SearchBack, node: TreeNode)
    requires hollow { IsHollow hollow.now }
    requires known { IsNode (wave_of hollow.now).tree node }
    requires searching { IsSearching hollow.now search.old }
    requires at { IsAt search.old node }
    ensures hole { search.new.hole ≡ search.old.hole }
    ensures searching { IsSearching hollow.now search.new }
    ensures improves { Improves search.old search.new }
    ensures over { (t : ℕ) → AreInto hollow.now search.new node t }
{
    over_first(hollow, search, node);
    over_all(hollow, search, node);
}

// The split that is to be looked at first may fill the hole, if there is such a split.
fn over_first(hollow: &Hollow<'_>, search: &mut SearchBack, node: TreeNode)
    requires hollow { IsHollow hollow.now }
    requires known { IsNode (wave_of hollow.now).tree node }
    requires searching { IsSearching hollow.now search.old }
    requires at { IsAt search.old node }
    ensures hole { search.new.hole ≡ search.old.hole }
    ensures searching { IsSearching hollow.now search.new }
    ensures improves { Improves search.old search.new }
{
    let Some(split) = hollow.first else {
        return;
    };
    if (split as usize) < hollow.tables.places.len() {
        over_split(hollow, search, node, split);
    }
}

// The same of all splits, until an end is known that is no farther than the node.
fn over_all(hollow: &Hollow<'_>, search: &mut SearchBack, node: TreeNode)
    requires hollow { IsHollow hollow.now }
    requires known { IsNode (wave_of hollow.now).tree node }
    requires searching { IsSearching hollow.now search.old }
    requires at { IsAt search.old node }
    ensures hole { search.new.hole ≡ search.old.hole }
    ensures searching { IsSearching hollow.now search.new }
    ensures improves { Improves search.old search.new }
    ensures over { (t : ℕ) → AreInto hollow.now search.new node t }
{
    let far = search.far_of(node);
    for t in 0..hollow.tables.places.len() {
        if search.bound <= far {
            return;
        }
        over_split(hollow, search, node, t as u32);
    }
}

// A split may go over to its ends at the node, or start there.
fn over_split(hollow: &Hollow<'_>, search: &mut SearchBack, node: TreeNode, split: u32)
    requires hollow { IsHollow hollow.now }
    requires split { split < length (wave_of hollow.now).splits }
    requires known { IsNode (wave_of hollow.now).tree node }
    requires searching { IsSearching hollow.now search.old }
    requires at { IsAt search.old node }
    ensures hole { search.new.hole ≡ search.old.hole }
    ensures searching { IsSearching hollow.now search.new }
    ensures improves { Improves search.old search.new }
    ensures over { AreInto hollow.now search.new node split }
{
    let ends = ends_of(hollow, split);
    for group in ends.groups() {
        over_group(hollow, search, node, split, &ends, *group);
    }
}

// The same of the ends of a group.
fn over_group(
    hollow: &Hollow<'_>,
    search: &mut SearchBack,
    node: TreeNode,
    split: u32,
    ends: &Ends<'_>,
    group: Group,
)
    requires hollow { IsHollow hollow.now }
    requires split { split < length (wave_of hollow.now).splits }
    requires group { (x : End) → IsOf (wave_of hollow.now).tree
        (IsBarred (wave_of hollow.now).tree ends.now.barred) group x
        → IsEnd (wave_of hollow.now) split x }
    requires searching { IsSearching hollow.now search.old }
    requires known { IsNode (wave_of hollow.now).tree node }
    requires at { IsAt search.old node }
    ensures hole { search.new.hole ≡ search.old.hole }
    ensures searching { IsSearching hollow.now search.new }
    ensures improves { Improves search.old search.new }
    ensures over { (x : End) → IsOf (wave_of hollow.now).tree
        (IsBarred (wave_of hollow.now).tree ends.now.barred) group x
        → IsInto hollow.now search.new node split x }
{
    match group {
        Group::Single(end) => over_at(hollow, search, node, split, end),
        Group::Below(top, level) => {
            if is_left(hollow.problem.tree(), ends, top, node) {
                step_over(hollow, search, split, End { node, level });
            }
        }
    }
}

fn over_at(hollow: &Hollow<'_>, search: &mut SearchBack, node: TreeNode, split: u32, end: End)
    requires hollow { IsHollow hollow.now }
    requires split { split < length (wave_of hollow.now).splits }
    requires is_end { IsEnd (wave_of hollow.now) split end }
    requires searching { IsSearching hollow.now search.old }
    requires at { IsAt search.old node }
    ensures hole { search.new.hole ≡ search.old.hole }
    ensures searching { IsSearching hollow.now search.new }
    ensures improves { Improves search.old search.new }
    ensures over { IsInto hollow.now search.new node split end }
{
    if is_same(end.node, node) {
        step_over(hollow, search, split, end);
    }
}

// Takes the step of a split to its end at a node back.
fn step_over(hollow: &Hollow<'_>, search: &mut SearchBack, split: u32, end: End)
    requires hollow { IsHollow hollow.now }
    requires split { split < length (wave_of hollow.now).splits }
    requires is_end { IsEnd (wave_of hollow.now) split end }
    requires searching { IsSearching hollow.now search.old }
    requires at { IsAt search.old end.node }
    ensures hole { search.new.hole ≡ search.old.hole }
    ensures searching { IsSearching hollow.now search.new }
    ensures improves { Improves search.old search.new }
    ensures over { IsInto hollow.now search.new end.node split end }
{
    let distance = search.far_of(end.node) + cost_at(hollow, split, end);
    match place_of(hollow, split) {
        Place::Stands(from) => {
            let nearer = distance - cost_at(hollow, split, from);
            search.reach(from.node, nearer, StepBack::Over(split, end));
        }
        Place::Waits => {
            let nearer = distance - hollow.fixed.reward;
            search.arrive(Rest::Join(split, end), nearer);
        }
        Place::Unshipped => {}
    }
}
