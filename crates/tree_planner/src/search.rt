//! A search for the cheapest way to give one split a slot.
ghost use Rattle.std.specs.Prelude.{◌≡◌, ◌≢◌, ◌+◌, ◌*◌, ◌/◌, ◌<◌, ◌≤◌, ◌^◌, ◌↔◌, min, ℕ, length, IfOk};
ghost use Rattle.std.specs.Prelude.{IsTrue, All, Contains};
ghost use Rattle.wave_problem.specs.declared.TheConstants.{MAX_BYTES};
ghost use Rattle.wave_problem.specs.Wave.{split_at};
ghost use Rattle.tree_flow.specs.declared.nodes.End.{End};
ghost use Rattle.tree_flow.specs.declared.nodes.Place.TheVariants.{Stands};
ghost use Rattle.tree_flow.specs.declared.nodes.TreeNode.{TreeNode};
ghost use Rattle.tree_planner.specs.Choosing.{IsLeast};
ghost use Rattle.tree_planner.specs.Covers.{IsInner};
ghost use Rattle.tree_planner.specs.Ends.{ends_at, IsLeft, IsOf};
ghost use Rattle.tree_planner.specs.declared.split_ends.Group.TheVariants.{Below};
ghost use Rattle.tree_planner.specs.Hanging.{HangsFrom};
ghost use Rattle.tree_planner.specs.declared.search.Ground.{Ground};
ghost use Rattle.tree_flow.specs.Nodes.{parent, IsEnd, IsNode};
ghost use Rattle.tree_flow.specs.State.{reach_cost, slots_of, sum_under};
ghost use Rattle.tree_planner.specs.Searching.{order_at, far_at, state_at, wave_of, EndsIn, HasLookedFrom};
ghost use Rattle.tree_planner.specs.Searching.{HasStarted, Improves, IsAt, IsGround, IsSearched, IsSearching};
ghost use Rattle.tree_planner.specs.Reaching.{HasRoom};
ghost use Rattle.tree_planner.specs.Searching.{HasReached, HasTables};
ghost use Rattle.tree_planner.specs.Searching.{IsBlank};
ghost use Rattle.tree_planner.specs.Searching.{AreOf, IsCovered, IsOutBy};
ghost use Rattle.tree_planner.specs.Searching.{next_price, worth_at, IsRest};
ghost use Rattle.price_certificate.specs.declared.TheConstants.{MAX_PLACE_PRICE};
ghost use Rattle.tree_planner.specs.Searching.{LeadsTo, IsNearest, IsStartedAt, Settles, IsDown};
ghost use Rattle.tree_planner.specs.Searching.{GoesAllOver};
ghost use Rattle.tree_flow.specs.Table.{at_node, HasNode, IsSized};
ghost use Rattle.tree_planner.specs.Lows.{low_at, no_low, AreLow, IsLow};

use crate::children::Children;
use crate::covers::{Cover, Covers};
use crate::lows::{Low, Lows};
use crate::nearest::nearest;
use crate::over::hand_over;
use crate::reached::{FAR, Reached};
use crate::split_ends::{AllEnds, Ends, Group, is_left};
use crate::tables::{Tables, slots_of};
use crate::tree_nodes::{is_same, parent};
use node_ids::{SplitNo, WorkerNo};
use rack_tree::RackTree;
use std::alloc::{AllocError, Global};
use tree_flow::{End, NodeTable, Place, TreeNode};
use wave_problem::Problem;

/// The last step of the way by which a search came to a node.
#[derive(Clone, Copy, Debug, PartialEq, Eq)]
pub enum Step {
    /// The split that is shipped has an end there, of this level.
    Start(u8),
    /// A unit more goes down from the node's parent.
    Down,
    /// A unit less goes down from the node to this one, which hangs from it.
    Up(TreeNode),
    /// The split of this number goes over to its end there, of this level.
    Over(u32, u8),
}

/// What a way ends in.
#[derive(Clone, Copy, Debug, PartialEq, Eq)]
pub enum Goal {
    /// The split that is shipped waits.
    Wait,
    /// A free slot under this node.
    Slot(TreeNode),
    /// The split of this number is sent off, and waits.
    Off(u32),
}

/// What a search stands on: a problem with the tree's nodes, the splits' ends, the slots under each node
/// and the worth of a start, and the tables of the state.
#[derive(Drop)]
pub struct Ground<'a> {
    pub problem: &'a Problem,
    pub nodes: &'a [TreeNode],
    pub children: &'a Children,
    pub ends: &'a AllEnds,
    pub slots: &'a NodeTable<u64>,
    pub reward: u64,
    pub tables: &'a Tables,
}

/// Which split is shipped, what its cheapest end costs at least, and how far a way may go; how far each node
/// is, how it was come to, as which one it was looked from; the nodes that were come to; how near the nodes
/// below each node are; what each split would pay at least at another node; and the nearest end of a way, and
/// how far it is. Its tables serve one search after another: between two of them no node has been come to,
/// and the lows hold on, as nodes then lie no less deep.
#[derive(Drop)]
pub struct Search {
    pub split: u32,
    pub least: u64,
    pub limit: u64,
    pub far: NodeTable<u64>,
    pub how: NodeTable<Step>,
    pub order: NodeTable<u64>,
    pub reached: Reached,
    pub covers: Covers,
    pub lows: Lows,
    pub looked: u64,
    pub bound: u64,
    pub goal: Goal,
}

impl Search {
    /// Room for searches over so many nodes of a tree, and for the lows of so many splits.
    pub fn new(
        alloc: Global,
        tree: &RackTree,
        nodes: usize,
        splits: usize,
    ) -> Result<Search, AllocError>
        ensures blank { IfOk result (λ search. IsBlank tree.now nodes search) }
        ensures lows { IfOk result (λ search. (s : ℕ) → low_at search.lows s ≡ no_low) }
    {
        let far = NodeTable::new(alloc, tree, FAR)?;
        let how = NodeTable::new(alloc, tree, Step::Down)?;
        let order = NodeTable::new(alloc, tree, 0)?;
        let reached = Reached::new(alloc, tree, nodes)?;
        let covers = Covers::new(alloc, tree)?;
        let lows = Lows::new(alloc, splits)?;
        Ok(Search {
            split: 0,
            least: 0,
            limit: 0,
            far,
            how,
            order,
            reached,
            covers,
            lows,
            looked: 0,
            bound: 0,
            goal: Goal::Wait,
        })
    }

    /// Forgets the nodes that were come to.
    pub fn clear(&mut self, tree: &RackTree)
        requires tables { HasTables tree.now self.old }
        requires reached { HasReached tree.now self.old }
        requires short { self.old.limit < 2 ^ 60 }
        ensures blank { IsBlank tree.now (length self.old.reached.nodes.items) self.new }
        ensures lows { self.new.lows ≡ self.old.lows }
    {
        let _ = tree;
        for k in 0..self.reached.count {
            let node = self.reached.at(k);
            self.far.set(node, FAR);
            self.order.set(node, 0);
        }
    }

    /// How far a node is.
    pub fn far_of(&self, node: TreeNode) -> u64
        requires { HasNode self.now.far node }
        ensures { result ≡ far_at self.now node }
    {
        self.far.get(node)
    }

    /// Whether a node at this distance is nearer than it was, and than the nearest end of a way.
    pub fn is_nearer(&self, node: TreeNode, distance: u64) -> bool
        requires { HasNode self.now.far node }
        ensures { IsTrue result ↔ (distance < min self.now.bound (far_at self.now node)) }
    {
        distance < self.bound && distance < self.far.get(node)
    }

    /// Whether a node at this distance, so much less, is surely no nearer than it was, or than the nearest
    /// end of a way.
    pub fn is_past(&self, node: TreeNode, distance: u64, less: u64) -> bool
        requires far { HasNode self.now.far node }
        requires small { self.now.bound + less < 2 ^ 64 }
        ensures { IsTrue result → min self.now.bound (far_at self.now node) + less ≤ distance }
    {
        distance >= self.bound.min(self.far.get(node)) + less
    }

    /// Comes to a node, where that is nearer. A way may end in a free slot that is so much farther.
    pub fn reach(&mut self, node: TreeNode, distance: u64, step: Step, rest: u64)
        requires far { HasNode self.old.far node }
        requires how { HasNode self.old.how node }
        requires room { HasRoom self.old.reached node (far_at self.old node) }
        requires beyond { (u : TreeNode) → 0 < order_at self.old u → far_at self.old u ≤ distance }
        requires rest { rest ≤ 2 ^ 60 }
        requires bound { self.old.bound ≤ 2 ^ 60 }
        ensures improves { Improves self.old self.new }
        ensures near { min self.new.bound (far_at self.new node) ≤ distance }
        ensures kept { (g : Ground) → IsGround g → IsSearching g self.old
            → IsRest g node rest → IsNode (wave_of g).tree node
            → (order_at self.old node ≡ 0 → LeadsTo g self.old node distance step) → IsSearching g self.new }
    {
        let far = self.far.get(node);
        if distance < self.bound && distance < far {
            self.reached.note(node, far, distance);
            self.far.set(node, distance);
            self.how.set(node, step);
            if distance + rest < self.bound {
                self.bound = distance + rest;
                self.goal = Goal::Slot(node);
            }
        }
    }

    /// Comes to an end of a way, where that is nearer.
    pub fn arrive(&mut self, goal: Goal, distance: u64)
        ensures improves { Improves self.old self.new }
        ensures near { self.new.bound ≤ distance }
        ensures kept { (g : Ground) → IsSearching g self.old
            → (distance < self.old.bound → EndsIn g self.old distance goal) → IsSearching g self.new }
    {
        if distance < self.bound {
            self.bound = distance;
            self.goal = goal;
        }
    }

    /// Notes how near the nodes that hang from a node are that the groups of a split do not leave out.
    pub fn cover(&mut self, top: TreeNode, offset: u64, split: u32)
        requires { HasNode self.old.covers top }
        ensures improves { Improves self.old self.new }
        ensures kept { (g : Ground) → IsSearching g self.old
            → IsCovered g self.old (record { offset = offset; split = split }) top → IsSearching g self.new }
        ensures same { self.new ≡ record self.old { covers = self.new.covers } }
    {
        self.covers.put(top, Cover { offset, split });
    }

    /// Gives a split another low.
    pub fn note_low(&mut self, split: u32, low: Low)
        ensures improves { Improves self.old self.new }
        ensures kept { (g : Ground) → IsSearching g self.old → IsLow (wave_of g) (state_at g) split low
            → IsSearching g self.new }
    {
        self.lows.put(split, low);
    }

    // Puts the node next in order.
    fn settle(&mut self, node: TreeNode)
        requires node { HasNode self.old.order node }
        requires place { HasNode self.old.reached.places node }
        requires few { self.old.looked + 1 < 2 ^ 64 }
        ensures rest { self.new ≡ record self.old { order = self.new.order; looked = self.old.looked + 1 } }
        ensures here { order_at self.new node ≡ self.old.looked + 1 }
        ensures others { (v : TreeNode) → v ≢ node → order_at self.new v ≡ order_at self.old v }
        ensures size { IsSized self.old.order self.new.order }
        ensures kept { (g : Ground) → IsSearching g self.old → IsNearest g self.old node
            → IsSearching g self.new }
        ensures at { (g : Ground) → IsSearching g self.old → IsNearest g self.old node → IsAt self.new node }
        ensures settles { (g : Ground) → IsSearching g self.old → IsNearest g self.old node
            → Settles self.old self.new node }
    {
        self.looked += 1;
        self.order.set(node, self.looked);
        self.reached.close(node);
    }
}

// How deep a node lies.
fn depth_of(ground: &Ground<'_>, node: TreeNode) -> u64
    requires ground { IsGround ground.now }
    requires known { IsNode (wave_of ground.now).tree node }
    ensures depth { result ≡ (state_at ground.now).depth node }
    ensures most { result ≤ worth_at ground.now }
{
    ground.tables.depth.get(node)
}

// How many units come to a node from its parent.
fn flow_of(ground: &Ground<'_>, node: TreeNode) -> u64
    requires ground { IsGround ground.now }
    requires known { IsNode (wave_of ground.now).tree node }
    ensures { result ≡ (state_at ground.now).flow node }
{
    ground.tables.flow.get(node)
}

// How many slots there are under a node.
fn slots_at(ground: &Ground<'_>, node: TreeNode) -> u64
    requires ground { IsGround ground.now }
    requires known { IsNode (wave_of ground.now).tree node }
    ensures { result ≡ sum_under (wave_of ground.now) node (slots_of (wave_of ground.now)) }
{
    ground.slots.get(node)
}

/// How far a free slot is from a node. Where places are free, a slot of any worker under the node is as near.
/// Else only a worker's own slots count, as a search comes to the workers by itself.
pub fn rest_of(ground: &Ground<'_>, node: TreeNode) -> u64
    requires ground { IsGround ground.now }
    requires known { IsNode (wave_of ground.now).tree node }
    ensures rest { IsRest ground.now node result }
    ensures most { result ≤ 2 ^ 60 }
{
    if ground.tables.below.get(node) == 0 {
        return FAR;
    }
    if ground.tables.prices.is_free() {
        return 0;
    }
    own_rest(ground, node)
}

// The same where places have prices and a slot is free under the node. Out of line, it costs nothing where
// places are free.
#[cold]
#[inline(never)]
fn own_rest(ground: &Ground<'_>, node: TreeNode) -> u64
    requires ground { IsGround ground.now }
    requires known { IsNode (wave_of ground.now).tree node }
    requires some { 0 < at_node ground.now.tables.now.below node }
    ensures rest { IsRest ground.now node result }
    ensures most { result ≤ 2 ^ 60 }
{
    match node {
        TreeNode::Worker(worker) => next_price(ground, worker) - ground.tables.depth.get(node),
        _ => FAR,
    }
}

// What the next place of a worker costs, of which a slot is free.
fn next_price(ground: &Ground<'_>, worker: u16) -> u64
    requires ground { IsGround ground.now }
    requires known { worker < length (wave_of ground.now).workers }
    ensures price { result ≡ next_price ground.now worker }
    ensures most { result ≤ MAX_PLACE_PRICE }
{
    let number = WorkerNo::new(worker);
    let free = ground.tables.free[worker as usize];
    let taken = slots_of(ground.problem, number).saturating_sub(free);
    ground.tables.prices.price(number, taken as usize)
}

// The node from which a node hangs.
fn above(ground: &Ground<'_>, node: TreeNode) -> TreeNode
    requires { IsNode (wave_of ground.now).tree node }
    ensures node { result ≡ parent (wave_of ground.now).tree node }
    ensures known { IsNode (wave_of ground.now).tree result }
{
    parent(ground.problem.tree(), node)
}

/// The ends of a split.
pub fn ends_of<'g>(ground: &'g Ground<'_>, split: u32) -> Ends<'g>
    requires ground { IsGround ground.now }
    requires split { split < length (wave_of ground.now).splits }
    ensures { result ≡ ends_at ground.now.ends.now split }
{
    ground.ends.at(split as usize)
}

/// Whether nodes can hang from a node: whether the tree has it, and it is no worker.
pub fn is_inner(ground: &Ground<'_>, node: TreeNode) -> bool
    ensures { IsTrue result ↔ IsInner (wave_of ground.now).tree node }
{
    let tree = ground.problem.tree();
    match node {
        TreeNode::Worker(_) => false,
        TreeNode::Rack(rack) => (rack as usize) < tree.racks(),
        TreeNode::Centre(centre) => (centre as usize) < tree.centres(),
        TreeNode::Cluster => true,
    }
}

/// The nodes that hang from a node.
pub fn nodes_below<'g>(ground: &'g Ground<'_>, top: TreeNode) -> &'g [TreeNode]
    requires { IsGround ground.now }
    ensures known { All (IsNode (wave_of ground.now).tree) result.now }
    ensures all { (v : TreeNode) → HangsFrom (wave_of ground.now).tree top v → Contains result.now v }
{
    if !is_inner(ground, top) {
        return &[];
    }
    ground.children.of(ground.problem.tree(), top)
}

/// What it costs the split to end at this level, at a node that lies at 0.
pub fn end_cost(ground: &Ground<'_>, split: u32, level: u8) -> u64
    requires split { split < length (wave_of ground.now).splits }
    ensures cost { result ≡ (split_at (wave_of ground.now) split).bytes * (2 * level) }
    ensures most { result ≤ 510 * MAX_BYTES }
{
    ground.problem.bytes(SplitNo::new(split)) * (2 * u64::from(level))
}

/// What it costs the split to end at an end.
pub fn cost_at(ground: &Ground<'_>, split: u32, end: End) -> u64
    requires ground { IsGround ground.now }
    requires is_end { IsEnd (wave_of ground.now) split end }
    ensures cost { result ≡ reach_cost (wave_of ground.now) (state_at ground.now) split end }
    ensures most { result ≤ 6 * MAX_BYTES + worth_at ground.now }
{
    let steps = 2 * u64::from(end.level);
    ground.problem.bytes(SplitNo::new(split)) * steps + depth_of(ground, end.node)
}

/// The same of a node that may be an end.
pub fn cost_below(ground: &Ground<'_>, split: u32, end: End) -> u64
    requires ground { IsGround ground.now }
    requires split { split < length (wave_of ground.now).splits }
    requires known { IsNode (wave_of ground.now).tree end.node }
    ensures cost { result ≡ reach_cost (wave_of ground.now) (state_at ground.now) split end }
    ensures most { result ≤ 510 * MAX_BYTES + worth_at ground.now }
{
    end_cost(ground, split, end.level) + depth_of(ground, end.node)
}

/// Searches from the ends of a split, over steps that a unit may take, as far as the nearest end of a way
/// (Dijkstra's search over reduced costs).
pub fn find_way(ground: &Ground<'_>, search: &mut Search, split: u32, least: u64)
    requires ground { IsGround ground.now }
    requires blank { IsBlank (wave_of ground.now).tree (length ground.now.nodes.now) search.old }
    requires split { split < length (wave_of ground.now).splits }
    requires least { IsLeast (wave_of ground.now) (state_at ground.now) split least }
    requires low { AreLow (wave_of ground.now) (state_at ground.now) search.old.lows }
    ensures split { search.new.split ≡ split }
    ensures searched { IsSearched ground.now search.new }
    ensures low { AreLow (wave_of ground.now) (state_at ground.now) search.new.lows }
{
    begin(ground, search, split, least);
    start(ground, search);
    run(ground, search);
    settle_goal(ground, search);
}

// No node was come to yet, and the split may wait.
fn begin(ground: &Ground<'_>, search: &mut Search, split: u32, least: u64)
    requires ground { IsGround ground.now }
    requires blank { IsBlank (wave_of ground.now).tree (length ground.now.nodes.now) search.old }
    requires split { split < length (wave_of ground.now).splits }
    requires least { least ≤ worth_at ground.now }
    requires low { AreLow (wave_of ground.now) (state_at ground.now) search.old.lows }
    ensures split { search.new.split ≡ split }
    ensures least { search.new.least ≡ least }
    ensures looked { search.new.looked ≡ 0 }
    ensures order { (v : TreeNode) → order_at search.new v ≡ 0 }
    ensures searching { IsSearching ground.now search.new }
{
    search.split = split;
    search.least = least;
    search.limit = ground.reward - least;
    search.bound = search.limit;
    search.goal = Goal::Wait;
    search.reached.count = 0;
    search.looked = 0;
    search.covers.clear();
}

// Comes to the ends of the split.
fn start(ground: &Ground<'_>, search: &mut Search)
    requires ground { IsGround ground.now }
    requires split { search.old.split < length (wave_of ground.now).splits }
    requires searching { IsSearching ground.now search.old }
    requires none { (v : TreeNode) → order_at search.old v ≡ 0 }
    requires least { IsLeast (wave_of ground.now) (state_at ground.now) search.old.split search.old.least }
    ensures improves { Improves search.old search.new }
    ensures searching { IsSearching ground.now search.new }
    ensures started { HasStarted ground.now search.new }
{
    let ends = ends_of(ground, search.split);
    for group in ends.groups() {
        start_group(ground, search, &ends, *group);
    }
}

// Comes to the ends of a group.
fn start_group(ground: &Ground<'_>, search: &mut Search, ends: &Ends<'_>, group: Group)
    requires ground { IsGround ground.now }
    requires split { search.old.split < length (wave_of ground.now).splits }
    requires searching { IsSearching ground.now search.old }
    requires none { (v : TreeNode) → order_at search.old v ≡ 0 }
    requires ends { ends.now ≡ ends_at ground.now.ends.now search.old.split }
    requires group { AreOf ground.now search.old.split (IsOutBy ground.now ends.now) group }
    requires least { IsLeast (wave_of ground.now) (state_at ground.now) search.old.split search.old.least }
    ensures improves { Improves search.old search.new }
    ensures searching { IsSearching ground.now search.new }
    ensures started { (x : End) → IsOf (wave_of ground.now).tree (IsOutBy ground.now ends.now) group x
        → IsStartedAt ground.now search.new x }
{
    match group {
        Group::Single(end) => start_at(ground, search, end),
        Group::Below(top, level) => start_below(ground, search, ends, top, level),
    }
}

// Comes to nodes that hang from a node. Nothing was known of these yet, or of nodes that are nearer.
fn start_below(ground: &Ground<'_>, search: &mut Search, ends: &Ends<'_>, top: TreeNode, level: u8)
    requires ground { IsGround ground.now }
    requires split { search.old.split < length (wave_of ground.now).splits }
    requires searching { IsSearching ground.now search.old }
    requires none { (v : TreeNode) → order_at search.old v ≡ 0 }
    requires ends { ends.now ≡ ends_at ground.now.ends.now search.old.split }
    requires group { AreOf ground.now search.old.split (IsOutBy ground.now ends.now) (Below top level) }
    requires least { IsLeast (wave_of ground.now) (state_at ground.now) search.old.split search.old.least }
    ensures improves { Improves search.old search.new }
    ensures searching { IsSearching ground.now search.new }
    ensures started { (x : End) → IsOf (wave_of ground.now).tree (IsOutBy ground.now ends.now) (Below top level) x
        → IsStartedAt ground.now search.new x }
{
    if !is_inner(ground, top) {
        return;
    }
    start_all(ground, search, ends, top, level);
    let offset = end_cost(ground, search.split, level) + search.limit;
    if offset < search.covers.of(top).offset {
        search.cover(top, offset, search.split);
    }
}

fn start_all(ground: &Ground<'_>, search: &mut Search, ends: &Ends<'_>, top: TreeNode, level: u8)
    requires ground { IsGround ground.now }
    requires split { search.old.split < length (wave_of ground.now).splits }
    requires searching { IsSearching ground.now search.old }
    requires none { (v : TreeNode) → order_at search.old v ≡ 0 }
    requires group { AreOf ground.now search.old.split (IsOutBy ground.now ends.now) (Below top level) }
    requires least { IsLeast (wave_of ground.now) (state_at ground.now) search.old.split search.old.least }
    ensures improves { Improves search.old search.new }
    ensures searching { IsSearching ground.now search.new }
    ensures started { (x : End) → IsOf (wave_of ground.now).tree (IsOutBy ground.now ends.now) (Below top level) x
        → IsStartedAt ground.now search.new x }
{
    let nodes = nodes_below(ground, top);
    for node in nodes {
        start_node(ground, search, ends, top, End { node: *node, level });
    }
}

fn start_node(ground: &Ground<'_>, search: &mut Search, ends: &Ends<'_>, top: TreeNode, end: End)
    requires ground { IsGround ground.now }
    requires split { search.old.split < length (wave_of ground.now).splits }
    requires searching { IsSearching ground.now search.old }
    requires none { (v : TreeNode) → order_at search.old v ≡ 0 }
    requires known { IsNode (wave_of ground.now).tree end.node }
    requires group { AreOf ground.now search.old.split (IsOutBy ground.now ends.now) (Below top end.level) }
    requires least { IsLeast (wave_of ground.now) (state_at ground.now) search.old.split search.old.least }
    ensures improves { Improves search.old search.new }
    ensures searching { IsSearching ground.now search.new }
    ensures started { IsLeft (wave_of ground.now).tree (IsOutBy ground.now ends.now) top end.node
        → IsStartedAt ground.now search.new end }
{
    let cost = cost_below(ground, search.split, end);
    if search.is_past(end.node, cost, search.least) {
        return;
    }
    if is_left(ground.problem.tree(), ends, top, end.node) {
        start_at(ground, search, end);
    }
}

fn start_at(ground: &Ground<'_>, search: &mut Search, end: End)
    requires ground { IsGround ground.now }
    requires searching { IsSearching ground.now search.old }
    requires none { (v : TreeNode) → order_at search.old v ≡ 0 }
    requires is_end { IsEnd (wave_of ground.now) search.old.split end }
    requires least { IsLeast (wave_of ground.now) (state_at ground.now) search.old.split search.old.least }
    ensures improves { Improves search.old search.new }
    ensures searching { IsSearching ground.now search.new }
    ensures started { IsStartedAt ground.now search.new end }
{
    let distance = cost_at(ground, search.split, end) - search.least;
    let rest = rest_of(ground, end.node);
    search.reach(end.node, distance, Step::Start(end.level), rest);
}

// Looks from nodes, the nearest first, until none is nearer than the bound that was not looked from.
fn run(ground: &Ground<'_>, search: &mut Search)
    requires ground { IsGround ground.now }
    requires searching { IsSearching ground.now search.old }
    requires started { HasStarted ground.now search.old }
    requires none { (v : TreeNode) → order_at search.old v ≡ 0 }
    requires looked { search.old.looked ≡ 0 }
    ensures split { search.new.split ≡ search.old.split }
    ensures searching { IsSearching ground.now search.new }
    ensures started { HasStarted ground.now search.new }
    ensures looked { (u : TreeNode) → far_at search.new u < search.new.bound
        → HasLookedFrom ground.now search.new u }
    ensures past { (v : TreeNode) → order_at search.new v ≡ 0 → search.new.bound ≤ far_at search.new v }
    ensures few { search.new.looked + 1 < 2 ^ 64 }
{
    let _most = ground.nodes.len();
    while let Some(node) = nearest(ground, search) {
        look_from(ground, search, node);
    }
}

// Puts a node in which the way ends last in order.
fn settle_goal(ground: &Ground<'_>, search: &mut Search)
    requires ground { IsGround ground.now }
    requires searching { IsSearching ground.now search.old }
    requires started { HasStarted ground.now search.old }
    requires looked { (u : TreeNode) → far_at search.old u < search.old.bound
        → HasLookedFrom ground.now search.old u }
    requires past { (v : TreeNode) → order_at search.old v ≡ 0 → search.old.bound ≤ far_at search.old v }
    requires few { search.old.looked + 1 < 2 ^ 64 }
    ensures split { search.new.split ≡ search.old.split }
    ensures searched { IsSearched ground.now search.new }
    ensures low { AreLow (wave_of ground.now) (state_at ground.now) search.new.lows }
{
    let _ = ground;
    if let Goal::Slot(node) = search.goal {
        if search.order.get(node) == 0 {
            search.settle(node);
        }
    }
}

// Takes all steps out of a node.
fn look_from(ground: &Ground<'_>, search: &mut Search, node: TreeNode)
    requires ground { IsGround ground.now }
    requires searching { IsSearching ground.now search.old }
    requires nearest { IsNearest ground.now search.old node }
    requires few { search.old.looked + 1 < 2 ^ 64 }
    ensures searching { IsSearching ground.now search.new }
    ensures looked { HasLookedFrom ground.now search.new node }
    ensures settles { Settles search.old search.new node }
{
    search.settle(node);
    look_down(ground, search, node);
    look_up(ground, search, node);
    look_over(ground, search, node);
}

// A unit less may come to the node.
fn look_up(ground: &Ground<'_>, search: &mut Search, node: TreeNode)
    requires ground { IsGround ground.now }
    requires known { IsNode (wave_of ground.now).tree node }
    requires searching { IsSearching ground.now search.old }
    requires at { IsAt search.old node }
    ensures searching { IsSearching ground.now search.new }
    ensures improves { Improves search.old search.new }
    ensures up { 0 < (state_at ground.now).flow node
        → min search.new.bound (far_at search.new (parent (wave_of ground.now).tree node))
        + (state_at ground.now).depth node
        ≤ far_at search.new node + (state_at ground.now).depth (parent (wave_of ground.now).tree node) }
{
    if flow_of(ground, node) > 0 {
        let up = above(ground, node);
        let distance = search.far_of(node) + depth_of(ground, up) - depth_of(ground, node);
        let rest = rest_of(ground, up);
        search.reach(up, distance, Step::Up(node), rest);
    }
}

// A unit more may go down from the node.
fn look_down(ground: &Ground<'_>, search: &mut Search, node: TreeNode)
    requires ground { IsGround ground.now }
    requires known { IsNode (wave_of ground.now).tree node }
    requires searching { IsSearching ground.now search.old }
    requires at { IsAt search.old node }
    ensures searching { IsSearching ground.now search.new }
    ensures improves { Improves search.old search.new }
    ensures down { (v : TreeNode) → IsDown ground.now search.new node v }
{
    for below in ground.children.of(ground.problem.tree(), node) {
        step_down(ground, search, node, *below);
    }
}

fn step_down(ground: &Ground<'_>, search: &mut Search, node: TreeNode, below: TreeNode)
    requires ground { IsGround ground.now }
    requires known { IsNode (wave_of ground.now).tree node }
    requires below { HangsFrom (wave_of ground.now).tree node below }
    requires searching { IsSearching ground.now search.old }
    requires at { IsAt search.old node }
    ensures searching { IsSearching ground.now search.new }
    ensures improves { Improves search.old search.new }
    ensures down { IsDown ground.now search.new node below }
{
    if flow_of(ground, below) < slots_at(ground, below) {
        let distance = search.far_of(node) + depth_of(ground, below) - depth_of(ground, node);
        let rest = rest_of(ground, below);
        search.reach(below, distance, Step::Down, rest);
    }
}

// The splits that stand on the node may go over to other ends.
fn look_over(ground: &Ground<'_>, search: &mut Search, node: TreeNode)
    requires ground { IsGround ground.now }
    requires known { IsNode (wave_of ground.now).tree node }
    requires searching { IsSearching ground.now search.old }
    requires at { IsAt search.old node }
    ensures searching { IsSearching ground.now search.new }
    ensures improves { Improves search.old search.new }
    ensures over { (t : ℕ) → GoesAllOver ground.now search.new node t }
{
    let mut place = ground.tables.standing.last_of(ground.problem.tree(), node);
    while place > 0 {
        let cell = ground.tables.standing.cells[place - 1];
        over_split(ground, search, node, cell.split);
        place = cell.before;
    }
}

// A split that stands on the node may go over to other ends.
fn over_split(ground: &Ground<'_>, search: &mut Search, node: TreeNode, split: u32)
    requires ground { IsGround ground.now }
    requires split { split < length (wave_of ground.now).splits }
    requires searching { IsSearching ground.now search.old }
    requires at { IsAt search.old node }
    ensures searching { IsSearching ground.now search.new }
    ensures improves { Improves search.old search.new }
    ensures over { GoesAllOver ground.now search.new node split }
{
    if let Place::Stands(end) = ground.tables.places[split as usize] {
        if is_same(end.node, node) {
            hand_over(ground, search, split, end);
        }
    }
}
