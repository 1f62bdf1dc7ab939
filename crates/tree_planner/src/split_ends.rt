//! The ends of each split.
ghost use Rattle.std.specs.Prelude.{◌≡◌, ◌*◌, ◌<◌, ◌≤◌, ◌⊎◌, ◌↔◌, ℕ, [], true, false, length, cond, All};
ghost use Rattle.std.specs.Prelude.{IfOk, OnOk, IfSome, IsTrue, None, ◌++◌, ◌∷◌, slice_set};
ghost use Rattle.std.specs.List.Sorted.{IsNonDecreasing};
ghost use Rattle.rack_tree.specs.Tree.{reach};
ghost use Rattle.wave_problem.specs.Wave.{split_at};
ghost use Rattle.tree_flow.specs.declared.nodes.End.{End};
ghost use Rattle.tree_flow.specs.declared.nodes.TreeNode.{TreeNode};
ghost use Rattle.tree_flow.specs.declared.nodes.TreeNode.TheVariants.{Worker};
ghost use Rattle.tree_planner.specs.Bars.{bar_at, holder_at, AreBars, AreMet, IsLevelEnd};
ghost use Rattle.node_ids.specs.Sets.{is_in_row};
ghost use Rattle.tree_planner.specs.Bars.{top_of, IsLiveUnder, IsTopEnd};
ghost use Rattle.tree_planner.specs.Bars.{HasEndFor};
ghost use Rattle.tree_planner.specs.Ends.{ends_at, AreEnds, HasEnd, IsBarred, IsLeft};
ghost use Rattle.tree_planner.specs.Stored.{IsAdded};
ghost use Rattle.tree_flow.specs.Nodes.{is_under, node_above, HasBarUnder, IsEnd, IsNode};
ghost use Rattle.tree_planner.specs.Hanging.{AreChildren, HangsFrom};
ghost use Rattle.tree_flow.specs.Table.{at_or, HasNode, IsOver, IsSized};

use crate::children::Children;
use crate::tree_nodes::{is_same, is_under, node_above, parent};
use node_ids::{SplitNo, WorkerNo};
use rack_tree::RackTree;
use std::alloc::{AllocError, Global};
use std::marker::Model;
use tree_flow::{End, NodeTable, TreeNode};
use wave_problem::Problem;

/// What stands for ends of a split.
#[derive(Clone, Copy, Debug, PartialEq, Eq)]
pub enum Group {
    /// One end of a split.
    Single(End),
    /// The nodes that hang from this one and are not left out, each as an end of this level.
    Below(TreeNode, u8),
}

/// The ends of a split, in groups, which leave out each node above one of its barred workers.
#[derive(Drop)]
pub struct Ends<'a> {
    groups: &'a [Group],
    barred: &'a [WorkerNo],
}

impl<'a> Model for Ends<'a> {
    ghost use Rattle.std.specs.List.Sorted.{IsNonDecreasing};
    ghost use Rattle.tree_planner.specs.Ends.{Grouped};

    ghost Value = { Grouped };

    ghost view = { λ e. record { groups = e.groups.now; barred = e.barred.now } };

    ghost invariant = { λ e. IsNonDecreasing e.barred.now };
}

impl<'a> Ends<'a> {
    // Ends that leave no node out.
    fn unbarred(groups: &'a [Group]) -> Ends<'a>
        ensures { result ≡ record { groups = groups.now; barred = [] } }
    {
        Ends {
            groups,
            barred: &[],
        }
    }

    /// The groups.
    pub fn groups(&self) -> &'a [Group]
        ensures { result.now ≡ self.now.groups }
    {
        self.groups
    }

    // Whether a worker is barred.
    fn has(&self, worker: WorkerNo) -> bool
        ensures { result ≡ is_in_row self.now.barred worker }
    {
        self.barred.binary_search(&worker).is_ok()
    }

    // Whether the groups leave a node out: whether a barred worker stands under it.
    fn leave_out(&self, tree: &RackTree, node: TreeNode) -> bool
        requires { IsNode tree.now node }
        ensures { IsTrue result ↔ IsBarred tree.now self.now.barred node }
    {
        match node {
            TreeNode::Worker(worker) => self.has(WorkerNo::new(worker)),
            _ => self.have_under(tree, node),
        }
    }

    // Whether a barred worker stands under a node.
    fn have_under(&self, tree: &RackTree, node: TreeNode) -> bool
        ensures { IsTrue result ↔ IsBarred tree.now self.now.barred node }
    {
        let workers = self.barred;
        for worker in workers {
            if worker.index() < tree.workers() && is_under(tree, *worker, node) {
                return true;
            }
        }
        false
    }

    /// The barred workers, rising.
    pub fn barred(&self) -> &'a [WorkerNo]
        ensures { result.now ≡ self.now.barred }
    {
        self.barred
    }
}

/// The ends of a split that keeps them itself, with its barred workers, rising.
#[derive(Drop)]
pub struct OwnEnds {
    groups: Vec<Group>,
    barred: Vec<WorkerNo>,
}

impl Model for OwnEnds {
    ghost use Rattle.std.specs.List.Sorted.{IsNonDecreasing};
    ghost use Rattle.tree_planner.specs.Ends.{Grouped};

    ghost Value = { Grouped };

    ghost view = { λ e. record { groups = e.groups.items; barred = e.barred.items } };

    ghost invariant = { λ e. IsNonDecreasing e.barred.items };
}

impl OwnEnds {
    /// No ends.
    pub fn none(alloc: Global) -> OwnEnds
        ensures { result ≡ record { groups = []; barred = [] } }
    {
        OwnEnds {
            groups: Vec::new(alloc),
            barred: Vec::new(alloc),
        }
    }

    /// The ends of a split of a problem.
    pub fn of(
        alloc: Global,
        problem: &Problem,
        children: &Children,
        split: SplitNo,
    ) -> Result<OwnEnds, AllocError>
        requires children { AreChildren problem.now.tree children.now }
        requires split { split < length problem.now.splits }
        ensures { IfOk result (λ ends. (e : End) → HasEnd problem.now.tree ends e ↔ IsEnd problem.now split e) }
    {
        problem.limits();
        let groups = groups_of(alloc, problem, children, split)?;
        let barred = copied(alloc, problem.bars(split))?;
        Ok(OwnEnds { groups, barred })
    }

    fn lent(&self) -> Ends<'_>
        ensures { result ≡ self.now }
    {
        Ends {
            groups: &self.groups,
            barred: &self.barred,
        }
    }
}

// A list of the same workers.
fn copied(alloc: Global, workers: &[WorkerNo]) -> Result<Vec<WorkerNo>, AllocError>
    ensures { IfOk result (λ copy. copy.items ≡ workers.now) }
{
    let mut copy = Vec::with_capacity(alloc, workers.len())?;
    copy.extend_from_slice(workers)?;
    Ok(copy)
}

/// Where the ends of a split are.
#[derive(Drop)]
pub enum Stored {
    /// So many groups of the shared list, from this place on; no worker is barred.
    Shared(usize, usize),
    /// The split keeps its ends itself.
    Own(OwnEnds),
}

/// The ends of all splits. Those that were made first, of splits with no barred worker, have their groups in
/// one list, which saves them memory of their own.
#[derive(Drop)]
pub struct AllEnds {
    shared: Vec<Group>,
    each: Vec<Stored>,
}

impl Model for AllEnds {
    ghost use Rattle.std.specs.Prelude.{List, All, length, map};
    ghost use Rattle.tree_planner.specs.Ends.{Grouped};
    ghost use Rattle.tree_planner.specs.Stored.{stored_at, IsWithin};

    ghost Value = { List Grouped };

    ghost view = { λ a. map (stored_at a.shared.items) a.each.items };

    ghost invariant = { λ a. All (IsWithin (length a.shared.items)) a.each.items };
}

impl AllEnds {
    // An empty list, with room for the ends of so many splits.
    fn with_room(alloc: Global, splits: usize) -> Result<AllEnds, AllocError>
        ensures { IfOk result (λ all. all ≡ []) }
    {
        Ok(AllEnds {
            shared: Vec::new(alloc),
            each: Vec::with_capacity(alloc, splits)?,
        })
    }

    // The next split has these groups, and no barred worker.
    fn share(&mut self, groups: &[Group]) -> Result<(), AllocError>
        ensures { OnOk result (self.new
            ≡ self.old ++ record { groups = groups.now; barred = [] } ∷ []) }
    {
        let from = self.shared.len();
        self.shared.extend_from_slice(groups)?;
        self.each.push(Stored::Shared(from, groups.len()))?;
        Ok(())
    }

    // The next split keeps its ends apart.
    fn add(&mut self, ends: OwnEnds) -> Result<(), AllocError>
        ensures { OnOk result (self.new ≡ self.old ++ ends ∷ []) }
    {
        self.each.push(Stored::Own(ends))?;
        Ok(())
    }

    /// The ends of a split.
    pub fn at(&self, split: usize) -> Ends<'_>
        requires { split < length self.now }
        ensures { result ≡ ends_at self.now split }
    {
        match &self.each[split] {
            Stored::Shared(from, count) => Ends::unbarred(&self.shared[*from..*from + *count]),
            Stored::Own(ends) => ends.lent(),
        }
    }

    /// Gives a split other ends.
    pub fn put(&mut self, split: usize, ends: OwnEnds)
        requires { split < length self.old }
        ensures { self.new ≡ slice_set self.old split ends }
    {
        self.each[split] = Stored::Own(ends);
    }
}

/// Whether a node hangs from the top and is not left out by the groups.
pub fn is_left(tree: &RackTree, ends: &Ends<'_>, top: TreeNode, node: TreeNode) -> bool
    requires { IsNode tree.now node }
    ensures { IsTrue result ↔ IsLeft tree.now (IsBarred tree.now ends.now.barred) top node }
{
    hangs(tree, top, node) && !ends.leave_out(tree, node)
}

// Whether a node hangs from the top.
fn hangs(tree: &RackTree, top: TreeNode, node: TreeNode) -> bool
    requires { IsNode tree.now node }
    ensures { IsTrue result ↔ HangsFrom tree.now top node }
{
    match node {
        TreeNode::Cluster => false,
        _ => is_same(parent(tree, node), top),
    }
}

/// The ends of all splits.
pub fn all_ends(
    alloc: Global,
    problem: &Problem,
    children: &Children,
) -> Result<AllEnds, AllocError>
    requires { AreChildren problem.now.tree children.now }
    ensures { IfOk result (λ ends. AreEnds problem.now ends) }
{
    let mut all = AllEnds::with_room(alloc, problem.splits())?;
    let mut groups = Vec::new(alloc);
    for s in 0..problem.splits() {
        let split = SplitNo::new(s as u32);
        add_ends(alloc, &mut all, &mut groups, problem, children, split)?;
    }
    Ok(all)
}

// Adds the ends of the next split. The list is lent for its groups.
fn add_ends(
    alloc: Global,
    all: &mut AllEnds,
    groups: &mut Vec<Group>,
    problem: &Problem,
    children: &Children,
    split: SplitNo,
) -> Result<(), AllocError>
    requires children { AreChildren problem.now.tree children.now }
    requires split { split < length problem.now.splits }
    ensures { OnOk result (IsAdded problem.now split all.old all.new) }
{
    if !problem.bars(split).is_empty() {
        let ends = OwnEnds::of(alloc, problem, children, split)?;
        return all.add(ends);
    }
    unbarred_groups(groups, problem, split)?;
    all.share(groups)?;
    Ok(())
}

// Leaves the groups of a split for which no worker is barred in a list.
fn unbarred_groups(
    groups: &mut Vec<Group>,
    problem: &Problem,
    split: SplitNo,
) -> Result<(), AllocError>
    requires split { split < length problem.now.splits }
    requires bars { AreBars problem.now split None }
    ensures { OnOk result ((e : End)
        → HasEndFor problem.now split groups.new.items e ↔ IsEnd problem.now split e) }
{
    groups.clear();
    if !problem.is_pending(split) {
        return Ok(());
    }
    let holders = problem.holders(split);
    for k in 0..holders.len() {
        add_unbarred(groups, problem, split, holders, k)?;
    }
    Ok(())
}

// The ends at the nodes above the holder after k others, if it lives, where no worker is barred. The ends of
// the k others are there already.
fn add_unbarred(
    groups: &mut Vec<Group>,
    problem: &Problem,
    split: SplitNo,
    holders: &[WorkerNo],
    k: usize,
) -> Result<(), AllocError>
    requires bars { AreBars problem.now split None }
    requires known { All (λ holder. holder < length problem.now.workers) holders.now }
    requires holder { k < length holders.now }
    requires before { AreMet problem.now split holders.now k groups.old.items }
    ensures { OnOk result ((e : End) → HasEndFor problem.now split groups.new.items e
        ↔ (HasEndFor problem.now split groups.old.items e ⊎ IsLevelEnd problem.now split (holder_at holders.now k) e)) }
{
    let holder = holders[k];
    let lives = problem.is_live(holder);
    if !lives {
        return Ok(());
    }
    add_single(groups, problem, split, holder, 0)?;
    add_single(groups, problem, split, holder, 1)?;
    add_unmet(groups, problem, split, holders, k, 2)?;
    if problem.tree().reach() > 4 {
        add_unmet(groups, problem, split, holders, k, 3)?;
    }
    Ok(())
}

// The end so many levels above a worker, where no worker is barred.
#[inline(always)]
fn add_single(
    groups: &mut Vec<Group>,
    problem: &Problem,
    split: SplitNo,
    worker: WorkerNo,
    level: u8,
) -> Result<(), AllocError>
    requires bars { AreBars problem.now split None }
    requires worker { worker < length problem.now.workers }
    ensures { OnOk result ((e : End) → HasEndFor problem.now split groups.new.items e
        ↔ (HasEndFor problem.now split groups.old.items e
        ⊎ IsTopEnd problem.now split (top_of problem.now worker level) e)) }
{
    groups.push(Group::Single(end_above(problem.tree(), level, worker)))?;
    Ok(())
}

// The end so many levels above a worker.
#[inline(always)]
fn end_above(tree: &RackTree, level: u8, worker: WorkerNo) -> End
    requires { worker < length tree.now.rack_of }
    ensures node { result.node ≡ node_above tree.now level worker }
    ensures level { result.level ≡ level }
    ensures known { IsNode tree.now result.node }
{
    End {
        node: node_above(tree, level, worker),
        level,
    }
}

// The end so many levels above the holder after k others, unless it is there.
#[inline(always)]
fn add_unmet(
    groups: &mut Vec<Group>,
    problem: &Problem,
    split: SplitNo,
    holders: &[WorkerNo],
    k: usize,
    level: u8,
) -> Result<(), AllocError>
    requires bars { AreBars problem.now split None }
    requires known { All (λ holder. holder < length problem.now.workers) holders.now }
    requires holder { k < length holders.now }
    requires within { 2 * level ≤ reach problem.now.tree }
    requires before { AreMet problem.now split holders.now k groups.old.items }
    ensures { OnOk result ((e : End) → HasEndFor problem.now split groups.new.items e
        ↔ (HasEndFor problem.now split groups.old.items e
        ⊎ IsTopEnd problem.now split (top_of problem.now (holder_at holders.now k) level) e)) }
{
    let top = end_above(problem.tree(), level, holders[k]);
    if is_above_one(problem, holders, k, top) {
        return Ok(());
    }
    add_single(groups, problem, split, holders[k], level)
}

// The groups of a split of a problem.
fn groups_of(
    alloc: Global,
    problem: &Problem,
    children: &Children,
    split: SplitNo,
) -> Result<Vec<Group>, AllocError>
    requires children { AreChildren problem.now.tree children.now }
    requires split { split < length problem.now.splits }
    ensures { IfOk result (λ groups. (e : End)
        → HasEndFor problem.now split groups.items e ↔ IsEnd problem.now split e) }
{
    if !problem.is_pending(split) {
        return Ok(Vec::new(alloc));
    }
    let bars = barred_nodes(alloc, problem, split)?;
    groups_with(alloc, problem, children, &bars, split)
}

// The groups of a pending split.
fn groups_with(
    alloc: Global,
    problem: &Problem,
    children: &Children,
    bars: &Option<NodeTable<bool>>,
    split: SplitNo,
) -> Result<Vec<Group>, AllocError>
    requires children { AreChildren problem.now.tree children.now }
    requires split { split < length problem.now.splits }
    requires pending { (split_at problem.now split).pending ≡ true }
    requires bars { AreBars problem.now split bars.now }
    ensures { IfOk result (λ groups. (e : End)
        → HasEndFor problem.now split groups.items e ↔ IsEnd problem.now split e) }
{
    let holders = problem.holders(split);
    let mut groups = Vec::with_capacity(alloc, holders.len().saturating_mul(4))?;
    for k in 0..holders.len() {
        add_holder(&mut groups, problem, children, bars, split, holders, k)?;
    }
    Ok(groups)
}

// The ends at and under the nodes above the holder after k others, if it lives. The ends of the k others
// are there.
fn add_holder(
    groups: &mut Vec<Group>,
    problem: &Problem,
    children: &Children,
    bars: &Option<NodeTable<bool>>,
    split: SplitNo,
    holders: &[WorkerNo],
    k: usize,
) -> Result<(), AllocError>
    requires children { AreChildren problem.now.tree children.now }
    requires bars { AreBars problem.now split bars.now }
    requires known { All (λ holder. holder < length problem.now.workers) holders.now }
    requires holder { k < length holders.now }
    requires before { AreMet problem.now split holders.now k groups.old.items }
    ensures { OnOk result ((e : End) → HasEndFor problem.now split groups.new.items e
        ↔ (HasEndFor problem.now split groups.old.items e ⊎ IsLevelEnd problem.now split (holder_at holders.now k) e)) }
{
    let holder = holders[k];
    if !problem.is_live(holder) {
        return Ok(());
    }
    for level in 0..problem.tree().reach() / 2 + 1 {
        let top = End {
            node: node_above(problem.tree(), level, holder),
            level,
        };
        if is_met(problem, bars, holders, k, top) {
            continue;
        }
        add_top(groups, problem, children, bars, split, top)?;
    }
    Ok(())
}

// Whether the node of an end surely stands above one of the first k holders too, at the end's level. Holders
// are seldom in one rack, so that of racks it is asked only where bars make many ends of one.
fn is_met(
    problem: &Problem,
    bars: &Option<NodeTable<bool>>,
    holders: &[WorkerNo],
    k: usize,
    top: End,
) -> bool
    requires known { All (λ holder. holder < length problem.now.workers) holders.now }
    requires few { k ≤ length holders.now }
    ensures { IsTrue result → (j : ℕ) × (j < k)
        × IsLiveUnder problem.now (holder_at holders.now j) top }
{
    if top.level == 0 || top.level == 1 && bars.is_none() {
        return false;
    }
    is_above_one(problem, holders, k, top)
}

// Whether the node of an end stands above one of the first k holders, which lives, at the end's level.
fn is_above_one(problem: &Problem, holders: &[WorkerNo], k: usize, top: End) -> bool
    requires known { All (λ holder. holder < length problem.now.workers) holders.now }
    requires few { k ≤ length holders.now }
    ensures { IsTrue result → (j : ℕ) × (j < k)
        × IsLiveUnder problem.now (holder_at holders.now j) top }
{
    for j in 0..k {
        if is_live_under(problem, holders[j], top) {
            return true;
        }
    }
    false
}

// Whether a holder lives and stands under the node of an end, so many levels below it as the end's.
#[inline(always)]
fn is_live_under(problem: &Problem, holder: WorkerNo, top: End) -> bool
    requires { holder < length problem.now.workers }
    ensures { IsTrue result → IsLiveUnder problem.now holder top }
{
    problem.is_live(holder) && is_same(node_above(problem.tree(), top.level, holder), top.node)
}

// An end at a node, or groups of the largest nodes under it without bars.
fn add_top(
    groups: &mut Vec<Group>,
    problem: &Problem,
    children: &Children,
    bars: &Option<NodeTable<bool>>,
    split: SplitNo,
    top: End,
) -> Result<(), AllocError>
    requires children { AreChildren problem.now.tree children.now }
    requires bars { AreBars problem.now split bars.now }
    requires known { IsNode problem.now.tree top.node }
    ensures { OnOk result ((e : End) → HasEndFor problem.now split groups.new.items e
        ↔ (HasEndFor problem.now split groups.old.items e ⊎ IsTopEnd problem.now split top e)) }
{
    problem.limits();
    if !has_bar(bars, top.node) {
        groups.push(Group::Single(top))?;
        return Ok(());
    }
    groups.push(Group::Below(top.node, top.level))?;
    if let TreeNode::Rack(_) = top.node {
        return Ok(());
    }
    for node in children.of(problem.tree(), top.node) {
        if has_bar(bars, *node) {
            let below = End {
                node: *node,
                level: top.level,
            };
            add_top(groups, problem, children, bars, split, below)?;
        }
    }
    Ok(())
}

// Whether a worker under the node is barred.
fn has_bar(bars: &Option<NodeTable<bool>>, node: TreeNode) -> bool
    requires { IfSome bars.now (λ table. HasNode table node) }
    ensures { result ≡ bar_at bars.now node }
{
    match bars {
        Some(table) => table.get(node),
        None => false,
    }
}

// Under which nodes workers are barred, if any are.
fn barred_nodes(
    alloc: Global,
    problem: &Problem,
    split: SplitNo,
) -> Result<Option<NodeTable<bool>>, AllocError>
    requires { split < length problem.now.splits }
    ensures { IfOk result (λ bars. AreBars problem.now split bars) }
{
    if problem.bars(split).is_empty() {
        return Ok(None);
    }
    let bars = table_of_bars(alloc, problem, split)?;
    Ok(Some(bars))
}

fn table_of_bars(
    alloc: Global,
    problem: &Problem,
    split: SplitNo,
) -> Result<NodeTable<bool>, AllocError>
    requires { split < length problem.now.splits }
    ensures over { IfOk result (λ bars. IsOver problem.now.tree bars) }
    ensures bars { IfOk result (λ bars. (v : TreeNode)
        → (at_or bars false v ≡ true) ↔ HasBarUnder problem.now split v) }
{
    let mut bars = NodeTable::new(alloc, problem.tree(), false)?;
    let workers = problem.bars(split);
    for worker in workers {
        if worker.index() < problem.workers() {
            bar_above(problem.tree(), &mut bars, *worker);
        }
    }
    Ok(bars)
}

// Marks the nodes above a worker.
fn bar_above(tree: &RackTree, bars: &mut NodeTable<bool>, worker: WorkerNo)
    requires worker { worker < length tree.now.rack_of }
    requires over { IsOver tree.now bars.old }
    ensures size { IsSized bars.old bars.new }
    ensures barred { (v : TreeNode) → at_or bars.new false v
        ≡ cond (is_under tree.now (Worker worker) v) true (at_or bars.old false v) }
{
    let rack = tree.rack_of(worker);
    let centre = tree.centre_of(rack);
    bars.set(TreeNode::Worker(worker.index() as u16), true);
    bars.set(TreeNode::Rack(rack.index() as u16), true);
    bars.set(TreeNode::Centre(centre.index() as u8), true);
    bars.set(TreeNode::Cluster, true);
}
