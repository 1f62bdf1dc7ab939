//! What is cheapest for a split, where its ends show it without a search.
ghost use Rattle.std.specs.Prelude.{◌≡◌, ◌<◌, ◌≤◌, ℕ, length, IfSome};
ghost use Rattle.tree_flow.specs.declared.nodes.End.{End};
ghost use Rattle.tree_flow.specs.Nodes.{IsEnd, IsNode};
ghost use Rattle.tree_flow.specs.State.{reach_cost};
ghost use Rattle.tree_planner.specs.declared.split_ends.Group.TheVariants.{Below};
ghost use Rattle.tree_planner.specs.Choosing.{IsBetter, IsCheapest, IsChoice};
ghost use Rattle.tree_planner.specs.Ends.{IsLeft, IsOf};
ghost use Rattle.tree_planner.specs.Searching.{state_at, wave_of, AreOf, IsGround, IsOutBy};

use crate::search::{Ground, cost_at, cost_below, end_cost, ends_of, nodes_below, rest_of};
use crate::split_ends::{Ends, Group, is_left};
use tree_flow::{End, TreeNode};

/// What is done with a split.
#[derive(Clone, Copy)]
pub enum Choice {
    /// It waits.
    Wait,
    /// It stands at this end, under which a slot is free, and costs no more than the end lies deep.
    Stand(End),
    /// The cheapest way is to be searched. No end costs less than this.
    Search(u64),
}

/// The least cost of the ends of a split, or of waiting, and an end of that cost with a free slot under it,
/// if one was seen.
#[derive(Clone, Copy)]
pub struct Cheapest {
    pub least: u64,
    pub end: Option<End>,
}

/// What is cheapest for a split: to wait, to stand where a slot is free, or what a search finds.
pub fn choose(ground: &Ground<'_>, split: u32) -> Choice
    requires ground { IsGround ground.now }
    requires split { split < length (wave_of ground.now).splits }
    ensures { IsChoice (wave_of ground.now) (state_at ground.now) split result }
{
    let cheapest = cheapest_end(ground, split);
    if cheapest.least == ground.reward {
        return Choice::Wait;
    }
    match cheapest.end {
        Some(end) => Choice::Stand(end),
        None => Choice::Search(cheapest.least),
    }
}

fn cheapest_end(ground: &Ground<'_>, split: u32) -> Cheapest
    requires ground { IsGround ground.now }
    requires split { split < length (wave_of ground.now).splits }
    ensures cheapest { IsCheapest ground.now split result }
    ensures ends { (x : End) → IsEnd (wave_of ground.now) split x
        → result.least ≤ reach_cost (wave_of ground.now) (state_at ground.now) split x }
{
    let mut best = Cheapest {
        least: ground.reward,
        end: None,
    };
    let ends = ends_of(ground, split);
    for group in ends.groups() {
        best = best_of(ground, split, best, &ends, *group);
        // (no other end costs less)
        if best.least == 0 && best.end.is_some() {
            return best;
        }
    }
    best
}

// The cheapest of the best end so far and of the ends of a group.
fn best_of(
    ground: &Ground<'_>,
    split: u32,
    best: Cheapest,
    ends: &Ends<'_>,
    group: Group,
) -> Cheapest
    requires ground { IsGround ground.now }
    requires split { split < length (wave_of ground.now).splits }
    requires group { AreOf ground.now split (IsOutBy ground.now ends.now) group }
    requires cheapest { IsCheapest ground.now split best }
    ensures cheapest { IsCheapest ground.now split result }
    ensures before { result.least ≤ best.least }
    ensures better { (x : End) → IsOf (wave_of ground.now).tree (IsOutBy ground.now ends.now) group x
        → result.least ≤ reach_cost (wave_of ground.now) (state_at ground.now) split x }
{
    match group {
        Group::Single(end) => better(ground, split, best, end),
        Group::Below(top, level) => best_below(ground, split, best, ends, top, level),
    }
}

// The same of nodes that hang from a node. None of them costs less than one that lies at 0.
fn best_below(
    ground: &Ground<'_>,
    split: u32,
    best: Cheapest,
    ends: &Ends<'_>,
    top: TreeNode,
    level: u8,
) -> Cheapest
    requires ground { IsGround ground.now }
    requires split { split < length (wave_of ground.now).splits }
    requires group { AreOf ground.now split (IsOutBy ground.now ends.now) (Below top level) }
    requires cheapest { IsCheapest ground.now split best }
    ensures cheapest { IsCheapest ground.now split result }
    ensures before { result.least ≤ best.least }
    ensures better { (x : End) → IsOf (wave_of ground.now).tree (IsOutBy ground.now ends.now) (Below top level) x
        → result.least ≤ reach_cost (wave_of ground.now) (state_at ground.now) split x }
{
    let mut best = best;
    if best.least < end_cost(ground, split, level) {
        return best;
    }
    let nodes = nodes_below(ground, top);
    for node in nodes {
        best = better_node(ground, split, best, ends, top, End { node: *node, level });
    }
    best
}

// The same of one of these nodes.
fn better_node(
    ground: &Ground<'_>,
    split: u32,
    best: Cheapest,
    ends: &Ends<'_>,
    top: TreeNode,
    end: End,
) -> Cheapest
    requires ground { IsGround ground.now }
    requires split { split < length (wave_of ground.now).splits }
    requires known { IsNode (wave_of ground.now).tree end.node }
    requires group { AreOf ground.now split (IsOutBy ground.now ends.now) (Below top end.level) }
    requires cheapest { IsCheapest ground.now split best }
    ensures cheapest { IsCheapest ground.now split result }
    ensures before { result.least ≤ best.least }
    ensures better { IsLeft (wave_of ground.now).tree (IsOutBy ground.now ends.now) top end.node
        → result.least ≤ reach_cost (wave_of ground.now) (state_at ground.now) split end }
{
    if cost_below(ground, split, end) > best.least {
        return best;
    }
    if is_left(ground.problem.tree(), ends, top, end.node) {
        return better(ground, split, best, end);
    }
    best
}

// The cheaper of the best end so far and another; of two that cost the same one with a free slot under it.
#[inline(always)]
fn better(ground: &Ground<'_>, split: u32, best: Cheapest, end: End) -> Cheapest
    requires ground { IsGround ground.now }
    requires is_end { IsEnd (wave_of ground.now) split end }
    requires cheapest { IsCheapest ground.now split best }
    ensures cheapest { IsCheapest ground.now split result }
    ensures better { IsBetter ground.now split best end result }
{
    let cost = cost_at(ground, split, end);
    if cost > best.least {
        return best;
    }
    let free = rest_of(ground, end.node) == 0;
    Cheapest {
        least: cost,
        end: if free {
            Some(end)
        } else if cost == best.least {
            best.end
        } else {
            None
        },
    }
}
