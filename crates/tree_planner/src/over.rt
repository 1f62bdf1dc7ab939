//! Steps of a search by which a split leaves the end at which it stands.
ghost use Rattle.std.specs.Prelude.{◌≡◌, ◌≢◌, ◌+◌, ◌^◌, ◌<◌, ◌≤◌, ℕ, length, IsTrue};
ghost use Rattle.tree_flow.specs.declared.nodes.End.{End};
ghost use Rattle.tree_flow.specs.declared.nodes.Place.TheVariants.{Stands};
ghost use Rattle.tree_flow.specs.declared.nodes.TreeNode.{TreeNode};
ghost use Rattle.tree_flow.specs.declared.nodes.TreeNode.TheVariants.{Rack};
ghost use Rattle.tree_flow.specs.Nodes.{IsEnd, IsNode};
ghost use Rattle.tree_flow.specs.State.{place_of, reach_cost};
ghost use Rattle.tree_planner.specs.Lows.{IsLeastBut, IsLow, IsSpared};
ghost use Rattle.tree_planner.specs.declared.split_ends.Group.TheVariants.{Below};
ghost use Rattle.tree_planner.specs.Ends.{ends_at, IsLeft, IsOf};
ghost use Rattle.tree_planner.specs.Searching.{state_at, wave_of, AreOf, GoesAllOver, Improves, IsAt};
ghost use Rattle.tree_planner.specs.Searching.{IsGround};
ghost use Rattle.tree_planner.specs.Searching.{IsLeaving, IsOut, IsOutBy, IsOverTo, IsSearching};

use crate::lows::{Low, Spared, is_spared, nothing_but};
use crate::reached::FAR;
use crate::search::{
    Goal, Ground, Search, Step, cost_at, cost_below, end_cost, ends_of, is_inner, nodes_below,
    rest_of,
};
use crate::split_ends::{Ends, Group, is_left};
use crate::tree_nodes::{is_same, next_above};
use tree_flow::{End, TreeNode};

/// A split that may leave the end at which it stands: how far the end is, and what the split costs there.
#[derive(Clone, Copy)]
pub struct Leaving {
    pub split: u32,
    pub end: End,
    pub far: u64,
    pub spent: u64,
}

/// Takes the steps of a split that stands at an end, unless an end of a way is known that is no farther than
/// this one.
pub fn hand_over(ground: &Ground<'_>, search: &mut Search, split: u32, end: End)
    requires ground { IsGround ground.now }
    requires split { split < length (wave_of ground.now).splits }
    requires searching { IsSearching ground.now search.old }
    requires at { IsAt search.old end.node }
    requires stands { place_of (state_at ground.now) split ≡ Stands end }
    ensures searching { IsSearching ground.now search.new }
    ensures improves { Improves search.old search.new }
    ensures over { GoesAllOver ground.now search.new end.node split }
{
    let spent = cost_at(ground, split, end);
    let far = search.far_of(end.node);
    let distance = far + ground.reward - spent;
    search.arrive(Goal::Off(split), distance);
    if search.bound <= far {
        return;
    }
    let leaving = Leaving {
        split,
        end,
        far,
        spent,
    };
    if stays(ground, search, leaving) {
        return;
    }
    let ends = ends_of(ground, split);
    for group in ends.groups() {
        over_group(ground, search, leaving, &ends, *group);
    }
    learn_low(ground, search, leaving);
}

// Whether it is known that a split comes no nearer at any other end than a search has come there, or than the
// nearest end of a way.
fn stays(ground: &Ground<'_>, search: &Search, leaving: Leaving) -> bool
    requires ground { IsGround ground.now }
    requires searching { IsSearching ground.now search.now }
    requires leaving { IsLeaving ground.now search.now leaving }
    ensures { IsTrue result → (x : End) → IsEnd (wave_of ground.now) leaving.split x
        → IsOverTo ground.now search.now leaving.end leaving.split x }
{
    let low = search.lows.of(leaving.split);
    if !is_past_low(ground, search, leaving, low) {
        return false;
    }
    let one = is_past_rack(ground, search, leaving, low.spared.one);
    let two = is_past_rack(ground, search, leaving, low.spared.two);
    one && two
}

// Whether by its low a split comes no nearer than the nearest end of a way, but for the two racks.
fn is_past_low(ground: &Ground<'_>, search: &Search, leaving: Leaving, low: Low) -> bool
    requires ground { IsGround ground.now }
    requires searching { IsSearching ground.now search.now }
    requires leaving { IsLeaving ground.now search.now leaving }
    requires low { IsLow (wave_of ground.now) (state_at ground.now) leaving.split low }
    ensures { IsTrue result → (x : End) → IsEnd (wave_of ground.now) leaving.split x
        → x.node ≢ Rack low.spared.one → x.node ≢ Rack low.spared.two
        → IsOverTo ground.now search.now leaving.end leaving.split x }
{
    let _ = ground;
    if is_same(low.spared.node, leaving.end.node) {
        return is_past_bound(search, leaving, low.least);
    }
    false
}

// Whether a split surely comes no nearer at a rack.
fn is_past_rack(ground: &Ground<'_>, search: &Search, leaving: Leaving, rack: u16) -> bool
    requires ground { IsGround ground.now }
    requires searching { IsSearching ground.now search.now }
    requires leaving { IsLeaving ground.now search.now leaving }
    ensures { IsTrue result → (x : End) → IsEnd (wave_of ground.now) leaving.split x → x.node ≡ Rack rack
        → IsOverTo ground.now search.now leaving.end leaving.split x }
{
    let node = TreeNode::Rack(rack);
    if !is_inner(ground, node) {
        return true;
    }
    let distance = leaving.far + cost_below(ground, leaving.split, End { node, level: 1 });
    search.is_past(node, distance, leaving.spent)
}

// Whether an end that costs this is surely no nearer than the nearest end of a way.
fn is_past_bound(search: &Search, leaving: Leaving, cost: u64) -> bool
    requires bound { search.now.bound + leaving.spent < 2 ^ 64 }
    requires far { leaving.far + cost < 2 ^ 64 }
    ensures { IsTrue result → search.now.bound + leaving.spent ≤ leaving.far + cost }
{
    search.bound + leaving.spent <= leaving.far + cost
}

// Notes what a split would pay at least elsewhere, if its low says too little. It is worth that only where a
// search comes to the cluster, and has met the split at its node before.
fn learn_low(ground: &Ground<'_>, search: &mut Search, leaving: Leaving)
    requires ground { IsGround ground.now }
    requires searching { IsSearching ground.now search.old }
    requires leaving { IsLeaving ground.now search.old leaving }
    ensures searching { IsSearching ground.now search.new }
    ensures improves { Improves search.old search.new }
{
    let split = leaving.split;
    let node = leaving.end.node;
    if search.far_of(TreeNode::Cluster) >= FAR {
        return;
    }
    let low = search.lows.of(split);
    if !is_same(low.spared.node, node) {
        search.note_low(split, nothing_but(node));
        return;
    }
    if is_past_low(ground, search, leaving, low) {
        return;
    }
    let ends = ends_of(ground, split);
    if ends.barred().is_empty() {
        let spared = spared_by(&ends, node);
        let least = least_elsewhere(ground, split, spared);
        search.note_low(split, Low { spared, least });
    }
}

// The node, and two other racks that are ends, if there are so many. No promise rests on which these are.
fn spared_by(ends: &Ends<'_>, node: TreeNode) -> Spared {
    let mut spared = nothing_but(node).spared;
    for group in ends.groups() {
        spared = with_rack(spared, *group);
    }
    spared
}

// Spares the rack of an end too, in place of the first one.
fn with_rack(spared: Spared, group: Group) -> Spared {
    let Group::Single(end) = group else {
        return spared;
    };
    match end.node {
        TreeNode::Rack(rack) if !is_same(spared.node, end.node) => Spared {
            node: spared.node,
            one: spared.two,
            two: rack,
        },
        _ => spared,
    }
}

// What a split would pay at least at a node that is not spared; for groups of nodes, if one of them lay at 0.
fn least_elsewhere(ground: &Ground<'_>, split: u32, spared: Spared) -> u64
    requires ground { IsGround ground.now }
    requires split { split < length (wave_of ground.now).splits }
    ensures least { IsLeastBut (wave_of ground.now) (state_at ground.now) split spared result }
    ensures most { result ≤ 2 ^ 60 }
{
    let mut least = FAR;
    let ends = ends_of(ground, split);
    for group in ends.groups() {
        least = least_of(ground, split, spared, &ends, *group).min(least);
    }
    least
}

// What a split would pay at least at a node that is not spared, of a group of its ends.
fn least_of(ground: &Ground<'_>, split: u32, spared: Spared, ends: &Ends<'_>, group: Group) -> u64
    requires ground { IsGround ground.now }
    requires split { split < length (wave_of ground.now).splits }
    requires group { AreOf ground.now split (IsOutBy ground.now ends.now) group }
    ensures { (x : End) → IsOf (wave_of ground.now).tree (IsOutBy ground.now ends.now) group x
        → (IsSpared spared x.node → ⊥) → result ≤ reach_cost (wave_of ground.now) (state_at ground.now) split x }
{
    let _ = ends;
    match group {
        Group::Single(other) => {
            if is_spared(spared, other.node) {
                FAR
            } else {
                cost_at(ground, split, other)
            }
        }
        Group::Below(_, level) => end_cost(ground, split, level),
    }
}

// Takes the steps of a split to the ends of a group.
fn over_group(
    ground: &Ground<'_>,
    search: &mut Search,
    leaving: Leaving,
    ends: &Ends<'_>,
    group: Group,
)
    requires ground { IsGround ground.now }
    requires searching { IsSearching ground.now search.old }
    requires leaving { IsLeaving ground.now search.old leaving }
    requires ends { ends.now ≡ ends_at ground.now.ends.now leaving.split }
    requires group { AreOf ground.now leaving.split (IsOutBy ground.now ends.now) group }
    ensures searching { IsSearching ground.now search.new }
    ensures improves { Improves search.old search.new }
    ensures over { (x : End) → IsOf (wave_of ground.now).tree (IsOutBy ground.now ends.now) group x
        → IsOverTo ground.now search.new leaving.end leaving.split x }
{
    match group {
        Group::Single(other) => over_to(ground, search, leaving, other),
        Group::Below(top, level) => over_below(ground, search, leaving, ends, top, level),
    }
}

// Takes the steps of a split to nodes that hang from a node. Where another split has taken such steps, and
// was no farther, only the nodes are left that its groups leave out.
fn over_below(
    ground: &Ground<'_>,
    search: &mut Search,
    leaving: Leaving,
    ends: &Ends<'_>,
    top: TreeNode,
    level: u8,
)
    requires ground { IsGround ground.now }
    requires searching { IsSearching ground.now search.old }
    requires leaving { IsLeaving ground.now search.old leaving }
    requires ends { ends.now ≡ ends_at ground.now.ends.now leaving.split }
    requires group { AreOf ground.now leaving.split (IsOutBy ground.now ends.now) (Below top level) }
    ensures searching { IsSearching ground.now search.new }
    ensures improves { Improves search.old search.new }
    ensures over { (x : End) → IsOf (wave_of ground.now).tree (IsOutBy ground.now ends.now) (Below top level) x
        → IsOverTo ground.now search.new leaving.end leaving.split x }
{
    if !is_inner(ground, top) {
        return;
    }
    let offset = leaving.far + end_cost(ground, leaving.split, level) + ground.reward
        - leaving.spent;
    if search.bound + ground.reward <= offset {
        return;
    }
    let cover = search.covers.of(top);
    if cover.offset <= offset {
        over_rest(ground, search, leaving, ends, top, level, cover.split);
    } else {
        over_all(ground, search, leaving, ends, top, level);
        search.cover(top, offset, leaving.split);
    }
}

// To all nodes that hang from a node and are not left out.
fn over_all(
    ground: &Ground<'_>,
    search: &mut Search,
    leaving: Leaving,
    ends: &Ends<'_>,
    top: TreeNode,
    level: u8,
)
    requires ground { IsGround ground.now }
    requires searching { IsSearching ground.now search.old }
    requires leaving { IsLeaving ground.now search.old leaving }
    requires group { AreOf ground.now leaving.split (IsOutBy ground.now ends.now) (Below top level) }
    ensures searching { IsSearching ground.now search.new }
    ensures improves { Improves search.old search.new }
    ensures over { (x : End) → IsOf (wave_of ground.now).tree (IsOutBy ground.now ends.now) (Below top level) x
        → IsOverTo ground.now search.new leaving.end leaving.split x }
{
    let nodes = nodes_below(ground, top);
    for node in nodes {
        over_node(
            ground,
            search,
            leaving,
            ends,
            top,
            End { node: *node, level },
        );
    }
}

// To the nodes that hang from a node and that the groups of another split leave out; where that split has
// more barred workers than nodes hang there, to all.
fn over_rest(
    ground: &Ground<'_>,
    search: &mut Search,
    leaving: Leaving,
    ends: &Ends<'_>,
    top: TreeNode,
    level: u8,
    other: u32,
)
    requires ground { IsGround ground.now }
    requires searching { IsSearching ground.now search.old }
    requires leaving { IsLeaving ground.now search.old leaving }
    requires group { AreOf ground.now leaving.split (IsOutBy ground.now ends.now) (Below top level) }
    requires other { other < length (wave_of ground.now).splits }
    ensures searching { IsSearching ground.now search.new }
    ensures improves { Improves search.old search.new }
    ensures over { (v : TreeNode) → IsOut ground.now other v
        → IsLeft (wave_of ground.now).tree (IsOutBy ground.now ends.now) top v
        → IsOverTo ground.now search.new leaving.end leaving.split (record { node = v; level = level }) }
{
    let tree = ground.problem.tree();
    let most = tree.workers();
    let workers = ends_of(ground, other).barred();
    let many = workers.len() >= nodes_below(ground, top).len();
    if many {
        over_all(ground, search, leaving, ends, top, level);
        return;
    }
    for worker in workers {
        let number = worker.index();
        if number < most {
            let node = next_above(tree, top, *worker);
            over_node(ground, search, leaving, ends, top, End { node, level });
        }
    }
}

// To one node, if it hangs from the top and is not left out. Whether it is nearer is asked first, as bars may
// be many.
fn over_node(
    ground: &Ground<'_>,
    search: &mut Search,
    leaving: Leaving,
    ends: &Ends<'_>,
    top: TreeNode,
    end: End,
)
    requires ground { IsGround ground.now }
    requires searching { IsSearching ground.now search.old }
    requires leaving { IsLeaving ground.now search.old leaving }
    requires known { IsNode (wave_of ground.now).tree end.node }
    requires group { AreOf ground.now leaving.split (IsOutBy ground.now ends.now) (Below top end.level) }
    ensures searching { IsSearching ground.now search.new }
    ensures improves { Improves search.old search.new }
    ensures over { IsLeft (wave_of ground.now).tree (IsOutBy ground.now ends.now) top end.node
        → IsOverTo ground.now search.new leaving.end leaving.split end }
{
    let distance = leaving.far + cost_below(ground, leaving.split, end);
    if search.is_past(end.node, distance, leaving.spent) {
        return;
    }
    if is_left(ground.problem.tree(), ends, top, end.node) {
        over_to(ground, search, leaving, end);
    }
}

// Takes the step of a split from its end to another.
fn over_to(ground: &Ground<'_>, search: &mut Search, leaving: Leaving, other: End)
    requires ground { IsGround ground.now }
    requires searching { IsSearching ground.now search.old }
    requires leaving { IsLeaving ground.now search.old leaving }
    requires is_end { IsEnd (wave_of ground.now) leaving.split other }
    ensures searching { IsSearching ground.now search.new }
    ensures improves { Improves search.old search.new }
    ensures over { IsOverTo ground.now search.new leaving.end leaving.split other }
{
    let distance = leaving.far + cost_at(ground, leaving.split, other) - leaving.spent;
    if search.is_nearer(other.node, distance) {
        let rest = rest_of(ground, other.node);
        let step = Step::Over(leaving.split, other.level);
        search.reach(other.node, distance, step, rest);
    }
}
