//! The nearest node from which a search has not looked.
ghost use Rattle.std.specs.Prelude.{◌≡◌, ◌*◌, ◌/◌, ◌<◌, ◌≤◌, ◌^◌, MatchOption, length};
ghost use Rattle.tree_flow.specs.Table.{HasNode};
ghost use Rattle.tree_flow.specs.declared.nodes.TreeNode.{TreeNode};
ghost use Rattle.tree_planner.specs.Searching.{order_at, far_at, place_at, reached_at, AreFloorsNew};
ghost use Rattle.tree_planner.specs.Searching.{IsCandidate, IsGround, IsNearest, IsSearching};

use crate::reached::BLOCK;
use crate::search::{Ground, Search};
use tree_flow::TreeNode;

/// The place of the nearest node so far among the reached nodes, and how far it is; or how many these
/// are, and the bound.
#[derive(Clone, Copy)]
pub struct Candidate {
    pub place: usize,
    pub far: u64,
}

/// The nearest node that was not looked from and is nearer than the bound. Of such nodes it is the first in
/// the row. The search looks through the block with the lowest floor, which then rises to the block's nearest
/// node, until no other block can have a nearer one.
pub fn nearest(ground: &Ground<'_>, search: &mut Search) -> Option<TreeNode>
    requires ground { IsGround ground.now }
    requires searching { IsSearching ground.now search.old }
    ensures rest { AreFloorsNew search.old search.new }
    ensures searching { IsSearching ground.now search.new }
    ensures node { MatchOption result
        ((v : TreeNode) → order_at search.new v ≡ 0 → search.new.bound ≤ far_at search.new v)
        (λ node. IsNearest ground.now search.new node) }
{
    while let Some(low) = search.reached.lowest_block(search.bound) {
        let best = nearest_in(ground, search, low.block);
        search.reached.raise(low.block, best.far);
        if best.far <= low.floor || best.far < low.next {
            return Some(search.reached.at(best.place));
        }
    }
    None
}

// The place of a block's nearest node that was not looked from, if it is nearer than the bound. A node as
// near as the floor is the nearest at once.
fn nearest_in(ground: &Ground<'_>, search: &Search, block: usize) -> Candidate
    requires ground { IsGround ground.now }
    requires searching { IsSearching ground.now search.now }
    requires block { block * 32 < search.now.reached.count }
    ensures fresh { IsCandidate search.now result }
    ensures least { (v : TreeNode) → far_at search.now v < 2 ^ 60 → order_at search.now v ≡ 0
        → place_at search.now v / 32 ≡ block → result.far ≤ far_at search.now v }
{
    let floor = search.reached.floors[block];
    let soon = hinted(ground, search, block);
    if soon.far <= floor {
        return soon;
    }
    let first = block * BLOCK;
    let mut best = Candidate {
        place: search.reached.count,
        far: search.bound,
    };
    for k in first..search.reached.count.min(first + BLOCK) {
        best = nearer(search, best, k);
        if best.far <= floor {
            return best;
        }
    }
    best
}

// The node of a block at which the hints say to look first, if it is nearer than the bound and was not looked
// from.
fn hinted(ground: &Ground<'_>, search: &Search, block: usize) -> Candidate
    requires ground { IsGround ground.now }
    requires searching { IsSearching ground.now search.now }
    requires block { block * 32 < search.now.reached.count }
    ensures { IsCandidate search.now result }
{
    let _ = ground;
    let first = block * BLOCK;
    let end = search.reached.count.min(first + BLOCK);
    let none = Candidate {
        place: search.reached.count,
        far: search.bound,
    };
    let floor = search.reached.floors[block];
    match search.reached.hints.first_within(first, end, floor) {
        Some(place) => nearer(search, none, place),
        None => none,
    }
}

// The nearer of two nodes, if one is nearer than the bound and was not looked from.
fn nearer(search: &Search, best: Candidate, k: usize) -> Candidate
    requires place { k < length search.now.reached.nodes.items }
    requires far { HasNode search.now.far (reached_at search.now k) }
    requires order { HasNode search.now.order (reached_at search.now k) }
    ensures fresh { IsCandidate search.now best → k < search.now.reached.count → IsCandidate search.now result }
    ensures least { result.far ≤ best.far }
    ensures here { order_at search.now (reached_at search.now k) ≡ 0
        → result.far ≤ far_at search.now (reached_at search.now k) }
{
    let node = search.reached.at(k);
    let far = search.far_of(node);
    if far >= best.far || search.order.get(node) != 0 {
        return best;
    }
    Candidate { place: k, far }
}
