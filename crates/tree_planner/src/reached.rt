//! The nodes that a search has come to.
ghost use Rattle.std.specs.Prelude.{ℕ, ◌≡◌, ◌+◌, ◌*◌, ◌/◌, ◌^◌, ◌<◌, ◌≤◌, IfOk, MatchOption, length, min};
ghost use Rattle.std.specs.Prelude.{slice_index_or, slice_set};
ghost use Rattle.rack_tree.specs.Tree.{Tree};
ghost use Rattle.tree_flow.specs.declared.nodes.TreeNode.TheVariants.{Cluster};
ghost use Rattle.tree_flow.specs.Table.{HasNode, IsOver};
ghost use Rattle.tree_planner.specs.Reaching.{floor_in, HasRoom, IsLowest, IsNoted};

use crate::hints::Hints;
use rack_tree::RackTree;
use std::alloc::{AllocError, Global};
use tree_flow::{NodeTable, TreeNode};

/// A distance that is farther than any way goes.
pub const FAR: u64 = 1_152_921_504_606_846_976;

/// How many places of the row make a block. To find the nearest node, a search reads the floor of each block
/// and then the nodes of one block or a few. A tree of 32,768 workers has about a thousand blocks of 32.
/// Their floors lie side by side, so reading a thousand of them costs about as much as reading 32 nodes.
pub const BLOCK: usize = 32;

/// A block with the lowest floor, that floor, and a distance that no other block's floor is below.
#[derive(Clone, Copy)]
pub struct LowBlock {
    pub block: usize,
    pub floor: u64,
    pub next: u64,
}

/// Nodes in a row, of which so many are the first; the place of each node in the row; a floor for each block
/// of places: no node there that the search has not looked from is nearer; and where to look first.
#[derive(Drop)]
pub struct Reached {
    pub nodes: Vec<TreeNode>,
    pub count: usize,
    pub places: NodeTable<usize>,
    pub floors: Vec<u64>,
    pub hints: Hints,
}

impl Reached {
    /// Room for so many nodes of a tree.
    pub fn new(alloc: Global, tree: &RackTree, nodes: usize) -> Result<Reached, AllocError>
        ensures room { IfOk result (λ reached. length reached.nodes.items ≡ nodes) }
        ensures places { IfOk result (λ reached. IsOver tree.now reached.places) }
        ensures floors { IfOk result (λ reached. nodes < 32 * length reached.floors.items) }
    {
        let places = NodeTable::new(alloc, tree, 0)?;
        let floors = vec![in alloc; 0; nodes / BLOCK + 1]?;
        Ok(Reached {
            nodes: vec![in alloc; TreeNode::Cluster; nodes]?,
            count: 0,
            places,
            floors,
            hints: Hints::new(alloc, nodes)?,
        })
    }

    /// The node after so many others.
    pub fn at(&self, k: usize) -> TreeNode
        requires { k < length self.now.nodes.items }
        ensures { result ≡ slice_index_or self.now.nodes.items k Cluster }
    {
        self.nodes[k]
    }

    /// Notes that a node, which was so far, is at this distance. A node that was farther than any way goes is
    /// added to the row; one that was nearer stands there already.
    pub fn note(&mut self, node: TreeNode, far: u64, distance: u64)
        requires { HasRoom self.old node far }
        ensures { IsNoted self.old self.new node far distance }
    {
        if far >= FAR {
            self.add(node, distance);
        } else {
            let place = self.places.get(node);
            let block = place / BLOCK;
            self.hints.put(place, distance);
            self.floors[block] = distance.min(self.floors[block]);
        }
    }

    // Adds a node at this distance. The first of a block makes its floor anew.
    fn add(&mut self, node: TreeNode, distance: u64)
        requires { HasRoom self.old node (2 ^ 60) }
        ensures { IsNoted self.old self.new node (2 ^ 60) distance }
    {
        let place = self.count;
        let block = place / BLOCK;
        if place % BLOCK == 0 || distance < self.floors[block] {
            self.floors[block] = distance;
        }
        self.nodes[place] = node;
        self.hints.put(place, distance);
        self.places.set(node, place);
        self.count += 1;
    }

    /// Notes that the search has looked from a node.
    pub fn close(&mut self, node: TreeNode)
        requires { HasNode self.old.places node }
        ensures { self.new ≡ self.old }
    {
        let place = self.places.get(node);
        self.hints.put(place, FAR);
    }

    /// Gives a block another floor.
    pub fn raise(&mut self, block: usize, floor: u64)
        requires { block < length self.old.floors.items }
        ensures rest { self.new ≡ record self.old { floors = self.new.floors } }
        ensures floors { self.new.floors.items ≡ slice_set self.old.floors.items block floor }
    {
        self.floors[block] = floor;
    }

    /// The block with the lowest floor, if this is below a distance: of two such blocks the first.
    pub fn lowest_block(&self, below: u64) -> Option<LowBlock>
        requires room { self.now.count ≤ length self.now.nodes.items }
        requires floors { length self.now.nodes.items < 32 * length self.now.floors.items }
        ensures { MatchOption result ((k : ℕ) → k * 32 < self.now.count → below ≤ floor_in self.now k)
            (λ low. IsLowest self.now low below) }
    {
        let mut low = LowBlock {
            block: 0,
            floor: below,
            next: below,
        };
        for k in 0..self.count.div_ceil(BLOCK) {
            low = lower(low, k, self.floors[k]);
        }
        if low.floor < below { Some(low) } else { None }
    }
}

// The lower block of the lowest one so far and another one.
fn lower(low: LowBlock, block: usize, floor: u64) -> LowBlock
    ensures lower { floor < low.floor → result ≡ record { block = block; floor = floor; next = low.floor } }
    ensures other { low.floor ≤ floor → result ≡ record low { next = min floor low.next } }
{
    if floor < low.floor {
        LowBlock {
            block,
            floor,
            next: low.floor,
        }
    } else {
        LowBlock {
            block: low.block,
            floor: low.floor,
            next: floor.min(low.next),
        }
    }
}
