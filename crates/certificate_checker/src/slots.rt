//! The slots of the workers by rising price, and how those under one node of the tree follow each other.
ghost use Rattle.std.specs.Prelude.{◌≡◌, ℕ, ◌+◌, ◌<◌, ◌≤◌, length, slice_index, IfOk};
ghost use Rattle.std.specs.List.Sorted.{IsNonDecreasingBy, IsPermutation};
ghost use Rattle.rack_tree.specs.declared.TheConstants.{MAX_WORKERS};
ghost use Rattle.certificate_checker.specs.Slots.{chain_at, node_at, nodes_at, AreLinked};

use node_ids::WorkerNo;
use rack_tree::RackTree;
use std::alloc::{AllocError, Global};

/// A level of the tree above the workers.
#[derive(Clone, Copy)]
pub enum Level {
    Rack,
    Centre,
    Cluster,
}

impl Level {
    /// How many nodes there are at the level. The cluster is one node.
    pub fn nodes(self, tree: &RackTree) -> usize
        ensures { result ≡ nodes_at tree.now self }
    {
        match self {
            Level::Rack => tree.racks(),
            Level::Centre => tree.centres(),
            Level::Cluster => 1,
        }
    }

    /// The number of the node above a worker.
    pub fn node(self, tree: &RackTree, worker: WorkerNo) -> usize
        requires { worker < length tree.now.rack_of }
        ensures node { result ≡ node_at tree.now self worker }
        ensures known { result < nodes_at tree.now self }
    {
        let rack = tree.rack_of(worker);
        match self {
            Level::Rack => rack.index(),
            Level::Centre => tree.centre_of(rack).index(),
            Level::Cluster => 0,
        }
    }
}

/// A slot of a worker, at its price.
#[derive(Clone, Copy)]
pub struct Slot {
    pub worker: WorkerNo,
    pub price: u64,
}

/// Brings slots into the order of their prices, the cheapest first.
pub fn sort_by_price(slots: &mut [Slot])
    ensures same { IsPermutation slots.old slots.new }
    ensures rising { IsNonDecreasingBy (λ slot. slot.price) slots.new }
{
    slots.sort_unstable_by_key(
        |slot: &Slot| -> u64
            ensures { result ≡ slot.now.price }
        { slot.price },
    );
}

/// For each node of a level the place of the first slot under it in a list of slots, and for each slot the
/// place of the next one under the same node. The length of the list stands for none.
#[derive(Drop)]
pub struct Chain {
    pub first: Vec<u16>,
    pub next: Vec<u16>,
}

impl Chain {
    /// That of no slot yet, for so many nodes and slots.
    pub fn new(alloc: Global, nodes: usize, slots: usize) -> Result<Chain, AllocError>
        requires { slots ≤ MAX_WORKERS }
        ensures { IfOk result (λ chain. (above : ℕ → ℕ) → AreLinked above nodes slots chain slots) }
    {
        Ok(Chain {
            first: vec![in alloc; slots as u16; nodes]?,
            next: vec![in alloc; slots as u16; slots]?,
        })
    }

    /// Links a slot under a node before the slots that are linked already.
    pub fn link(&mut self, node: usize, place: usize)
        requires node { node < length self.old.first.items }
        requires place { place < length self.old.next.items }
        requires most { place < MAX_WORKERS }
        ensures { (above : ℕ → ℕ) (nodes slots : ℕ) → place < slots → above place ≡ node
            → AreLinked above nodes slots self.old (place + 1) → AreLinked above nodes slots self.new place }
    {
        self.next[place] = self.first[node];
        self.first[node] = place as u16;
    }

    /// Where the first slot under a node stands.
    pub fn first(&self, node: usize) -> usize
        requires { node < length self.now.first.items }
        ensures { result ≡ slice_index self.now.first.items node }
    {
        self.first[node] as usize
    }

    /// Where the next slot under the same node stands.
    pub fn next(&self, place: usize) -> usize
        requires { place < length self.now.next.items }
        ensures { result ≡ slice_index self.now.next.items place }
    {
        self.next[place] as usize
    }
}

/// Slots by rising price, with the chain of those under each rack, under each data centre, and of all.
#[derive(Drop)]
pub struct Slots {
    pub all: Vec<Slot>,
    pub racks: Chain,
    pub centres: Chain,
    pub cluster: Chain,
}

impl Slots {
    /// The chain at a level.
    pub fn chain(&self, level: Level) -> &Chain
        ensures { result.now ≡ chain_at self.now level }
    {
        match level {
            Level::Rack => &self.racks,
            Level::Centre => &self.centres,
            Level::Cluster => &self.cluster,
        }
    }
}
