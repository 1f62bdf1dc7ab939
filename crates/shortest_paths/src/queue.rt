//! Nodes that wait for their turn, by distance.
ghost use Rattle.std.specs.Prelude.{◌≡◌, ℕ, ◌+◌, ◌≤◌, List, [], ◌∷◌, ◌++◌, All, OnOk, IfSome, IfNone};
ghost use Rattle.std.specs.Prelude.{IsPermutation, vec_len, map};
ghost use Rattle.std.specs.BinaryHeap.{KeepsHeap, heap_items, heap_len, heap_capacity, IsHeap};
ghost use Rattle.shortest_paths.specs.Order.{nearer, pair_of};

use std::alloc::{AllocError, Global};
use std::cmp::Reverse;
use std::collections::BinaryHeap;
use std::marker::Model;

/// A priority queue of nodes by distance. Of equally near nodes it hands out the one with the greatest index.
/// Arcs lead to later nodes, so that node is the sink or closer to it. Pairs put since the last take wait
/// outside the heap, which has room for them: most searches end before they take one.
#[derive(Drop)]
pub struct Queue {
    heap: BinaryHeap<(Reverse<u64>, usize)>,
    fresh: Vec<(Reverse<u64>, usize)>,
}

impl Model for Queue {
    ghost Value = { List (ℕ × ℕ) };

    ghost view = { λ q. map pair_of (heap_items q.heap ++ q.fresh.items) };

    ghost invariant = { λ q. IsHeap nearer (heap_items q.heap)
        × (heap_len q.heap + vec_len q.fresh ≤ heap_capacity q.heap) };
}

impl Queue {
    /// No entries; nothing is allocated.
    pub fn new(alloc: Global) -> Queue
        ensures { result ≡ [] }
    {
        Queue {
            heap: BinaryHeap::new(alloc),
            fresh: Vec::new(alloc),
        }
    }

    /// One entry more, for a node at a distance.
    pub fn put(&mut self, distance: u64, node: usize) -> Result<(), AllocError>
        ensures { OnOk result (IsPermutation ((distance, node) ∷ self.old) self.new) }
    {
        self.heap.reserve(self.fresh.len() + 1)?;
        self.fresh.push((Reverse(distance), node))?;
        Ok(())
    }

    /// Takes an entry of the least distance, if there is one.
    pub fn take(&mut self) -> Option<(u64, usize)>
        ensures taken { IfSome result (λ p. IsPermutation self.old (p ∷ self.new)) }
        ensures nearest { IfSome result (λ p. All (λ q. p.0 ≤ q.0) self.old) }
        ensures empty { IfNone result (self.old ≡ []) }
        ensures still_empty { IfNone result (self.new ≡ []) }
    {
        take_in(&mut self.heap, &mut self.fresh);
        let (Reverse(distance), node) = self.heap.pop()?;
        Some((distance, node))
    }

    /// Drops all entries.
    pub fn clear(&mut self)
        ensures { self.new ≡ [] }
    {
        self.heap.clear();
        self.fresh.clear();
    }
}

// Puts all of the fresh entries into the heap, which has room for them.
fn take_in(heap: &mut BinaryHeap<(Reverse<u64>, usize)>, fresh: &mut Vec<(Reverse<u64>, usize)>)
    requires { heap_len heap.old + vec_len fresh.old ≤ heap_capacity heap.old }
    ensures all { IsPermutation (heap_items heap.old ++ fresh.old.items) (heap_items heap.new) }
    ensures heap_order { KeepsHeap nearer (heap_items heap.old) (heap_items heap.new) }
    ensures room { heap_len heap.new ≤ heap_capacity heap.new }
    ensures empty { fresh.new.items ≡ [] }
    ensures none { vec_len fresh.new ≡ 0 }
{
    'fresh: while let Some(entry) = fresh.pop() {
        match heap.push(entry) {
            Ok(()) => {}
            Err(_) => unreachable!(),
        }
    }
}
