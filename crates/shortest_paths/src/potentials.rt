//! Potentials of nodes, none above 0.
ghost use Rattle.std.specs.Prelude.{◌≡◌, ℕ, ◌+◌, ◌<◌, ◌≤◌, ◌^◌, length, replicate, slice_index, slice_set};
ghost use Rattle.std.specs.Prelude.{pos, ◌≤ℤ◌, neg_ℤ, unsigned_abs, IfOk, List};

use std::alloc::{AllocError, Global};
use std::marker::Model;

/// One potential for each node, from -2^60 to 0. They are kept as depths below 0, so that all are natural
/// numbers, and contracts see these.
#[derive(Drop)]
pub struct Potentials(Vec<u64>);

impl Model for Potentials {
    ghost Value = { List ℕ };

    ghost view = { λ p. p.0.items };

    ghost invariant = { λ p. (v : ℕ) → slice_index p.0.items v ≤ 2 ^ 60 };
}

impl Potentials {
    /// All potentials are 0.
    pub fn new(alloc: Global, nodes: usize) -> Result<Potentials, AllocError>
        ensures { IfOk result (λ p. p ≡ replicate nodes 0) }
    {
        Ok(Potentials(vec![in alloc; 0; nodes]?))
    }

    /// The potential of a node, by its index.
    pub fn of(&self, node: usize) -> i64
        requires { node < length self.now }
        ensures { result ≡ neg_ℤ (pos (slice_index self.now node)) }
    {
        -(self.0[node] as i64)
    }

    /// Sets the potential of a node.
    pub fn set(&mut self, node: usize, value: i64)
        requires node { node < length self.old }
        requires low { neg_ℤ (pos (2 ^ 60)) ≤ℤ value }
        requires high { value ≤ℤ pos 0 }
        ensures { self.new ≡ slice_set self.old node (unsigned_abs value) }
    {
        self.0[node] = value.unsigned_abs();
    }

    /// Lowers the potential of a node.
    pub fn lower(&mut self, node: usize, by: u64)
        requires node { node < length self.old }
        requires low { slice_index self.old node + by ≤ 2 ^ 60 }
        ensures { self.new ≡ slice_set self.old node (slice_index self.old node + by) }
    {
        self.0[node] += by;
    }

    /// How far each potential lies below 0, by the indices of the nodes.
    pub fn depths(&self) -> &[u64]
        ensures depths { result.now ≡ self.now }
        ensures most { (v : ℕ) → slice_index self.now v ≤ 2 ^ 60 }
    {
        &self.0
    }
}
