//! The arcs of the sources that are matched with one node.
ghost use Rattle.std.specs.Prelude.{◌≡◌, [], ◌∷◌, ◌++◌, OnOk, nat_eq, ℕ, List};
ghost use Rattle.std.specs.List.{IsDistinct};
ghost use Rattle.shortest_paths.specs.Matched.{Leaves};

use std::alloc::{AllocError, Global};
use std::marker::Model;

/// The arcs of the sources whose units go to one node.
#[derive(Drop)]
pub struct MatchedArcs(Vec<u32>);

impl Model for MatchedArcs {
    ghost Value = { List ℕ };

    ghost view = { λ l. l.0.items };
}

impl MatchedArcs {
    /// No arc; nothing is allocated.
    pub fn new(alloc: Global) -> MatchedArcs
        ensures { result ≡ [] }
    {
        MatchedArcs(Vec::new(alloc))
    }

    /// The numbers of the arcs, counted from 0 as in the network.
    pub fn all(&self) -> &[u32]
        ensures { result.now ≡ self.now }
    {
        &self.0
    }

    /// One arc more.
    pub fn enter(&mut self, arc: u32) -> Result<(), AllocError>
        ensures { OnOk result (self.new ≡ self.old ++ arc ∷ []) }
    {
        self.0.push(arc)?;
        Ok(())
    }

    /// One arc less, where it is here.
    pub fn leave(&mut self, arc: u32)
        ensures { IsDistinct nat_eq self.old → Leaves self.old arc self.new }
    {
        for i in 0..self.0.len() {
            if self.0[i] == arc {
                self.0.swap_remove(i);
                return;
            }
        }
    }
}
