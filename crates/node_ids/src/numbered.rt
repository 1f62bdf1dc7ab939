ghost use Rattle.std.specs.Prelude.{nat_lt};
ghost use Rattle.std.proofs.Common.{refl};
ghost use Rattle.std.proofs.lemmas.Bool.{lt-ltb, ltb-true};

use crate::layout::Layout;

/// A layout of so many nodes that are their own places: each number below `nodes` is a node.
#[derive(Clone, Copy, Debug)]
pub struct Numbered {
    pub nodes: usize,
}

impl Layout for Numbered {
    type Node = usize;

    ghost node_count = { λ l. l.nodes };

    ghost index_of = { λ _ n. n };

    ghost node_at = { λ _ i. i };

    ghost is_member = { λ l n. nat_lt n l.nodes };

    ghost node_is_member = { λ l i h. lt-ltb i l.nodes h };

    ghost index_of_node = { λ _ _ _. refl };

    ghost index_below = { λ l n h. ltb-true n l.nodes h };

    ghost node_of_index = { λ _ _ _. refl };

    fn size(&self) -> usize {
        self.nodes
    }

    fn index(&self, node: usize) -> usize {
        node
    }

    fn node(&self, index: usize) -> usize {
        index
    }

    fn holds(&self, node: usize) -> bool {
        node < self.nodes
    }
}
