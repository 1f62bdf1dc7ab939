//! The nodes of the direct network.
ghost use Rattle.std.specs.Prelude.{◌≡◌, ◌+◌};
ghost use Rattle.direct_network.specs.Layout.{is_node, node_of, place_of};
ghost use Rattle.direct_network.specs.Places.{member_at, node_at_place, place_at, place_below};

use node_ids::{Layout, SplitNo, WorkerNo};

/// A node of the direct network.
#[derive(Clone, Copy, Debug, PartialEq, Eq)]
pub enum DirectNode {
    /// That of a split.
    Split(SplitNo),
    /// That of a worker.
    Worker(WorkerNo),
    /// Where the units of splits that do not start pass.
    Unstarted,
    /// Where all units end.
    Sink,
}

/// The nodes of the direct network: the splits, then the workers, then `Unstarted`, then `Sink`.
#[derive(Clone, Copy, Debug, PartialEq, Eq)]
pub struct DirectLayout {
    /// How many splits there are.
    pub splits: u16,
    /// How many workers there are.
    pub workers: u16,
}

impl Layout for DirectLayout {
    type Node = DirectNode;

    ghost node_count = { λ l. l.splits + l.workers + 2 };

    ghost index_of = { λ l n. place_of l.splits l.workers n };

    ghost node_at = { λ l i. node_of l.splits l.workers i };

    ghost is_member = { λ l n. is_node l.splits l.workers n };

    ghost node_is_member = { λ l i h. member_at l.splits l.workers i h };

    ghost index_of_node = { λ l i h. place_at l.splits l.workers i h };

    ghost index_below = { λ l n h. place_below l.splits l.workers n h };

    ghost node_of_index = { λ l n h. node_at_place l.splits l.workers n h };

    fn size(&self) -> usize {
        usize::from(self.splits) + usize::from(self.workers) + 2
    }

    fn index(&self, node: DirectNode) -> usize {
        let splits = usize::from(self.splits);
        let workers = usize::from(self.workers);
        match node {
            DirectNode::Split(split) => split.index(),
            DirectNode::Worker(worker) => splits + worker.index(),
            DirectNode::Unstarted => splits + workers,
            DirectNode::Sink => splits + workers + 1,
        }
    }

    fn node(&self, index: usize) -> DirectNode {
        let splits = usize::from(self.splits);
        let workers = usize::from(self.workers);
        if index < splits {
            DirectNode::Split(SplitNo::new(index as u32))
        } else if index < splits + workers {
            DirectNode::Worker(WorkerNo::new((index - splits) as u16))
        } else if index == splits + workers {
            DirectNode::Unstarted
        } else {
            DirectNode::Sink
        }
    }

    fn holds(&self, node: DirectNode) -> bool {
        match node {
            DirectNode::Split(split) => split.index() < usize::from(self.splits),
            DirectNode::Worker(worker) => worker.index() < usize::from(self.workers),
            DirectNode::Unstarted => true,
            DirectNode::Sink => true,
        }
    }
}
