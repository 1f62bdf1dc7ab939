//! The nodes of the rack network.
ghost use Rattle.std.specs.Prelude.{◌≡◌, ◌≤◌, ◌+◌};
ghost use Rattle.rack_network.specs.Layout.{clusters, is_node, node_of, place_of};
ghost use Rattle.rack_network.specs.Places.{member_at, node_at_place, place_at, place_below};

use node_ids::{CentreNo, Layout, RackNo, SplitNo, WorkerNo};

/// A node of the rack network.
#[derive(Clone, Copy, Debug, PartialEq, Eq)]
pub enum RackNode {
    /// That of a split.
    Split(SplitNo),
    /// Above all data centres, where there are several.
    Cluster,
    /// Above the racks of a data centre.
    Centre(CentreNo),
    /// Above the workers of a rack.
    Rack(RackNo),
    /// That of a worker.
    Worker(WorkerNo),
    /// Where the units of splits that do not start pass.
    Unstarted,
    /// Where all units end.
    Sink,
}

/// The nodes of the rack network: the splits, `Cluster` where there are several data centres, the centres,
/// the racks, the workers, `Unstarted`, `Sink`. So each arc leads to a later node.
#[derive(Clone, Copy, Debug, PartialEq, Eq)]
pub struct RackLayout {
    /// How many splits there are.
    pub splits: u16,
    /// How many data centres there are.
    pub centres: u8,
    /// How many racks there are.
    pub racks: u16,
    /// How many workers there are.
    pub workers: u16,
}

// How many nodes stand above those of so many data centres.
pub(crate) fn clusters(centres: usize) -> usize
    ensures count { result ≡ clusters centres }
    ensures most { result ≤ 1 }
{
    if centres > 1 { 1 } else { 0 }
}

impl Layout for RackLayout {
    type Node = RackNode;

    ghost node_count = { λ l. l.splits + clusters l.centres + l.centres + l.racks + l.workers + 2 };

    ghost index_of = { λ l n. place_of l.splits l.centres l.racks l.workers n };

    ghost node_at = { λ l i. node_of l.splits l.centres l.racks l.workers i };

    ghost is_member = { λ l n. is_node l.splits l.centres l.racks l.workers n };

    ghost node_is_member = { λ l i h. member_at l.splits l.centres l.racks l.workers i h };

    ghost index_of_node = { λ l i h. place_at l.splits l.centres l.racks l.workers i h };

    ghost index_below = { λ l n h. place_below l.splits l.centres l.racks l.workers n h };

    ghost node_of_index = { λ l n h. node_at_place l.splits l.centres l.racks l.workers n h };

    fn size(&self) -> usize {
        let centres = usize::from(self.centres);
        let hubs = clusters(centres) + centres + usize::from(self.racks);
        usize::from(self.splits) + hubs + usize::from(self.workers) + 2
    }

    #[inline(always)]
    fn index(&self, node: RackNode) -> usize {
        let centres = usize::from(self.splits) + clusters(usize::from(self.centres));
        let racks = centres + usize::from(self.centres);
        let workers = racks + usize::from(self.racks);
        let unstarted = workers + usize::from(self.workers);
        match node {
            RackNode::Split(split) => split.index(),
            RackNode::Cluster => usize::from(self.splits),
            RackNode::Centre(centre) => centres + centre.index(),
            RackNode::Rack(rack) => racks + rack.index(),
            RackNode::Worker(worker) => workers + worker.index(),
            RackNode::Unstarted => unstarted,
            RackNode::Sink => unstarted + 1,
        }
    }

    fn node(&self, index: usize) -> RackNode {
        let centres = usize::from(self.splits) + clusters(usize::from(self.centres));
        let racks = centres + usize::from(self.centres);
        let workers = racks + usize::from(self.racks);
        let unstarted = workers + usize::from(self.workers);
        if index < usize::from(self.splits) {
            RackNode::Split(SplitNo::new(index as u32))
        } else if index < centres {
            RackNode::Cluster
        } else if index < racks {
            RackNode::Centre(CentreNo::new((index - centres) as u8))
        } else if index < workers {
            RackNode::Rack(RackNo::new((index - racks) as u16))
        } else if index < unstarted {
            RackNode::Worker(WorkerNo::new((index - workers) as u16))
        } else if index == unstarted {
            RackNode::Unstarted
        } else {
            RackNode::Sink
        }
    }

    fn holds(&self, node: RackNode) -> bool {
        match node {
            RackNode::Split(split) => split.index() < usize::from(self.splits),
            RackNode::Cluster => self.centres > 1,
            RackNode::Centre(centre) => centre.index() < usize::from(self.centres),
            RackNode::Rack(rack) => rack.index() < usize::from(self.racks),
            RackNode::Worker(worker) => worker.index() < usize::from(self.workers),
            RackNode::Unstarted => true,
            RackNode::Sink => true,
        }
    }
}
