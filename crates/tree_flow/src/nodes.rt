//! The nodes of the tree, and where a split is.

/// A node of the tree.
#[derive(Clone, Copy, Debug, PartialEq, Eq)]
pub enum TreeNode {
    /// A worker, by its number.
    Worker(u16),
    /// Above the workers of a rack, by its number.
    Rack(u16),
    /// Above the racks of a data centre, by its number.
    Centre(u8),
    /// Above all data centres.
    Cluster,
}

/// A node on which a split may stand, and how many levels above a live holder it is paid for.
#[derive(Clone, Copy, Debug, PartialEq, Eq)]
pub struct End {
    pub node: TreeNode,
    pub level: u8,
}

/// Where a split is.
#[derive(Clone, Copy, Debug, PartialEq, Eq)]
pub enum Place {
    /// Its unit comes to this end, and from there down to a worker.
    Stands(End),
    /// It is not to start.
    Waits,
    /// It is not decided on yet, or not pending.
    Unshipped,
}
