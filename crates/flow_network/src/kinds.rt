//! The kinds of networks that a wave of starts is planned over.

/// Over which network a wave is planned. The plans and the prices of the two may differ; both are best.
#[derive(Clone, Copy, Debug, PartialEq, Eq)]
pub enum NetworkKind {
    /// An arc from each pending split to each worker with which it is admissible.
    Direct,
    /// Nodes for the racks and the cluster between splits and workers, so that far fewer arcs stand.
    Racks,
}
