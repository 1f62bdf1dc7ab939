//! What a search goes over.
use crate::{Potentials, ResidualArcs};

/// A search for a least path from a node to another, by their indices: the potentials that give the arcs
/// their reduced costs, and the arcs by which the nodes are left. A search to all nodes has a sink past the
/// last one.
#[derive(Clone, Copy)]
pub struct Query<'a> {
    pub potentials: &'a Potentials,
    pub lists: &'a ResidualArcs,
    pub start: usize,
    pub sink: usize,
}
