//! Arcs and residual arcs.

/// An arc between two nodes, which are given by their indices, with its capacity in units and the cost
/// of one unit.
#[derive(Clone, Copy, Debug, PartialEq, Eq)]
pub struct FlowArc {
    // (16 bits each: at twice the size the arcs of a thousand splits took a fifth of the time of a plan)
    pub from: u16,
    pub to: u16,
    pub capacity: u16,
    pub cost: u64,
}

/// A residual arc, by the number of the arc in the order of adding: the arc itself, which has room while
/// it carries less than its capacity, or its reverse, which has room while there is a unit to take back.
#[derive(Clone, Copy, Debug, PartialEq, Eq)]
pub enum ArcNo {
    Forward(u32),
    Reverse(u32),
}

impl Default for ArcNo {
    fn default() -> ArcNo {
        ArcNo::Forward(0)
    }
}
