ghost use Rattle.std.specs.Prelude.{◌≡◌};
ghost use Rattle.lane_queue.specs.Orders.{attempt_of};

use node_ids::{AttemptNo, PartNo};
use std::sync::Arc;
use word_map::{Run, SplitText};

/// What a worker is told to do, with all that it needs for it.
#[derive(Drop)]
pub enum Order {
    /// As this attempt, map the text of a split.
    Map(AttemptNo, Arc<SplitText>),
    /// As this attempt, reduce a part of the words over its runs.
    Reduce(AttemptNo, PartNo, Vec<Arc<Run>>),
}

impl Order {
    /// As which attempt it is to be done.
    pub fn attempt(&self) -> AttemptNo
        ensures { result ≡ attempt_of self.now }
    {
        match self {
            Order::Map(attempt, _) => *attempt,
            Order::Reduce(attempt, _, _) => *attempt,
        }
    }
}
