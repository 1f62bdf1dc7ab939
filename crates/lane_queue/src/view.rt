// What a pass knows of the lane, and the steps by which that changes. No value of these types is made:
// they are what the proofs carry along with a pass.
ghost use Rattle.std.specs.Prelude.{[], ◌∷◌, true, ◌≡◌};
ghost use Rattle.lane_queue.specs.Rule.{Balanced};
ghost use Rattle.lane_queue.specs.Steps.{hand, putting, Totals, taking, deeper, both};

use crate::order::Order;
use crossbeam_queue::protocol::{Join, Lesson, Outcome, Protocol, Split};
use std::collections::LinkedList;

/// What was put and taken, the parts of the lane, and whether both lists are in the order of the lane.
pub struct View {
    pub puts: LinkedList<Order>,
    pub takes: LinkedList<Order>,
    pub depths: LinkedList<u64>,
    pub ordered: bool,
}

/// The rule of a lane, and the view of its first pass.
pub struct InLine;

impl Protocol<Order, View> for InLine {
    ghost holds = { Balanced };

    ghost first = { hand [] [] (0 ∷ []) true };
}

/// An order is put at the back.
pub struct PutStep;

impl Outcome<Order, View> for PutStep {
    ghost then = { λ v x w. w ≡ putting v x };
}

impl Lesson<Order, View> for PutStep {
    ghost fact = { Totals };
}

/// The order at the front is taken.
pub struct TakeStep;

impl Outcome<Order, View> for TakeStep {
    ghost then = { λ v x w. w ≡ taking v x };
}

impl Lesson<Order, View> for TakeStep {
    ghost fact = { Totals };
}

/// A pass is split off from another, and each has half of its part.
pub struct ShareSplit;

impl Split<View> for ShareSplit {
    ghost left = { λ v. hand v.puts v.takes (deeper v.depths) v.ordered };

    ghost right = { λ v. hand [] [] (deeper v.depths) true };
}

/// A pass takes in another, and has the parts of both.
pub struct ShareJoin;

impl Join<View> for ShareJoin {
    ghost both = { both };

    ghost spent = { hand [] [] [] true };
}
