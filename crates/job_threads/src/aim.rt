ghost use Rattle.std.specs.Prelude.{ℕ, Bool, false, List, [], None, Option};
ghost use Rattle.beat_board.specs.Values.{BoardValue};
ghost use Rattle.lane_queue.specs.Lanes.{LaneValue};

use std::marker::Brand;

/// How many replicas each split of a job should have, how many waves are planned ahead, the board and the
/// workers' lanes of its run, and whether the gate of the run may end it. Each run picks them.
pub trait Aim {
    ghost target: { ℕ };

    ghost ahead: { Option ℕ };

    ghost board: { BoardValue };

    ghost lanes: { List LaneValue };

    ghost may_end: { Bool };
}

impl Aim for Brand {
    ghost target = { 0 };

    ghost ahead = { None };

    ghost board = { record {
      board = record {
        words = 0;
        slots = 0;
        views_name = 0;
        atom = 0;
        block = 0;
        offset = 0;
        slot_names = [];
      };
      workers = 0;
    } };

    ghost lanes = { [] };

    ghost may_end = { false };
}
