// What a thread knows of the board, and the steps by which that changes. No value of these types is made:
// they are what the proofs carry along with a token of the table.
ghost use Rattle.std.specs.Prelude.{[]};
ghost use Rattle.beat_board.specs.Rule.{Rule};
ghost use Rattle.beat_board.specs.Views.{making, seated, reading, spent};
ghost use Rattle.beat_board.specs.Steps.{Beats, Looks, Turns, more, shown, gathers};

use atomic_table::{Join, Play, Split, TableRule};
use std::collections::LinkedList;

/// The beats that a seat made, and what they were answered, the latest first.
pub struct Tally {
    pub worker: u64,
    pub beats: u64,
    pub told: LinkedList<u64>,
}

/// A number that was answered for a worker.
pub struct Look {
    pub worker: u64,
    pub beats: u64,
}

/// The counts of the seats that it stands for and the numbers that it saw. The maker's also has the
/// worker whose seat is made next, and how many seats were made.
pub struct View {
    pub tallies: LinkedList<Tally>,
    pub looks: LinkedList<Look>,
    pub next: u64,
    pub made: u64,
}

/// The rule of a board, and the view of its maker.
pub struct Sums;

impl TableRule<u8, View, ()> for Sums {
    ghost holds = { λ _. Rule };

    ghost first = { λ _. making [] [] 0 0 };
}

/// A beat of a seat.
pub struct BeatStep;

impl Play<u8, View> for BeatStep {
    ghost then = { Beats };
}

/// A look of a reader.
pub struct LookStep;

impl Play<u8, View> for LookStep {
    ghost then = { Looks };
}

/// The maker turns to a worker.
pub struct TurnStep;

impl Play<u8, View> for TurnStep {
    ghost then = { Turns };
}

/// A seat is split off from the maker.
pub struct SeatSplit;

impl Split<View> for SeatSplit {
    ghost left = { more };

    ghost right = { λ v. seated v.next 0 [] };
}

/// A reader is split off from the maker.
pub struct ReaderSplit;

impl Split<View> for ReaderSplit {
    ghost left = { λ v. v };

    ghost right = { λ v. reading [] };
}

/// What a seat was told is split off from it, as what a reader would know.
pub struct TellSplit;

impl Split<View> for TellSplit {
    ghost left = { λ v. v };

    ghost right = { λ v. reading (shown v.tallies) };
}

/// A seat or a reader comes back to the maker, or what a seat was told comes to a reader.
pub struct Gather;

impl Join<View> for Gather {
    ghost both = { gathers };

    ghost spent = { spent };
}
