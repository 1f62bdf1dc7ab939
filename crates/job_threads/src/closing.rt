ghost use Rattle.std.specs.Prelude.{◌≡◌, ◌⊎◌, ◌<◌, ◌≤◌, All, IfErr, OnOk};
ghost use Rattle.job_threads.specs.Closing.{AreCounted, AreHandedOver};
ghost use Rattle.job_threads.specs.declared.outcome.RunError.{RunError};

use crate::aim::Aim;
use crate::lanes::{Half, Way, close_ways};
use crate::outcome::RunError;
use beat_board::{Board, Maker, Reader, Seat};
use std::alloc::Global;
use std::sync::Wait;

// What the threads of a run give back, with which its lanes and its board are closed: the passes of the
// calling thread and of the workers, by their numbers, and the seats.
#[derive(Drop)]
pub(crate) struct Closing<L: Aim> {
    pub(crate) ours: Vec<Half<L>>,
    pub(crate) theirs: Vec<Half<L>>,
    pub(crate) seats: Vec<Seat>,
    pub(crate) maker: Maker,
    pub(crate) reader: Reader,
    ghost seats_of: { All (λ s. s.board ≡ L.board.board) seats.items },
    ghost maker_of: { maker.board ≡ L.board.board },
    ghost reader_of: { reader.board ≡ L.board.board },
}

// Closes the board and the lanes of a run all of whose threads came back.
pub(crate) fn close<L: Aim, R: Wait>(
    rt: &R,
    alloc: Global,
    board: Board,
    ways: Vec<Way>,
    closing: Closing<L>,
) -> Result<(), RunError>
    requires board { board ≡ L.board }
    requires ways { ways.items ≡ L.lanes }
    ensures beats { OnOk result (AreCounted closing.seats.items closing.reader) }
    ensures lanes { OnOk result (AreHandedOver closing.ours.items closing.theirs.items) }
    ensures err { IfErr result (λ e. (e ≡ RunError.Memory) ⊎ (e ≡ RunError.Torn 0)) }
{
    let Closing {
        ours,
        theirs,
        seats,
        maker,
        reader,
    } = closing;
    close_board(alloc, board, maker, seats, reader)?;
    close_ways(rt, alloc, ways, ours, theirs)
}

fn close_board(
    alloc: Global,
    board: Board,
    maker: Maker,
    seats: Vec<Seat>,
    reader: Reader,
) -> Result<(), RunError>
    requires maker { maker.board ≡ board.board }
    requires seats { All (λ s. s.board ≡ board.board) seats.items }
    requires reader { reader.board ≡ board.board }
    ensures beats { OnOk result (AreCounted seats.items reader) }
    ensures err { IfErr result (λ e. (e ≡ RunError.Memory) ⊎ (e ≡ RunError.Torn 0)) }
{
    let Ok(mut readers) = Vec::with_capacity(alloc, 1) else {
        return Err(RunError::Memory);
    };
    readers.push_reserved(reader);
    match board.close(maker, seats, readers) {
        Ok(_) => Ok(()),
        Err(_) => Err(RunError::Torn(0)),
    }
}
