//! What a call answers where it writes nothing.
ghost use Rattle.std.specs.Prelude.{◌≡◌, ◌≤◌, ◌↔◌, IsTrue};
ghost use Rattle.mrjob_c.specs.Status.{AreSized, status_of};
ghost use Rattle.mrjob_c.specs.declared.status.Fault.TheVariants.{Memory};

use std::alloc::AllocError;
use wave_arrays::{RowsError, WaveRows};

pub(crate) const OK: u32 = 0;

pub(crate) const REFUSED: u32 = 1;

// Why nothing was written, in the order in which it is tested.
#[derive(Clone, Copy, Debug, PartialEq, Eq)]
pub(crate) enum Fault {
    // The rows are not fit.
    Rows(RowsError),
    // The starts or prices are not as many as the splits or the workers.
    Length,
    // A start is on no worker.
    Starts,
    // There is no such network, or it is the direct one, and that is not made for so many splits or workers.
    Network,
    // There is not one row of prices of places for each worker, or one is not fit.
    Places,
    // There is no memory.
    Memory,
}

impl From<AllocError> for Fault {
    ghost from_gives = { λ _ result. result ≡ Memory };

    fn from(_: AllocError) -> Self {
        Fault::Memory
    }
}

// The number of a fault.
pub(crate) fn status_of(fault: Fault) -> u32
    ensures number { result ≡ status_of fault }
    ensures least { 2 ≤ result }
    ensures most { result ≤ 11 }
{
    match fault {
        Fault::Rows(RowsError::Racks) => 2,
        Fault::Rows(RowsError::Workers) => 3,
        Fault::Rows(RowsError::Splits) => 4,
        Fault::Rows(RowsError::Bars) => 5,
        Fault::Rows(RowsError::Holders) => 6,
        Fault::Length => 7,
        Fault::Starts => 8,
        Fault::Network => 9,
        Fault::Memory => 10,
        Fault::Places => 11,
    }
}

// Whether so many starts and prices are as many as the splits and the workers.
pub(crate) fn are_sized(rows: &WaveRows<'_>, starts: usize, splits: usize, workers: usize) -> bool
    ensures { IsTrue result ↔ AreSized rows.now starts splits workers }
{
    starts == rows.splits.len() && splits == rows.splits.len() && workers == rows.workers.len()
}
