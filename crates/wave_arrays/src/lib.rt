//! Waves, plans and prices as arrays of numbers that a caller owns.
//!
//! `test_rows` tests the rows kind by kind, before any memory is taken, and finds the first row that is not
//! fit. `build_problem` makes of fit rows the one problem that `specs/Rows.antt` names, or finds no memory.
//! Other calls make a plan and prices of a caller's arrays, and write a plan and prices into them. A wave is
//! narrow or wide, as its barred pairs number splits in 16 bits or in 32; either gives the same `WaveRows`.
//! Prices of places come in `PlaceRows`, which `are_places_fit` tests and `build_places` takes. The crate
//! stands on `wave_problem` and `price_certificate`; `mrjob_c` offers it to callers in C.
#![tactic(auto)]

mod array_rows;
mod build;
mod claims;
mod fit;
mod place_rows;
mod places;

pub use array_rows::{
    BarredRows, NarrowWave, PairRow, SplitRow, WaveRows, WidePairRow, WideWave, WorkerRow,
};
pub use build::{build_problem, the_barred_are_those_listed};
pub use claims::{
    NO_WORKER, are_starts_fit, plan_of, prices_of, write_split_prices, write_starts,
    write_worker_prices,
};
pub use fit::{RowsError, test_rows};
pub use place_rows::{PlaceRow, PlaceRows, are_places_fit, build_places, unfit_place_row};
pub use places::{unfit_holders, unfit_pair, unfit_rack, unfit_split, unfit_start, unfit_worker};

/// How many splits a narrow wave has at most: as many as 16 bits number, with one number kept for none.
pub const MAX_NARROW_SPLITS: usize = 65_535;
