//! Where the rows are not fit for which a call writes nothing.
ghost use Rattle.std.specs.Prelude.{◌≡◌, ◌≤◌, IsSome, None, Some};
ghost use Rattle.wave_arrays.specs.PlacePrices.{IsPlaceRowFit};
ghost use Rattle.wave_arrays.specs.Places.{IsFirstUnfit};
ghost use Rattle.wave_arrays.specs.Rows.{narrow_rows, wide_rows};
ghost use Rattle.mrjob_c.specs.Places.{IsUnfitAt};

use wave_arrays::{
    NarrowWave, PlaceRows, WaveRows, WideWave, unfit_holders, unfit_pair, unfit_place_row,
    unfit_rack, unfit_split, unfit_start, unfit_worker,
};

/// Tells where the first row stands that is not fit, of the kind that a status is of: 1 where there is one,
/// whose place is written, and else 0.
#[unsafe(no_mangle)]
pub extern "C" fn mrjob_unfit(
    wave: &NarrowWave<'_>,
    starts: &[u16],
    status: u32,
    place: &mut usize,
) -> u32
    ensures found { result ≡ 1 → IsUnfitAt (narrow_rows wave.now) starts.now status (Some place.new) }
    ensures none { result ≡ 0 → IsUnfitAt (narrow_rows wave.now) starts.now status None }
    ensures kept { result ≡ 0 → place.new ≡ place.old }
    ensures within { result ≤ 1 }
{
    tell(first_unfit(&wave.rows(), starts, status), place)
}

/// The same of a wide wave.
#[unsafe(no_mangle)]
pub extern "C" fn mrjob_unfit_wide(
    wave: &WideWave<'_>,
    starts: &[u16],
    status: u32,
    place: &mut usize,
) -> u32
    ensures found { result ≡ 1 → IsUnfitAt (wide_rows wave.now) starts.now status (Some place.new) }
    ensures none { result ≡ 0 → IsUnfitAt (wide_rows wave.now) starts.now status None }
    ensures kept { result ≡ 0 → place.new ≡ place.old }
    ensures within { result ≤ 1 }
{
    tell(first_unfit(&wave.rows(), starts, status), place)
}

/// Tells where the first row of prices of places stands that is not fit, in the same way.
#[unsafe(no_mangle)]
pub extern "C" fn mrjob_unfit_places(places: &PlaceRows<'_>, place: &mut usize) -> u32
    ensures found { result ≡ 1
        → IsFirstUnfit (IsPlaceRowFit places.now.prices.now) places.now.rows.now (Some place.new) }
    ensures none { result ≡ 0 → IsFirstUnfit (IsPlaceRowFit places.now.prices.now) places.now.rows.now None }
    ensures kept { result ≡ 0 → place.new ≡ place.old }
    ensures within { result ≤ 1 }
{
    tell(unfit_place_row(places), place)
}

fn tell(found: Option<usize>, place: &mut usize) -> u32
    ensures found { result ≡ 1 → found ≡ Some place.new }
    ensures none { result ≡ 0 → found ≡ None }
    ensures kept { result ≡ 0 → place.new ≡ place.old }
    ensures within { result ≤ 1 }
{
    match found {
        Some(found) => {
            *place = found;
            1
        }
        None => 0,
    }
}

fn first_unfit(rows: &WaveRows<'_>, starts: &[u16], status: u32) -> Option<usize>
    ensures { IsUnfitAt rows.now starts.now status result }
{
    match status {
        2 => unfit_rack(rows),
        3 => unfit_worker(rows),
        4 => unfit_split(rows),
        5 => unfit_pair(rows),
        6 => unfit_holders(rows),
        8 => unfit_start(starts, rows.workers.len()),
        _ => None,
    }
}
