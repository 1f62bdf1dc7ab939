//! Prices of places as a caller's arrays.
ghost use Rattle.std.specs.Prelude.{◌≡◌, ◌+◌, ◌≤◌, ◌↔◌, IsTrue, length, map, All, IfOk};
ghost use Rattle.rack_tree.specs.declared.TheConstants.{MAX_WORKERS};
ghost use Rattle.price_certificate.specs.Places.{IsFitRow};
ghost use Rattle.wave_arrays.specs.Places.{IsFirstUnfit};
ghost use Rattle.wave_arrays.specs.PlacePrices.{ArePlacesFit, IsPlaceRowFit, place_prices_of, places_in};

use price_certificate::{MAX_PLACE_PRICE, PlacePrices};
use std::alloc::{AllocError, Global};
use wave_problem::MAX_SLOTS;

/// The prices of a worker's places: so many, which stand in the array of all prices from a place on.
#[repr(C)]
#[derive(Clone, Copy, Debug, PartialEq, Eq)]
pub struct PlaceRow {
    pub first_price: u32,
    pub price_count: u32,
}

/// The prices of all places, in arrays that are lent: a row for each worker, and the prices. Rows may share
/// prices.
#[repr(C)]
#[derive(Drop)]
pub struct PlaceRows<'a> {
    pub rows: &'a [PlaceRow],
    pub prices: &'a [u64],
}

/// Whether there is a row for each of so many workers, and each is fit. It takes no memory.
pub fn are_places_fit(places: &PlaceRows<'_>, workers: usize) -> bool
    ensures { IsTrue result ↔ ArePlacesFit workers places.now }
{
    places.rows.len() == workers && unfit_place_row(places).is_none()
}

/// The first row that has too many prices, prices past the last, one that is too great, or one that falls.
pub fn unfit_place_row(places: &PlaceRows<'_>) -> Option<usize>
    ensures { IsFirstUnfit (IsPlaceRowFit places.now.prices.now) places.now.rows.now result }
{
    let prices = places.prices;
    places
        .rows
        .iter()
        .position(|row| !is_place_row_fit(prices, row))
}

fn is_place_row_fit(prices: &[u64], row: &PlaceRow) -> bool
    ensures { IsTrue result ↔ IsPlaceRowFit prices.now row.now }
{
    row.price_count as usize <= MAX_SLOTS as usize
        && row.first_price as usize + row.price_count as usize <= prices.len()
        && is_rising(prices_of_row(prices, row))
}

// Whether the prices are small enough, and none is lower than the one before.
fn is_rising(prices: &[u64]) -> bool
    ensures { IsTrue result ↔ IsFitRow prices.now }
{
    prices.iter().all(|price| *price <= MAX_PLACE_PRICE) && prices.is_sorted()
}

fn prices_of_row<'p>(prices: &'p [u64], row: &PlaceRow) -> &'p [u64]
    requires { row.now.first_price + row.now.price_count ≤ length prices.now }
    ensures { result.now ≡ place_prices_of prices.now row.now }
{
    let first = row.first_price as usize;
    &prices[first..first + row.price_count as usize]
}

/// The prices that the rows say.
pub fn build_places(alloc: Global, places: &PlaceRows<'_>) -> Result<PlacePrices, AllocError>
    requires few { length places.now.rows.now ≤ MAX_WORKERS }
    requires fit { All (IsPlaceRowFit places.now.prices.now) places.now.rows.now }
    ensures { IfOk result (λ prices. prices ≡ places_in places.now) }
{
    let lists = lists_of(alloc, places)?;
    match PlacePrices::from_rows(lists) {
        Some(prices) => Ok(prices),
        None => unreachable!(),
    }
}

// A list for each worker.
fn lists_of(alloc: Global, places: &PlaceRows<'_>) -> Result<Vec<Vec<u64>>, AllocError>
    requires { All (IsPlaceRowFit places.now.prices.now) places.now.rows.now }
    ensures { IfOk result (λ lists. map (λ list. list.items) lists.items ≡ places_in places.now) }
{
    let mut lists = Vec::with_capacity(alloc, places.rows.len())?;
    for row in places.rows {
        let list = prices_of_row(places.prices, row).to_vec(alloc)?;
        lists.push(list)?;
    }
    Ok(lists)
}
