ghost use Rattle.std.specs.Prelude.{◌≡◌, ◌-◌, ◌*◌, ◌<◌, ◌≤◌, ◌↔◌, [], All, IfOk, IfSome, IsSome, IsTrue};
ghost use Rattle.std.specs.Prelude.{length, map, min, slice_index_or};
ghost use Rattle.rack_tree.specs.declared.TheConstants.{MAX_WORKERS};
ghost use Rattle.wave_problem.specs.declared.TheConstants.{MAX_SLOTS};
ghost use Rattle.price_certificate.specs.declared.TheConstants.{MAX_PLACE_PRICE};
ghost use Rattle.price_certificate.specs.Places.{all_places, place_price, places_cost, prices_of};
ghost use Rattle.price_certificate.specs.Places.{ArePlacePrices, IsFitRow};
ghost use Rattle.wave_problem.specs.Wave.{worker_at};

use crate::MAX_PLACE_PRICE;
use node_ids::WorkerNo;
use rack_tree::MAX_WORKERS;
use std::alloc::{AllocError, Global};
use std::marker::Model;
use wave_problem::{MAX_SLOTS, Problem};

/// What the split that takes a place on a worker is charged beside its byte-distance: of each worker the prices
/// of its places, rising. A place past the last price costs as much as that. The places of a worker without
/// prices are free, and so are the places of a worker past the last list.
#[derive(Drop)]
pub struct PlacePrices {
    rows: Vec<Vec<u64>>,
}

impl Model for PlacePrices {
    ghost use Rattle.std.specs.Prelude.{List, map, ℕ};
    ghost use Rattle.price_certificate.specs.Places.{ArePlacePrices};

    ghost Value = { List (List ℕ) };

    ghost view = { λ p. map (λ row. row.items) p.rows.items };

    ghost invariant = { λ p. ArePlacePrices (map (λ row. row.items) p.rows.items) };
}

impl PlacePrices {
    /// All places are free. It takes no memory.
    pub fn free(alloc: Global) -> PlacePrices
        ensures { result ≡ [] }
    {
        PlacePrices {
            rows: Vec::new(alloc),
        }
    }

    /// Whether all places are free because none has a price.
    pub fn is_free(&self) -> bool
        ensures { IsTrue result ↔ (self.now ≡ []) }
    {
        self.rows.is_empty()
    }

    /// These prices, of each worker by rising number; None where there are more workers than a cluster has, or
    /// where a price is too great or lower than the one before. It takes no memory.
    pub fn from_rows(rows: Vec<Vec<u64>>) -> Option<PlacePrices>
        ensures some { IsSome result ↔ ArePlacePrices (map (λ row. row.items) rows.items) }
        ensures rows { IfSome result (λ places. places ≡ map (λ row. row.items) rows.items) }
    {
        if are_place_prices(&rows) {
            Some(PlacePrices { rows })
        } else {
            None
        }
    }

    /// The same prices once more.
    pub fn copy(&self, alloc: Global) -> Result<PlacePrices, AllocError>
        ensures { IfOk result (λ places. places ≡ self.now) }
    {
        let mut rows = Vec::with_capacity(alloc, self.rows.len())?;
        for row in &self.rows {
            let copy = row.to_vec(alloc)?;
            rows.push(copy)?;
        }
        Ok(PlacePrices { rows })
    }

    /// What holds of all prices of places.
    pub fn limits(&self)
        ensures { ArePlacePrices self.now }
    {
        // (reads the rows, of which the invariant speaks)
        let _few = self.rows.len();
    }

    /// The price of a place of the worker, the first being 0.
    pub fn price(&self, worker: WorkerNo, place: usize) -> u64
        ensures price { result ≡ place_price self.now worker place }
        ensures most { result ≤ MAX_PLACE_PRICE }
    {
        price_in(self.row(worker), place)
    }

    // The prices of a worker.
    fn row(&self, worker: WorkerNo) -> &[u64]
        ensures row { result.now ≡ prices_of self.now worker }
        ensures fit { IsFitRow result.now }
    {
        match self.rows.get(worker.index()) {
            Some(row) => row,
            None => &[],
        }
    }

    /// What the first places of the worker cost together, so many.
    pub fn cost(&self, worker: WorkerNo, places: usize) -> u64
        requires { places ≤ MAX_SLOTS }
        ensures cost { result ≡ places_cost self.now worker places }
        ensures most { result ≤ MAX_SLOTS * MAX_PLACE_PRICE }
    {
        let mut cost = 0;
        for place in 0..places {
            cost += self.price(worker, place);
        }
        cost
    }

    /// What the places of all free slots of the problem cost together.
    pub fn total(&self, problem: &Problem) -> u64
        ensures total { result ≡ all_places self.now problem.now }
        ensures most { result ≤ MAX_WORKERS * (MAX_SLOTS * MAX_PLACE_PRICE) }
    {
        let mut total = 0;
        for i in 0..self.rows.len() {
            total += self.cost_of_slots(problem, i);
        }
        total
    }

    // What the places of a worker's free slots cost together.
    fn cost_of_slots(&self, problem: &Problem, i: usize) -> u64
        requires { i < MAX_WORKERS }
        ensures cost { result ≡ places_cost self.now i (worker_at problem.now i).free }
        ensures most { result ≤ MAX_SLOTS * MAX_PLACE_PRICE }
    {
        if i >= problem.workers() {
            return 0;
        }
        let worker = WorkerNo::new(i as u16);
        self.cost(worker, usize::from(problem.free(worker)))
    }
}

fn are_place_prices(rows: &[Vec<u64>]) -> bool
    ensures { IsTrue result ↔ ArePlacePrices (map (λ row. row.items) rows.now) }
{
    rows.len() <= MAX_WORKERS && are_fit(rows)
}

// Whether the prices of each worker are small enough, and rise.
fn are_fit(rows: &[Vec<u64>]) -> bool
    ensures { IsTrue result ↔ All (λ row. IsFitRow row.items) rows.now }
{
    for i in 0..rows.len() {
        if !is_fit(&rows[i]) {
            return false;
        }
    }
    true
}

fn is_fit(prices: &[u64]) -> bool
    ensures { IsTrue result ↔ IsFitRow prices.now }
{
    prices.iter().all(|price| *price <= MAX_PLACE_PRICE) && prices.is_sorted()
}

// The price of a place in a row.
fn price_in(prices: &[u64], place: usize) -> u64
    requires { IsFitRow prices.now }
    ensures price { result ≡ slice_index_or prices.now (min place (length prices.now - 1)) 0 }
    ensures most { result ≤ MAX_PLACE_PRICE }
{
    match prices.get(place.min(prices.len().saturating_sub(1))) {
        Some(price) => *price,
        None => 0,
    }
}
