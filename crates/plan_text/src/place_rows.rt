ghost use Rattle.std.specs.Prelude.{◌≡◌, ◌<◌, All, IfOk, drop, length, map};
ghost use Rattle.text_lines.specs.Texts.{number_of};
ghost use Rattle.line_shapes.specs.declared.keyword.Keyword.TheVariants.{Places, Worker};
ghost use Rattle.line_rules.specs.Known.{nth_row, rows_of};
ghost use Rattle.price_certificate.specs.Places.{IsFitRow};
ghost use Rattle.plan_text.specs.Names.{names_of};
ghost use Rattle.plan_text.specs.Tidy.{IsAtMost};
ghost use Rattle.plan_text.specs.Value.{declared_places, places_at, places_told};

use crate::tidy_rows::TidyRows;
use line_rules::Row;
use line_shapes::Keyword;
use price_certificate::PlacePrices;
use std::alloc::{AllocError, Global};
use text_lines::value_in;

/// The prices of places that the rows of a text declare. The only error is want of memory; where no row has such
/// prices, none is asked for.
pub fn build_places(alloc: Global, rows: &TidyRows<'_, '_>) -> Result<PlacePrices, AllocError>
    ensures { IfOk result (λ places. places ≡ declared_places rows.now) }
{
    rows.are_tidy();
    if rows.count(Keyword::Places) == 0 {
        return Ok(PlacePrices::free(alloc));
    }
    let list = build_rows(alloc, rows)?;
    match PlacePrices::from_rows(list) {
        Some(places) => Ok(places),
        None => unreachable!(),
    }
}

// The prices of the places of each worker.
fn build_rows(alloc: Global, rows: &TidyRows<'_, '_>) -> Result<Vec<Vec<u64>>, AllocError>
    ensures { IfOk result (λ list. map (λ row. row.items) list.items
        ≡ map (places_at (rows_of Places rows.now)) (names_of Worker rows.now)) }
{
    let count = rows.count(Keyword::Worker);
    let mut list = Vec::with_capacity(alloc, count)?;
    for worker in 0..count {
        let row = build_row(alloc, rows, rows.word(Keyword::Worker, worker, 0))?;
        list.push(row)?;
    }
    Ok(list)
}

// The prices of the places of a worker, none where no row has them.
fn build_row(alloc: Global, rows: &TidyRows<'_, '_>, worker: &str) -> Result<Vec<u64>, AllocError>
    ensures { IfOk result (λ prices. prices.items ≡ places_at (rows_of Places rows.now) worker.now) }
{
    match rows.number(Keyword::Places, worker) {
        Some(row) => build_prices(alloc, rows, row),
        None => Ok(Vec::new(alloc)),
    }
}

// The prices in a row.
fn build_prices(alloc: Global, rows: &TidyRows<'_, '_>, row: usize) -> Result<Vec<u64>, AllocError>
    requires { row < length (rows_of Places rows.now) }
    ensures { IfOk result (λ prices. prices.items ≡ places_told (nth_row Places row rows.now)) }
{
    rows.are_tidy();
    let words = price_words(rows, row);
    let mut prices = Vec::with_capacity(alloc, words.len())?;
    for word in words {
        prices.push(price_of(word))?;
    }
    Ok(prices)
}

// The words of the prices in a row.
fn price_words<'r, 't>(rows: &TidyRows<'r, 't>, row: usize) -> &'r [&'t str]
    requires { row < length (rows_of Places rows.now) }
    ensures { map (λ w. w.now) result.now ≡ drop 1 (nth_row Places row rows.now).words }
{
    rows.are_tidy();
    match rows.row(Keyword::Places, row) {
        Row::Line(line) => &line.words[1..],
        Row::Bar(_) => unreachable!(),
    }
}

// The price that the word stands for.
fn price_of(word: &str) -> u64
    requires { IsAtMost word.now 68719476736 }
    ensures { result ≡ number_of word.now }
{
    match value_in(word) {
        Some(price) => price,
        None => unreachable!(),
    }
}
