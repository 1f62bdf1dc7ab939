ghost use Rattle.std.specs.Prelude.{◌≡◌, ◌↔◌, [], IfOk, IsTrue, MatchOption, map};
ghost use Rattle.std.specs.List.{All};
ghost use Rattle.line_shapes.specs.Lines.{HasTailApart, stated};
ghost use Rattle.line_shapes.specs.declared.keyword.Keyword.TheVariants.{Split, Worker};
ghost use Rattle.line_rules.specs.Entered.{AreFit};
ghost use Rattle.line_rules.specs.Holders.{AreHoldersOf, AreNumbersOf, IsHeld, IsWorker};
ghost use Rattle.line_rules.specs.Known.{HasNumber};

use crate::edition::Version;
use crate::fit::is_fit;
use crate::rows::{Rows, short_number};
use line_shapes::Keyword;
use std::alloc::AllocError;

// How many words of a split's line stand before its holders.
const FIRST_HOLDER: usize = 2;

/// Puts the numbers of the holders of a line into a list, in place of what it has: none, where the line is no
/// split's. False is answered where a holder is no worker.
#[inline(always)]
pub fn find_holders(
    rows: &Rows<'_>,
    keyword: Keyword,
    words: &[&str],
    numbers: &mut Vec<u32>,
) -> Result<bool, AllocError>
    ensures held { IfOk result (λ held. IsTrue held ↔ IsHeld rows.now (stated keyword words.now)) }
    ensures numbers { IfOk result (λ held. IsTrue held
        → AreHoldersOf rows.now (stated keyword words.now) numbers.new.items) }
{
    numbers.clear();
    match keyword {
        Keyword::Split => put_numbers(rows, &words[words.len().min(FIRST_HOLDER)..], numbers),
        _ => Ok(true),
    }
}

/// Whether the words before the holders of a split's line are fit.
#[inline(always)]
pub fn is_fit_before_holders(rows: &Rows<'_>, version: Version, words: &[&str]) -> bool
    ensures { IsTrue result → IsHeld rows.now (stated Split words.now)
        → AreFit version rows.now (stated Split words.now) }
{
    if words.len() < FIRST_HOLDER {
        return false;
    }
    if !is_fit(rows, version, Keyword::Split.place(0), words[0]) {
        return false;
    }
    is_fit(rows, version, Keyword::Split.place(1), words[1])
}

/// Whether no holder stands twice in a split's line, by the numbers of its holders. False is answered of
/// every other line.
#[inline(always)]
pub fn are_holders_apart(rows: &Rows<'_>, keyword: Keyword, words: &[&str], numbers: &[u32]) -> bool
    requires { AreHoldersOf rows.now (stated keyword words.now) numbers.now }
    ensures { IsTrue result → HasTailApart (stated keyword words.now) }
{
    match keyword {
        Keyword::Split => rows.are_workers_apart(numbers),
        _ => false,
    }
}

// Puts the numbers of the workers of these names into an empty list, if each is a worker's.
fn put_numbers(rows: &Rows<'_>, names: &[&str], numbers: &mut Vec<u32>) -> Result<bool, AllocError>
    requires { numbers.old.items ≡ [] }
    ensures held { IfOk result (λ held. IsTrue held ↔ All (IsWorker rows.now) (map (λ n. n.now) names.now)) }
    ensures numbers { IfOk result (λ held. IsTrue held
        → AreNumbersOf rows.now (map (λ n. n.now) names.now) numbers.new.items) }
{
    numbers.reserve(names.len())?;
    for i in 0..names.len() {
        let Some(number) = worker_number(rows, names[i]) else {
            return Ok(false);
        };
        numbers.push_reserved(short_number(number)?);
    }
    Ok(true)
}

// The number of the worker of this name. Most often it stands with the first line that was entered by the
// name.
#[inline(always)]
fn worker_number(rows: &Rows<'_>, name: &str) -> Option<usize>
    ensures { MatchOption result (IsWorker rows.now name.now → ⊥)
        (λ n. IsWorker rows.now name.now × HasNumber rows.now (Worker, name.now, []) n) }
{
    if name.is_empty() {
        return None;
    }
    match rows.first_of(Keyword::Worker, name) {
        Some(number) => Some(number as usize),
        None => rows.number(Keyword::Worker, name, ""),
    }
}
