ghost use Rattle.std.specs.Prelude.{◌≡◌, ◌≤◌, [], IfOk, IfSome, IsTrue, length, string_bytes};
ghost use Rattle.rack_tree.specs.declared.TheConstants.{MAX_WORKERS};
ghost use Rattle.wave_problem.specs.declared.TheConstants.{MAX_SPLITS};
ghost use Rattle.wave_text.specs.Told.{IsSameWave, TellsWave};

use crate::comparing::{are_same_prices, are_same_starts, is_same_wave};
use crate::writing::{add_plan, add_problem};
use line_rules::KnownLines;
use plan_text::{PlanText, ReadingError, read_plan};
use price_certificate::{Prices, are_of_one_size};
use std::alloc::{AllocError, Global};
use wave_problem::{Plan, Problem};

/// A wave as a text to check: the problem, with the racks and the names of these rows, `plan`, the starts and
/// the prices. None where the text does not read back as the wave, as where it is longer than a text may be.
pub fn wave_text(
    alloc: Global,
    known: &KnownLines<'_>,
    problem: &Problem,
    plan: &Plan,
    prices: &Prices,
) -> Result<Option<String>, AllocError>
    ensures { IfOk result (λ told. IfSome told (λ text.
        TellsWave (string_bytes text) problem.now plan.now.starts prices.now)) }
{
    problem.limits();
    if !are_of_one_size(problem, plan, prices) {
        return Ok(None);
    }
    let text = written(alloc, known, problem, plan, prices)?;
    if reads_back(alloc, text.as_bytes(), problem, plan, prices)? {
        Ok(Some(text))
    } else {
        Ok(None)
    }
}

// No contract says what is written: it is read back.
fn written(
    alloc: Global,
    known: &KnownLines<'_>,
    problem: &Problem,
    plan: &Plan,
    prices: &Prices,
) -> Result<String, AllocError>
    requires splits { length prices.now.splits ≤ MAX_SPLITS }
    requires workers { length prices.now.workers ≤ MAX_WORKERS }
{
    let mut text = String::new(alloc);
    add_problem(&mut text, known, problem)?;
    add_plan(&mut text, known.rows(), plan, prices)?;
    Ok(text)
}

// Whether the text has no fault, and declares this wave, these starts and these prices, and no prices of places.
fn reads_back(
    alloc: Global,
    text: &[u8],
    problem: &Problem,
    plan: &Plan,
    prices: &Prices,
) -> Result<bool, AllocError>
    requires splits { length prices.now.splits ≤ MAX_SPLITS }
    requires workers { length prices.now.workers ≤ MAX_WORKERS }
    ensures { IfOk result (λ told.
        IsTrue told → TellsWave text.now problem.now plan.now.starts prices.now) }
{
    match read_plan(alloc, text) {
        Ok(read) => Ok(is_told(&read, problem, plan, prices)),
        Err(ReadingError::Text(_)) => Ok(false),
        Err(ReadingError::Memory) => Err(AllocError),
    }
}

fn is_told(read: &PlanText<'_>, problem: &Problem, plan: &Plan, prices: &Prices) -> bool
    requires splits { length prices.now.splits ≤ MAX_SPLITS }
    requires workers { length prices.now.workers ≤ MAX_WORKERS }
    ensures wave { IsTrue result → IsSameWave read.now.problem problem.now }
    ensures starts { IsTrue result → read.now.plan.starts ≡ plan.now.starts }
    ensures prices { IsTrue result → read.now.prices ≡ prices.now }
    ensures places { IsTrue result → read.now.places ≡ [] }
{
    is_same_wave(&read.problem, problem)
        && are_same_starts(plan, &read.plan)
        && are_same_prices(prices, &read.prices)
        && read.places.is_free()
}
