ghost use Rattle.std.specs.Prelude.{IfErr, IfOk, length, ◌≡◌};
ghost use Rattle.price_certificate.specs.Certificate.{HasOneSize, claim};
ghost use Rattle.line_rules.specs.Reading.{IsReadingError};
ghost use Rattle.plan_text.specs.Reading.{HasFitLines, IsProblemOf, IsReadingOf};

use crate::built::{PlanText, ProblemText, build_plan_text, build_problem_text};
use crate::tidy_rows::TidyRows;
use line_rules::{Purpose, ReadingError, read_lines};
use std::alloc::Global;

/// The problem, plan and prices that the lines of a text declare, or the text's least fault. The value
/// borrows its names from the text.
pub fn read_plan(alloc: Global, text: &[u8]) -> Result<PlanText<'_>, ReadingError>
    ensures ok { IfOk result (IsReadingOf text.entry.now) }
    ensures sized { IfOk result (λ v. HasOneSize (claim v.problem v.plan.starts v.prices) v.plan.workers) }
    ensures err { IfErr result (IsReadingError Purpose.Checking text.entry.now) }
{
    let known = read_lines(alloc, Purpose::Checking, text)?;
    let rows = TidyRows::new(&known);
    Ok(build_plan_text(alloc, &rows)?)
}

/// The problem that the lines of a text to plan from declare, or the text's least fault. The value
/// borrows its names from the text.
pub fn read_problem(alloc: Global, text: &[u8]) -> Result<ProblemText<'_>, ReadingError>
    ensures ok { IfOk result (IsProblemOf text.entry.now) }
    ensures fit { IfOk result (λ _. HasFitLines Purpose.Planning text.entry.now) }
    ensures splits { IfOk result (λ v. length v.splits ≡ length v.problem.splits) }
    ensures workers { IfOk result (λ v. length v.workers ≡ length v.problem.workers) }
    ensures err { IfErr result (IsReadingError Purpose.Planning text.entry.now) }
{
    let known = read_lines(alloc, Purpose::Planning, text)?;
    let rows = TidyRows::new(&known);
    Ok(build_problem_text(alloc, &rows)?)
}
