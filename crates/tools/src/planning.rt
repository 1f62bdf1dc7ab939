ghost use Rattle.std.specs.Prelude.{◌≡◌, ◌≢◌, ◌≤◌, ◌++◌, ◌↔◌, Err, IfOk, OnOk, length, string_bytes};
ghost use Rattle.rack_tree.specs.declared.TheConstants.{MAX_WORKERS};
ghost use Rattle.wave_problem.specs.declared.TheConstants.{MAX_SPLITS};
ghost use Rattle.wave_problem.specs.Assignment.{pairs_of};
ghost use Rattle.command_runner.specs.CommandRun.{HasRun, NoText, AnyLines};
ghost use Rattle.price_certificate.specs.Certificate.{HasOneSize, charged_claim, claim};
ghost use Rattle.price_certificate.specs.Places.{IsBestByCharge};
ghost use Rattle.certificate_checker.specs.Verdict.{IsCertified};
ghost use Rattle.plan_text.specs.Report.{planned_by, start_lines};
ghost use Rattle.tools.specs.CheckAnswer.{IsBestWith};
ghost use Rattle.tools.specs.PlanAnswer.{AnswersProblem, IsMadeWith, IsPastWith, PlanAnswer, asked_prices};
ghost use Rattle.tools.specs.OneAnswer.{one_plan_answer};

use crate::program_end::PlanEnd;
use command_line::asked::PlanOptions;
use command_runner::{Command, NoAnswer, ToolError, run_command};
use flow_network::NetworkKind;
use line_rules::fault_answer;
use plan_text::plan_report::{add_prices, add_starts, planned};
use plan_text::{ProblemText, read_problem};
use price_certificate::Prices;
use std::alloc::{AllocError, Global};
use std::io::{Read, Write};
use text_lines::TextFault;
use wave_planner::{PlanError, Planned, plan_places, plan_with};

/// Reads a problem, and writes a best plan of its map starts, made over the network of the options, with
/// prices if they ask for them, or the text's least fault. All lines are made before their first byte is
/// written. The starts and prices, put with a line `plan` in front of the problem's line `end`, are a text
/// that `check` certifies, where it is no longer than a text may be. Where a direct network is asked for, and
/// the problem has more splits or workers than such a network takes, or its places have prices, nothing is
/// written.
pub fn plan<R: Read, W: Write>(
    alloc: Global,
    reader: &mut R,
    writer: &mut W,
    options: PlanOptions,
) -> Result<PlanEnd, ToolError>
    ensures ran { HasRun (λ text. PlanAnswer text options.network options.prices) NoText
        (R.remaining reader.old) (R.remaining reader.new)
        (W.contents writer.old) (W.contents writer.new) result }
    ensures never_full { result ≢ Err ToolError.HistoryFull }
{
    run_command(&Planner(options), alloc, reader, writer)
}

/// Planning, by these options.
#[derive(Drop)]
pub struct Planner(PlanOptions);

impl Command for Planner {
    type End = PlanEnd;

    type Lines = String;

    ghost Answers = { λ planner text. PlanAnswer text planner.0.network planner.0.prices };

    ghost Alike = { AnyLines };

    ghost one_answer = { λ planner. one_plan_answer planner.0.network planner.0.prices };

    fn answer(
        &self,
        alloc: Global,
        text: &[u8],
    ) -> Result<(String, Result<PlanEnd, TextFault>), NoAnswer> {
        match read_problem(alloc, text) {
            Ok(read) => planned_answer(alloc, &read, self.0),
            Err(error) => {
                let (line, fault) = fault_answer(alloc, error)?;
                Ok((line, Err(fault)))
            }
        }
    }
}

// The answer to a problem that was read.
fn planned_answer(
    alloc: Global,
    read: &ProblemText<'_>,
    options: PlanOptions,
) -> Result<(String, Result<PlanEnd, TextFault>), NoAnswer>
    requires splits { length read.now.splits ≡ length read.now.problem.splits }
    requires workers { length read.now.workers ≡ length read.now.problem.workers }
    ensures answer { IfOk result (λ given.
        AnswersProblem read.now options.network options.prices given.1 (string_bytes given.0)) }
    ensures never_full { result ≢ Err NoAnswer.HistoryFull }
{
    // (a law: there are few workers, and no price is past what can be read back)
    read.problem.limits();
    read.places.limits();
    match best_plan(alloc, read, options.network) {
        Ok(best) => {
            let lines = lines_on(alloc, read, &best, options.prices)?;
            Ok((lines, Ok(PlanEnd::Planned)))
        }
        Err(PlanError::Size) => Ok((String::new(alloc), Ok(PlanEnd::PastNetwork))),
        Err(PlanError::Memory) => Err(NoAnswer::Memory),
    }
}

// A best plan of what was read, over a network of this kind.
fn best_plan(
    alloc: Global,
    read: &ProblemText<'_>,
    network: NetworkKind,
) -> Result<Planned, PlanError>
    ensures over { IfOk result (λ planned.
        IsMadeWith network read.now.places read.now.problem planned.plan.starts planned.prices) }
    ensures sizes { IfOk result (λ planned.
        HasOneSize (claim read.now.problem planned.plan.starts planned.prices) planned.plan.workers) }
    ensures certified { IfOk result (λ planned. IsCertified
        (charged_claim read.now.problem read.now.places planned.plan.starts planned.prices) planned.certified) }
    ensures best { IfOk result (λ planned.
        IsBestWith read.now.places read.now.problem (pairs_of planned.plan.starts)) }
    ensures size { (result ≡ Err PlanError.Size) ↔ IsPastWith network read.now.places read.now.problem }
{
    if read.places.is_free() {
        return plan_with(alloc, &read.problem, network);
    }
    match network {
        NetworkKind::Direct => Err(PlanError::Size),
        NetworkKind::Racks => plan_charged(alloc, read),
    }
}

// A best plan of what was read, by its byte-distance and the prices of its places.
fn plan_charged(alloc: Global, read: &ProblemText<'_>) -> Result<Planned, PlanError>
    ensures sizes { IfOk result (λ planned.
        HasOneSize (claim read.now.problem planned.plan.starts planned.prices) planned.plan.workers) }
    ensures certified { IfOk result (λ planned. IsCertified
        (charged_claim read.now.problem read.now.places planned.plan.starts planned.prices) planned.certified) }
    ensures best { IfOk result (λ planned.
        IsBestByCharge read.now.places read.now.problem (pairs_of planned.plan.starts)) }
    ensures size { result ≢ Err PlanError.Size }
{
    match plan_places(alloc, &read.problem, &read.places) {
        Ok(planned) => Ok(planned),
        Err(_) => Err(PlanError::Memory),
    }
}

// The lines on this plan, with the prices if they are asked for.
fn lines_on(
    alloc: Global,
    read: &ProblemText<'_>,
    best: &Planned,
    asked: bool,
) -> Result<String, AllocError>
    requires starts { length read.now.splits ≡ length best.now.plan.starts }
    requires splits { length read.now.splits ≡ length best.now.prices.splits }
    requires workers { length read.now.workers ≡ length best.now.prices.workers }
    requires few_splits { length read.now.splits ≤ MAX_SPLITS }
    requires few_workers { length read.now.workers ≤ MAX_WORKERS }
    ensures { IfOk result (λ lines. string_bytes lines
        ≡ (planned_by read.now.places best.now.certified.count best.now.certified.cost best.now.certified.places
        ++ start_lines read.now.splits read.now.workers best.now.plan.starts)
        ++ asked_prices asked read.now.splits read.now.workers best.now.prices) }
{
    let said = best.certified();
    let mut lines = planned(alloc, &read.places, said.count, said.cost, said.places)?;
    add_starts(&mut lines, &read.splits, &read.workers, best.plan())?;
    add_asked(&mut lines, read, best.prices(), asked)?;
    Ok(lines)
}

// Appends the prices, if they are asked for.
fn add_asked(
    lines: &mut String,
    read: &ProblemText<'_>,
    prices: &Prices,
    asked: bool,
) -> Result<(), AllocError>
    requires splits { length read.now.splits ≡ length prices.now.splits }
    requires workers { length read.now.workers ≡ length prices.now.workers }
    requires few_splits { length read.now.splits ≤ MAX_SPLITS }
    requires few_workers { length read.now.workers ≤ MAX_WORKERS }
    ensures { OnOk result (string_bytes lines.new
        ≡ string_bytes lines.old ++ asked_prices asked read.now.splits read.now.workers prices.now) }
{
    if asked {
        add_prices(lines, &read.splits, &read.workers, prices)?;
    }
    Ok(())
}
