ghost use Rattle.std.specs.Prelude.{◌≡◌, ◌≢◌, ⊤, Err, IfOk, Ok, OnErr, OnOk, string_bytes};
ghost use Rattle.std.specs.Thread.{IsSync};
ghost use Rattle.wave_problem.specs.Assignment.{pairs_of};
ghost use Rattle.price_certificate.specs.Certificate.{HasOneSize, IsFirstFailure, claim};
ghost use Rattle.certificate_checker.specs.Verdict.{IfFailed, IsCertified, IsVerdict, MayComparePairs};
ghost use Rattle.command_runner.specs.CommandRun.{HasRun, NoText, WroteItsAnswer};
ghost use Rattle.tools.specs.CheckAnswer.{CheckAnswer, IsBestWith, Judges, claim_of};
ghost use Rattle.tools.specs.OneAnswer.{one_check_answer};
ghost use Rattle.tools.specs.declared.program_end.CheckEnd.{CheckEnd};

use crate::program_end::CheckEnd;
use certificate_checker::{
    Certified, CheckError, certify, certify_on, certify_places, certify_places_on,
};
use command_runner::{Command, NoAnswer, ToolError, run_command};
use line_rules::fault_answer;
use plan_text::check_report::{certified, refused};
use plan_text::{PlanText, read_plan};
use price_certificate::Condition;
use std::alloc::{AllocError, Global};
use std::io::{Read, Write};
use std::thread::Threads;
use text_lines::TextFault;

/// Reads a problem, a plan and prices, and writes whether the prices certify the plan, or the text's
/// least fault. All of the line is made before its first byte is written.
pub fn check<R: Read, W: Write>(
    alloc: Global,
    reader: &mut R,
    writer: &mut W,
) -> Result<CheckEnd, ToolError>
    ensures ran { HasRun CheckAnswer NoText (R.remaining reader.old) (R.remaining reader.new)
        (W.contents writer.old) (W.contents writer.new) result }
    ensures never_full { result ≢ Err ToolError.HistoryFull }
{
    run_command(&Checker(OneThread), alloc, reader, writer)
}

/// Writes the bytes that `check` writes, with the longest pass of the check on many threads; or writes
/// nothing, for want of memory.
pub fn check_on<R: Read, W: Write>(
    rt: &(impl Threads + Sync),
    alloc: Global,
    reader: &mut R,
    writer: &mut W,
) -> Result<CheckEnd, ToolError>
    ensures ran { HasRun CheckAnswer NoText (R.remaining reader.old) (R.remaining reader.new)
        (W.contents writer.old) (W.contents writer.new) result }
    ensures never_full { result ≢ Err ToolError.HistoryFull }

    // The answer to a text is the only one.
    ensures same { WroteItsAnswer CheckAnswer (λ end other. end ≡ other) (λ written line. written ≡ line)
        (R.remaining reader.old) (W.contents writer.old) (W.contents writer.new) result }
{
    run_command(&Checker(ManyThreads(rt)), alloc, reader, writer)
}

/// What says whether prices certify a plan, or finds no memory to compare pairs, where all else holds.
pub trait Certifier {
    ghost ready: { Self → Type 0 } = { λ _. ⊤ };

    fn verdict(
        &self,
        alloc: Global,
        read: &PlanText<'_>,
    ) -> Result<Result<Certified, Condition>, AllocError>
        requires ready { ready self.now }
        requires sized { HasOneSize (claim read.now.problem read.now.plan.starts read.now.prices)
            read.now.plan.workers }
        ensures verdict { IfOk result (IsVerdict (claim_of read.now)) }
        ensures best { IfOk result (λ verdict. OnOk verdict
            (IsBestWith read.now.places read.now.problem (pairs_of read.now.plan.starts))) }
        ensures memory { OnErr result (MayComparePairs (claim_of read.now)) };
}

// The verdict on what was read.
fn verdict_on_one(alloc: Global, read: &PlanText<'_>) -> Result<Certified, Condition>
    requires { HasOneSize (claim read.now.problem read.now.plan.starts read.now.prices)
        read.now.plan.workers }
    ensures verdict { IsVerdict (claim_of read.now) result }
    ensures best { OnOk result
        (IsBestWith read.now.places read.now.problem (pairs_of read.now.plan.starts)) }
{
    if read.places.is_free() {
        certify(alloc, &read.problem, &read.plan, &read.prices)
    } else {
        certify_places(alloc, &read.problem, &read.places, &read.plan, &read.prices)
    }
}

// The same on many threads.
fn verdict_on_many(
    rt: &(impl Threads + Sync),
    alloc: Global,
    read: &PlanText<'_>,
) -> Result<Certified, CheckError>
    requires { HasOneSize (claim read.now.problem read.now.plan.starts read.now.prices)
        read.now.plan.workers }
    ensures certified { IfOk result (IsCertified (claim_of read.now)) }
    ensures best { OnOk result
        (IsBestWith read.now.places read.now.problem (pairs_of read.now.plan.starts)) }
    ensures failed { IfFailed result (IsFirstFailure (claim_of read.now)) }
    ensures memory { result ≡ Err CheckError.Memory → MayComparePairs (claim_of read.now) }
{
    if read.places.is_free() {
        certify_on(rt, alloc, &read.problem, &read.plan, &read.prices)
    } else {
        certify_places_on(
            rt,
            alloc,
            &read.problem,
            &read.places,
            &read.plan,
            &read.prices,
        )
    }
}

/// A verdict that is found on this thread.
#[derive(Drop)]
pub struct OneThread;

impl Certifier for OneThread {
    fn verdict(
        &self,
        alloc: Global,
        read: &PlanText<'_>,
    ) -> Result<Result<Certified, Condition>, AllocError> {
        Ok(verdict_on_one(alloc, read))
    }
}

/// A verdict whose longest pass is made on many threads.
#[derive(Drop)]
pub struct ManyThreads<'a, T: Threads + Sync>(&'a T);

impl<'a, T: Threads + Sync> Certifier for ManyThreads<'a, T> {
    ghost ready = { λ _. IsSync T.row };

    fn verdict(
        &self,
        alloc: Global,
        read: &PlanText<'_>,
    ) -> Result<Result<Certified, Condition>, AllocError> {
        match verdict_on_many(self.0, alloc, read) {
            Ok(certified) => Ok(Ok(certified)),
            Err(CheckError::Failed(condition)) => Ok(Err(condition)),
            Err(CheckError::Memory) => Err(AllocError),
        }
    }
}

/// A check.
#[derive(Drop)]
pub struct Checker<C: Certifier>(C);

impl<C: Certifier> Command for Checker<C> {
    type End = CheckEnd;

    type Lines = String;

    ghost ready = { λ checker. C.ready checker.0 };

    ghost Answers = { λ _. CheckAnswer };

    ghost one_answer = { λ _. one_check_answer };

    fn answer(
        &self,
        alloc: Global,
        text: &[u8],
    ) -> Result<(String, Result<CheckEnd, TextFault>), NoAnswer> {
        match read_plan(alloc, text) {
            Ok(read) => checked_answer(&self.0, alloc, &read),
            Err(error) => {
                let (line, fault) = fault_answer(alloc, error)?;
                Ok((line, Err(fault)))
            }
        }
    }
}

// The answer to what was read.
fn checked_answer<C: Certifier>(
    certifier: &C,
    alloc: Global,
    read: &PlanText<'_>,
) -> Result<(String, Result<CheckEnd, TextFault>), NoAnswer>
    requires ready { C.ready certifier.now }
    requires sized { HasOneSize (claim read.now.problem read.now.plan.starts read.now.prices)
        read.now.plan.workers }
    ensures answer { IfOk result (λ given. (end : CheckEnd) × (given.1 ≡ Ok end)
        × Judges end (claim_of read.now) read.now.splits read.now.workers (string_bytes given.0)) }
    ensures never_full { result ≢ Err NoAnswer.HistoryFull }
{
    let (line, end) = judged(certifier, alloc, read)?;
    Ok((line, Ok(end)))
}

// The line on what was read, and how the check ends with it.
fn judged<C: Certifier>(
    certifier: &C,
    alloc: Global,
    read: &PlanText<'_>,
) -> Result<(String, CheckEnd), AllocError>
    requires ready { C.ready certifier.now }
    requires sized { HasOneSize (claim read.now.problem read.now.plan.starts read.now.prices)
        read.now.plan.workers }
    ensures { IfOk result (λ given. Judges given.1 (claim_of read.now) read.now.splits read.now.workers
        (string_bytes given.0)) }
{
    let verdict = certifier.verdict(alloc, read)?;
    judge(alloc, read, verdict)
}

// The same, by the verdict on it.
fn judge(
    alloc: Global,
    read: &PlanText<'_>,
    verdict: Result<Certified, Condition>,
) -> Result<(String, CheckEnd), AllocError>
    requires verdict { IsVerdict (claim_of read.now) verdict }
    requires best { OnOk verdict
        (IsBestWith read.now.places read.now.problem (pairs_of read.now.plan.starts)) }
    ensures { IfOk result (λ given. Judges given.1 (claim_of read.now) read.now.splits read.now.workers
        (string_bytes given.0)) }
{
    match verdict {
        Ok(answer) => Ok((
            certified(
                alloc,
                &read.places,
                answer.count,
                answer.cost,
                answer.places,
            )?,
            CheckEnd::Certified,
        )),
        Err(condition) => Ok((
            refused(alloc, &read.splits, &read.workers, condition)?,
            CheckEnd::Refused(condition),
        )),
    }
}
