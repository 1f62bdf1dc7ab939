ghost use Rattle.std.specs.Prelude.{◌≡◌, ℕ, ◌<◌, OnOk, IfOk, length, string_bytes};
ghost use Rattle.master_state.specs.Tests.{part_runs, runs};
ghost use Rattle.master_state.specs.declared.states.Work.TheVariants as works;
ghost use Rattle.script_text.specs.declared.script.Names.{Names};
ghost use Rattle.script_text.specs.declared.script.Command.TheVariants as command;
ghost use Rattle.job_play.specs.Given.{AreRunsFor, HoldsRuns};
ghost use Rattle.job_play.specs.Handing.{HandsPart, HandsSplit, IsStartedFor};
ghost use Rattle.job_play.specs.Playing.{Performed};

use crate::given::GivenRuns;
use master_core::Master;
use master_state::{Answer, PartState, SplitState, Why, Work};
use node_ids::{AttemptNo, PartNo, SplitNo};
use report_lines::{add_answer, add_ignored};
use shuffle_reduce::merge;
use std::alloc::{AllocError, Global};
use std::sync::Arc;
use word_map::map_split;

/// Makes what the attempt was started for, and hands it in.
pub(crate) fn done(
    alloc: Global,
    master: &mut Master,
    given: &GivenRuns,
    attempt: AttemptNo,
    lines: &mut String,
) -> Result<(), AllocError>
    requires { HoldsRuns given.now master.old }
    ensures { (names : Names) (target : ℕ) →
        OnOk result (Performed names target master.old (command.Done attempt)
        (string_bytes lines.old) (string_bytes lines.new) master.new) }
{
    match master.start(attempt) {
        None => add_ignored(lines, Why::OldAttempt),
        Some(start) => match &start.work {
            Work::Split(split) => {
                let answer = hand_split(alloc, master, attempt, *split)?;
                add_answer(lines, answer)
            }
            Work::Part(part) => {
                let answer = hand_part(alloc, master, given, attempt, *part)?;
                add_answer(lines, answer)
            }
        },
    }
}

// Maps the text of the split, if the split runs the attempt, and hands in the result. So however many lines
// `done 1` a script has, the text is mapped once.
fn hand_split(
    alloc: Global,
    master: &mut Master,
    attempt: AttemptNo,
    split: SplitNo,
) -> Result<Answer, AllocError>
    requires { IsStartedFor master.old.state attempt (works.Split split) }
    ensures { IfOk result (λ answer. HandsSplit master.old attempt split answer master.new) }
{
    master.is_kept();
    if !split_runs(&master.state(split), attempt) {
        return Ok(Answer::Ignored(Why::OldAttempt, ()));
    }
    let text = Arc::try_clone(&master.texts()[split.index()])?;
    let made = map_split(alloc, text, master.cluster().parts())?;
    Ok(master.map_done(attempt, made).plain())
}

// Merges the runs that the part was given, if it runs the attempt, and hands in what is made.
fn hand_part(
    alloc: Global,
    master: &mut Master,
    given: &GivenRuns,
    attempt: AttemptNo,
    part: PartNo,
) -> Result<Answer, AllocError>
    requires started { IsStartedFor master.old.state attempt (works.Part part) }
    requires given { HoldsRuns given.now master.old }
    ensures { IfOk result (λ answer. HandsPart master.old attempt part answer master.new) }
{
    master.is_kept();
    if !part_runs(&master.part_state(part), attempt) {
        return Ok(Answer::Ignored(Why::OldAttempt, ()));
    }
    let made = merge(alloc, master.cluster().parts(), part, given.of(part))?;
    Ok(master.part_done(attempt, made).plain())
}

// Whether the split runs the attempt.
fn split_runs(split: &SplitState, attempt: AttemptNo) -> bool
    ensures { result ≡ runs attempt split.now }
{
    match split {
        SplitState::Pending => false,
        SplitState::Running(one, None) => one.number == attempt,
        SplitState::Running(one, Some(other)) => one.number == attempt || other.number == attempt,
        SplitState::Done(_) => false,
    }
}

// Whether the part runs the attempt.
fn part_runs(part: &PartState, attempt: AttemptNo) -> bool
    ensures { result ≡ part_runs attempt part.now }
{
    match part {
        PartState::Pending => false,
        PartState::Running(one) => one.number == attempt,
        PartState::Done => false,
    }
}

/// Sets the attempt back, of a split or of a part.
pub(crate) fn fail(
    master: &mut Master,
    attempt: AttemptNo,
    lines: &mut String,
) -> Result<(), AllocError>
    ensures { (names : Names) (target : ℕ) →
        OnOk result (Performed names target master.old (command.Fail attempt)
        (string_bytes lines.old) (string_bytes lines.new) master.new) }
{
    match master.start(attempt) {
        None => add_ignored(lines, Why::OldAttempt),
        Some(start) => match &start.work {
            Work::Split(_) => add_answer(lines, master.map_failed(attempt)),
            Work::Part(_) => add_answer(lines, master.part_failed(attempt)),
        },
    }
}
