ghost use Rattle.std.specs.Prelude.{◌≡◌, ◌++◌, IfSome, MatchOption, OnOk, string_bytes};
ghost use Rattle.text_lines.specs.Texts.{Line};
ghost use Rattle.line_shapes.specs.Lines.{SaysNothing};
ghost use Rattle.report_lines.specs.Standing.{open_part_lines, open_split_lines, output_lines};
ghost use Rattle.live_master.specs.Requests.{IsRequest, word_of};

use job_play::ending::states_of;
use master_core::Master;
use master_state::{Attempt, PartState};
use node_ids::PartNo;
use report_lines::{add_open_parts, add_open_splits, add_outputs};
use script_text::Names;
use std::alloc::{AllocError, Global};

/// A word that a session understands and no script has.
#[derive(Clone, Copy, Debug, PartialEq, Eq)]
pub enum Request {
    /// The workers.
    Workers,
    /// What is not done.
    Open,
    /// Where the outputs of the done splits are.
    Outputs,
    /// The last wave as a text to check.
    Audit,
    /// The plan that was said is to be started.
    Commit,
    /// The plan that was said is dropped.
    Drop,
}

/// The request that a line is, if it is one.
pub fn request_of(line: &[u8]) -> Option<Request>
    ensures { MatchOption result (¬ (IsRequest line.now)) (λ request. line.now ≡ word_of request) }
{
    match line {
        b"workers" => Some(Request::Workers),
        b"open" => Some(Request::Open),
        b"outputs" => Some(Request::Outputs),
        b"audit" => Some(Request::Audit),
        b"commit" => Some(Request::Commit),
        b"drop" => Some(Request::Drop),
        _ => None,
    }
}

/// A law: no request says anything by the rules of texts, so it is no line of a script.
pub fn requests_are_no_commands()
    ensures { (line : Line) → IsRequest line → SaysNothing line }
{}

/// The splits and parts that are not done.
pub(crate) fn add_open_work(
    alloc: Global,
    master: &Master,
    names: &Names<'_>,
    lines: &mut String,
) -> Result<(), AllocError>
    ensures { OnOk result (string_bytes lines.new ≡ string_bytes lines.old
        ++ (open_split_lines names.now.splits names.now.workers master.now.state.splits
        ++ open_part_lines names.now.workers master.now.state.parts)) }
{
    master.is_kept();
    let Some(splits) = states_of(alloc, master) else {
        return Err(AllocError);
    };
    let Some(parts) = parts_of(alloc, master) else {
        return Err(AllocError);
    };
    add_open_splits(lines, &names.splits, &names.workers, splits.as_slice())?;
    add_open_parts(lines, &names.workers, parts.as_slice())
}

/// Where the outputs of the done splits are.
pub(crate) fn add_all_outputs(
    alloc: Global,
    master: &Master,
    names: &Names<'_>,
    lines: &mut String,
) -> Result<(), AllocError>
    ensures { OnOk result (string_bytes lines.new ≡ string_bytes lines.old
        ++ output_lines names.now.splits names.now.workers master.now.state.splits) }
{
    let Some(splits) = states_of(alloc, master) else {
        return Err(AllocError);
    };
    add_outputs(lines, &names.splits, &names.workers, splits.as_slice())
}

// What has become of each part, or nothing where memory is wanting.
fn parts_of(alloc: Global, master: &Master) -> Option<Vec<PartState>>
    ensures { IfSome result (λ states. states.items ≡ master.now.state.parts) }
{
    master.is_kept();
    let count = master.cluster().parts();
    let mut states = Vec::with_capacity(alloc, count).ok()?;
    // names what a state holds, which the proof of the loop asks for
    let _none: Option<Attempt> = None;
    for number in 0..count {
        states.push_reserved(master.part_state(PartNo::new(number as u8)));
    }
    Some(states)
}
