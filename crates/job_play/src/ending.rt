ghost use Rattle.std.specs.Prelude.{◌≡◌, ◌++◌, IfOk, IfSome, OnOk, length, string_bytes, true};
ghost use Rattle.shuffle_reduce.specs.Gather.{values_of};
ghost use Rattle.shuffle_reduce.specs.Indexed.{IsIndexOf};
ghost use Rattle.master_state.specs.Tests.{all_parts_done};
ghost use Rattle.report_lines.specs.Lines.{stuck_lines};
ghost use Rattle.job_play.specs.Playing.{Ended};

use crate::player::{PlayEnd, PlayError};
use master_core::{Master, are_parts_done, index_of};
use master_state::{Attempt, SplitState};
use node_ids::SplitNo;
use report_lines::{add_index, add_stuck};
use script_text::Names;
use std::alloc::{AllocError, Global};

/// The lines after the last command, and how the script has ended.
pub fn add_end(
    alloc: Global,
    master: &Master,
    names: &Names<'_>,
    lines: &mut String,
) -> Result<PlayEnd, AllocError>
    requires { length names.now.splits ≡ length master.now.setup.cluster.splits }
    ensures { IfOk result (λ finish. Ended names.now master.now finish
        (string_bytes lines.old) (string_bytes lines.new)) }
{
    if are_parts_done(master) {
        let index = index_of(alloc, master)?;
        add_index(lines, &names.documents, index.entries())?;
        Ok(PlayEnd::Done)
    } else {
        add_open(alloc, master, names, lines)?;
        Ok(PlayEnd::Stuck)
    }
}

/// The splits that are not done.
pub fn add_open(
    alloc: Global,
    master: &Master,
    names: &Names<'_>,
    lines: &mut String,
) -> Result<(), AllocError>
    requires { length names.now.splits ≡ length master.now.setup.cluster.splits }
    ensures { OnOk result (string_bytes lines.new
        ≡ string_bytes lines.old ++ stuck_lines names.now.splits master.now.state.splits) }
{
    master.is_kept();
    let Some(states) = states_of(alloc, master) else {
        return Err(AllocError);
    };
    add_stuck(lines, &names.splits, states.as_slice())
}

/// What has become of each split, or nothing where memory is wanting.
pub fn states_of(alloc: Global, master: &Master) -> Option<Vec<SplitState>>
    ensures { IfSome result (λ states. states.items ≡ master.now.state.splits) }
{
    master.is_kept();
    let count = master.cluster().splits().len();
    let mut states = Vec::with_capacity(alloc, count).ok()?;
    // names what a state holds, which the proof of the loop asks for
    let _none: Option<Attempt> = None;
    for number in 0..count {
        states.push_reserved(master.state(SplitNo::new(number as u32)));
    }
    Some(states)
}
