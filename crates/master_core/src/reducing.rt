ghost use Rattle.std.specs.Prelude.{◌≡◌, ◌<◌, length, map, true, IfOk};
ghost use Rattle.std.specs.List.{list_all};
ghost use Rattle.shuffle_reduce.specs.Gather.{AreOfPart, texts_of_runs};
ghost use Rattle.master_state.specs.declared.states.Limits.{Limits};
ghost use Rattle.master_state.specs.Tests.{is_done};
ghost use Rattle.master_tables.specs.Entries.{shown_as};
ghost use Rattle.master_tables.specs.Kept.{AreOfSplits};

use crate::cluster::Cluster;
use master_tables::entries::SplitEntry;
use node_ids::{PartNo, WorkerNo};
use std::alloc::{AllocError, Global};
use std::sync::Arc;
use word_map::Run;

/// A part that may start, and the worker on which it may.
#[derive(Clone, Copy)]
pub struct NextPart {
    pub part: PartNo,
    pub worker: WorkerNo,
}

/// The run of each split for a part, all splits being done.
pub fn runs_of(
    alloc: Global,
    cluster: &Cluster,
    entries: &[SplitEntry],
    part: PartNo,
) -> Result<Vec<Arc<Run>>, AllocError>
    requires part { part < cluster.now.parts }
    requires splits { length entries.now ≡ length cluster.now.texts }
    requires done { list_all is_done (map shown_as entries.now) ≡ true }
    requires made { (limits : Limits) →
        AreOfSplits (record { cluster = cluster.now; limits = limits }) entries.now }
    ensures of_part { IfOk result (λ runs. AreOfPart runs.items part cluster.now.parts) }
    ensures texts { IfOk result (λ runs. texts_of_runs runs.items ≡ cluster.now.texts) }
{
    let mut runs = Vec::with_capacity(alloc, entries.len())?;
    for entry in entries {
        if let SplitEntry::Done(_, made) = entry {
            runs.push(made.run(part).clone()?)?;
        }
    }
    Ok(runs)
}
