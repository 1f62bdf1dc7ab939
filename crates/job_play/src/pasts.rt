//! The past of a master, of which a report tells its copies.
ghost use Rattle.std.specs.Prelude.{◌≡◌, IfOk};
ghost use Rattle.job_play.specs.Pasts.{past_at};

use master_core::{Master, first_holders};
use report_lines::{Past, Story, Tables};
use std::alloc::{AllocError, Global};
use worker_table::WorkerTable;

/// The past of a master, where each split is to have so many replicas.
pub(crate) fn past_of(alloc: Global, master: Master, target: usize) -> Result<Past, AllocError>
    ensures { IfOk result (λ past. past ≡ past_at master target) }
{
    master.is_kept();
    let cluster = master.cluster();
    let tree = cluster.tree().copy(alloc)?;
    let limit = cluster.holder_limit();
    let opening = Tables {
        workers: WorkerTable::new(alloc, cluster.slots(), 0, cluster.silence(), 0)?,
        holders: first_holders(alloc, cluster)?,
    };
    let (history, sweeps) = master.into_history();
    let story = Story {
        tree,
        limit,
        target,
        history,
        sweeps,
    };
    Ok(Past::new(story, opening))
}
