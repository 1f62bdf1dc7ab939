//! The lists that grow with a master's history, and the list of which splits are pending.
ghost use Rattle.std.specs.Prelude.{◌≡◌, ◌<◌, ◌^◌, [], IfOk, vec_capacity};
ghost use Rattle.master_core.specs.Near.{flags_of};

use compact_lists::{CountList, EventList};
use master_state::{Limits, Start};
use master_tables::entries::{SplitEntry, is_pending};
use shuffle_reduce::PartResult;
use std::alloc::{AllocError, Global};

// The lists that a master fills, as its history grows.
#[derive(Drop)]
pub(crate) struct Lists {
    pub(crate) results: Vec<PartResult>,
    pub(crate) starts: Vec<Start>,
    pub(crate) sweeps: CountList,
    pub(crate) history: EventList,
}

// Empty lists, with room for a result of each part and for all that the limits allow of so many workers.
pub(crate) fn empty_lists(
    alloc: Global,
    workers: usize,
    parts: usize,
    limits: Limits,
) -> Result<Lists, AllocError>
    requires few { workers < 2 ^ 32 }
    ensures results { IfOk result (λ lists. lists.results.items ≡ []) }
    ensures starts { IfOk result (λ lists. lists.starts.items ≡ []) }
    ensures sweeps { IfOk result (λ lists. lists.sweeps.items ≡ []) }
    ensures history { IfOk result (λ lists. lists.history.items ≡ []) }
    ensures parts { IfOk result (λ lists. vec_capacity lists.results ≡ parts) }
    ensures attempts { IfOk result (λ lists. vec_capacity lists.starts ≡ limits.attempts) }
    ensures counts { IfOk result (λ lists. lists.sweeps.room ≡ limits.sweeps) }
    ensures workers { IfOk result (λ lists. lists.sweeps.workers ≡ workers) }
    ensures events { IfOk result (λ lists. lists.history.room ≡ limits.events) }
{
    let results = Vec::with_capacity(alloc, parts)?;
    let starts = Vec::with_capacity(alloc, limits.attempts as usize)?;
    let sweeps = CountList::with_room(alloc, limits.sweeps, workers)?;
    let history = EventList::with_room(alloc, limits.events)?;
    Ok(Lists {
        results,
        starts,
        sweeps,
        history,
    })
}

// Which of these splits are pending.
pub(crate) fn pending_flags(alloc: Global, entries: &[SplitEntry]) -> Result<Vec<bool>, AllocError>
    ensures { IfOk result (λ flags. flags.items ≡ flags_of entries.now) }
{
    let mut flags = Vec::with_capacity(alloc, entries.len())?;
    for entry in entries {
        flags.push_reserved(is_pending(entry));
    }
    Ok(flags)
}
