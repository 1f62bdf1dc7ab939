ghost use Rattle.std.specs.Prelude.{◌≡◌, map, IfOk};
ghost use Rattle.std.specs.List.{list_all, list_any};
ghost use Rattle.master_state.specs.Tests.{is_done, is_pending};
ghost use Rattle.master_tables.specs.Entries.{shown_as};

use master_state::{Attempt, SplitState};
use std::alloc::{AllocError, Global};
use wave_problem::SplitLine;
use word_map::MapResult;

/// What has become of a split, with the result of a done one.
#[derive(Drop)]
pub enum SplitEntry {
    Pending,
    Running(Attempt, Option<Attempt>),
    Done(Attempt, MapResult),
}

/// An entry for each split, all pending.
pub fn pending_entries(alloc: Global, splits: &[SplitLine]) -> Result<Vec<SplitEntry>, AllocError>
    ensures { IfOk result (λ entries. entries.items ≡ map (λ _. SplitEntry.Pending) splits.now) }
{
    let mut entries = Vec::with_capacity(alloc, splits.len())?;
    for _line in splits {
        entries.push(SplitEntry::Pending)?;
    }
    Ok(entries)
}

/// What an entry shows to a caller.
pub fn shown(entry: &SplitEntry) -> SplitState
    ensures { result ≡ shown_as entry.now }
{
    match entry {
        SplitEntry::Pending => SplitState::Pending,
        SplitEntry::Running(attempt, other) => SplitState::Running(*attempt, *other),
        SplitEntry::Done(attempt, _) => SplitState::Done(*attempt),
    }
}

/// Whether the split is pending.
pub fn is_pending(entry: &SplitEntry) -> bool
    ensures { result ≡ is_pending (shown_as entry.now) }
{
    matches!(entry, SplitEntry::Pending)
}

/// Whether the split is done.
pub fn is_done(entry: &SplitEntry) -> bool
    ensures { result ≡ is_done (shown_as entry.now) }
{
    matches!(entry, SplitEntry::Done(_, _))
}

/// Whether a split is pending.
pub fn is_any_pending(entries: &[SplitEntry]) -> bool
    ensures { result ≡ list_any is_pending (map shown_as entries.now) }
{
    for entry in entries {
        if is_pending(entry) {
            return true;
        }
    }
    false
}

/// Whether every split is done.
pub fn are_done(entries: &[SplitEntry]) -> bool
    ensures { result ≡ list_all is_done (map shown_as entries.now) }
{
    for entry in entries {
        if !is_done(entry) {
            return false;
        }
    }
    true
}
