ghost use Rattle.std.specs.Prelude.{◌≡◌, ◌≤◌, length, map, not, count_by, flat_map};
ghost use Rattle.master_state.specs.Tests.{attempts_of, is_done, part_attempts, part_is_done};
ghost use Rattle.master_tables.specs.Entries.{shown_as};

use crate::entries::{SplitEntry, is_done};
use crate::parts::part_is_done;
use master_state::PartState;

/// How many attempts of splits run.
pub fn running_maps(entries: &[SplitEntry]) -> u32
    requires { length entries.now ≤ 131072 }
    ensures count { result ≡ length (flat_map attempts_of (map shown_as entries.now)) }
    ensures most { result ≤ 262144 }
{
    let mut count = 0;
    for entry in entries {
        count += attempts_in(entry);
    }
    count
}

fn attempts_in(entry: &SplitEntry) -> u32
    ensures count { result ≡ length (attempts_of (shown_as entry.now)) }
    ensures most { result ≤ 2 }
{
    match entry {
        SplitEntry::Pending => 0,
        SplitEntry::Running(_, None) => 1,
        SplitEntry::Running(_, Some(_)) => 2,
        SplitEntry::Done(_, _) => 0,
    }
}

/// How many attempts of parts run.
pub fn running_parts(parts: &[PartState]) -> u32
    requires { length parts.now ≤ 64 }
    ensures count { result ≡ length (flat_map part_attempts parts.now) }
    ensures most { result ≤ 64 }
{
    let mut count = 0;
    for part in parts {
        if let PartState::Running(_) = part {
            count += 1;
        }
    }
    count
}

/// How many splits are not done.
pub fn open_splits(entries: &[SplitEntry]) -> u32
    requires { length entries.now ≤ 131072 }
    ensures { result ≡ count_by (λ split. not (is_done split)) (map shown_as entries.now) }
{
    let mut count = 0;
    for entry in entries {
        if !is_done(entry) {
            count += 1;
        }
    }
    count
}

/// How many parts are not done.
pub fn open_parts(parts: &[PartState]) -> u32
    requires { length parts.now ≤ 64 }
    ensures { result ≡ count_by (λ part. not (part_is_done part)) parts.now }
{
    let mut count = 0;
    for part in parts {
        if !part_is_done(part) {
            count += 1;
        }
    }
    count
}
