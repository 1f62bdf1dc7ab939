ghost use Rattle.std.specs.Prelude.{◌≡◌, ℕ, ◌+◌, ◌<◌, ◌≤◌, ◌↔◌, List, [], ◌∷◌, ◌++◌, length, IsTrue};
ghost use Rattle.hand_ledger.specs.Hands.{Kept};
ghost use Rattle.hand_ledger.specs.Inside.{calls_of, counts_taken, starts_taken};
ghost use Rattle.hand_ledger.specs.Marks.{found_more, IsFirstWrong, IsAsWanted, Marks, wanted};
ghost use Rattle.hand_ledger.specs.Settling.{call_at, LogValue};
ghost use Rattle.hand_ledger.specs.declared.marks.TheConstants.{PLACES};

use crate::entries::Entries;
use crate::logs::{Log, counts_in, part, starts_in};
use compact_lists::CountList;
use master_state::Start;

// How many places one pass over the calls looks at.
pub(crate) const PLACES: usize = 16_384;

// What has been found at a place: nothing, just the call that stands there, or something else.
#[derive(Clone, Copy, Debug, PartialEq, Eq)]
pub(crate) enum Found {
    Nowhere,
    Once,
    Wrong,
}

// Marks a call that was found at a place, and whether the log has just this call there. A call whose place is
// outside the table is passed over.
fn mark(found: &mut [Found], first: usize, place: u32, is_right: bool)
    requires size { length found.old ≡ PLACES }
    requires few { first ≤ 1048577 }
    ensures size { length found.new ≡ PLACES }
    ensures marks { (log : LogValue) (before : List Kept) (call : Kept) → call.place ≡ place
        → (first ≤ place → place < first + PLACES → IsTrue is_right ↔ (call_at log place ≡ call ∷ []))
        → Marks log first before found.old → Marks log first (before ++ call ∷ []) found.new }
{
    if is_in_table(first, place) {
        let index = place as usize - first;
        found[index] = found_more(found[index], is_right);
    }
}

// Whether a place is one of the table's, which begins at the first.
fn is_in_table(first: usize, place: u32) -> bool
    requires { first ≤ 1048577 }
    ensures { IsTrue result ↔ ((first ≤ place) × (place < first + PLACES)) }
{
    first <= place as usize && (place as usize) < first + PLACES
}

// Marks the call of each entry whose place is in the table: whether the log has just this call there.
pub(crate) fn mark_all(
    found: &mut [Found],
    first: usize,
    log: &Log<'_>,
    entries: &Entries,
    counts: &CountList,
    starts: &[Start],
)
    requires size { length found.old ≡ PLACES }
    requires few { first ≤ 1048577 }
    requires counts { counts_taken entries.now.items ≤ length counts.now.items }
    requires starts { starts_taken entries.now.items ≤ length starts.now }
    ensures size { length found.new ≡ PLACES }
    ensures marks { (before : List Kept) → Marks log.now first before found.old
        → Marks log.now first (before ++ calls_of entries.now.items counts.now.items starts.now) found.new }
{
    let mut counts_done = 0;
    let mut starts_done = 0;
    for index in 0..entries.len() {
        let entry = entries.at(index);
        let new_counts = counts_in(&entry.event);
        let new_starts = starts_in(&entry.event);
        let new_part = part(starts, starts_done, new_starts);
        let is_right = is_in_table(first, entry.place)
            && log.has(entries, index, counts, counts_done, new_part);
        mark(found, first, entry.place, is_right);
        counts_done += new_counts;
        starts_done += new_starts;
    }
}

// What is found at a place once another call was found there.
fn found_more(found: Found, is_right: bool) -> Found
    ensures { result ≡ found_more found is_right }
{
    match found {
        Found::Nowhere if is_right => Found::Once,
        _ => Found::Wrong,
    }
}

fn wanted(events: usize, place: usize) -> Found
    ensures { result ≡ wanted events place }
{
    if 1 <= place && place <= events {
        Found::Once
    } else {
        Found::Nowhere
    }
}

// The lowest place, counted from the first, at which something else was found than is wanted, or notes fail.
pub(crate) fn first_wrong(
    events: usize,
    notes: bool,
    first: usize,
    found: &[Found],
) -> Option<usize>
    requires size { length found.now ≡ PLACES }
    requires events { events ≤ 1048576 }
    requires first { first ≤ 1048577 }
    ensures { IsFirstWrong events notes first found.now result }
{
    for n in 0..PLACES {
        if !is_right(events, notes, found[n], first + n) {
            return Some(n);
        }
    }
    None
}

// Whether what was found at a place is what is wanted there.
fn is_right(events: usize, notes: bool, found: Found, place: usize) -> bool
    requires { events ≤ 1048576 }
    ensures { IsTrue result ↔ IsAsWanted events notes found place }
{
    if place == events + 1 && !notes {
        return false;
    }
    found == wanted(events, place)
}

// A table in which nothing was found.
pub(crate) fn nothing_found() -> [Found; PLACES]
    ensures size { length result ≡ PLACES }
    ensures marks { (log : LogValue) (first : ℕ) → Marks log first [] result }
{
    [Found::Nowhere; PLACES]
}
