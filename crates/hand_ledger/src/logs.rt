ghost use Rattle.std.specs.Prelude.{◌≡◌, ◌<◌, ◌≤◌, ◌^◌, ◌↔◌, ◌∷◌, [], IsTrue, Some, length};
ghost use Rattle.std.specs.Prelude.{slice_get, take, drop};
ghost use Rattle.hand_ledger.specs.Hands.{kept, counts_in, starts_in};
ghost use Rattle.hand_ledger.specs.Settling.{call_at, counts_at, starts_at, LogValue};
ghost use Rattle.hand_ledger.specs.declared.entries.Entry.{Entry};

use crate::entries::Entries;
use compact_lists::{CountList, Counts, EventList};
use master_state::{Event, Start};
use std::marker::Model;

/// What a master tells of the calls that it accepted: its history, all starts, and the counts of all sweeps.
#[derive(Drop)]
pub struct Log<'a> {
    pub(crate) history: &'a EventList,
    starts: &'a [Start],
    sweeps: &'a CountList,
}

impl<'a> Model for Log<'a> {
    ghost Value = { LogValue };

    ghost view = { λ log. record {
      history = log.history.now.items;
      starts = log.starts.now;
      sweeps = log.sweeps.now.items;
    } };
}

impl<'a> Log<'a> {
    /// The log with these lists.
    pub fn new(history: &'a EventList, starts: &'a [Start], sweeps: &'a CountList) -> Log<'a>
        ensures { result ≡ record {
          history = history.now.items;
          starts = starts.now;
          sweeps = sweeps.now.items;
        } }
    {
        Log {
            history,
            starts,
            sweeps,
        }
    }

    // Whether the history has at the place of the entry at an index just this call: the entry's event, with
    // the counts that begin at an index of a list, and with these starts.
    pub(crate) fn has(
        &self,
        entries: &Entries,
        index: usize,
        counts: &CountList,
        from: usize,
        starts: &[Start],
    ) -> bool
        requires { index < length entries.now.items }
        ensures { (entry : Entry) → slice_get entries.now.items index ≡ Some entry → (IsTrue result
            ↔ (call_at self.now entry.place ≡ kept entry.place entry.event
            (take (counts_in entry.event) (drop from counts.now.items)) starts.now ∷ [])) }
    {
        if !entries.stands(index, self.history) {
            return false;
        }
        let entry = entries.at(index);
        if !self.has_counts(&entry.event, counts, from) {
            return false;
        }
        self.starts_at(&entry.event) == starts
    }

    // Whether the counts of an event are those at an index of a list. An event that is no sweep has none.
    fn has_counts(&self, event: &Event<'_>, counts: &CountList, from: usize) -> bool
        ensures { IsTrue result
            ↔ (counts_at self.now event.now ≡ take (counts_in event.now) (drop from counts.now.items)) }
    {
        match event {
            Event::Sweep(place) => {
                let found = self.sweeps.get((*place as usize).saturating_sub(1));
                are_same_counts(&found, &counts.get(from))
            }
            _ => true,
        }
    }

    // The starts of a wave or of a plan ahead.
    fn starts_at(&self, event: &Event<'_>) -> &'a [Start]
        ensures { result.now ≡ starts_at self.now event.now }
    {
        match event {
            Event::Wave { first, count, .. } | Event::Ahead { first, count, .. } => {
                part(
                    self.starts,
                    first.index().saturating_sub(1),
                    *count as usize,
                )
            }
            _ => part(self.starts, 0, 0),
        }
    }
}

// Whether the counts of two sweeps are the same, or there are none of either.
fn are_same_counts(counts: &Option<Counts<'_>>, others: &Option<Counts<'_>>) -> bool
    ensures { IsTrue result ↔ (counts.now ≡ others.now) }
{
    match (counts, others) {
        (Some(counts), Some(others)) => counts.is_same(others),
        (None, None) => true,
        _ => false,
    }
}

// How many counts stand for an event.
pub(crate) fn counts_in(event: &Event<'_>) -> usize
    ensures value { result ≡ counts_in event.now }
    ensures few { result ≤ 1 }
{
    match event {
        Event::Sweep(_) => 1,
        _ => 0,
    }
}

// How many starts stand for an event.
pub(crate) fn starts_in(event: &Event<'_>) -> usize
    ensures value { result ≡ starts_in event.now }
    ensures bound { result < 2 ^ 32 }
{
    match event {
        Event::Wave { count, .. } | Event::Ahead { count, .. } => *count as usize,
        _ => 0,
    }
}

// So many elements of a list, from an index on; fewer if the list ends before.
#[tactic(auto, using(std::proofs::lemmas::List::take_min, std::proofs::lemmas::List::drop_min))]
pub(crate) fn part<T>(list: &[T], from: usize, count: usize) -> &[T]
    ensures { result.now ≡ take count (drop from list.now) }
{
    let rest = &list[from.min(list.len())..];
    &rest[..count.min(rest.len())]
}
