ghost use Rattle.std.specs.Prelude.{◌≡◌, ◌<◌, ◌≤◌, ◌-◌, ◌↔◌, IsTrue, ◌++◌, ◌∷◌, [], length, vec_capacity};
ghost use Rattle.std.specs.Prelude.{IfOk, OnErr, OnOk, Some, None, false};
ghost use Rattle.std.specs.Prelude.{slice_get, All};
ghost use Rattle.compact_lists.specs.Lists.{is_join};
ghost use Rattle.hand_ledger.specs.Entries.{EntriesValue, entries_from};
ghost use Rattle.hand_ledger.specs.Inside.{IsPlace};
ghost use Rattle.hand_ledger.specs.Settling.{event_at};
ghost use Rattle.master_state.specs.declared.events.Event.{Event};

use compact_lists::{EventList, hold};
use master_state::Event;
use node_ids::{SplitSet, WorkerNo};
use std::alloc::{AllocError, Global};
use std::marker::Model;

// An accepted call by its place in the history and its event.
#[derive(Drop)]
pub(crate) struct Entry<'a> {
    pub(crate) place: u32,
    pub(crate) event: Event<'a>,
}

// The accepted calls of a hand, with room for a number of them.
#[derive(Drop)]
pub(crate) struct Entries {
    places: Vec<u32>,
    events: EventList,
}

impl Model for Entries {
    ghost Value = { EntriesValue };

    ghost view = { λ e. record {
      items = entries_from e.places.items e.events.items;
      room = e.events.room;
    } };

    ghost invariant = { λ e. (length e.places.items ≡ length e.events.items)
        × (e.events.room ≤ vec_capacity e.places) };
}

impl Entries {
    // No entries yet, with room for so many.
    pub(crate) fn with_room(alloc: Global, room: u32) -> Result<Entries, AllocError>
        ensures { IfOk result (λ e. e ≡ record { items = []; room = room }) }
    {
        let places = Vec::with_capacity(alloc, room as usize)?;
        let events = EventList::with_room(alloc, room)?;
        Ok(Entries { places, events })
    }

    // Gives the list room for so many entries in all.
    pub(crate) fn make_room(&mut self, room: u32) -> Result<(), AllocError>
        requires { self.old.room ≤ room }
        ensures ok { OnOk result (self.new ≡ record self.old { room = room }) }
        ensures err { OnErr result (self.new ≡ self.old) }
    {
        hold(&mut self.places, room as usize)?;
        self.events.make_room(room)
    }

    // How many entries there are.
    pub(crate) fn len(&self) -> usize
        ensures { result ≡ length self.now.items }
    {
        self.places.len()
    }

    // The entry at an index.
    pub(crate) fn at(&self, index: usize) -> Entry<'_>
        requires { index < length self.now.items }
        ensures { slice_get self.now.items index ≡ Some result }
    {
        Entry {
            place: self.places[index],
            event: self.events.at(index),
        }
    }

    // The last entry.
    pub(crate) fn last(&self) -> Option<Entry<'_>>
        ensures value { result ≡ slice_get self.now.items (length self.now.items - 1) }
        ensures none { result ≡ None → self.now.items ≡ [] }
    {
        let count = self.places.len();
        if count == 0 {
            return None;
        }
        Some(self.at(count - 1))
    }

    // Whether the event of the entry at an index stands in the history at its place.
    pub(crate) fn stands(&self, index: usize, history: &EventList) -> bool
        requires { index < length self.now.items }
        ensures { (entry : Entry) → slice_get self.now.items index ≡ Some entry
            → (IsTrue result ↔ (event_at history.now.items entry.place ≡ Some entry.event)) }
    {
        let place = self.places[index] as usize;
        if place == 0 {
            return false;
        }
        if history.len() < place {
            return false;
        }
        self.events.is_same(index, history, place - 1)
    }

    // The greatest place of an entry, or the least place that is given, where that is greater.
    pub(crate) fn greatest_place(&self, least: usize) -> usize
        requires low { least ≤ 1048577 }
        requires places { All (λ entry. IsPlace entry.place) self.now.items }
        ensures most { result ≤ 1048577 }
        ensures least { least ≤ result }
        ensures entries { All (λ entry. entry.place ≤ result) self.now.items }
    {
        let mut greatest = least;
        for index in 0..self.len() {
            greatest = greatest.max(self.at(index).place as usize);
        }
        greatest
    }

    // Adds an entry, for which there is room. Its event is no join.
    pub(crate) fn push(&mut self, place: u32, event: &Event<'_>)
        requires no_join { is_join event.now ≡ false }
        requires room { length self.old.items < self.old.room }
        ensures items { self.new.items ≡ self.old.items ++ record { place = place; event = event.now } ∷ [] }
        ensures room { self.new.room ≡ self.old.room }
    {
        self.places.push_reserved(place);
        self.events.push(event);
    }

    // Adds the entry of a join, for which there is room. The entries keep the set.
    pub(crate) fn push_join(&mut self, place: u32, worker: WorkerNo, set: SplitSet)
        requires { length self.old.items < self.old.room }
        ensures items { self.new.items
            ≡ self.old.items ++ record { place = place; event = Event.Join worker set } ∷ [] }
        ensures room { self.new.room ≡ self.old.room }
    {
        self.places.push_reserved(place);
        self.events.push_join(worker, set);
    }
}
