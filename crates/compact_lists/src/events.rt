ghost use Rattle.std.specs.Prelude.{◌≡◌, ◌≤◌, ◌<◌, ◌↔◌, ◌++◌, ◌∷◌, [], false, length, IfOk, IsTrue, Some};
ghost use Rattle.std.specs.Prelude.{slice_get, vec_capacity, OnErr, OnOk};
ghost use Rattle.compact_lists.specs.Lists.{is_join};

use crate::entries::{Entry, Totals, add, entry_of, event_of, is_entry, is_event, is_whole};
use master_state::Event;
use node_ids::{SplitSet, WorkerNo};
use std::alloc::{AllocError, Global};
use std::marker::Model;

/// A list of events, with room for a number of them.
#[derive(Drop)]
pub struct EventList {
    entries: Vec<Entry>,
    sets: Vec<SplitSet>,
    totals: Vec<Totals>,
    room: u32,
}

impl Model for EventList {
    ghost use Rattle.compact_lists.specs.Lists.{EventsValue};

    ghost Value = { EventsValue };

    ghost use Rattle.compact_lists.specs.Inside.{events_of, IsEventList};

    ghost view = { events_of };

    ghost invariant = { IsEventList };
}

impl EventList {
    /// The empty list, with room for so many events.
    pub fn with_room(alloc: Global, room: u32) -> Result<EventList, AllocError>
        ensures { IfOk result (λ list. list ≡ record { items = []; room = room }) }
    {
        let entries = Vec::with_capacity(alloc, room as usize)?;
        let sets = Vec::with_capacity(alloc, room as usize)?;
        let totals = Vec::with_capacity(alloc, room as usize)?;
        Ok(EventList {
            entries,
            sets,
            totals,
            room,
        })
    }

    /// Gives the list room for so many events in all.
    pub fn make_room(&mut self, room: u32) -> Result<(), AllocError>
        requires { self.old.room ≤ room }
        ensures ok { OnOk result (self.new ≡ record self.old { room = room }) }
        ensures err { OnErr result (self.new ≡ self.old) }
    {
        hold(&mut self.entries, room as usize)?;
        hold(&mut self.sets, room as usize)?;
        hold(&mut self.totals, room as usize)?;
        self.room = room;
        Ok(())
    }

    /// How many events there are.
    pub fn len(&self) -> usize
        ensures count { result ≡ length self.now.items }
        ensures most { result ≤ self.now.room }
    {
        self.entries.len()
    }

    /// The event at an index, from 0.
    pub fn at(&self, index: usize) -> Event<'_>
        requires { index < length self.now.items }
        ensures { slice_get self.now.items index ≡ Some result }
    {
        event_of(&self.sets, &self.totals, self.entries[index])
    }

    /// The event at an index, if there is one.
    pub fn get(&self, index: usize) -> Option<Event<'_>>
        ensures { result ≡ slice_get self.now.items index }
    {
        if index < self.len() {
            Some(self.at(index))
        } else {
            None
        }
    }

    /// Whether the event at an index is that of another list at an index there.
    pub fn is_same(&self, index: usize, other: &EventList, there: usize) -> bool
        requires here { index < length self.now.items }
        requires there { there < length other.now.items }
        ensures { IsTrue result
            ↔ (slice_get self.now.items index ≡ slice_get other.now.items there) }
    {
        let entry = &self.entries[index];
        if is_whole(entry) {
            return is_entry(entry, &other.entries[there]);
        }
        is_event(&self.at(index), &other.at(there))
    }

    /// Adds an event other than a join, for which there is room.
    pub fn push(&mut self, event: &Event<'_>)
        requires no_join { is_join event.now ≡ false }
        requires room { length self.old.items < self.old.room }
        ensures items { self.new.items ≡ self.old.items ++ event.now ∷ [] }
        ensures room { self.new.room ≡ self.old.room }
    {
        let entry = entry_of(&mut self.totals, event);
        self.entries.push_reserved(entry);
    }

    /// Adds the join of a worker with these splits, for which there is room. The list keeps the set.
    pub fn push_join(&mut self, worker: WorkerNo, set: SplitSet)
        requires { length self.old.items < self.old.room }
        ensures items { self.new.items ≡ self.old.items ++ Event.Join worker set ∷ [] }
        ensures room { self.new.room ≡ self.old.room }
    {
        let place = add(&mut self.sets, set);
        self.entries.push_reserved(Entry::Join(worker, place));
    }
}

/// Lets a list have room for so many elements in all.
pub fn hold<T>(list: &mut Vec<T>, room: usize) -> Result<(), AllocError>
    ensures items { list.new.items ≡ list.old.items }
    ensures ok { OnOk result (room ≤ vec_capacity list.new) }
    ensures capacity { vec_capacity list.old ≤ vec_capacity list.new }
{
    list.reserve_exact(room.saturating_sub(list.len()))
}
