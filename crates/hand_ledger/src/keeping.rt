ghost use Rattle.std.specs.Prelude.{◌≡◌, ◌+◌, ◌^◌, ◌<◌, ◌≤◌, ◌↔◌, List, [], ◌++◌, true, false, length, map};
ghost use Rattle.std.specs.Prelude.{All, IsTrue, IfOk, OnOk, OnErr, option_to_list, vec_capacity};
ghost use Rattle.master_state.specs.declared.events.Event.{Event};
ghost use Rattle.compact_lists.specs.Lists.{is_join};
ghost use Rattle.hand_ledger.specs.Hands.{Kept, counts_in, has_room, kept, last_event, last_place, new_hand};
ghost use Rattle.hand_ledger.specs.Hands.{grown, noted, starts_in, with_call, with_place, HandValue};
ghost use Rattle.hand_ledger.specs.Inside.{IsPlace, calls_of, AreKept};
ghost use Rattle.hand_ledger.specs.Marks.{AreNonePast, Marks};
ghost use Rattle.hand_ledger.specs.declared.marks.TheConstants.{PLACES};
ghost use Rattle.hand_ledger.specs.Settling.{AreTrue, LastStands};

use crate::entries::Entries;
use crate::logs::Log;
use crate::making::Hands;
use crate::marks::{Found, mark_all};
use compact_lists::{CountList, EventList, add_all};
use master_state::{Event, Limits, Start, Why};
use node_ids::{SplitSet, WorkerNo};
use std::alloc::{AllocError, Global};
use std::marker::Model;
use std::sync::ledger::{Ledger, Share};

/// The accepted calls of one thread, with their places, and its notes. Its share of the ledger of all hands
/// is the number of these calls.
pub struct Hand<L: Ledger> {
    pub(crate) share: Share<L>,
    pub(crate) entries: Entries,
    counts: CountList,
    starts: Vec<Start>,
    room: Limits,
    strange: bool,
    full: bool,
}

// (one call wherever it is dropped)
impl<L: Ledger> Drop for Hand<L> {
    fn drop(self) {
        let Hand {
            share: _,
            entries: _,
            counts: _,
            starts: _,
            room: _,
            strange: _,
            full: _,
        } = self;
    }
}

impl<L: Ledger> Model for Hand<L> {
    ghost Value = { HandValue };

    ghost view = { λ h. record {
      calls = calls_of h.entries.items h.counts.items h.starts.items;
      workers = h.counts.workers;
      room = h.room;
      strange = h.strange;
      full = h.full;
    } };

    ghost invariant = { λ h. (h.share.parts ≡ 1) × (h.share.amount ≡ length h.entries.items)
        × AreKept h.entries.items h.counts.items h.starts.items h.room
        × (h.room.events ≡ h.entries.room) × (h.room.sweeps ≤ h.counts.room)
        × (h.room.attempts ≤ vec_capacity h.starts) };
}

impl<L: Ledger> Hand<L> {
    // A hand without calls. It reserves this room, and takes one part of the share that is left.
    pub(crate) fn new(
        alloc: Global,
        rest: &mut Share<L>,
        workers: usize,
        room: Limits,
    ) -> Result<Hand<L>, AllocError>
        requires few { workers < 2 ^ 32 }
        requires part { 1 ≤ rest.old.parts }
        requires amount { rest.old.amount ≡ 0 }
        ensures value { IfOk result (λ h. h ≡ new_hand workers room) }
        ensures parts { OnOk result (rest.new.parts + 1 ≡ rest.old.parts) }
        ensures amount { rest.new.amount ≡ 0 }
        ensures err { OnErr result (rest.new ≡ rest.old) }
    {
        let entries = Entries::with_room(alloc, room.events)?;
        let counts = CountList::with_room(alloc, room.sweeps, workers)?;
        let starts = Vec::with_capacity(alloc, room.attempts as usize)?;
        Ok(Hand {
            share: rest.split_off(1, 0),
            entries,
            counts,
            starts,
            room,
            strange: false,
            full: false,
        })
    }

    /// Gives the hand room for one event more: where it has none, for twice as many events as it had room for,
    /// for 64 at least and for 1,048,576 at most, as many as a history may have.
    pub fn make_room(&mut self) -> Result<(), AllocError>
        ensures ok { OnOk result (self.new ≡ with_place self.old) }
        ensures place { OnOk result (length self.old.calls < 1048576 → has_room self.new 0 0 ≡ true) }
        ensures err { OnErr result (self.new ≡ self.old) }
    {
        if self.entries.len() < self.room.events as usize {
            return Ok(());
        }
        let events = grown(self.room.events);
        self.entries.make_room(events)?;
        self.room.events = events;
        Ok(())
    }

    /// The event of the last accepted call.
    pub fn last(&self) -> Option<Event<'_>>
        ensures { result ≡ last_event self.now.calls }
    {
        let entry = self.entries.last()?;
        Some(entry.event)
    }

    /// The place of the last accepted call, 0 before the first.
    pub fn last_place(&self) -> u32
        ensures { result ≡ last_place self.now.calls }
    {
        match self.entries.last() {
            Some(entry) => entry.place,
            None => 0,
        }
    }

    /// How many events, attempts and sweeps it has room for.
    pub fn room(&self) -> Limits
        ensures { result ≡ self.now.room }
    {
        self.room
    }

    /// Of how many workers it keeps the counts of a sweep.
    pub fn workers(&self) -> usize
        ensures { result ≡ self.now.workers }
    {
        self.counts.workers()
    }

    /// Whether a call was answered that the hand is strange.
    pub fn is_strange(&self) -> bool
        ensures { result ≡ self.now.strange }
    {
        self.strange
    }

    /// Whether a call that the hand had room for was answered that no place is left.
    pub fn is_full(&self) -> bool
        ensures { result ≡ self.now.full }
    {
        self.full
    }

    /// Whether its last call stands in the history at its place.
    pub fn stands(&self, history: &EventList) -> bool
        ensures { IsTrue result ↔ LastStands history.now.items self.now.calls }
    {
        let count = self.entries.len();
        if count == 0 {
            return true;
        }
        self.entries.stands(count - 1, history)
    }

    /// Whether it has room for a call more, with so many counts and starts.
    pub fn has_room(&self, counts: usize, starts: usize) -> bool
        ensures { result ≡ has_room self.now counts starts }
    {
        if self.entries.len() >= self.room.events as usize {
            return false;
        }
        if counts > self.room.sweeps as usize - self.counts.len() {
            return false;
        }
        starts <= self.room.attempts as usize - self.starts.len()
    }

    /// Notes why a call was ignored, and whether the hand had room for it.
    pub fn note(&mut self, had_room: bool, why: Why)
        ensures { self.new ≡ noted self.old had_room why }
    {
        match why {
            Why::StrangeHand => self.strange = true,
            Why::HistoryFull => self.full = self.full || had_room,
            _ => {}
        }
    }

    /// Keeps an accepted call that is no join, one more of all hands: a sweep with its counts, a wave or a plan
    /// ahead with its starts.
    pub fn keep(
        &mut self,
        hands: &mut Hands<L>,
        place: u32,
        event: &Event<'_>,
        counts: Option<&[u64]>,
        starts: &[Start],
    )
        requires place { IsPlace place }
        requires no_join { is_join event.now ≡ false }
        requires counts { length (option_to_list counts) ≡ counts_in event.now }
        requires workers { All (λ own. length own.now ≡ self.old.workers) (option_to_list counts) }
        requires starts { length starts.now ≡ starts_in event.now }
        requires room { has_room self.old (counts_in event.now) (starts_in event.now) ≡ true }
        ensures value { self.new ≡ with_call self.old (kept place event.now
            (map (λ own. own.now) (option_to_list counts.entry)) starts.now) }
        ensures total { hands.new.total ≡ hands.old.total + 1 }
        ensures made { hands.new.made ≡ hands.old.made }
    {
        hands.book.add(&mut self.share, 1);
        self.entries.push(place, event);
        add_counts(&mut self.counts, counts);
        add_all(&mut self.starts, starts);
    }

    /// Keeps an accepted join, one more of all hands. The hand keeps the set, so this takes no memory.
    pub fn keep_join(&mut self, hands: &mut Hands<L>, place: u32, worker: WorkerNo, set: SplitSet)
        requires place { IsPlace place }
        requires room { has_room self.old 0 0 ≡ true }
        ensures value { self.new ≡ with_call self.old (kept place (Event.Join worker set) [] []) }
        ensures total { hands.new.total ≡ hands.old.total + 1 }
        ensures made { hands.new.made ≡ hands.old.made }
    {
        hands.book.add(&mut self.share, 1);
        self.entries.push_join(place, worker, set);
    }
}

impl<L: Ledger> Hand<L> {
    // Marks each of the hand's calls whose place is in the table: whether the log has just this call there.
    pub(crate) fn mark(&self, log: &Log<'_>, first: usize, found: &mut [Found])
        requires size { length found.old ≡ PLACES }
        requires few { first ≤ 1048577 }
        ensures size { length found.new ≡ PLACES }
        ensures marks { (before : List Kept) → Marks log.now first before found.old
            → Marks log.now first (before ++ self.now.calls) found.new }
    {
        mark_all(found, first, log, &self.entries, &self.counts, &self.starts);
    }

    // The greatest place of a call, or the least place that is given, where that is greater.
    pub(crate) fn greatest_place(&self, least: usize) -> usize
        requires { least ≤ 1048577 }
        ensures most { result ≤ 1048577 }
        ensures least { least ≤ result }
        ensures calls { AreNonePast result self.now.calls }
    {
        self.entries.greatest_place(least)
    }

    // Whether its notes are true of a master, which at last is short of some room or is not.
    pub(crate) fn is_true(&self, is_short: bool) -> bool
        ensures { IsTrue result ↔ AreTrue is_short self.now }
    {
        !self.strange && (is_short || !self.full)
    }
}

// For how many events there is room after room for so many is used up.
fn grown(events: u32) -> u32
    ensures value { result ≡ grown events }
    ensures more { events ≤ result }
{
    if events >= 1_048_576 {
        return events;
    }
    (2 * events).max(64).min(1_048_576)
}

// Adds the counts of a sweep, if there are some.
fn add_counts(list: &mut CountList, counts: Option<&[u64]>)
    requires room { length list.old.items + length (option_to_list counts) ≤ list.old.room }
    requires workers { All (λ own. length own.now ≡ list.old.workers) (option_to_list counts) }
    ensures items { list.new.items ≡ list.old.items ++ map (λ own. own.now) (option_to_list counts.entry) }
    ensures room { list.new.room ≡ list.old.room }
    ensures workers { list.new.workers ≡ list.old.workers }
{
    if let Some(counts) = counts {
        list.push(counts);
    }
}
