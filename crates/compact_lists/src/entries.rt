ghost use Rattle.std.specs.Prelude.{◌≡◌, ◌↔◌, IsTrue, ◌<◌, ◌^◌, ◌++◌, ◌∷◌, [], ℕ, List, true, false, length};
ghost use Rattle.std.specs.Prelude.{vec_capacity, vec_len};
ghost use Rattle.compact_lists.specs.Entries.{event_of, GoesOn, is_named, is_whole, IsWithin};
ghost use Rattle.compact_lists.specs.Lists.{is_join};

use master_state::Event;
use node_ids::{AttemptNo, PartNo, SplitNo, SplitRow, SplitSet, WorkerNo};

// An event in few bytes: a join names the place of its set, and a wave or the heads of a plan ahead that of
// their totals, from 0.
#[derive(Clone, Copy, Debug, PartialEq, Eq)]
pub(crate) enum Entry {
    Wave(AttemptNo, u32),
    Ahead(AttemptNo, u32),
    MapDone(AttemptNo),
    MapFailed(AttemptNo),
    Withdraw(AttemptNo),
    Die(WorkerNo),
    Join(WorkerNo, u32),
    Add(SplitNo, WorkerNo),
    Lose(SplitNo, WorkerNo),
    Sweep(u32),
    ReduceStart(AttemptNo, PartNo, WorkerNo),
    PartDone(AttemptNo),
    PartFailed(AttemptNo),
    // (the narrow number first, beside the tag)
    Backup(WorkerNo, AttemptNo, SplitNo),
}

const _: () = prove!(size_of::<Entry>() == 12);

// How many splits start in a wave or of a plan ahead, and at which byte-distance.
#[derive(Clone, Copy, Debug)]
pub(crate) struct Totals {
    pub(crate) count: u32,
    pub(crate) cost: u64,
}

// The entry of an event other than a join, whose totals are added to the list.
pub(crate) fn entry_of(totals: &mut Vec<Totals>, event: &Event<'_>) -> Entry
    requires no_join { is_join event.now ≡ false }
    requires totals { vec_len totals.old < vec_capacity totals.old }
    requires few_totals { vec_len totals.old < 2 ^ 32 }
    ensures event { (sets : List (List ℕ)) → event_of sets totals.new.items result ≡ event.now }
    ensures within { (sets : ℕ) → IsWithin sets (length totals.new.items) result }
    ensures totals { GoesOn totals.old.items totals.new.items }
    ensures total_room { vec_capacity totals.new ≡ vec_capacity totals.old }
{
    match event {
        Event::Wave { first, count, cost } => {
            let (count, cost) = (*count, *cost);
            Entry::Wave(*first, add(totals, Totals { count, cost }))
        }
        Event::Ahead { first, count, cost } => {
            let (count, cost) = (*count, *cost);
            Entry::Ahead(*first, add(totals, Totals { count, cost }))
        }
        Event::MapDone(attempt) => Entry::MapDone(*attempt),
        Event::MapFailed(attempt) => Entry::MapFailed(*attempt),
        Event::Withdraw(attempt) => Entry::Withdraw(*attempt),
        Event::Die(worker) => Entry::Die(*worker),
        Event::Join(..) => unreachable!(),
        Event::Add(split, worker) => Entry::Add(*split, *worker),
        Event::Lose(split, worker) => Entry::Lose(*split, *worker),
        Event::Sweep(place) => Entry::Sweep(*place),
        Event::ReduceStart(attempt, part, worker) => Entry::ReduceStart(*attempt, *part, *worker),
        Event::PartDone(attempt) => Entry::PartDone(*attempt),
        Event::PartFailed(attempt) => Entry::PartFailed(*attempt),
        Event::Backup(attempt, split, worker) => Entry::Backup(*worker, *attempt, *split),
    }
}

// Adds a value to a list with room for it, and gives its place.
pub(crate) fn add<T>(list: &mut Vec<T>, value: T) -> u32
    requires room { vec_len list.old < vec_capacity list.old }
    requires few { vec_len list.old < 2 ^ 32 }
    ensures items { list.new.items ≡ list.old.items ++ value ∷ [] }
    ensures capacity { vec_capacity list.new ≡ vec_capacity list.old }
    ensures place { result ≡ length list.old.items }
{
    let place = list.len() as u32;
    list.push_reserved(value);
    place
}

// The event of an entry.
pub(crate) fn event_of<'a>(sets: &'a [SplitSet], totals: &[Totals], entry: Entry) -> Event<'a>
    requires { IsWithin (length sets.now) (length totals.now) entry }
    ensures { result ≡ event_of sets.now totals.now entry }
{
    match entry {
        Entry::Wave(first, place) => {
            let Totals { count, cost } = totals[place as usize];
            Event::Wave { first, count, cost }
        }
        Entry::Ahead(first, place) => {
            let Totals { count, cost } = totals[place as usize];
            Event::Ahead { first, count, cost }
        }
        Entry::MapDone(attempt) => Event::MapDone(attempt),
        Entry::MapFailed(attempt) => Event::MapFailed(attempt),
        Entry::Withdraw(attempt) => Event::Withdraw(attempt),
        Entry::Die(worker) => Event::Die(worker),
        Entry::Join(worker, place) => Event::Join(worker, SplitRow::of(&sets[place as usize])),
        Entry::Add(split, worker) => Event::Add(split, worker),
        Entry::Lose(split, worker) => Event::Lose(split, worker),
        Entry::Sweep(place) => Event::Sweep(place),
        Entry::ReduceStart(attempt, part, worker) => Event::ReduceStart(attempt, part, worker),
        Entry::PartDone(attempt) => Event::PartDone(attempt),
        Entry::PartFailed(attempt) => Event::PartFailed(attempt),
        Entry::Backup(worker, attempt, split) => Event::Backup(attempt, split, worker),
    }
}

// Whether an entry alone says all of its event.
pub(crate) fn is_whole(entry: &Entry) -> bool
    ensures { result ≡ is_whole entry.now }
{
    !matches!(entry, Entry::Wave(..) | Entry::Ahead(..) | Entry::Join(..))
}

// Whether two entries are one and the same.
pub(crate) fn is_entry(entry: &Entry, other: &Entry) -> bool
    ensures { IsTrue result ↔ (entry.now ≡ other.now) }
{
    *entry == *other
}

// Whether an event is that of a wave, of the heads of a plan ahead or of a join, and the same as another.
pub(crate) fn is_event(event: &Event<'_>, other: &Event<'_>) -> bool
    requires { is_named event.now ≡ true }
    ensures { IsTrue result ↔ (event.now ≡ other.now) }
{
    match (event, other) {
        (
            Event::Wave { first, count, cost },
            Event::Wave {
                first: begin,
                count: size,
                cost: sum,
            },
        ) => { first == begin && count == size && cost == sum }
        (
            Event::Ahead { first, count, cost },
            Event::Ahead {
                first: begin,
                count: size,
                cost: sum,
            },
        ) => { first == begin && count == size && cost == sum }
        (Event::Join(worker, set), Event::Join(there, splits)) => {
            worker == there && set.is_same(splits)
        }
        _ => false,
    }
}
