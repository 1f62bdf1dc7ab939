ghost use Rattle.std.specs.Prelude.{◌≡◌, ◌≤◌, ◌<◌, ◌^◌, ◌↔◌, ◌++◌, ◌∷◌, ◌-◌, [], length, IfOk, IsTrue};
ghost use Rattle.std.specs.Prelude.{slice_get, slice_index_or};
ghost use Rattle.compact_lists.specs.Counts.{AreNear, GoesOnByOne};

use crate::row_table::{RowTable, push_rises};
use std::alloc::{AllocError, Global};
use std::marker::Model;

/// A list of the counts of sweeps, one count for each worker, with all the room that it will have.
#[derive(Drop)]
pub struct CountList {
    // For each sweep: its base, by the base's number from 0, and by how much each count is above the base's.
    bases_of: Vec<u32>,
    rises: RowTable<u16>,
    bases: RowTable<u64>,
}

impl Model for CountList {
    ghost use Rattle.compact_lists.specs.Lists.{CountsValue};

    ghost Value = { CountsValue };

    ghost use Rattle.compact_lists.specs.Counts.{all_counts, IsCountList};

    ghost view = { all_counts };

    ghost invariant = { IsCountList };
}

/// The counts of a sweep, by worker number.
#[derive(Drop)]
pub struct Counts<'a> {
    base: &'a [u64],
    rises: &'a [u16],
}

impl<'a> Model for Counts<'a> {
    ghost use Rattle.std.specs.Prelude.{List, ℕ, ◌≡◌, length};
    ghost use Rattle.compact_lists.specs.Counts.{counts_from};

    ghost Value = { List ℕ };

    ghost view = { λ c. counts_from c.base.now c.rises.now };

    ghost invariant = { λ c. length c.base.now ≡ length c.rises.now };
}

impl<'a> Counts<'a> {
    /// The count of a worker, by number; 0 past the last one.
    pub fn of(&self, worker: usize) -> u64
        ensures { result ≡ slice_index_or self.now worker 0 }
    {
        if worker < self.base.len() {
            // (no sum wraps in a row that `push` made)
            self.base[worker].wrapping_add(self.rises[worker] as u64)
        } else {
            0
        }
    }

    /// Whether the counts are the same, of as many workers.
    pub fn is_same(&self, other: &Counts<'_>) -> bool
        ensures { IsTrue result ↔ (self.now ≡ other.now) }
    {
        if self.base.len() != other.base.len() {
            return false;
        }
        for worker in 0..self.base.len() {
            if self.of(worker) != other.of(worker) {
                return false;
            }
        }
        true
    }
}

impl CountList {
    /// The empty list, with room for so many sweeps of so many workers.
    pub fn with_room(alloc: Global, room: u32, workers: usize) -> Result<CountList, AllocError>
        requires { workers < 2 ^ 32 }
        ensures { IfOk result (λ list. list ≡ record { items = []; room = room; workers = workers }) }
    {
        let bases_of = Vec::with_capacity(alloc, room as usize)?;
        let rises = RowTable::with_room(alloc, room, workers)?;
        let bases = RowTable::with_room(alloc, room, workers)?;
        Ok(CountList {
            bases_of,
            rises,
            bases,
        })
    }

    /// How many sweeps there are.
    pub fn len(&self) -> usize
        ensures count { result ≡ length self.now.items }
        ensures most { result ≤ self.now.room }
    {
        self.bases_of.len()
    }

    /// Of how many workers each sweep has a count.
    pub fn workers(&self) -> usize
        ensures count { result ≡ self.now.workers }
        ensures most { result < 2 ^ 32 }
    {
        self.bases.width()
    }

    /// The counts of the sweep at an index, from 0, if there is one.
    pub fn get(&self, index: usize) -> Option<Counts<'_>>
        ensures { result ≡ slice_get self.now.items index }
    {
        if index >= self.bases_of.len() {
            return None;
        }
        Some(Counts {
            base: self.bases.row(self.bases_of[index] as usize),
            rises: self.rises.row(index),
        })
    }

    /// Adds the counts of a sweep, for which there is room.
    pub fn push(&mut self, counts: &[u64])
        requires room { length self.old.items < self.old.room }
        requires workers { length counts.now ≡ self.old.workers }
        ensures items { self.new.items ≡ self.old.items ++ counts.now ∷ [] }
        ensures room { self.new.room ≡ self.old.room }
        ensures workers { self.new.workers ≡ self.old.workers }
    {
        fit_base(&mut self.bases, counts);
        let last = self.bases.len() - 1;
        push_rises(&mut self.rises, self.bases.row(last), counts);
        self.bases_of.push_reserved(last as u32);
    }
}

// Adds the counts as another base, unless each of them is above the last base's count by less than 65,536.
fn fit_base(bases: &mut RowTable<u64>, counts: &[u64])
    requires room { length bases.old.rows < bases.old.room }
    requires width { length counts.now ≡ bases.old.width }
    ensures near { AreNear (slice_index_or bases.new.rows (length bases.new.rows - 1) []) counts.now }
    ensures some { 0 < length bases.new.rows }
    ensures bases { GoesOnByOne bases.old.rows bases.new.rows }
    ensures room { bases.new.room ≡ bases.old.room }
    ensures width { bases.new.width ≡ bases.old.width }
{
    if !are_near_last(bases, counts) {
        bases.push(counts);
    }
}

// Whether there is a base, and each count is above the last base's count by less than 65,536.
fn are_near_last(bases: &RowTable<u64>, counts: &[u64]) -> bool
    requires { length counts.now ≡ bases.now.width }
    ensures some { IsTrue result → 0 < length bases.now.rows }
    ensures near { IsTrue result
        → AreNear (slice_index_or bases.now.rows (length bases.now.rows - 1) []) counts.now }
{
    let count = bases.len();
    count > 0 && are_near(bases.row(count - 1), counts)
}

// Whether each count is above the base's count by less than 65,536.
fn are_near(base: &[u64], counts: &[u64]) -> bool
    requires { length base.now ≡ length counts.now }
    ensures { IsTrue result → AreNear base.now counts.now }
{
    for i in 0..counts.len() {
        if counts[i] < base[i] || counts[i] - base[i] >= 65_536 {
            return false;
        }
    }
    true
}
