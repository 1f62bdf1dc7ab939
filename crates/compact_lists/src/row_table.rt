ghost use Rattle.std.specs.Prelude.{◌≡◌, ◌<◌, ◌≤◌, ◌+◌, ◌^◌, ◌++◌, ◌∷◌, [], length, IfOk, Some, slice_get};
ghost use Rattle.std.specs.Prelude.{vec_capacity, vec_len};
ghost use Rattle.compact_lists.specs.Counts.{AreNear, rises_over};

use std::alloc::{AllocError, Global};
use std::marker::Model;

// Rows of equal width, one after another in one list, which has all the room that it will have.
#[derive(Drop)]
pub(crate) struct RowTable<T: Copy> {
    items: Vec<T>,
    width: usize,
    rows: usize,
    room: u32,
}

impl<T: Copy> Model for RowTable<T> {
    ghost use Rattle.std.specs.Prelude.{◌≡◌, ◌<◌, ◌≤◌, ◌*◌, ◌^◌, length, vec_capacity};
    ghost use Rattle.compact_lists.specs.Rows.{RowsValue, cut_rows};

    ghost Value = { RowsValue T };

    ghost view = { λ t. record {
      rows = cut_rows t.width t.rows t.items.items;
      room = t.room;
      width = t.width;
    } };

    ghost invariant = { λ t. (length t.items.items ≡ t.rows * t.width) × (t.rows ≤ t.room) × (t.rows < 2 ^ 32)
        × (t.room * t.width ≤ vec_capacity t.items) × (t.width < 2 ^ 32) };
}

impl<T: Copy> RowTable<T> {
    // The empty table of rows of a width, with room for a number of rows.
    pub(crate) fn with_room(
        alloc: Global,
        room: u32,
        width: usize,
    ) -> Result<RowTable<T>, AllocError>
        requires { width < 2 ^ 32 }
        ensures { IfOk result (λ t. t ≡ record { rows = []; room = room; width = width }) }
    {
        let items = Vec::with_capacity(alloc, room as usize * width)?;
        Ok(RowTable {
            items,
            width,
            rows: 0,
            room,
        })
    }

    pub(crate) fn len(&self) -> usize
        ensures count { result ≡ length self.now.rows }
        ensures most { result ≤ self.now.room }
        ensures few { result < 2 ^ 32 }
    {
        self.rows
    }

    pub(crate) fn width(&self) -> usize
        ensures { result ≡ self.now.width }
    {
        self.width
    }

    pub(crate) fn row(&self, index: usize) -> &[T]
        requires { index < length self.now.rows }
        ensures row { slice_get self.now.rows index ≡ Some result.now }
        ensures width { length result.now ≡ self.now.width }
    {
        let from = index * self.width;
        &self.items[from..from + self.width]
    }

    pub(crate) fn push(&mut self, row: &[T])
        requires room { length self.old.rows < self.old.room }
        requires width { length row.now ≡ self.old.width }
        ensures rows { self.new.rows ≡ self.old.rows ++ row.now ∷ [] }
        ensures room { self.new.room ≡ self.old.room }
        ensures width { self.new.width ≡ self.old.width }
    {
        add_all(&mut self.items, row);
        self.rows += 1;
    }
}

// Adds the row of how much each count is above the base's.
pub(crate) fn push_rises(table: &mut RowTable<u16>, base: &[u64], counts: &[u64])
    requires room { length table.old.rows < table.old.room }
    requires width { length counts.now ≡ table.old.width }
    requires same { length base.now ≡ length counts.now }
    requires near { AreNear base.now counts.now }
    ensures rows { table.new.rows ≡ table.old.rows ++ rises_over base.now counts.now ∷ [] }
    ensures room { table.new.room ≡ table.old.room }
    ensures width { table.new.width ≡ table.old.width }
{
    add_rises(&mut table.items, base, counts);
    table.rows += 1;
}

// Appends how much each count is above the base's to a list that has room for it.
fn add_rises(list: &mut Vec<u16>, base: &[u64], counts: &[u64])
    requires room { vec_len list.old + length counts.now ≤ vec_capacity list.old }
    requires same { length base.now ≡ length counts.now }
    requires near { AreNear base.now counts.now }
    ensures items { list.new.items ≡ list.old.items ++ rises_over base.now counts.now }
    ensures capacity { vec_capacity list.new ≡ vec_capacity list.old }
{
    for i in 0..counts.len() {
        list.push_reserved((counts[i] - base[i]) as u16);
    }
}

/// Appends elements to a list that has room for them.
pub fn add_all<T: Copy>(list: &mut Vec<T>, more: &[T])
    requires { vec_len list.old + length more.now ≤ vec_capacity list.old }
    ensures items { list.new.items ≡ list.old.items ++ more.now }
    ensures capacity { vec_capacity list.new ≡ vec_capacity list.old }
{
    for item in more {
        list.push_reserved(*item);
    }
}
