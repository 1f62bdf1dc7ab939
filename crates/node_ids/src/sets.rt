ghost use Rattle.std.specs.Prelude.{◌≡◌, ℕ, ◌*◌, ◌^◌, ◌<◌, ◌⊎◌, ◌↔◌, All, [], IfOk, IsTrue, OnOk, length};
ghost use Rattle.node_ids.specs.Sets.{Has, has_number, is_in_row, row_of_all, row_with, with_number};
ghost use Rattle.node_ids.specs.Sets.{emptied, no_numbers};
ghost use Rattle.std.specs.List.Sorted.{IsNonDecreasing};

use crate::numbers::SplitNo;
use std::alloc::{AllocError, Global};
use std::marker::Model;

#[tactic(auto, using(std::proofs::lemmas::Nat::Bits::shr_and_one))]
pub(crate) fn has_bit(words: &[u64], n: usize) -> bool
    requires { n < 64 * length words.now }
    ensures { result ≡ has_number words.now n }
{
    (words[n / 64] >> (n % 64)) & 1 == 1
}

pub(crate) fn set_bit(words: &mut [u64], n: usize)
    requires { n < 64 * length words.old }
    ensures value { words.new ≡ with_number words.old n }
    ensures members { (k : ℕ) → Has words.new k ↔ ((k ≡ n) ⊎ Has words.old k) }
{
    words[n / 64] |= 1 << (n % 64);
}

// Sets each word to 0.
fn empty(words: &mut Vec<u64>)
    ensures { words.new.items ≡ emptied words.old.items }
{
    for word in words.iter_mut() {
        *word = 0;
    }
}

/// A set of splits as a table of bits, for the splits that it was made for. To put one in takes no memory.
#[derive(Drop)]
pub struct SplitTable {
    words: Vec<u64>,
}

impl Model for SplitTable {
    ghost use Rattle.std.specs.Prelude.{List, ℕ};

    ghost Value = { List ℕ };

    ghost view = { λ t. t.words.items };
}

impl SplitTable {
    /// An empty table for so many splits. It takes 8 bytes for each 64 of them.
    pub fn new(alloc: Global, splits: usize) -> Result<SplitTable, AllocError>
        requires { splits < 2 ^ 32 }
        ensures { IfOk result (λ table. table ≡ no_numbers splits) }
    {
        Ok(SplitTable {
            words: vec![in alloc; 0; (splits + 63) / 64]?,
        })
    }

    /// Whether the split is in the table. A split that the table was not made for is not.
    pub fn has(&self, split: SplitNo) -> bool
        ensures { result ≡ has_number self.now split }
    {
        split.index() / 64 < self.words.len() && has_bit(&self.words, split.index())
    }

    /// Puts the split in, if the table was made for it.
    pub fn put(&mut self, split: SplitNo)
        ensures { self.new ≡ with_number self.old split }
    {
        if split.index() / 64 < self.words.len() {
            set_bit(&mut self.words, split.index());
        }
    }

    /// Takes all splits out.
    pub fn clear(&mut self)
        ensures { self.new ≡ emptied self.old }
    {
        empty(&mut self.words);
    }
}

/// A set of splits: their numbers, rising. It takes 4 bytes for each member.
#[derive(Drop)]
pub struct SplitSet {
    splits: Vec<SplitNo>,
}

impl Model for SplitSet {
    ghost use Rattle.std.specs.Prelude.{List, ℕ};
    ghost use Rattle.std.specs.List.Sorted.{IsNonDecreasing};

    ghost Value = { List ℕ };

    ghost view = { λ s. s.splits.items };

    ghost invariant = { λ s. IsNonDecreasing s.splits.items };
}

impl SplitSet {
    /// The set without a member.
    pub fn new(alloc: Global) -> SplitSet
        ensures { result ≡ [] }
    {
        SplitSet {
            splits: Vec::new(alloc),
        }
    }

    /// The set of these splits, in time n log n.
    pub fn of(alloc: Global, splits: &[SplitNo]) -> Result<SplitSet, AllocError>
        ensures { IfOk result (λ set. set ≡ row_of_all splits.now) }
    {
        let mut sorted = Vec::with_capacity(alloc, splits.len())?;
        sorted.extend_from_slice(splits)?;
        sorted.sort_unstable();
        let mut set = SplitSet::new(alloc);
        for split in &sorted {
            set.put(*split)?;
        }
        Ok(set)
    }

    /// Whether the split is in the set.
    pub fn has(&self, split: SplitNo) -> bool
        ensures { result ≡ is_in_row self.now split }
    {
        self.splits.binary_search(&split).is_ok()
    }

    /// Puts the split in, if it is not there. The members above it move up.
    pub fn put(&mut self, split: SplitNo) -> Result<(), AllocError>
        ensures { OnOk result (self.new ≡ row_with split self.old) }
    {
        put_in_row(&mut self.splits, split)
    }

    /// Whether all members are below the number of splits.
    pub fn are_below(&self, splits: usize) -> bool
        ensures { IsTrue result ↔ All (λ split. split < splits) self.now }
    {
        for split in &self.splits {
            if split.index() >= splits {
                return false;
            }
        }
        true
    }

    /// The members, rising.
    pub fn members(&self) -> &[SplitNo]
        ensures value { result.now ≡ self.now }
        ensures rising { IsNonDecreasing result.now }
    {
        &self.splits
    }
}

// Puts the split in the row, if it is not there.
fn put_in_row(row: &mut Vec<SplitNo>, split: SplitNo) -> Result<(), AllocError>
    requires { IsNonDecreasing row.old.items }
    ensures value { OnOk result (row.new.items ≡ row_with split row.old.items) }
    ensures rising { IsNonDecreasing row.new.items }
{
    if let Err(place) = row.binary_search(&split) {
        row.insert(place, split)?;
    }
    Ok(())
}

/// The members of a set of splits, lent.
#[derive(Drop)]
pub struct SplitRow<'a> {
    splits: &'a [SplitNo],
}

impl<'a> Model for SplitRow<'a> {
    ghost use Rattle.std.specs.Prelude.{List, ℕ};
    ghost use Rattle.std.specs.List.Sorted.{IsNonDecreasing};

    ghost Value = { List ℕ };

    ghost view = { λ r. r.splits.now };

    ghost invariant = { λ r. IsNonDecreasing r.splits.now };
}

impl<'a> SplitRow<'a> {
    /// The members of the set.
    pub fn of(set: &'a SplitSet) -> SplitRow<'a>
        ensures { result ≡ set.now }
    {
        SplitRow {
            splits: &set.splits,
        }
    }

    /// The members, rising.
    pub fn members(&self) -> &'a [SplitNo]
        ensures value { result.now ≡ self.now }
        ensures rising { IsNonDecreasing result.now }
    {
        self.splits
    }

    /// A set of the same members.
    pub fn to_set(&self, alloc: Global) -> Result<SplitSet, AllocError>
        ensures { IfOk result (λ set. set ≡ self.now) }
    {
        let mut splits = Vec::with_capacity(alloc, self.splits.len())?;
        splits.extend_from_slice(self.splits)?;
        Ok(SplitSet { splits })
    }

    /// Whether both have the same members.
    pub fn is_same(&self, other: &SplitRow<'_>) -> bool
        ensures { IsTrue result ↔ (self.now ≡ other.now) }
    {
        self.splits == other.splits
    }
}
