//! The rows of a caller's arrays.
ghost use Rattle.std.specs.Prelude.{◌≡◌, ◌<◌, ℕ, length};
ghost use Rattle.std.specs.List.{slice_index_or};
ghost use Rattle.wave_arrays.specs.declared.array_rows.PairRow.{PairRow};
ghost use Rattle.wave_arrays.specs.declared.array_rows.WidePairRow.{WidePairRow};
ghost use Rattle.wave_arrays.specs.Rows.{most_splits, narrow_rows, pairs_in, wide_rows, widened};

use crate::MAX_NARROW_SPLITS;
use wave_problem::MAX_SPLITS;

/// A worker: its rack, how many of its slots are free, and whether it lives, where 0 says no.
#[repr(C)]
#[derive(Clone, Copy, Debug, PartialEq, Eq)]
pub struct WorkerRow {
    pub rack: u16,
    pub free: u8,
    pub live: u8,
}

/// A split: its bytes, its holders, which stand in the array of all holders from a place on, and whether
/// it waits for a start, where 0 says no.
#[repr(C)]
#[derive(Clone, Copy, Debug, PartialEq, Eq)]
pub struct SplitRow {
    pub bytes: u64,
    pub first_holder: u32,
    pub holder_count: u16,
    pub pending: u16,
}

/// A split and a worker on which it may not start, in numbers of 16 bits.
#[repr(C)]
#[derive(Clone, Copy, Debug, PartialEq, Eq)]
pub struct PairRow {
    pub split: u16,
    pub worker: u16,
}

/// A split and a worker on which it may not start, in numbers of 32 bits.
#[repr(C)]
#[derive(Clone, Copy, Debug, PartialEq, Eq)]
pub struct WidePairRow {
    pub split: u32,
    pub worker: u32,
}

/// A cluster as one wave sees it, in arrays that are lent: how many data centres there are, the centre of
/// each rack, the workers, the splits, the workers that hold them, and the pairs that are barred. The pairs
/// have numbers of 16 bits, so the wave has at most 65,535 splits.
#[repr(C)]
#[derive(Drop)]
pub struct NarrowWave<'a> {
    pub centres: usize,
    pub centre_of: &'a [u16],
    pub workers: &'a [WorkerRow],
    pub splits: &'a [SplitRow],
    pub holders: &'a [u16],
    pub barred: &'a [PairRow],
}

impl<'a> NarrowWave<'a> {
    /// Its rows.
    pub fn rows(&self) -> WaveRows<'a>
        ensures { result ≡ narrow_rows self.now }
    {
        WaveRows {
            centres: self.centres,
            centre_of: self.centre_of,
            workers: self.workers,
            splits: self.splits,
            holders: self.holders,
            barred: BarredRows::Narrow(self.barred),
        }
    }
}

/// The same with pairs in numbers of 32 bits, so that the wave has as many splits as any.
#[repr(C)]
#[derive(Drop)]
pub struct WideWave<'a> {
    pub centres: usize,
    pub centre_of: &'a [u16],
    pub workers: &'a [WorkerRow],
    pub splits: &'a [SplitRow],
    pub holders: &'a [u16],
    pub barred: &'a [WidePairRow],
}

impl<'a> WideWave<'a> {
    /// Its rows.
    pub fn rows(&self) -> WaveRows<'a>
        ensures { result ≡ wide_rows self.now }
    {
        WaveRows {
            centres: self.centres,
            centre_of: self.centre_of,
            workers: self.workers,
            splits: self.splits,
            holders: self.holders,
            barred: BarredRows::Wide(self.barred),
        }
    }
}

/// The rows of a wave, narrow or wide.
#[derive(Drop)]
pub struct WaveRows<'a> {
    pub centres: usize,
    pub centre_of: &'a [u16],
    pub workers: &'a [WorkerRow],
    pub splits: &'a [SplitRow],
    pub holders: &'a [u16],
    pub barred: BarredRows<'a>,
}

/// The barred pairs of a wave.
#[derive(Drop)]
pub enum BarredRows<'a> {
    Narrow(&'a [PairRow]),
    Wide(&'a [WidePairRow]),
}

impl<'a> BarredRows<'a> {
    /// How many pairs there are.
    pub fn len(&self) -> usize
        ensures { result ≡ length (pairs_in self.now) }
    {
        match self {
            BarredRows::Narrow(rows) => rows.len(),
            BarredRows::Wide(rows) => rows.len(),
        }
    }

    /// The pair at a place.
    pub fn at(&self, place: usize) -> WidePairRow
        requires { place < length (pairs_in self.now) }
        ensures { (d : WidePairRow) → result ≡ slice_index_or (pairs_in self.now) place d }
    {
        match self {
            BarredRows::Narrow(rows) => widen(narrow_at(rows, place)),
            BarredRows::Wide(rows) => wide_at(rows, place),
        }
    }

    /// How many splits a wave with such pairs has at most.
    pub fn most_splits(&self) -> usize
        ensures { result ≡ most_splits self.now }
    {
        match self {
            BarredRows::Narrow(_) => MAX_NARROW_SPLITS,
            BarredRows::Wide(_) => MAX_SPLITS,
        }
    }
}

fn narrow_at(rows: &[PairRow], place: usize) -> PairRow
    requires { place < length rows.now }
    ensures { (d : PairRow) → result ≡ slice_index_or rows.now place d }
{
    rows[place]
}

fn widen(pair: PairRow) -> WidePairRow
    ensures { result ≡ widened pair }
{
    WidePairRow {
        split: pair.split as u32,
        worker: pair.worker as u32,
    }
}

fn wide_at(rows: &[WidePairRow], place: usize) -> WidePairRow
    requires { place < length rows.now }
    ensures { (d : WidePairRow) → result ≡ slice_index_or rows.now place d }
{
    rows[place]
}
