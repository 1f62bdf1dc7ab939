ghost use Rattle.std.specs.Prelude.{◌≡◌, ◌≢◌, ◌+◌, ◌<◌, ◌≤◌, ◌^◌, ℕ, List, [], ◌∷◌, ◌++◌, ◌↔◌, map, length};
ghost use Rattle.std.specs.Prelude.{slice_index};
ghost use Rattle.std.specs.Prelude.{IfOk, IfErr, OnOk, OnErr, IsOk, IsErr};
ghost use Rattle.std.specs.List.{All};
ghost use Rattle.std.specs.Slots.{slots_items, slots_len, IsFull};
ghost use Rattle.beat_board.specs.Values.{beats_by, told_by, last_seen, look, AreWithin, AreToldOnce};
ghost use Rattle.beat_board.specs.Values.{BoardValue};
ghost use Rattle.beat_board.specs.Rule.{beats_of, told_of};
ghost use Rattle.beat_board.specs.Views.{making};

use crate::tokens::{Maker, Reader, Seat, Token};
use crate::view::{
    BeatStep, Gather, LookStep, ReaderSplit, SeatSplit, Sums, TellSplit, TurnStep, View,
};
use crate::{MAX_BEATS, MAX_WORKERS};
use atomic_table::{Closed, Shared, Table};
use node_ids::WorkerNo;
use std::alloc::{AllocError, Global};
use std::marker::Model;
use thiserror::Error;

/// A word for each worker, which threads share by a reference: the sum of the beats of the worker's seats.
#[derive(Drop)]
pub struct Board {
    table: Table<u8, View, (), Sums, Global>,
    workers: usize,
}

impl Model for Board {
    ghost Value = { BoardValue };

    ghost view = { λ b. record { board = b.table.shared.table_id; workers = b.workers } };

    ghost invariant = { λ b. (b.table.shared.table_id.words ≡ 1024) × (b.table.shared.table_id.slots ≡ 0)
        × (b.workers ≤ 1024) };
}

/// Why no seat or reader was made.
#[derive(Clone, Copy, Debug, PartialEq, Eq, Error)]
pub enum SeatError {
    /// The maker has made as many seats and readers together as a board has.
    #[error("no more seats")]
    Limit,
    /// There is no memory. A seat and a reader take none, so this is never answered.
    #[error("no memory")]
    Memory,
}

/// The seat has made as many beats as a seat may.
#[derive(Clone, Copy, Debug, PartialEq, Eq, Error)]
#[error("the seat is worn")]
pub struct Worn;

/// The beats of each worker when its board was closed.
#[derive(Clone, Copy, Debug, PartialEq, Eq)]
pub struct Totals {
    /// By the worker's number, from 0. It is 0 for a number that the board has not.
    pub beats: [u64; MAX_WORKERS],
}

/// Seats are missing, and the board is as it was. All that was given comes back.
#[derive(Drop)]
pub struct Missing {
    /// How many seats fewer were given than were made.
    pub count: u64,
    /// The board, which is still open.
    pub board: Board,
    /// Its maker.
    pub maker: Maker,
    /// The seats that were given, in their order.
    pub seats: Vec<Seat>,
    /// The readers that were given, in their order.
    pub readers: Vec<Reader>,
}

impl Board {
    /// A board for so many workers, numbered from 0, and the one maker of its seats and readers. It takes
    /// all its memory here: 8 KiB.
    pub fn new(alloc: Global, workers: usize) -> Result<(Board, Maker), AllocError>
        requires { workers ≤ 1024 }
        ensures workers { IfOk result (λ r. r.0.workers ≡ workers) }
        ensures maker { IfOk result (λ r. r.1 ≡ record { board = r.0.board; seats = 0; readers = 0 }) }
    {
        let words = zeros();
        let (table, token) = Table::of_words(alloc, &words, &())?;
        let board = Board { table, workers };
        let maker = Maker {
            token,
            seats: 0,
            readers: 0,
        };
        Ok((board, maker))
    }

    /// A seat of a worker, with no beat yet. A worker may have several.
    pub fn seat(&self, maker: &mut Maker, worker: WorkerNo) -> Result<Seat, SeatError>
        requires board { maker.old.board ≡ self.now.board }
        requires worker { worker < self.now.workers }
        ensures seat { IfOk result (λ s. s
            ≡ record { board = self.now.board; worker = worker; beats = 0; told = [] }) }
        ensures made { OnOk result (maker.new ≡ record maker.old { seats = maker.old.seats + 1 }) }
        ensures err { OnErr result (maker.new ≡ maker.old) }
        ensures limit { (result ≡ Err SeatError.Limit) ↔ (maker.old.seats + maker.old.readers ≡ 4096) }
        ensures memory { result ≢ Err SeatError.Memory }
    {
        if maker.is_full() {
            return Err(SeatError::Limit);
        }
        let worker = worker.index();
        let shared = &self.table.shared;
        shared.load::<TurnStep>(&mut maker.token, worker);
        let token = shared.split_seat::<SeatSplit>(&mut maker.token);
        maker.seats += 1;
        Ok(Seat {
            token,
            worker,
            beats: 0,
        })
    }

    /// A reader that has seen nothing yet. It may look at every worker.
    pub fn reader(&self, maker: &mut Maker) -> Result<Reader, SeatError>
        requires { maker.old.board ≡ self.now.board }
        ensures reader { IfOk result (λ r. r ≡ record { board = self.now.board; looks = [] }) }
        ensures made { OnOk result (maker.new ≡ record maker.old { readers = maker.old.readers + 1 }) }
        ensures err { OnErr result (maker.new ≡ maker.old) }
        ensures limit { (result ≡ Err SeatError.Limit) ↔ (maker.old.seats + maker.old.readers ≡ 4096) }
        ensures memory { result ≢ Err SeatError.Memory }
    {
        if maker.is_full() {
            return Err(SeatError::Limit);
        }
        let token = self
            .table
            .shared
            .split_seat::<ReaderSplit>(&mut maker.token);
        maker.readers += 1;
        Ok(Reader { token })
    }

    /// One beat, which is one atomic addition to the worker's word. It answers the word after the beat,
    /// which has all beats of this seat and may have others of the same worker.
    pub fn beat(&self, seat: &mut Seat) -> Result<u64, Worn>
        requires { seat.old.board ≡ self.now.board }
        ensures board { seat.new.board ≡ seat.old.board }
        ensures counted { IfOk result (λ word. seat.new
            ≡ record seat.old { beats = seat.old.beats + 1; told = word ∷ seat.old.told }) }
        ensures told { IfOk result (λ word. seat.new.beats ≤ word) }
        ensures rises { IfOk result (λ word. All (λ n. n < word) seat.old.told) }
        ensures worn { IsErr result ↔ (seat.old.beats ≡ 2 ^ 40) }
        ensures err { OnErr result (seat.new ≡ seat.old) }
        ensures most { seat.new.beats ≤ 2 ^ 40 }
    {
        if seat.beats >= MAX_BEATS {
            return Err(Worn);
        }
        let worker = seat.worker;
        let found = self
            .table
            .shared
            .fetch_add::<BeatStep>(&mut seat.token, worker, 1);
        seat.beats += 1;
        Ok(found + 1)
    }

    /// The word of a worker, which is one atomic load. It is no less than what this reader saw of the worker
    /// before, and than what it was told of a seat's beats.
    pub fn look(&self, reader: &mut Reader, worker: WorkerNo) -> u64
        requires board { reader.old.board ≡ self.now.board }
        requires worker { worker < self.now.workers }
        ensures board { reader.new.board ≡ reader.old.board }
        ensures rises { last_seen worker reader.old.looks ≤ result }
        ensures above { All (λ x. x.worker ≡ worker → x.beats ≤ result) reader.old.looks }
        ensures seen { reader.new.looks ≡ look worker result ∷ reader.old.looks }
    {
        self.table
            .shared
            .load::<LookStep>(&mut reader.token, worker.index())
    }

    /// Tells a reader what the seat's beats were answered, so that no later look is less. A thread that beats
    /// can hand such a reader to one that looks.
    pub fn tell(&self, seat: &mut Seat, reader: &mut Reader)
        requires seat { seat.old.board ≡ self.now.board }
        requires reader { reader.old.board ≡ self.now.board }
        ensures seat { seat.new ≡ seat.old }
        ensures reader { reader.new ≡ record reader.old {
          looks = map (λ n. look seat.old.worker n) seat.old.told ++ reader.old.looks;
        } }
    {
        let shared = &self.table.shared;
        let told = shared.split_seat::<TellSplit>(&mut seat.token);
        shared.join_seat::<Gather>(&mut reader.token, told);
    }

    /// Ends the board: for each worker the sum of the beats that its seats made. It needs every seat that was
    /// made; readers need not come back.
    pub fn close(
        self,
        maker: Maker,
        seats: Vec<Seat>,
        readers: Vec<Reader>,
    ) -> Result<Totals, Missing>
        requires maker { maker.board ≡ self.board }
        requires seats { All (λ s. s.board ≡ self.board) seats.items }
        requires readers { All (λ r. r.board ≡ self.board) readers.items }
        ensures complete { IsOk result ↔ (length seats.items ≡ maker.seats) }
        ensures totals { IfOk result (λ t. (w : ℕ) → w < 1024
            → slice_index t.beats w ≡ beats_by w seats.items) }
        ensures told { IfOk result (λ t. (w : ℕ) → w < 1024
            → AreToldOnce w (slice_index t.beats w) seats.items) }
        ensures seen { IfOk result (λ t. All (λ r. AreWithin t.beats r.looks) readers.items) }
        ensures missing { IfErr result (λ m. length seats.items + m.count ≡ maker.seats) }
        ensures given_back { IfErr result (λ m.
            (m.board ≡ self) × (m.maker ≡ maker) × (m.seats ≡ seats) × (m.readers ≡ readers)) }
    {
        let given = seats.len() as u64;
        if given < maker.seats {
            return Err(Missing {
                count: maker.seats - given,
                board: self,
                maker,
                seats,
                readers,
            });
        }
        Ok(self.totals(maker, seats, readers))
    }

    fn totals(self, maker: Maker, seats: Vec<Seat>, readers: Vec<Reader>) -> Totals
        requires maker { maker.board ≡ self.board }
        requires seats { All (λ s. s.board ≡ self.board) seats.items }
        requires readers { All (λ r. r.board ≡ self.board) readers.items }
        requires all { maker.seats ≤ length seats.items }
        ensures made { length seats.items ≡ maker.seats }
        ensures sums { (w : ℕ) → w < 1024 → slice_index result.beats w ≡ beats_by w seats.items }
        ensures told { (w : ℕ) → w < 1024 → AreToldOnce w (slice_index result.beats w) seats.items }
        ensures seen { All (λ r. AreWithin result.beats r.looks) readers.items }
    {
        let Board { table, workers: _ } = self;
        let Maker {
            mut token,
            seats: _,
            readers: _,
        } = maker;
        gather_seats(&table.shared, &mut token, seats);
        gather_readers(&table.shared, &mut token, readers);
        let closed = table.close_with(token);
        let beats = words_of(&closed);
        closed.free();
        Totals { beats }
    }
}

fn zeros() -> [u64; MAX_WORKERS]
    ensures length { length result ≡ 1024 }
    ensures zeros { (k : ℕ) → k < 1024 → slice_index result k ≡ 0 }
{
    [0; MAX_WORKERS]
}

// The words of a closed board.
fn words_of(closed: &Closed<u8, Global>) -> [u64; MAX_WORKERS]
    requires { IsFull closed.now.words × (slots_len closed.now.words ≡ 1024) }
    ensures { result ≡ slots_items closed.now.words }
{
    let mut beats = zeros();
    for worker in 0..MAX_WORKERS {
        beats[worker] = closed.word(worker);
    }
    beats
}

// Joins all seats to the maker's token.
fn gather_seats(shared: &Shared<u8, View, (), Sums>, token: &mut Token, mut seats: Vec<Seat>)
    requires board { (token.old.table_id ≡ shared.now.table_id) × (shared.now.table_id.words ≡ 1024) }
    requires maker { (token.old.id ≡ 0)
        × (token.old.me.0 ≡ making [] [] token.old.me.0.next token.old.me.0.made) }
    requires seats { All (λ s. s.board ≡ shared.now.table_id) seats.items }
    ensures same { (token.new.table_id ≡ token.old.table_id) × (token.new.id ≡ 0)
        × (token.new.me.1 ≡ token.old.me.1) }
    ensures view { token.new.me.0 ≡ making token.new.me.0.tallies [] token.new.me.0.next token.old.me.0.made }
    ensures count { length token.new.me.0.tallies ≡ length seats.items }
    ensures sums { (w : ℕ) → beats_of w token.new.me.0.tallies ≡ beats_by w seats.items }
    ensures told { (w : ℕ) (weight : ℕ → ℕ) → told_of w weight token.new.me.0.tallies
        ≡ told_by w weight seats.items }
{
    while let Some(seat) = seats.pop() {
        let Seat {
            token: other,
            worker: _,
            beats: _,
        } = seat;
        shared.join_seat::<Gather>(token, other);
    }
}

// Joins all readers to the maker's token, which has the seats.
fn gather_readers(shared: &Shared<u8, View, (), Sums>, token: &mut Token, mut readers: Vec<Reader>)
    requires board { (token.old.table_id ≡ shared.now.table_id) × (shared.now.table_id.words ≡ 1024) }
    requires readers { All (λ r. r.board ≡ shared.now.table_id) readers.items }
    ensures same { (token.new.table_id ≡ token.old.table_id) × (token.new.id ≡ token.old.id)
        × (token.new.me.1 ≡ token.old.me.1) }
    ensures view { token.new.me.0 ≡ making token.old.me.0.tallies token.new.me.0.looks token.old.me.0.next
        token.old.me.0.made }
    ensures looks { (words : List ℕ) → AreWithin words token.new.me.0.looks
        → All (λ r. AreWithin words r.looks) readers.items }
{
    while let Some(reader) = readers.pop() {
        let Reader { token: other } = reader;
        shared.join_seat::<Gather>(token, other);
    }
}
