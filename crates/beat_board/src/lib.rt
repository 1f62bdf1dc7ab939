//! A board of beats: one word for each worker, which is the sum of the beats of its seats.
//!
//! Each thread that beats for a worker has a `Seat`, and each that looks has a `Reader`; the thread that
//! made the board keeps the `Maker`. A beat is one atomic addition and a look one atomic load, so neither
//! waits for anybody. Upward the layer promises: the beats of a worker are answered 1, 2, 3 and on, each
//! number once, whoever beats; no look of a reader is less than what it saw, or was told of a seat's beats,
//! before; `close` answers for each worker the sum of the beats that its seats made, above which no reader
//! saw anything, or how many seats are still out. The rule under which the threads' steps go together is
//! `specs/Rule.antt`: at every moment each word is the sum of the counts over what all threads know. It
//! stands on the words of `atomic_table`, on `view_sums` and on the numbers of `node_ids`.
//!
//! # How the layer above uses it
//! The calling thread makes board and maker, hands each worker's thread a seat, and keeps a reader. A
//! thread that ends gives its seat back by its join, and `close` takes them all. A contract tells what a
//! seat made and was told by its value `{ board; worker; beats; told }`, so a caller proves what the totals
//! are, whatever order the threads beat in. `thread_tests` proves this one, in which as many threads as there
//! are seats beat for one worker. What a thread gives back is told by a promise, since a join tells the type
//! alone:
//!
//! ```text
//! // What a thread gives back: a seat of the board and of the worker, with so many beats.
//! struct SeatOf<'a> { board: &'a Board, worker: WorkerNo, beats: u64 }
//!
//! impl<'a> thread::Promise<Seat> for SeatOf<'a> {
//!     ghost kept_by =
//!         { λ p s. (s.board ≡ p.board.now.board) × (s.worker ≡ p.worker) × (s.beats ≡ p.beats) };
//! }
//!
//! // in thread::scope, for each seat:
//! scope.spawn_with(SeatOf { board, worker, beats: times }, move || -> Seat
//!     requires { (seat.board ≡ board.now.board) × (seat.worker ≡ worker) × (seat.beats ≡ 0)
//!         × (times ≤ 2 ^ 40) }
//!     ensures { (result.board ≡ board.entry.now.board) × (result.worker ≡ worker) × (result.beats ≡ times) }
//! { beat_often(board, seat, times) })?
//! ```
#![tactic(auto)]

pub mod board;
pub mod tokens;
mod view;

pub use board::{Board, Missing, SeatError, Totals, Worn};
pub use tokens::{Maker, Reader, Seat};

/// How many workers a board has at most.
pub const MAX_WORKERS: usize = 1024;

/// How many seats and readers together are made of one board.
pub const MAX_SEATS: u64 = 4096;

/// How many beats one seat makes.
pub const MAX_BEATS: u64 = 1 << 40;
