ghost use Rattle.std.specs.Prelude.{◌≡◌, ◌↔◌, ◌+◌, ◌^◌, ◌<◌, ◌≤◌, IfSome, IsTrue, length, min, slice_get};
ghost use Rattle.std.specs.Prelude.{slice_index};
ghost use Rattle.beat_board.specs.Values.{last_seen, SeatValue};
ghost use Rattle.job_threads.specs.Watching.{AreLooks, HaveBeaten, HaveFirstBeaten, is_stopped_in};

use crate::aim::Aim;
use crate::common::{Flags, GoingOn};
use crate::holdings::Holding;
use beat_board::{Board, Maker, Reader, Seat};
use node_ids::WorkerNo;
use shared_master::OfJob;
use std::alloc::{AllocError, Global};
use std::cell::Cell;
use std::marker::{Model, PhantomData};
use std::time::Instant;
use word_map::Pace;

// A worker beats once for so many words and comparisons of its map or merge.
const STRIDE: u32 = 4096;

// A seat of a worker of the job, at the board of the run.
#[derive(Drop)]
struct Seated<L: OfJob + Aim> {
    seat: Seat,
    worker: WorkerNo,
    of: PhantomData<L>,
}

impl<L: OfJob + Aim> Model for Seated<L> {
    ghost use Rattle.std.specs.Prelude.{◌≡◌, ◌<◌, length};
    ghost use Rattle.beat_board.specs.Values.{SeatValue};

    ghost Value = { SeatValue };

    ghost view = { λ s. s.seat };

    ghost invariant = { λ s. (s.seat.board ≡ L.board.board) × (s.seat.worker ≡ s.worker)
        × (s.worker < length L.setup.cluster.slots) };
}

impl<L: OfJob + Aim> Seated<L> {
    fn worker(&self) -> WorkerNo
        ensures value { result ≡ self.now.worker }
        ensures of_job { result < length L.setup.cluster.slots }
    {
        self.worker
    }

    // One beat, unless the seat is worn. The worker of the seat was seen to go on.
    fn beat(&mut self, board: &Board, _going: &GoingOn)
        requires board { board.now ≡ L.board }
        requires going { _going.now.worker ≡ self.old.worker }
        ensures worker { self.new.worker ≡ self.old.worker }
        ensures beats { self.new.beats ≡ min (self.old.beats + 1) (2 ^ 40) }
    {
        let _ = board.beat(&mut self.seat);
    }

    // The seat.
    fn into_seat(self) -> Seat
        ensures same { result ≡ self }
        ensures board { result.board ≡ L.board.board }
    {
        self.seat
    }
}

// The board, and a worker's seat at it.
#[derive(Drop)]
pub(crate) struct Pulse<'a, L: OfJob + Aim> {
    board: &'a Board,
    seated: Seated<L>,
}

impl<'a, L: OfJob + Aim> Model for Pulse<'a, L> {
    ghost use Rattle.std.specs.Prelude.{◌≡◌};
    ghost use Rattle.beat_board.specs.Values.{SeatValue};

    ghost Value = { SeatValue };

    ghost view = { λ p. p.seated };

    ghost invariant = { λ p. p.board.now ≡ L.board };
}

// The beats of a worker's thread, also while it maps and merges. They end where the run is over or the worker
// is stopped.
#[derive(Drop)]
pub(crate) struct Beating<'a, 'b, L: OfJob + Aim> {
    board: &'a Board,
    // (a map tells its pace by a shared reference, while it compares words)
    seated: Cell<Option<Seated<L>>>,
    // how many steps are left until the next beat
    left: Cell<u32>,
    flags: &'b Flags,
    ghost of_run: { board.now ≡ L.board },
    ghost of_all: { length flags.now.workers.items ≡ length L.setup.cluster.slots },
}

impl<'a, 'b, L: OfJob + Aim> Beating<'a, 'b, L> {
    pub(crate) fn new(pulse: Pulse<'a, L>, flags: &'b Flags) -> Beating<'a, 'b, L>
        requires { length flags.now.workers.items ≡ length L.setup.cluster.slots }
    {
        let Pulse { board, seated } = pulse;
        Beating {
            board,
            seated: Cell::new(Some(seated)),
            left: Cell::new(STRIDE),
            flags,
        }
    }

    // Beats once if the worker goes on, and gives a token that it does.
    pub(crate) fn beat(&self) -> Option<GoingOn> {
        let mut seated = self.seated.take()?;
        let going = self.flags.go_on(seated.worker());
        if let Some(going) = &going {
            seated.beat(self.board, going);
        }
        self.seated.set(Some(seated));
        going
    }

    // The seat, when the thread ends.
    pub(crate) fn seat(&self) -> Option<Seat>
        ensures { IfSome result (λ seat. seat.board ≡ L.board.board) }
    {
        match self.seated.take() {
            Some(seated) => Some(seated.into_seat()),
            None => None,
        }
    }
}

impl<L: OfJob + Aim> Pace for Beating<'_, '_, L> {
    fn goes_on(&self) {
        let left = self.left.get();
        if left > 0 {
            self.left.set(left - 1);
            return;
        }
        self.left.set(STRIDE);
        self.beat();
    }
}

// What the calling thread sees of the board, and what of it was handed in last.
#[derive(Drop)]
pub(crate) struct Watch<'a, L: OfJob + Aim> {
    board: &'a Board,
    maker: Maker,
    reader: Reader,
    // a count for each worker of the job
    told: Vec<u64>,
    // when it was handed in, if it was and there is a clock
    pub(crate) told_at: Option<Instant>,
    of: PhantomData<L>,
}

impl<'a, L: OfJob + Aim> Model for Watch<'a, L> {
    ghost use Rattle.std.specs.Prelude.{◌≡◌, ◌≤◌, length};
    ghost use Rattle.job_threads.specs.Watching.{WatchValue};

    ghost Value = { WatchValue };

    ghost view = { λ w. record { reader = w.reader; told = w.told.items } };

    ghost invariant = { λ w. (w.maker.board ≡ w.board.now.board)
        × (w.reader.board ≡ w.board.now.board) × (w.board.now ≡ L.board)
        × (length w.told.items ≡ w.board.now.workers) × (length w.told.items ≤ 1024)
        × (length w.told.items ≡ length L.setup.cluster.slots) };
}

impl<'a, L: OfJob + Aim> Watch<'a, L> {
    // A watch over a board of the job's workers, of whose beats none was handed in yet.
    pub(crate) fn new(
        alloc: Global,
        board: &'a Board,
        mut maker: Maker,
        workers: usize,
    ) -> Result<Watch<'a, L>, AllocError>
        requires board { (board.now ≡ L.board) × (maker.board ≡ board.now.board) }
        requires workers { (workers ≡ board.now.workers) × (workers ≤ 1024) }
        requires job { workers ≡ length L.setup.cluster.slots }
    {
        let Ok(reader) = board.reader(&mut maker) else {
            return Err(AllocError);
        };
        Ok(Watch {
            board,
            maker,
            reader,
            told: vec![in alloc; 0; workers]?,
            told_at: None,
            of: PhantomData,
        })
    }

    // A seat of a worker.
    pub(crate) fn pulse(&mut self, worker: WorkerNo) -> Option<Pulse<'a, L>>
        ensures seat { IfSome result (λ p. p.worker ≡ worker) }
        ensures same { self.new ≡ self.old }
    {
        if worker.index() >= self.told.len() {
            return None;
        }
        let seat = self.board.seat(&mut self.maker, worker).ok()?;
        let seated = Seated {
            seat,
            worker,
            of: PhantomData,
        };
        Some(Pulse {
            board: self.board,
            seated,
        })
    }

    // Who made the seats of the board, and who looked at it.
    pub(crate) fn into_ends(self) -> (Maker, Reader)
        ensures reader { result.1 ≡ self.entry.reader }
        ensures boards { (result.0.board ≡ L.board.board) × (result.1.board ≡ L.board.board) }
    {
        (self.maker, self.reader)
    }

    // Looks at the beats of each worker, to hand their counts in.
    pub(crate) fn look(&mut self)
        ensures { AreLooks self.old self.new }
    {
        look_at_each(self.board, &mut self.reader, &mut self.told);
    }

    // The counts that were handed in last.
    pub(crate) fn told(&self) -> &[u64]
        ensures value { result.now ≡ self.now.told }
        ensures size { length result.now ≡ length L.setup.cluster.slots }
        ensures few { length result.now ≤ 1024 }
    {
        &self.told
    }

    // How many of a worker's beats were handed in last; 0 of a worker that the job has not.
    pub(crate) fn seen_of(&self, worker: WorkerNo) -> u64
        ensures { result ≡ slice_index self.now.told worker }
    {
        match self.told.get(worker.index()) {
            Some(count) => *count,
            None => 0,
        }
    }

    // Whether of each worker that was not stopped more beats are seen than were handed in last.
    pub(crate) fn have_beaten(&mut self, workers: &[Holding]) -> bool
        ensures value { IsTrue result ↔ HaveBeaten self.new workers.now }
        ensures told { self.new.told ≡ self.old.told }
    {
        have_beaten(self.board, &mut self.reader, &self.told, workers)
    }
}

// Looks at each worker, and keeps its count.
fn look_at_each(board: &Board, reader: &mut Reader, counts: &mut Vec<u64>)
    requires board { reader.old.board ≡ board.now.board }
    requires workers { length counts.old.items ≡ board.now.workers }
    requires few { length counts.old.items ≤ 1024 }
    ensures board { reader.new.board ≡ reader.old.board }
    ensures looks { AreLooks (record { reader = reader.old; told = counts.old.items })
        (record { reader = reader.new; told = counts.new.items }) }
{
    for worker in 0..counts.len() {
        counts[worker] = board.look(reader, WorkerNo::new(worker as u16));
    }
}

// Looks at the workers that were not stopped, up to the first that has made no more beats than were told of
// it: whether there is no such worker.
fn have_beaten(board: &Board, reader: &mut Reader, told: &[u64], workers: &[Holding]) -> bool
    requires board { reader.old.board ≡ board.now.board }
    requires workers { length told.now ≡ board.now.workers }
    requires few { length told.now ≤ 1024 }
    ensures board { reader.new.board ≡ reader.old.board }
    ensures value { IsTrue result
        ↔ HaveFirstBeaten (length told.now) told.now reader.new.looks workers.now }
{
    for number in 0..told.len() {
        if !is_stopped(workers, number) {
            let seen = board.look(reader, WorkerNo::new(number as u16));
            if seen <= told[number] {
                return false;
            }
        }
    }
    true
}

// Whether this worker was stopped, as far as one knows.
fn is_stopped(workers: &[Holding], worker: usize) -> bool
    ensures { result ≡ is_stopped_in (slice_get workers.now worker) }
{
    match workers.get(worker) {
        Some(holding) => holding.is_stopped,
        None => false,
    }
}
