ghost use Rattle.std.specs.Prelude.{◌≡◌, ◌+◌, ◌*◌, ◌<◌, ◌≤◌, ◌^◌, length, vec_capacity, [], IfSome};
ghost use Rattle.std.specs.Prelude.{IsTrue};
ghost use Rattle.std.specs.List.{All};
ghost use Rattle.beat_board.specs.Values.{beats_by};

use beat_board::{Board, Maker, Reader, Seat, Totals, Worn};
use node_ids::WorkerNo;
use std::alloc::Global;
use std::process::Abort;
use std::sync::{Condvar, Mutex, Wait};
use std::thread;
use std::thread::{PromisedHandle, Scope, Threads};

// So many beats of the seat.
fn beat_often(board: &Board, mut seat: Seat, times: u64) -> Seat
    requires board { seat.board ≡ board.now.board }
    requires room { seat.beats + times ≤ 2 ^ 40 }
    ensures same { (result.board ≡ seat.board) × (result.worker ≡ seat.worker) }
    ensures beats { result.beats ≡ seat.beats + times }
{
    for _ in 0..times {
        let Ok(_) = board.beat(&mut seat) else {
            unreachable!()
        };
    }
    seat
}

// What a thread gives back: a seat of the board and of the worker, with so many beats.
#[derive(Clone, Copy)]
struct SeatOf<'a> {
    board: &'a Board,
    worker: WorkerNo,
    beats: u64,
}

impl<'a> thread::Promise<Seat> for SeatOf<'a> {
    ghost kept_by = { λ p s. (s.board ≡ p.board.now.board) × (s.worker ≡ p.worker) × (s.beats ≡ p.beats) };
}

// A thread of the scope, which beats so often with the seat.
fn start<'s, E>(
    rt: &impl Abort,
    scope: &Scope<'s, E>,
    board: &'s Board,
    worker: WorkerNo,
    seat: Seat,
    times: u64,
) -> PromisedHandle<Seat, SeatOf<'s>>
    requires seat { (seat.board ≡ board.now.board) × (seat.worker ≡ worker) × (seat.beats ≡ 0) }
    requires room { times ≤ 2 ^ 40 }
    ensures { (result.promise.board.now.board ≡ board.now.board) × (result.promise.worker ≡ worker)
        × (result.promise.beats ≡ times) }
{
    let promise = SeatOf {
        board,
        worker,
        beats: times,
    };
    let started = scope.spawn_with(
        promise,
        move || -> Seat
            requires { (seat.board ≡ board.now.board) × (seat.worker ≡ worker) × (seat.beats ≡ 0)
                × (times ≤ 2 ^ 40) }
            ensures { (result.board ≡ board.entry.now.board) × (result.worker ≡ worker)
                × (result.beats ≡ times) }
        {
            let _of = worker;
            beat_often(board, seat, times)
        },
    );
    started.expect(rt, "no thread")
}

// A thread for each seat.
fn start_each<'s, E>(
    rt: &impl Abort,
    scope: &Scope<'s, E>,
    alloc: Global,
    board: &'s Board,
    worker: WorkerNo,
    seats: Vec<Seat>,
    times: u64,
) -> Vec<PromisedHandle<Seat, SeatOf<'s>>>
    requires seats { All (λ s. (s.board ≡ board.now.board) × (s.worker ≡ worker) × (s.beats ≡ 0))
        seats.items }
    requires room { times ≤ 2 ^ 40 }
    ensures promises { All (λ t. (t.promise.board.now.board ≡ board.now.board) × (t.promise.worker ≡ worker)
        × (t.promise.beats ≡ times)) result.items }
    ensures count { length result.items ≡ length seats.items }
{
    let mut threads = Vec::new(alloc);
    for seat in seats {
        let thread = start(rt, scope, board, worker, seat, times);
        threads.push(thread).expect(rt, "no memory");
    }
    threads
}

// A thread for each seat, which beats so often, and the seats that come back.
fn each_beats<R: Threads + Wait + Sync + Abort>(
    rt: &R,
    alloc: Global,
    board: &Board,
    worker: WorkerNo,
    seats: Vec<Seat>,
    times: u64,
) -> Vec<Seat>
    requires seats { All (λ s. (s.board ≡ board.now.board) × (s.worker ≡ worker) × (s.beats ≡ 0))
        seats.items }
    requires room { times ≤ 2 ^ 40 }
    ensures board { All (λ s. s.board ≡ board.now.board) result.items }
    ensures beats { All (λ s. (s.worker ≡ worker) × (s.beats ≡ times)) result.items }
    ensures count { length result.items ≡ length seats.items }
{
    thread::scope(
        thread::scope_env(),
        rt,
        |scope| -> Vec<Seat>
            requires { All (λ s. (s.board ≡ board.now.board) × (s.worker ≡ worker) × (s.beats ≡ 0))
                seats.items
                × (times ≤ 2 ^ 40) }
            ensures { All (λ s. s.board ≡ board.entry.now.board) result.items
                × All (λ s. (s.worker ≡ worker) × (s.beats ≡ times)) result.items
                × (length result.items ≡ length seats.items) }
        {
            let threads = start_each(rt, scope, alloc, board, worker, seats, times);
            thread::join_promised(rt, threads).expect(rt, "no memory")
        },
    )
}

// So many looks at a worker. No look falls below the one before.
fn look_often(board: &Board, mut reader: Reader, worker: WorkerNo, times: u64) -> (Reader, bool)
    requires board { reader.board ≡ board.now.board }
    requires worker { worker < board.now.workers }
    ensures board { result.0.board ≡ board.now.board }
    ensures rose { IsTrue result.1 }
{
    let mut last = board.look(&mut reader, worker);
    let mut rose = true;
    for _ in 0..times {
        let seen = board.look(&mut reader, worker);
        rose = rose && seen >= last;
        last = seen;
    }
    (reader, rose)
}

// A thousand beats of each seat, in threads, while another thread looks on.
fn beat_and_look<R: Threads + Wait + Sync + Abort>(
    rt: &R,
    alloc: Global,
    board: &Board,
    worker: WorkerNo,
    seats: Vec<Seat>,
    reader: Reader,
) -> (Vec<Seat>, (Reader, bool))
    requires seats { All (λ s. (s.board ≡ board.now.board) × (s.worker ≡ worker) × (s.beats ≡ 0))
        seats.items }
    requires reader { (reader.board ≡ board.now.board) × (worker < board.now.workers) }
    ensures seats { All (λ s. s.board ≡ board.now.board) result.0.items }
    ensures reader { result.1.0.board ≡ board.now.board }
{
    thread::join(
        rt,
        || -> Vec<Seat>
            requires { All (λ s. (s.board ≡ board.now.board) × (s.worker ≡ worker) × (s.beats ≡ 0))
                seats.items }
            ensures { All (λ s. s.board ≡ board.entry.now.board) result.items }
        { each_beats(rt, alloc, board, worker, seats, 1000) },
        move || -> (Reader, bool)
            requires { (reader.board ≡ board.now.board) × (worker < board.now.workers) }
            ensures { result.0.board ≡ board.entry.now.board }
        { look_often(board, reader, worker, 1000) },
    )
}

// So many seats of the worker.
fn seats_of(
    rt: &impl Abort,
    alloc: Global,
    board: &Board,
    maker: &mut Maker,
    worker: WorkerNo,
    count: usize,
) -> Vec<Seat>
    requires board { maker.old.board ≡ board.now.board }
    requires worker { worker < board.now.workers }
    ensures maker { maker.new ≡ record maker.old { seats = maker.old.seats + count } }
    ensures seats { All (λ s. (s.board ≡ board.now.board) × (s.worker ≡ worker) × (s.beats ≡ 0))
        result.items }
    ensures count { length result.items ≡ count }
{
    let mut seats = Vec::new(alloc);
    for _ in 0..count {
        let seat = board.seat(maker, worker).expect(rt, "no seat");
        seats.push(seat).expect(rt, "no memory");
    }
    seats
}

// A board of so many workers, and so many seats of the first.
fn board_with(
    rt: &impl Abort,
    alloc: Global,
    workers: usize,
    count: usize,
) -> (Board, Maker, Vec<Seat>)
    requires { (0 < workers) × (workers ≤ 1024) }
    ensures workers { result.0.workers ≡ workers }
    ensures maker { result.1 ≡ record { board = result.0.board; seats = count; readers = 0 } }
    ensures seats { All (λ s. (s.board ≡ result.0.board) × (s.worker ≡ 0) × (s.beats ≡ 0)) result.2.items }
    ensures count { length result.2.items ≡ count }
{
    let (board, mut maker) = Board::new(alloc, workers).expect(rt, "no board");
    let seats = seats_of(rt, alloc, &board, &mut maker, WorkerNo::new(0), count);
    (board, maker, seats)
}

// Closes with all the seats: the beats of the first worker.
fn close_with_all(alloc: Global, board: Board, maker: Maker, seats: Vec<Seat>) -> u64
    requires maker { (maker.board ≡ board.board) × (maker.seats ≡ length seats.items) }
    requires seats { All (λ s. s.board ≡ board.board) seats.items }
    ensures { result ≡ beats_by 0 seats.items }
{
    let Ok(totals) = board.close(maker, seats, Vec::new(alloc)) else {
        unreachable!()
    };
    totals.beats[0]
}

// So many threads beat for one worker, and the total is what they made together.
fn beat_together<R: Threads + Wait + Sync + Abort>(
    rt: &R,
    alloc: Global,
    threads: usize,
    times: u64,
) -> u64
    requires { times ≤ 2 ^ 40 }
    ensures { result ≡ threads * times }
{
    let (board, maker, seats) = board_with(rt, alloc, 1, threads);
    let seats = each_beats(rt, alloc, &board, WorkerNo::new(0), seats, times);
    close_with_all(alloc, board, maker, seats)
}

// Closes without the seats, which are out, and then with them: how many were missing, and the totals.
fn close_in_two(
    rt: &impl Abort,
    board: Board,
    maker: Maker,
    seats: Vec<Seat>,
    reader: Reader,
) -> (u64, Totals)
    requires maker { maker.board ≡ board.board }
    requires seats { All (λ s. s.board ≡ board.board) seats.items }
    requires reader { reader.board ≡ board.board }
{
    let alloc = *seats.allocator();
    let readers = vec![in alloc; reader].expect(rt, "no memory");
    let missing = board
        .close(maker, Vec::new(alloc), readers)
        .err()
        .expect(rt, "seats are out");
    let totals = missing
        .board
        .close(missing.maker, seats, missing.readers)
        .ok();
    (missing.count, totals.expect(rt, "no seat is out"))
}

// Two threads beat a thousand times each for one worker, and a third looks on.
#[test]
fn two_threads_beat_for_one_worker(rt: HostRuntime) {
    let (alloc, worker) = (rt.alloc(), WorkerNo::new(0));
    let (board, mut maker, seats) = board_with(&rt, alloc, 2, 2);
    let reader = board.reader(&mut maker).expect(&rt, "no reader");
    let (seats, (reader, rose)) = beat_and_look(&rt, alloc, &board, worker, seats, reader);
    let (missing, totals) = close_in_two(&rt, board, maker, seats, reader);
    assert_eq!(rt;
        (rose, missing, totals.beats[0], totals.beats[1]),
        (true, 2, 2000, 0)
    );
}

#[test]
fn seats_that_beat_together(rt: HostRuntime) {
    assert_eq!(rt; beat_together(&rt, rt.alloc(), 5, 1000), 5000);
}

// Beats with each seat, the first one first: what they are answered.
fn beat_in_turn(board: &Board, one: &mut Seat, two: &mut Seat) -> [Result<u64, Worn>; 2]
    requires { (one.old.board ≡ board.now.board) × (two.old.board ≡ board.now.board) }
    ensures { (one.new.board ≡ board.now.board) × (two.new.board ≡ board.now.board) }
{
    [board.beat(one), board.beat(two)]
}

// Closes with one seat of two, and then with both: how many were missing, and the beats of the first worker.
fn close_one_by_one(
    rt: &impl Abort,
    alloc: Global,
    board: Board,
    maker: Maker,
    one: Seat,
    two: Seat,
) -> (u64, u64)
    requires maker { (maker.board ≡ board.board) × (maker.seats ≡ 2) }
    requires seats { (one.board ≡ board.board) × (two.board ≡ board.board) }
{
    let mut seats = Vec::with_capacity(alloc, 2).expect(rt, "no memory");
    seats.push_reserved(one);
    let missing = board
        .close(maker, seats, Vec::new(alloc))
        .err()
        .expect(rt, "a seat is out");
    let mut seats = missing.seats;
    seats.push(two).expect(rt, "no memory");
    let totals = missing
        .board
        .close(missing.maker, seats, missing.readers)
        .ok();
    (missing.count, totals.expect(rt, "no seat is out").beats[0])
}

// The second beat for a worker answers two, whoever made the first. A seat that is kept back is missing.
#[test]
fn beats_of_two_seats_count_on(rt: HostRuntime) {
    let (alloc, worker) = (rt.alloc(), WorkerNo::new(0));
    let (board, mut maker) = Board::new(alloc, 1).expect(&rt, "no board");
    let mut one = board.seat(&mut maker, worker).expect(&rt, "no seat");
    let mut two = board.seat(&mut maker, worker).expect(&rt, "no seat");
    let beats = beat_in_turn(&board, &mut one, &mut two);
    let closed = close_one_by_one(&rt, alloc, board, maker, one, two);
    assert_eq!(rt; (beats, closed), ([Ok(1), Ok(2)], (1, 2)));
}

// Beats once, and tells the reader, which then looks.
fn beat_and_look_after(
    board: &Board,
    seat: &mut Seat,
    reader: &mut Reader,
    worker: WorkerNo,
) -> Option<(u64, u64)>
    requires boards { (seat.old.board ≡ board.now.board) × (reader.old.board ≡ board.now.board) }
    requires worker { (worker < board.now.workers) × (seat.old.worker ≡ worker) }
    ensures boards { (seat.new.board ≡ board.now.board) × (reader.new.board ≡ board.now.board) }
    ensures sees { IfSome result (λ r. r.0 ≤ r.1) }
{
    let answer = board.beat(seat).ok()?;
    board.tell(seat, reader);
    Some((answer, board.look(reader, worker)))
}

// A number that one thread tells another.
#[derive(Drop)]
struct Told {
    number: Mutex<Option<u64>>,
    is_there: Condvar,
}

// Beats once, and tells the answer.
fn beat_and_tell<R: Wait>(rt: &R, board: &Board, mut seat: Seat, told: &Told)
    requires { seat.board ≡ board.now.board }
{
    let answer = board.beat(&mut seat).ok();
    *told.number.lock(rt) = answer;
    told.is_there.notify_one();
}

// What it was told, and what a look sees after that.
fn look_when_told<R: Wait>(
    rt: &R,
    board: &Board,
    mut reader: Reader,
    worker: WorkerNo,
    told: &Told,
) -> (Option<u64>, u64)
    requires board { reader.board ≡ board.now.board }
    requires worker { worker < board.now.workers }
{
    let answer = *told
        .is_there
        .wait_while(rt, told.number.lock(rt), |number| number.is_none());
    (answer, board.look(&mut reader, worker))
}

// One thread beats and tells the other, which looks.
fn tell<R: Threads + Wait + Sync>(
    rt: &R,
    board: &Board,
    seat: Seat,
    reader: Reader,
    worker: WorkerNo,
) -> (Option<u64>, u64)
    requires boards { (seat.board ≡ board.now.board) × (reader.board ≡ board.now.board) }
    requires worker { worker < board.now.workers }
{
    let told = Told {
        number: Mutex::new(None),
        is_there: Condvar::new(),
    };
    let shared = &told;
    thread::join(
        rt,
        || -> ()
            requires { seat.board ≡ board.now.board }
        { beat_and_tell(rt, board, seat, shared) },
        || -> (Option<u64>, u64)
            requires { (reader.board ≡ board.now.board) × (worker < board.now.workers) }
        { look_when_told(rt, board, reader, worker, shared) },
    )
    .1
}

// A thread that was told the answer of a beat sees at least that many beats.
#[test]
fn a_look_sees_the_beat_that_it_was_told_of(rt: HostRuntime) {
    let worker = WorkerNo::new(1);
    let (board, mut maker) = Board::new(rt.alloc(), 2).expect(&rt, "no board");
    let seat = board.seat(&mut maker, worker).expect(&rt, "no seat");
    let reader = board.reader(&mut maker).expect(&rt, "no reader");
    let (answer, seen) = tell(&rt, &board, seat, reader, worker);
    assert_eq!(rt; (answer, seen >= 1), (Some(1), true));
}

// Beats once on a new board, and closes it: the answer of the beat, the look after it and the total.
fn beat_and_close(
    rt: &impl Abort,
    alloc: Global,
    board: Board,
    mut maker: Maker,
    mut seats: Vec<Seat>,
) -> (u64, u64, u64)
    requires board { 0 < board.workers }
    requires maker { maker ≡ record { board = board.board; seats = 0; readers = 0 } }
    requires seats { (seats.items ≡ []) × (0 < vec_capacity seats) }
{
    let worker = WorkerNo::new(0);
    let mut seat = board.seat(&mut maker, worker).expect(rt, "no seat");
    let mut reader = board.reader(&mut maker).expect(rt, "no reader");
    let told = beat_and_look_after(&board, &mut seat, &mut reader, worker);
    let (answer, seen) = told.expect(rt, "no beat");
    seats.push_reserved(seat);
    (answer, seen, close_with_all(alloc, board, maker, seats))
}

// Whatever allocation is refused, there is a whole board or none; and a look after a beat sees it.
#[test]
fn a_refused_board_leaves_no_trace(rt: HostRuntime) {
    let Ok(seats) = Vec::with_capacity(rt.alloc(), 1) else {
        return;
    };
    if let Ok((board, maker)) = Board::new(rt.alloc(), 1) {
        let told = beat_and_close(&rt, rt.alloc(), board, maker, seats);
        assert_eq!(rt; told, (1, 1, 1));
    }
}
