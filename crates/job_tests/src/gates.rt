//! Gates. Each holds with counts and yields, and answers Over where it held for too long.
ghost use Rattle.std.specs.Prelude.{true};

use job_threads::{Gate, Go, Observer, Progress, Turn};
use lane_queue::Order;
use node_ids::WorkerNo;
use std::sync::atomic::{AtomicU64, Ordering};
use std::thread;
use std::time::Duration;

// Once in so many idle turns a gate sweeps that is to see workers that are late, and none that are slow: they
// last some thirty milliseconds.
const RARELY: u64 = 8192;

// How often a gate yields before it gives up.
const PATIENCE: u32 = 10_000_000;

// In how many turns a worker that was stopped has died.
const LAST_TURN: u64 = 1_000_000;

// From this idle turn on the calling thread naps now and then.
const NAPS_FROM: u64 = 64;

// Sweeps that come once in so many idle turns, or more, come seldom.
const SELDOM: u64 = 512;

// Waits for a word to reach a number.
fn reached(word: &AtomicU64, least: u64) -> Go {
    for _ in 0..PATIENCE {
        if word.load(Ordering::SeqCst) >= least {
            return Go::On;
        }
        thread::yield_now();
    }
    Go::Over
}

fn split_of(order: &Order) -> Option<usize> {
    match order {
        Order::Map(_, text) => Some(text.split().index()),
        Order::Reduce(_, _, _) => None,
    }
}

/// What a gate of tests counts.
#[derive(Drop)]
pub struct Seen {
    pub begun: AtomicU64,
    pub answered: AtomicU64,
    pub turns: AtomicU64,
    pub sweeps: AtomicU64,
    // how often maps of the first two splits were begun
    pub of_first: AtomicU64,
    pub of_second: AtomicU64,
}

impl Seen {
    /// Nothing was seen.
    pub fn new() -> Seen {
        Seen {
            begun: AtomicU64::new(0),
            answered: AtomicU64::new(0),
            turns: AtomicU64::new(0),
            sweeps: AtomicU64::new(0),
            of_first: AtomicU64::new(0),
            of_second: AtomicU64::new(0),
        }
    }

    // How many maps had begun before this one.
    fn begin(&self, order: &Order) -> u64 {
        match split_of(order) {
            Some(0) => {
                self.of_first.fetch_add(1, Ordering::SeqCst);
            }
            Some(1) => {
                self.of_second.fetch_add(1, Ordering::SeqCst);
            }
            _ => {}
        }
        self.begun.fetch_add(1, Ordering::SeqCst)
    }

    fn answer(&self) -> Go {
        self.answered.fetch_add(1, Ordering::SeqCst);
        Go::On
    }

    // A sweep at the positive multiples of so many idle turns, and none where these are 0. It yields in each
    // turn where sweeps come often, and else only until the calling thread naps: beside busy processes a
    // yield may take milliseconds.
    fn turn(&self, idle: u64, every: u64) -> Turn {
        let is_often = every > 0 && every < SELDOM;
        if is_often || idle < NAPS_FROM {
            thread::yield_now();
        }
        self.turns.fetch_add(1, Ordering::SeqCst);
        if every > 0 && idle > 0 && idle % every == 0 {
            self.sweeps.fetch_add(1, Ordering::SeqCst);
            Turn::Sweep
        } else {
            Turn::On
        }
    }
}

/// Answers On, and yields once a turn.
#[derive(Clone, Copy, Debug)]
pub struct Yields;

impl Gate for Yields {
    ghost may_end = { true };

    fn before_map(&self, _order: &Order) -> Go {
        Go::On
    }

    fn after_map(&self, _order: &Order) -> Go {
        Go::On
    }

    fn turn(&self, _idle: u64) -> Turn {
        thread::yield_now();
        Turn::On
    }
}

/// Of what a gate counts, that which maps are held for.
#[derive(Clone, Copy, Debug)]
pub enum Count {
    Begun,
    Answered,
    Turns,
}

/// What a gate does in its turns.
#[derive(Clone, Copy, Debug)]
pub enum Pace {
    /// It sweeps once in so many idle turns, and never where this is 0.
    Sweeps(u64),
    /// The same in each turn.
    Each(Turn),
}

/// Holds the attempts up to this number until the count has come so far.
#[derive(Drop)]
pub struct Holds {
    pub seen: Seen,
    last: u64,
    until: Count,
    least: u64,
    pace: Pace,
}

impl Holds {
    /// Nothing was begun.
    pub fn new(last: u64, until: Count, least: u64, pace: Pace) -> Holds {
        Holds {
            seen: Seen::new(),
            last,
            until,
            least,
            pace,
        }
    }
}

impl Gate for Holds {
    ghost may_end = { true };

    fn before_map(&self, order: &Order) -> Go {
        self.seen.begin(order);
        if order.attempt().index() as u64 > self.last {
            return Go::On;
        }
        let count = match self.until {
            Count::Begun => &self.seen.begun,
            Count::Answered => &self.seen.answered,
            Count::Turns => &self.seen.turns,
        };
        reached(count, self.least)
    }

    fn after_map(&self, _order: &Order) -> Go {
        self.seen.answer()
    }

    fn turn(&self, idle: u64) -> Turn {
        match self.pace {
            Pace::Sweeps(every) => self.seen.turn(idle, every),
            Pace::Each(turn) => {
                thread::yield_now();
                self.seen.turns.fetch_add(1, Ordering::SeqCst);
                turn
            }
        }
    }
}

/// Stops a worker in its first turn, and sweeps once in so many idle turns.
#[derive(Drop)]
pub struct Stops {
    pub seen: Seen,
    pub worker: WorkerNo,
    pub every: u64,
}

impl Gate for Stops {
    ghost may_end = { true };

    fn before_map(&self, order: &Order) -> Go {
        self.seen.begin(order);
        Go::On
    }

    fn after_map(&self, _order: &Order) -> Go {
        self.seen.answer()
    }

    fn turn(&self, idle: u64) -> Turn {
        if self.seen.turns.load(Ordering::SeqCst) == 0 {
            self.seen.turns.fetch_add(1, Ordering::SeqCst);
            return Turn::Stop(self.worker);
        }
        self.seen.turn(idle, self.every)
    }
}

/// Sweeps often. Holds the first map, and each later one at so many maps (none where this is 0), until so
/// many sweeps were made meanwhile, and makes no further one until the map was answered.
#[derive(Drop)]
pub struct Silences {
    pub seen: Seen,
    pub sweeps: u64,
    pub every: u64,
    // how many sweeps were made while a map is held, from 1; 0 where none is
    pub held: AtomicU64,
}

impl Silences {
    /// Through so many sweeps, at each so many maps.
    pub fn new(sweeps: u64, every: u64) -> Silences {
        Silences {
            seen: Seen::new(),
            sweeps,
            every,
            held: AtomicU64::new(0),
        }
    }
}

impl Gate for Silences {
    ghost may_end = { true };

    fn before_map(&self, order: &Order) -> Go {
        let place = self.seen.begin(order);
        if place > 0 && (self.every == 0 || place % self.every != 0) {
            return Go::On;
        }
        self.held.store(1, Ordering::SeqCst);
        reached(&self.held, self.sweeps.saturating_add(2))
    }

    fn after_map(&self, _order: &Order) -> Go {
        self.held.store(0, Ordering::SeqCst);
        self.seen.answer()
    }

    fn turn(&self, idle: u64) -> Turn {
        let held = self.held.load(Ordering::SeqCst);
        if held == 0 {
            return self.seen.turn(idle, RARELY);
        }
        thread::yield_now();
        if held <= self.sweeps {
            self.held.store(held.saturating_add(1), Ordering::SeqCst);
            return Turn::Sweep;
        }
        // (the last of them was made; until now the map is held, and from now on it may be answered)
        if held == self.sweeps.saturating_add(1) {
            self.held
                .store(self.sweeps.saturating_add(2), Ordering::SeqCst);
        }
        Turn::On
    }
}

/// Stops the first worker in its first turn, before any map goes on, and sweeps so seldom that the others
/// beat meanwhile.
#[derive(Drop)]
pub struct DiesFirst {
    pub seen: Seen,
    // how many milliseconds lie between two sweeps
    pub gap: u64,
}

impl DiesFirst {
    /// With such a gap between its sweeps.
    pub fn new(gap: u64) -> DiesFirst {
        DiesFirst {
            seen: Seen::new(),
            gap,
        }
    }
}

impl Gate for DiesFirst {
    ghost may_end = { true };

    fn before_map(&self, order: &Order) -> Go {
        self.seen.begin(order);
        // (what the first turn answered is done when the gate is asked in the second)
        reached(&self.seen.turns, 2)
    }

    fn after_map(&self, _order: &Order) -> Go {
        self.seen.answer()
    }

    fn turn(&self, idle: u64) -> Turn {
        if self.seen.turns.fetch_add(1, Ordering::SeqCst) == 0 {
            Turn::Stop(WorkerNo::new(0))
        } else if idle > 0 {
            Turn::Sweep
        } else {
            Turn::On
        }
    }

    fn least_gap(&self) -> Duration {
        Duration::from_millis(self.gap)
    }
}

/// Stops the worker once it has begun a map, holds its second one until that is done, and sweeps from then
/// on.
#[derive(Drop)]
pub struct StopsLate {
    pub seen: Seen,
    pub worker: WorkerNo,
    // 0 at first, 1 when the stop is answered, 2 when it is done
    pub stop: AtomicU64,
}

impl StopsLate {
    /// Nothing was begun.
    pub fn new(worker: WorkerNo) -> StopsLate {
        StopsLate {
            seen: Seen::new(),
            worker,
            stop: AtomicU64::new(0),
        }
    }
}

impl Gate for StopsLate {
    ghost may_end = { true };

    fn before_map(&self, order: &Order) -> Go {
        if self.seen.begin(order) == 0 {
            return Go::On;
        }
        reached(&self.stop, 2)
    }

    fn after_map(&self, _order: &Order) -> Go {
        self.seen.answer()
    }

    fn turn(&self, idle: u64) -> Turn {
        // (a worker that beats on never dies)
        if self.seen.turns.load(Ordering::SeqCst) > LAST_TURN {
            return Turn::Over;
        }
        match self.stop.load(Ordering::SeqCst) {
            0 if self.seen.begun.load(Ordering::SeqCst) > 0 => {
                self.stop.store(1, Ordering::SeqCst);
                Turn::Stop(self.worker)
            }
            0 => self.seen.turn(idle, 0),
            _ => {
                self.stop.store(2, Ordering::SeqCst);
                self.seen.turn(idle, 512)
            }
        }
    }
}

/// Holds each map that was answered until so many splits are seen done.
#[derive(Drop)]
pub struct SeesAnswers {
    pub seen: Seen,
    pub done: AtomicU64,
}

impl SeesAnswers {
    /// No split is done.
    pub fn new() -> SeesAnswers {
        SeesAnswers {
            seen: Seen::new(),
            done: AtomicU64::new(0),
        }
    }
}

impl Observer for SeesAnswers {
    fn seen(&self, progress: &Progress) {
        let done = (progress.splits as u64).saturating_sub(u64::from(progress.open_splits));
        self.done.store(done, Ordering::SeqCst);
    }
}

impl Gate for SeesAnswers {
    ghost may_end = { true };

    fn before_map(&self, order: &Order) -> Go {
        self.seen.begin(order);
        Go::On
    }

    fn after_map(&self, _order: &Order) -> Go {
        let answered = self.seen.answered.fetch_add(1, Ordering::SeqCst);
        reached(&self.done, answered.saturating_add(1))
    }

    fn turn(&self, idle: u64) -> Turn {
        self.seen.turn(idle, 0)
    }
}

/// Has the beats of a worker counted by a sweep before its map and by one after it, while it waits.
#[derive(Drop)]
pub struct CountsBeats {
    pub seen: Seen,
    // how many sweeps the worker asked for, how many were told, and how many are over
    asked: AtomicU64,
    told: AtomicU64,
    over: AtomicU64,
}

impl CountsBeats {
    /// No sweep was asked for.
    pub fn new() -> CountsBeats {
        CountsBeats {
            seen: Seen::new(),
            asked: AtomicU64::new(0),
            told: AtomicU64::new(0),
            over: AtomicU64::new(0),
        }
    }

    // Asks for a sweep more, and waits until it is over.
    fn sweep(&self) -> Go {
        let before = self.asked.fetch_add(1, Ordering::SeqCst);
        reached(&self.over, before.wrapping_add(1))
    }
}

impl Gate for CountsBeats {
    ghost may_end = { true };

    fn before_map(&self, order: &Order) -> Go {
        self.seen.begin(order);
        self.sweep()
    }

    fn after_map(&self, _order: &Order) -> Go {
        self.sweep()
    }

    fn turn(&self, _idle: u64) -> Turn {
        thread::yield_now();
        // (what the last turn told is done)
        let told = self.told.load(Ordering::SeqCst);
        self.over.store(told, Ordering::SeqCst);
        if told < self.asked.load(Ordering::SeqCst) {
            self.told.store(told.wrapping_add(1), Ordering::SeqCst);
            return Turn::Sweep;
        }
        Turn::On
    }
}

/// What a gate that ends the run answers Over to.
#[derive(Clone, Copy, PartialEq, Eq, Debug)]
pub enum Ask {
    Before,
    After,
    Turn,
}

/// Ends the run when it is first asked so.
#[derive(Clone, Copy, Debug)]
pub struct Ends {
    pub at: Ask,
}

impl Ends {
    fn go(&self, ask: Ask) -> Go {
        if self.at == ask { Go::Over } else { Go::On }
    }
}

impl Gate for Ends {
    ghost may_end = { true };

    fn before_map(&self, _order: &Order) -> Go {
        self.go(Ask::Before)
    }

    fn after_map(&self, _order: &Order) -> Go {
        self.go(Ask::After)
    }

    fn turn(&self, _idle: u64) -> Turn {
        thread::yield_now();
        if self.at == Ask::Turn {
            Turn::Over
        } else {
            Turn::On
        }
    }
}

/// The number at a place of the sequence that a seed gives.
pub fn drawn(seed: u64, place: u64) -> u64 {
    let mixed = (seed ^ place.wrapping_mul(0x9e37_79b9_7f4a_7c15)).wrapping_mul(
        0xbf58_476d_1ce4_e5b9,
    );
    let mixed = (mixed ^ (mixed >> 29)).wrapping_mul(0x94d0_49bb_1331_11eb);
    mixed ^ (mixed >> 32)
}

/// Made of a number: at turns and maps that it gives workers are stopped, maps are held, also until their
/// workers must have died, sweeps and backups are made, and some runs are ended.
#[derive(Drop)]
pub struct Made {
    pub seen: Seen,
    pub seed: u64,
    // no worker is stopped where they are none
    pub workers: u64,
    // the map and the turn that end the run
    pub last_map: u64,
    pub last_turn: u64,
    // how often each was done
    pub overs: AtomicU64,
    pub stops: AtomicU64,
    pub backups: AtomicU64,
    pub deaths: AtomicU64,
}

impl Made {
    /// The gate of a seed, for so many workers. One of 16 ends its run.
    pub fn new(seed: u64, workers: u64) -> Made {
        let at = drawn(seed, 6);
        let (last_map, last_turn) = match drawn(seed, 4) % 32 {
            0 => (at % 8, u64::MAX),
            1 => (u64::MAX, at % 512),
            _ => (u64::MAX, u64::MAX),
        };
        Made {
            seen: Seen::new(),
            seed,
            workers: if drawn(seed, 5) % 3 == 0 { workers } else { 0 },
            last_map,
            last_turn,
            overs: AtomicU64::new(0),
            stops: AtomicU64::new(0),
            backups: AtomicU64::new(0),
            deaths: AtomicU64::new(0),
        }
    }

    // Holds a map until four sweeps were made, or for many yields: the run may be over.
    fn hold(&self) {
        let until = self.seen.sweeps.load(Ordering::SeqCst).saturating_add(4);
        for _ in 0..2_000u32 {
            if self.seen.sweeps.load(Ordering::SeqCst) >= until {
                self.deaths.fetch_add(1, Ordering::SeqCst);
                return;
            }
            thread::yield_now();
        }
    }

    fn over(&self) {
        self.overs.fetch_add(1, Ordering::SeqCst);
    }

    fn count_turn(&self) -> u64 {
        self.seen.turns.fetch_add(1, Ordering::SeqCst)
    }
}

impl Gate for Made {
    ghost may_end = { true };

    fn before_map(&self, order: &Order) -> Go {
        let place = self.seen.begin(order);
        if place == self.last_map {
            self.over();
            return Go::Over;
        }
        match drawn(self.seed, place) % 16 {
            0 => self.hold(),
            1..=3 => {
                for _ in 0..drawn(self.seed, place.saturating_add(1)) % 64 {
                    thread::yield_now();
                }
            }
            _ => {}
        }
        Go::On
    }

    fn after_map(&self, _order: &Order) -> Go {
        self.seen.answer()
    }

    fn turn(&self, idle: u64) -> Turn {
        let turn = self.seen.turns.load(Ordering::SeqCst);
        if turn == self.last_turn {
            self.over();
            return Turn::Over;
        }
        let number = drawn(self.seed ^ 0x5555, turn);
        if number % 257 == 0 && self.workers > 0 {
            self.stops.fetch_add(1, Ordering::SeqCst);
            self.count_turn();
            return Turn::Stop(WorkerNo::new((number / 257 % self.workers % 256) as u16));
        }
        if number % 61 == 0 {
            self.backups.fetch_add(1, Ordering::SeqCst);
            self.count_turn();
            return Turn::Backup;
        }
        let every = [13, 61, 97, 97];
        self.seen
            .turn(idle, every[(drawn(self.seed, 11) % 4) as usize])
    }
}
