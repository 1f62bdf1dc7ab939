ghost use Rattle.std.specs.Prelude.{◌≡◌, ◌+◌, ◌<◌, ◌↔◌, IsTrue, false, ◌≤◌, [], ◌^◌};
ghost use Rattle.beat_board.specs.Values.{MakerValue, SeatValue, ReaderValue};
ghost use Rattle.beat_board.specs.Views.{making, seated, answers, reading};

// The maker, the seats and the readers of a board. Each has a token of the table, which takes no bytes
// and with which its steps are made.
use crate::MAX_SEATS;
use crate::view::View;
use std::marker::Model;

pub type Token = atomic_table::Seat<u8, View>;

/// Makes the seats and readers of one board, and counts them. It stays with the thread that made the board.
#[derive(Drop)]
pub struct Maker {
    pub(crate) token: Token,
    pub(crate) seats: u64,
    pub(crate) readers: u64,
}

impl Model for Maker {
    ghost Value = { MakerValue };

    ghost view = { λ m. record { board = m.token.table_id; seats = m.seats; readers = m.readers } };

    ghost invariant = { λ m. (m.token.id ≡ 0) × (m.token.me.1 ≡ [])
        × (m.token.me.0 ≡ making [] [] m.token.me.0.next m.seats) × (m.seats + m.readers ≤ 4096) };
}

impl Maker {
    pub(crate) fn is_full(&self) -> bool
        ensures full { IsTrue result ↔ (self.now.seats + self.now.readers ≡ 4096) }
        ensures room { result ≡ false → self.now.seats + self.now.readers < 4096 }
    {
        self.seats + self.readers >= MAX_SEATS
    }
}

/// The right to beat for one worker, and the count of the beats made with it. One thread holds it at a time.
#[derive(Drop)]
pub struct Seat {
    pub(crate) token: Token,
    pub(crate) worker: usize,
    pub(crate) beats: u64,
}

impl Model for Seat {
    ghost Value = { SeatValue };

    ghost view = { λ s. record {
      board = s.token.table_id;
      worker = s.worker;
      beats = s.beats;
      told = answers s.token.me.0.tallies;
    } };

    ghost invariant = { λ s. (s.token.me.1 ≡ [])
        × (s.token.me.0 ≡ seated s.worker s.beats (answers s.token.me.0.tallies))
        × (s.beats ≤ 2 ^ 40) × (s.worker < 1024) };
}

/// The right to look at the words of one board. What it saw is known to contracts alone, and takes no memory.
#[derive(Drop)]
pub struct Reader {
    pub(crate) token: Token,
}

impl Model for Reader {
    ghost Value = { ReaderValue };

    ghost view = { λ r. record { board = r.token.table_id; looks = r.token.me.0.looks } };

    ghost invariant = { λ r. (r.token.me.1 ≡ []) × (r.token.me.0 ≡ reading r.token.me.0.looks) };
}
