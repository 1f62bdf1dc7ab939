ghost use Rattle.std.specs.Prelude.{◌≡◌, ◌<◌, ◌≤◌, ◌++◌, [], ◌∷◌, All, Err, OnOk, true};
ghost use Rattle.job_threads.specs.Settled.{first_end};
ghost use Rattle.job_threads.specs.declared.outcome.RunError.{RunError};

use crate::aim::Aim;
use crate::caller::Caller;
use crate::closing::Closing;
use crate::common::Common;
use crate::gate::Gate;
use crate::lanes::{Half, halves_of};
use crate::observer::Observer;
use crate::outcome::RunError;
use crate::work::{Back, Worker, work};
use beat_board::Seat;
use shared_master::{Hand, OfJob};
use std::alloc::{AllocError, Global};
use std::rt::Clock;
use std::sync::Wait;
use std::sync::ledger::Ledger;
use std::thread;
use std::thread::Threads;

// The hands of all threads that ended, that of the calling thread last; how the run did; and what its lanes
// and its board are closed with.
#[derive(Drop)]
pub(crate) struct Ended<L: Ledger + Aim> {
    pub(crate) hands: Vec<Hand<L>>,
    pub(crate) end: Result<(), RunError>,
    pub(crate) closing: Closing<L>,
    ghost limit: { end ≡ Err RunError.GateLimit → L.may_end ≡ true },
}

// What came back from workers, and how the run ended by then.
#[derive(Drop)]
struct Came<L: Ledger + Aim> {
    end: Result<(), RunError>,
    hands: Vec<Hand<L>>,
    theirs: Vec<Half<L>>,
    seats: Vec<Seat>,
    ghost seats_of: { All (λ s. s.board ≡ L.board.board) seats.items },
    ghost limit: { end ≡ Err RunError.GateLimit → L.may_end ≡ true },
}

impl<L: Ledger + OfJob + Aim> Came<L> {
    // Before any thread has come back, with how the run ended.
    fn new(alloc: Global, end: Result<(), RunError>) -> Came<L>
        requires { end ≡ Err RunError.GateLimit → L.may_end ≡ true }
        ensures { result.end ≡ end }
    {
        Came {
            end,
            hands: Vec::new(alloc),
            theirs: Vec::new(alloc),
            seats: Vec::new(alloc),
        }
    }

    // The thread of one more worker has come back.
    fn take(&mut self, back: Back<L>) -> Result<(), AllocError>
        ensures end { self.new.end ≡ first_end self.old.end back.end }
        ensures hand { OnOk result (self.new.hands.items ≡ self.old.hands.items ++ back.hand ∷ []) }
        ensures half { OnOk result (self.new.theirs.items ≡ self.old.theirs.items ++ back.half ∷ []) }
    {
        let Back {
            hand,
            end,
            half,
            seat,
        } = back;
        if self.end.is_ok() {
            self.end = end;
        }
        self.hands.push(hand)?;
        self.theirs.push(half)?;
        if let Some(seat) = seat {
            self.seats.push(seat)?;
        }
        Ok(())
    }

    // Memory was wanting for what came back.
    fn fail(&mut self)
        ensures { self.new.end ≡ Err RunError.Memory }
    {
        self.end = Err(RunError::Memory);
    }

    // What came back, with what the calling thread has.
    fn with<G: Gate, R>(self, caller: Caller<'_, L, G, R>) -> Result<Ended<L>, AllocError> {
        let Came {
            end,
            mut hands,
            theirs,
            seats,
        } = self;
        let Caller {
            common,
            hand,
            watch,
            lanes,
            ..
        } = caller;
        hands.push(hand)?;
        let (maker, reader) = watch.into_ends();
        let closing = Closing {
            ours: halves_of(common.alloc, lanes)?,
            theirs,
            seats,
            maker,
            reader,
        };
        Ok(Ended {
            hands,
            end,
            closing,
        })
    }
}

// How much stack the thread of a worker asks for, several times what it uses. What the system gives by itself
// is 8 MiB in most places, and too little where the limit on stacks is low.
const STACK_BYTES: usize = 262_144;

// Each worker in a thread of its own, while this thread calls.
pub(crate) fn run_threads<
    L: Ledger + OfJob + Aim + Send + Sync,
    G: Gate,
    O: Observer,
    R: Threads + Wait + Clock + Sync,
>(
    common: &Common<'_, L, G, R>,
    mut caller: Caller<'_, L, G, R>,
    workers: Vec<Worker<'_, L>>,
    observer: &O,
) -> Result<Ended<L>, AllocError> {
    let came = thread::scope(thread::scope_env(), common.rt, |scope| -> Came<L> {
        let mut end = Ok(());
        let mut threads = Vec::new(common.alloc);
        for worker in workers {
            let builder = thread::Builder::new().stack_size(STACK_BYTES);
            let Ok(thread) = builder.spawn_scoped(scope, move || work(common, worker)) else {
                end = Err(RunError::NoThread);
                break;
            };
            if threads.push(thread).is_err() {
                end = Err(RunError::Memory);
                break;
            }
        }
        if end.is_ok() {
            end = match caller.call(observer) {
                Ok(_) => Ok(()),
                Err(error) => Err(error),
            };
        }
        common.flags.end();
        let mut came = Came::new(common.alloc, end);
        for thread in threads {
            if came.take(thread.join(common.rt)).is_err() {
                came.fail();
            }
        }
        came
    });
    came.with(caller)
}
