ghost use Rattle.std.specs.Prelude.{◌≡◌, ◌*◌, ◌^◌, Bool, false, true};
ghost use Rattle.std.specs.Duration.{as_nanos};
ghost use Rattle.job_threads.specs.Turns.{plain_turn};

use lane_queue::Order;
use node_ids::WorkerNo;
use std::thread;
use std::time::Duration;

// From this idle turn on the calling thread naps now and then.
pub(crate) const NAPS_FROM: u64 = 64;

/// Whether a worker goes on.
#[derive(Clone, Copy, Debug, PartialEq, Eq)]
pub enum Go {
    On,
    /// The run ends.
    Over,
}

/// What the calling thread does in a turn.
#[derive(Clone, Copy, Debug, PartialEq, Eq)]
pub enum Turn {
    On,
    /// What is seen of the workers' beats is handed to the master.
    Sweep,
    /// The worker beats, takes and calls no more.
    Stop(WorkerNo),
    /// Each split that runs one attempt gets a second one, where it may.
    Backup,
    /// The run ends.
    Over,
}

/// What the world outside does to a job that runs on threads. Each of its threads asks it.
pub trait Gate: Sync {
    // whether such a gate may end a run
    ghost may_end: { Bool };

    /// Just before a worker maps.
    fn before_map(&self, order: &Order) -> Go
        ensures over { result ≡ Go.Over → may_end ≡ true };

    /// When the master has answered the worker's call for the order.
    fn after_map(&self, order: &Order) -> Go
        ensures over { result ≡ Go.Over → may_end ≡ true };

    /// Once a turn of the calling thread. In so many turns, one after the other, nothing started.
    fn turn(&self, idle: u64) -> Turn
        ensures over { result ≡ Turn.Over → may_end ≡ true };

    /// A Sweep that is answered within so long of the last sweep is passed over. If a gate does not say how
    /// long, no sweep is passed over.
    fn least_gap(&self) -> Duration {
        Duration::ZERO
    }
}

/// The gate of a plain run. It yields once a turn until the calling thread naps between them, which is from
/// the 64th idle turn on, and answers Sweep at the positive multiples of 65,536 idle turns, Backup at the odd
/// multiples of 32,768, else On, so that it ends no run. Two seconds lie between its sweeps, so that a worker
/// must be silent for some seconds to be dead, however fast turns are.
#[derive(Clone, Copy, Debug)]
pub struct PlainGate;

impl Gate for PlainGate {
    ghost may_end = { false };

    fn before_map(&self, _order: &Order) -> Go
        ensures { result ≡ Go.On }
    {
        Go::On
    }

    fn after_map(&self, _order: &Order) -> Go
        ensures { result ≡ Go.On }
    {
        Go::On
    }

    fn turn(&self, idle: u64) -> Turn
        ensures { result ≡ plain_turn idle }
    {
        if idle < NAPS_FROM {
            thread::yield_now();
        }
        plain_turn(idle)
    }

    fn least_gap(&self) -> Duration
        ensures { as_nanos result ≡ 2 * 10 ^ 9 }
    {
        Duration::from_secs(2)
    }
}

fn plain_turn(idle: u64) -> Turn
    ensures { result ≡ plain_turn idle }
{
    if idle == 0 {
        return Turn::On;
    }
    match idle % 65_536 {
        0 => Turn::Sweep,
        32_768 => Turn::Backup,
        _ => Turn::On,
    }
}
