ghost use Rattle.std.specs.Prelude.{◌≡◌, true};
ghost use Rattle.std.specs.Duration.{as_nanos};
ghost use Rattle.std.specs.Option.{option_map};
ghost use Rattle.job_threads.specs.Turns.{is_due};
ghost use Rattle.job_threads.specs.declared.gate.Turn.{Turn};

use crate::gate::{Gate, Turn};
use std::marker::Model;
use std::rt::Clock;
use std::time::{Duration, Instant};

// What the gate answered in a turn, and which number of idle turns it was told; of a sweep, whether the last
// one was long enough ago. `Asked::by` alone makes one.
#[derive(Drop)]
pub(crate) struct Asked {
    idle: u64,
    turn: Turn,
    is_due: bool,
}

impl Model for Asked {
    ghost use Rattle.job_threads.specs.Turns.{AskedValue};

    ghost Value = { AskedValue };

    ghost view = { λ a. record { idle = a.idle; turn = a.turn; is_due = a.is_due } };
}

impl Asked {
    // Asks the gate. The last sweep was at this time, if there was one and there is a clock.
    pub(crate) fn by<G: Gate, R: Clock>(
        rt: &R,
        gate: &G,
        idle: u64,
        swept: Option<Instant>,
    ) -> Asked
        ensures idle { result.idle ≡ idle }
        ensures over { result.turn ≡ Turn.Over → G.may_end ≡ true }
    {
        let turn = gate.turn(idle);
        let is_due = turn == Turn::Sweep && is_due(since(rt, swept), gate.least_gap());
        Asked { idle, turn, is_due }
    }

    // What the gate answered.
    pub(crate) fn turn(&self) -> Turn
        ensures { result ≡ self.now.turn }
    {
        self.turn
    }

    // Whether the gate asked for a sweep, late enough after the last one.
    pub(crate) fn is_due(&self) -> bool
        ensures { result ≡ self.now.is_due }
    {
        self.is_due
    }
}

// How long ago this time was; None where no clock tells it.
fn since<R: Clock>(rt: &R, then: Option<Instant>) -> Option<Duration> {
    then?.elapsed(rt).ok()
}

// Whether a gate's sweep comes late enough after the last one.
fn is_due(since: Option<Duration>, gap: Duration) -> bool
    ensures { result ≡ is_due (option_map as_nanos since) (as_nanos gap) }
{
    match since {
        Some(passed) => gap.as_nanos() <= passed.as_nanos(),
        None => true,
    }
}
