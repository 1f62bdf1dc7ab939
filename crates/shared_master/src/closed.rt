ghost use Rattle.std.specs.Prelude.{◌≡◌, ℕ, ◌<◌, ◌≤◌, length, MatchResult};
ghost use Rattle.hand_ledger.specs.Settling.{all_calls, AgreesAt, IsLowestTorn};
ghost use Rattle.shared_master.specs.Held.{is_short, log_of, HeldValue};

use crate::held::Held;
use crate::of_job::OfJob;
use hand_ledger::{Hand, Log, torn_place};
use master_core::Master;
use std::marker::Model;
use std::sync::ledger::Ledger;

/// A master that no thread shares any more, with what is kept of its hands: they keep as many calls together
/// as its history has events.
#[derive(Drop)]
pub struct Closed<L: Ledger + OfJob> {
    held: Held<L>,
}

impl<L: Ledger + OfJob> Model for Closed<L> {
    ghost Value = { HeldValue };

    ghost view = { λ c. c.held };
}

impl<L: Ledger + OfJob> Closed<L> {
    // What the lock kept.
    pub(crate) fn of(held: Held<L>) -> Closed<L>
        ensures { result ≡ held }
    {
        Closed { held }
    }

    /// The master.
    pub fn master(&self) -> &Master
        ensures { result.now ≡ self.now.job }
    {
        &self.held.master
    }

    /// How many hands were made.
    pub fn made(&self) -> u64
        ensures { result ≡ self.now.made }
    {
        self.held.hands.made()
    }

    /// A law of its hands: they have no more calls than the history has events, and just as many where all
    /// hands that were made are there.
    pub fn audit(&mut self, hands: &mut [Hand<L>])
        requires { L.parts ≡ 4096 }
        ensures bound { length (all_calls hands.old) ≤ length self.old.job.history }
        ensures all { length hands.old ≡ self.old.made
            → length (all_calls hands.old) ≡ length self.old.job.history }
        ensures hands { hands.new ≡ hands.old }
        ensures same { self.new ≡ self.old }
    {
        self.held.audit(hands);
    }

    // The lowest place at which the history and the hands disagree, if there is one.
    fn torn_place(&self, hands: &[Hand<L>]) -> Option<u32>
        ensures { IsLowestTorn (log_of self.now.job) (is_short self.now.job) hands.now result }
    {
        let log = Log::new(
            self.held.master.history(),
            self.held.master.starts(),
            self.held.master.sweeps(),
        );
        torn_place(&log, self.is_short(), hands)
    }

    // Whether the master is short of some room.
    fn is_short(&self) -> bool
        ensures { result ≡ is_short self.now.job }
    {
        let limits = self.held.master.limits();
        let events = self.held.master.events();
        let starts = self.held.master.starts().len() as u64;
        let splits = self.held.master.cluster().splits().len() as u64;
        if events >= limits.events {
            return true;
        }
        if self.held.master.sweeps().len() as u64 >= limits.sweeps as u64 {
            return true;
        }
        if starts + 1 > limits.attempts as u64 {
            return true;
        }
        starts + splits > limits.attempts as u64
    }
}

/// A master whose history is made of the calls of the hands.
#[derive(Drop)]
pub struct Settled {
    pub master: Master,
}

/// The lowest place at which history and hands disagree; for a note that is not true, the place after the
/// last event. What was given comes back.
#[derive(Drop)]
pub struct Torn<L: Ledger + OfJob> {
    pub place: u32,
    pub closed: Closed<L>,
    pub hands: Vec<Hand<L>>,
}

/// Whether each event stands in one hand alone, at its place, with its counts and starts; no hand has a place
/// past the last event; and the notes of all hands are true.
pub fn settle<L: Ledger + OfJob>(closed: Closed<L>, hands: Vec<Hand<L>>) -> Result<Settled, Torn<L>>
    ensures { MatchResult result
        (λ s. (s.master ≡ closed.job)
        × ((place : ℕ) → AgreesAt (log_of closed.job) (is_short closed.job) hands.items place))
        (λ t. (t.closed ≡ closed) × (t.hands ≡ hands)
        × (AgreesAt (log_of closed.job) (is_short closed.job) hands.items t.place → ⊥)
        × ((place : ℕ) → place < t.place
        → AgreesAt (log_of closed.job) (is_short closed.job) hands.items place)) }
{
    let torn = closed.torn_place(&hands);
    match torn {
        None => {
            let Closed { held } = closed;
            Ok(Settled {
                master: held.into_master(),
            })
        }
        Some(place) => Err(Torn {
            place,
            closed,
            hands,
        }),
    }
}
