ghost use Rattle.std.specs.Prelude.{◌≡◌, ◌≤◌, ◌↔◌, All, IsTrue};
ghost use Rattle.wave_problem.specs.declared.TheConstants.{MAX_SLOTS};
ghost use Rattle.shared_master.specs.Aheads.{IsWaiting, QueuesAs};
ghost use Rattle.shared_master.specs.Held.{IsMasterOf};
ghost use Rattle.shared_master.specs.Waves.{ahead_event};

use crate::held::Held;
use crate::of_job::OfJob;
use crate::waves::{SharedWave, WaveError, keep_starts, refused};
use hand_ledger::Hand;
use master_state::{CommitError, Event, Wave};
use std::alloc::Global;
use std::sync::ledger::Ledger;

impl<L: Ledger + OfJob> Held<L> {
    // Plans all pending splits onto the workers' queues and starts the heads, where the hand has room for as
    // many starts as there are splits. Where the last event is such a plan, what it left waits, and no other
    // is made.
    pub(crate) fn start_ahead(
        &mut self,
        alloc: Global,
        hand: &mut Hand<L>,
        asked: &[u64],
    ) -> Result<Option<SharedWave>, WaveError>
        requires { All (λ n. n ≤ MAX_SLOTS) asked.now }
        ensures old { IsMasterOf L.setup self.old.job }
        ensures answer { QueuesAs self.old.job hand.old asked.now result self.new.job hand.new }
        ensures made { self.new.made ≡ self.old.made }
    {
        self.is_of_job();
        let splits = self.splits();
        if !self.is_own(hand) {
            return Err(refused(hand, splits, WaveError::StrangeHand));
        }
        if self.is_waiting() {
            return Ok(None);
        }
        if !hand.has_room(0, splits) {
            return Err(refused(hand, splits, WaveError::HistoryFull));
        }
        let Ok(starts) = Vec::with_capacity(alloc, splits) else {
            return Err(WaveError::Memory);
        };
        let wave = match self.master.start_ahead(alloc, asked) {
            Ok((_ahead, wave)) => wave,
            Err(CommitError::HistoryFull) => {
                return Err(refused(hand, splits, WaveError::HistoryFull));
            }
            Err(CommitError::Memory) => return Err(WaveError::Memory),
            Err(CommitError::Stale(_)) => unreachable!(),
        };
        // (its starts are of this cluster)
        self.master.is_kept();
        let event = ahead_event(&wave);
        Ok(Some(keep_starts(&self.master, &mut self.hands, hand, wave, &event, starts)))
    }

    // Whether the last event is a plan ahead.
    fn is_waiting(&self) -> bool
        ensures { IsTrue result ↔ IsWaiting self.now.job }
    {
        let history = self.master.history();
        matches!(
            history.get(history.len().saturating_sub(1)),
            Some(Event::Ahead { .. })
        )
    }
}

// The event of a plan ahead.
fn ahead_event(wave: &Wave) -> Event<'static>
    ensures { result ≡ ahead_event wave.now }
{
    Event::Ahead {
        first: wave.first,
        count: wave.count,
        cost: wave.cost,
    }
}
