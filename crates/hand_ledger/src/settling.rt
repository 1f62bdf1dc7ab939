ghost use Rattle.std.specs.Prelude.{◌+◌, ◌≤◌, ◌↔◌, length, All, IsTrue};
ghost use Rattle.hand_ledger.specs.Marks.{AreNonePast, IsLowestFrom};
ghost use Rattle.hand_ledger.specs.Settling.{all_calls, AreTrue, IsLowestTorn};

use crate::keeping::Hand;
use crate::logs::Log;
use crate::marks::{PLACES, first_wrong, nothing_found};
use std::sync::ledger::Ledger;

/// The lowest place at which a log and hands disagree, or after the last event a note of a hand is not true.
/// Each 16,384 places take a pass over all calls, with a byte a place on the stack.
pub fn torn_place<L: Ledger>(log: &Log<'_>, is_short: bool, hands: &[Hand<L>]) -> Option<u32>
    requires { length log.now.history ≤ 1048576 }
    ensures { IsLowestTorn log.now is_short hands.now result }
{
    let last = last_place(log.history.len(), hands);
    for piece in 0..last / PLACES + 1 {
        let first = piece * PLACES;
        if let Some(n) = torn_from(log, is_short, hands, first) {
            return Some((first + n) as u32);
        }
    }
    None
}

// The place after the last event, or the greatest place of a call, where that is greater.
fn last_place<L: Ledger>(events: usize, hands: &[Hand<L>]) -> usize
    requires { events ≤ 1048576 }
    ensures most { result ≤ 1048577 }
    ensures events { events + 1 ≤ result }
    ensures calls { AreNonePast result (all_calls hands.now) }
{
    let mut last = events + 1;
    for hand in hands {
        last = hand.greatest_place(last);
    }
    last
}

// At which of 16,384 places, counted from the first, a log and hands disagree: the lowest one.
fn torn_from<L: Ledger>(
    log: &Log<'_>,
    is_short: bool,
    hands: &[Hand<L>],
    first: usize,
) -> Option<usize>
    requires events { length log.now.history ≤ 1048576 }
    requires first { first ≤ 1048577 }
    ensures { IsLowestFrom log.now is_short hands.now first result }
{
    let mut found = nothing_found();
    for hand in hands {
        hand.mark(log, first, &mut found);
    }
    let events = log.history.len();
    first_wrong(events, are_true(is_short, hands), first, &found)
}

// Whether the notes of all hands are true.
fn are_true<L: Ledger>(is_short: bool, hands: &[Hand<L>]) -> bool
    ensures { IsTrue result ↔ All (AreTrue is_short) hands.now }
{
    for hand in hands {
        if !hand.is_true(is_short) {
            return false;
        }
    }
    true
}
