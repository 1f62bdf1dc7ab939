ghost use Rattle.std.specs.Prelude.{◌≡◌, ◌+◌, ◌^◌, ◌<◌, ◌≤◌, ◌↔◌, length, Err, IfOk, OnErr, OnOk};
ghost use Rattle.hand_ledger.specs.Hands.{new_hand, HandsValue};
ghost use Rattle.hand_ledger.specs.Settling.{all_calls};
ghost use Rattle.hand_ledger.specs.declared.making.HandError.{HandError};

use crate::keeping::Hand;
use master_state::Limits;
use std::alloc::Global;
use std::marker::Model;
use std::sync::ledger::{Blank, Book, Ledger, Share};

/// Why no hand was made. It is tested in this order.
#[derive(Clone, Copy, Debug, PartialEq, Eq)]
pub enum HandError {
    /// As many hands as there may be, 4,095, were made already.
    Limit,
    Memory,
}

/// All hands of one ledger: how many calls they keep together, and how many hands were made. Only a hand that
/// is made or that keeps a call changes it.
#[derive(Drop)]
pub struct Hands<L: Ledger> {
    pub(crate) book: Book<L>,
    rest: Share<L>,
    made: u64,
}

impl<L: Ledger> Model for Hands<L> {
    ghost Value = { HandsValue };

    ghost view = { λ h. record { total = h.book.total; made = h.made } };

    ghost invariant = { λ h. (h.rest.parts + h.made ≡ 4096) × (h.rest.amount ≡ 0) × (h.made ≤ 4095) };
}

impl<L: Ledger> Hands<L> {
    /// No hand yet, by the blank of the ledger.
    pub fn new(blank: Blank) -> Hands<L>
        requires name { blank.name ≡ L.name }
        requires parts { (blank.parts ≡ L.parts) × (blank.parts ≡ 4096) }
        ensures total { result.total ≡ 0 }
        ensures made { result.made ≡ 0 }
    {
        let (book, rest) = blank.open::<L>();
        Hands {
            book,
            rest,
            made: 0,
        }
    }

    /// How many hands were made.
    pub fn made(&self) -> u64
        ensures value { result ≡ self.now.made }
        ensures most { result ≤ 4095 }
    {
        self.made
    }

    /// A hand without a call, with this room, for a master of so many workers.
    pub fn hand(
        &mut self,
        alloc: Global,
        workers: usize,
        room: Limits,
    ) -> Result<Hand<L>, HandError>
        requires { workers < 2 ^ 32 }
        ensures value { IfOk result (λ h. h ≡ new_hand workers room) }
        ensures made { OnOk result (self.new.made ≡ self.old.made + 1) }
        ensures total { self.new.total ≡ self.old.total }
        ensures err { OnErr result (self.new ≡ self.old) }
        ensures limit { (result ≡ Err HandError.Limit) ↔ (self.old.made ≡ 4095) }
    {
        if self.made >= 4095 {
            return Err(HandError::Limit);
        }
        let Ok(hand) = Hand::new(alloc, &mut self.rest, workers, room) else {
            return Err(HandError::Memory);
        };
        self.made += 1;
        Ok(hand)
    }

    /// A law of the hands that exist at one time: they are no more than were made. Nothing changes.
    pub fn are_few(&mut self, hands: &mut [Hand<L>])
        requires { L.parts ≡ 4096 }
        ensures made { length hands.old ≤ self.old.made }
        ensures few { length hands.old ≤ 4095 }
        ensures hands { hands.new ≡ hands.old }
        ensures same { self.new ≡ self.old }
    {
        are_few_beside(&mut self.rest, hands);
    }

    /// A law of the hands that exist at one time: their calls are at most the calls recorded, and equal if
    /// every hand made is present. Nothing changes.
    pub fn audit(&mut self, hands: &mut [Hand<L>])
        requires { L.parts ≡ 4096 }
        ensures bound { length (all_calls hands.old) ≤ self.old.total }
        ensures all { length hands.old ≡ self.old.made → length (all_calls hands.old) ≡ self.old.total }
        ensures hands { hands.new ≡ hands.old }
        ensures same { self.new ≡ self.old }
    {
        audit_beside(&mut self.book, &mut self.rest, hands);
    }
}

// With the parts of a share that is no hand's, hands are no more than the parts of their ledger.
fn are_few_beside<L: Ledger>(rest: &mut Share<L>, hands: &mut [Hand<L>])
    requires { 1 ≤ rest.old.parts }
    ensures few { length hands.old + rest.old.parts ≤ L.parts }
    ensures hands { hands.new ≡ hands.old }
    ensures parts { rest.new.parts ≡ rest.old.parts }
    ensures amount { rest.new.amount ≡ rest.old.amount }
{
    let Some((hand, others)) = hands.split_first_mut() else {
        let mut none = rest.empty();
        rest.give(&mut none, 0, 0);
        return;
    };
    let calls = hand.entries.len() as u64;
    hand.share.give(rest, 1, calls);
    are_few_beside(rest, others);
    rest.give(&mut hand.share, 1, calls);
}

// The calls of these hands and the amount of the share that belongs to no hand are together at most the
// book's total. They are equal to it if hands and share have all parts of the ledger.
fn audit_beside<L: Ledger>(book: &mut Book<L>, rest: &mut Share<L>, hands: &mut [Hand<L>])
    requires { 1 ≤ rest.old.parts }
    ensures bound { rest.old.amount + length (all_calls hands.old) ≤ book.old.total }
    ensures whole { length hands.old + rest.old.parts ≡ L.parts
        → rest.old.amount + length (all_calls hands.old) ≡ book.old.total }
    ensures total { book.new.total ≡ book.old.total }
    ensures hands { hands.new ≡ hands.old }
    ensures parts { rest.new.parts ≡ rest.old.parts }
    ensures amount { rest.new.amount ≡ rest.old.amount }
{
    let Some((hand, others)) = hands.split_first_mut() else {
        book.audit(rest);
        return;
    };
    let kept = hand.entries.len() as u64;
    hand.share.give(rest, 1, kept);
    audit_beside(book, rest, others);
    rest.give(&mut hand.share, 1, kept);
}
