//! Backups, call by call.
use crate::jobs::{AMPLE, Call, Shape, play};
use master_state::{Answer, Limits, Why};

// One split on the first of two workers with a slot each, and one part.
const TWO_WORKERS: Shape<'static> = Shape {
    racks: &[2],
    slots: &[1, 1],
    splits: &[(5, &[0], "one")],
    parts: 1,
};

#[test]
fn the_first_of_two_attempts_wins(rt: HostRuntime) {
    play(
        &rt,
        rt.alloc(),
        &TWO_WORKERS,
        AMPLE,
        &[
            (Call::Backup(0, 1), Answer::Ignored(Why::NoBackup, ())),
            (Call::Wave, Answer::Accepted(1, ())),
            (Call::Backup(0, 0), Answer::Ignored(Why::NoBackup, ())),
            (Call::Backup(0, 1), Answer::Accepted(2, ())),
            (Call::Done(2), Answer::Accepted(3, ())),
            (Call::Done(1), Answer::Ignored(Why::OldAttempt, ())),
            (Call::Reduce, Answer::Accepted(4, ())),
            (Call::Fail(3), Answer::Accepted(5, ())),
            (Call::Reduce, Answer::Accepted(6, ())),
            (Call::Withdraw(4), Answer::Accepted(7, ())),
            (Call::Done(4), Answer::Ignored(Why::OldAttempt, ())),
            (Call::Reduce, Answer::Accepted(8, ())),
            (Call::Done(5), Answer::Accepted(9, ())),
        ],
    );
}

#[test]
fn the_other_of_two_attempts_goes_on(rt: HostRuntime) {
    play(
        &rt,
        rt.alloc(),
        &TWO_WORKERS,
        AMPLE,
        &[
            (Call::Wave, Answer::Accepted(1, ())),
            (Call::Backup(0, 1), Answer::Accepted(2, ())),
            (Call::Withdraw(1), Answer::Accepted(3, ())),
            (Call::Backup(0, 0), Answer::Accepted(4, ())),
            (Call::Fail(3), Answer::Accepted(5, ())),
            (Call::Backup(0, 0), Answer::Ignored(Why::Barred, ())),
            (Call::Die(0), Answer::Accepted(6, ())),
            (Call::Done(2), Answer::Accepted(7, ())),
        ],
    );
}

// Two splits, on the first two of four workers.
const FOUR_WORKERS: Shape<'static> = Shape {
    racks: &[4],
    slots: &[1, 1, 1, 1],
    splits: &[(5, &[0], "one"), (5, &[1], "two")],
    parts: 1,
};

// Room for no attempt past the fourth.
const FOUR_ATTEMPTS: Limits = Limits {
    events: 100,
    attempts: 4,
    sweeps: 0,
};

// Each reason is told before the next: a dead worker, no split to back up, what is not ready, a barred pair,
// want of room.
#[test]
fn reasons_of_a_backup_in_their_order(rt: HostRuntime) {
    play(
        &rt,
        rt.alloc(),
        &FOUR_WORKERS,
        FOUR_ATTEMPTS,
        &[
            (Call::Die(3), Answer::Accepted(1, ())),
            (Call::Backup(0, 3), Answer::Ignored(Why::DeadWorker, ())),
            (Call::Wave, Answer::Accepted(2, ())),
            (Call::Fail(1), Answer::Accepted(3, ())),
            (Call::Backup(0, 0), Answer::Ignored(Why::NoBackup, ())),
            (Call::Backup(1, 0), Answer::Ignored(Why::NotReady, ())),
            (Call::Wave, Answer::Accepted(4, ())),
            (Call::Backup(0, 1), Answer::Ignored(Why::NotReady, ())),
            (Call::Backup(0, 0), Answer::Ignored(Why::Barred, ())),
            (Call::Withdraw(2), Answer::Accepted(5, ())),
            (Call::Backup(0, 0), Answer::Ignored(Why::NotReady, ())),
            (Call::Wave, Answer::Accepted(6, ())),
            (Call::Backup(0, 0), Answer::Ignored(Why::Barred, ())),
            (Call::Backup(1, 0), Answer::Ignored(Why::HistoryFull, ())),
            (Call::Lose(0, 0), Answer::Accepted(7, ())),
            (Call::Backup(0, 0), Answer::Ignored(Why::NotReady, ())),
        ],
    );
}
