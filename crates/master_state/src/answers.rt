ghost use Rattle.std.specs.Prelude.{◌≡◌};
ghost use Rattle.master_state.specs.Jobs.{plain};

use node_ids::{AttemptNo, PartNo, WorkerNo};
use price_certificate::Condition;
use std::sync::Arc;
use word_map::Run;

/// Why a call was ignored.
#[derive(Clone, Copy, Debug, PartialEq, Eq)]
pub enum Why {
    /// No split, or no part, runs the attempt.
    OldAttempt = 1,
    DeadWorker = 2,
    LiveWorker = 3,
    AlreadyHolds = 4,
    NotHolder = 5,
    /// The split, or a split of the join, has as many holders as the limit allows, or more.
    ManyHolders = 6,
    /// A reduce attempt, or a backup, may not start now.
    NotReady = 7,
    /// The result is of another text, part or number of parts.
    WrongInput = 8,
    /// No place is left for the event, the counts or the attempt.
    HistoryFull = 9,
    /// No memory for the reply of a reduce start, or for a wave of a shared master.
    Memory = 10,
    /// The hand is of another shared master.
    StrangeHand = 11,
    /// The split does not run, has two attempts, or runs on this worker.
    NoBackup = 12,
    /// The pair of split and worker is barred.
    Barred = 13,
}

/// The answer to a call: its place in the history, from 1, and what it tells beside; or why it was ignored,
/// and what comes back of what it was handed.
#[derive(Clone, Copy, Debug, PartialEq, Eq, Drop)]
pub enum Answer<T = (), B = ()> {
    Accepted(u32, T),
    Ignored(Why, B),
}

impl<T, B> Answer<T, B> {
    /// The answer with nothing beside its place or its reason.
    pub fn plain(&self) -> Answer
        ensures { result ≡ plain self.now }
    {
        match self {
            Answer::Accepted(place, _) => Answer::Accepted(*place, ()),
            Answer::Ignored(why, _) => Answer::Ignored(*why, ()),
        }
    }
}

/// A reduce attempt with all that its worker needs.
#[derive(Drop)]
pub struct Reply {
    pub attempt: AttemptNo,
    pub part: PartNo,
    pub worker: WorkerNo,
    pub runs: Vec<Arc<Run>>,
}

/// A wave that was committed.
#[derive(Clone, Copy, Debug, PartialEq, Eq)]
pub struct Wave {
    pub place: u32,
    pub first: AttemptNo,
    pub count: u32,
    pub cost: u64,
}

/// Why a wave was not committed. It is tested in the order HistoryFull, Memory, Stale.
#[derive(Clone, Copy, Debug, PartialEq, Eq)]
pub enum CommitError {
    Stale(Condition),
    HistoryFull,
    Memory,
}

/// What a master shows at a glance: whether a pair is admissible, whether a reduce attempt may start, how
/// many attempts run, and how many splits and parts are not done.
#[derive(Clone, Copy, Debug, PartialEq, Eq)]
pub struct Glance {
    pub ready: bool,
    pub reducible: bool,
    pub running: u32,
    pub open_splits: u32,
    pub open_parts: u32,
}
