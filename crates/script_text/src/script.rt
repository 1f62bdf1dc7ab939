use crate::heads::Head;
use node_ids::{AttemptNo, SplitNo, WorkerNo};
use text_lines::NameTable;

/// A command of a script: one call of the master.
#[derive(Drop)]
pub enum Command {
    /// The best wave that can start now.
    Wave,
    /// The heads of a best plan onto so many places of each worker, by number.
    Ahead(Vec<u64>),
    /// The attempt hands in its result, of a split or of a part.
    Done(AttemptNo),
    Fail(AttemptNo),
    Withdraw(AttemptNo),
    Backup(SplitNo, WorkerNo),
    Die(WorkerNo),
    /// The worker lives again, and holds these splits.
    Join(WorkerNo, Vec<SplitNo>),
    Add(SplitNo, WorkerNo),
    Lose(SplitNo, WorkerNo),
    /// A count of beats for each worker, by number.
    Sweep(Vec<u64>),
    /// The next part starts.
    Reduce,
    /// The copies that bring splits nearer to the target. No event.
    Copies,
}

/// The names of a job, each by its number.
#[derive(Drop)]
pub struct Names<'t> {
    pub workers: NameTable<'t>,
    pub splits: NameTable<'t>,
    pub documents: NameTable<'t>,
}

/// What is played on a new master: the commands, the names of workers, splits and documents, and the number
/// of replicas that each split is to have.
#[derive(Drop)]
pub struct Script<'t> {
    pub names: Names<'t>,
    pub target: usize,
    pub commands: Vec<Command>,
}

/// What a script or a job declares: the cluster of a new master, and what is played on it. A job has no
/// commands.
#[derive(Drop)]
pub struct ScriptText<'t> {
    pub head: Head,
    pub script: Script<'t>,
}
