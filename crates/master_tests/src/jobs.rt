//! Masters made from rows, and their calls by number.
ghost use Rattle.std.specs.Prelude.{◌≡◌, IfSome, length, map};
ghost use Rattle.std.specs.List.{range_with_len};
ghost use Rattle.shuffle_reduce.specs.Gather.{values_of};

use block_map::HolderLimit;
use master_core::{Cluster, ClusterError, Master};
use master_state::{Answer, CommitError, Glance, Limits, Wave, Why, Work};
use node_ids::{AttemptNo, CentreNo, DocNo, PartNo, SplitNo, SplitSet, WorkerNo};
use price_certificate::Condition;
use rack_tree::{RackTree, TreeError};
use shuffle_reduce::{are_of_part, merge};
use std::alloc::Global;
use std::process::Abort;
use std::sync::Arc;
use wave_planner::{Planned, plan};
use wave_problem::SplitLine;
use word_map::{Document, Run, SplitText, Text, map_split};
use worker_table::DeadList;

/// A split: its bytes, its first holders, and the words of its one document.
pub type SplitRow<'r> = (u64, &'r [u16], &'r str);

/// What a cluster is made of: how many workers each rack has, the slots of each worker, the splits, and the
/// number of parts.
#[derive(Clone, Copy)]
pub struct Shape<'r> {
    pub racks: &'r [usize],
    pub slots: &'r [u8],
    pub splits: &'r [SplitRow<'r>],
    pub parts: usize,
}

/// Room for whatever a test does.
pub const AMPLE: Limits = Limits {
    events: 100,
    attempts: 100,
    sweeps: 100,
};

/// A master, and the runs that its last reduce attempt was given.
#[derive(Drop)]
pub struct Job {
    pub master: Master,
    pub runs: Vec<Arc<Run>>,
}

/// A call of the master, by numbers; a sweep gives all workers one count.
#[derive(Clone, Copy, Debug)]
pub enum Call {
    Wave,
    Done(u32),
    Fail(u32),
    Withdraw(u32),
    Backup(u16, u16),
    Die(u16),
    Join(u16, Option<u16>),
    Add(u16, u16),
    Lose(u16, u16),
    Sweep(u64),
    Reduce,
}

/// A call, and its answer.
pub type Row = (Call, Answer);

// A rack more, of so many workers.
fn add_rack(
    rt: &impl Abort,
    tree: &mut RackTree,
    centre: CentreNo,
    workers: usize,
) -> Result<(), TreeError> {
    assert!(rt; centre.index() < tree.centres());
    let rack = tree.add_rack(centre)?;
    for _ in 0..workers {
        assert!(rt; rack.index() < tree.racks());
        tree.add_worker(rack)?;
    }
    Ok(())
}

/// Racks of so many workers each, in one data centre.
pub fn racks_of(rt: &impl Abort, alloc: Global, racks: &[usize]) -> Option<RackTree> {
    let mut tree = RackTree::new(alloc);
    let centre = tree.add_centre().ok()?;
    for workers in racks {
        add_rack(rt, &mut tree, centre, *workers).ok()?;
    }
    Some(tree)
}

fn line_of(alloc: Global, row: &SplitRow<'_>) -> Option<SplitLine> {
    let mut holders = Vec::new(alloc);
    for holder in row.1 {
        holders.push(WorkerNo::new(*holder)).ok()?;
    }
    Some(SplitLine {
        bytes: row.0,
        pending: true,
        holders,
    })
}

fn lines_of(alloc: Global, rows: &[SplitRow<'_>]) -> Option<Vec<SplitLine>> {
    let mut lines = Vec::new(alloc);
    for row in rows {
        lines.push(line_of(alloc, row)?).ok()?;
    }
    Some(lines)
}

/// The text of a split that has these words.
pub fn text_of(alloc: Global, split: SplitNo, words: &str) -> Option<SplitText>
    ensures { IfSome result (λ text. text.split ≡ split) }
{
    let mut documents = Vec::new(alloc);
    documents
        .push(Document {
            number: DocNo::new(0),
            text: Text::new(String::from_str(alloc, words).ok()?),
        })
        .ok()?;
    Some(SplitText::new(split, documents))
}

fn texts_of(rt: &impl Abort, alloc: Global, rows: &[SplitRow<'_>]) -> Option<Vec<Arc<SplitText>>>
    ensures { IfSome result (λ texts. map (λ text. text.split) (values_of texts.items)
        ≡ range_with_len 0 (length rows.now)) }
{
    let mut texts = Vec::new(alloc);
    for number in 0..rows.len() {
        assert!(rt; number < 131_072);
        let text = text_of(alloc, SplitNo::new(number as u32), rows[number].2)?;
        texts.push(Arc::new(alloc, text).ok()?).ok()?;
    }
    Some(texts)
}

/// The cluster of a job, where there is memory for what it is made of.
pub fn make_cluster(
    rt: &impl Abort,
    alloc: Global,
    of: &Shape<'_>,
) -> Option<Result<Cluster, ClusterError>> {
    let tree = racks_of(rt, alloc, of.racks)?;
    let lines = lines_of(alloc, of.splits)?;
    let texts = texts_of(rt, alloc, of.splits)?;
    Some(cluster_of(rt, alloc, of, tree, lines, texts))
}

fn cluster_of(
    rt: &impl Abort,
    alloc: Global,
    of: &Shape<'_>,
    tree: RackTree,
    lines: Vec<SplitLine>,
    texts: Vec<Arc<SplitText>>,
) -> Result<Cluster, ClusterError>
    requires { map (λ text. text.split) (values_of texts.items)
        ≡ range_with_len 0 (length of.now.splits.now) }
{
    assert!(rt; tree.workers() == of.slots.len() && lines.len() == of.splits.len());
    assert!(rt; of.parts >= 1);
    Cluster::new(
        alloc,
        tree,
        of.slots,
        lines,
        texts,
        of.parts,
        3,
        HolderLimit::Eight,
    )
}

/// A master of a cluster.
pub fn make_master(
    rt: &impl Abort,
    alloc: Global,
    cluster: Cluster,
    limits: Limits,
) -> Option<Job> {
    assert!(rt;
        limits.events <= 65_536 && limits.attempts <= 1_000_000 && limits.sweeps <= limits.events
    );
    let master = Master::new(alloc, cluster, limits).ok()?;
    Some(Job {
        master,
        runs: Vec::new(alloc),
    })
}

/// A master of a cluster that is made of this.
pub fn make_shaped(rt: &impl Abort, alloc: Global, of: &Shape<'_>, limits: Limits) -> Option<Job> {
    make_master(rt, alloc, make_cluster(rt, alloc, of)?.ok()?, limits)
}

/// One call after another, each with its answer.
pub fn answers(rt: &impl Abort, alloc: Global, job: &mut Job, rows: &[Row]) {
    for (row, want) in rows {
        let told = answer(rt, alloc, job, *row).expect(rt, "no answer");
        assert_eq!(rt; told, *want, "{row:?}");
    }
}

/// What becomes of a new job by these calls, each with its answer.
pub fn played(rt: &impl Abort, alloc: Global, of: &Shape<'_>, limits: Limits, rows: &[Row]) -> Job {
    let mut job = make_shaped(rt, alloc, of, limits).expect(rt, "no master");
    answers(rt, alloc, &mut job, rows);
    job
}

/// A new job and these calls, each with its answer.
pub fn play(rt: &impl Abort, alloc: Global, of: &Shape<'_>, limits: Limits, rows: &[Row]) {
    end(played(rt, alloc, of, limits, rows));
}

/// What a job shows at its end, and how many results it has. A test that ends a job by this call or the next
/// need not be proved to drop it.
pub fn last_glance(job: Job) -> (Glance, usize) {
    (job.master.glance(), job.master.results().len())
}

/// Ends a job.
pub fn end(_job: Job) {}

/// What the call answers: its place, or why it is ignored.
pub fn answer(rt: &impl Abort, alloc: Global, job: &mut Job, call: Call) -> Option<Answer> {
    match call {
        Call::Wave => wave(rt, alloc, job),
        Call::Done(attempt) => done(rt, alloc, job, AttemptNo::new(attempt)),
        Call::Fail(attempt) => Some(fail(job, AttemptNo::new(attempt))),
        Call::Withdraw(attempt) => Some(job.master.withdraw(AttemptNo::new(attempt))),
        Call::Sweep(count) => sweep(alloc, job, count),
        Call::Reduce => Some(reduce(alloc, job)),
        Call::Die(worker) => Some(die(rt, job, WorkerNo::new(worker))),
        Call::Join(worker, split) => join(rt, alloc, job, WorkerNo::new(worker), split),
        Call::Add(split, worker) | Call::Lose(split, worker) | Call::Backup(split, worker) => {
            Some(of_pair(
                rt,
                job,
                call,
                SplitNo::new(u32::from(split)),
                WorkerNo::new(worker),
            ))
        }
    }
}

/// The plan of the present state.
pub fn planned(alloc: Global, job: &Job) -> Option<Planned> {
    let problem = job.master.problem(alloc).ok()?;
    plan(alloc, &problem).ok()
}

/// Hands in a plan that may be an old one.
pub fn commit(
    rt: &impl Abort,
    alloc: Global,
    job: &mut Job,
    planned: &Planned,
) -> Result<Wave, CommitError> {
    let (plan, prices, cluster) = (planned.plan(), planned.prices(), job.master.cluster());
    assert!(rt; plan.splits() == cluster.splits().len() && plan.workers() == cluster.slots().len());
    assert!(rt;
        prices.splits() == cluster.splits().len() && prices.workers() == cluster.slots().len()
    );
    job.master.commit(alloc, planned)
}

fn wave(rt: &impl Abort, alloc: Global, job: &mut Job) -> Option<Answer> {
    let planned = planned(alloc, job)?;
    match commit(rt, alloc, job, &planned) {
        Ok(wave) => Some(Answer::Accepted(wave.place, ())),
        Err(CommitError::Stale(condition)) => no_answer(condition),
        Err(_) => None,
    }
}

fn no_answer(_condition: Condition) -> Option<Answer> {
    None
}

// Hands in what is made of the attempt's text, or of the runs of the last reduce attempt.
fn done(rt: &impl Abort, alloc: Global, job: &mut Job, attempt: AttemptNo) -> Option<Answer> {
    let start = job.master.start(attempt)?;
    match &start.work {
        Work::Split(split) => done_split(rt, alloc, job, attempt, *split),
        Work::Part(part) => done_part(rt, alloc, job, attempt, *part),
    }
}

fn done_split(
    rt: &impl Abort,
    alloc: Global,
    job: &mut Job,
    attempt: AttemptNo,
    split: SplitNo,
) -> Option<Answer> {
    assert!(rt; split.index() < job.master.texts().len());
    let text = Arc::try_clone(&job.master.texts()[split.index()]).ok()?;
    let made = map_split(alloc, text, job.master.cluster().parts()).ok()?;
    Some(job.master.map_done(attempt, made).plain())
}

fn done_part(
    rt: &impl Abort,
    alloc: Global,
    job: &mut Job,
    attempt: AttemptNo,
    part: PartNo,
) -> Option<Answer> {
    let parts = job.master.cluster().parts();
    assert!(rt; part.index() < parts && are_of_part(job.runs.as_slice(), part, parts));
    let made = merge(alloc, parts, part, job.runs.as_slice()).ok()?;
    Some(job.master.part_done(attempt, made).plain())
}

fn fail(job: &mut Job, attempt: AttemptNo) -> Answer {
    match job.master.map_failed(attempt) {
        Answer::Ignored(Why::OldAttempt, ()) => job.master.part_failed(attempt),
        answer => answer,
    }
}

fn sweep(alloc: Global, job: &mut Job, count: u64) -> Option<Answer> {
    let workers = job.master.cluster().slots().len();
    let counts = vec![in alloc; count; workers].ok()?;
    let mut dead = DeadList::with_room(alloc, workers).ok()?;
    Some(job.master.sweep(&counts, &mut dead))
}

fn reduce(alloc: Global, job: &mut Job) -> Answer {
    match job.master.reduce_start(alloc) {
        Answer::Accepted(place, reply) => {
            job.runs = reply.runs;
            Answer::Accepted(place, ())
        }
        Answer::Ignored(why, ()) => Answer::Ignored(why, ()),
    }
}

fn die(rt: &impl Abort, job: &mut Job, worker: WorkerNo) -> Answer {
    assert!(rt; worker.index() < job.master.cluster().slots().len());
    job.master.die(worker)
}

fn join(
    rt: &impl Abort,
    alloc: Global,
    job: &mut Job,
    worker: WorkerNo,
    split: Option<u16>,
) -> Option<Answer> {
    let mut set = SplitSet::new(alloc);
    if let Some(split) = split {
        set.put(SplitNo::new(u32::from(split))).ok()?;
    }
    let cluster = job.master.cluster();
    assert!(rt; worker.index() < cluster.slots().len() && set.are_below(cluster.splits().len()));
    Some(job.master.join(worker, set))
}

fn of_pair(rt: &impl Abort, job: &mut Job, call: Call, split: SplitNo, worker: WorkerNo) -> Answer {
    let cluster = job.master.cluster();
    assert!(rt; split.index() < cluster.splits().len() && worker.index() < cluster.slots().len());
    match call {
        Call::Add(_, _) => job.master.add(split, worker),
        Call::Lose(_, _) => job.master.lose(split, worker),
        _ => job.master.backup(split, worker).plain(),
    }
}
