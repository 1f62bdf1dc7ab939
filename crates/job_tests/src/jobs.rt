//! Jobs made from rows.
ghost use Rattle.std.specs.Prelude.{◌≡◌, ◌≤◌, IfSome, length, map};
ghost use Rattle.std.specs.List.{range_with_len};
ghost use Rattle.shuffle_reduce.specs.Gather.{values_of};
ghost use Rattle.master_state.specs.States.{AreAllowed};

use block_map::HolderLimit;
use job_threads::Job;
use master_core::Cluster;
use master_state::Limits;
use node_ids::{CentreNo, DocNo, SplitNo, WorkerNo};
use rack_tree::RackTree;
use std::alloc::Global;
use std::process::Abort;
use std::sync::Arc;
use wave_problem::SplitLine;
use word_map::{Document, SplitText, Text};

/// A split: its bytes, its holders, and the words of its one document, which has the split's number.
pub type SplitRow<'r> = (u64, &'r [u16], &'r str);

/// Room for whatever a job does.
pub const AMPLE: Limits = Limits {
    events: 65_536,
    attempts: 65_536,
    sweeps: 16_384,
};

// One rack of so many workers.
fn rack_of(rt: &impl Abort, alloc: Global, workers: usize) -> Option<RackTree>
    ensures { IfSome result (λ tree. length tree.rack_of ≡ workers) }
{
    let mut tree = RackTree::new(alloc);
    let centre = tree.add_centre().ok()?;
    assert!(rt; centre.index() < tree.centres());
    let rack = tree.add_rack(centre).ok()?;
    for _ in 0..workers {
        assert!(rt; rack.index() < tree.racks());
        tree.add_worker(rack).ok()?;
    }
    assert!(rt; tree.workers() == workers);
    Some(tree)
}

fn line_of(alloc: Global, row: &SplitRow<'_>) -> Option<SplitLine> {
    let mut holders = Vec::new(alloc);
    for holder in row.1 {
        holders.push(WorkerNo::new(*holder)).ok()?;
    }
    Some(SplitLine {
        bytes: row.0,
        pending: true,
        holders,
    })
}

fn lines_of(alloc: Global, rows: &[SplitRow<'_>]) -> Option<Vec<SplitLine>> {
    let mut lines = Vec::new(alloc);
    for row in rows {
        lines.push(line_of(alloc, row)?).ok()?;
    }
    Some(lines)
}

// The text of a split that has these words.
fn text_of(alloc: Global, split: u16, words: &str) -> Option<SplitText>
    ensures { IfSome result (λ text. text.split ≡ split) }
{
    let mut documents = Vec::new(alloc);
    documents
        .push(Document {
            number: DocNo::new(u32::from(split)),
            text: Text::new(String::from_str(alloc, words).ok()?),
        })
        .ok()?;
    Some(SplitText::new(SplitNo::new(u32::from(split)), documents))
}

fn texts_of(rt: &impl Abort, alloc: Global, rows: &[SplitRow<'_>]) -> Option<Vec<Arc<SplitText>>>
    ensures { IfSome result (λ texts. map (λ text. text.split) (values_of texts.items)
        ≡ range_with_len 0 (length rows.now)) }
{
    let mut texts = Vec::new(alloc);
    for number in 0..rows.len() {
        assert!(rt; number < 1024);
        let text = text_of(alloc, number as u16, rows[number].2)?;
        texts.push(Arc::new(alloc, text).ok()?).ok()?;
    }
    Some(texts)
}

/// A job of one rack of at most 1,024 workers with these slots.
pub fn job_of(
    rt: &impl Abort,
    alloc: Global,
    slots: &[u8],
    rows: &[SplitRow<'_>],
    parts: usize,
    silence: u32,
    limits: Limits,
) -> Option<Job>
    ensures workers { IfSome result (λ job. length job.cluster.slots ≤ 1024) }
    ensures limits { IfSome result (λ job. AreAllowed job.limits) }
{
    assert!(rt;
        limits.events <= 65_536 && limits.attempts <= 1_000_000 && limits.sweeps <= limits.events
    );
    assert!(rt; parts >= 1 && silence >= 1);
    let tree = rack_of(rt, alloc, slots.len())?;
    let lines = lines_of(alloc, rows)?;
    let texts = texts_of(rt, alloc, rows)?;
    assert!(rt; lines.len() == rows.len());
    let eight = HolderLimit::Eight;
    let cluster = Cluster::new(alloc, tree, slots, lines, texts, parts, silence, eight).ok()?;
    assert!(rt; cluster.slots().len() <= 1024);
    Some(Job {
        cluster,
        target: 3,
        limits,
        ahead: None,
    })
}
