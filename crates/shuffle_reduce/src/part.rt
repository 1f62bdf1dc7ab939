ghost use Rattle.std.specs.Prelude.{◌≡◌, ◌↔◌, ◌<◌, ◌≤◌, IfOk, IsTrue};
ghost use Rattle.shuffle_reduce.specs.Merged.{IsPartOf, AreSameTexts, same_texts, PartView, IsPart};
ghost use Rattle.word_map.specs.Entries.{AreEntries, pairs_of_index};
ghost use Rattle.shuffle_reduce.specs.Gather.{AreOfPart, ArePairsOfRuns, texts_of_runs, values_of};

use crate::covers::are_same_texts;
use crate::gather::{all_texts, gathered_runs};
use node_ids::PartNo;
use std::alloc::{AllocError, Global};
use std::marker::Model;
use std::sync::Arc;
use word_map::{Entry, Pace, Run, SplitText, Unpaced};

/// The pairs of some texts for one part of their words: what the reduce of that part made (OSDI 2004,
/// section 3.1). The pairs stand by the bytes of the words and then by the documents' numbers, each once.
#[derive(Drop)]
pub struct PartResult {
    texts: Vec<Arc<SplitText>>,
    part: PartNo,
    parts: usize,
    entries: Vec<Entry>,
}

impl Model for PartResult {
    ghost Value = { PartView };

    ghost view = { λ r. record {
      texts = values_of r.texts.items;
      part = r.part;
      parts = r.parts;
      pairs = pairs_of_index r.entries.items;
    } };

    ghost invariant = { λ r. IsPart (values_of r.texts.items) r.part r.parts (pairs_of_index r.entries.items)
        × AreEntries r.entries.items };
}

impl PartResult {
    /// The texts that the runs came from, in the order of the runs.
    pub fn texts(&self) -> &[Arc<SplitText>]
        ensures { values_of result.now ≡ self.now.texts }
    {
        self.texts.as_slice()
    }

    /// The part of the words.
    pub fn part(&self) -> PartNo
        ensures value { result ≡ self.now.part }
        ensures in_range { self.now.part < self.now.parts }
        ensures merged { IsPartOf self.now.texts self.now.part self.now.parts self.now.pairs }
    {
        self.part
    }

    /// Into how many parts the words were divided.
    pub fn parts(&self) -> usize
        ensures { result ≡ self.now.parts }
    {
        self.parts
    }

    /// The pairs of the texts for the part: each word once, with the documents that have it.
    pub fn entries(&self) -> &[Entry]
        ensures value { pairs_of_index result.now ≡ self.now.pairs }
        ensures exact { IsPartOf self.now.texts self.now.part self.now.parts self.now.pairs }
        ensures entries { AreEntries result.now }
    {
        self.entries.as_slice()
    }

    /// Whether the texts are these and no others; a text that is given twice counts once. It takes no
    /// memory: it compares the lists place by place, and only where they differ each text with each
    /// other one.
    pub fn covers(&self, texts: &[Arc<SplitText>]) -> bool
        ensures same { IsTrue result ↔ AreSameTexts self.now.texts (values_of texts.now) }
        ensures value { result ≡ same_texts self.now.texts (values_of texts.now) }
    {
        are_same_texts(self.texts.as_slice(), texts)
    }
}

/// Merges the runs of a part. The result has the pairs of the runs, rising, each once; without a run it
/// has none.
pub fn merge(
    alloc: Global,
    parts: usize,
    part: PartNo,
    runs: &[Arc<Run>],
) -> Result<PartResult, AllocError>
    requires in_range { part < parts }
    requires few { parts ≤ 64 }
    requires same { AreOfPart runs.now part parts }
    ensures part { IfOk result (λ merged. merged.part ≡ part) }
    ensures parts { IfOk result (λ merged. merged.parts ≡ parts) }
    ensures texts { IfOk result (λ merged. merged.texts ≡ texts_of_runs runs.now) }
    ensures pairs { IfOk result (λ merged. ArePairsOfRuns runs.now merged.pairs) }
    ensures exact { IfOk result (λ merged. IsPartOf (texts_of_runs runs.now) part parts merged.pairs) }
{
    merge_paced(alloc, parts, part, runs, &Unpaced)
}

/// The same, and tells the pace that it goes on, at each entry of a run and at each comparison of two words.
pub fn merge_paced<P: Pace>(
    alloc: Global,
    parts: usize,
    part: PartNo,
    runs: &[Arc<Run>],
    pace: &P,
) -> Result<PartResult, AllocError>
    requires in_range { part < parts }
    requires few { parts ≤ 64 }
    requires same { AreOfPart runs.now part parts }
    ensures part { IfOk result (λ merged. merged.part ≡ part) }
    ensures parts { IfOk result (λ merged. merged.parts ≡ parts) }
    ensures texts { IfOk result (λ merged. merged.texts ≡ texts_of_runs runs.now) }
    ensures pairs { IfOk result (λ merged. ArePairsOfRuns runs.now merged.pairs) }
    ensures exact { IfOk result (λ merged. IsPartOf (texts_of_runs runs.now) part parts merged.pairs) }
{
    let texts = all_texts(alloc, runs)?;
    let entries = merged_entries(alloc, runs, part, parts, pace)?;
    Ok(PartResult {
        texts,
        part,
        parts,
        entries,
    })
}

// The words of the runs, each with the documents of all runs.
fn merged_entries<P: Pace>(
    alloc: Global,
    runs: &[Arc<Run>],
    part: PartNo,
    parts: usize,
    pace: &P,
) -> Result<Vec<Entry>, AllocError>
    requires { AreOfPart runs.now part parts }
    ensures pairs { IfOk result (λ entries. ArePairsOfRuns runs.now (pairs_of_index entries.items)) }
    ensures exact { IfOk result (λ entries.
        IsPartOf (texts_of_runs runs.now) part parts (pairs_of_index entries.items)) }
    ensures entries { IfOk result (λ entries. AreEntries entries.items) }
{
    let table = gathered_runs(alloc, runs, pace)?;
    Ok(table.into_entries(alloc, pace)?)
}

// Whether the run is of this part and this number of parts.
fn is_of_part(run: &Run, part: PartNo, parts: usize) -> bool
    ensures { IsTrue result ↔ ((run.now.part ≡ part) × (run.now.parts ≡ parts)) }
{
    run.part() == part && run.parts() == parts
}

/// Whether each run is of this part and this number of parts, as `merge` asks.
pub fn are_of_part(runs: &[Arc<Run>], part: PartNo, parts: usize) -> bool
    ensures { IsTrue result ↔ AreOfPart runs.now part parts }
{
    for run in runs {
        if !is_of_part(run, part, parts) {
            return false;
        }
    }
    true
}
