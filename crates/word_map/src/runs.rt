ghost use Rattle.std.specs.Prelude.{◌≡◌, ◌<◌, ◌≤◌, length, vec_len, IfOk};
ghost use Rattle.std.specs.Arc.{arc_value};
ghost use Rattle.word_map.specs.Runs.{IsRunOf, IsRunFor, AreRunsOfText, RunView, IsRun, MapView};
ghost use Rattle.word_map.specs.Entries.{AreEntries, pairs_of_index};
ghost use Rattle.word_map.specs.Divided.{AreEntriesOfParts, AreRunEntries};

use crate::divide::divide;
use crate::entry::Entry;
use crate::pace::{Pace, Unpaced};
use crate::text::{Document, SplitText};
use crate::tokens::{all_in_lower_case, all_words};
use node_ids::PartNo;
use std::alloc::{AllocError, Global};
use std::marker::Model;
use std::mem;
use std::sync::Arc;

/// The pairs of a split's text for one part of its words: a word of a document with that document, by the
/// bytes of the words and then by the documents' numbers, each once (OSDI 2004, section 4.2).
#[derive(Drop)]
pub struct Run {
    text: Arc<SplitText>,
    part: PartNo,
    parts: usize,
    entries: Vec<Entry>,
}

impl Model for Run {
    ghost Value = { RunView };

    ghost view = { λ r. record {
      text = arc_value r.text;
      part = r.part;
      parts = r.parts;
      pairs = pairs_of_index r.entries.items;
    } };

    ghost invariant = { λ r. AreEntries r.entries.items
        × IsRun (arc_value r.text).documents r.part r.parts (pairs_of_index r.entries.items) };
}

impl Run {
    fn new(text: Arc<SplitText>, part: PartNo, parts: usize, entries: Vec<Entry>) -> Run
        requires in_range { part < parts }
        requires exact { AreRunEntries (arc_value text).documents part parts entries.items }
        ensures { IsRunFor (arc_value text) part parts result }
    {
        Run {
            text,
            part,
            parts,
            entries,
        }
    }

    /// The text that the run was made of.
    pub fn text(&self) -> &Arc<SplitText>
        ensures { arc_value result.now ≡ self.now.text }
    {
        &self.text
    }

    /// The part of the words.
    pub fn part(&self) -> PartNo
        ensures value { result ≡ self.now.part }
        ensures in_range { self.now.part < self.now.parts }
    {
        self.part
    }

    /// Into how many parts the words were divided.
    pub fn parts(&self) -> usize
        ensures { result ≡ self.now.parts }
    {
        self.parts
    }

    /// The pairs of the text for the part: each word once, with the documents that have it.
    pub fn entries(&self) -> &[Entry]
        ensures value { pairs_of_index result.now ≡ self.now.pairs }
        ensures exact { IsRunOf self.now.text.documents self.now.part self.now.parts self.now.pairs }
        ensures entries { AreEntries result.now }
    {
        self.entries.as_slice()
    }
}

/// What mapping a split made: a run of its text for each part of the words.
#[derive(Drop)]
pub struct MapResult {
    text: Arc<SplitText>,
    runs: Vec<Arc<Run>>,
}

impl Model for MapResult {
    ghost Value = { MapView };

    ghost view = { λ r. record { text = arc_value r.text; parts = length r.runs.items } };

    ghost invariant = { λ r. AreRunsOfText (arc_value r.text) r.runs.items };
}

impl MapResult {
    /// The text that the result was made of.
    pub fn text(&self) -> &Arc<SplitText>
        ensures { arc_value result.now ≡ self.now.text }
    {
        &self.text
    }

    /// How many parts there are, and so how many runs.
    pub fn parts(&self) -> usize
        ensures { result ≡ self.now.parts }
    {
        self.runs.len()
    }

    /// The run of a part.
    pub fn run(&self, part: PartNo) -> &Arc<Run>
        requires { part < self.now.parts }
        ensures { IsRunFor self.now.text part self.now.parts (arc_value result.now) }
    {
        &self.runs[part.index()]
    }
}

/// Maps a split: the words of its text, divided into 1 to 64 parts by their hash, each part's pairs in a run.
pub fn map_split(alloc: Global, text: Arc<SplitText>, parts: usize) -> Result<MapResult, AllocError>
    requires some { 0 < parts }
    requires few { parts ≤ 64 }
    ensures text { IfOk result (λ made. made.text ≡ arc_value text) }
    ensures parts { IfOk result (λ made. made.parts ≡ parts) }
{
    map_split_paced(alloc, text, parts, &Unpaced)
}

/// The same, and tells the pace that it goes on. Between two such calls at most one document is copied, or a
/// table grows or is let go.
pub fn map_split_paced<P: Pace>(
    alloc: Global,
    text: Arc<SplitText>,
    parts: usize,
    pace: &P,
) -> Result<MapResult, AllocError>
    requires some { 0 < parts }
    requires few { parts ≤ 64 }
    ensures text { IfOk result (λ made. made.text ≡ arc_value text) }
    ensures parts { IfOk result (λ made. made.parts ≡ parts) }
{
    let divided = divided_entries(alloc, text.documents(), parts, pace)?;
    let runs = all_runs(alloc, &text, divided)?;
    Ok(MapResult { text, runs })
}

// The entries of the documents for each part.
fn divided_entries<P: Pace>(
    alloc: Global,
    documents: &[Document],
    parts: usize,
    pace: &P,
) -> Result<Vec<Vec<Entry>>, AllocError>
    requires { 0 < parts }
    ensures { IfOk result (λ divided. AreEntriesOfParts documents.now parts divided.items) }
{
    let lower = all_in_lower_case(alloc, documents, pace)?;
    let table = all_words(alloc, lower.as_slice(), pace)?;
    Ok(divide(alloc, table.into_entries(alloc, pace)?, parts, pace)?)
}

// A run of the text for each part.
fn all_runs(
    alloc: Global,
    text: &Arc<SplitText>,
    mut divided: Vec<Vec<Entry>>,
) -> Result<Vec<Arc<Run>>, AllocError>
    requires entries { AreEntriesOfParts (arc_value text.now).documents (vec_len divided) divided.items }
    requires few { vec_len divided ≤ 64 }
    ensures count { IfOk result (λ runs. length runs.items ≡ vec_len divided) }
    ensures each { IfOk result (λ runs. AreRunsOfText (arc_value text.now) runs.items) }
{
    let parts = divided.len();
    let mut runs = Vec::with_capacity(alloc, parts)?;
    for part in 0..parts {
        let entries = mem::replace(&mut divided[part], Vec::new(alloc));
        let text = Arc::try_clone(text)?;
        let run = Run::new(text, PartNo::new(part as u8), parts, entries);
        runs.push(Arc::new(alloc, run)?)?;
    }
    Ok(runs)
}
