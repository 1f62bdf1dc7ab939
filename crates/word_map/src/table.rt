ghost use Rattle.std.specs.Prelude.{◌≡◌, ◌↔◌, ◌⊎◌, ◌<◌, ℕ, List, length, [], OnOk, IfOk, Contains};
ghost use Rattle.std.specs.Prelude.{IsErr, IsSorted, nat_eq};
ghost use Rattle.std.specs.Cmp.Lexicographic.{pointwise, slice_cmp};
ghost use Rattle.std.specs.Ordering.{nat_cmp};
ghost use Rattle.std.specs.HashMap.{keys, IsReordered};
ghost use Rattle.word_map.specs.Texts.{Pair};
ghost use Rattle.word_map.specs.Entries.{AreEntries, DocumentsRise, HavePair, pairs_of_entry, pairs_of_index};
ghost use Rattle.word_map.specs.Entries.{EntryView};
ghost use Rattle.word_map.specs.Table.{AddsPairs, Has, IsTable, views};

use crate::distinct::sort_distinct;
use crate::entry::{Documents, Entry};
use crate::pace::Pace;
use crate::text::Text;
use crate::word::Word;
use indexmap::IndexMap;
use node_ids::DocNo;
use smallvec::SmallVec;
use std::alloc::{AllocError, Global};
use std::cmp::Ordering;
use std::marker::Model;

/// Words with the documents that have them, as they are gathered, in any order.
#[derive(Drop)]
pub struct WordTable<'a> {
    table: IndexMap<Word<'a>, Documents>,
}

impl<'a> Model for WordTable<'a> {
    ghost Value = { List EntryView };

    ghost view = { λ t. views t.table.entries };

    ghost invariant = { λ t. IsTable t.table };
}

// Notes that the word stands in the document.
fn note<'a>(
    alloc: Global,
    table: &mut IndexMap<Word<'a>, Documents>,
    word: Word<'a>,
    document: DocNo,
) -> Result<(), AllocError>
    ensures added { OnOk result ((w : List ℕ) (n : ℕ)
        → Has table.new w n ↔ (Has table.old w n ⊎ ((w ≡ word.entry) × (n ≡ document)))) }
    ensures table { IsTable table.old → IsTable table.new }
{
    match table.get_mut(&word) {
        Some(documents) => {
            if documents.last() != Some(&document) {
                documents.push(document)?;
            }
        }
        None => {
            let documents = SmallVec::from_slice(alloc, &[document])?;
            table.insert(word, documents)?;
        }
    }
    Ok(())
}

// Adds the documents of the word.
fn add_documents<'a>(
    alloc: Global,
    table: &mut IndexMap<Word<'a>, Documents>,
    word: Word<'a>,
    numbers: &[DocNo],
) -> Result<(), AllocError>
    requires { 0 < length numbers.now }
    ensures added { OnOk result ((w : List ℕ) (n : ℕ)
        → Has table.new w n ↔ (Has table.old w n ⊎ ((w ≡ word.entry) × Contains numbers.now n))) }
    ensures table { IsTable table.old → IsTable table.new }
{
    match table.get_mut(&word) {
        Some(documents) => documents.extend_from_slice(numbers)?,
        None => {
            let documents = SmallVec::from_slice(alloc, numbers)?;
            table.insert(word, documents)?;
        }
    }
    Ok(())
}

impl<'a> WordTable<'a> {
    /// A table without words.
    pub fn new(alloc: Global) -> WordTable<'a>
        ensures { result ≡ [] }
    {
        WordTable {
            table: IndexMap::new(alloc),
        }
    }

    /// Notes that the word stands in the document.
    pub(crate) fn note(
        &mut self,
        alloc: Global,
        word: Word<'a>,
        document: DocNo,
    ) -> Result<(), AllocError>
        ensures { OnOk result
            (AddsPairs self.old self.new (λ pair. (pair.word ≡ word.entry) × (pair.document ≡ document))) }
    {
        note(alloc, &mut self.table, word, document)
    }

    // Adds the documents of the entry to those of its word.
    fn add_entry(&mut self, alloc: Global, entry: &'a Entry) -> Result<(), AllocError>
        requires { 0 < length entry.now.documents }
        ensures { OnOk result (AddsPairs self.old self.new (Contains (pairs_of_entry entry.now))) }
    {
        let word = Word::new(entry.word());
        add_documents(alloc, &mut self.table, word, entry.documents())
    }

    /// Adds the documents of each entry to those of its word, and tells the pace at each.
    pub fn add<P: Pace>(
        &mut self,
        alloc: Global,
        entries: &'a [Entry],
        pace: &P,
    ) -> Result<(), AllocError>
        requires { AreEntries entries.now }
        ensures added { OnOk result (AddsPairs self.old self.new (Contains (pairs_of_index entries.now))) }
        ensures memory { IsErr result → HavePair entries.now }
    {
        for entry in entries {
            pace.goes_on();
            self.add_entry(alloc, entry)?;
        }
        Ok(())
    }

    /// The words in byte order, each with its documents by number, each once. The pace is told at each, and
    /// at each comparison of two words while they are sorted.
    pub fn into_entries<P: Pace>(self, alloc: Global, pace: &P) -> Result<Vec<Entry>, AllocError>
        ensures entries { IfOk result (λ entries. AreEntries entries.items) }
        ensures same { IfOk result (λ entries. (pair : Pair)
            → Contains (pairs_of_index entries.items) pair ↔ Contains (pairs_of_index self.entry) pair) }
        ensures memory { IsErr result → HavePair self.entry }
    {
        let WordTable { mut table } = self;
        if table.is_empty() {
            return Ok(Vec::new(alloc));
        }
        sort_words(&mut table, pace)?;
        Ok(sorted_entries(alloc, table, pace)?)
    }
}

// Puts the words into byte order.
fn sort_words<P: Pace>(
    table: &mut IndexMap<Word<'_>, Documents>,
    pace: &P,
) -> Result<(), AllocError>
    ensures sorted { OnOk result (IsSorted (slice_cmp nat_cmp) (keys table.new)) }
    ensures reordered { IsReordered (pointwise nat_eq) table.old table.new }
{
    table.sort_unstable_by(
        |word: &Word<'_>, _: &Documents, other: &Word<'_>, _: &Documents| -> Ordering
            ensures { result ≡ slice_cmp nat_cmp word.now other.now }
        {
            pace.goes_on();
            word.cmp(other)
        },
    )
}

// The entry of the word, with its documents in order, each once.
fn make_entry(alloc: Global, word: &Word<'_>, mut documents: Documents) -> Result<Entry, AllocError>
    ensures word { IfOk result (λ made. made.word ≡ word.now) }
    ensures rise { IfOk result DocumentsRise }
    ensures same { IfOk result (λ made. (n : ℕ) → Contains made.documents n ↔ Contains documents.items n) }
{
    sort_distinct(&mut documents);
    let word = Text::new(String::from_str(alloc, word.as_str())?);
    Ok(Entry::new(word, documents))
}

// The entries of a table whose words are in order.
fn sorted_entries<P: Pace>(
    alloc: Global,
    table: IndexMap<Word<'_>, Documents>,
    pace: &P,
) -> Result<Vec<Entry>, AllocError>
    requires sorted { IsSorted (slice_cmp nat_cmp) (keys table) }
    requires table { IsTable table }
    ensures entries { IfOk result (λ entries. AreEntries entries.items) }
    ensures same { IfOk result (λ entries. (pair : Pair)
        → Contains (pairs_of_index entries.items) pair
        ↔ Contains (pairs_of_index (views table.entry.entries)) pair) }
{
    let mut entries = Vec::with_capacity(alloc, table.len())?;
    for (word, documents) in table {
        pace.goes_on();
        entries.push(make_entry(alloc, &word, documents)?)?;
    }
    Ok(entries)
}
