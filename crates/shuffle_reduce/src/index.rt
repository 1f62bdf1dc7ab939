ghost use Rattle.std.specs.Prelude.{◌≡◌, ◌↔◌, ◌<◌, ◌≤◌, All, IfOk, IsErrOf, IsTrue, List};
ghost use Rattle.word_map.specs.declared.text.Document.{Document};
ghost use Rattle.shuffle_reduce.specs.Merged.{AreSameTexts, HaveWord, PartView};
ghost use Rattle.shuffle_reduce.specs.Gather.{values_of};
ghost use Rattle.shuffle_reduce.specs.Indexed.{IsIndexOf, IsIndexOfDocuments, AreDocumentsOf, AreReady};
ghost use Rattle.shuffle_reduce.specs.Indexed.{HasDouble, HasMissing};
ghost use Rattle.word_map.specs.Entries.{EntryView};
ghost use Rattle.shuffle_reduce.specs.declared.index.FinishError.TheVariants.{Memory};

use crate::counts::{has_double, has_missing};
use crate::gather::gathered_results;
use crate::part::PartResult;
use std::alloc::{AllocError, Global};
use std::marker::Model;
use std::sync::Arc;
use thiserror::Error;
use word_map::{Entry, SplitText, Unpaced};

/// An inverted index: words, each with the documents that have it (OSDI 2004, section 2.3).
#[derive(Drop)]
pub struct Index {
    entries: Vec<Entry>,
}

impl Model for Index {
    ghost Value = { List EntryView };

    ghost view = { λ index. index.entries.items };
}

impl Index {
    /// The words with their documents, in the order of the words' bytes, each word once.
    pub fn entries(&self) -> &[Entry]
        ensures { result.now ≡ self.now }
    {
        self.entries.as_slice()
    }
}

/// Why there is no index. A part that stands twice is told before one that is not there, and want of
/// memory last.
#[derive(Clone, Copy, Debug, Error, PartialEq, Eq)]
pub enum FinishError {
    /// No result is of a part that is below the number of parts.
    #[error("a part is missing")]
    MissingPart,
    /// Two results are of one part.
    #[error("a part stands twice")]
    DoublePart,
    /// There is no memory. A text without words takes none.
    #[error("no memory")]
    Memory,
}

impl From<AllocError> for FinishError {
    ghost from_gives = { λ _ e. e ≡ Memory };

    fn from(_: AllocError) -> FinishError {
        FinishError::Memory
    }
}

/// The index of the texts, from the results of 1 to 64 parts, in any order: what mapping and reducing all
/// of the texts one after another would give.
pub fn finish(
    alloc: Global,
    parts: usize,
    texts: &[Arc<SplitText>],
    results: &[PartResult],
) -> Result<Index, FinishError>
    requires some { 0 < parts }
    requires few { parts ≤ 64 }
    requires covers { All (λ (part : PartView). AreSameTexts part.texts (values_of texts.now)) results.now }
    requires same { All (λ (part : PartView). part.parts ≡ parts) results.now }
    ensures double { IsErrOf result FinishError.DoublePart ↔ HasDouble results.now }
    ensures missing { IsErrOf result FinishError.MissingPart
        ↔ ((HasDouble results.now → ⊥) × HasMissing results.now parts) }
    ensures memory { IsErrOf result FinishError.Memory → HaveWord (values_of texts.now) }
    ensures index { IfOk result (λ index. IsIndexOf (values_of texts.now) index) }
    ensures documents { IfOk result (λ index. (documents : List Document)
        → AreDocumentsOf (values_of texts.now) documents → IsIndexOfDocuments documents index) }
{
    // a part that stands twice is told before one that is missing
    if has_double(results, parts) {
        return Err(FinishError::DoublePart);
    }
    if has_missing(results, parts) {
        return Err(FinishError::MissingPart);
    }
    let table = gathered_results(alloc, results)?;
    Ok(Index {
        entries: table.into_entries(alloc, &Unpaced)?,
    })
}

// Whether the result is of these texts and of this number of parts.
fn is_ready(parts: usize, texts: &[Arc<SplitText>], one: &PartResult) -> bool
    ensures { IsTrue result ↔ (AreSameTexts one.now.texts (values_of texts.now) × (one.now.parts ≡ parts)) }
{
    one.parts() == parts && one.covers(texts)
}

/// Whether each result is of these texts and of this number of parts, as `finish` asks.
pub fn are_ready(parts: usize, texts: &[Arc<SplitText>], results: &[PartResult]) -> bool
    ensures { IsTrue result ↔ AreReady parts (values_of texts.now) results.now }
{
    for one in results {
        if !is_ready(parts, texts, one) {
            return false;
        }
    }
    true
}
