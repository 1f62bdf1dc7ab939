ghost use Rattle.std.specs.Prelude.{◌≡◌};
ghost use Rattle.word_map.specs.Entries.{EntryView};

use crate::text::Text;
use node_ids::DocNo;
use smallvec::SmallVec;
use std::marker::Model;

/// Numbers of documents: up to four lie in the value itself, as most words of a split have no more.
pub(crate) type Documents = SmallVec<DocNo, 4>;

/// A word with documents that have it.
#[derive(Drop)]
pub struct Entry {
    word: Text,
    documents: Documents,
}

impl Model for Entry {
    ghost Value = { EntryView };

    ghost view = { λ e. record { word = e.word; documents = e.documents.items } };
}

impl Entry {
    pub(crate) fn new(word: Text, documents: Documents) -> Entry
        ensures { result ≡ record { word = word; documents = documents.items } }
    {
        Entry { word, documents }
    }

    /// The word.
    pub fn word(&self) -> &str
        ensures { result.now ≡ self.now.word }
    {
        self.word.as_str()
    }

    /// The documents that have the word.
    pub fn documents(&self) -> &[DocNo]
        ensures { result.now ≡ self.now.documents }
    {
        self.documents.as_slice()
    }
}
