ghost use Rattle.std.specs.Prelude.{◌≡◌, ◌↔◌, IsTrue, nat_eq, Some, string_bytes};
ghost use Rattle.word_map.specs.Texts.{same_text};
ghost use Rattle.std.specs.Ordering.{nat_cmp};
ghost use Rattle.std.specs.Cmp.Lexicographic.{pointwise, slice_cmp, nat_list_eq_equiv, nat_list_cmp_total};
ghost use Rattle.std.specs.Cmp.Lexicographic.{texts_ties, texts_po};
ghost use Rattle.std.specs.Cmp;
ghost use Rattle.std.proofs.Common.{refl};

use node_ids::{DocNo, SplitNo};
use std::cmp::Ordering;
use std::marker::Model;

/// A text of its own memory. A contract sees its bytes, and texts compare by them.
#[derive(Debug, Drop)]
pub struct Text {
    bytes: String,
}

impl Model for Text {
    ghost use Rattle.std.specs.Prelude.{ℕ, List, string_bytes};

    ghost Value = { List ℕ };

    ghost view = { λ t. string_bytes t.bytes };
}

impl Text {
    /// The text of the string.
    pub fn new(bytes: String) -> Text
        ensures { result ≡ string_bytes bytes }
    {
        Text { bytes }
    }

    /// The text, borrowed.
    pub fn as_str(&self) -> &str
        ensures { result.now ≡ self.now }
    {
        self.bytes.as_str()
    }

    /// The string of the text.
    pub fn into_string(self) -> String
        ensures { string_bytes result ≡ self }
    {
        self.bytes
    }
}

impl PartialEq for Text {
    ghost eq = { pointwise nat_eq };

    ghost laws = { Cmp.partial_equiv_from_equiv nat_list_eq_equiv };

    fn eq(&self, other: &Self) -> bool {
        self.bytes.as_str() == other.bytes.as_str()
    }
}

impl Eq for Text {
    ghost laws = { nat_list_eq_equiv };
}

impl PartialOrd for Text {
    ghost partial_cmp = { λ x y. Some (slice_cmp nat_cmp x y) };

    ghost laws = { texts_po };

    fn partial_cmp(&self, other: &Self) -> Option<Ordering> {
        Some(self.cmp(other))
    }
}

impl Ord for Text {
    ghost cmp = { slice_cmp nat_cmp };

    ghost total = { nat_list_cmp_total };

    ghost matches_partial_cmp = { λ x y. refl };

    ghost matches_eq = { λ x y. texts_ties x y };

    fn cmp(&self, other: &Self) -> Ordering {
        self.bytes.as_str().cmp(other.bytes.as_str())
    }
}

/// A document with its number. Its words are the longest runs of ASCII letters in its text, in lower case.
#[derive(Debug, PartialEq, Eq, PartialOrd, Ord, Drop)]
pub struct Document {
    pub number: DocNo,
    pub text: Text,
}

/// What is mapped for a split: its number and its documents. It is shared by `Arc`.
#[derive(Debug, Drop)]
pub struct SplitText {
    split: SplitNo,
    documents: Vec<Document>,
}

impl Model for SplitText {
    ghost use Rattle.word_map.specs.Texts.{SplitDocuments};

    ghost Value = { SplitDocuments };

    ghost view = { λ t. record { split = t.split; documents = t.documents.items } };
}

impl SplitText {
    /// The text of the split.
    pub fn new(split: SplitNo, documents: Vec<Document>) -> SplitText
        ensures { result ≡ record { split = split; documents = documents.items } }
    {
        SplitText { split, documents }
    }

    /// The number of the split.
    pub fn split(&self) -> SplitNo
        ensures { result ≡ self.now.split }
    {
        self.split
    }

    /// The documents, in the order in which they were given.
    pub fn documents(&self) -> &[Document]
        ensures { result.now ≡ self.now.documents }
    {
        self.documents.as_slice()
    }

    /// Whether the other text has the same split, and the same documents in the same order.
    pub fn is_same(&self, other: &SplitText) -> bool
        ensures same { IsTrue result ↔ (self.now ≡ other.now) }
        ensures value { result ≡ same_text self.now other.now }
    {
        self.split == other.split && self.documents.as_slice() == other.documents.as_slice()
    }
}
