ghost use Rattle.std.specs.Prelude.{◌≡◌, ◌↔◌, Contains, IsTrue};
ghost use Rattle.word_map.specs.Texts.{SplitDocuments};
ghost use Rattle.shuffle_reduce.specs.Merged.{AreSameTexts};
ghost use Rattle.shuffle_reduce.specs.Gather.{values_of};

use std::sync::Arc;
use word_map::SplitText;

/// Whether the lists have the same texts at the same places.
pub fn are_equal_texts(texts: &[Arc<SplitText>], others: &[Arc<SplitText>]) -> bool
    ensures { IsTrue result ↔ (values_of texts.now ≡ values_of others.now) }
{
    if texts.len() != others.len() {
        return false;
    }
    for place in 0..texts.len() {
        if !texts[place].is_same(&others[place]) {
            return false;
        }
    }
    true
}

// Whether the text is one of the others.
fn is_among(text: &SplitText, others: &[Arc<SplitText>]) -> bool
    ensures { IsTrue result ↔ Contains (values_of others.now) text.now }
{
    for other in others {
        if text.is_same(other) {
            return true;
        }
    }
    false
}

// Whether each of the texts is one of the others.
fn all_are_among(texts: &[Arc<SplitText>], others: &[Arc<SplitText>]) -> bool
    ensures { IsTrue result ↔ ((text : SplitDocuments)
        → Contains (values_of texts.now) text → Contains (values_of others.now) text) }
{
    for text in texts {
        if !is_among(text, others) {
            return false;
        }
    }
    true
}

// Whether each of either list is one of the other.
fn are_mutual(texts: &[Arc<SplitText>], others: &[Arc<SplitText>]) -> bool
    ensures { IsTrue result ↔ AreSameTexts (values_of texts.now) (values_of others.now) }
{
    all_are_among(texts, others) && all_are_among(others, texts)
}

/// Whether the lists have the same texts, however often each stands.
pub(crate) fn are_same_texts(texts: &[Arc<SplitText>], others: &[Arc<SplitText>]) -> bool
    ensures { IsTrue result ↔ AreSameTexts (values_of texts.now) (values_of others.now) }
{
    are_equal_texts(texts, others) || are_mutual(texts, others)
}
