use node_ids::{DocNo, SplitNo};
use std::alloc::{AllocError, Global};
use std::process::Abort;
use std::sync::Arc;
use word_map::{Document, SplitText, Text};

/// The text of split 7 with these documents, numbered from 0.
pub fn text(alloc: Global, documents: &[&str]) -> Result<Arc<SplitText>, AllocError> {
    let mut all = Vec::new(alloc);
    let mut number = 0u32;
    for document in documents {
        all.push(Document {
            number: DocNo::new(number),
            text: Text::new(String::from_str(alloc, document)?),
        })?;
        number = number.wrapping_add(1);
    }
    Ok(Arc::new(alloc, SplitText::new(SplitNo::new(7), all))?)
}

// Whether the first document has this text, and whether it comes before the second.
fn stand_in_order(rt: &impl Abort, documents: &[Document], first: &Text) -> [bool; 2] {
    assert!(rt; documents.len() == 2);
    [documents[0].text == *first, documents[0] < documents[1]]
}

#[test]
fn texts_stand_in_their_order(rt: HostRuntime) {
    let text = text(rt.alloc(), &["One", "two"]).expect(&rt, "no text");
    let word = Text::new(String::from_str(rt.alloc(), "One").expect(&rt, "no word"));
    assert_eq!(rt; stand_in_order(&rt, text.documents(), &word), [true; 2]);
    assert_eq!(rt; word.into_string().as_str(), "One");
}
