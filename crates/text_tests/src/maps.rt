use crate::texts::text;
use node_ids::{DocNo, PartNo, SplitNo};
use std::alloc::Global;
use std::process::Abort;
use std::sync::Arc;
use word_map::{Document, Entry, MapResult, Run, SplitText, Text, map_split, part_of};

// A word with the numbers of its documents.
type Row = (&'static str, &'static [u32]);

// Whether the entry has just this word with these documents, in this order.
fn is_row(entry: &Entry, word: &str, numbers: &[u32]) -> bool {
    entry.word() == word
        && entry.documents().len() == numbers.len()
        && entry
            .documents()
            .iter()
            .zip(numbers)
            .all(|(document, number)| *document == DocNo::new(*number))
}

// Whether the run has just these words with these documents, in this order.
fn has_just(run: &Run, want: &[Row]) -> bool {
    run.entries().len() == want.len()
        && run
            .entries()
            .iter()
            .zip(want)
            .all(|(entry, (word, numbers))| is_row(entry, word, numbers))
}

fn mapped(alloc: Global, documents: &[&str]) -> Option<MapResult> {
    map_split(alloc, text(alloc, documents).ok()?, 1).ok()
}

// Whether the one part of the text has just these pairs.
fn maps_to(rt: &impl Abort, alloc: Global, documents: &[&str], want: &[Row]) -> bool {
    match mapped(alloc, documents) {
        Some(made) => {
            assert!(rt; made.parts() == 1);
            has_just(made.run(PartNo::new(0)), want)
        }
        None => false,
    }
}

// Words, with the hash of each and its part of two, of three and of five.
static PARTS: [(&str, usize, usize, usize, usize); 5] = [
    ("cat", 98_262, 0, 0, 2),
    ("dog", 99_644, 0, 2, 4),
    ("the", 114_801, 1, 0, 1),
    ("one", 110_182, 0, 1, 2),
    ("two", 115_276, 0, 1, 1),
];

#[test]
fn a_word_has_its_part(rt: HostRuntime) {
    for (word, hash, of_two, of_three, of_five) in PARTS {
        for (parts, part) in [(1 << 32, hash), (2, of_two), (3, of_three), (5, of_five)] {
            assert_eq!(rt; part_of(word, parts), part, "{word} of {parts}");
        }
    }
}

// Whether the two runs are just these.
fn runs_are(rt: &impl Abort, made: &MapResult, first: &[Row], second: &[Row]) -> bool {
    assert!(rt; made.parts() == 2);
    has_just(made.run(PartNo::new(0)), first) && has_just(made.run(PartNo::new(1)), second)
}

// The part of the last run, how many there are, and whether it and the result are of this text.
fn told_of_last(rt: &impl Abort, made: &MapResult, text: &SplitText) -> (PartNo, usize, [bool; 2]) {
    assert!(rt; made.parts() == 2);
    let run = made.run(PartNo::new(1));
    let are_same = [run.text().is_same(text), made.text().is_same(text)];
    (run.part(), run.parts(), are_same)
}

#[test]
fn two_documents_in_two_parts(rt: HostRuntime) {
    let text = text(rt.alloc(), &["The cat", "cat, THE dog"]).expect(&rt, "no text");
    let shared = Arc::try_clone(&text).expect(&rt, "no text");
    let made = map_split(rt.alloc(), shared, 2).expect(&rt, "no result");
    let first: [Row; 2] = [("cat", &[0, 1]), ("dog", &[1])];
    let are_these = runs_are(&rt, &made, &first, &[("the", &[0, 1])]);
    let told = told_of_last(&rt, &made, &text);
    assert_eq!(rt; (are_these, told), (true, (PartNo::new(1), 2, [true; 2])));
}

// Documents, with the pairs that are made of them.
static MAPPED: [(&[&str], &[Row]); 5] = [
    (&["A-a b2B"], &[("a", &[0]), ("b", &[0])]),
    (&["Q"], &[("q", &[0])]),
    (&["4 , 2\t.@[`{"], &[]),
    (&["", "z\u{e9}Z"], &[("z", &[1])]),
    (&[], &[]),
];

#[test]
fn words_are_longest_runs_of_letters(rt: HostRuntime) {
    for (documents, want) in MAPPED {
        assert!(rt; maps_to(&rt, rt.alloc(), documents, want));
    }
}

fn empty_documents(alloc: Global, count: u32) -> Option<Arc<SplitText>> {
    let mut all = Vec::new(alloc);
    for number in 0..count {
        all.push(Document {
            number: DocNo::new(number),
            text: Text::new(String::new(alloc)),
        })
        .ok()?;
    }
    Arc::new(alloc, SplitText::new(SplitNo::new(0), all)).ok()
}

// How many words stand in these runs together.
fn words_in(rt: &impl Abort, made: &MapResult) -> usize {
    assert!(rt; made.parts() == 64);
    let mut words = 0usize;
    for part in 0..64 {
        words = words.saturating_add(made.run(PartNo::new(part)).entries().len());
    }
    words
}

#[test]
fn many_documents_of_nothing(rt: HostRuntime) {
    let text = empty_documents(rt.alloc(), 65_536).expect(&rt, "no text");
    let made = map_split(rt.alloc(), text, 64).expect(&rt, "no result");
    assert_eq!(rt; words_in(&rt, &made), 0);
}
