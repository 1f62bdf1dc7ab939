use crate::texts::text;
use node_ids::{DocNo, PartNo};
use shuffle_reduce::{FinishError, Index, PartResult, are_of_part, are_ready, finish, merge};
use std::alloc::{AllocError, Global};
use std::process::Abort;
use std::sync::Arc;
use word_map::{MapResult, Run, SplitText, map_split};

// The result of a part of two, merged of the part's run given twice.
fn merged_twice(
    rt: &impl Abort,
    alloc: Global,
    made: &MapResult,
    part: u8,
) -> Result<PartResult, AllocError> {
    assert!(rt; part < 2);
    assert!(rt; made.parts() == 2);
    let part = PartNo::new(part);
    let run = made.run(part);
    let runs: [Arc<Run>; 2] = [Arc::try_clone(run)?, Arc::try_clone(run)?];
    Ok(merge(alloc, 2, part, &runs)?)
}

// The results of the parts with these numbers.
fn results_of(
    rt: &impl Abort,
    alloc: Global,
    text: &Arc<SplitText>,
    parts: &[u8],
) -> Result<Vec<PartResult>, AllocError> {
    let made = map_split(alloc, Arc::try_clone(text)?, 2)?;
    let mut results = Vec::new(alloc);
    for part in parts {
        results.push(merged_twice(rt, alloc, &made, *part)?)?;
    }
    Ok(results)
}

// What comes of the results, where they are ready.
fn finish_ready(
    alloc: Global,
    texts: &[Arc<SplitText>],
    results: &[PartResult],
) -> Option<Result<Index, FinishError>> {
    if !are_ready(2, texts, results) {
        return None;
    }
    Some(finish(alloc, 2, texts, results))
}

// What comes of the parts with these numbers.
fn finished(
    rt: &impl Abort,
    alloc: Global,
    parts: &[u8],
) -> Result<Option<Result<Index, FinishError>>, AllocError> {
    let text = text(alloc, &["The cat", "cat, THE dog"])?;
    let results = results_of(rt, alloc, &text, parts)?;
    let texts = [text];
    Ok(finish_ready(alloc, &texts, results.as_slice()))
}

// Why there is no index of the parts with these numbers.
fn refusal(rt: &impl Abort, alloc: Global, parts: &[u8]) -> Option<FinishError> {
    match finished(rt, alloc, parts) {
        Ok(Some(Err(why))) => Some(why),
        _ => None,
    }
}

// The entries of the index have these words, and the documents that these numbers begin and end with.
fn has_just(index: &Index, words: &[&str], documents: &[(u32, u32)]) -> bool {
    index.entries().len() == words.len()
        && index
            .entries()
            .iter()
            .zip(words)
            .all(|(entry, word)| entry.word() == *word)
        && index.entries().iter().zip(documents).all(|(entry, (first, last))| {
            entry.documents().first() == Some(&DocNo::new(*first))
                && entry.documents().last() == Some(&DocNo::new(*last))
        })
}

// Whether the parts with these numbers make an index of just these words.
fn make_just(
    rt: &impl Abort,
    alloc: Global,
    parts: &[u8],
    words: &[&str],
    documents: &[(u32, u32)],
) -> bool {
    match finished(rt, alloc, parts) {
        Ok(Some(Ok(index))) => has_just(&index, words, documents),
        _ => false,
    }
}

#[test]
fn each_document_stands_once(rt: HostRuntime) {
    let (words, documents) = (["cat", "dog", "the"], [(0, 1), (1, 1), (0, 1)]);
    assert!(rt; make_just(&rt, rt.alloc(), &[1, 0], &words, &documents));
}

// Parts, and why there is no index of them.
static REFUSED: [(&[u8], FinishError); 4] = [
    (&[1], FinishError::MissingPart),
    (&[], FinishError::MissingPart),
    (&[0, 1, 0], FinishError::DoublePart),
    (&[0, 0], FinishError::DoublePart),
];

#[test]
fn double_comes_before_missing(rt: HostRuntime) {
    for (parts, want) in REFUSED {
        let why = refusal(&rt, rt.alloc(), parts);
        assert_eq!(rt; (parts, why), (parts, Some(want)));
    }
}

// It holds whichever allocation is refused, one or none.
#[test]
fn a_refused_allocation_is_told(rt: HostRuntime) {
    match finished(&rt, rt.alloc(), &[0, 1]) {
        Ok(Some(Ok(index))) => assert_eq!(rt; index.entries().len(), 3),
        Ok(Some(Err(why))) => assert_eq!(rt; why, FinishError::Memory),
        Ok(None) => panic!(rt; "a result does not cover its texts"),
        Err(_) => {}
    }
}

// The second part of a text's result, which has no pair.
fn empty_part(rt: &impl Abort, alloc: Global, own: &Arc<SplitText>) -> PartResult {
    let own = Arc::try_clone(own).expect(rt, "no text");
    let made = map_split(alloc, own, 2).expect(rt, "no result");
    merged_twice(rt, alloc, &made, 1).expect(rt, "no part")
}

#[test]
fn a_result_is_of_its_part(rt: HostRuntime) {
    let own = text(rt.alloc(), &["one"]).expect(&rt, "no text");
    let result = empty_part(&rt, rt.alloc(), &own);
    let told = (
        result.part(),
        result.parts(),
        result.texts().len(),
        result.entries().len(),
    );
    assert_eq!(rt; told, (PartNo::new(1), 2, 2, 0));
}

#[test]
fn no_run_gives_no_pair(rt: HostRuntime) {
    let result = merge(rt.alloc(), 64, PartNo::new(63), &[]).expect(&rt, "no result");
    let told = [
        are_of_part(&[], PartNo::new(63), 64),
        result.covers(&[]),
        result.entries().is_empty(),
    ];
    assert_eq!(rt; told, [true; 3]);
}
