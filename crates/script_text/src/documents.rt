ghost use Rattle.std.specs.Prelude.{◌≡◌, ◌≤◌, ◌<◌, [], IfOk, length, map, replicate};
ghost use Rattle.std.specs.List.{enumerate_from};
ghost use Rattle.shuffle_reduce.specs.Gather.{values_of};
ghost use Rattle.line_shapes.specs.declared.keyword.Keyword.TheVariants.{Doc, Split};
ghost use Rattle.line_rules.specs.Known.{nth_row, rows_of};
ghost use Rattle.plan_text.specs.Names.{names_of};
ghost use Rattle.script_text.specs.Documents.{document_of as document_told, documents_of, text_of_split};
ghost use Rattle.script_text.specs.Documents.{texts_of};

use line_shapes::Keyword;
use node_ids::{DocNo, SplitNo};
use plan_text::TidyRows;
use std::alloc::{AllocError, Global};
use std::sync::Arc;
use word_map::{Document, SplitText, Text};

/// The text of each split, by number: its documents, in the order of their lines. Each text is copied once.
pub fn build_texts(
    alloc: Global,
    rows: &TidyRows<'_, '_>,
) -> Result<Vec<Arc<SplitText>>, AllocError>
    ensures { IfOk result (λ texts. values_of texts.items ≡ texts_of rows.now) }
{
    rows.are_tidy();
    let lists = documents_by_split(alloc, rows)?;
    shared_texts(alloc, lists)
}

// The documents of each split, by its number.
fn documents_by_split(
    alloc: Global,
    rows: &TidyRows<'_, '_>,
) -> Result<Vec<Vec<Document>>, AllocError>
    ensures { IfOk result (λ lists. map (λ list. list.items) lists.items
        ≡ map (documents_of (rows_of Doc rows.now)) (names_of Split rows.now)) }
{
    let mut lists = empty_lists(alloc, rows.count(Keyword::Split))?;
    for number in 0..rows.count(Keyword::Doc) {
        let document = document_of(alloc, rows, number)?;
        let split = rows.split(rows.word(Keyword::Doc, number, 1));
        lists[split.index()].push(document)?;
    }
    Ok(lists)
}

fn empty_lists(alloc: Global, count: usize) -> Result<Vec<Vec<Document>>, AllocError>
    ensures { IfOk result (λ lists. map (λ list. list.items) lists.items ≡ replicate count []) }
{
    let mut lists = Vec::with_capacity(alloc, count)?;
    for _ in 0..count {
        lists.push(Vec::new(alloc))?;
    }
    Ok(lists)
}

// The document of a line, by the line's number.
fn document_of(
    alloc: Global,
    rows: &TidyRows<'_, '_>,
    number: usize,
) -> Result<Document, AllocError>
    requires few { length (rows_of Doc rows.now) ≤ 1048576 }
    requires inside { number < length (rows_of Doc rows.now) }
    ensures { IfOk result (λ document. document ≡ document_told (number, nth_row Doc number rows.now)) }
{
    let text = String::from_str(alloc, rows.word(Keyword::Doc, number, 2))?;
    Ok(Document {
        number: DocNo::new(number as u32),
        text: Text::new(text),
    })
}

// The text of each split: list number n has the documents of split n.
fn shared_texts(alloc: Global, lists: Vec<Vec<Document>>) -> Result<Vec<Arc<SplitText>>, AllocError>
    requires { length lists.items ≤ 131072 }
    ensures { IfOk result (λ texts. values_of texts.items
        ≡ map text_of_split (enumerate_from 0 (map (λ list. list.items) lists.items))) }
{
    let mut texts = Vec::with_capacity(alloc, lists.len())?;
    for documents in lists {
        let text = SplitText::new(SplitNo::new(texts.len() as u32), documents);
        texts.push(Arc::new(alloc, text)?)?;
    }
    Ok(texts)
}
