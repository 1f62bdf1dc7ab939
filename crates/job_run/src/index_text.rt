//! Makes the lines of an index. Up to four threads side by side make the lines of a long index.
ghost use Rattle.std.specs.Prelude.{◌≡◌, ◌++◌, ℕ, List, [], IfOk, OnOk, string_bytes};
ghost use Rattle.std.specs.Result.{ForOk};
ghost use Rattle.text_lines.specs.Texts.{Word};
ghost use Rattle.word_map.specs.Entries.{EntryView};
ghost use Rattle.report_lines.specs.Lines.{index_lines, word_lines};

use report_lines::{add_index, add_index_count, add_words};
use std::alloc::{AllocError, Global};
use std::marker::{Brand, PhantomData};
use std::sync::Wait;
use std::thread;
use std::thread::{JoinHandle, Scope, Threads};
use text_lines::NameTable;
use word_map::Entry;

// The lines of an index of fewer words are made by the calling thread alone: they take no longer than it takes
// to start threads.
const FEW_WORDS: usize = 4_096;

// How many bytes of stack a thread asks for that makes lines or lets a master go. A worker's thread asks for
// as many.
pub(crate) const STACK_BYTES: usize = 262_144;

/// The names of documents, and four parts of an index. Each call picks them.
pub trait Cut {
    ghost documents: { List Word };

    ghost part: { ℕ → List EntryView };
}

impl Cut for Brand {
    ghost documents = { [] };

    ghost part = { λ _. [] };
}

// A part of an index, whose lines are to be made.
#[derive(Drop)]
struct Part<'a, 't, C: Cut, const N: usize> {
    documents: &'a NameTable<'t>,
    entries: &'a [Entry],
    of: PhantomData<C>,
    ghost documents_are: { documents.now ≡ C.documents },
    ghost entries_are: { entries.now ≡ C.part N },
}

// The lines of a part, or that there was no memory for them.
#[derive(Drop)]
struct PartLines<C: Cut, const N: usize> {
    made: Result<String, AllocError>,
    of: PhantomData<C>,
    ghost lines: { ForOk made (λ lines. string_bytes lines ≡ word_lines C.documents (C.part N)) },
}

impl<'a, 't, C: Cut + Send + Sync, const N: usize> Part<'a, 't, C, N> {
    fn new(documents: &'a NameTable<'t>, entries: &'a [Entry]) -> Part<'a, 't, C, N>
        requires documents { documents.now ≡ C.documents }
        requires entries { entries.now ≡ C.part N }
    {
        Part {
            documents,
            entries,
            of: PhantomData,
        }
    }

    fn lines(&self, alloc: Global) -> PartLines<C, N> {
        PartLines {
            made: lines_of(alloc, self.documents, self.entries),
            of: PhantomData,
        }
    }

    // Has the lines made in a thread of the scope, if one can be started.
    fn start<'s, E>(
        &'s self,
        scope: &Scope<'s, E>,
        alloc: Global,
    ) -> Option<JoinHandle<PartLines<C, N>>> {
        thread::Builder::new()
            .stack_size(STACK_BYTES)
            .spawn_scoped(scope, move || self.lines(alloc))
            .ok()
    }

    // The lines that a thread has made; where none was started this thread makes them.
    fn finish<R: Threads>(
        &self,
        rt: &R,
        alloc: Global,
        started: Option<JoinHandle<PartLines<C, N>>>,
    ) -> PartLines<C, N> {
        match started {
            Some(thread) => thread.join(rt),
            None => self.lines(alloc),
        }
    }
}

// The four parts of an index.
#[derive(Drop)]
struct Quarters<'a, 't, C: Cut> {
    first: Part<'a, 't, C, 0>,
    second: Part<'a, 't, C, 1>,
    third: Part<'a, 't, C, 2>,
    fourth: Part<'a, 't, C, 3>,
}

// The lines of each.
#[derive(Drop)]
struct QuarterLines<C: Cut> {
    first: PartLines<C, 0>,
    second: PartLines<C, 1>,
    third: PartLines<C, 2>,
    fourth: PartLines<C, 3>,
}

impl<'a, 't, C: Cut + Send + Sync> Quarters<'a, 't, C> {
    // Three threads make the lines of the first three parts, while this thread makes the lines of the fourth part.
    fn lines<R: Threads + Wait>(&self, rt: &R, alloc: Global) -> QuarterLines<C> {
        thread::scope(thread::scope_env(), rt, |scope| -> QuarterLines<C> {
            let first = self.first.start(scope, alloc);
            let second = self.second.start(scope, alloc);
            let third = self.third.start(scope, alloc);
            let fourth = self.fourth.lines(alloc);
            QuarterLines {
                first: self.first.finish(rt, alloc, first),
                second: self.second.finish(rt, alloc, second),
                third: self.third.finish(rt, alloc, third),
                fourth,
            }
        })
    }
}

fn lines_of(
    alloc: Global,
    documents: &NameTable<'_>,
    entries: &[Entry],
) -> Result<String, AllocError>
    ensures { IfOk result (λ lines. string_bytes lines ≡ word_lines documents.now entries.now) }
{
    let mut lines = String::new(alloc);
    add_words(&mut lines, documents, entries)?;
    Ok(lines)
}

/// The lines of an index.
pub(crate) fn index_text<R: Threads + Wait>(
    rt: &R,
    alloc: Global,
    documents: &NameTable<'_>,
    entries: &[Entry],
) -> Result<String, AllocError>
    ensures { IfOk result (λ lines. string_bytes lines ≡ index_lines documents.now entries.now) }
{
    let mut lines = String::new(alloc);
    if entries.len() < FEW_WORDS {
        add_index(&mut lines, documents, entries)?;
        return Ok(lines);
    }
    add_index_count(&mut lines, entries.len())?;
    let (front, back) = entries.split_at(entries.len() / 2);
    let (first, second) = front.split_at(front.len() / 2);
    let (third, fourth) = back.split_at(back.len() / 2);
    add_quarters::<Brand, R>(
        rt, alloc, documents, first, second, third, fourth, &mut lines,
    )?;
    Ok(lines)
}

// The lines of four parts, one after another.
fn add_quarters<'a, C: Cut + Send + Sync, R: Threads + Wait>(
    rt: &R,
    alloc: Global,
    documents: &'a NameTable<'_>,
    first: &'a [Entry],
    second: &'a [Entry],
    third: &'a [Entry],
    fourth: &'a [Entry],
    lines: &mut String,
) -> Result<(), AllocError>
    requires documents { documents.now ≡ C.documents }
    requires first { first.now ≡ C.part 0 }
    requires second { second.now ≡ C.part 1 }
    requires third { third.now ≡ C.part 2 }
    requires fourth { fourth.now ≡ C.part 3 }
    ensures { OnOk result (string_bytes lines.new ≡ string_bytes lines.old
        ++ word_lines documents.now (first.now ++ second.now ++ third.now ++ fourth.now)) }
{
    let quarters = Quarters::<C> {
        first: Part::new(documents, first),
        second: Part::new(documents, second),
        third: Part::new(documents, third),
        fourth: Part::new(documents, fourth),
    };
    let QuarterLines {
        first,
        second,
        third,
        fourth,
    } = quarters.lines(rt, alloc);
    add_made(lines, first)?;
    add_made(lines, second)?;
    add_made(lines, third)?;
    add_made(lines, fourth)
}

fn add_made<C: Cut, const N: usize>(
    lines: &mut String,
    part: PartLines<C, N>,
) -> Result<(), AllocError>
    ensures { OnOk result (string_bytes lines.new
        ≡ string_bytes lines.old ++ word_lines C.documents (C.part N)) }
{
    let PartLines { made, of: _ } = part;
    lines.push_str(made?.as_str())
}
