ghost use Rattle.std.specs.Prelude.{◌≡◌, ◌++◌, ◌∷◌, ◌↔◌, ◌≤◌, ◌<◌, IfOk, IsTrue, MatchOption, OnErr, OnOk};
ghost use Rattle.std.specs.Prelude.{length, take, List, map, []};
ghost use Rattle.line_shapes.specs.Lines.{statement_of};
ghost use Rattle.line_rules.specs.Rows.{AreWithin, IsKeptAt, Kept, kept_at, kept_of};
ghost use Rattle.line_rules.specs.Rows.Kept.{Bar, Line};

use line_shapes::{KeyedLine, Keyword};
use std::alloc::{AllocError, Global};
use std::marker::Model;

// The words of all lines are fewer than so many.
const MOST_WORDS: usize = 4_294_967_296;

/// Lines, in their order. The words of all lines stand in one list, so that no line allocates its own. The line
/// of a barred pair is kept as the numbers of its split and its worker.
#[derive(Drop)]
pub struct LineList<'t> {
    places: Vec<LinePlace>,
    words: Vec<&'t str>,
}

/// How a line is kept.
#[derive(Clone, Copy)]
pub enum LinePlace {
    Words(WordsPlace),
    /// A barred pair, by the numbers of its split and its worker.
    Bar(u32, u32),
}

/// A line's keyword, and where its words stand among those of all lines.
#[derive(Clone, Copy)]
pub struct WordsPlace {
    keyword: Keyword,
    start: u32,
    end: u32,
}

/// A line of the list.
#[derive(Clone, Copy)]
pub enum KeptLine<'w, 't> {
    Line(KeyedLine<'w, 't>),
    /// A barred pair, by the numbers of its split and its worker.
    Bar(u32, u32),
}

impl<'t> Model for LineList<'t> {
    ghost Value = { List Kept };

    ghost view = { λ l. map (kept_at l.words.items) l.places.items };

    ghost invariant = { λ l. AreWithin l.words.items l.places.items };
}

impl<'t> LineList<'t> {
    /// No lines, with room for so many, and for their words.
    pub fn with_room(alloc: Global, lines: usize, words: usize) -> Result<LineList<'t>, AllocError>
        ensures { IfOk result (λ list. list ≡ []) }
    {
        let places = Vec::with_capacity(alloc, lines)?;
        let words = Vec::with_capacity(alloc, words)?;
        Ok(LineList { places, words })
    }

    /// How many lines there are.
    pub fn len(&self) -> usize
        ensures { result ≡ length self.now }
    {
        self.places.len()
    }

    /// Whether there are none.
    pub fn is_empty(&self) -> bool
        ensures { IsTrue result ↔ (self.now ≡ []) }
    {
        self.places.is_empty()
    }

    /// A line, counted from 0.
    pub fn line(&self, place: usize) -> Option<KeptLine<'_, 't>>
        ensures { MatchOption result (length self.now ≤ place)
            (λ line. (place < length self.now) × IsKeptAt self.now place (kept_of line)) }
    {
        match self.places.get(place) {
            Some(LinePlace::Words(at)) => Some(KeptLine::Line(KeyedLine {
                keyword: at.keyword,
                words: &self.words[at.start as usize..at.end as usize],
            })),
            Some(LinePlace::Bar(first, second)) => Some(KeptLine::Bar(*first, *second)),
            None => None,
        }
    }

    /// Puts a line behind the others. After an error it was not put.
    #[inline(always)]
    pub fn push(&mut self, line: &KeyedLine<'_, 't>) -> Result<(), AllocError>
        ensures ok { OnOk result (self.new ≡ self.old ++ Line (statement_of line.now) ∷ []) }
        ensures err { OnErr result (self.new ≡ self.old) }
    {
        let start = short_place(self.words.len())?;
        self.places.reserve(1)?;
        add_words(&mut self.words, line.words)?;
        let end = short_place(self.words.len())?;
        let at = WordsPlace {
            keyword: line.keyword,
            start,
            end,
        };
        self.places.push_reserved(LinePlace::Words(at));
        Ok(())
    }

    /// Puts a barred pair behind the lines, by the numbers of its split and its worker. After an error it was
    /// not put.
    pub fn push_bar(&mut self, first: u32, second: u32) -> Result<(), AllocError>
        ensures ok { OnOk result (self.new ≡ self.old ++ Bar first second ∷ []) }
        ensures err { OnErr result (self.new ≡ self.old) }
    {
        self.places.push(LinePlace::Bar(first, second))?;
        Ok(())
    }

    /// Leaves so many lines, the first ones, where there are more.
    pub fn truncate(&mut self, count: usize)
        ensures { self.new ≡ take count self.old }
    {
        self.places.truncate(count);
    }
}

// Appends words to a list. Most lines have few words: a loop appends few of them sooner than a copy of memory
// does.
#[inline(always)]
fn add_words<'t>(list: &mut Vec<&'t str>, words: &[&'t str]) -> Result<(), AllocError>
    ensures ok { OnOk result (list.new.items ≡ list.old.items ++ words.now) }
    ensures err { OnErr result (list.new.items ≡ list.old.items) }
{
    list.reserve(words.len())?;
    for word in words {
        list.push_reserved(*word);
    }
    Ok(())
}

// A place among the words in 32 bits. A list of more words than these count is an error of memory.
#[inline(always)]
fn short_place(place: usize) -> Result<u32, AllocError>
    ensures { IfOk result (λ short. short ≡ place) }
{
    if place < MOST_WORDS {
        Ok(place as u32)
    } else {
        Err(AllocError)
    }
}
